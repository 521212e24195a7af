// Named programs, and a comparison with a search over all corners.
ghost use Rattle.lp_cert.specs.Program.{IsRow, entry, entry_limit};
ghost use Rattle.std.specs.Int.RustNames.{unsigned_abs};
ghost use Rattle.std.specs.Prelude.{ℕ, ◌^◌, ◌≡◌, ◌≤◌, All, pos};

use super::*;
use lp_cert::Row;
use std::alloc::{AllocError, Global};
use std::test::Fail;

const LARGE: i128 = 1 << 64;

/// The equation `c*y = h`.
#[derive(Clone, Copy)]
struct Plane {
    c: [i128; 3],
    h: i128,
}

fn scalar(a: [i128; 3], b: [i128; 3]) -> i128 {
    a[0].wrapping_mul(b[0])
        .wrapping_add(a[1].wrapping_mul(b[1]))
        .wrapping_add(a[2].wrapping_mul(b[2]))
}

fn cross(a: [i128; 3], b: [i128; 3]) -> [i128; 3] {
    [
        a[1].wrapping_mul(b[2])
            .wrapping_sub(a[2].wrapping_mul(b[1])),
        a[2].wrapping_mul(b[0])
            .wrapping_sub(a[0].wrapping_mul(b[2])),
        a[0].wrapping_mul(b[1])
            .wrapping_sub(a[1].wrapping_mul(b[0])),
    ]
}

/// The point where three planes meet, by Cramer's rule, if they meet in one.
fn meeting(a: Plane, b: Plane, c: Plane) -> Option<Point> {
    let first = cross(b.c, c.c);
    let second = cross(c.c, a.c);
    let third = cross(a.c, b.c);
    let det = scalar(a.c, first);
    let sides = if det < 0 {
        [a.h.wrapping_neg(), b.h.wrapping_neg(), c.h.wrapping_neg()]
    } else {
        [a.h, b.h, c.h]
    };
    if det == 0 {
        return None;
    }
    Some(Point {
        num: [
            scalar(sides, [first[0], second[0], third[0]]),
            scalar(sides, [first[1], second[1], third[1]]),
            scalar(sides, [first[2], second[2], third[2]]),
        ],
        den: det.wrapping_abs(),
    })
}

fn is_better(objective: [i32; 3], point: Point, best: Option<Point>) -> bool {
    match best {
        None => true,
        Some(old) => {
            at(objective, point.num).wrapping_mul(old.den)
                > at(objective, old.num).wrapping_mul(point.den)
        }
    }
}

/// The best corner of a program, by trying all. A variable that it hasn't got is 0.
fn by_search(alloc: Global, rows: &Rows, objective: [i32; 3]) -> Result<Option<Point>, AllocError> {
    let mut planes = Vec::new(alloc);
    for l in 0..rows.len() {
        let row = rows.row(l);
        let c = [
            i128::from(row.c[0]),
            i128::from(row.c[1]),
            i128::from(row.c[2]),
        ];
        planes.push(Plane { c, h: row.h })?;
    }
    let second_is_0 = [Plane { c: [0, 1, 0], h: 0 }];
    let third_is_0 = [Plane { c: [0, 0, 1], h: 0 }];
    let seconds = if rows.dimension() > 1 {
        planes.as_slice()
    } else {
        second_is_0.as_slice()
    };
    let thirds = if rows.dimension() > 2 {
        planes.as_slice()
    } else {
        third_is_0.as_slice()
    };
    let mut best = None;
    for a in planes.iter() {
        for b in seconds {
            for c in thirds {
                if let Some(point) = meeting(*a, *b, *c) {
                    if meets_all(rows, point) && is_better(objective, point, best) {
                        best = Some(point);
                    }
                }
            }
        }
    }
    Ok(best)
}

/// Whether the search finds the value that was answered.
fn is_found(
    alloc: Global,
    rows: &Rows,
    objective: [i32; 3],
    answer: &LpAnswer,
) -> Result<bool, AllocError> {
    Ok(match (by_search(alloc, rows, objective)?, answer) {
        (Some(found), LpAnswer::Best { point, value, .. }) => {
            at(objective, found.num).wrapping_mul(point.den) == value.wrapping_mul(found.den)
        }
        (None, LpAnswer::Infeasible { .. }) => true,
        _ => false,
    })
}

/// Whether the answer has this value over this denominator, or says that there is none.
fn has_value(answer: &LpAnswer, wanted: Option<(i128, i128)>) -> bool {
    match (answer, wanted) {
        (LpAnswer::Best { point, value, .. }, Some((num, den))) => {
            value.wrapping_mul(den) == num.wrapping_mul(point.den)
        }
        (LpAnswer::Infeasible { .. }, None) => true,
        _ => false,
    }
}

fn row_of(c: [i32; 3], h: i128) -> Row
    ensures { result ≡ record { c = c; h = h } }
{
    Row { c, h }
}

#[test]
fn square_and_a_row_that_misses_it(rt: HostRuntime) {
    let mut rows = Rows::boxed(&[1, 1], &[0, 0]);
    match solve(&rows, [1, 1, 0]) {
        LpAnswer::Best { point, value, .. } => {
            assert_eq!(rt; point.num, [point.den, point.den, 0]);
            assert_eq!(rt; value, point.den.wrapping_mul(2));
        }
        LpAnswer::Infeasible { .. } => assert!(rt; false, "no point of the square"),
    }
    rows.add(row_of([-1, 0, 0], -2));
    match solve(&rows, [1, 1, 0]) {
        LpAnswer::Best { .. } => assert!(rt; false, "a point beyond the square"),
        LpAnswer::Infeasible { farkas } => assert!(rt; farkas.items.len() > 0),
    }
}

#[test]
fn programs_in_one_variable(rt: HostRuntime) {
    let mut rows = Rows::boxed(&[5], &[3]);
    assert!(rt;
        has_value(&solve(&rows, [-7, 0, 0]), Some((21, 1))),
        "an end of the box"
    );
    rows.add(row_of([2, 0, 0], 7));
    assert!(rt;
        has_value(&solve(&rows, [3, 0, 0]), Some((21, 2))),
        "a row that cuts the box"
    );
    rows.add(row_of([-3, 0, 0], -11));
    assert!(rt;
        has_value(&solve(&rows, [3, 0, 0]), None),
        "two rows that cross"
    );
    let empty = Rows::boxed(&[1], &[-2]);
    assert!(rt; has_value(&solve(&empty, [1, 0, 0]), None), "an empty box");
    let large = Rows::boxed(&[LARGE], &[LARGE]);
    assert!(rt;
        has_value(&solve(&large, [-4096, 0, 0]), Some((4096 * LARGE, 1))),
        "the largest sides"
    );
}

#[test]
fn programs_in_two_variables(rt: HostRuntime) {
    let mut square = Rows::boxed(&[1, 1], &[0, 0]);
    square.add(row_of([1, 1, 0], 2));
    assert!(rt;
        has_value(&solve(&square, [1, 1, 0]), Some((2, 1))),
        "three rows in one point"
    );
    square.add(row_of([1, 1, 0], 1));
    square.add(row_of([1, 1, 0], 1));
    square.add(row_of([2, 2, 0], 3));
    assert!(rt;
        has_value(&solve(&square, [2, 2, 0]), Some((2, 1))),
        "an edge, equal and parallel rows"
    );
    square.add(row_of([-1, -1, 0], -2));
    assert!(rt;
        has_value(&solve(&square, [1, 0, 0]), None),
        "parallel rows that cross"
    );
    let point = Rows::boxed(&[2, 3], &[-2, -3]);
    assert!(rt;
        has_value(&solve(&point, [5, -7, 0]), Some((-11, 1))),
        "a single point"
    );
    let mut cut = Rows::boxed(&[10, 10], &[10, 10]);
    cut.add(row_of([3, 2, 0], 4));
    cut.add(row_of([2, 3, 0], 5));
    assert!(rt;
        has_value(&solve(&cut, [1, 1, 0]), Some((9, 5))),
        "a point of fractions"
    );
    let mut large = Rows::boxed(&[LARGE, LARGE], &[LARGE, LARGE]);
    large.add(row_of([3, 3, 0], LARGE));
    assert!(rt;
        has_value(&solve(&large, [4096, 4096, 0]), Some((4096 * LARGE, 3))),
        "the largest sides"
    );
    large.add(row_of([-1, 2, 0], LARGE));
    assert!(rt;
        has_value(&solve(&large, [0, 1, 0]), Some((4 * LARGE, 9))),
        "two rows that cut the largest box"
    );
    large.add(row_of([0, -1, 0], -LARGE));
    assert!(rt;
        has_value(&solve(&large, [1, 0, 0]), None),
        "rows that cross in the largest box"
    );
    large.reset(&[3, 5], &[0, -6]);
    assert!(rt; has_value(&solve(&large, [1, 1, 0]), None), "an empty box");
    large.reset(&[3, 5], &[0, 0]);
    assert!(rt;
        has_value(&solve(&large, [1, 1, 0]), Some((8, 1))),
        "rows that were filled again"
    );
}

#[test]
fn programs_in_three_variables(rt: HostRuntime) {
    let mut cube = Rows::boxed(&[1, 1, 1], &[0, 0, 0]);
    assert!(rt;
        has_value(&solve(&cube, [1, -1, 4096]), Some((4097, 1))),
        "a corner of the box"
    );
    cube.add(row_of([1, 1, 0], 1));
    cube.add(row_of([0, 1, 1], 1));
    cube.add(row_of([1, 0, 1], 1));
    assert!(rt;
        has_value(&solve(&cube, [1, 1, 1]), Some((3, 2))),
        "a point of halves"
    );
    cube.add(row_of([-1, -1, -1], -2));
    assert!(rt; has_value(&solve(&cube, [1, 1, 1]), None), "no point");
    let mut large = Rows::boxed(&[LARGE, LARGE, LARGE], &[LARGE, LARGE, LARGE]);
    assert!(rt;
        has_value(
            &solve(&large, [4096, -4096, 4096]),
            Some((12288 * LARGE, 1))
        ),
        "the largest sides"
    );
    large.add(row_of([1, 1, 0], LARGE));
    large.add(row_of([0, 1, 1], LARGE));
    large.add(row_of([1, 0, 1], LARGE));
    assert!(rt;
        has_value(&solve(&large, [1, 1, 1]), Some((3 * LARGE, 2))),
        "a point of halves in the largest box"
    );
    large.add(row_of([-1, -1, 0], -LARGE));
    large.add(row_of([0, 0, -1], -LARGE));
    assert!(rt;
        has_value(&solve(&large, [1, 1, 1]), None),
        "no point of the largest box"
    );
}

/// A number from `-most` to `most`, of a fixed congruential generator.
fn next(state: &mut u64, most: u64) -> i128
    requires { most ≤ 2 ^ 13 }
    ensures { unsigned_abs result ≤ most }
{
    *state = state
        .wrapping_mul(6364136223846793005)
        .wrapping_add(1442695040888963407);
    i128::from((*state >> 33) % (2 * most + 1)) - i128::from(most)
}

fn part(state: &mut u64, most: u64) -> i32
    requires { most ≤ 2 ^ 13 }
    ensures { unsigned_abs result ≤ most }
{
    next(state, most) as i32
}

/// A vector of the first `dimension` variables.
fn vector(state: &mut u64, dimension: u32, most: u64) -> [i32; 3]
    requires some { 1 ≤ dimension }
    requires most { most ≤ 2 ^ 13 }
    ensures small { All (λ x. unsigned_abs x ≤ most) result }
    ensures zeros { (k : ℕ) → dimension ≤ k → entry result k ≡ pos 0 }
{
    let first = part(state, most);
    if dimension == 1 {
        return [first, 0, 0];
    }
    let second = part(state, most);
    if dimension == 2 {
        return [first, second, 0];
    }
    [first, second, part(state, most)]
}

fn limit(dimension: u32) -> u64
    ensures value { result ≡ entry_limit dimension }
    ensures small { result ≤ 3 }
{
    if dimension == 3 { 1 } else { 3 }
}

fn row(state: &mut u64, dimension: u32) -> Row
    requires { 1 ≤ dimension }
    ensures { IsRow dimension result }
{
    let c = vector(state, dimension, limit(dimension));
    let h = next(state, 40) + 35;
    Row { c, h }
}

fn side(state: &mut u64) -> i128
    ensures { unsigned_abs result ≤ 2 ^ 64 }
{
    next(state, 9) + 8
}

fn sides(state: &mut u64) -> [i128; 3]
    ensures { All (λ h. unsigned_abs h ≤ 2 ^ 64) result }
{
    [side(state), side(state), side(state)]
}

/// A program of this dimension with at most so many rows.
fn generated(state: &mut u64, dimension: u32, count: u32) -> Rows
    requires some { 1 ≤ dimension }
    requires few { dimension ≤ 3 }
    requires room { count ≤ 40 }
    ensures { result.dimension ≡ dimension }
{
    let upper = sides(state);
    let lower = sides(state);
    let mut rows = Rows::boxed(&upper[..dimension as usize], &lower[..dimension as usize]);
    while rows.len() < count {
        rows.add(row(state, dimension));
    }
    rows
}

fn at(c: [i32; 3], num: [i128; 3]) -> i128 {
    i128::from(c[0])
        .wrapping_mul(num[0])
        .wrapping_add(i128::from(c[1]).wrapping_mul(num[1]))
        .wrapping_add(i128::from(c[2]).wrapping_mul(num[2]))
}

fn meets_all(rows: &Rows, point: Point) -> bool {
    for l in 0..rows.len() {
        let row = rows.row(l);
        if at(row.c, point.num) > row.h.wrapping_mul(point.den) {
            return false;
        }
    }
    true
}

#[test]
fn answers_are_those_of_a_search(rt: HostRuntime) -> Result<(), Fail> {
    let mut state = 7;
    let mut empty = 0u32;
    for case in 0..300u32 {
        let dimension = case % 3 + 1;
        let rows = generated(&mut state, dimension, case % 13);
        let most = if case % 2 == 0 { 4096 } else { 3 };
        let objective = vector(&mut state, dimension, most);
        let answer = solve(&rows, objective);
        assert!(rt; is_found(rt.alloc(), &rows, objective, &answer)?, "{case}");
        if let LpAnswer::Infeasible { .. } = answer {
            empty = empty.wrapping_add(1);
        }
    }
    assert!(rt; 0 < empty && empty < 300);
    Ok(())
}
