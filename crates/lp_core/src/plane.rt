//! The plane of a row that has become an equation in a program of three variables: what is left of the rows before it is a
//! program of two variables, which the walk in 64 bits takes.

ghost use Rattle.lp_cert.specs.Program.{IsProgram, IsRow, entry, row_at};
ghost use Rattle.lp_core.specs.Lines.{all_seen, line_at};
ghost use Rattle.lp_core.specs.Planar.{line_of, lines_of, whole_of};
ghost use Rattle.lp_core.specs.Search.{IsOutcome, IsReduced};
ghost use Rattle.lp_core.specs.Sizes.{AreAtMost, IsSmallLine};
ghost use Rattle.lp_core.specs.Smaller.{rest_of, smaller};
ghost use Rattle.lp_core.specs.Turned.{AreLeft, IsLeft, items_back, num_back, outcome_back, turned, turned_row};
ghost use Rattle.std.specs.Int.RustNames.{unsigned_abs};
ghost use Rattle.std.specs.Prelude.{ℕ, ◌*ℤ◌, ◌-ℤ◌, ◌<◌, ◌^◌, ◌≡◌, ◌≤◌, All, IfSome, IsTrue, length, max, pos};

use crate::pivot::Pivot;
use crate::planar;
use crate::reduced::Optimum;
use crate::search::Outcome;
use lp_cert::{Multipliers, Row, Rows};

/// The greatest side that is taken here: two of them are the greatest side of the walk.
const LIMIT: i128 = 1 << 50;

/// Whether all sides are small.
fn are_small(rows: &Rows) -> bool
    ensures { IsTrue result → (l : ℕ) → l < length rows.now.rows → unsigned_abs (row_at rows.now l).h ≤ 2 ^ 50 }
{
    for l in 0..rows.len() {
        let side = rows.row(l).h;
        if side < -LIMIT || LIMIT < side {
            return false;
        }
    }
    true
}

/// The place of a variable, where the one that goes and the last are exchanged.
fn place_of(gone: usize, k: usize) -> usize
    requires gone { gone < 3 }
    requires inside { k < 3 }
    ensures value { result ≡ turned gone k }
    ensures inside { result < 3 }
{
    if k == gone {
        return 2;
    }
    if k == 2 { gone } else { k }
}

/// The number of a row, where the boxes of the variables are exchanged with them.
fn number_of(gone: usize, l: u32) -> u32
    requires { gone < 3 }
    ensures { result ≡ turned_row gone l }
{
    if l < 6 {
        2 * place_of(gone, l as usize / 2) as u32 + l % 2
    } else {
        l
    }
}

/// A number less a multiple of another, in 64 bits.
fn less(a: i128, times: i128, b: i128) -> i64
    requires left { unsigned_abs a ≤ 2 ^ 50 }
    requires times { unsigned_abs times ≤ 1 }
    requires right { unsigned_abs b ≤ 2 ^ 50 }
    ensures { result ≡ a -ℤ times *ℤ b }
{
    a as i64 - times as i64 * b as i64
}

/// What is left of an entry.
fn entry_on(a: i32, times: i128, b: i128) -> i32
    requires left { unsigned_abs a ≤ 1 }
    requires times { unsigned_abs times ≤ 1 }
    requires right { unsigned_abs b ≤ 1 }
    ensures value { result ≡ a -ℤ times *ℤ b }
    ensures small { unsigned_abs result ≤ 2 }
{
    less(a as i128, times, b) as i32
}

/// What is left of a side.
fn side_on(a: i128, times: i128, b: i128) -> i128
    requires left { unsigned_abs a ≤ 2 ^ 50 }
    requires times { unsigned_abs times ≤ 1 }
    requires right { unsigned_abs b ≤ 2 ^ 50 }
    ensures value { result ≡ a -ℤ times *ℤ b }
    ensures small { unsigned_abs result ≤ 2 ^ 51 }
{
    less(a, times, b) as i128
}

/// How often the row of the plane is taken from a row.
fn times_on(pivot: &Pivot, row: Row) -> i128
    requires { IsSmallLine 1 (2 ^ 50) (line_of row) }
    ensures value { result ≡ pivot.now.sign *ℤ entry row.c pivot.now.place }
    ensures small { unsigned_abs result ≤ 1 }
{
    pivot.sign * row.c[pivot.place] as i128
}

/// What is left of a row on the plane, in the two variables that stay.
fn row_on(pivot: &Pivot, row: Row) -> Row
    requires own { IsSmallLine 1 (2 ^ 50) pivot.now.line }
    requires small { IsSmallLine 1 (2 ^ 50) (line_of row) }
    ensures left { IsLeft pivot.now (line_of row) (line_of result) }
    ensures right { IsRow 2 result }
{
    let times = times_on(pivot, row);
    let line = pivot.line;
    let first = place_of(pivot.place, 0);
    let second = place_of(pivot.place, 1);
    Row {
        c: [
            entry_on(row.c[first], times, line.c[first]),
            entry_on(row.c[second], times, line.c[second]),
            0,
        ],
        h: side_on(row.h, times, line.h),
    }
}

/// What is left of the row of a number.
fn left_at(rows: &Rows, pivot: &Pivot, l: u32) -> Row
    requires dimension { rows.now.dimension ≡ 3 }
    requires within { l < length rows.now.rows }
    requires own { IsSmallLine 1 (2 ^ 50) pivot.now.line }
    requires small { unsigned_abs (row_at rows.now l).h ≤ 2 ^ 50 }
    ensures left { IsLeft pivot.now (line_of (row_at rows.now l)) (line_of result) }
    ensures right { IsRow 2 result }
{
    row_on(pivot, rows.row(l))
}

/// The side of a row.
fn side_at(rows: &Rows, l: u32) -> i128
    requires { l < length rows.now.rows }
    ensures value { result ≡ (row_at rows.now l).h }
    ensures small { unsigned_abs result ≤ 2 ^ 64 }
{
    rows.row(l).h
}

/// The box of the two variables that stay.
fn box_on(rows: &Rows, pivot: &Pivot) -> Rows
    requires program { IsProgram rows.now }
    requires dimension { rows.now.dimension ≡ 3 }
    ensures dimension { result.dimension ≡ 2 }
    ensures count { length result.rows ≡ 4 }
    ensures each { AreLeft pivot.now rows.now 4 result }
{
    let first = 2 * place_of(pivot.place, 0) as u32;
    let second = 2 * place_of(pivot.place, 1) as u32;
    let first_upper = side_at(rows, first);
    let first_lower = side_at(rows, first + 1);
    let second_upper = side_at(rows, second);
    let second_lower = side_at(rows, second + 1);
    Rows::boxed(&[first_upper, second_upper], &[first_lower, second_lower])
}

/// What is left of the rows before row `r` on its plane.
fn rows_on(rows: &Rows, pivot: &Pivot, r: u32) -> Rows
    requires program { IsProgram rows.now }
    requires dimension { rows.now.dimension ≡ 3 }
    requires within { r < length rows.now.rows }
    requires own { IsSmallLine 1 (2 ^ 50) pivot.now.line }
    requires small { (l : ℕ) → l < length rows.now.rows → unsigned_abs (row_at rows.now l).h ≤ 2 ^ 50 }
    ensures dimension { result.dimension ≡ 2 }
    ensures count { length result.rows ≡ max r 6 }
    ensures each { AreLeft pivot.now rows.now (max r 6) result }
{
    let own = 2 * pivot.place as u32;
    let mut left = box_on(rows, pivot);
    left.add(left_at(rows, pivot, own));
    left.add(left_at(rows, pivot, own + 1));
    for l in 6..r {
        left.add(left_at(rows, pivot, l));
    }
    left
}

/// The entry at a place, in 32 bits.
fn weight_at(rest: [i128; 3], k: usize) -> i32
    requires inside { k < 3 }
    requires small { AreAtMost 8192 rest }
    ensures value { result ≡ entry rest k }
    ensures small { unsigned_abs result ≤ 8192 }
{
    rest[k] as i32
}

/// What is left of the objective.
fn objective_on(pivot: &Pivot, objective: [i128; 3]) -> [i32; 3]
    requires own { IsSmallLine 1 (2 ^ 50) pivot.now.line }
    requires small { AreAtMost 4096 objective }
    ensures small { All (λ x. unsigned_abs x ≤ 8192) result }
    ensures zeros { (k : ℕ) → 2 ≤ k → entry result k ≡ pos 0 }
    ensures entries { (k : ℕ) → k < 3 → entry result k ≡ entry (rest_of pivot.now objective) (turned pivot.now.place k) }
{
    let rest = pivot.rest(objective);
    let first = weight_at(rest, place_of(pivot.place, 0));
    let second = weight_at(rest, place_of(pivot.place, 1));
    [first, second, 0]
}

/// Multipliers of the rows by their numbers in the program of three variables.
fn items_back(gone: usize, items: &Multipliers) -> Multipliers
    requires { gone < 3 }
    ensures { result ≡ items_back gone items.now }
{
    let mut back = Multipliers::new();
    for i in 0..items.len() {
        let (l, times) = *items.get(i);
        back.push((number_of(gone, l), times));
    }
    back
}

/// A point by its places in three variables.
fn num_back(gone: usize, num: [i128; 3]) -> [i128; 3]
    requires { gone < 3 }
    ensures { result ≡ num_back gone num }
{
    [
        num[place_of(gone, 0)],
        num[place_of(gone, 1)],
        num[place_of(gone, 2)],
    ]
}

/// What a program comes to, in three variables.
fn outcome_back(gone: usize, outcome: Outcome) -> Outcome
    requires { gone < 3 }
    ensures { result ≡ outcome_back gone outcome }
{
    match outcome {
        Outcome::Best(best) => Outcome::Best(Optimum {
            num: num_back(gone, best.num),
            den: best.den,
            items: items_back(gone, &best.items),
        }),
        Outcome::Infeasible(items) => Outcome::Infeasible(items_back(gone, &items)),
    }
}

/// Rows are a program.
fn rules(rows: &Rows)
    ensures { IsProgram rows.now }
{
    let _dimension = rows.dimension();
}

/// What is left of a program of three variables on the plane of row `r` comes to, if the sides are small.
pub fn walked(rows: &Rows, objective: [i128; 3], pivot: &Pivot, r: u32) -> Option<Outcome>
    requires program { IsProgram rows.now }
    requires dimension { rows.now.dimension ≡ 3 }
    requires reduced { IsReduced (whole_of rows.now) objective }
    requires within { r < length (lines_of rows.now) }
    requires line { pivot.now.line ≡ line_at (lines_of rows.now) r }
    ensures { IfSome result (IsOutcome all_seen (smaller pivot.now (whole_of rows.now) r) (rest_of pivot.now objective)) }
{
    if !are_small(rows) {
        return None;
    }
    let left = rows_on(rows, pivot, r);
    rules(&left);
    let outcome = planar::walk(&left, objective_on(pivot, objective))?;
    Some(outcome_back(pivot.place, outcome))
}
