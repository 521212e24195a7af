// The operator's row levels beside those of a search over all corners.
ghost use Rattle.std.specs.Prelude.{◌≡◌, ◌+◌, ◌≤◌, ◌<◌, ◌^◌, ◌/◌, All, IfOk, length};
ghost use Rattle.std.specs.Int.RustNames.{unsigned_abs};
ghost use Rattle.game_model.specs.Parts.{shape_of};
ghost use Rattle.level_table.specs.Problem.{problem_of};
ghost use Rattle.level_table.specs.Tables.{HasSmallOpening, IsSmallTable};
ghost use Rattle.operator_search.specs.SmallGames.{AreSmall, small_game};

use direction_set::Directions;
use game_model::{Game, GameParts};
use level_table::{Level, LevelTable, OpeningFault, ReasonList, opening};
use lp_core::Point;
use set_operator::{RowAnswer, row_level};
use std::alloc::{AllocError, Global};
use std::test::Fail;

const GRID: u32 = 2;

/// A game of one state and two strategies for each player. The first player's discount factor is `1/q`,
/// the others' are `second/q` and `third/q`, and `base` is their least common multiple.
#[derive(Drop)]
struct Trial {
    players: u32,
    second: u32,
    third: u32,
    q: u32,
    base: u32,
    payoffs: Vec<i64>,
}

/// The half-space `c*y <= h`.
#[derive(Clone, Copy)]
struct Plane {
    c: [i32; 3],
    h: i128,
}

/// A point that meets all rows of a profile's program.
#[derive(Clone, Copy)]
struct Corner {
    profile: u32,
    point: Point,
}

/// The value of a corner, over `q * den`.
#[derive(Clone, Copy)]
struct Found {
    profile: u32,
    value: i128,
    den: i128,
}

/// A number from `-most` to `most`, of a fixed congruential generator.
fn drawn(state: &mut u64, most: u64) -> i64
    requires { most ≤ 2 ^ 13 }
    ensures { unsigned_abs result ≤ most }
{
    *state = state
        .wrapping_mul(6364136223846793005)
        .wrapping_add(1442695040888963407);
    ((*state >> 33) % (2 * most + 1)) as i64 - most as i64
}

/// So many payoffs from -3 to 5.
fn payoffs(alloc: Global, state: &mut u64, count: u32) -> Result<Vec<i64>, AllocError>
    ensures { IfOk result (λ v. All (λ u. unsigned_abs u ≤ 5) v.items) }
{
    let mut payoffs = Vec::new(alloc);
    for _ in 0..count {
        payoffs.push(drawn(state, 4) + 1)?;
    }
    Ok(payoffs)
}

/// The least common multiple of numbers from 1 to 3.
fn multiple(a: u32, b: u32) -> u32 {
    match (a, b) {
        (1, b) => b,
        (a, 1) => a,
        (2, 2) => 2,
        (3, 3) => 3,
        _ => 6,
    }
}

fn drawn_trial(alloc: Global, state: &mut u64, case: u32) -> Result<Trial, AllocError>
    ensures { IfOk result (λ t. AreSmall t.players t.second t.third t.q t.payoffs.items) }
{
    let players = case % 2 + 2;
    let second = case / 2 % 3 + 1;
    let third = if players == 2 { 1 } else { case / 6 % 3 + 1 };
    let payoffs = payoffs(alloc, state, if players == 2 { 8 } else { 24 })?;
    Ok(Trial {
        players,
        second,
        third,
        q: case / 4 % 2 + 4,
        base: multiple(second, third),
        payoffs,
    })
}

fn parts_of(alloc: Global, trial: &Trial) -> Result<GameParts, AllocError>
    requires { AreSmall trial.now.players trial.now.second trial.now.third trial.now.q trial.now.payoffs.items }
    ensures { IfOk result (λ p. shape_of p ≡ small_game trial.now.players (length trial.now.payoffs.items / trial.now.players) trial.now.second trial.now.third trial.now.q trial.now.payoffs.items) }
{
    let players = trial.players as usize;
    let sizes = vec![in alloc; 2; players]?;
    let payoffs = Vec::from_slice(alloc, &trial.payoffs)?;
    let next = vec![in alloc; 0; payoffs.len() / players]?;
    let discounts = [1, trial.second, trial.third];
    Ok(GameParts {
        players: trial.players,
        strategies: vec![in alloc; sizes]?,
        payoffs: vec![in alloc; payoffs]?,
        next: vec![in alloc; next]?,
        denominator: 1,
        discounts: Vec::from_slice(alloc, &discounts[..players])?,
        q: trial.q,
    })
}

/// The game of a trial, if its parts fit.
fn game_of(alloc: Global, trial: &Trial) -> Result<Option<Game>, AllocError>
    requires { AreSmall trial.now.players trial.now.second trial.now.third trial.now.q trial.now.payoffs.items }
{
    let parts = parts_of(alloc, trial)?;
    match Game::build(parts) {
        Ok(game) => Ok(Some(game)),
        Err(_) => Ok(None),
    }
}

fn numerator(trial: &Trial, i: u32) -> u32 {
    match i {
        0 => 1,
        1 => trial.second,
        _ => trial.third,
    }
}

fn payoff(trial: &Trial, a: u32, i: u32) -> i128 {
    let place = a.wrapping_mul(trial.players).wrapping_add(i) as usize;
    if place < trial.payoffs.len() {
        i128::from(trial.payoffs[place])
    } else {
        0
    }
}

/// What a payoff of 1 counts for player `i` beside one that follows, over `q`: `(q - p_i) * 2^grid`.
fn patience(trial: &Trial, i: u32) -> i128 {
    i128::from(trial.q)
        .wrapping_sub(i128::from(numerator(trial, i)))
        .wrapping_mul(1 << GRID)
}

/// What player `i` gains at once by the other strategy.
fn gain(trial: &Trial, a: u32, i: u32) -> i128 {
    let p = numerator(trial, i);
    let share = if p == 0 { 0 } else { trial.base / p };
    let other = a ^ if i == 0 { 1 } else { i.wrapping_mul(2) };
    payoff(trial, other, i)
        .wrapping_sub(payoff(trial, a, i))
        .wrapping_mul(patience(trial, i))
        .wrapping_mul(i128::from(share))
}

fn number(level: Level) -> i128 {
    match level {
        Level::At(x) => i128::from(x),
        Level::Empty => i128::MIN / 4,
    }
}

/// The rows of the directions.
fn half_planes(
    alloc: Global,
    dirs: &Directions,
    levels: &LevelTable,
) -> Result<Vec<Plane>, AllocError> {
    let mut planes = Vec::new(alloc);
    for k in 0..dirs.count() {
        if k < levels.rows() {
            planes.push(Plane {
                c: dirs.vector(k),
                h: number(levels.get(k)),
            })?;
        }
    }
    Ok(planes)
}

/// The rows of a profile's program: those of the directions, and one for each deviation.
fn program(
    alloc: Global,
    trial: &Trial,
    half_planes: &[Plane],
    a: u32,
) -> Result<Vec<Plane>, AllocError> {
    let mut planes = Vec::from_slice(alloc, half_planes)?;
    for i in 0..trial.players {
        let minus = i.wrapping_mul(2).wrapping_add(1) as usize;
        if minus < half_planes.len() {
            planes.push(Plane {
                c: half_planes[minus].c,
                h: half_planes[minus].h.wrapping_sub(gain(trial, a, i)),
            })?;
        }
    }
    Ok(planes)
}

fn dot(c: [i32; 3], y: [i128; 3]) -> i128 {
    i128::from(c[0])
        .wrapping_mul(y[0])
        .wrapping_add(i128::from(c[1]).wrapping_mul(y[1]))
        .wrapping_add(i128::from(c[2]).wrapping_mul(y[2]))
}

/// The determinant of two columns.
fn minor(a: [i32; 3], b: [i32; 3], i: usize, j: usize) -> i128
    requires i { i < 3 }
    requires j { j < 3 }
{
    let product = i128::from(a[i]).wrapping_mul(i128::from(b[j]));
    product.wrapping_sub(i128::from(a[j]).wrapping_mul(i128::from(b[i])))
}

fn cross(a: [i32; 3], b: [i32; 3]) -> [i128; 3] {
    [minor(a, b, 1, 2), minor(a, b, 2, 0), minor(a, b, 0, 1)]
}

/// The sum of three vectors, with their factors.
fn combined(h: [i128; 3], a: [i128; 3], b: [i128; 3], c: [i128; 3], i: usize) -> i128
    requires { i < 3 }
{
    h[0].wrapping_mul(a[i])
        .wrapping_add(h[1].wrapping_mul(b[i]))
        .wrapping_add(h[2].wrapping_mul(c[i]))
}

/// The point where three planes meet, by Cramer's rule, if they meet in one.
fn meeting(a: Plane, b: Plane, c: Plane) -> Option<Point> {
    let first = cross(b.c, c.c);
    let second = cross(c.c, a.c);
    let third = cross(a.c, b.c);
    let det = dot(a.c, first);
    if det == 0 {
        return None;
    }
    let h = if det < 0 {
        [a.h.wrapping_neg(), b.h.wrapping_neg(), c.h.wrapping_neg()]
    } else {
        [a.h, b.h, c.h]
    };
    Some(Point {
        num: [
            combined(h, first, second, third, 0),
            combined(h, first, second, third, 1),
            combined(h, first, second, third, 2),
        ],
        den: det.wrapping_abs(),
    })
}

fn meets_all(planes: &[Plane], point: Point) -> bool {
    for plane in planes {
        if dot(plane.c, point.num) > plane.h.wrapping_mul(point.den) {
            return false;
        }
    }
    true
}

/// The planes from `from` on, or that of the third part alone where there is no third player.
fn thirds<'a>(planes: &'a [Plane], flat: &'a [Plane], players: u32, from: usize) -> &'a [Plane] {
    if players == 2 {
        flat
    } else if from <= planes.len() {
        &planes[from..]
    } else {
        planes
    }
}

/// Adds the corners of a profile's program: where two rows, or three, meet in a point that meets all.
fn add_corners(
    corners: &mut Vec<Corner>,
    players: u32,
    planes: &[Plane],
    profile: u32,
) -> Result<(), AllocError> {
    let flat = [Plane { c: [0, 0, 1], h: 0 }];
    for i in 0..planes.len() {
        for j in 0..i {
            for third in thirds(planes, &flat, players, i) {
                if let Some(point) = meeting(planes[i], planes[j], *third) {
                    if meets_all(planes, point) {
                        corners.push(Corner { profile, point })?;
                    }
                }
            }
        }
    }
    Ok(())
}

/// The corners of all profiles.
fn all_corners(
    alloc: Global,
    trial: &Trial,
    half_planes: &[Plane],
) -> Result<Vec<Corner>, AllocError> {
    let mut corners = Vec::new(alloc);
    for a in 0..(if trial.players == 2 { 4 } else { 8 }) {
        let planes = program(alloc, trial, half_planes, a)?;
        add_corners(&mut corners, trial.players, &planes, a)?;
    }
    Ok(corners)
}

/// What player `i`'s part counts in a value over `q * den`, beside the part of the direction.
fn counted(trial: &Trial, corner: Corner, i: u32) -> i128
    requires { i < 3 }
{
    let now = payoff(trial, corner.profile, i)
        .wrapping_mul(patience(trial, i))
        .wrapping_mul(i128::from(trial.base))
        .wrapping_mul(corner.point.den);
    let later = i128::from(numerator(trial, i)).wrapping_mul(corner.point.num[i as usize]);
    now.wrapping_add(later)
}

fn value_of(trial: &Trial, c: [i32; 3], corner: Corner) -> Found {
    let y = [
        counted(trial, corner, 0),
        counted(trial, corner, 1),
        counted(trial, corner, 2),
    ];
    Found {
        profile: corner.profile,
        value: dot(c, y),
        den: corner.point.den,
    }
}

/// The first corner of the largest value.
fn best_of(trial: &Trial, c: [i32; 3], corners: &[Corner]) -> Option<Found> {
    let mut best: Option<Found> = None;
    for corner in corners {
        let found = value_of(trial, c, *corner);
        let leads = match best {
            None => true,
            Some(old) => found.value.wrapping_mul(old.den) > old.value.wrapping_mul(found.den),
        };
        if leads {
            best = Some(found);
        }
    }
    best
}

/// Whether the answer is what the search found: the level is the value's ceiling.
fn agrees(trial: &Trial, found: Option<Found>, answer: RowAnswer) -> bool {
    match (found, answer) {
        (None, RowAnswer::EmptyState) => true,
        (
            Some(best),
            RowAnswer::Level {
                level,
                profile,
                reached,
                ..
            },
        ) => {
            let unit = i128::from(trial.q).wrapping_mul(best.den);
            let level = i128::from(level);
            profile == best.profile
                && best.value <= level.wrapping_mul(unit)
                && best.value > level.wrapping_sub(1).wrapping_mul(unit)
                && best.value.wrapping_mul(reached.den()) == reached.num().wrapping_mul(unit)
        }
        _ => false,
    }
}

/// How the operator and the search compare under a table.
#[derive(Clone, Copy)]
enum Outcome {
    /// They agree in each row, and the state admits something.
    Admits,
    /// They agree in each row that the state admits nothing.
    Nothing,
    Differs,
}

fn compared(
    alloc: Global,
    trial: &Trial,
    game: &Game,
    dirs: &Directions,
    levels: &LevelTable,
) -> Result<Outcome, AllocError>
    requires players { dirs.now.players ≡ game.now.players }
    requires table { IsSmallTable (problem_of game.now dirs.now 2) levels.now }
    requires opening { HasSmallOpening (problem_of game.now dirs.now 2) }
{
    let _players = game.players();
    let mut reasons = ReasonList::with_room(alloc, game.profiles(0))?;
    let planes = half_planes(alloc, dirs, levels)?;
    let corners = all_corners(alloc, trial, &planes)?;
    for dir in 0..dirs.count() {
        let answer = row_level(game, dirs, GRID, levels, 0, dir, &mut reasons);
        if !agrees(trial, best_of(trial, dirs.vector(dir), &corners), answer) {
            return Ok(Outcome::Differs);
        }
    }
    if corners.is_empty() {
        Ok(Outcome::Nothing)
    } else {
        Ok(Outcome::Admits)
    }
}

/// The opening table of a game.
fn opened(alloc: Global, game: &Game, dirs: &Directions) -> Result<LevelTable, OpeningFault>
    requires { dirs.now.players ≡ game.now.players }
    ensures table { IfOk result (IsSmallTable (problem_of game.now dirs.now 2)) }
    ensures opening { IfOk result (λ t. HasSmallOpening (problem_of game.now dirs.now 2)) }
{
    game.players();
    dirs.rules();
    let table = opening(alloc, game, dirs, GRID)?;
    table.states();
    Ok(table)
}

/// Lowers the level of one of the first eight directions, or of none, to a number from -60 to 60.
fn lower_one(state: &mut u64, game: &Game, dirs: &Directions, levels: &mut LevelTable)
    requires { IsSmallTable (problem_of game.now dirs.now 2) levels.old }
    ensures { IsSmallTable (problem_of game.now dirs.now 2) levels.new }
{
    let dir = drawn(state, 7).unsigned_abs() as u32;
    let level = drawn(state, 60);
    if dir < levels.directions() && 0 < levels.states() {
        if number(levels.at(0, dir)) > i128::from(level) {
            levels.put(0, dir, Level::At(level));
        }
    }
}

/// Compares under the opening table and under three below it: how many of them leave nothing, or none where a row
/// differs or there is no opening.
fn empty_tables(
    alloc: Global,
    state: &mut u64,
    trial: &Trial,
    game: &Game,
    dirs: &Directions,
) -> Result<Option<u32>, AllocError>
    requires { dirs.now.players ≡ game.now.players }
{
    let mut levels = match opened(alloc, game, dirs) {
        Ok(levels) => levels,
        Err(_) => return Ok(None),
    };
    let mut empty = 0u32;
    for _ in 0..4u32 {
        match compared(alloc, trial, game, dirs, &levels)? {
            Outcome::Differs => return Ok(None),
            Outcome::Nothing => empty = empty.wrapping_add(1),
            Outcome::Admits => {}
        }
        lower_one(state, game, dirs, &mut levels);
    }
    Ok(Some(empty))
}

#[test]
fn row_levels_are_those_of_a_search(rt: HostRuntime) -> Result<(), Fail> {
    let mut state = 11;
    let mut empty = 0u32;
    for case in 0..24u32 {
        let trial = drawn_trial(rt.alloc(), &mut state, case)?;
        let game = game_of(rt.alloc(), &trial)?.ok_or("the parts fit")?;
        let count = if trial.players == 2 { 8 } else { 14 };
        let dirs = Directions::of(trial.players, count).ok_or("there are so many directions")?;
        assert_eq!(rt; dirs.players(), game.players());
        assert_eq!(rt; game.base(), i128::from(trial.base));
        match empty_tables(rt.alloc(), &mut state, &trial, &game, &dirs)? {
            Some(number) => empty = empty.wrapping_add(number),
            None => assert!(rt; false, "a row of game {case} differs"),
        }
    }
    assert!(rt; 0 < empty && empty < 96, "{empty}");
    Ok(())
}
