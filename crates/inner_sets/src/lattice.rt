//! The points that an inner set may have.

ghost use Rattle.std.specs.Int.{int_max, int_min};
ghost use Rattle.std.specs.Prelude.{◌≡◌, ◌+◌, ◌^◌, ◌<◌, ◌≤◌, ◌↔◌, ℤ, ◌+ℤ◌, ◌-ℤ◌, List, length, unsigned_abs, IfOk, OnOk, Contains};
ghost use Rattle.game_model.specs.Game.{counts, payoff_at, profile_count, states};
ghost use Rattle.game_model.specs.SelfGeneration.{part};
ghost use Rattle.inner_sets.specs.Candidates.{IsAscending, IsCandidate, IsLatticePoint, IsRange, IsStagePoint};
ghost use Rattle.inner_sets.specs.Gains.{Adds, IsColumnBelow, IsStateRange, step_of};

use crate::sizes::{sum, times};
use game_model::{Game, List};
use std::alloc::{AllocError, Global};

/// The candidates of a state for an inner set at `n`: its own stage payoffs, and the points of the lattice that divides
/// each player's range of payoffs, over all states and profiles, into `n` equal steps. Points are in units of
/// `1/(denominator*n)`, by ascending first part and then second part, each once.
pub fn candidates(
    alloc: Global,
    game: &Game,
    n: u32,
    state: u32,
) -> Result<List<[i64; 2]>, AllocError>
    requires players { game.now.players ≡ 2 }
    requires n_positive { 1 ≤ n }
    requires n_small { n ≤ 16 }
    requires state { state < states game.now }
    ensures ascending { IfOk result IsAscending }
    ensures exactly { IfOk result (λ points. (v : List ℤ) → Contains points v ↔ IsCandidate game.now n state v) }
    ensures few { IfOk result (λ points. length points ≤ 65535) }
{
    let _players = game.players();
    let mut points = Vec::new(alloc);
    push_stage_points(&mut points, game, n, state)?;
    push_lattice(&mut points, game, n)?;
    points.sort_unstable();
    points.dedup();
    let list = listed(alloc, &points)?;
    Ok(list)
}

/// The points as a list.
fn listed(alloc: Global, points: &[[i64; 2]]) -> Result<List<[i64; 2]>, AllocError>
    requires { length points.now ≤ 65535 }
    ensures { IfOk result (λ list. list ≡ points.now) }
{
    let mut list = List::new(alloc);
    for point in points {
        list.push(*point)?;
    }
    Ok(list)
}

/// Adds the payoffs of each profile of a state.
fn push_stage_points(
    points: &mut Vec<[i64; 2]>,
    game: &Game,
    n: u32,
    s: u32,
) -> Result<(), AllocError>
    requires players { game.now.players ≡ 2 }
    requires n { n ≤ 16 }
    requires state { s < states game.now }
    ensures { OnOk result (Adds (profile_count (counts game.now s)) (IsStagePoint game.now n s) points.old.items points.new.items) }
{
    let _players = game.players();
    for a in 0..game.profiles(s) {
        let first = times(n, game.payoff(s, a, 0));
        let second = times(n, game.payoff(s, a, 1));
        points.push([first, second])?;
    }
    Ok(())
}

/// Adds the points of the lattice.
fn push_lattice(points: &mut Vec<[i64; 2]>, game: &Game, n: u32) -> Result<(), AllocError>
    requires players { game.now.players ≡ 2 }
    requires n { n ≤ 16 }
    ensures { OnOk result (Adds 289 (IsLatticePoint game.now n) points.old.items points.new.items) }
{
    let first = range_of(game, 0);
    let second = range_of(game, 1);
    for j in 0..n + 1 {
        let part = lattice_part(first, n, j);
        push_column(points, part, second, n)?;
    }
    Ok(())
}

/// Adds the points of the lattice with this first part.
fn push_column(
    points: &mut Vec<[i64; 2]>,
    first: i64,
    range: (i64, i64),
    n: u32,
) -> Result<(), AllocError>
    requires n { n ≤ 16 }
    requires low { unsigned_abs range.0 ≤ 2 ^ 26 }
    requires high { unsigned_abs range.1 ≤ 2 ^ 26 }
    ensures { OnOk result (Adds 17 (IsColumnBelow n first range.0 range.1 (n + 1)) points.old.items points.new.items) }
{
    for j in 0..n + 1 {
        let second = lattice_part(range, n, j);
        points.push([first, second])?;
    }
    Ok(())
}

/// The part that is `j` of `n` steps from the low end of the range to the high end.
fn lattice_part(range: (i64, i64), n: u32, j: u32) -> i64
    requires n { n ≤ 16 }
    requires j { j ≤ n }
    requires low { unsigned_abs range.0 ≤ 2 ^ 26 }
    requires high { unsigned_abs range.1 ≤ 2 ^ 26 }
    ensures { result ≡ step_of n range.0 range.1 j }
{
    let (low, high) = range;
    let least = times(n, low);
    let more = times(j, span(low, high));
    sum(least, more)
}

/// How far it is from the low end to the high end.
fn span(low: i64, high: i64) -> i64
    requires low { unsigned_abs low ≤ 2 ^ 26 }
    requires high { unsigned_abs high ≤ 2 ^ 26 }
    ensures span { result ≡ high -ℤ low }
    ensures small { unsigned_abs result ≤ 2 ^ 27 }
{
    high - low
}

/// The least and the largest payoff of player `i`, over all states and profiles.
fn range_of(game: &Game, i: u32) -> (i64, i64)
    requires player { i < game.now.players }
    ensures range { IsRange game.now i result.0 result.1 }
    ensures low { unsigned_abs result.0 ≤ 2 ^ 26 }
    ensures high { unsigned_abs result.1 ≤ 2 ^ 26 }
{
    let _players = game.players();
    let mut range = range_in(game, 0, i);
    for s in 1..game.states() {
        range = joined(range, range_in(game, s, i));
    }
    range
}

/// The same over the profiles of a state.
fn range_in(game: &Game, s: u32, i: u32) -> (i64, i64)
    requires state { s < states game.now }
    requires player { i < game.now.players }
    ensures { IsStateRange game.now s (profile_count (counts game.now s)) i result.0 result.1 }
{
    let _players = game.players();
    let first = game.payoff(s, 0, i);
    let mut range = (first, first);
    for a in 1..game.profiles(s) {
        let payoff = game.payoff(s, a, i);
        range = joined(range, (payoff, payoff));
    }
    range
}

/// The smallest range that has both.
fn joined(a: (i64, i64), b: (i64, i64)) -> (i64, i64)
    ensures low { result.0 ≡ int_min a.0 b.0 }
    ensures high { result.1 ≡ int_max a.1 b.1 }
{
    (a.0.min(b.0), a.1.max(b.1))
}
