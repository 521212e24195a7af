ghost use Rattle.std.specs.Prelude.{◌≡◌, ℕ, ℤ, ◌-◌, ◌*◌, ◌^◌, ◌<◌, ◌≤◌, ◌↔◌, length, slice_index_or, pos, ◌*ℤ◌, unsigned_abs, IfOk, IfErr};
ghost use Rattle.game_model.specs.Game.{states, counts, profile_count, payoff_at, unit_of, IsGame};
ghost use Rattle.game_model.specs.SelfGeneration.{sum_below};
ghost use Rattle.level_table.specs.Problem.{direction_count, largest, largest_payoff, opening_level, problem_of};
ghost use Rattle.level_table.specs.Tables.{IsOpening, IsFirstBeyond};

use super::table::LevelTable;
use direction_set::Directions;
use game_model::Game;
use std::alloc::Global;

/// Why there is no opening table.
#[derive(Clone, Copy, Debug, PartialEq, Eq)]
pub enum OpeningFault {
    /// The absolute value of the first opening level that is over 2^50.
    Beyond { number: i128 },
    /// Memory ran out.
    NoMemory,
}

/// `E`, the number of units in a payoff of 1: the denominator of the payoffs times the base of the
/// discount factors times 2^grid.
pub fn unit(game: &Game, grid: u32) -> i128
    requires { grid ≤ 30 }
    ensures { result ≡ unit_of game.now grid }
{
    let factor = base_times_fineness(game, grid);
    i128::from(game.denominator()) * factor
}

/// The opening table: in each direction, in units of `1/E`, the largest payoff that each player has
/// in any state and profile, weighted by the direction. So no payoff of the game is beyond it.
///
/// # Errors
///
/// `Beyond` where an opening level's absolute value is over 2^50, and else `NoMemory` where memory
/// runs out.
pub fn opening(
    alloc: Global,
    game: &Game,
    dirs: &Directions,
    grid: u32,
) -> Result<LevelTable, OpeningFault>
    requires players { dirs.now.players ≡ game.now.players }
    requires grid { grid ≤ 30 }
    ensures opened { IfOk result (IsOpening (problem_of game.now dirs.now grid)) }
    ensures beyond { (number : ℤ) → (result ≡ Err (OpeningFault.Beyond number)) ↔ IsFirstBeyond (problem_of game.now dirs.now grid) number }
{
    let levels = match opening_levels(game, dirs, grid) {
        Ok(levels) => levels,
        Err(number) => return Err(OpeningFault::Beyond { number }),
    };
    let _players = game.players();
    dirs.rules();
    match LevelTable::uniform(alloc, game.states(), dirs.count(), &levels) {
        Ok(table) => Ok(table),
        Err(_) => Err(OpeningFault::NoMemory),
    }
}

/// The opening level of each direction, or the absolute value of the first that is over 2^50.
fn opening_levels(game: &Game, dirs: &Directions, grid: u32) -> Result<[i64; 32], i128>
    requires players { dirs.now.players ≡ game.now.players }
    requires grid { grid ≤ 30 }
    ensures levels { IfOk result (λ levels. (k : ℕ) → k < length dirs.now.vectors → slice_index_or levels k (pos 0) ≡ opening_level (problem_of game.now dirs.now grid) k) }
    ensures small { IfOk result (λ levels. (k : ℕ) → k < length dirs.now.vectors → unsigned_abs (opening_level (problem_of game.now dirs.now grid) k) ≤ 2 ^ 50) }
    ensures beyond { IfErr result (IsFirstBeyond (problem_of game.now dirs.now grid)) }
{
    dirs.rules();
    let mut levels = [0; 32];
    for k in 0..dirs.count() {
        let level = level_in(game, dirs, grid, k);
        if level.unsigned_abs() > LIMIT {
            return Err(level.abs());
        }
        levels[k as usize] = level as i64;
    }
    Ok(levels)
}

/// The greatest absolute value of an opening level.
const LIMIT: u128 = 1 << 50;

/// The opening level of direction `k`.
fn level_in(game: &Game, dirs: &Directions, grid: u32, k: u32) -> i128
    requires players { dirs.now.players ≡ game.now.players }
    requires grid { grid ≤ 30 }
    requires known { k < length dirs.now.vectors }
    ensures level { result ≡ opening_level (problem_of game.now dirs.now grid) k }
    ensures small { unsigned_abs result ≤ 2 ^ 90 }
{
    dirs.rules();
    let factor = base_times_fineness(game, grid);
    factor * i128::from(largest_sum(game, dirs.vector(k)))
}

/// The base of the discount factors times 2^grid.
fn base_times_fineness(game: &Game, grid: u32) -> i128
    requires { grid ≤ 30 }
    ensures value { result ≡ pos (game.now.base * 2 ^ grid) }
    ensures small { game.now.base * 2 ^ grid ≤ 2 ^ 60 }
    ensures is_game { IsGame game.now }
{
    let _players = game.players();
    game.base() * i128::from(1u64 << grid)
}

/// The sum of each player's largest payoff times the player's part of the direction.
fn largest_sum(game: &Game, direction: [i32; 3]) -> i64
    requires game { IsGame game.now }
    requires small { (i : ℕ) → unsigned_abs (slice_index_or direction i (pos 0)) ≤ 3 }
    ensures sum { result ≡ sum_below (λ i. largest_payoff game.now (slice_index_or direction i (pos 0)) i) game.now.players }
    ensures small { unsigned_abs result ≤ 2 ^ 30 }
{
    let mut sum = 0;
    for i in 0..game.players() {
        sum += largest_payoff(game, i64::from(direction[i as usize]), i);
    }
    sum
}

/// The largest payoff of player `i` times `factor`, over all states and profiles.
fn largest_payoff(game: &Game, factor: i64, i: u32) -> i64
    requires game { IsGame game.now }
    requires small { unsigned_abs factor ≤ 3 }
    requires player { i < game.now.players }
    ensures largest { result ≡ largest_payoff game.now factor i }
    ensures small { unsigned_abs result ≤ 2 ^ 28 }
{
    let mut most = largest_in(game, factor, 0, i);
    for s in 1..game.states() {
        most = most.max(largest_in(game, factor, s, i));
    }
    most
}

/// The largest payoff of player `i` times `factor`, over the profiles of state `s`.
fn largest_in(game: &Game, factor: i64, s: u32, i: u32) -> i64
    requires game { IsGame game.now }
    requires small { unsigned_abs factor ≤ 3 }
    requires state { s < states game.now }
    requires player { i < game.now.players }
    ensures largest { result ≡ largest (λ a. factor *ℤ payoff_at game.now s a i) (profile_count (counts game.now s) - 1) }
    ensures small { unsigned_abs result ≤ 2 ^ 28 }
{
    let mut most = payoff_times(game, factor, s, 0, i);
    for a in 1..game.profiles(s) {
        most = most.max(payoff_times(game, factor, s, a, i));
    }
    most
}

/// The payoff of player `i` times `factor`.
fn payoff_times(game: &Game, factor: i64, s: u32, a: u32, i: u32) -> i64
    requires game { IsGame game.now }
    requires small { unsigned_abs factor ≤ 3 }
    requires state { s < states game.now }
    requires profile { a < profile_count (counts game.now s) }
    requires player { i < game.now.players }
    ensures product { result ≡ factor *ℤ payoff_at game.now s a i }
    ensures small { unsigned_abs result ≤ 2 ^ 28 }
{
    factor * game.payoff(s, a, i)
}
