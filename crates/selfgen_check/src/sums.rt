//! What is read off a profile and a lottery.

ghost use Rattle.std.specs.Prelude.{◌≡◌, ◌≢◌, ℕ, ◌-◌, ◌*◌, ◌^◌, ◌<◌, ◌≤◌, ◌↔◌, length, take, nat_lt, if◌then◌else◌, pos, ◌+ℤ◌, ◌*ℤ◌, ◌≤ℤ◌, IsTrue, slice_index, slice_index_or, unsigned_abs};
ghost use Rattle.game_model.specs.Game.{states, counts, profile_count, profile_number, IsProfile};
ghost use Rattle.game_model.specs.SelfGeneration.{no_entry, part, total_weight, weighted_part, deviation_count, deviation_place};
ghost use Rattle.selfgen_check.specs.Limits.{IsSmallEntry};

use crate::entry::Entry;
use crate::lottery::Lottery;
use game_model::{Game, List};

/// Whether each strategy is in range.
pub(crate) fn is_profile(game: &Game, s: u32, profile: &List<u32>) -> bool
    requires state { s < states game.now }
    requires strategies { length profile.now ≡ game.now.players }
    ensures { IsTrue result ↔ IsProfile (counts game.now s) profile.now }
{
    for i in 0..game.players() {
        if *profile.get(i) >= game.strategies(s, i) {
            return false;
        }
    }
    true
}

/// The number of a profile.
pub fn number_of(game: &Game, s: u32, profile: &List<u32>) -> u32
    requires state { s < states game.now }
    requires profile { IsProfile (counts game.now s) profile.now }
    ensures { result ≡ profile_number (counts game.now s) profile.now }
{
    let mut number = 0;
    let mut step = 1;
    for i in 0..game.players() {
        number += *profile.get(i) * step;
        step *= game.strategies(s, i);
    }
    number
}

/// How many deviations the players before `i` have.
pub(crate) fn deviations_before(game: &Game, s: u32, i: u32) -> u32
    requires state { s < states game.now }
    requires player { i ≤ game.now.players }
    ensures count { result ≡ deviation_count (take i (counts game.now s)) }
    ensures few { result ≤ 16 * i }
{
    let _players = game.players();
    let mut count = 0;
    for j in 0..i {
        count += game.strategies(s, j) - 1;
    }
    count
}

/// The place of a deviation in the list of all.
pub fn place_of(game: &Game, s: u32, profile: &List<u32>, i: u32, b: u32) -> u32
    requires state { s < states game.now }
    requires profile { IsProfile (counts game.now s) profile.now }
    requires player { i < game.now.players }
    requires strategy { b < slice_index (counts game.now s) i }
    requires other { b ≢ slice_index profile.now i }
    ensures place { result ≡ deviation_place (counts game.now s) profile.now i b }
    ensures within { result < deviation_count (counts game.now s) }
{
    let _players = game.players();
    deviations_before(game, s, i) + passed(*profile.get(i), b)
}

/// How many of a player's other strategies come before `b`.
fn passed(own: u32, b: u32) -> u32
    requires { b ≢ own }
    ensures number { result ≡ (if nat_lt b own then b else (b - 1)) }
    ensures few { result ≤ b }
{
    if b < own { b } else { b - 1 }
}

/// Whether all outcomes are below `count`.
pub(crate) fn are_below(lottery: &Lottery, count: u32) -> bool
    ensures { IsTrue result ↔ ((k : ℕ) → k < length lottery.now → (slice_index_or lottery.now k (0, 0)).0 < count) }
{
    for k in 0..lottery.len() {
        if lottery.entry(k) >= count {
            return false;
        }
    }
    true
}

/// The sum of the weights.
pub(crate) fn total_of(lottery: &Lottery) -> i128
    ensures total { result ≡ pos (total_weight lottery.now) }
    ensures small { total_weight lottery.now ≤ 2 ^ 85 }
{
    let mut total = 0;
    for k in 0..lottery.len() {
        total += lottery.weight(k);
    }
    total
}

/// The sum of weight times part `i` of the outcome.
pub(crate) fn weighted_sum(game: &Game, entries: &List<Entry>, lottery: &Lottery, i: u32) -> i128
    requires outcomes { (k : ℕ) → k < length lottery.now → (slice_index_or lottery.now k (0, 0)).0 < length entries.now }
    requires small { (k : ℕ) → k < length entries.now → IsSmallEntry game.now (slice_index_or entries.now k no_entry) }
    requires player { i < game.now.players }
    ensures sum { result ≡ weighted_part entries.now i lottery.now }
    ensures small { unsigned_abs result ≤ 2 ^ 115 }
{
    let mut sum = 0;
    for k in 0..lottery.len() {
        sum += outcome_share(game, entries, lottery, k, i);
    }
    sum
}

/// The weight of an outcome times its part `i`.
fn outcome_share(game: &Game, entries: &List<Entry>, lottery: &Lottery, k: u32, i: u32) -> i128
    requires place { k < length lottery.now }
    requires outcome { (slice_index_or lottery.now k (0, 0)).0 < length entries.now }
    requires small { IsSmallEntry game.now (slice_index_or entries.now (slice_index_or lottery.now k (0, 0)).0 no_entry) }
    requires player { i < game.now.players }
    ensures share { result ≡ pos (slice_index_or lottery.now k (0, 0)).1 *ℤ part (slice_index_or entries.now (slice_index_or lottery.now k (0, 0)).0 no_entry).point i }
    ensures small { unsigned_abs result ≤ 2 ^ 113 }
{
    let part = outcome_part(game, entries, lottery.entry(k), i);
    portion(lottery.weight(k), i128::from(part))
}

/// The product of a weight and a number of units.
fn portion(weight: i128, units: i128) -> i128
    requires weight { unsigned_abs weight ≤ 2 ^ 83 }
    requires units { unsigned_abs units ≤ 2 ^ 30 }
    ensures product { result ≡ weight *ℤ units }
    ensures small { unsigned_abs result ≤ 2 ^ 113 }
{
    weight * units
}

/// Part `i` of an outcome.
fn outcome_part(game: &Game, entries: &List<Entry>, k: u32, i: u32) -> i64
    requires outcome { k < length entries.now }
    requires small { IsSmallEntry game.now (slice_index_or entries.now k no_entry) }
    requires player { i < game.now.players }
    ensures part { result ≡ part (slice_index_or entries.now k no_entry).point i }
    ensures small { unsigned_abs result ≤ 2 ^ 30 }
{
    small_part(game, entries.get(k), i)
}

/// Part `i` of a small entry.
pub(crate) fn small_part(game: &Game, entry: &Entry, i: u32) -> i64
    requires small { IsSmallEntry game.now entry.now }
    requires player { i < game.now.players }
    ensures part { result ≡ part entry.now.point i }
    ensures small { unsigned_abs result ≤ 2 ^ 30 }
{
    let _players = game.players();
    entry.part(i)
}

/// A number of units, as often as a discount factor's numerator or denominator says.
pub(crate) fn times(count: u32, units: i64) -> i64
    requires count { count ≤ 1024 }
    requires units { unsigned_abs units ≤ 2 ^ 30 }
    ensures product { result ≡ pos count *ℤ units }
    ensures small { unsigned_abs result ≤ 2 ^ 40 }
{
    i64::from(count) * units
}

/// The same of a sum over a lottery.
pub(crate) fn share(count: u32, sum: i128) -> i128
    requires count { count ≤ 1024 }
    requires sum { unsigned_abs sum ≤ 2 ^ 115 }
    ensures product { result ≡ pos count *ℤ sum }
    ensures small { unsigned_abs result ≤ 2 ^ 125 }
{
    i128::from(count) * sum
}

/// The product of such a share of the weights with a number of units.
fn scaled(weight: i128, units: i128) -> i128
    requires weight { unsigned_abs weight ≤ 2 ^ 95 }
    requires units { unsigned_abs units ≤ 2 ^ 30 }
    ensures product { result ≡ weight *ℤ units }
    ensures small { unsigned_abs result ≤ 2 ^ 125 }
{
    weight * units
}

/// A number of units, times the sum of the weights and such a count.
pub(crate) fn weighed(count: u32, weights: i128, units: i128) -> i128
    requires count { count ≤ 1024 }
    requires weights { unsigned_abs weights ≤ 2 ^ 85 }
    requires units { unsigned_abs units ≤ 2 ^ 30 }
    ensures product { result ≡ pos count *ℤ weights *ℤ units }
    ensures small { unsigned_abs result ≤ 2 ^ 125 }
{
    scaled(share(count, weights), units)
}

/// Whether two numbers together are at most a third.
pub(crate) fn is_at_most(first: i64, second: i64, third: i64) -> bool
    requires first { unsigned_abs first ≤ 2 ^ 40 }
    requires second { unsigned_abs second ≤ 2 ^ 40 }
    ensures { IsTrue result ↔ ((first +ℤ second) ≤ℤ third) }
{
    first + second <= third
}

/// Whether a number is the sum of two others.
pub(crate) fn is_sum(sum: i128, first: i128, second: i128) -> bool
    requires first { unsigned_abs first ≤ 2 ^ 125 }
    requires second { unsigned_abs second ≤ 2 ^ 125 }
    ensures { IsTrue result ↔ (sum ≡ first +ℤ second) }
{
    sum == first + second
}
