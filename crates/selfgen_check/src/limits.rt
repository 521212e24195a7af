ghost use Rattle.std.specs.Prelude.{◌≡◌, ℕ, ◌*◌, ◌^◌, ◌<◌, ◌≤◌, ◌↔◌, [], length, slice_index_or, pos, ◌*ℤ◌, IsTrue, unsigned_abs};
ghost use Rattle.game_model.specs.Game.{IsGame, states, counts, profile_count, payoff_at};
ghost use Rattle.game_model.specs.SelfGeneration.{no_entry, part};
ghost use Rattle.selfgen_check.specs.Limits.{IsSmallEntry, KeepsLimits};
ghost use Rattle.selfgen_check.specs.Promises.{scale_of};

use crate::corr::Corr;
use crate::entry::Entry;
use game_model::{Game, List};

/// Whether a correspondence is within the limits of `check` at this game: one list of at most 65535 entries for each
/// state, one part and one strategy of each entry for each player, parts and payoffs of at most 2^30 units, and a
/// common denominator of at most 2^44 that is a multiple of the game's. The limits of a lottery are those of `Lottery`.
pub fn keeps_limits(game: &Game, corr: &Corr) -> bool
    ensures { IsTrue result ↔ KeepsLimits game.now corr.now }
{
    if !has_common(game, corr) || corr.states() != game.states() {
        return false;
    }
    payoffs_fit(game, scale_of(game, corr)) && lists_fit(game, corr)
}

/// Whether the common denominator is a multiple of the game's and small.
fn has_common(game: &Game, corr: &Corr) -> bool
    ensures { IsTrue result ↔ ((corr.now.common ≤ 2 ^ 44) × (corr.now.common ≡ scale_of game.now corr.now * unsigned_abs game.now.denominator)) }
{
    let _players = game.players();
    let common = corr.common() as u64;
    common <= 1 << 44 && common % (game.denominator() as u64) == 0
}

/// How many units of the correspondence one unit of the payoffs is.
pub(crate) fn scale_of(game: &Game, corr: &Corr) -> i64
    requires { corr.now.common ≤ 2 ^ 44 }
    ensures scale { result ≡ pos (scale_of game.now corr.now) }
    ensures positive { 0 < corr.now.common }
{
    let _players = game.players();
    (corr.common() as u64 / game.denominator() as u64) as i64
}

/// Whether no payoff has more than 2^30 units.
fn payoffs_fit(game: &Game, scale: i64) -> bool
    ensures { IsTrue result ↔ ((s a i : ℕ) → s < states game.now → a < profile_count (counts game.now s) → i < game.now.players → unsigned_abs (scale *ℤ payoff_at game.now s a i) ≤ 2 ^ 30) }
{
    for s in 0..game.states() {
        if !state_fits(game, scale, s) {
            return false;
        }
    }
    true
}

/// The same of the payoffs in a state.
fn state_fits(game: &Game, scale: i64, s: u32) -> bool
    requires { s < states game.now }
    ensures { IsTrue result ↔ ((a i : ℕ) → a < profile_count (counts game.now s) → i < game.now.players → unsigned_abs (scale *ℤ payoff_at game.now s a i) ≤ 2 ^ 30) }
{
    for a in 0..game.profiles(s) {
        if !profile_fits(game, scale, s, a) {
            return false;
        }
    }
    true
}

/// The same of the payoffs at a profile.
fn profile_fits(game: &Game, scale: i64, s: u32, a: u32) -> bool
    requires state { s < states game.now }
    requires profile { a < profile_count (counts game.now s) }
    ensures { IsTrue result ↔ ((i : ℕ) → i < game.now.players → unsigned_abs (scale *ℤ payoff_at game.now s a i) ≤ 2 ^ 30) }
{
    for i in 0..game.players() {
        if !is_small_product(scale, game.payoff(s, a, i)) {
            return false;
        }
    }
    true
}

fn is_small_product(scale: i64, units: i64) -> bool
    ensures { IsTrue result ↔ (unsigned_abs (scale *ℤ units) ≤ 2 ^ 30) }
{
    is_small(product(i128::from(scale), i128::from(units)))
}

fn product(a: i128, b: i128) -> i128
    requires first { unsigned_abs a ≤ 2 ^ 63 }
    requires second { unsigned_abs b ≤ 2 ^ 63 }
    ensures { result ≡ a *ℤ b }
{
    a * b
}

fn is_small(number: i128) -> bool
    ensures { IsTrue result ↔ (unsigned_abs number ≤ 2 ^ 30) }
{
    -(1 << 30) <= number && number <= 1 << 30
}

/// Whether each state has few and small entries.
fn lists_fit(game: &Game, corr: &Corr) -> bool
    requires { length corr.now.entries ≡ states game.now }
    ensures { IsTrue result ↔ ((s : ℕ) → s < states game.now → (length (slice_index_or corr.now.entries s []) ≤ 65535) × ((k : ℕ) → k < length (slice_index_or corr.now.entries s []) → IsSmallEntry game.now (slice_index_or (slice_index_or corr.now.entries s []) k no_entry))) }
{
    for s in 0..game.states() {
        if !entries_fit(game, corr.entries(s)) {
            return false;
        }
    }
    true
}

/// Whether these are few and small entries.
fn entries_fit(game: &Game, entries: &List<Entry>) -> bool
    ensures { IsTrue result ↔ ((length entries.now ≤ 65535) × ((k : ℕ) → k < length entries.now → IsSmallEntry game.now (slice_index_or entries.now k no_entry))) }
{
    if entries.len() > 65535 {
        return false;
    }
    for k in 0..entries.len() {
        if !entry_fits(game, entries.get(k)) {
            return false;
        }
    }
    true
}

/// Whether an entry has a part and a strategy for each player, and small parts.
fn entry_fits(game: &Game, entry: &Entry) -> bool
    ensures { IsTrue result ↔ IsSmallEntry game.now entry.now }
{
    entry.lottery().rules();
    entry.profile().len() == game.players() && parts_fit(game, entry)
}

fn parts_fit(game: &Game, entry: &Entry) -> bool
    requires { length entry.now.point ≡ game.now.players }
    ensures { IsTrue result ↔ ((i : ℕ) → i < game.now.players → unsigned_abs (part entry.now.point i) ≤ 2 ^ 30) }
{
    for i in 0..game.players() {
        if !is_small(i128::from(entry.part(i))) {
            return false;
        }
    }
    true
}
