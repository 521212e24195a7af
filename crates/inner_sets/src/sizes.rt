//! Products and shares within 64 bits.

ghost use Rattle.std.specs.Prelude.{◌≡◌, ◌*◌, ◌^◌, ◌<◌, ◌≤◌, ◌↔◌, ℕ, pos, ◌+ℤ◌, ◌-ℤ◌, ◌*ℤ◌, ◌≤ℤ◌, IsTrue, unsigned_abs};
ghost use Rattle.game_model.specs.Game.{states, counts, profile_count};
ghost use Rattle.hull_weights.specs.Hull.{IsSmallPoint};
ghost use Rattle.game_model.specs.SelfGeneration.{part};
ghost use Rattle.inner_sets.specs.Choice.{discount, payoff_share};

use game_model::Game;

/// A number of units, as often as a count says.
pub(crate) fn times(count: u32, units: i64) -> i64
    requires count { count ≤ 2 ^ 14 }
    requires units { unsigned_abs units ≤ 2 ^ 31 }
    ensures product { result ≡ pos count *ℤ units }
    ensures small { unsigned_abs result ≤ 2 ^ 45 }
{
    i64::from(count) * units
}

/// `(1-d)*payoff` times `q`, in units of `1/(denominator*n)`.
pub(crate) fn payoff_share(game: &Game, n: u32, s: u32, a: u32, i: u32) -> i64
    requires n { n ≤ 16 }
    requires state { s < states game.now }
    requires profile { a < profile_count (counts game.now s) }
    requires player { i < game.now.players }
    ensures share { result ≡ payoff_share game.now n s a i }
    ensures small { unsigned_abs result ≤ 2 ^ 45 }
{
    let _players = game.players();
    let (p, q) = game.discount_of(i);
    times((q - p) * n, game.payoff(s, a, i))
}

/// What a part leaves to the points that follow: `v - (1-d)*payoff`, times `q`.
pub(crate) fn remainder_part(game: &Game, n: u32, s: u32, a: u32, i: u32, part: i64) -> i128
    requires n { n ≤ 16 }
    requires state { s < states game.now }
    requires profile { a < profile_count (counts game.now s) }
    requires player { i < game.now.players }
    requires part { unsigned_abs part ≤ 2 ^ 30 }
    ensures { result ≡ pos game.now.q *ℤ part -ℤ payoff_share game.now n s a i }
{
    let _players = game.players();
    let (_p, q) = game.discount_of(i);
    difference(times(q, part), payoff_share(game, n, s, a, i))
}

pub(crate) fn sum(first: i64, second: i64) -> i64
    requires first { unsigned_abs first ≤ 2 ^ 45 }
    requires second { unsigned_abs second ≤ 2 ^ 45 }
    ensures sum { result ≡ first +ℤ second }
    ensures small { unsigned_abs result ≤ 2 ^ 46 }
{
    first + second
}

fn difference(first: i64, second: i64) -> i128
    requires first { unsigned_abs first ≤ 2 ^ 45 }
    requires second { unsigned_abs second ≤ 2 ^ 45 }
    ensures { result ≡ first -ℤ second }
{
    i128::from(first - second)
}

/// Whether a part, times `q`, is at least what is asked.
pub(crate) fn is_enough(ask: i64, q: u32, part: i64) -> bool
    requires q { q ≤ 2 ^ 14 }
    requires part { unsigned_abs part ≤ 2 ^ 31 }
    ensures { IsTrue result ↔ (ask ≤ℤ (pos q *ℤ part)) }
{
    ask <= times(q, part)
}

/// Part `i` of a point.
pub(crate) fn part_of(point: [i64; 2], i: u32) -> i64
    requires player { i < 2 }
    requires small { (i : ℕ) → i < 2 → unsigned_abs (part point i) ≤ 2 ^ 30 }
    ensures part { result ≡ part point i }
    ensures small { unsigned_abs result ≤ 2 ^ 30 }
{
    point[i as usize]
}

/// A part of a point that follows, times the numerator of the discount factor.
pub(crate) fn discounted_part(game: &Game, i: u32, part: i64) -> i128
    requires player { i < game.now.players }
    requires part { unsigned_abs part ≤ 2 ^ 30 }
    ensures product { result ≡ pos (discount game.now i) *ℤ part }
    ensures small { unsigned_abs result ≤ 2 ^ 40 }
{
    let _players = game.players();
    let (p, _q) = game.discount_of(i);
    i128::from(times(p, part))
}

/// Whether a hull can be asked for the point.
pub(crate) fn is_small_point(point: [i128; 2]) -> bool
    ensures { IsTrue result ↔ IsSmallPoint point }
{
    is_small(point[0]) && is_small(point[1])
}

fn is_small(part: i128) -> bool
    ensures { IsTrue result ↔ (unsigned_abs part ≤ 2 ^ 40) }
{
    -(1 << 40) <= part && part <= 1 << 40
}
