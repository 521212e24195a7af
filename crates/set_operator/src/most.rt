//! A bound of a profile's values that needs no program.

ghost use Rattle.std.specs.Prelude.{◌≡◌, ◌^◌, ◌<◌, ◌≤◌, ℤ, pos, ◌+ℤ◌, ◌*ℤ◌, ◌<ℤ◌, ◌≤ℤ◌};
ghost use Rattle.std.specs.Int.RustNames.{unsigned_abs};
ghost use Rattle.level_table.specs.Problem.{direction_count, discount_at};
ghost use Rattle.set_operator.specs.Program.{HasSmallSides, AreDiscounts, IsLeastNumerator, IsMostPart, IsMostSpread, IsRange, IsWithin};

use crate::boxes::{ProfileBox, Side};
use level_table::Problem;

/// Player `i`'s discount numerator.
fn numerator(p: &Problem, i: u32) -> u32
    requires { i < p.now.game.players }
    ensures value { result ≡ discount_at p.now i }
    ensures small { result ≤ 1024 }
{
    p.rules();
    let (numerator, _) = p.game().discount_of(i);
    numerator
}

/// The least discount numerator of the players, and whether all players have it.
#[derive(Clone, Copy)]
pub(crate) struct Discounts {
    pub(crate) least: u32,
    pub(crate) same: bool,
}

/// The least and the greatest discount numerator of the players.
#[derive(Clone, Copy)]
struct Range {
    least: u32,
    most: u32,
}

/// From the least to the greatest discount numerator of the players.
fn range_of(p: &Problem) -> Range
    ensures { IsRange p.now result }
{
    p.rules();
    let first = numerator(p, 0);
    let mut range = Range {
        least: first,
        most: first,
    };
    for i in 1..p.players() {
        let here = numerator(p, i);
        range = Range {
            least: range.least.min(here),
            most: range.most.max(here),
        };
    }
    range
}

/// What the players' discount numerators have in common.
pub(crate) fn discounts_of(p: &Problem) -> Discounts
    ensures { AreDiscounts p.now result }
{
    let range = range_of(p);
    Discounts {
        least: range.least,
        same: range.least == range.most,
    }
}

/// The most that a part within the sides counts, times `c`.
fn most_of(c: i32, side: &Side) -> i128
    requires part { unsigned_abs c ≤ 3 }
    requires upper { unsigned_abs side.now.upper ≤ 2 ^ 50 }
    requires lower { unsigned_abs side.now.lower ≤ 2 ^ 62 }
    ensures most { (y den : ℤ) → pos 0 <ℤ den → IsWithin side.now y den → (c *ℤ y) ≤ℤ (result *ℤ den) }
    ensures bound { unsigned_abs result ≤ 2 ^ 64 }
{
    if c > 0 {
        c as i128 * side.upper as i128
    } else {
        -(c as i128) * side.lower as i128
    }
}

/// The most that player `i`'s part counts in direction `dir` beyond `least` of its discount numerator.
fn spread_part(p: &Problem, found: &ProfileBox, dir: u32, least: u32, i: u32) -> i128
    requires dir { dir < direction_count p.now }
    requires least { IsLeastNumerator p.now least }
    requires place { i < 3 }
    requires small { HasSmallSides p.now found.now }
    ensures most { i < p.now.game.players → IsMostPart p.now found.now dir least i result }
    ensures unused { p.now.game.players ≤ i → result ≡ pos 0 }
    ensures bound { unsigned_abs result ≤ 2 ^ 74 }
{
    p.rules();
    if i >= p.players() {
        return 0;
    }
    let more = numerator(p, i) - least;
    if more == 0 {
        return 0;
    }
    scaled(
        more,
        most_of(p.vector(dir)[i as usize], &found.sides[i as usize]),
    )
}

/// A multiple of a bound.
fn scaled(times: u32, most: i128) -> i128
    requires times { times ≤ 1024 }
    requires most { unsigned_abs most ≤ 2 ^ 64 }
    ensures value { result ≡ pos times *ℤ most }
    ensures bound { unsigned_abs result ≤ 2 ^ 74 }
{
    times as i128 * most
}

/// The most that all players' parts count in direction `dir` beyond `least` of their discount numerators.
pub(crate) fn spread_of(p: &Problem, found: &ProfileBox, dir: u32, least: u32) -> i128
    requires dir { dir < direction_count p.now }
    requires least { IsLeastNumerator p.now least }
    requires small { HasSmallSides p.now found.now }
    ensures most { IsMostSpread p.now found.now dir least result }
    ensures bound { unsigned_abs result ≤ 2 ^ 76 }
{
    p.rules();
    let first = spread_part(p, found, dir, least, 0);
    let second = spread_part(p, found, dir, least, 1);
    first + second + spread_part(p, found, dir, least, 2)
}

/// The most that all players' parts count beyond the least of their discount numerators: nothing where all are equal.
pub(crate) fn spread_by(p: &Problem, found: &ProfileBox, dir: u32, discounts: Discounts) -> i128
    requires dir { dir < direction_count p.now }
    requires discounts { AreDiscounts p.now discounts }
    requires small { HasSmallSides p.now found.now }
    ensures most { IsMostSpread p.now found.now dir discounts.least result }
    ensures bound { unsigned_abs result ≤ 2 ^ 76 }
{
    if discounts.same {
        0
    } else {
        spread_of(p, found, dir, discounts.least)
    }
}

/// The bound from the next state's level, the payoffs of the profile, and what discount factors that differ add.
pub(crate) fn most_from(least: u32, level: i64, stage: i128, spread: i128) -> i128
    requires least { least ≤ 1024 }
    requires level { unsigned_abs level ≤ 2 ^ 50 }
    requires stage { unsigned_abs stage ≤ 2 ^ 64 }
    requires spread { unsigned_abs spread ≤ 2 ^ 76 }
    ensures value { result ≡ pos least *ℤ level +ℤ stage +ℤ spread }
    ensures bound { unsigned_abs result ≤ 2 ^ 80 }
{
    scaled(least, level as i128) + stage + spread
}
