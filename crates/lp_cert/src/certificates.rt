//! What multipliers of rows prove.

ghost use Rattle.exact_algebra.specs.Sums.{dot};
ghost use Rattle.lp_cert.specs.Case.{Case};
ghost use Rattle.lp_cert.specs.Certificate.{AreSmall, AreWeights, ProvesBound, ProvesEmpty, entry_sum, side_sum};
ghost use Rattle.lp_cert.specs.Program.{IsProgram, Meets, Point, entry};
ghost use Rattle.std.specs.Int.RustNames.{unsigned_abs};
ghost use Rattle.std.specs.Prelude.{ℕ, ◌*ℤ◌, ◌<◌, ◌^◌, ◌↔◌, ◌≡◌, ◌≤ℤ◌, ◌≤◌, All, IsTrue, length};

use crate::multipliers::{Dual, Farkas, Multipliers};
use crate::rows::Rows;

/// Whether each row exists and no multiplier is negative.
fn are_weights(rows: &Rows, items: &Multipliers) -> bool
    ensures { IsTrue result ↔ AreWeights rows.now items.now }
{
    for i in 0..items.len() {
        let (row, times) = *items.get(i);
        if row >= rows.len() || times < 0 {
            return false;
        }
    }
    true
}

/// A multiple of an entry of a row.
fn weighed_entry(times: i128, entry: i32) -> i128
    requires times_small { unsigned_abs times ≤ 2 ^ 20 }
    requires entry_small { unsigned_abs entry ≤ 3 }
    ensures value { result ≡ times *ℤ entry }
    ensures bound { unsigned_abs result ≤ 2 ^ 22 }
{
    times * entry as i128
}

/// A multiple of the side of a row.
fn weighed_side(times: i128, side: i128) -> i128
    requires times_small { unsigned_abs times ≤ 2 ^ 20 }
    requires side_small { unsigned_abs side ≤ 2 ^ 64 }
    ensures value { result ≡ times *ℤ side }
    ensures bound { unsigned_abs result ≤ 2 ^ 84 }
{
    times * side
}

/// The sum of the multiples of one entry.
fn sum_of_entries(rows: &Rows, items: &Multipliers, axis: usize) -> i128
    requires small { AreSmall items.now }
    requires weights { AreWeights rows.now items.now }
    requires place { axis < 3 }
    ensures value { result ≡ entry_sum rows.now items.now axis }
{
    let mut sum = 0;
    for i in 0..items.len() {
        let (row, times) = *items.get(i);
        sum += weighed_entry(times, rows.row(row).c[axis]);
    }
    sum
}

/// The sum of the multiples of the sides.
fn sum_of_sides(rows: &Rows, items: &Multipliers) -> i128
    requires small { AreSmall items.now }
    requires weights { AreWeights rows.now items.now }
    ensures value { result ≡ side_sum rows.now items.now }
{
    let mut sum = 0;
    for i in 0..items.len() {
        let (row, times) = *items.get(i);
        sum += weighed_side(times, rows.row(row).h);
    }
    sum
}

/// Whether the sums of the multiples of the entries are these.
fn add_up_to(rows: &Rows, items: &Multipliers, wanted: [i128; 3]) -> bool
    requires small { AreSmall items.now }
    requires weights { AreWeights rows.now items.now }
    ensures { IsTrue result ↔ ((k : ℕ) → k < 3 → entry_sum rows.now items.now k ≡ entry wanted k) }
{
    for axis in 0..3usize {
        if sum_of_entries(rows, items, axis) != wanted[axis] {
            return false;
        }
    }
    true
}

/// The multiple of an objective.
fn scaled(den: i128, objective: [i32; 3]) -> [i128; 3]
    requires denominator { unsigned_abs den ≤ 2 ^ 20 }
    requires objective { All (λ x. unsigned_abs x ≤ 4096) objective }
    ensures { (k : ℕ) → k < 3 → entry result k ≡ den *ℤ entry objective k }
{
    [
        scaled_entry(den, objective[0]),
        scaled_entry(den, objective[1]),
        scaled_entry(den, objective[2]),
    ]
}

/// The multiple of an entry of an objective.
fn scaled_entry(den: i128, entry: i32) -> i128
    requires denominator { unsigned_abs den ≤ 2 ^ 20 }
    requires small { unsigned_abs entry ≤ 4096 }
    ensures { result ≡ den *ℤ entry }
{
    den * entry as i128
}

/// Whether the multipliers prove that the objective is at most `num / den` at every point that meets the rows:
/// `den` is positive, each row exists, no multiplier is negative, the multiples of the `c` add up to `den*objective`,
/// and those of the `h` to at most `num`.
///
/// Multipliers and `den` are at most 2^20 in absolute value, entries of the objective at most 4096. This is the dual of a
/// linear program (Gale, Kuhn and Tucker 1951); what it proves is said by [`bound_every_point`].
pub fn proves_bound(rows: &Rows, objective: [i32; 3], dual: &Dual, num: i128, den: i128) -> bool
    requires multipliers { AreSmall dual.now.items }
    requires denominator { unsigned_abs den ≤ 2 ^ 20 }
    requires objective { All (λ x. unsigned_abs x ≤ 4096) objective }
    ensures { IsTrue result ↔ ProvesBound rows.now objective dual.now.items num den }
{
    if den <= 0 || !are_weights(rows, &dual.items) {
        return false;
    }
    add_up_to(rows, &dual.items, scaled(den, objective)) && sum_of_sides(rows, &dual.items) <= num
}

/// Whether the multipliers prove that no point meets the rows: each row exists, no multiplier is negative, the multiples of
/// the `c` add up to zero, and those of the `h` to less than zero.
///
/// Multipliers are at most 2^20 in absolute value. This is a certificate of Farkas (1902); what it proves is said by
/// [`meet_no_point`].
pub fn proves_empty(rows: &Rows, farkas: &Farkas) -> bool
    requires { AreSmall farkas.now.items }
    ensures { IsTrue result ↔ ProvesEmpty rows.now farkas.now.items }
{
    if !are_weights(rows, &farkas.items) {
        return false;
    }
    add_up_to(rows, &farkas.items, [0; 3]) && sum_of_sides(rows, &farkas.items) < 0
}

/// A dual bounds the objective at every fraction vector that meets the rows.
pub fn bound_every_point()
    ghost at: { Case }
    ensures { IsProgram at.program → length at.objective ≡ 3 → ProvesBound at.program at.objective at.items at.num at.den → Meets at.program at.point → (at.den *ℤ dot at.objective at.point.num) ≤ℤ (at.num *ℤ at.point.den) }
{}

/// Where multipliers prove emptiness, no fraction vector meets the rows.
pub fn meet_no_point()
    ghost at: { Case }
    ensures { IsProgram at.program → ProvesEmpty at.program at.items → Meets at.program at.point → ⊥ }
{}
