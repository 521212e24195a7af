//! Fractions in lowest terms.

ghost use Rattle.pay_frac.specs.Pair.{Pair};
ghost use Rattle.pay_frac.specs.Ratio.{Equals, IsLowest, IsSmall};
ghost use Rattle.std.specs.Int.RustNames.{unsigned_abs};
ghost use Rattle.std.specs.Int.{IsGcd};
ghost use Rattle.std.specs.Prelude.{◌*ℤ◌, ◌+ℤ◌, ◌<ℤ◌, ◌<◌, ◌^◌, ◌↔◌, ◌≡◌, ◌≢◌, ◌≤ℤ◌, ◌≤◌, IsTrue, pos};

use crate::integers::common_divisor;
use std::marker::Model;

/// An exact fraction: a positive denominator, lowest terms, and no part is the least `i128`.
#[derive(Clone, Copy, Debug, PartialEq, Eq)]
pub struct Frac {
    num: i128,
    den: i128,
}

impl Model for Frac {
    ghost use Rattle.pay_frac.specs.Ratio.{Ratio, IsLowest};

    ghost Value = { Ratio };

    ghost view = { λ f. record { num = f.num; den = f.den } };

    ghost invariant = { λ f. IsLowest (record { num = f.num; den = f.den }) };

    ghost inverse = { λ r. record { num = r.num; den = r.den } };
}

impl Frac {
    /// The fraction `num / den`, in lowest terms.
    pub fn of(num: i128, den: i128) -> Frac
        requires not_zero { den ≢ pos 0 }
        requires num_not_least { unsigned_abs num < 2 ^ 127 }
        requires den_not_least { unsigned_abs den < 2 ^ 127 }
        ensures equal { Equals result num den }
        ensures lowest { IsLowest result }
        ensures num_no_greater { unsigned_abs result.num ≤ unsigned_abs num }
        ensures den_no_greater { unsigned_abs result.den ≤ unsigned_abs den }
    {
        let divisor = signed_divisor(num, den);
        Frac {
            num: num / divisor,
            den: den / divisor,
        }
    }

    /// The numerator, which has the fraction's sign.
    pub fn num(&self) -> i128
        ensures value { result ≡ self.now.num }
        ensures lowest { IsLowest self.now }
    {
        self.num
    }

    /// The denominator, which is positive.
    pub fn den(&self) -> i128
        ensures value { result ≡ self.now.den }
        ensures lowest { IsLowest self.now }
    {
        self.den
    }
}

/// The greatest common divisor, with the sign of the denominator.
fn signed_divisor(num: i128, den: i128) -> i128
    requires not_zero { den ≢ pos 0 }
    requires num_not_least { unsigned_abs num < 2 ^ 127 }
    requires den_not_least { unsigned_abs den < 2 ^ 127 }
    ensures divides { IsGcd (unsigned_abs num) (unsigned_abs den) (unsigned_abs result) }
    ensures negative { den <ℤ pos 0 → result <ℤ pos 0 }
    ensures positive { pos 0 <ℤ den → pos 0 <ℤ result }
{
    let common = common_divisor(num.unsigned_abs(), den.unsigned_abs()) as i128;
    if den < 0 { -common } else { common }
}

/// Whether both parts are at most 2^62 in absolute value: such fractions can be added, multiplied and compared.
pub fn small(f: Frac) -> bool
    ensures { IsTrue result ↔ IsSmall f }
{
    const MOST: u128 = 1 << 62;
    f.num.unsigned_abs() <= MOST && f.den.unsigned_abs() <= MOST
}

/// The product of two parts of small fractions.
fn small_product(a: i128, b: i128) -> i128
    requires small_a { unsigned_abs a ≤ 2 ^ 62 }
    requires small_b { unsigned_abs b ≤ 2 ^ 62 }
    ensures value { result ≡ a *ℤ b }
    ensures bound { unsigned_abs result ≤ 2 ^ 124 }
{
    a * b
}

/// The sum of two small fractions.
pub fn add(a: Frac, b: Frac) -> Frac
    requires small_a { IsSmall a }
    requires small_b { IsSmall b }
    ensures equal { Equals result (a.num *ℤ b.den +ℤ b.num *ℤ a.den) (a.den *ℤ b.den) }
    ensures lowest { IsLowest result }
{
    let num = small_product(a.num, b.den) + small_product(b.num, a.den);
    Frac::of(num, small_product(a.den, b.den))
}

/// The product of two small fractions.
pub fn mul(a: Frac, b: Frac) -> Frac
    requires small_a { IsSmall a }
    requires small_b { IsSmall b }
    ensures equal { Equals result (a.num *ℤ b.num) (a.den *ℤ b.den) }
    ensures lowest { IsLowest result }
{
    Frac::of(small_product(a.num, b.num), small_product(a.den, b.den))
}

/// Whether a small fraction is at most another.
pub fn at_most(a: Frac, b: Frac) -> bool
    requires small_a { IsSmall a }
    requires small_b { IsSmall b }
    ensures { IsTrue result ↔ ((a.num *ℤ b.den) ≤ℤ (b.num *ℤ a.den)) }
{
    small_product(a.num, b.den) <= small_product(b.num, a.den)
}

/// Fractions in lowest terms that are the same number have the same parts.
pub fn equal_in_lowest_terms()
    ghost pair: { Pair }
    ensures { IsLowest pair.first → IsLowest pair.second → Equals pair.first pair.second.num pair.second.den → pair.first ≡ pair.second }
{}
