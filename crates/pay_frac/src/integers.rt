//! Quotients, divisors and multiples of whole numbers.

ghost use Rattle.exact_algebra.specs.Quotients.{IsCeiling, IsFloor};
ghost use Rattle.pay_frac.specs.Whole.{IsLcm};
ghost use Rattle.std.specs.Int.RustNames.{unsigned_abs};
ghost use Rattle.std.specs.Int.{IsGcd};
ghost use Rattle.std.specs.Prelude.{ℕ, ◌≡◌, ◌<ℤ◌, ◌<◌, ◌+◌, ◌-◌, ◌*◌, ◌^◌, ◌≤ℤ◌, MatchOption, min, pos};

/// The least whole number that is not below `n / d`.
pub fn ceil_div(n: i128, d: i128) -> i128
    requires { pos 0 <ℤ d }
    ensures { IsCeiling n d result }
{
    if n > 0 { (n - 1) / d + 1 } else { n / d }
}

/// The greatest whole number that is not above `n / d`.
pub fn floor_div(n: i128, d: i128) -> i128
    requires { pos 0 <ℤ d }
    ensures { IsFloor n d result }
{
    n.div_euclid(d)
}

/// The greatest common divisor of two numbers that aren't both 0.
pub(crate) fn common_divisor(mut a: u128, mut b: u128) -> u128
    requires { 0 < a + b }
    ensures divides { IsGcd a b result }
    ensures positive { 0 < result }
{
    while b != 0 {
        let rest = a % b;
        a = b;
        b = rest;
    }
    a
}

/// The greatest common divisor, which is positive.
pub fn gcd(a: i128, b: i128) -> i128
    requires not_negative_a { pos 0 ≤ℤ a }
    requires not_negative_b { pos 0 ≤ℤ b }
    requires not_both_zero { 0 < unsigned_abs a + unsigned_abs b }
    ensures divides { IsGcd (unsigned_abs a) (unsigned_abs b) (unsigned_abs result) }
    ensures positive { pos 0 <ℤ result }
{
    common_divisor(a.unsigned_abs(), b.unsigned_abs()) as i128
}

/// The least common multiple, or None exactly where it is greater than `bound`.
pub fn lcm(a: i128, b: i128, bound: i128) -> Option<i128>
    requires positive_a { pos 0 <ℤ a }
    requires positive_b { pos 0 <ℤ b }
    ensures { MatchOption result ((m : ℕ) → IsLcm (unsigned_abs a) (unsigned_abs b) m → bound <ℤ pos m) (λ m. IsLcm (unsigned_abs a) (unsigned_abs b) (unsigned_abs m) × (pos 0 <ℤ m) × (m ≤ℤ bound)) }
{
    let multiple = (a / gcd(a, b)).checked_mul(b)?;
    if multiple > bound {
        None
    } else {
        Some(multiple)
    }
}

/// The product of two numbers that are not negative, or 2^127 - 1 where it is greater.
pub fn capped_product(a: i128, b: i128) -> i128
    requires not_negative_a { pos 0 ≤ℤ a }
    requires not_negative_b { pos 0 ≤ℤ b }
    ensures { result ≡ pos (min (unsigned_abs a * unsigned_abs b) (2 ^ 127 - 1)) }
{
    match a.checked_mul(b) {
        Some(product) => product,
        None => i128::MAX,
    }
}

/// The least common multiple of two positive numbers, or 2^127 - 1 where it is greater.
pub fn capped_multiple(a: i128, b: i128) -> i128
    requires positive_a { pos 0 <ℤ a }
    requires positive_b { pos 0 <ℤ b }
    ensures { (m : ℕ) × IsLcm (unsigned_abs a) (unsigned_abs b) m × (result ≡ pos (min m (2 ^ 127 - 1))) }
{
    capped_product(a / gcd(a, b), b)
}
