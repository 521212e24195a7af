//! The spelling of numbers.

ghost use Rattle.pay_frac.specs.Number.{number_of, whole_of};
ghost use Rattle.pay_frac.specs.Reading.{FormGives, ReadsAs};
ghost use Rattle.pay_frac.specs.Ratio.{Equals, IsLowest};
ghost use Rattle.pay_frac.specs.Spelling.{Form, IsForm, Spelling, Spells, SpellsWhole, decimal, digit_count, form_text, fraction, signed_num, signed_text, spelled_den, spelled_num, whole};
ghost use Rattle.std.specs.Char.{digit_value};
ghost use Rattle.std.specs.Prelude.{◌+◌, ◌<◌, ◌^◌, ◌↔◌, ◌≡◌, ◌≢◌, ◌≤◌, ◌⊎◌, ℕ, Any, Err, IfNone, IfSome, IsOkAnd, IsTrue, length, min, option_map, pos, slice_index, take};
ghost use Rattle.std.specs.Str.Parse.{AllDigits, digits_value, digits_value_after};

use crate::fractions::Frac;
use thiserror::Error;

/// The most digits that a number may have.
const MOST_DIGITS: usize = 36;

/// The most digits of a whole number of 64 bits.
const MOST_WHOLE_DIGITS: usize = 18;

/// Why a token gives no fraction.
#[derive(Clone, Copy, Debug, PartialEq, Eq, Error)]
pub enum NumberFault {
    #[error("not a number")]
    NotNumber,
    #[error("a number of {digits} digits")]
    Beyond { digits: u64 },
}

/// How many digits stand at the front.
fn leading_digits(text: &[u8]) -> usize
    ensures bound { result ≤ length text.now }
    ensures digits { AllDigits 10 (take result text.now) }
    ensures ends { result < length text.now → 10 ≤ digit_value (slice_index text.now result) }
{
    let mut end = 0;
    while end < text.len() && text[end].is_ascii_digit() {
        end += 1;
    }
    end
}

/// The number that digits write when they follow those of `start`.
fn digits_after(start: u128, digits: &[u8], before: usize) -> u128
    requires digits { AllDigits 10 digits.now }
    requires start_small { start < 10 ^ before }
    requires few { before + length digits.now ≤ MOST_DIGITS }
    ensures value { result ≡ digits_value_after 10 start digits.now }
    ensures small { result < 10 ^ (before + length digits.now) }
{
    let mut value = start;
    for digit in digits {
        value = value * 10 + (*digit - b'0') as u128;
    }
    value
}

/// Whether all bytes are digits.
fn are_digits(text: &[u8]) -> bool
    ensures { IsTrue result ↔ AllDigits 10 text.now }
{
    leading_digits(text) == text.len()
}

/// Whether some byte is not the digit 0.
fn has_other_than_zero(text: &[u8]) -> bool
    ensures { IsTrue result ↔ Any (λ c. c ≢ 48) text.now }
{
    text.iter().any(|digit| *digit != b'0')
}

/// The numerator and denominator of a whole number.
fn read_whole(digits: &[u8]) -> Result<(u128, u128), NumberFault>
    requires { AllDigits 10 digits.now }
    ensures { ReadsAs (whole digits.now) result }
{
    if digits.is_empty() {
        return Err(NumberFault::NotNumber);
    }
    if digits.len() > MOST_DIGITS {
        return Err(NumberFault::Beyond {
            digits: digits.len() as u64,
        });
    }
    Ok((digits_after(0, digits, 0), 1))
}

/// The numerator and denominator of a decimal, by what stands before the point and after it.
fn read_decimal(front: &[u8], back: &[u8]) -> Result<(u128, u128), NumberFault>
    requires { AllDigits 10 front.now }
    ensures { ReadsAs (decimal front.now back.now) result }
{
    let count = front.len() + back.len();
    if count == 0 || !are_digits(back) {
        return Err(NumberFault::NotNumber);
    }
    if count > MOST_DIGITS {
        return Err(NumberFault::Beyond {
            digits: count as u64,
        });
    }
    let whole = digits_after(0, front, 0);
    let num = digits_after(whole, back, front.len());
    Ok((num, 10u128.pow(back.len() as u32)))
}

/// The numerator and denominator of a fraction, by what stands before the stroke and after it.
fn read_fraction(front: &[u8], back: &[u8]) -> Result<(u128, u128), NumberFault>
    requires { AllDigits 10 front.now }
    ensures { ReadsAs (fraction front.now back.now) result }
{
    if front.is_empty() || !are_digits(back) || !has_other_than_zero(back) {
        return Err(NumberFault::NotNumber);
    }
    let count = front.len() + back.len();
    if count > MOST_DIGITS {
        return Err(NumberFault::Beyond {
            digits: count as u64,
        });
    }
    Ok((digits_after(0, front, 0), digits_after(0, back, 0)))
}

/// The numerator and denominator of a number without its sign.
fn read_unsigned(text: &[u8]) -> Result<(u128, u128), NumberFault>
    ensures given { (f : Form) → IsForm f → text.now ≡ form_text f → FormGives f result }
    ensures spelled { ((f : Form) × IsForm f × (text.now ≡ form_text f)) ⊎ (result ≡ Err NumberFault.NotNumber) }
{
    let (front, rest) = text.split_at(leading_digits(text));
    if rest.is_empty() {
        return read_whole(front);
    }
    let back = &rest[1..];
    match rest[0] {
        b'.' => read_decimal(front, back),
        b'/' => read_fraction(front, back),
        _ => Err(NumberFault::NotNumber),
    }
}

/// Whether a token begins with `-`, and what follows the sign.
fn split_sign(token: &[u8]) -> (bool, &[u8])
    ensures text { token.now ≡ signed_text result.0 result.1.now }
    ensures plain { IsTrue result.0 ⊎ (slice_index token.now 0 ≢ 45) }
{
    if token.is_empty() || token[0] != b'-' {
        (false, token)
    } else {
        (true, &token[1..])
    }
}

/// A numerator and a denominator with a sign.
fn signed(negative: bool, num: u128, den: u128) -> Frac
    requires num_fits { num < 2 ^ 127 }
    requires den_fits { den < 2 ^ 127 }
    requires not_zero { 0 < den }
    ensures equal { Equals result (signed_num negative num) (pos den) }
    ensures lowest { IsLowest result }
{
    let num = num as i128;
    Frac::of(if negative { -num } else { num }, den as i128)
}

/// The number that a token spells.
fn spelled_number(token: &[u8]) -> Result<Frac, NumberFault>
    ensures not_number { (result ≡ Err NumberFault.NotNumber) ↔ ((s : Spelling) → Spells token.now s → ⊥) }
    ensures beyond { (s : Spelling) → Spells token.now s → 36 < digit_count token.now → result ≡ Err (NumberFault.Beyond (digit_count token.now)) }
    ensures value { (s : Spelling) → Spells token.now s → digit_count token.now ≤ 36 → IsOkAnd result (λ f. Equals f (spelled_num s) (spelled_den s) × IsLowest f) }
    ensures spelled { ((s : Spelling) × Spells token.now s) ⊎ (result ≡ Err NumberFault.NotNumber) }
{
    let (negative, text) = split_sign(token);
    let (num, den) = read_unsigned(text)?;
    Ok(signed(negative, num, den))
}

/// The number that a token spells: a whole number, a decimal or a fraction, with `-` before it or nothing.
/// A token without such a spelling is `NotNumber`. One of more than 36 digits is `Beyond`, leading zeros counted too.
pub fn read_number(token: &[u8]) -> Result<Frac, NumberFault>
    ensures not_number { (result ≡ Err NumberFault.NotNumber) ↔ ((s : Spelling) → Spells token.now s → ⊥) }
    ensures beyond { (s : Spelling) → Spells token.now s → 36 < digit_count token.now → result ≡ Err (NumberFault.Beyond (digit_count token.now)) }
    ensures value { (s : Spelling) → Spells token.now s → digit_count token.now ≤ 36 → IsOkAnd result (λ f. Equals f (spelled_num s) (spelled_den s) × IsLowest f) }
    ensures spelled { ((s : Spelling) × Spells token.now s) ⊎ (result ≡ Err NumberFault.NotNumber) }
    ensures exact { result ≡ number_of token.now }
{
    spelled_number(token)
}

/// The whole number that decimal digits alone write, however many, or 10^36 where it is greater. Nothing else is one.
pub fn read_capped(text: &[u8]) -> Option<u128>
    ensures capped { result ≡ option_map (λ n. min n (10 ^ 36)) (whole_of text.now) }
    ensures few { length text.now ≤ 36 → result ≡ whole_of text.now }
{
    if text.is_empty() {
        return None;
    }
    if are_digits(text) {
        Some(capped_value(text))
    } else {
        None
    }
}

/// The number that digits write, or 10^36 where it is greater.
fn capped_value(digits: &[u8]) -> u128
    requires { AllDigits 10 digits.now }
    ensures { result ≡ min (digits_value 10 digits.now) (10 ^ 36) }
{
    const CAP: u128 = 1_000_000_000_000_000_000_000_000_000_000_000_000;
    let mut value = 0;
    for digit in digits {
        let next = value * 10 + (*digit - b'0') as u128;
        value = if next < CAP { next } else { CAP };
    }
    value
}

/// The whole number that 1 to 18 decimal digits write, leading zeros counted too; nothing else is one.
pub fn read_digits(text: &[u8]) -> Option<u64>
    ensures some { IfSome result (SpellsWhole text.now) }
    ensures none { IfNone result ((n : ℕ) → SpellsWhole text.now n → ⊥) }
{
    if text.is_empty() || text.len() > MOST_WHOLE_DIGITS || !are_digits(text) {
        return None;
    }
    Some(digits_after(0, text, 0) as u64)
}
