//! Words that write numbers as a report does.

ghost use Rattle.pay_frac.specs.Ratio.{IsLowest};
ghost use Rattle.report_lines.specs.Spelled.{is_fraction as is_fraction_word, is_pair as is_pair_word, is_whole as is_whole_word, ratio_word};
ghost use Rattle.std.specs.List.{position_or_len};
ghost use Rattle.std.specs.Prelude.{◌≡◌, ◌+◌, ◌<◌, ◌≤◌, ◌++◌, ◌==◌, ◌∷◌, ◌↔◌, IsTrue, drop, length, slice_index, take};
ghost use Rattle.std.specs.Str.{bytes_eq};

use crate::words::{behind, up_to};
use itoa::Buffer;
use pay_frac::{Frac, read_number};

/// Whether a word is a whole number of at most 36 digits, as a report writes it.
#[tactic(auto, unfolding(crate::specs::Spelled::is_whole))]
pub(crate) fn is_whole(word: &[u8]) -> bool
    ensures { result ≡ is_whole_word word.now }
{
    match read_number(word) {
        Ok(fraction) => fraction.den() == 1 && writes(fraction, word),
        Err(_) => false,
    }
}

/// Whether a word is a fraction of at most 36 digits, as a report writes it.
#[tactic(auto, unfolding(crate::specs::Spelled::is_fraction))]
pub(crate) fn is_fraction(word: &[u8]) -> bool
    ensures { result ≡ is_fraction_word word.now }
{
    match read_number(word) {
        Ok(fraction) => writes(fraction, word),
        Err(_) => false,
    }
}

/// Whether a word is two whole numbers with a colon between, as a report writes them.
#[tactic(auto, unfolding(crate::specs::Spelled::is_pair))]
pub(crate) fn is_pair(word: &[u8]) -> bool
    ensures { result ≡ is_pair_word word.now }
{
    let end = colon(word);
    end < word.len() && is_whole(&word[..end]) && is_whole(&word[end + 1..])
}

/// How many bytes stand before the first colon.
fn colon(word: &[u8]) -> usize
    ensures value { result ≡ position_or_len (λ b. b == 58) word.now }
    ensures within { result ≤ length word.now }
{
    for (i, byte) in word.iter().enumerate() {
        if *byte == b':' {
            return i;
        }
    }
    word.len()
}

/// Whether a word is what a report writes for a fraction.
pub(crate) fn writes(fraction: Frac, word: &[u8]) -> bool
    ensures { result ≡ bytes_eq word.now (ratio_word fraction) }
{
    let mut num = Buffer::new();
    let mut den = Buffer::new();
    let num = num.format(fraction.num()).as_bytes();
    if fraction.den() == 1 {
        word == num
    } else {
        is_joined(word, num, den.format(fraction.den()).as_bytes())
    }
}

/// Whether a word is the first text, a stroke, and the second text.
fn is_joined(word: &[u8], first: &[u8], second: &[u8]) -> bool
    ensures { result ≡ bytes_eq word.now (first.now ++ 47 ∷ second.now) }
{
    has_parts(word, first, second)
}

/// The same, by the length of the first text.
fn has_parts(word: &[u8], first: &[u8], second: &[u8]) -> bool
    ensures { IsTrue result ↔ (word.now ≡ first.now ++ 47 ∷ second.now) }
{
    let end = first.len();
    if end < word.len() {
        are_parts(word, end, first, second)
    } else {
        false
    }
}

/// Whether the bytes before, at and behind `end` are these texts and a stroke between.
fn are_parts(word: &[u8], end: usize, first: &[u8], second: &[u8]) -> bool
    requires { end < length word.now }
    ensures { IsTrue result ↔ ((take end word.now ≡ first.now) × (slice_index word.now end ≡ 47) × (drop (end + 1) word.now ≡ second.now)) }
{
    up_to(word, end) == first && word[end] == b'/' && behind(word, end) == second
}
