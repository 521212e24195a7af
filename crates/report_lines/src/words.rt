//! The words of a text, one after another.

ghost use Rattle.pay_frac.specs.Ratio.{IsLowest, Ratio};
ghost use Rattle.pay_frac.specs.Spelling.{digit_count};
ghost use Rattle.report_lines.specs.Spelled.{ratio_word};
ghost use Rattle.report_lines.specs.Words.{is_break, words_of};
ghost use Rattle.std.specs.Fmt.{signed_decimal};
ghost use Rattle.std.specs.Int.RustNames.{unsigned_abs};
ghost use Rattle.std.specs.List.{position_or_len};
ghost use Rattle.std.specs.Prelude.{◌≡◌, ◌⊎◌, ℕ, ◌+◌, ◌^◌, ◌<◌, ◌≤◌, ◌↔◌, [], ◌∷◌, IsTrue, count_by, decimal, drop, if◌then◌else◌, length, pos, neg_ℤ, slice_index_or, take, ℤ, ◌≤ℤ◌};

use crate::spelled::writes;
use pay_frac::{Frac, read_number};
use std::marker::Model;

/// The words of a text that aren't taken yet. A blank or a line feed ends a word. Contracts see the list of them.
#[derive(Drop)]
pub struct Words<'a> {
    rest: &'a [u8],
    /// Whether the last word is taken.
    done: bool,
}

impl<'a> Model for Words<'a> {
    ghost use Rattle.std.specs.Prelude.{ℕ, List};
    ghost use Rattle.report_lines.specs.Words.{words_left};

    ghost Value = { List (List ℕ) };

    ghost view = { words_left };
}

impl<'a> Words<'a> {
    /// All words of the bytes.
    pub fn of(bytes: &'a [u8]) -> Words<'a>
        ensures { result ≡ words_of bytes.now }
    {
        Words {
            rest: bytes,
            done: false,
        }
    }

    /// The same words.
    pub fn same(&self) -> Words<'a>
        ensures { result ≡ self.now }
    {
        Words {
            rest: self.rest,
            done: self.done,
        }
    }

    /// Whether no word is left.
    #[tactic(auto, using(crate::proofs::Pieces::split_some))]
    pub fn is_done(&self) -> bool
        ensures { IsTrue result ↔ (self.now ≡ []) }
    {
        self.done
    }

    /// How many words are left.
    #[tactic(auto, using(crate::proofs::Pieces::split_length))]
    pub fn count(&self) -> usize
        ensures { result ≡ length self.now }
    {
        if self.done {
            0
        } else {
            break_count(self.rest) + 1
        }
    }

    /// Takes the next word. Behind the last it is empty.
    pub fn word(&mut self) -> &'a [u8]
        ensures word { result.now ≡ slice_index_or self.old 0 [] }
        ensures rest { self.new ≡ drop 1 self.old }
    {
        if self.done {
            return &[];
        }
        let (first, rest, done) = first_word(self.rest);
        self.rest = rest;
        self.done = done;
        first
    }

    /// Passes over the next word.
    pub fn skip(&mut self)
        ensures { self.new ≡ drop 1 self.old }
    {
        let _word = self.word();
    }

    /// Whether the next word is this one.
    pub fn next_is(&self, name: &[u8]) -> bool
        ensures { IsTrue result ↔ (slice_index_or self.now 0 [] ≡ name.now) }
    {
        self.same().word() == name
    }

    /// Takes a whole number that is at least `low` and at most `high`. In the place of anything else it is `low`.
    pub fn whole(&mut self, low: i128, high: i128) -> i128
        requires { low ≤ℤ high }
        ensures within { (low ≤ℤ result) × (result ≤ℤ high) }
        ensures read { (x : ℤ) → slice_index_or self.old 0 [] ≡ signed_decimal x → unsigned_abs x < 10 ^ 36 → low ≤ℤ x → x ≤ℤ high → result ≡ x }
        ensures rest { self.new ≡ drop 1 self.old }
    {
        whole_in(self.word(), low, high)
    }

    /// The same of a number of 32 bits.
    pub fn small(&mut self, low: u32, high: u32) -> u32
        requires { low ≤ high }
        ensures within { (low ≤ result) × (result ≤ high) }
        ensures read { (n : ℕ) → slice_index_or self.old 0 [] ≡ decimal n → low ≤ n → n ≤ high → result ≡ n }
        ensures rest { self.new ≡ drop 1 self.old }
    {
        self.whole(i128::from(low), i128::from(high)) as u32
    }

    /// The same of a number of 64 bits.
    pub fn large(&mut self, low: u64, high: u64) -> u64
        requires { low ≤ high }
        ensures within { (low ≤ result) × (result ≤ high) }
        ensures read { (n : ℕ) → slice_index_or self.old 0 [] ≡ decimal n → low ≤ n → n ≤ high → result ≡ n }
        ensures rest { self.new ≡ drop 1 self.old }
    {
        self.whole(i128::from(low), i128::from(high)) as u64
    }

    /// The same of a number within 2^50 of zero, the least in the place of anything else.
    pub fn level(&mut self) -> i64
        ensures within { (neg_ℤ (pos (2 ^ 50)) ≤ℤ result) × (result ≤ℤ pos (2 ^ 50)) }
        ensures read { (x : ℤ) → slice_index_or self.old 0 [] ≡ signed_decimal x → neg_ℤ (pos (2 ^ 50)) ≤ℤ x → x ≤ℤ pos (2 ^ 50) → result ≡ x }
        ensures rest { self.new ≡ drop 1 self.old }
    {
        self.whole(-(1 << 50), 1 << 50) as i64
    }

    /// Takes a fraction, in whose place anything else is 0.
    pub fn fraction(&mut self) -> Frac
        ensures lowest { IsLowest result }
        ensures few { digit_count (ratio_word result) ≤ 36 }
        ensures read { (r : Ratio) → IsLowest r → digit_count (ratio_word r) ≤ 36 → slice_index_or self.old 0 [] ≡ ratio_word r → result ≡ r }
        ensures rest { self.new ≡ drop 1 self.old }
    {
        fraction_in(self.word())
    }
}

/// The first word of the bytes, the bytes behind what ends it, and whether nothing does.
fn first_word(bytes: &[u8]) -> (&[u8], &[u8], bool)
    ensures first { result.0.now ≡ slice_index_or (words_of bytes.now) 0 [] }
    ensures rest { (if result.2 then [] else words_of result.1.now) ≡ drop 1 (words_of bytes.now) }
{
    let end = word_run(bytes);
    if end == bytes.len() {
        (bytes, bytes, true)
    } else {
        (up_to(bytes, end), behind(bytes, end), false)
    }
}

/// The bytes before one.
pub(crate) fn up_to(bytes: &[u8], end: usize) -> &[u8]
    requires { end < length bytes.now }
    ensures { result.now ≡ take end bytes.now }
{
    &bytes[..end]
}

/// The bytes behind one.
pub(crate) fn behind(bytes: &[u8], end: usize) -> &[u8]
    requires { end < length bytes.now }
    ensures { result.now ≡ drop (end + 1) bytes.now }
{
    &bytes[end + 1..]
}

/// A blank or a line feed.
fn is_break_byte(byte: u8) -> bool
    ensures { result ≡ is_break byte }
{
    byte == b' ' || byte == b'\n'
}

/// How many blanks and line feeds there are.
fn break_count(bytes: &[u8]) -> usize
    ensures value { result ≡ count_by is_break bytes.now }
    ensures within { result ≤ length bytes.now }
{
    let mut count = 0;
    for byte in bytes {
        if is_break_byte(*byte) {
            count += 1;
        }
    }
    count
}

/// How many bytes stand before the first blank or line feed.
fn word_run(bytes: &[u8]) -> usize
    ensures value { result ≡ position_or_len is_break bytes.now }
    ensures within { result ≤ length bytes.now }
{
    for (i, byte) in bytes.iter().enumerate() {
        if is_break_byte(*byte) {
            return i;
        }
    }
    bytes.len()
}

/// The fraction that a word writes, as a report writes it, or 0.
fn fraction_in(word: &[u8]) -> Frac
    ensures lowest { IsLowest result }
    ensures few { digit_count (ratio_word result) ≤ 36 }
    ensures read { (r : Ratio) → IsLowest r → digit_count (ratio_word r) ≤ 36 → word.now ≡ ratio_word r → result ≡ r }
{
    match read_number(word) {
        Ok(fraction) => as_written(fraction, word),
        Err(_) => zero(),
    }
}

/// The fraction, if a report writes it so, or else 0.
fn as_written(fraction: Frac, word: &[u8]) -> Frac
    ensures written { word.now ≡ ratio_word fraction → result ≡ fraction }
    ensures other { (word.now ≡ ratio_word result) ⊎ (result ≡ record { num = pos 0; den = pos 1 }) }
    ensures lowest { IsLowest result }
{
    if writes(fraction, word) {
        fraction
    } else {
        zero()
    }
}

fn zero() -> Frac
    ensures value { result ≡ record { num = pos 0; den = pos 1 } }
    ensures lowest { IsLowest result }
{
    Frac::of(0, 1)
}

/// The whole number that a word writes, or `low` where it isn't one from `low` to `high`.
fn whole_in(word: &[u8], low: i128, high: i128) -> i128
    requires { low ≤ℤ high }
    ensures within { (low ≤ℤ result) × (result ≤ℤ high) }
    ensures read { (x : ℤ) → word.now ≡ signed_decimal x → unsigned_abs x < 10 ^ 36 → low ≤ℤ x → x ≤ℤ high → result ≡ x }
{
    let fraction = fraction_in(word);
    let value = fraction.num();
    if fraction.den() == 1 && low <= value && value <= high {
        value
    } else {
        low
    }
}
