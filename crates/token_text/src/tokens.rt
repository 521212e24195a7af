//! The tokens of a text: braces, quoted texts and words, with blanks between.

ghost use Rattle.std.specs.Prelude.{◌≡◌, [], ◌<◌, ◌≤◌, ◌+◌, ◌-◌, ◌^◌, length, take, drop, slice_index, option_map, Some, MatchOption};
ghost use Rattle.std.specs.List.{prefix_len};
ghost use Rattle.token_text.specs.Tokens.{is_blank, is_word_byte, quoted_bytes, kind_at, bytes_after, ended, stream_from, stream_of, next, rest as tokens_after};
ghost use Rattle.token_text.specs.Lexer.{kind_of, token_of};

use std::marker::Model;

/// What a token is. It borrows the bytes of the text that it stands in.
#[derive(Clone, Copy, Drop)]
pub enum LexemeKind<'a> {
    /// An open brace.
    Open,
    /// A close brace.
    Close,
    /// The bytes between two quotes. A backslash before a quote among them still stands there.
    Quoted(&'a [u8]),
    /// A longest run of bytes that are neither blanks, braces nor quotes.
    Word(&'a [u8]),
    /// A quote that isn't closed.
    Unclosed,
    /// No token is left.
    End,
}

/// A token and its place, the number of bytes before it. The place of the end is the length of the text.
#[derive(Clone, Copy, Drop)]
pub struct Lexeme<'a> {
    pub at: u64,
    pub kind: LexemeKind<'a>,
}

/// The tokens of a text that haven't been taken yet. It allocates nothing.
#[derive(Drop)]
pub struct Lexer<'a> {
    rest: &'a [u8],
    at: u64,
}

impl<'a> Model for Lexer<'a> {
    ghost use Rattle.token_text.specs.Tokens.{Stream};

    ghost Value = { Stream };

    ghost use Rattle.token_text.specs.LexerInside.{tokens_left, HasPlaces};

    ghost view = { tokens_left };

    ghost invariant = { HasPlaces };
}

impl<'a> Lexer<'a> {
    /// All tokens of the bytes.
    pub fn of(bytes: &'a [u8]) -> Lexer<'a>
        ensures { result ≡ stream_of bytes.now }
    {
        Lexer { rest: bytes, at: 0 }
    }

    /// The next token, which is left where it is.
    pub fn peek(&self) -> Lexeme<'a>
        ensures token { token_of result ≡ next self.now }
        ensures end { kind_of result.kind ≡ ended → self.now.tokens ≡ [] }
    {
        first_token(self.rest, self.at).0
    }

    /// Takes the next token. At the end this is the end, again and again.
    pub fn next_token(&mut self) -> Lexeme<'a>
        ensures token { token_of result ≡ next self.old }
        ensures end { kind_of result.kind ≡ ended → self.old.tokens ≡ [] }
        ensures rest { self.new ≡ tokens_after self.old }
    {
        let (token, rest) = first_token(self.rest, self.at);
        self.at += (self.rest.len() - rest.len()) as u64;
        self.rest = rest;
        token
    }
}

/// The first token of bytes that stand behind `at` others, and the bytes after it.
fn first_token(bytes: &[u8], at: u64) -> (Lexeme<'_>, &[u8])
    requires { at + length bytes.now < 2 ^ 64 }
    ensures token { token_of result.0 ≡ next (stream_from at bytes.now) }
    ensures end { kind_of result.0.kind ≡ ended → (stream_from at bytes.now).tokens ≡ [] }
    ensures rest { stream_from (at + (length bytes.now - length result.1.now)) result.1.now ≡ tokens_after (stream_from at bytes.now) }
    ensures no_longer { length result.1.now ≤ length bytes.now }
{
    let behind = behind_blanks(bytes);
    let at = at + (bytes.len() - behind.len()) as u64;
    if behind.is_empty() {
        let kind = LexemeKind::End;
        return (Lexeme { at, kind }, behind);
    }
    let (kind, rest) = first_kind(behind);
    (Lexeme { at, kind }, rest)
}

/// A comma is a blank.
fn blank(byte: u8) -> bool
    ensures { result ≡ is_blank byte }
{
    byte == b' ' || byte == b'\t' || byte == b'\r' || byte == b'\n' || byte == b','
}

fn word_byte(byte: u8) -> bool
    ensures { result ≡ is_word_byte byte }
{
    !(blank(byte) || byte == b'{' || byte == b'}' || byte == b'"')
}

/// The bytes from the first on that is no blank.
fn behind_blanks(bytes: &[u8]) -> &[u8]
    ensures value { result.now ≡ drop (prefix_len is_blank bytes.now) bytes.now }
    ensures no_longer { length result.now ≤ length bytes.now }
{
    &bytes[blank_run(bytes)..]
}

/// How many blanks the bytes begin with.
fn blank_run(bytes: &[u8]) -> usize
    ensures value { result ≡ prefix_len is_blank bytes.now }
    ensures within { result ≤ length bytes.now }
{
    for (i, byte) in bytes.iter().enumerate() {
        if !blank(*byte) {
            return i;
        }
    }
    bytes.len()
}

/// How many bytes of a word the bytes begin with.
fn word_run(bytes: &[u8]) -> usize
    ensures value { result ≡ prefix_len is_word_byte bytes.now }
    ensures within { result ≤ length bytes.now }
{
    for (i, byte) in bytes.iter().enumerate() {
        if !word_byte(*byte) {
            return i;
        }
    }
    bytes.len()
}

/// How many of the bytes behind a quote stand before the quote that closes it.
fn quoted_run(bytes: &[u8]) -> Option<usize>
    ensures split { option_map (λ n. (take n bytes.now, drop (n + 1) bytes.now)) result ≡ quoted_bytes 34 bytes.now }
    ensures closed { MatchOption result (Unit {0}) (λ n. n < length bytes.now) }
{
    let mut before = b'"';
    for (i, byte) in bytes.iter().enumerate() {
        if *byte == b'"' && before != b'\\' {
            return Some(i);
        }
        before = *byte;
    }
    None
}

/// The token that the bytes begin with, and the bytes after it.
fn first_kind(bytes: &[u8]) -> (LexemeKind<'_>, &[u8])
    requires { 0 < length bytes.now }
    ensures kind { kind_of result.0 ≡ kind_at (slice_index bytes.now 0) (drop 1 bytes.now) }
    ensures rest { result.1.now ≡ bytes_after (slice_index bytes.now 0) (drop 1 bytes.now) }
    ensures shorter { length result.1.now < length bytes.now }
{
    match bytes[0] {
        b'{' => (LexemeKind::Open, &bytes[1..]),
        b'}' => (LexemeKind::Close, &bytes[1..]),
        b'"' => first_quoted(&bytes[1..]),
        _ => {
            let end = 1 + word_run(&bytes[1..]);
            (LexemeKind::Word(&bytes[..end]), &bytes[end..])
        }
    }
}

/// The token whose first quote stands before the bytes, and the bytes after it.
fn first_quoted(bytes: &[u8]) -> (LexemeKind<'_>, &[u8])
    ensures kind { kind_of result.0 ≡ kind_at 34 bytes.now }
    ensures rest { result.1.now ≡ bytes_after 34 bytes.now }
    ensures no_longer { length result.1.now ≤ length bytes.now }
{
    match quoted_run(bytes) {
        Some(end) => (LexemeKind::Quoted(&bytes[..end]), &bytes[end + 1..]),
        None => (LexemeKind::Unclosed, &bytes[bytes.len()..]),
    }
}
