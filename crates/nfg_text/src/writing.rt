//! Texts in their canonical form.

ghost use Rattle.std.specs.Prelude.{◌≡◌, ◌≤◌, ◌++◌, ◌∷◌, [], ℕ, codes, decimal, length, OnOk, IfOk, Ok};
ghost use Rattle.nfg_text.specs.Canonical.{canonical, comment_text, counts_text, head_text, names_text, braced, payoffs_text, ratio_text, strategies_text};
ghost use Rattle.token_text.specs.Quoted.{escaped, quoted_text};
ghost use Rattle.nfg_text.specs.Grammar.{nfg_of};
ghost use Rattle.nfg_text.specs.Writable.{IsWritable};
ghost use Rattle.std.specs.List.{flat_map};

use crate::nfg::{Nfg, Strategies};
use game_model::List;
use itoa::{Buffer, Integer};
use pay_frac::Frac;
use std::alloc::{AllocError, Global};
use token_text::{Text, put};

/// The canonical text of a game. The grammar reads it as the same game, where a file can have the game and where
/// the spelling of each payoff has at most 36 digits: a decimal that was read may have a longer one.
///
/// # Errors
///
/// Want of memory, which here also is a text of 2^32 bytes or more.
pub fn write_nfg(alloc: Global, nfg: &Nfg) -> Result<Text, AllocError>
    ensures text { IfOk result (λ t. t ≡ canonical nfg.now) }
    ensures again { IfOk result (λ t. IsWritable nfg.now → nfg_of t ≡ Ok nfg.now) }
{
    canonical_text(alloc, nfg)
}

/// The text, line by line.
fn canonical_text(alloc: Global, nfg: &Nfg) -> Result<Text, AllocError>
    ensures { IfOk result (λ t. t ≡ canonical nfg.now) }
{
    let mut out = List::new(alloc);
    head(&mut out, nfg)?;
    comment(&mut out, &nfg.comment)?;
    payoffs(&mut out, &nfg.payoffs)?;
    put(&mut out, b'\n')?;
    Ok(out)
}

/// The line before the comment and the payoffs.
fn head(out: &mut Text, nfg: &Nfg) -> Result<(), AllocError>
    ensures { OnOk result (out.new ≡ out.old ++ head_text nfg.now) }
{
    put_all(out, b"NFG 1 R ")?;
    quoted(out, &nfg.title)?;
    put_all(out, b" {")?;
    names(out, &nfg.players)?;
    put_all(out, b" }")?;
    strategies(out, &nfg.strategies)?;
    put(out, b'\n')
}

/// Bytes at the end.
pub fn put_all(out: &mut Text, bytes: &[u8]) -> Result<(), AllocError>
    ensures { OnOk result (out.new ≡ out.old ++ bytes.now) }
{
    for byte in bytes {
        put(out, *byte)?;
    }
    Ok(())
}

/// A text in quotes, with a backslash before each quote in it.
pub fn quoted(out: &mut Text, text: &Text) -> Result<(), AllocError>
    ensures { OnOk result (out.new ≡ out.old ++ quoted_text text.now) }
{
    put(out, b'"')?;
    escaped_bytes(out, text)?;
    put(out, b'"')
}

/// A text with a backslash before each quote in it.
fn escaped_bytes(out: &mut Text, text: &Text) -> Result<(), AllocError>
    ensures { OnOk result (out.new ≡ out.old ++ escaped text.now) }
{
    for i in 0..text.len() {
        escaped_byte(out, *text.get(i))?;
    }
    Ok(())
}

/// A byte of a text.
fn escaped_byte(out: &mut Text, byte: u8) -> Result<(), AllocError>
    ensures { OnOk result (out.new ≡ out.old ++ escaped (byte ∷ [])) }
{
    if byte == b'"' {
        put(out, b'\\')?;
    }
    put(out, byte)
}

/// A whole number.
pub fn number<I: Integer>(out: &mut Text, n: I) -> Result<(), AllocError>
    ensures { OnOk result (out.new ≡ out.old ++ I.text n) }
{
    put_all(out, Buffer::new().format(n).as_bytes())
}

/// A fraction in lowest terms.
pub fn ratio(out: &mut Text, f: Frac) -> Result<(), AllocError>
    ensures { OnOk result (out.new ≡ out.old ++ ratio_text f) }
{
    number(out, f.num())?;
    if f.den() != 1 {
        put(out, b'/')?;
        number(out, f.den())?;
    }
    Ok(())
}

/// A text in quotes behind a blank.
fn name(out: &mut Text, text: &Text) -> Result<(), AllocError>
    ensures { OnOk result (out.new ≡ out.old ++ 32 ∷ quoted_text text.now) }
{
    put(out, b' ')?;
    quoted(out, text)
}

/// Texts in quotes, each behind a blank.
fn names(out: &mut Text, texts: &List<Text>) -> Result<(), AllocError>
    ensures { OnOk result (out.new ≡ out.old ++ names_text texts.now) }
{
    for i in 0..texts.len() {
        name(out, texts.get(i))?;
    }
    Ok(())
}

/// Names in braces, behind a blank.
fn braced_names(out: &mut Text, texts: &List<Text>) -> Result<(), AllocError>
    ensures { OnOk result (out.new ≡ out.old ++ braced (names_text texts.now)) }
{
    put_all(out, b" {")?;
    names(out, texts)?;
    put_all(out, b" }")
}

/// Names of both players, in braces.
fn lists(out: &mut Text, lists: &List<List<Text>>) -> Result<(), AllocError>
    ensures { OnOk result (out.new ≡ out.old ++ flat_map (λ ns. braced (names_text ns)) lists.now) }
{
    for i in 0..lists.len() {
        braced_names(out, lists.get(i))?;
    }
    Ok(())
}

/// A whole number behind a blank.
pub fn count(out: &mut Text, n: u32) -> Result<(), AllocError>
    ensures { OnOk result (out.new ≡ out.old ++ 32 ∷ decimal n) }
{
    put(out, b' ')?;
    number(out, n)
}

/// Whole numbers, each behind a blank.
pub fn counts(out: &mut Text, numbers: &List<u32>) -> Result<(), AllocError>
    ensures { OnOk result (out.new ≡ out.old ++ counts_text numbers.now) }
{
    for i in 0..numbers.len() {
        count(out, *numbers.get(i))?;
    }
    Ok(())
}

/// The strategies as they were given.
fn strategies(out: &mut Text, strategies: &Strategies) -> Result<(), AllocError>
    ensures { OnOk result (out.new ≡ out.old ++ strategies_text strategies.now) }
{
    put_all(out, b" {")?;
    match strategies {
        Strategies::Counts(numbers) => counts(out, numbers)?,
        Strategies::Names(names) => lists(out, names)?,
    }
    put_all(out, b" }")
}

/// The comment's line, where there is one.
fn comment(out: &mut Text, comment: &Option<Text>) -> Result<(), AllocError>
    ensures { OnOk result (out.new ≡ out.old ++ comment_text comment.now) }
{
    if let Some(text) = comment {
        quoted(out, text)?;
        put(out, b'\n')?;
    }
    Ok(())
}

/// Numbers with one blank between them.
fn payoffs(out: &mut Text, numbers: &List<Frac>) -> Result<(), AllocError>
    ensures { OnOk result (out.new ≡ out.old ++ payoffs_text numbers.now) }
{
    if numbers.len() == 0 {
        return Ok(());
    }
    ratio(out, *numbers.get(0))?;
    for i in 1..numbers.len() {
        put(out, b' ')?;
        ratio(out, *numbers.get(i))?;
    }
    Ok(())
}
