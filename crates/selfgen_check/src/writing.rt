//! Correspondences in their canonical form.

ghost use Rattle.std.specs.Prelude.{◌≡◌, ◌<◌, ◌++◌, IfOk, OnOk};
ghost use Rattle.std.specs.List.{flat_map};
ghost use Rattle.nfg_text.specs.Canonical.{braced, counts_text};
ghost use Rattle.selfgen_check.specs.Canonical.{part_text, pair_text, entry_line, state_lines, canonical};
ghost use Rattle.selfgen_check.specs.Limits.{KeepsLimits};
ghost use Rattle.selfgen_check.specs.Measures.{corr_of, measured};
ghost use Rattle.selfgen_check.specs.Spelled.{IsWritable, fractions_of};

use crate::corr::Corr;
use crate::entry::Entry;
use crate::lottery::Lottery;
use game_model::{Game, List};
use nfg_text::writing::{counts, number, put_all, ratio};
use pay_frac::Frac;
use std::alloc::{AllocError, Global};
use token_text::{Text, put};

/// The canonical text of a correspondence, with its points in lowest terms. The condition is that of `check`. Where a text
/// can have the correspondence at all, this one reads as the same entries, over the least common denominator that serves.
///
/// # Errors
///
/// Want of memory, which here also is a text of 2^32 bytes or more.
pub fn write_corr(alloc: Global, game: &Game, corr: &Corr) -> Result<Text, AllocError>
    requires { KeepsLimits game.now corr.now }
    ensures text { IfOk result (λ t. t ≡ canonical corr.now) }
    ensures again { IfOk result (λ t. IsWritable game.now corr.now → corr_of game.now t ≡ measured game.now (fractions_of corr.now)) }
{
    canonical_text(alloc, game, corr)
}

/// The canonical text.
fn canonical_text(alloc: Global, game: &Game, corr: &Corr) -> Result<Text, AllocError>
    requires { KeepsLimits game.now corr.now }
    ensures { IfOk result (λ t. t ≡ canonical corr.now) }
{
    let mut out = List::new(alloc);
    put_all(&mut out, b"SGC 1 {\n")?;
    states(&mut out, game, corr)?;
    put_all(&mut out, b"}\n")?;
    Ok(out)
}

/// The lines of all states.
fn states(out: &mut Text, game: &Game, corr: &Corr) -> Result<(), AllocError>
    requires { KeepsLimits game.now corr.now }
    ensures { OnOk result (out.new ≡ out.old ++ flat_map (state_lines corr.now.common) corr.now.entries) }
{
    let common = corr.common() as u64;
    for s in 0..game.states() {
        state(out, common, corr.entries(s))?;
    }
    Ok(())
}

/// The lines of a state.
fn state(out: &mut Text, common: u64, list: &List<Entry>) -> Result<(), AllocError>
    requires { 0 < common }
    ensures { OnOk result (out.new ≡ out.old ++ state_lines common list.now) }
{
    put_all(out, b"{\n")?;
    entries(out, common, list)?;
    put_all(out, b"}\n")
}

/// A line for each entry.
fn entries(out: &mut Text, common: u64, list: &List<Entry>) -> Result<(), AllocError>
    requires { 0 < common }
    ensures { OnOk result (out.new ≡ out.old ++ flat_map (entry_line common) list.now) }
{
    for k in 0..list.len() {
        entry(out, common, list.get(k))?;
    }
    Ok(())
}

/// The line of an entry.
fn entry(out: &mut Text, common: u64, entry: &Entry) -> Result<(), AllocError>
    requires { 0 < common }
    ensures { OnOk result (out.new ≡ out.old ++ entry_line common entry.now) }
{
    put_all(out, b"{")?;
    point(out, common, entry)?;
    numbers(out, entry.profile())?;
    lottery(out, entry.lottery())?;
    numbers(out, entry.punish())?;
    put_all(out, b" }\n")
}

/// The point of an entry, in braces.
fn point(out: &mut Text, common: u64, entry: &Entry) -> Result<(), AllocError>
    requires { 0 < common }
    ensures { OnOk result (out.new ≡ out.old ++ braced (flat_map (part_text common) entry.now.point)) }
{
    put_all(out, b" {")?;
    parts(out, common, entry)?;
    put_all(out, b" }")
}

/// The parts of the point.
fn parts(out: &mut Text, common: u64, entry: &Entry) -> Result<(), AllocError>
    requires { 0 < common }
    ensures { OnOk result (out.new ≡ out.old ++ flat_map (part_text common) entry.now.point) }
{
    for i in 0..entry.profile().len() {
        part(out, common, entry.part(i))?;
    }
    Ok(())
}

/// A part in lowest terms, behind a blank.
fn part(out: &mut Text, common: u64, units: i64) -> Result<(), AllocError>
    requires { 0 < common }
    ensures { OnOk result (out.new ≡ out.old ++ part_text common units) }
{
    put(out, b' ')?;
    ratio(out, Frac::of(i128::from(units), i128::from(common)))
}

/// Whole numbers in braces.
fn numbers(out: &mut Text, list: &List<u32>) -> Result<(), AllocError>
    ensures { OnOk result (out.new ≡ out.old ++ braced (counts_text list.now)) }
{
    put_all(out, b" {")?;
    counts(out, list)?;
    put_all(out, b" }")
}

/// A lottery in braces.
fn lottery(out: &mut Text, lottery: &Lottery) -> Result<(), AllocError>
    ensures { OnOk result (out.new ≡ out.old ++ braced (flat_map pair_text lottery.now)) }
{
    put_all(out, b" {")?;
    pairs(out, lottery)?;
    put_all(out, b" }")
}

/// The outcomes with their weights.
fn pairs(out: &mut Text, lottery: &Lottery) -> Result<(), AllocError>
    ensures { OnOk result (out.new ≡ out.old ++ flat_map pair_text lottery.now) }
{
    for i in 0..lottery.len() {
        pair(out, lottery.entry(i), lottery.weight(i) as u128)?;
    }
    Ok(())
}

/// The number of an entry and a weight.
fn pair(out: &mut Text, entry: u32, weight: u128) -> Result<(), AllocError>
    ensures { OnOk result (out.new ≡ out.old ++ pair_text (entry, weight)) }
{
    put(out, b' ')?;
    number(out, entry)?;
    put(out, b' ')?;
    number(out, weight)
}
