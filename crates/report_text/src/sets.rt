//! The lines of the inner sets.

ghost use Rattle.std.specs.Prelude.{◌≡◌, ℕ, ◌<◌, ◌≤◌, ◌++◌, ◌∷◌, [], length, map, pos, ◌≤ℤ◌, codes, decimal, unsigned_abs, OnOk};
ghost use Rattle.game_model.specs.SelfGeneration.{part};
ghost use Rattle.report_text.specs.Pieces.{Appends, AppendsWords};
ghost use Rattle.report_text.specs.ReportText.{AreFractionWords, AreSetTexts, AreTextsBelow, IsEntryLine, IsNumbered, IsPrintable, IsSetText, blanked, line, member, numbers_at, outcome_word, promise_words, set_at};

use crate::report::Report;
use crate::text::{fraction, number, word};
use game_model::List;
use itoa::Buffer;
use selfgen_check::{Corr, Entry, Lottery};
use std::alloc::AllocError;

/// For each state its entries, where there are inner sets.
pub(crate) fn set_lines(out: &mut Vec<u8>, report: &Report) -> Result<(), AllocError>
    requires { IsPrintable report.now }
    ensures { OnOk result (Appends (AreSetTexts report.now report.now.inner) out.old.items out.new.items) }
{
    match &report.inner {
        None => Ok(()),
        Some(sets) => all_sets(out, report, sets),
    }
}

/// The sets of all states.
fn all_sets(out: &mut Vec<u8>, report: &Report, sets: &Corr) -> Result<(), AllocError>
    requires few { report.now.players ≤ 3 }
    requires lists { length report.now.numbers ≡ report.now.states }
    requires numbered { IsNumbered report.now sets.now }
    ensures { OnOk result (Appends (AreTextsBelow (IsSetText report.now sets.now) report.now.states) out.old.items out.new.items) }
{
    for s in 0..report.states {
        set_text(out, report, sets, s)?;
    }
    Ok(())
}

/// The line of a set, and those of its entries.
fn set_text(out: &mut Vec<u8>, report: &Report, sets: &Corr, s: u32) -> Result<(), AllocError>
    requires few { report.now.players ≤ 3 }
    requires lists { length report.now.numbers ≡ report.now.states }
    requires numbered { IsNumbered report.now sets.now }
    requires state { s < report.now.states }
    ensures { OnOk result (Appends (IsSetText report.now sets.now s) out.old.items out.new.items) }
{
    set_line(out, s, sets.entries(s).len())?;
    entry_lines(out, report, sets, s)
}

/// The line of a set: its state and how many entries it has.
fn set_line(out: &mut Vec<u8>, s: u32, count: u32) -> Result<(), AllocError>
    ensures { OnOk result (out.new.items ≡ out.old.items ++ line (codes "set") (decimal s ∷ decimal count ∷ [])) }
{
    out.extend_from_slice(b"set")?;
    number(out, s)?;
    number(out, count)?;
    out.push(b'\n')?;
    Ok(())
}

/// One line for each entry of a state.
fn entry_lines(out: &mut Vec<u8>, report: &Report, sets: &Corr, s: u32) -> Result<(), AllocError>
    requires few { report.now.players ≤ 3 }
    requires lists { length report.now.numbers ≡ report.now.states }
    requires numbered { IsNumbered report.now sets.now }
    requires state { s < report.now.states }
    ensures { OnOk result (Appends (AreTextsBelow (IsEntryLine report.now sets.now s) (length (set_at sets.now s))) out.old.items out.new.items) }
{
    for j in 0..sets.entries(s).len() {
        entry_line(out, report, sets, s, j)?;
    }
    Ok(())
}

/// The line of an entry.
fn entry_line(
    out: &mut Vec<u8>,
    report: &Report,
    sets: &Corr,
    s: u32,
    j: u32,
) -> Result<(), AllocError>
    requires few { report.now.players ≤ 3 }
    requires lists { length report.now.numbers ≡ report.now.states }
    requires numbered { IsNumbered report.now sets.now }
    requires state { s < report.now.states }
    requires entry { j < length (set_at sets.now s) }
    ensures { OnOk result (Appends (IsEntryLine report.now sets.now s j) out.old.items out.new.items) }
{
    let entry = sets.entry(s, j);
    out.extend_from_slice(b"entry")?;
    number(out, s)?;
    number(out, j)?;
    point(out, sets, entry, report.players)?;
    promise(out, *report.numbers.get(s).get(j), entry)?;
    out.push(b'\n')?;
    Ok(())
}

/// The parts of a point, one for each player.
fn point(out: &mut Vec<u8>, sets: &Corr, entry: &Entry, players: u32) -> Result<(), AllocError>
    requires parts { length entry.now.point ≡ players }
    ensures { OnOk result (AppendsWords (AreFractionWords players (part entry.now.point) (λ i. pos sets.now.common)) out.old.items out.new.items) }
{
    for i in 0..players {
        fraction(out, i128::from(entry.part(i)), i128::from(sets.common()))?;
    }
    Ok(())
}

/// What follows the point: the profile, the outcomes and the punishments.
fn promise(out: &mut Vec<u8>, profile: u32, entry: &Entry) -> Result<(), AllocError>
    ensures { OnOk result (out.new.items ≡ out.old.items ++ blanked (promise_words profile entry.now)) }
{
    word(out, b"profile")?;
    number(out, profile)?;
    word(out, b"lottery")?;
    outcomes(out, entry.lottery())?;
    word(out, b"punish")?;
    punishments(out, entry.punish())
}

/// The outcomes of a lottery.
fn outcomes(out: &mut Vec<u8>, lottery: &Lottery) -> Result<(), AllocError>
    ensures { OnOk result (out.new.items ≡ out.old.items ++ blanked (map outcome_word lottery.now)) }
{
    for i in 0..lottery.len() {
        outcome(out, lottery.entry(i), lottery.weight(i))?;
    }
    Ok(())
}

/// An entry that may follow, and its weight.
fn outcome(out: &mut Vec<u8>, entry: u32, weight: i128) -> Result<(), AllocError>
    requires { pos 0 ≤ℤ weight }
    ensures { OnOk result (out.new.items ≡ out.old.items ++ 32 ∷ outcome_word (entry, unsigned_abs weight)) }
{
    number(out, entry)?;
    out.push(b':')?;
    out.extend_from_slice(Buffer::new().format(weight as u128).as_bytes())?;
    Ok(())
}

/// The numbers of the entries that punish.
fn punishments(out: &mut Vec<u8>, punish: &List<u32>) -> Result<(), AllocError>
    ensures { OnOk result (out.new.items ≡ out.old.items ++ blanked (map decimal punish.now)) }
{
    for i in 0..punish.len() {
        number(out, *punish.get(i))?;
    }
    Ok(())
}
