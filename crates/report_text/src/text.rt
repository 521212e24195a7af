//! The text of a report.

ghost use Rattle.game_model.specs.SelfGeneration.{part};
ghost use Rattle.report_lines.specs.Spelled.{ratio_word};
ghost use Rattle.report_text.specs.Pieces.{Appends, AppendsLine, AppendsWord, AppendsWords, counts_text, sizes_text};
ghost use Rattle.report_text.specs.ReportText.{AreDiscountWords, AreEqual, AreFractionWords, AreTexts, IsFraction, IsFractionWord, IsHead, IsPointLine, IsPrintable, IsReportText, IsVerdictText, blanked, discount_at, item_words, items_words, level_word, line, note_text, notes_text, reached_word, reason_words, row_line, row_words, rows_of, status_word, texts_below, why_line};
ghost use Rattle.std.specs.Fmt.{signed_decimal};
ghost use Rattle.std.specs.Int.RustNames.{unsigned_abs};
ghost use Rattle.std.specs.Prelude.{All, IfOk, IsTrue, List, OnOk, [], codes, decimal, length, pos, ◌++◌, ◌<ℤ◌, ◌<◌, ◌*◌, ◌^◌, ◌↔◌, ◌∷◌, ◌≡◌, ◌≤◌, ◌⊎◌, ℕ, ℤ};

use crate::report::Report;
use crate::sets::set_lines;
use game_model::List;
use itoa::{Buffer, Integer};
use level_table::{Item, Items, Level, Notes, Reason, ReasonList};
use lp_core::Point;
use pay_frac::Frac;
use set_operator::{Support, Verdict};
use std::alloc::{AllocError, Global};

/// The text of a report: lines of words with one blank between them, each ended by a line feed.
///
/// The lines are `payoff 1`, `status`, `players`, `states`, `directions`, `discount`, `unit`, `slack`,
/// `sweeps` and `solves`, which is sweeps times rows; then `row S K X` for each row, with the state, the
/// direction and the level; then `point S K A Y0 Y1 ..` for each support, with the profile and the parts of
/// the point, or `stop S K X V` for the row that has none, with its level and the reached value; then, for
/// each note, `empty S` and one `why S A ..` for each profile; then, where there are inner sets, for each state `set S N`
/// with the number of its entries and one `entry S J V0 V1 .. profile A lottery J:W .. punish J ..` for each; then `end`.
/// Levels, values and the parts of supports are in units of `1/unit`, and V0, V1 .. in those of the game's payoffs. A
/// fraction is `n` or `n/d` in lowest terms. One discount stands for all where they are equal. The text says nothing of
/// the room that notes have for more.
pub fn text_of(alloc: Global, report: &Report) -> Result<Vec<u8>, AllocError>
    requires { IsPrintable report.now }
    ensures { IfOk result (λ text. IsReportText report.now text.items) }
{
    let mut out = Vec::new(alloc);
    head(&mut out, report)?;
    row_lines(&mut out, report)?;
    verdict_lines(&mut out, report)?;
    note_lines(&mut out, &report.notes)?;
    set_lines(&mut out, report)?;
    out.extend_from_slice(b"end\n")?;
    Ok(out)
}

/// A blank and a word.
pub(crate) fn word(out: &mut Vec<u8>, bytes: &[u8]) -> Result<(), AllocError>
    ensures { OnOk result (out.new.items ≡ out.old.items ++ 32 ∷ bytes.now) }
{
    out.push(b' ')?;
    out.extend_from_slice(bytes)
}

/// A blank and a whole number.
pub(crate) fn number<I: Integer>(out: &mut Vec<u8>, n: I) -> Result<(), AllocError>
    ensures { OnOk result (out.new.items ≡ out.old.items ++ 32 ∷ I.text n) }
{
    word(out, Buffer::new().format(n).as_bytes())
}

/// A blank and a fraction.
fn ratio(out: &mut Vec<u8>, f: Frac) -> Result<(), AllocError>
    ensures { OnOk result (out.new.items ≡ out.old.items ++ 32 ∷ ratio_word f) }
{
    number(out, f.num())?;
    if f.den() != 1 {
        out.push(b'/')?;
        out.extend_from_slice(Buffer::new().format(f.den()).as_bytes())?;
    }
    Ok(())
}

/// A blank and `num / den` in lowest terms.
pub(crate) fn fraction(out: &mut Vec<u8>, num: i128, den: i128) -> Result<(), AllocError>
    requires positive { pos 0 <ℤ den }
    requires not_least { unsigned_abs num < 2 ^ 127 }
    ensures { OnOk result (AppendsWord (IsFractionWord num den) out.old.items out.new.items) }
{
    ratio(out, Frac::of(num, den))
}

/// A line of one word behind its name.
pub(crate) fn word_line(out: &mut Vec<u8>, name: &[u8], value: &[u8]) -> Result<(), AllocError>
    ensures { OnOk result (out.new.items ≡ out.old.items ++ line name.now (value.now ∷ [])) }
{
    out.extend_from_slice(name)?;
    word(out, value)?;
    out.push(b'\n')?;
    Ok(())
}

/// A line of one whole number behind its name.
pub(crate) fn number_line<I: Integer>(
    out: &mut Vec<u8>,
    name: &[u8],
    n: I,
) -> Result<(), AllocError>
    ensures { OnOk result (out.new.items ≡ out.old.items ++ line name.now (I.text n ∷ [])) }
{
    word_line(out, name, Buffer::new().format(n).as_bytes())
}

/// The lines before the rows.
fn head(out: &mut Vec<u8>, report: &Report) -> Result<(), AllocError>
    requires { IsPrintable report.now }
    ensures { OnOk result (Appends (IsHead report.now) out.old.items out.new.items) }
{
    word_line(out, b"payoff", b"1")?;
    word_line(out, b"status", status(&report.verdict))?;
    size_lines(out, report)?;
    discount_line(out, &report.discounts)?;
    count_lines(out, report)
}

/// The numbers of players, states and directions.
fn size_lines(out: &mut Vec<u8>, report: &Report) -> Result<(), AllocError>
    ensures { OnOk result (out.new.items ≡ out.old.items ++ sizes_text report.now) }
{
    number_line(out, b"players", report.players)?;
    number_line(out, b"states", report.states)?;
    number_line(out, b"directions", report.directions)
}

/// The unit, the slack, and how much was run.
fn count_lines(out: &mut Vec<u8>, report: &Report) -> Result<(), AllocError>
    requires { IsPrintable report.now }
    ensures { OnOk result (out.new.items ≡ out.old.items ++ counts_text report.now) }
{
    number_line(out, b"unit", report.unit)?;
    number_line(out, b"slack", report.slack)?;
    number_line(out, b"sweeps", report.sweeps)?;
    number_line(out, b"solves", solves(report))
}

/// The number of solves, of which a sweep takes one for each row.
fn solves(report: &Report) -> u128
    requires { IsPrintable report.now }
    ensures { result ≡ report.now.sweeps * rows_of report.now }
{
    product(
        report.sweeps,
        report.levels.states() * report.levels.directions(),
    )
}

/// The product, which fits.
fn product(sweeps: u64, rows: u32) -> u128
    ensures { result ≡ sweeps * rows }
{
    u128::from(sweeps) * u128::from(rows)
}

/// The word for the verdict.
fn status(verdict: &Verdict) -> &'static [u8]
    ensures { result.now ≡ status_word verdict.now }
{
    match verdict {
        Verdict::Supported(_) => b"settled",
        Verdict::Unsupported { .. } => b"spent",
    }
}

/// The line of the discounts.
fn discount_line(out: &mut Vec<u8>, discounts: &List<(u32, u32)>) -> Result<(), AllocError>
    requires some { 1 ≤ length discounts.now }
    requires positive { All (λ d. 0 < d.1) discounts.now }
    ensures { OnOk result (AppendsLine (codes "discount") (AreDiscountWords discounts.now) out.old.items out.new.items) }
{
    out.extend_from_slice(b"discount")?;
    discount_words(out, discounts, shown_discounts(discounts))?;
    out.push(b'\n')?;
    Ok(())
}

/// The first discounts, so many as are shown.
fn discount_words(
    out: &mut Vec<u8>,
    discounts: &List<(u32, u32)>,
    shown: u32,
) -> Result<(), AllocError>
    requires known { shown ≤ length discounts.now }
    requires positive { All (λ d. 0 < d.1) discounts.now }
    ensures { OnOk result (AppendsWords
        (AreFractionWords shown (λ i. pos (discount_at discounts.now i).0) (λ i. pos (discount_at discounts.now i).1))
        out.old.items out.new.items) }
{
    for i in 0..shown {
        let (p, q) = *discounts.get(i);
        fraction(out, i128::from(p), i128::from(q))?;
    }
    Ok(())
}

/// How many discounts are shown: one where all are equal.
fn shown_discounts(discounts: &List<(u32, u32)>) -> u32
    requires { 1 ≤ length discounts.now }
    ensures shown { (AreEqual discounts.now × (result ≡ 1))
        ⊎ ((AreEqual discounts.now → ⊥) × (result ≡ length discounts.now)) }
    ensures known { result ≤ length discounts.now }
{
    if all_equal(discounts) {
        1
    } else {
        discounts.len()
    }
}

/// Whether each discount is the same number as the first.
fn all_equal(discounts: &List<(u32, u32)>) -> bool
    ensures { IsTrue result ↔ AreEqual discounts.now }
{
    for i in 0..discounts.len() {
        if !same_number(*discounts.get(i), *discounts.get(0)) {
            return false;
        }
    }
    true
}

/// Whether two fractions are the same number.
fn same_number(a: (u32, u32), b: (u32, u32)) -> bool
    ensures { IsTrue result ↔ (a.0 * b.1 ≡ b.0 * a.1) }
{
    u64::from(a.0) * u64::from(b.1) == u64::from(b.0) * u64::from(a.1)
}

/// One line for each row, in row order.
fn row_lines(out: &mut Vec<u8>, report: &Report) -> Result<(), AllocError>
    requires { IsPrintable report.now }
    ensures { OnOk result (out.new.items
        ≡ out.old.items ++ texts_below (row_line report.now) (rows_of report.now)) }
{
    for row in 0..report.levels.states() * report.levels.directions() {
        level_line(out, report, row)?;
    }
    Ok(())
}

/// The line of a row.
fn level_line(out: &mut Vec<u8>, report: &Report, row: u32) -> Result<(), AllocError>
    requires known { row < rows_of report.now }
    requires kept { row < length report.now.levels.levels }
    ensures { OnOk result (out.new.items ≡ out.old.items ++ row_line report.now row) }
{
    out.extend_from_slice(b"row")?;
    place(out, report, row)?;
    level(out, report.levels.get(row))?;
    out.push(b'\n')?;
    Ok(())
}

/// The state and the direction of a row.
fn place(out: &mut Vec<u8>, report: &Report, row: u32) -> Result<(), AllocError>
    requires { row < rows_of report.now }
    ensures { OnOk result (out.new.items ≡ out.old.items ++ blanked (row_words report.now row)) }
{
    number(out, row / report.directions)?;
    number(out, row % report.directions)
}

/// A blank and a level.
pub(crate) fn level(out: &mut Vec<u8>, level: Level) -> Result<(), AllocError>
    ensures { OnOk result (out.new.items ≡ out.old.items ++ 32 ∷ level_word level) }
{
    match level {
        Level::Empty => word(out, b"empty"),
        Level::At(x) => number(out, x),
    }
}

/// The lines of the verdict.
fn verdict_lines(out: &mut Vec<u8>, report: &Report) -> Result<(), AllocError>
    requires { IsPrintable report.now }
    ensures { OnOk result (Appends (IsVerdictText report.now report.now.verdict) out.old.items out.new.items) }
{
    match &report.verdict {
        Verdict::Supported(supports) => point_lines(out, report, supports),
        Verdict::Unsupported {
            row,
            level,
            reached,
        } => stop_line(out, report, *row, *level, *reached),
    }
}

/// One line for each support.
fn point_lines(
    out: &mut Vec<u8>,
    report: &Report,
    supports: &List<Support>,
) -> Result<(), AllocError>
    requires few { report.now.players ≤ 3 }
    requires known { All (λ s. (s.row < rows_of report.now) × IsFraction s.point.num s.point.den) supports.now }
    ensures { OnOk result (Appends (AreTexts (IsPointLine report.now) supports.now) out.old.items out.new.items) }
{
    for i in 0..supports.len() {
        point_line(out, report, supports.get(i))?;
    }
    Ok(())
}

/// The line of a support.
fn point_line(out: &mut Vec<u8>, report: &Report, support: &Support) -> Result<(), AllocError>
    requires few { report.now.players ≤ 3 }
    requires known { support.now.row < rows_of report.now }
    requires fraction { IsFraction support.now.point.num support.now.point.den }
    ensures { OnOk result (Appends (IsPointLine report.now support.now) out.old.items out.new.items) }
{
    out.extend_from_slice(b"point")?;
    place(out, report, support.row)?;
    number(out, support.profile)?;
    parts(out, report.players, &support.point)?;
    out.push(b'\n')?;
    Ok(())
}

/// The parts of a point, one for each player.
fn parts(out: &mut Vec<u8>, players: u32, point: &Point) -> Result<(), AllocError>
    requires few { players ≤ 3 }
    requires fraction { IsFraction point.now.num point.now.den }
    ensures { OnOk result (AppendsWords
        (AreFractionWords players (part point.now.num) (λ i. point.now.den)) out.old.items out.new.items) }
{
    for i in 0..players {
        fraction(out, point.num[i as usize], point.den)?;
    }
    Ok(())
}

/// The line of a row without support.
fn stop_line(
    out: &mut Vec<u8>,
    report: &Report,
    row: u32,
    level: i64,
    reached: Option<Frac>,
) -> Result<(), AllocError>
    requires { row < rows_of report.now }
    ensures { OnOk result (out.new.items ≡ out.old.items
        ++ line (codes "stop") (row_words report.now row ++ signed_decimal level ∷ reached_word reached ∷ [])) }
{
    out.extend_from_slice(b"stop")?;
    place(out, report, row)?;
    number(out, level)?;
    reached_value(out, reached)?;
    out.push(b'\n')?;
    Ok(())
}

/// A blank and a reached value.
fn reached_value(out: &mut Vec<u8>, reached: Option<Frac>) -> Result<(), AllocError>
    ensures { OnOk result (out.new.items ≡ out.old.items ++ 32 ∷ reached_word reached) }
{
    match reached {
        Some(value) => ratio(out, value),
        None => word(out, b"none"),
    }
}

/// The lines of the notes, in their order.
pub(crate) fn note_lines(out: &mut Vec<u8>, notes: &Notes) -> Result<(), AllocError>
    ensures { OnOk result (out.new.items ≡ out.old.items ++ notes_text notes.now.list) }
{
    for l in 0..notes.len() {
        note_text_of(out, notes, l)?;
    }
    Ok(())
}

/// The lines of a note: its state, and a reason for each profile.
fn note_text_of(out: &mut Vec<u8>, notes: &Notes, l: u32) -> Result<(), AllocError>
    requires { l < length notes.now.list }
    ensures { OnOk result (out.new.items ≡ out.old.items ++ note_text notes.now.list l) }
{
    let note = notes.get(l);
    number_line(out, b"empty", note.state)?;
    why_lines(out, note.state, &note.reasons)
}

/// One line for each profile of an empty state.
fn why_lines(out: &mut Vec<u8>, s: u32, reasons: &ReasonList) -> Result<(), AllocError>
    ensures { OnOk result (out.new.items
        ≡ out.old.items ++ texts_below (why_line s reasons.now.list) (length reasons.now.list)) }
{
    for a in 0..reasons.len() {
        why_line_of(out, s, reasons, a)?;
    }
    Ok(())
}

/// Why nothing is admissible after profile `a`.
fn why_line_of(out: &mut Vec<u8>, s: u32, reasons: &ReasonList, a: u32) -> Result<(), AllocError>
    requires { a < length reasons.now.list }
    ensures { OnOk result (out.new.items ≡ out.old.items ++ why_line s reasons.now.list a) }
{
    out.extend_from_slice(b"why")?;
    number(out, s)?;
    number(out, a)?;
    reason(out, reasons.get(a))?;
    out.push(b'\n')?;
    Ok(())
}

/// The words of a reason.
fn reason(out: &mut Vec<u8>, reason: &Reason) -> Result<(), AllocError>
    ensures { OnOk result (out.new.items ≡ out.old.items ++ blanked (reason_words reason.now)) }
{
    match reason {
        Reason::Successor { state } => {
            word(out, b"successor")?;
            number(out, *state)
        }
        Reason::Deviation {
            player,
            strategy,
            state,
        } => {
            word(out, b"deviation")?;
            number(out, *player)?;
            number(out, *strategy)?;
            number(out, *state)
        }
        Reason::Farkas { items } => {
            word(out, b"farkas")?;
            items_of(out, items)
        }
    }
}

/// The rows of a certificate.
fn items_of(out: &mut Vec<u8>, items: &Items) -> Result<(), AllocError>
    ensures { OnOk result (out.new.items ≡ out.old.items ++ blanked (items_words items.now)) }
{
    for i in 0..items.len() {
        item(out, items.get(i))?;
    }
    Ok(())
}

/// A row of a certificate. One with multiplier 0 isn't written.
fn item(out: &mut Vec<u8>, item: &Item) -> Result<(), AllocError>
    ensures { OnOk result (out.new.items ≡ out.old.items ++ blanked (item_words item.now)) }
{
    match *item {
        Item::Level { times: 0, .. } | Item::Gain { times: 0, .. } => Ok(()),
        Item::Level { dir, level, times } => {
            word(out, b"level")?;
            number(out, dir)?;
            number(out, level)?;
            number(out, times)
        }
        Item::Gain {
            player,
            strategy,
            level,
            times,
        } => {
            word(out, b"gain")?;
            number(out, player)?;
            number(out, strategy)?;
            number(out, level)?;
            number(out, times)
        }
    }
}

/// A fraction over a positive denominator has one word, so the text of a report is a function of it.
pub fn fraction_word_law()
    ensures { (num den : ℤ) (v w : List ℕ)
        → pos 0 <ℤ den → IsFractionWord num den v → IsFractionWord num den w → v ≡ w }
{}
