//! Where a text stops to be one of a report.

ghost use Rattle.report_lines.specs.Forms.{ends as ends_there, has_form as has_some_form, is_head as is_head_line, is_number as is_number_line, is_reason as are_reason, is_row as is_row_line, is_set as is_set_line, lottery as behind_lottery, place_of, the as the_word, whole as whole_at};
ghost use Rattle.std.specs.List.{position_or_len};
ghost use Rattle.std.specs.Prelude.{◌≡◌, ◌==◌, ◌≤◌, length};

use crate::pattern::{Kind, Pattern};
use crate::words::{behind, up_to};

/// The start of the first line that doesn't have the form of a line of a report, or the length of the text where each
/// line has one. The bytes behind the last line feed, if there are any, are a line without a form.
#[tactic(auto, unfolding(crate::specs::Forms::place_of))]
pub fn fault_place(bytes: &[u8]) -> u64
    ensures { result ≡ place_of bytes.now }
{
    let mut start = 0;
    let mut rest = bytes;
    let mut end = line_end(rest);
    while end < rest.len() {
        if !has_form(up_to(rest, end)) {
            return start;
        }
        start += end as u64 + 1;
        rest = behind(rest, end);
        end = line_end(rest);
    }
    start
}

/// How many bytes stand before the first line feed.
fn line_end(bytes: &[u8]) -> usize
    ensures value { result ≡ position_or_len (λ b. b == 10) bytes.now }
    ensures within { result ≤ length bytes.now }
{
    for (i, byte) in bytes.iter().enumerate() {
        if *byte == b'\n' {
            return i;
        }
    }
    bytes.len()
}

/// Whether bytes before a line feed have the form of a line of a report.
#[tactic(auto, unfolding(crate::specs::Forms::has_form))]
fn has_form(line: &[u8]) -> bool
    ensures { result ≡ has_some_form line.now }
{
    let words = Pattern::of(line);
    is_head(&words)
        || is_number(&words)
        || is_row(&words)
        || is_reason(&words.the(b"why").whole().whole())
        || is_set(&words)
}

/// The first two lines, the discounts, and the last line.
#[tactic(auto, unfolding(crate::specs::Forms::is_head))]
fn is_head(line: &Pattern<'_>) -> bool
    ensures { result ≡ is_head_line line.now }
{
    line.the(b"payoff").the(b"1").ends()
        || line.the(b"status").the(b"settled").ends()
        || line.the(b"status").the(b"spent").ends()
        || line.the(b"discount").some(Kind::Fraction).ends()
        || line.the(b"end").ends()
}

/// The lines of one number.
#[tactic(auto, unfolding(crate::specs::Forms::is_number))]
fn is_number(line: &Pattern<'_>) -> bool
    ensures { result ≡ is_number_line line.now }
{
    is_named(line, b"players")
        || is_named(line, b"states")
        || is_named(line, b"directions")
        || is_named(line, b"unit")
        || is_named(line, b"slack")
        || is_named(line, b"sweeps")
        || is_named(line, b"solves")
        || is_named(line, b"empty")
}

/// A number behind this name.
fn is_named(line: &Pattern<'_>, name: &[u8]) -> bool
    ensures { result ≡ ends_there (whole_at (the_word name.now line.now)) }
{
    line.the(name).whole().ends()
}

/// The lines of rows.
#[tactic(auto, unfolding(crate::specs::Forms::is_row))]
fn is_row(line: &Pattern<'_>) -> bool
    ensures { result ≡ is_row_line line.now }
{
    let row = line.the(b"row").whole().whole();
    let point = line.the(b"point").whole().whole().whole();
    let stop = line.the(b"stop").whole().whole().whole();
    row.whole().ends()
        || row.the(b"empty").ends()
        || point.some(Kind::Fraction).ends()
        || stop.fraction().ends()
        || stop.the(b"none").ends()
}

/// The words of a reason.
#[tactic(auto, unfolding(crate::specs::Forms::is_reason))]
fn is_reason(words: &Pattern<'_>) -> bool
    ensures { result ≡ are_reason words.now }
{
    words.the(b"successor").whole().ends()
        || words.the(b"deviation").whole().whole().whole().ends()
        || words.the(b"farkas").some(Kind::Item).ends()
}

/// The lines of inner sets.
#[tactic(auto, unfolding(crate::specs::Forms::is_set))]
fn is_set(line: &Pattern<'_>) -> bool
    ensures { result ≡ is_set_line line.now }
{
    line.the(b"set").whole().whole().ends() || lottery(line).the(b"punish").any(Kind::Whole).ends()
}

/// Behind the lottery of an entry.
#[tactic(auto, unfolding(crate::specs::Forms::lottery))]
fn lottery<'a>(line: &Pattern<'a>) -> Pattern<'a>
    ensures { result ≡ behind_lottery line.now }
{
    let point = line.the(b"entry").whole().whole().some(Kind::Fraction);
    point
        .the(b"profile")
        .whole()
        .the(b"lottery")
        .some(Kind::Pair)
}
