//! A report, from its text.

ghost use Rattle.report_lines.specs.Forms.{place_of};
ghost use Rattle.report_text.specs.ReportText.{IsPrintable, IsReportText};
ghost use Rattle.report_text.specs.Rules.{Agrees, IsFaultOf, KeepsRules};
ghost use Rattle.report_text.specs.declared.read.ReportFault.TheVariants.{Bad, NoMemory};
ghost use Rattle.std.specs.Prelude.{◌≡◌, ◌≢◌, IfErr, IfOk};

use crate::nearest::nearest;
use crate::report::Report;
use crate::text::text_of;
use report_lines::fault_place;
use std::alloc::{AllocError, Global};
use thiserror::Error;

/// Why bytes give no report.
#[derive(Clone, Copy, Debug, PartialEq, Eq, Error)]
pub enum ReportFault {
    /// They aren't the text of a report that keeps the rules.
    #[error("not the text of a report at byte {at}")]
    Bad { at: u64 },
    #[error("out of memory")]
    NoMemory,
}

impl From<AllocError> for ReportFault {
    ghost from_gives = { λ _ e. e ≡ NoMemory };

    fn from(_: AllocError) -> Self {
        ReportFault::NoMemory
    }
}

/// The report whose text the bytes are.
///
/// A report that is read keeps these rules. There are two players, 1 to 64 states, and a number of directions that has
/// a table. Each discount is between 0 and 1 and in lowest terms, and a common denominator of them is at most 1024. The
/// unit is from 1 to 2^100, the slack from 1 to 1000000000, and sweeps are below 2^64. Levels are within 2^50 of zero.
/// A settled report has one support for each finite row, in row order, whose parts have a common denominator up to 2^20
/// and are within 2^50 of zero. A spent one has a finite row with its level, and a reached value of at most 36 digits.
/// Profiles are below 4096 and strategies below 16. Notes are of distinct states whose rows are all empty, with at most
/// 4096 reasons; a certificate has one to four items, with levels within 2^50 and multipliers from 1 to 2^20. There are no
/// inner sets: a text with their lines is refused.
///
/// The text doesn't tell the room of notes, nor by which numerators a point is written: such reports agree.
///
/// # Errors
///
/// `Bad` exactly where the bytes aren't the text of a report that keeps the rules. The place is the start of the
/// first line that doesn't have the form of a line of a report, or the length of the text where each line has.
pub fn read_report(alloc: Global, bytes: &[u8]) -> Result<Report, ReportFault>
    ensures keeps { IfOk result KeepsRules }
    ensures printable { IfOk result IsPrintable }
    ensures text { IfOk result (λ r. IsReportText r bytes.now) }
    ensures only { IfOk result (λ r. (a : Report) → KeepsRules a → IsReportText a bytes.now → Agrees a r) }
    ensures fault { IfErr result (IsFaultOf bytes.now) }
{
    let report = nearest(alloc, bytes)?;
    let text = text_of(alloc, &report)?;
    compared(report, text.as_slice(), bytes)
}

/// The report, if its text is these bytes.
fn compared(report: Report, text: &[u8], bytes: &[u8]) -> Result<Report, ReportFault>
    ensures ok { IfOk result (λ r. (r ≡ report) × (text.now ≡ bytes.now)) }
    ensures err { IfErr result (λ e. (e ≡ Bad (place_of bytes.now)) × (text.now ≢ bytes.now)) }
{
    if text == bytes {
        Ok(report)
    } else {
        Err(ReportFault::Bad {
            at: fault_place(bytes),
        })
    }
}
