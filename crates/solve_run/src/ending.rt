//! How the program tells a status.

ghost use Rattle.std.specs.Prelude.{◌≡◌, IfOk, string_bytes};
ghost use Rattle.std.specs.Option.{option_map};
ghost use Rattle.solve_run.specs.Endings.{exit_code, file_text, line_text, misfit_text, what_text};
ghost use Rattle.solve_run.specs.declared.outcome.Status.TheVariants.{BadInput};

use crate::outcome::Status;
use game_files::FileId;
use game_model::ShapeWhat;
use nfg_text::What;
use std::alloc::{AllocError, Global};

/// The line on standard error, without its line feed, where the status has one.
pub fn line_of(alloc: Global, status: Status) -> Result<Option<String>, AllocError>
    ensures { IfOk result (λ line. option_map string_bytes line ≡ line_text status) }
{
    match status {
        Status::Settled
        | Status::Holds
        | Status::Replayed
        | Status::Made
        | Status::Fails { .. }
        | Status::Spent { .. } => Ok(None),
        Status::Usage { index } => Ok(Some(format!(in alloc;
            "payoff: word {index} is not understood"
        )?)),
        Status::BadInput { file, at } => bad_input_line(alloc, file, at),
        Status::Shape { fault } => {
            shape_line(alloc, fault.state, fault.what, fault.found, fault.wanted)
        }
        Status::TooLong { file } => {
            let file = name_of(alloc, file)?;
            Ok(Some(format!(in alloc; "payoff: {file} is too long")?))
        }
        Status::ReadFault { file } => {
            let file = name_of(alloc, file)?;
            Ok(Some(format!(in alloc; "payoff: {file} cannot be read")?))
        }
        Status::Beyond { what, number } => {
            let what = words_of(what);
            Ok(Some(format!(in alloc; "payoff: {what} is beyond its limit: {number}")?))
        }
        Status::WriteFault { written } => {
            Ok(Some(format!(in alloc; "payoff: output failed after {written} bytes")?))
        }
        Status::NoMemory => Ok(Some(String::from_str(alloc, "payoff: out of memory")?)),
    }
}

/// The line of a file that isn't valid.
fn bad_input_line(alloc: Global, file: FileId, at: u64) -> Result<Option<String>, AllocError>
    ensures { IfOk result (λ line. option_map string_bytes line ≡ line_text (BadInput file at)) }
{
    match file {
        FileId::First => Ok(Some(format!(in alloc;
            "payoff: first file is not valid at byte {at}"
        )?)),
        FileId::State(state) => Ok(Some(format!(in alloc;
            "payoff: file of state {state} is not valid at byte {at}"
        )?)),
        FileId::Second => Ok(Some(format!(in alloc;
            "payoff: second file is not valid at byte {at}"
        )?)),
    }
}

/// The line of a state whose successors don't fit.
fn shape_line(
    alloc: Global,
    state: u32,
    what: ShapeWhat,
    found: u64,
    wanted: u64,
) -> Result<Option<String>, AllocError>
    ensures { IfOk result (λ line. option_map string_bytes line ≡ misfit_text state what found wanted) }
{
    match what {
        ShapeWhat::Players => Ok(Some(format!(in alloc;
            "payoff: state {state}: players found {found} wanted {wanted}"
        )?)),
        ShapeWhat::Payoffs => Ok(Some(format!(in alloc;
            "payoff: state {state}: payoffs found {found} wanted {wanted}"
        )?)),
        ShapeWhat::Successors => Ok(Some(format!(in alloc;
            "payoff: state {state}: successors found {found} wanted {wanted}"
        )?)),
        ShapeWhat::Successor => Ok(Some(format!(in alloc;
            "payoff: state {state}: successor found {found} wanted {wanted}"
        )?)),
    }
}

/// The name of a file in a line.
fn name_of(alloc: Global, file: FileId) -> Result<String, AllocError>
    ensures { IfOk result (λ s. string_bytes s ≡ file_text file) }
{
    match file {
        FileId::First => String::from_str(alloc, "first file"),
        FileId::State(state) => format!(in alloc; "file of state {state}"),
        FileId::Second => String::from_str(alloc, "second file"),
    }
}

/// The name of a quantity in a line.
fn words_of(what: What) -> &'static str
    ensures { result.now ≡ what_text what }
{
    match what {
        What::Digits => "digits",
        What::Players => "players",
        What::Strategies => "strategies",
        What::States => "states",
        What::Whole => "whole",
        What::Discount => "discount",
        What::Denominator => "denominator",
        What::Payoff => "payoff",
        What::Opening => "opening",
        What::Outcomes => "outcomes",
        What::Weight => "weight",
        What::Entries => "entries",
        What::Common => "common",
        What::Point => "point",
        What::Directions => "directions",
        What::Inner => "inner",
        What::Start => "start",
        What::Solid => "solid",
        What::Candidates => "candidates",
        What::Log => "log",
    }
}

/// The exit of the program.
pub fn exit_of(status: Status) -> u8
    ensures { result ≡ exit_code status }
{
    match status {
        Status::Settled => 0,
        Status::Holds => 0,
        Status::Replayed => 0,
        Status::Made => 0,
        Status::Fails { .. } => 1,
        Status::Usage { .. } => 2,
        Status::Spent { .. } => 3,
        Status::BadInput { .. } => 4,
        Status::Shape { .. } => 4,
        Status::TooLong { .. } => 5,
        Status::Beyond { .. } => 5,
        Status::ReadFault { .. } => 6,
        Status::WriteFault { .. } => 7,
        Status::NoMemory => 8,
    }
}

#[cfg(test)]
mod tests {
    use super::*;
    use game_model::ShapeFault;
    use selfgen_check::{CorrFault, Why};
    use std::test::Fail;

    #[test]
    fn lines_and_exits(rt: HostRuntime) -> Result<(), Fail> {
        let file = FileId::First;
        for (status, line, exit) in [
            (Status::Settled, None, 0),
            (
                Status::Usage { index: 2 },
                Some("payoff: word 2 is not understood"),
                2,
            ),
            (Status::Spent { sweeps: 3, row: 1 }, None, 3),
            (Status::Holds, None, 0),
            (Status::Replayed, None, 0),
            (Status::Made, None, 0),
            (
                Status::Fails {
                    fault: CorrFault {
                        state: 0,
                        entry: 1,
                        why: Why::Weights,
                    },
                },
                None,
                1,
            ),
            (
                Status::BadInput { file, at: 29 },
                Some("payoff: first file is not valid at byte 29"),
                4,
            ),
            (
                Status::BadInput {
                    file: FileId::State(12),
                    at: 0,
                },
                Some("payoff: file of state 12 is not valid at byte 0"),
                4,
            ),
            (
                Status::Shape {
                    fault: ShapeFault {
                        what: ShapeWhat::Successors,
                        state: 0,
                        found: 3,
                        wanted: 4,
                    },
                },
                Some("payoff: state 0: successors found 3 wanted 4"),
                4,
            ),
            (
                Status::ReadFault {
                    file: FileId::Second,
                },
                Some("payoff: second file cannot be read"),
                6,
            ),
            (
                Status::TooLong { file },
                Some("payoff: first file is too long"),
                5,
            ),
            (
                Status::ReadFault { file },
                Some("payoff: first file cannot be read"),
                6,
            ),
            (
                Status::Beyond {
                    what: What::Opening,
                    number: 1_125_900_980_584_448,
                },
                Some("payoff: opening is beyond its limit: 1125900980584448"),
                5,
            ),
            (
                Status::WriteFault { written: 7 },
                Some("payoff: output failed after 7 bytes"),
                7,
            ),
            (Status::NoMemory, Some("payoff: out of memory"), 8),
        ] {
            let found = line_of(rt.alloc(), status)?;
            assert_eq!(rt; found.as_ref().map(|text| text.as_str()), line);
            assert_eq!(rt; exit_of(status), exit);
        }
        Ok(())
    }
}
