use game_files::FileId;
use game_model::ShapeFault;
use make_run::Made;
use nfg_text::What;
use report_text::{Replay, Report};
use selfgen_check::CorrFault;

/// How a call ended.
#[derive(Clone, Copy, Debug, PartialEq, Eq)]
pub enum Status {
    /// The table is supported within the slack, and the whole text was taken.
    Settled,
    /// The correspondence is self-generating, and the whole line was taken.
    Holds,
    /// The moves of the schedule were made, and the whole text was taken.
    Replayed,
    /// A game was made and solved, and the whole text was taken.
    Made,
    /// The first entry of the correspondence that isn't generated, and its first broken part; the whole line was taken.
    Fails { fault: CorrFault },
    /// The words have no settings: the first word that doesn't fit, or the number of words where one is
    /// missing.
    Usage { index: u32 },
    /// The budget's sweeps were run, the table is unsupported first at this row, and the whole text was
    /// taken.
    Spent { sweeps: u64, row: u32 },
    /// The file isn't valid at this byte.
    BadInput { file: FileId, at: u64 },
    /// The first state whose successors don't fit its stage game.
    Shape { fault: ShapeFault },
    /// The file has more bytes than it may.
    TooLong { file: FileId },
    /// The file can't be read.
    ReadFault { file: FileId },
    /// The number passes the limit of this quantity.
    Beyond { what: What, number: i128 },
    /// Only so many bytes of the text could be written.
    WriteFault { written: u64 },
    /// Memory ran out.
    NoMemory,
}

/// What a call leaves: how it ended, and what it made whose text was offered.
#[derive(Drop)]
pub struct Outcome {
    pub status: Status,
    /// The report of `solve`.
    pub report: Option<Report>,
    /// The words and notes of `replay`.
    pub replay: Option<Replay>,
    /// The numbers of `make`.
    pub made: Option<Made>,
}
