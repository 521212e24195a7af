ghost use Rattle.std.specs.Prelude.{◌≡◌};
ghost use Rattle.game_files.specs.declared.fault.GameFault.TheVariants.{NoMemory};

use game_model::ShapeFault;
use nfg_text::What;
use std::alloc::AllocError;
use thiserror::Error;

/// Which file.
#[derive(Clone, Copy, Debug, PartialEq, Eq)]
pub enum FileId {
    /// A stage game's file or a transition file, which the words name first.
    First,
    /// The file of this state's stage game.
    State(u32),
    /// What stands beside the game: a correspondence or a schedule.
    Second,
}

/// Why files make no game.
#[derive(Clone, Copy, Debug, PartialEq, Eq, Error)]
pub enum GameFault {
    /// The file isn't valid at this byte.
    #[error("a file is not valid at byte {at}")]
    BadInput { file: FileId, at: u64 },
    /// The file has more bytes than it may.
    #[error("a file is too long")]
    TooLong { file: FileId },
    /// The file can't be read.
    #[error("a file cannot be read")]
    ReadFault { file: FileId },
    /// The first state whose lists don't fit its stage game.
    #[error("the successors of a state don't fit")]
    Shape { fault: ShapeFault },
    /// The number passes the limit of this quantity.
    #[error("{number} is beyond its limit")]
    Beyond { what: What, number: i128 },
    #[error("out of memory")]
    NoMemory,
}

impl From<AllocError> for GameFault {
    ghost from_gives = { λ _ e. e ≡ NoMemory };

    fn from(_e: AllocError) -> GameFault {
        GameFault::NoMemory
    }
}
