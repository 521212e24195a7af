ghost use Rattle.std.specs.Prelude.{◌≡◌};
ghost use Rattle.nfg_text.specs.declared.fault.NfgFault.TheVariants.{NoMemory};

use crate::what::What;
use std::alloc::AllocError;
use thiserror::Error;

/// The first fault of a file of games or of transitions.
#[derive(Clone, Copy, Debug, PartialEq, Eq, Error)]
pub enum NfgFault {
    /// The first token that no such file has after the tokens before it, or the file's length where it ends too early.
    #[error("the file is not valid at byte {at}")]
    Bad { at: u64 },
    /// A number that fits the form and passes a limit, and its place.
    #[error("{number} at byte {at} is beyond its limit")]
    Limit { what: What, number: i128, at: u64 },
    #[error("out of memory")]
    NoMemory,
}

impl From<AllocError> for NfgFault {
    ghost from_gives = { λ _ e. e ≡ NoMemory };

    fn from(_e: AllocError) -> NfgFault {
        NfgFault::NoMemory
    }
}
