ghost use Rattle.std.specs.Prelude.{◌≡◌};
ghost use Rattle.selfgen_check.specs.declared.text_fault.CorrTextFault.TheVariants.{NoMemory};

use nfg_text::What;
use std::alloc::AllocError;
use thiserror::Error;

/// The first fault of the text of a correspondence.
#[derive(Clone, Copy, Debug, PartialEq, Eq, Error)]
pub enum CorrTextFault {
    /// The first token that no such text has after the tokens before it, or the text's length where it ends too early.
    #[error("the correspondence is not valid at byte {at}")]
    Bad { at: u64 },
    /// A token that fits the form and passes a limit: its number and its place.
    #[error("{number} at byte {at} is beyond its limit")]
    Limit { what: What, number: i128, at: u64 },
    /// A common denominator, or a part or payoff in its units, that is too large. All else in the text is right.
    #[error("{number} is beyond its limit")]
    Wide { what: What, number: i128 },
    #[error("out of memory")]
    NoMemory,
}

impl From<AllocError> for CorrTextFault {
    ghost from_gives = { λ _ e. e ≡ NoMemory };

    fn from(_e: AllocError) -> CorrTextFault {
        CorrTextFault::NoMemory
    }
}
