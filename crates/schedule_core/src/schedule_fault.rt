ghost use Rattle.std.specs.Prelude.{◌≡◌};
ghost use Rattle.schedule_core.specs.declared.schedule_fault.ScheduleFault.TheVariants.{NoMemory};

use nfg_text::What;
use std::alloc::AllocError;
use thiserror::Error;

/// The first fault of the text of a schedule.
#[derive(Clone, Copy, Debug, PartialEq, Eq, Error)]
pub enum ScheduleFault {
    /// The first token that no such text has after the tokens before it, or the text's length where it ends too early.
    #[error("the schedule is not valid at byte {at}")]
    Bad { at: u64 },
    /// A number that fits the form and passes a limit, and its place.
    #[error("{number} at byte {at} is beyond its limit")]
    Limit { what: What, number: i128, at: u64 },
    #[error("out of memory")]
    NoMemory,
}

impl From<AllocError> for ScheduleFault {
    ghost from_gives = { λ _ e. e ≡ NoMemory };

    fn from(_e: AllocError) -> ScheduleFault {
        ScheduleFault::NoMemory
    }
}
