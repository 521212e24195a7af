ghost use Rattle.std.specs.Prelude.{◌≡◌};
ghost use Rattle.dyn_text.specs.declared.fault.BuildFault.TheVariants.{NoMemory};

use game_model::ShapeFault;
use nfg_text::What;
use std::alloc::AllocError;
use thiserror::Error;

/// Why texts make no game.
#[derive(Clone, Copy, Debug, PartialEq, Eq, Error)]
pub enum BuildFault {
    /// The first state whose successors don't fit its game.
    #[error("the successors of a state don't fit its game")]
    Shape(ShapeFault),
    /// A number that passes its limit, or 2^127 - 1 where it is larger: the denominator of the discount, the first
    /// running least common multiple of the payoffs' denominators, or a payoff over it.
    #[error("{number} is beyond its limit")]
    Wide { what: What, number: i128 },
    #[error("out of memory")]
    NoMemory,
}

impl From<AllocError> for BuildFault {
    ghost from_gives = { λ _ e. e ≡ NoMemory };

    fn from(_e: AllocError) -> BuildFault {
        BuildFault::NoMemory
    }
}
