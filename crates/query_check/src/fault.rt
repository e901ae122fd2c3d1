// Why a query is refused.
ghost use Rattle.std.specs.Prelude.{◌≡◌};
ghost use Rattle.query_check.specs.declared.fault.CheckFault.TheVariants.{Memory};

use ri_base::Name;
use std::alloc::{AllocError, AllocFailed};
use thiserror::Error;

/// Why a query isn't taken: its first fault in this order, or want of memory.
#[derive(Debug, PartialEq, Eq, Error, Drop)]
pub enum CheckFault {
    /// A `#weight` whose weights are all 0.
    #[error("a #weight without a weight")]
    NoWeight,
    /// Nothing but priors is left once the children of weight 0 are dropped.
    #[error("no leaf")]
    NoLeaf,
    /// The scale reaches 2^60.
    #[error("the scale is too large")]
    ScaleTooLarge,
    /// The first prior that isn't there.
    #[error("an unknown prior")]
    UnknownPrior { name: Name },
    #[error("no memory")]
    Memory,
}

impl From<AllocError> for CheckFault {
    ghost from_gives = { λ _ fault. fault ≡ Memory };

    fn from(_: AllocError) -> Self {
        CheckFault::Memory
    }
}

impl<T: Drop> From<AllocFailed<T>> for CheckFault {
    ghost from_gives = { λ _ fault. fault ≡ Memory };

    fn from(_: AllocFailed<T>) -> Self {
        CheckFault::Memory
    }
}
