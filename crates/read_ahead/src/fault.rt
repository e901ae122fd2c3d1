// Why no more bytes can be taken.
ghost use Rattle.std.specs.Prelude.{◌≡◌};
ghost use Rattle.read_ahead.specs.declared.fault.InputFault.TheVariants.{Read, Memory};

use ri_ends::Failed;
use std::alloc::{AllocError, AllocFailed};
use thiserror::Error;

/// Why a reader can't go on.
#[derive(Clone, Copy, Debug, Error, PartialEq, Eq)]
pub enum InputFault {
    /// The source failed.
    #[error("the input can't be read")]
    Read,
    #[error("out of memory")]
    Memory,
}

impl From<Failed> for InputFault {
    ghost from_gives = { λ _ e. e ≡ Read };

    fn from(_: Failed) -> Self {
        InputFault::Read
    }
}

impl From<AllocError> for InputFault {
    ghost from_gives = { λ _ e. e ≡ Memory };

    fn from(_: AllocError) -> Self {
        InputFault::Memory
    }
}

impl<T: Drop> From<AllocFailed<T>> for InputFault {
    ghost from_gives = { λ _ e. e ≡ Memory };

    fn from(_: AllocFailed<T>) -> Self {
        InputFault::Memory
    }
}
