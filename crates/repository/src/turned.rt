// What a merge answers.
use std::alloc::AllocError;
use thiserror::Error;

/// What became of a turn.
#[derive(Clone, Copy, Debug, PartialEq, Eq)]
pub enum Turned {
    /// So many documents of all that are to be copied were copied.
    Open { credit: u64, size: u64 },
    /// All were copied, and the merge was committed.
    Done,
}

/// Why no merge is opened.
#[derive(Clone, Copy, Debug, PartialEq, Eq, Error)]
pub enum MergeRefusal {
    #[error("a merge is open")]
    MergeOpen,
    #[error("out of memory")]
    Memory,
}

impl From<AllocError> for MergeRefusal {
    ghost use Rattle.std.specs.Prelude.{◌≡◌};
    ghost use Rattle.repository.specs.declared.turned.MergeRefusal.TheVariants.{Memory};

    ghost from_gives = { λ _ refusal. refusal ≡ Memory };

    fn from(_: AllocError) -> MergeRefusal {
        MergeRefusal::Memory
    }
}
