// Why a part of the collection can't be read.
use std::alloc::AllocError;
use thiserror::Error;

/// A file of a repository: the manifest, or the segment or the prior of a number.
#[derive(Clone, Copy, Debug, PartialEq, Eq)]
pub enum FileName {
    Manifest,
    Segment(u64),
    Prior(u64),
}

/// The part of a file whose bytes were read.
#[derive(Clone, Copy, Debug, PartialEq, Eq)]
pub enum PartName {
    Manifest,
    Header,
    Documents,
    Dictionary,
    Block,
    Prior,
}

/// Why a part of the collection can't be read.
#[derive(Debug, Drop, Error)]
pub enum SegFault {
    /// The bytes of that part aren't in its grammar; `place` is the number of the file's byte at which the first bad
    /// field begins.
    #[error("{part:?} of {file:?} is malformed at byte {place}")]
    Malformed {
        file: FileName,
        part: PartName,
        place: u64,
    },
    #[error("{file:?} is missing")]
    Missing {
        file: FileName,
    },
    #[error("the store failed")]
    Store,
    #[error("out of memory")]
    Memory,
}

impl From<AllocError> for SegFault {
    ghost use Rattle.std.specs.Prelude.{◌≡◌};
    ghost use Rattle.ri_base.specs.declared.seg_fault.SegFault.TheVariants.{Memory};

    ghost from_gives = { λ _ fault. fault ≡ Memory };

    fn from(_: AllocError) -> SegFault {
        SegFault::Memory
    }
}
