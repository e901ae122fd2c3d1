// Why a part of a file can't be read.
ghost use Rattle.std.specs.Prelude.{◌≡◌};
ghost use Rattle.ri_base.specs.FieldAnswers.{IsAnswer, IsFault};
ghost use Rattle.ri_base.specs.declared.broken.Broken.TheVariants.{Memory};

use crate::{FileName, PartName, SegFault};
use std::alloc::{AllocError, AllocFailed};

/// Why a part can't be read: how many bytes stand from the begin of its first bad field on to its end, or want of memory.
#[derive(Clone, Copy, Debug, PartialEq, Eq, Drop)]
pub enum Broken {
    At(usize),
    Memory,
}

impl From<AllocError> for Broken {
    ghost from_gives = { λ _ e. e ≡ Memory };

    fn from(_e: AllocError) -> Broken {
        Broken::Memory
    }
}

impl<T: Drop> From<AllocFailed<T>> for Broken {
    ghost from_gives = { λ _ e. e ≡ Memory };

    fn from(_e: AllocFailed<T>) -> Broken {
        Broken::Memory
    }
}

/// The fault of a part that ends at this place of its file.
fn fault_of(broken: Broken, file: FileName, part: PartName, end: u64) -> SegFault
    ensures { IsFault broken result file part end }
{
    match broken {
        Broken::At(left) => SegFault::Malformed {
            file,
            part,
            place: end.saturating_sub(left as u64),
        },
        Broken::Memory => SegFault::Memory,
    }
}

/// What the fields of a part were read as, or the fault of the part, which ends at this place of its file.
pub fn part_answer<T>(
    fields: Result<T, Broken>,
    file: FileName,
    part: PartName,
    end: u64,
) -> Result<T, SegFault>
    ensures { IsAnswer fields result file part end }
{
    match fields {
        Ok(value) => Ok(value),
        Err(broken) => Err(fault_of(broken, file, part, end)),
    }
}
