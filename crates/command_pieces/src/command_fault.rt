// Why a command over files is broken off.
ghost use Rattle.std.specs.Prelude.{◌≡◌};
ghost use Rattle.command_pieces.specs.CommandFaults.{of_files, of_items};

use crate::fault::Fault;
use ri_base::{FileName, PartName, SegFault};

/// Why a command over files is broken off.
#[derive(Clone, Copy, Debug, PartialEq, Eq)]
pub enum CommandFault {
    /// The source failed.
    Read,
    /// The sink failed.
    Write,
    /// The store failed.
    Store,
    /// The bytes of that part aren't in its grammar, and this is the place.
    Malformed {
        file: FileName,
        part: PartName,
        place: u64,
    },
    /// A file that is listed isn't there.
    Missing {
        file: FileName,
    },
    /// There is no manifest.
    NoRepository,
    /// There is a manifest already.
    Exists,
    Memory,
}

impl CommandFault {
    /// The fault of an end that items are read from or written to.
    pub fn of_items(fault: Fault) -> CommandFault
        ensures { result ≡ of_items fault }
    {
        match fault {
            Fault::Read => CommandFault::Read,
            Fault::Write => CommandFault::Write,
            Fault::Memory => CommandFault::Memory,
        }
    }

    /// The fault of a call on files.
    pub fn of_files(fault: SegFault) -> CommandFault
        ensures { result ≡ of_files fault }
    {
        match fault {
            SegFault::Malformed { file, part, place } => CommandFault::Malformed {
                file,
                part,
                place,
            },
            SegFault::Missing { file } => CommandFault::Missing { file },
            SegFault::Store => CommandFault::Store,
            SegFault::Memory => CommandFault::Memory,
        }
    }
}
