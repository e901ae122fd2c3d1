// Why a command is broken off.

/// Why a command is broken off.
#[derive(Clone, Copy, Debug, PartialEq, Eq)]
pub enum Fault {
    /// The source failed.
    Read,
    /// The sink failed.
    Write,
    Memory,
}
