// How a run of the program ends.
ghost use Rattle.std.specs.Prelude.{◌≡◌};
ghost use Rattle.indri_app.specs.Status.{code_of};

/// How a run ends. The program's exit status is the number in brackets.
#[derive(Clone, Copy, Debug, PartialEq, Eq)]
pub enum Status {
    /// All of the input was read, and nothing was refused (0).
    Done,
    /// The words are no command (1).
    Usage,
    /// The text of the command is refused, and its fault was written (2).
    QueryRefused,
    /// Something in the input was refused, and its line was written (3).
    SomeRefused,
    /// The source failed (4).
    ReadFault,
    /// The sink failed (5).
    WriteFault,
    /// The store failed (6).
    StoreFault,
    /// A file of the repository isn't what it must be, or isn't there (7).
    Malformed,
    /// There is no repository (8).
    NoRepository,
    /// There is a repository already (8).
    Exists,
    /// There was no memory (9).
    Memory,
}

impl Status {
    /// The exit status of the program.
    pub fn code(self) -> u8
        ensures { result ≡ code_of self }
    {
        match self {
            Status::Done => 0,
            Status::Usage => 1,
            Status::QueryRefused => 2,
            Status::SomeRefused => 3,
            Status::ReadFault => 4,
            Status::WriteFault => 5,
            Status::StoreFault => 6,
            Status::Malformed => 7,
            Status::NoRepository | Status::Exists => 8,
            Status::Memory => 9,
        }
    }
}
