// What happens in a session.
ghost use Rattle.std.specs.Prelude.{◌≡◌};
ghost use Rattle.session_events.specs.Events.{is_end};

use ri_base::{Bytes, Doc, Docno, Name};

/// The bytes of documents that one line of a script announces, at most: 2^30.
pub const MAX_ADD_BYTES: u64 = 1_073_741_824;

/// The documents of a turn of a merge or of a step of a query, at most: 2^32 - 1.
pub const MAX_TURN_DOCS: u64 = 4_294_967_295;

/// The results of a query that may be asked for, at most. A person reads no more, and a run has rarely more.
pub const MAX_RESULTS: u32 = 1000;

/// An event of a session.
#[derive(Debug, Drop)]
pub enum Event {
    /// A document is added.
    Document(Doc),
    /// The document of this docno is taken out.
    Delete(Docno),
    /// What is in memory is written.
    Flush,
    /// A merge is opened.
    Merge,
    /// The open merge gets so many documents of work.
    Turn(u64),
    /// A query is opened under a name; at most `k` results are shown.
    Open { name: Name, k: u32, text: Bytes },
    /// The query of this name gets so many documents of work.
    Step { name: Name, docs: u64 },
    /// The results of the query of this name are shown.
    Show(Name),
    /// The result of this rank is explained.
    Explain { name: Name, rank: u32 },
    /// The extents of an expression are shown.
    Scan(Bytes),
    /// The query of this name is forgotten.
    Close(Name),
    /// The session ends.
    End,
}

impl Event {
    /// Whether the session ends with it.
    pub fn is_end(&self) -> bool
        ensures { result ≡ is_end self.now }
    {
        match self {
            Event::End => true,
            _ => false,
        }
    }
}
