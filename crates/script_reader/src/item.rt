// What a session script is read as.
ghost use Rattle.std.specs.Prelude.{◌≡◌, IfOk, IsErrOf};
ghost use Rattle.script_reader.specs.Held.{IsItem};
ghost use Rattle.script_reader.specs.Items.{document_item};

use read_ahead::InputFault;
use session_events::Event;
use std::alloc::Global;
use tokens::{TokenRefusal, doc_of};
use trec_reader::{RawDoc, TrecRefusal};

/// What is no event.
#[derive(Clone, Copy, Debug, PartialEq, Eq)]
pub enum Unread {
    /// The line isn't in the table of lines.
    BadEvent,
    LineTooLong,
    /// The input ends before the bytes of an `add`.
    ShortAdd,
}

/// An item of a session. A place is an offset in the script, and that of a TREC refusal counts from the first byte
/// behind its `add` line.
#[derive(Debug, Drop)]
pub enum Item {
    Event(Event),
    Unread { kind: Unread, place: u64 },
    Trec(TrecRefusal),
    Token(TokenRefusal),
}

/// The item of a document that was read.
pub fn document_item(alloc: Global, raw: RawDoc) -> Result<Item, InputFault>
    ensures item { IfOk result (λ item. item ≡ document_item raw) }
    ensures form { IfOk result IsItem }
    ensures failed { IsErrOf result InputFault.Read → ⊥ }
{
    match doc_of(alloc, raw) {
        Ok(doc) => Ok(Item::Event(Event::Document(doc))),
        Err(TokenRefusal::Memory) => Err(InputFault::Memory),
        Err(refusal) => Ok(Item::Token(refusal)),
    }
}
