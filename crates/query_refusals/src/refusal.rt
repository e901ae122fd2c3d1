// Why the text of a command, or what it asks for, is refused.
use query_check::CheckFault;
use query_reader::QueryKind;
use ri_base::Name;

/// Why the text of a command, or what it asks for, is refused. Want of memory is no refusal: it has no line.
#[derive(Debug, Drop)]
pub enum QueryRefusal {
    /// A text that isn't read, and the offset of the byte where its fault is.
    Text { kind: QueryKind, place: usize },
    /// A query whose text can be read.
    Check(CheckFault),
    /// The rank of a result that the query of this name doesn't have.
    NoSuchRank { query: Name },
}
