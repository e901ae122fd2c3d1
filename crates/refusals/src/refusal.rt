// Why something is refused.
use ri_base::{Docno, Name};
use tokens::TokenRefusal;
use trec_reader::TrecRefusal;

/// Why a collection doesn't take a document that can be read.
#[derive(Clone, Copy, Debug, PartialEq, Eq, Drop)]
pub enum CollectionKind {
    /// A document with this docno is there already.
    Repeated,
    /// There is no room for one more document, or for its tokens.
    CollectionFull,
}

/// Why something in the input of a command is refused, or the name that it is about. Want of memory and a source that failed are no
/// refusals: they have no line.
#[derive(Debug)]
pub enum Refusal {
    /// A document that isn't read.
    Document(TokenRefusal),
    /// A document that a collection doesn't take.
    Collection { kind: CollectionKind, docno: Docno },
    /// What stands where a document must stand.
    Input(TrecRefusal),
    /// No live document has this docno.
    NoSuchDoc(Docno),
    /// The line at this place doesn't say what is to be done.
    BadEvent { place: u64 },
    LineTooLong { place: u64 },
    /// The line at this place is no row of a prior.
    BadRow { place: u64 },
    /// This docno has a row.
    RepeatedRow(Docno),
    /// The documents without a row have a fraction.
    RepeatedRest,
    /// As many docnos as can have a row have one, and the one at this place isn't among them.
    TooManyRows { place: u64 },
    /// The prior of this name has no rows of its own.
    Fixed(Name),
    /// There is no room for one more prior.
    PriorsFull(Name),
}

impl Drop for Refusal {
    fn drop(self) {
        match self {
            Refusal::Document(refusal) => drop(refusal),
            Refusal::Input(refusal) => drop(refusal),
            Refusal::Collection { kind: _, docno }
            | Refusal::NoSuchDoc(docno)
            | Refusal::RepeatedRow(docno) => drop(docno),
            Refusal::Fixed(name) | Refusal::PriorsFull(name) => drop(name),
            Refusal::BadEvent { place: _ }
            | Refusal::LineTooLong { place: _ }
            | Refusal::BadRow { place: _ }
            | Refusal::RepeatedRest
            | Refusal::TooManyRows { place: _ } => {}
        }
    }
}
