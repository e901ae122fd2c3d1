// Where a term stands.
use crate::List;

/// The places of a term in one document, numbered from 0, seen as their list.
pub type Positions = List<u32>;

/// One posting: the id of a document, and a place in it where the term stands.
#[derive(Clone, Copy, Debug, PartialEq, Eq)]
pub struct Place {
    pub id: u32,
    pub at: u32,
}

/// The postings of a term, seen as their list.
pub type Places = List<Place>;
