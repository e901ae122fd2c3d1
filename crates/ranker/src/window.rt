// Windows of documents.

use ri_base::Docno;

/// A window of a document. Windows are in the order of docno, begin and end.
#[derive(Debug, Drop, PartialEq, Eq, PartialOrd, Ord)]
pub struct Window {
    pub docno: Docno,
    pub begin: u32,
    pub end: u32,
}
