// What is replied in a session.
use query_reader::QueryKind;
use ranked_output::Explained;
use ri_base::{Docno, Extent, Hits, List, Name};

/// What the check of a query finds.
#[derive(Debug, Drop)]
pub enum CheckKind {
    /// A `#weight` whose weights are all 0.
    NoWeight,
    /// Nothing but priors is left once the children of weight 0 are dropped.
    NoLeaf,
    /// The scale reaches 2^60.
    ScaleTooLarge,
    /// The first prior that isn't there.
    UnknownPrior(Name),
}

/// Why an event isn't done.
#[derive(Debug)]
pub enum Refusal {
    /// An open query has the name.
    NameTaken(Name),
    /// No open query has it.
    NoSuchName(Name),
    /// Documents of the query's opening are left to be looked at.
    NotYet(Name),
    /// As many queries are open as may be.
    DeskFull(Name),
    /// No merge is open.
    NoMerge,
    /// There are fewer results.
    NoSuchRank(Name),
    /// A merge is open.
    MergeOpen,
    /// The docno is live.
    Repeated(Docno),
    /// With the document more would be held than may be.
    CollectionFull(Docno),
    /// The docno isn't live.
    NoSuchDoc(Docno),
    /// The first fault of a text, with its place.
    Query(QueryKind, usize),
    /// The first fault of a query that is read.
    Check(CheckKind),
}

impl Drop for Refusal {
    fn drop(self) {
        match self {
            Refusal::NameTaken(name)
            | Refusal::NoSuchName(name)
            | Refusal::NotYet(name)
            | Refusal::DeskFull(name)
            | Refusal::NoSuchRank(name) => drop(name),
            Refusal::Repeated(docno) | Refusal::CollectionFull(docno) | Refusal::NoSuchDoc(docno) =>
                drop(docno),
            Refusal::Check(kind) => drop(kind),
            Refusal::NoMerge | Refusal::MergeOpen | Refusal::Query(_, _) => {}
        }
    }
}

/// Extents with the docnos of their documents.
pub type Scanned = List<(Docno, Extent)>;

/// What is replied to an event.
pub enum Reply {
    /// A document with so many tokens was added.
    Added(Docno, u32),
    Deleted(Docno),
    /// So many documents are live, and what is in memory was written.
    Flushed(u64),
    /// A merge of so many documents was opened.
    Merging(u64),
    /// The merge has so much credit, of its size.
    Turned(u64, u64),
    /// The merge is done; so many documents are live.
    Merged(u64),
    /// A query was opened over so many documents.
    Opened(Name, u64),
    /// The query has so much credit, of its documents.
    Stepped(Name, u64, u64),
    /// The results of a query with its scale.
    Results(Name, u64, Hits),
    Explained(Explained),
    /// The extents of an expression in the live documents.
    Extents(Scanned),
    Closed(Name),
    /// So many documents are live, and nothing is open any more.
    Ended(u64),
    Refused(Refusal),
}

impl Drop for Reply {
    fn drop(self) {
        match self {
            Reply::Added(docno, _) | Reply::Deleted(docno) => drop(docno),
            Reply::Opened(name, _) | Reply::Stepped(name, _, _) | Reply::Closed(name) => drop(name),
            Reply::Results(name, _, hits) => {
                drop(name);
                drop(hits);
            }
            Reply::Explained(explained) => drop(explained),
            Reply::Extents(extents) => drop(extents),
            Reply::Refused(refusal) => drop(refusal),
            Reply::Flushed(_)
            | Reply::Merging(_)
            | Reply::Turned(_, _)
            | Reply::Merged(_)
            | Reply::Ended(_) => {}
        }
    }
}
