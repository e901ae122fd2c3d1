//! The values that every layer of the search engine speaks of: words, names, extents and documents, and the fields of files.
#![tactic(auto)]

mod arg_list;
pub mod ascii;
mod belief;
mod broken;
mod bytes;
mod doc;
mod expression;
mod extent;
mod field_bytes;
mod field_numbers;
mod field_rising;
mod field_span;
mod field_texts;
mod field_writing;
pub mod file_fields;
mod fraction;
mod held;
mod hit;
pub mod limits;
mod list;
mod places;
mod postings;
mod query;
mod sealed;
mod seg_fault;
mod short_bytes;
mod steps;
mod terms;
mod text;

pub use arg_list::ArgList;
pub use belief::Belief;
pub use bytes::Bytes;
pub use doc::Doc;
pub use expression::ExtentExpr;
pub use extent::{Extent, Extents};
pub use field_span::{FieldSpan, Spans};
pub use fraction::{Fraction, NotABelief};
pub use held::Held;
pub use hit::{Fractions, Hit, Hits, LeafStats};
pub use list::List;
pub use places::{Place, Places, Positions};
pub use postings::Postings;
pub use query::{Filter, Query, Range};
pub use sealed::Sealed;
pub use seg_fault::{FileName, PartName, SegFault};
pub use steps::Steps;
pub use terms::Terms;
pub use text::{DOCNO_BYTES, Docno, NAME_BYTES, Name, TERM_BYTES, Term, is_docno_byte};

/// Want of memory, where it is the only refusal.
pub type NoMemory = std::alloc::AllocError;
