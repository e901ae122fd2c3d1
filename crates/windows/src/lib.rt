//! The windows of a document: the document as a whole, its fields of a name, or its passages.
#![tactic(auto)]

mod contexts;

pub use contexts::Contexts;
