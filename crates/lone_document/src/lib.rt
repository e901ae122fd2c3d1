//! One document alone, as a part of the collection.
#![tactic(auto)]

mod known;
mod lone_document;

pub use lone_document::LoneDocument;
