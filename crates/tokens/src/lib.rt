//! The terms of a text, and the document that a raw document is read as: its terms in their places, and its fields.
#![tactic(auto)]

mod document;
mod field_set;
mod open_fields;
mod terms;

pub use document::{TokenRefusal, doc_of};
pub use terms::terms_of;
