//! What expressions ask a part of the collection for: terms and names of fields.
#![tactic(auto)]

mod words;

pub use words::{Asked, ask, distinct_words, words_of};
