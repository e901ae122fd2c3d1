//! The words of the command line.
#![tactic(auto)]

mod given;
mod labels;
mod laws;
mod numbers;
mod taken;
mod words;

pub use labels::LABEL_BYTES;
pub use laws::items_are_written;
pub use words::{Asked, DEFAULT_MU, DEFAULT_RESULTS, MAX_RESULTS, Words, read_words};
