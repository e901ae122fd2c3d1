//! Reads lines from a source, one after the other, in whatever pieces the source gives.
#![tactic(auto)]

mod laws;
mod line;

pub use laws::line_is_form;
pub use line::{LINE_BYTES, Line, LineReader};
