//! Why the program refuses the text of a command, and the line that says so.
#![tactic(auto)]

mod lines;
mod refusal;

pub use lines::{line_of, reply_of};
pub use refusal::QueryRefusal;
