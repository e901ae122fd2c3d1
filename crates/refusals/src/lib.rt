//! Why the program refuses what it is given, and the line that says so.
#![tactic(auto)]

mod lines;
mod refusal;
mod reply;

pub use lines::{line_of, named_line, placed_line};
pub use refusal::{CollectionKind, Refusal};
pub use reply::reply_of;
