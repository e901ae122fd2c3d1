//! The lines of a session script, each as what it asks for.
#![tactic(auto)]

mod asked;
mod laws;
mod utf8;

pub use asked::{Asked, read_line};
pub use laws::table_is_form;
