//! The commands of the program, over any source, any sink and any store.
#![tactic(auto)]

mod addition;
mod changing;
mod creation;
mod ending;
mod filling;
mod generated_text;
mod generation;
mod items;
mod opening;
mod program;
mod question;
mod scan;
mod script;
mod session;
mod status;
mod texts;
mod turn;

pub use program::run;
pub use status::Status;
