//! The commands that change a collection: what they do with their input, and what the files stand for behind it.
#![tactic(auto)]

mod commits;
mod create_command;
mod delete_command;
mod deletion;
mod flushed;
mod lines;
mod merge_command;
mod prior_command;
mod prior_setting;
mod rows;
mod sweeping;

pub use commits::commit;
pub use create_command::create_repository;
pub use delete_command::delete;
pub use flushed::flushed_reply;
pub use lines::take_docnos;
pub use merge_command::merge;
pub use prior_command::set_prior;
