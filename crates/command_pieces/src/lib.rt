//! What a command does, piece by piece, and how it is broken off.
#![tactic(auto)]

mod command_fault;
mod extent_line;
mod fault;
mod reply;

pub use command_fault::CommandFault;
pub use extent_line::push_extent;
pub use fault::Fault;
pub use reply::Reply;
