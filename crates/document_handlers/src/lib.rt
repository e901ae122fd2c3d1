//! What commands do with the documents of their input.
#![tactic(auto)]

mod adder;
mod documents;
mod handler;
mod scan;

pub use adder::Adder;
pub use documents::take_documents;
pub use handler::Handler;
pub use scan::Scanner;
