//! The outside of the program: where its bytes come from and where they go. There are ends in memory, which tell what
//! they hold and fail where a test wants it, and thin ends over std's readers and writers, which tell what these tell.
#![tactic(auto)]

mod fault;
mod front;
mod lent;
mod mem_sink;
mod mem_source;
mod sink;
mod source;
mod std_ends;

pub use fault::{Failed, OutFault};
pub use front::Front;
pub use lent::Lent;
pub use mem_sink::{MemSink, SinkFail};
pub use mem_source::MemSource;
pub use sink::Sink;
pub use source::Source;
pub use std_ends::{StdSink, StdSource};

/// Want of memory, where it is the only refusal.
pub type NoMemory = std::alloc::AllocError;
