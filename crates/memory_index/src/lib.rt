//! The documents of a part that is in memory, and their inversion.
#![tactic(auto)]

mod inversion;
mod mem_index;
mod numbered;
mod numbering;

pub use mem_index::{MemIndex, MemRefusal};
