//! Stores: files by their names, in memory and in a folder. What the program keeps it keeps in one of them. The store in
//! memory tells what it holds and what a stop at each moment leaves, and fails where a test wants it.
#![tactic(auto)]

mod change;
mod failing;
mod folder;
mod folder_store;
mod limits;
mod mem_store;
mod store;

pub use failing::{Left, StoreFail};
pub use folder_store::FolderStore;
pub use limits::LONGEST_NAME;
pub use mem_store::MemStore;
pub use store::Store;
