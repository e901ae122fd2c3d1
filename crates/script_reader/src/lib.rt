//! Reads a session script from a source, item by item.
#![tactic(auto)]

mod all;
mod block;
mod item;
mod laws;
mod reader;
mod script_reader;

pub use all::read_items;
pub use item::{Item, Unread};
pub use laws::script_is_form;
pub use read_ahead::InputFault as ScriptFault;
pub use reader::ItemReader;
pub use script_reader::ScriptReader;
