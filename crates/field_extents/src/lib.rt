//! Which extents of a document lie in fields of a name, how many positions such fields cover, and at how many positions
//! extents begin. Each call goes over its lists once.
#![tactic(auto)]

mod begins;
mod cover;
mod restriction;

pub use begins::{WindowBegins, distinct_begins};
pub use cover::{WindowCover, covered};
pub use restriction::inside;
