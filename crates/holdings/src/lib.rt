//! What a repository holds in memory: parts with their marks, the part that is being filled, and where each live document is.
#![tactic(auto)]

mod closing;
mod holdings;
mod limits;
mod live_parts;
mod places;
mod placing;
mod refusals;
mod spot;
mod sums;

pub use holdings::Holdings;
pub use limits::Limits;
pub use refusals::{AddRefusal, NoSuchDoc, PartsFault};
