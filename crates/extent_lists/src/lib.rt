//! What the extents of an expression in a document are, and the lists of those of a term and of the fields of a name.
#![tactic(auto)]

mod least;
mod leaves;

pub use least::lesser;
pub use leaves::{of_fields, of_term};
