//! The lines of the input of the `prior` command: on each a docno and its fraction.
#![tactic(auto)]

mod all;
mod laws;
mod line;
mod number;
mod row;
mod rows;
mod sorted;

pub use all::read_rows;
pub use laws::{first_row_stays, row_is_form, rows_are_few};
pub use line::{RowLine, next_row};
pub use row::{Row, RowKey, read_row};
pub use rows::KeptRows;
