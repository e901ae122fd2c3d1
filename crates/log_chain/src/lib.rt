//! The binary logarithm of a fraction, digit by digit: as many digits as are asked for, each by one squaring.
#![tactic(auto)]

mod chain;
mod laws;

pub use chain::{FIRST, LAST, LogChain, MAX_LEVEL};
pub use laws::{digits_enclose, digits_fall, digits_lead};
