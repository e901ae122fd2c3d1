// A document whose tokens are numbers.
use crate::{Docno, Spans};

/// A document that stands for another: each token is the number of a term in a list beside it.
#[derive(Debug, Drop)]
pub struct Held {
    pub docno: Docno,
    pub tokens: Vec<u32>,
    pub fields: Spans,
}
