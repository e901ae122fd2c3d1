// The place of a document.

/// Where a document is: its part, counted from 0 over all parts, the one that is being filled last, and its id in it.
#[derive(Clone, Copy, Debug)]
pub struct Spot {
    pub part: usize,
    pub id: u32,
}
