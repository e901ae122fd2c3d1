/// How often a leaf occurs in a window, and in how many words.
#[derive(Clone, Copy, Debug, PartialEq, Eq)]
pub struct LeafCount {
    pub tf: u32,
    pub len: u32,
}
