// Limits of the stores of this crate.

/// The bytes of a file's name, at most, in memory and in a folder. It leaves room for a prefix before the names of an index.
pub const LONGEST_NAME: usize = 64;
