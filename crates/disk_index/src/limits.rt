// Limits of what is held. Clauses and definitions cite them by these names.

/// The documents of a snapshot, at most, the dead ones among them: 2^22, so that four bytes count them.
pub const MAX_HELD_DOCS: u32 = 4_194_304;
