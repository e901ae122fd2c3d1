// Limits of documents, collections and queries. Clauses and definitions cite them by these names.

/// The tokens of a document, at most: 2^20, far more than a long book of a collection has.
pub const MAX_DOC_TOKENS: usize = 1_048_576;

/// The fields of a document, at most, so that two bytes hold their number.
pub const MAX_DOC_FIELDS: usize = 65_535;

/// The bytes of a document as it stands in an input, at most: 16 MiB, which bounds what a reader holds of an input.
pub const MAX_DOC_BYTES: usize = 16_777_216;

/// The documents of one part of a collection, at most: 2^20, so that an id fits into 32 bits with room to spare.
pub const MAX_PART_DOCS: usize = 1_048_576;

/// The tokens of a collection, at most: 2^26, so that the sums over a collection stay far below 2^64.
pub const MAX_HELD_TOKENS: u64 = 67_108_864;

/// The levels of operators in a query, at most. It bounds how deep the calls over a query go.
pub const MAX_QUERY_DEPTH: usize = 32;

/// The nodes of a query, at most. It bounds the work on each document.
pub const MAX_QUERY_NODES: usize = 1000;

/// The number of a window or a passage, at most: as many as a document has tokens.
pub const MAX_WIDTH: u32 = 1_048_576;

/// The names of fields of one part of a collection, at most, so that two bytes hold the number of a name.
pub const MAX_PART_NAMES: usize = 65_536;

/// The priors of a repository, at most: as many as a query can name beside that of the length.
pub const MAX_PRIORS: usize = 8;

/// The rows of a prior, at most: as many as one part of a collection has documents.
pub const MAX_PRIOR_ROWS: usize = 1_048_576;

/// The numbers of a prior's fractions are below this, so that each has at most 18 digits.
pub const PRIOR_LIMIT: u64 = 1_000_000_000_000_000_000;
