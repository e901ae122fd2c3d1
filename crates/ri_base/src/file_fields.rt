//! Fields of files: one definition of a field that tells both how it is read and how it is spelled.
pub use crate::broken::{Broken, part_answer};
pub use crate::field_bytes::{byte_at, front_at, kept, magic_at};
pub use crate::field_numbers::{u16_at, u32_at, u64_at};
pub use crate::field_rising::rising_numbers_at;
pub use crate::field_texts::{
    docno_at, docno_behind_at, is_before, name_behind_at, term_behind_at, text_length_at,
};
pub use crate::field_writing::{put_docno, put_name, put_term, put_u16, put_u32, put_u64};
