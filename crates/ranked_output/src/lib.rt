//! What is written of a ranking: the marks of its lines, their scores and their texts, and why a hit has its score.
#![tactic(auto)]

mod explained;
mod marks;
mod order;
mod texts;

pub use explained::{Explained, LeafShown, explain_lines};
pub use marks::Mark;
pub use order::mark;
pub use texts::{line, score_text, trec_line};
