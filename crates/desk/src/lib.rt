//! What is asked of a collection: a question at once, or queries in steps and a merge in turns while documents come and go.
#![tactic(auto)]

mod answering;
mod asking;
mod blocks;
mod desk;
mod explained;
mod kept;
mod kept_priors;
mod laws;
mod leaves;
mod lines;
mod places;
mod priors;
mod query;
mod refusal_lines;
mod reply;
mod results;
mod scanning;
mod search;
mod shown;
mod text;

pub use answering::answer;
pub use blocks::block_cache;
pub use desk::Desk;
pub use explained::{explain_hit, hit_of_rank};
pub use kept_priors::{names_of, take_priors};
pub use laws::ranking_is_true;
pub use leaves::all_stats;
pub use priors::length_plug;
pub use query::{MAX_QUERIES, OpenQuery};
pub use refusal_lines::refusal_text;
pub use reply::{CheckKind, Refusal, Reply, Scanned};
pub use results::result_lines;
pub use shown::Shown;
pub use text::{piece_of, reply_text};
