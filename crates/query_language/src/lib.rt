//! The query language as a whole: which texts a tree has, and that what is printed of a tree is read again as that tree.
#![tactic(auto)]

mod canonical;
mod laws;

pub use canonical::canonical_query;
pub use laws::{
    expr_text_is_grammar, printed_expr_is_read_back, printed_query_is_read_back,
    query_text_is_grammar,
};
pub use query_reader::{QueryFault, QueryKind, print_expr, print_query, read_expr, read_query};
