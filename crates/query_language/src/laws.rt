// Laws of what texts of the query language are read as.
ghost use Rattle.std.specs.Prelude.{◌≡◌, ◌≤◌, ℕ, List, Ok};
ghost use Rattle.ri_base.specs.Expression.{ExprTree, IsBounded, depth, nodes};
ghost use Rattle.ri_base.specs.Query.{QueryTree, IsBoundedQuery};
ghost use Rattle.ri_base.specs.declared.limits.TheConstants.{MAX_QUERY_DEPTH, MAX_QUERY_NODES};
ghost use Rattle.query_printer.specs.Printed.{printed, query_printed};
ghost use Rattle.query_reader.specs.QueryText.{query_text, expr_text};
ghost use Rattle.query_language.specs.Grammar.{IsExprText};
ghost use Rattle.query_language.specs.QueryGrammar.{IsQueryText};

/// A text is read as an expression where the grammar has it as one of the expression's texts, and nowhere else, if the
/// expression is within the bounds of depth and nodes.
pub fn expr_text_is_grammar()
    ensures only { (bytes : List ℕ) (x : ExprTree) → expr_text bytes ≡ Ok x → IsExprText x bytes }
    ensures every { (bytes : List ℕ) (x : ExprTree) → IsExprText x bytes → depth x ≤ MAX_QUERY_DEPTH → nodes x ≤ MAX_QUERY_NODES → expr_text bytes ≡ Ok x }
{}

/// A text that is read as a query is one that the grammar has for it.
pub fn query_text_is_grammar()
    ensures { (bytes : List ℕ) (q : QueryTree) → query_text bytes ≡ Ok q → IsQueryText q bytes }
{}

/// The law of queries: the text that is printed of a query that a text was read as is read as that query. So is that of
/// every query within the bounds, and each text that is read is read as such a query.
#[tactic(auto, using(crate::proofs::QueryLaw::printed_query_reads, crate::proofs::QueryLaw::query_reads, query_reader::proofs::QueryFits::query_text_bounded))]
pub fn printed_query_is_read_back()
    ensures printed { (bytes : List ℕ) (q : QueryTree) → query_text bytes ≡ Ok q → query_text (query_printed q) ≡ Ok q }
    ensures every { (q : QueryTree) → IsBoundedQuery q → query_text (query_printed q) ≡ Ok q }
    ensures only { (bytes : List ℕ) (q : QueryTree) → query_text bytes ≡ Ok q → IsBoundedQuery q }
{}

/// The law of expressions alone.
#[tactic(auto, using(crate::proofs::QueryLaw::printed_expr_reads, crate::proofs::QueryLaw::expr_reads, query_reader::proofs::QueryFits::expr_text_bounded))]
pub fn printed_expr_is_read_back()
    ensures printed { (bytes : List ℕ) (x : ExprTree) → expr_text bytes ≡ Ok x → expr_text (printed x) ≡ Ok x }
    ensures every { (x : ExprTree) → IsBounded x → expr_text (printed x) ≡ Ok x }
    ensures only { (bytes : List ℕ) (x : ExprTree) → expr_text bytes ≡ Ok x → IsBounded x }
{}
