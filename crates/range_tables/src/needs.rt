// Whether a term is to be counted in a range of documents.
ghost use Rattle.std.specs.Prelude.{◌≡◌, false, map, Contains};
ghost use Rattle.ri_base.specs.Expression.{expr_tree, expr_trees};
ghost use Rattle.query_check.specs.Leaves.{leaf_tree};
ghost use Rattle.expression_words.specs.Words.{all_words, words};
ghost use Rattle.range_bounds.specs.Ranges.{range_documents};
ghost use Rattle.range_tables.specs.Needs.{IsIdle, IsIdleIn};

use crate::presence::may_occur;
use query_check::LeafKind;
use range_masks::TermMasks;
use ri_base::{ExtentExpr, Term};

/// Whether the term stands in the expression.
#[cycle(words)]
fn has_word(expr: &ExtentExpr, term: &Term) -> bool
    ensures { result ≡ false → Contains (words (expr_tree expr.now)) term.now → ⊥ }
{
    match expr {
        ExtentExpr::Word(word) => word == term,
        ExtentExpr::Ordered(_, all)
        | ExtentExpr::Unordered(_, all)
        | ExtentExpr::Syn(all)
        | ExtentExpr::Band(all) => some_has_word(all, term),
        ExtentExpr::Any(_) => false,
        ExtentExpr::InField(x, _) => has_word(x, term),
    }
}

/// Whether it stands in some of the expressions.
#[cycle(words)]
fn some_has_word(all: &[ExtentExpr], term: &Term) -> bool
    ensures { result ≡ false → Contains (all_words (expr_trees (map expr_tree all.now))) term.now → ⊥ }
{
    for x in all {
        if has_word(x, term) {
            return true;
        }
    }
    false
}

/// Whether the expression is one term.
fn is_word(expr: &ExtentExpr) -> bool {
    matches!(expr, ExtentExpr::Word(_))
}

/// Whether the leaf asks for the term and may occur in the range. Of a leaf that is the term alone no more is asked: the places of the
/// term there are looked up anyway.
fn needs<P: TermMasks>(leaf: &LeafKind, term: &Term, part: &P, range: u32) -> bool
    ensures { P.sound part.now → result ≡ false → IsIdleIn (range_documents (P.documents part.now) range) term.now (leaf_tree leaf.now) }
{
    match leaf {
        LeafKind::Extents(expr, _) => {
            has_word(expr, term) && (is_word(expr) || may_occur(expr, part, range))
        }
        LeafKind::Prior(_) => false,
    }
}

/// Whether some leaf that asks for the term may occur in the range. No file is read.
pub(crate) fn is_needed<P: TermMasks>(
    leaves: &[LeafKind],
    term: &Term,
    part: &P,
    range: u32,
) -> bool
    ensures { P.sound part.now → result ≡ false → IsIdle (map leaf_tree leaves.now) (range_documents (P.documents part.now) range) term.now }
{
    for leaf in leaves {
        if needs(leaf, term, part, range) {
            return true;
        }
    }
    false
}
