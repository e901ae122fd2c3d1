// Whether an expression may occur in a range of documents, by the terms that stand there.
ghost use Rattle.std.specs.Prelude.{◌≡◌, false, map};
ghost use Rattle.ri_base.specs.Expression.{expr_tree, expr_trees};
ghost use Rattle.range_bounds.specs.Most.{each_occurs, most, total_most};
ghost use Rattle.range_bounds.specs.Ranges.{most_begins, most_places, range_documents};

use range_masks::TermMasks;
use ri_base::{ExtentExpr, Term};

/// Whether the term may stand in a document of the range. No file is read.
fn may_stand<P: TermMasks>(term: &Term, part: &P, range: u32) -> bool
    ensures { P.sound part.now → result ≡ false → most_places (range_documents (P.documents part.now) range) term.now ≡ 0 }
{
    match part.next_term_range(term, range) {
        Some(next) => next == range,
        None => false,
    }
}

/// Whether the expression may occur in a document of the range, by the terms that may stand in some document there. No file
/// is read.
#[cycle(presence)]
pub(crate) fn may_occur<P: TermMasks>(expr: &ExtentExpr, part: &P, range: u32) -> bool
    ensures { P.sound part.now → result ≡ false → most (range_documents (P.documents part.now) range) (expr_tree expr.now) ≡ 0 }
{
    match expr {
        ExtentExpr::Word(term) => may_stand(term, part, range),
        ExtentExpr::Ordered(_, all) | ExtentExpr::Unordered(_, all) | ExtentExpr::Band(all) => {
            each_may(all, part, range)
        }
        ExtentExpr::Syn(all) => some_may(all, part, range),
        ExtentExpr::Any(_) => true,
        ExtentExpr::InField(x, _) => may_occur(x, part, range),
    }
}

/// Whether each of the expressions may.
#[cycle(presence)]
fn each_may<P: TermMasks>(all: &[ExtentExpr], part: &P, range: u32) -> bool
    ensures { P.sound part.now → result ≡ false → each_occurs (most_places (range_documents (P.documents part.now) range))
        (most_begins (range_documents (P.documents part.now) range)) (expr_trees (map expr_tree all.now)) ≡ false }
{
    for x in all {
        if !may_occur(x, part, range) {
            return false;
        }
    }
    true
}

/// Whether some of the expressions may.
#[cycle(presence)]
fn some_may<P: TermMasks>(all: &[ExtentExpr], part: &P, range: u32) -> bool
    ensures { P.sound part.now → result ≡ false → total_most (most_places (range_documents (P.documents part.now) range))
        (most_begins (range_documents (P.documents part.now) range)) (expr_trees (map expr_tree all.now)) ≡ 0 }
{
    for x in all {
        if may_occur(x, part, range) {
            return true;
        }
    }
    false
}
