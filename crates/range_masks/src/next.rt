// The ranges of a part in which something may occur, one after the other.
ghost use Rattle.std.specs.Prelude.{◌≡◌, ◌≤◌, map, IfSome};
ghost use Rattle.std.specs.List.{list_all, list_any};
ghost use Rattle.ri_base.specs.Expression.{expr_tree};
ghost use Rattle.ri_base.specs.Query.{filter_tree};
ghost use Rattle.query_check.specs.Leaves.{leaf_tree};
ghost use Rattle.range_masks.specs.May.{filter_may, filters_may, leaf_may, may, query_may, some_may};
ghost use Rattle.range_masks.specs.Next.{IsPassed, earlier};

use crate::TermMasks;
use query_check::LeafKind;
use ri_base::{ExtentExpr, Filter};

/// Of two ranges the one that comes first.
fn earlier(a: Option<u32>, b: Option<u32>) -> Option<u32>
    ensures { result ≡ earlier a b }
{
    match (a, b) {
        (Some(a), Some(b)) => Some(a.min(b)),
        (Some(a), None) => Some(a),
        (None, b) => b,
    }
}

/// A range from this one on before which no document from this one on may have an extent of the expression; none where no
/// document from this one on may have one. No file is read.
#[cycle(next)]
pub fn next_range<P: TermMasks>(expr: &ExtentExpr, part: &P, from: u32) -> Option<u32>
    ensures forward { IfSome result (λ next. from ≤ next) }
    ensures passed { P.sound part.now → IsPassed (may (expr_tree expr.now)) (P.documents part.now) from result }
{
    match expr {
        ExtentExpr::Word(term) => part.next_term_range(term, from),
        ExtentExpr::Ordered(_, all) => next_of_each(all, part, from),
        ExtentExpr::Unordered(_, all) => next_of_each(all, part, from),
        ExtentExpr::Syn(all) => next_of_some(all, part, from),
        ExtentExpr::Any(_) => Some(from),
        ExtentExpr::Band(all) => next_of_each(all, part, from),
        ExtentExpr::InField(x, _) => next_range(x, part, from),
    }
}

/// The same of documents that may have an extent of each expression.
#[cycle(next)]
fn next_of_each<P: TermMasks>(all: &[ExtentExpr], part: &P, from: u32) -> Option<u32>
    ensures forward { IfSome result (λ next. from ≤ next) }
    ensures passed { P.sound part.now → IsPassed (λ d. list_all (λ x. may (expr_tree x) d) all.now) (P.documents part.now) from result }
{
    let mut next = from;
    for x in all {
        match next_range(x, part, next) {
            Some(later) => next = later,
            None => return None,
        }
    }
    Some(next)
}

/// The same of documents that may have an extent of some expression.
#[cycle(next)]
fn next_of_some<P: TermMasks>(all: &[ExtentExpr], part: &P, from: u32) -> Option<u32>
    ensures forward { IfSome result (λ next. from ≤ next) }
    ensures passed { P.sound part.now → IsPassed (λ d. list_any (λ x. may (expr_tree x) d) all.now) (P.documents part.now) from result }
{
    let mut next = None;
    for x in all {
        next = earlier(next, next_range(x, part, from));
    }
    next
}

/// The same of documents in which the leaf may occur. A prior doesn't occur.
pub fn next_leaf_range<P: TermMasks>(leaf: &LeafKind, part: &P, from: u32) -> Option<u32>
    ensures forward { IfSome result (λ next. from ≤ next) }
    ensures passed { P.sound part.now → IsPassed (leaf_may (leaf_tree leaf.now)) (P.documents part.now) from result }
{
    match leaf {
        LeafKind::Extents(expr, _) => next_range(expr, part, from),
        LeafKind::Prior(_) => None,
    }
}

/// The same of documents in which some leaf may occur.
fn next_of_leaves<P: TermMasks>(leaves: &[LeafKind], part: &P, from: u32) -> Option<u32>
    ensures forward { IfSome result (λ next. from ≤ next) }
    ensures passed { P.sound part.now → IsPassed (some_may (map leaf_tree leaves.now)) (P.documents part.now) from result }
{
    let mut next = None;
    for leaf in leaves {
        next = earlier(next, next_leaf_range(leaf, part, from));
    }
    next
}

/// The same of documents that may pass the filter. Of one that rejects these are all.
fn next_of_filter<P: TermMasks>(filter: &Filter, part: &P, from: u32) -> Option<u32>
    ensures forward { IfSome result (λ next. from ≤ next) }
    ensures passed { P.sound part.now → IsPassed (filter_may (filter_tree filter.now)) (P.documents part.now) from result }
{
    if filter.keep {
        next_range(&filter.expr, part, from)
    } else {
        Some(from)
    }
}

/// The same of documents that may pass each filter.
fn next_of_filters<P: TermMasks>(filters: &[Filter], part: &P, from: u32) -> Option<u32>
    ensures forward { IfSome result (λ next. from ≤ next) }
    ensures passed { P.sound part.now → IsPassed (filters_may (map filter_tree filters.now)) (P.documents part.now) from result }
{
    let mut next = from;
    for filter in filters {
        match next_of_filter(filter, part, next) {
            Some(later) => next = later,
            None => return None,
        }
    }
    Some(next)
}

/// A range from this one on before which no document from this one on may have something to show for the query; none where
/// no document from this one on may have that. No file is read.
pub fn next_query_range<P: TermMasks>(
    filters: &[Filter],
    leaves: &[LeafKind],
    part: &P,
    from: u32,
) -> Option<u32>
    ensures forward { IfSome result (λ next. from ≤ next) }
    ensures passed { P.sound part.now → IsPassed (query_may (map filter_tree filters.now) (map leaf_tree leaves.now)) (P.documents part.now) from result }
{
    match next_of_leaves(leaves, part, from) {
        Some(next) => next_of_filters(filters, part, next),
        None => None,
    }
}
