// At how many tokens at most extents of an expression begin in one document of a range.
ghost use Rattle.std.specs.Prelude.{◌≡◌, ◌≤◌, ◌+◌, ◌&&◌, Some, nat_lt, cond, map, slice_index_or, unwrap_or};
ghost use Rattle.ri_base.specs.Expression.{expr_tree, expr_trees};
ghost use Rattle.ri_base.specs.declared.limits.TheConstants.{MAX_DOC_TOKENS};
ghost use Rattle.range_bounds.specs.Most.{capped, each_occurs, most_of_first, total_most};
ghost use Rattle.range_bounds.specs.Tables.{names_of, terms_of, told, told_most};

use crate::range_counts::RangeCounts;
use crate::table::RangeTable;
use ri_base::limits::MAX_DOC_TOKENS;
use ri_base::{ExtentExpr, Name, Term};

/// What is told of the arguments of an operator together: whether each may occur, and the most of the first and of all.
#[derive(Clone, Copy, Debug)]
struct Together {
    each: bool,
    first: Option<u32>,
    total: u32,
}

impl Together {
    /// With one argument more.
    fn with(self, most: u32) -> Together
        requires total { self.total ≤ MAX_DOC_TOKENS }
        requires most { most ≤ MAX_DOC_TOKENS }
        ensures each { result.each ≡ (self.each && nat_lt 0 most) }
        ensures first { result.first ≡ Some (unwrap_or self.first most) }
        ensures total { result.total ≡ capped (self.total + most) }
    {
        Together {
            each: self.each && most > 0,
            first: Some(self.first.unwrap_or(most)),
            total: (self.total + most).min(MAX_DOC_TOKENS as u32),
        }
    }

    /// The most of the first, where each may occur.
    fn first_of_each(self) -> u32
        ensures { result ≡ cond self.each (unwrap_or self.first 0) 0 }
    {
        if self.each {
            self.first.unwrap_or(0)
        } else {
            0
        }
    }

    /// The most of all, where each may occur.
    fn total_of_each(self) -> u32
        ensures { result ≡ cond self.each self.total 0 }
    {
        if self.each { self.total } else { 0 }
    }

    /// One, where each may occur.
    fn one_of_each(self) -> u32
        ensures { result ≡ cond self.each 1 0 }
    {
        if self.each { 1 } else { 0 }
    }
}

/// At how many tokens at most extents of the expression begin in one document of the range.
pub(crate) fn most(expr: &ExtentExpr, table: &RangeTable, counts: &RangeCounts) -> u32
    ensures exact { result ≡ told_most table.now counts.now (expr_tree expr.now) }
    ensures few { result ≤ MAX_DOC_TOKENS }
{
    most_of(expr, table, counts)
}

#[cycle(most)]
fn most_of(expr: &ExtentExpr, table: &RangeTable, counts: &RangeCounts) -> u32
    ensures exact { result ≡ told_most table.now counts.now (expr_tree expr.now) }
    ensures few { result ≤ MAX_DOC_TOKENS }
{
    match expr {
        ExtentExpr::Word(term) => most_of_term(term, table, counts),
        ExtentExpr::Ordered(_, all) => most_together(all, table, counts).first_of_each(),
        ExtentExpr::Unordered(_, all) => most_together(all, table, counts).total_of_each(),
        ExtentExpr::Syn(all) => most_together(all, table, counts).total,
        ExtentExpr::Any(name) => most_of_name(name, table, counts),
        ExtentExpr::Band(all) => most_together(all, table, counts).one_of_each(),
        ExtentExpr::InField(x, _) => most_of(x, table, counts),
    }
}

/// What is told of the arguments of an operator together.
#[cycle(most)]
fn most_together(all: &[ExtentExpr], table: &RangeTable, counts: &RangeCounts) -> Together
    ensures each { result.each ≡ each_occurs (told (terms_of table.now) counts.now.places.items)
        (told (names_of table.now) counts.now.begins.items) (expr_trees (map expr_tree all.now)) }
    ensures first { unwrap_or result.first 0 ≡ most_of_first (told (terms_of table.now) counts.now.places.items)
        (told (names_of table.now) counts.now.begins.items) (expr_trees (map expr_tree all.now)) }
    ensures total { result.total ≡ capped (total_most (told (terms_of table.now) counts.now.places.items)
        (told (names_of table.now) counts.now.begins.items) (expr_trees (map expr_tree all.now))) }
    ensures few { unwrap_or result.first 0 ≤ MAX_DOC_TOKENS }
{
    let mut together = Together {
        each: true,
        first: None,
        total: 0,
    };
    for x in all {
        together = together.with(most_of(x, table, counts));
    }
    together
}

/// How many places the term has at most.
fn most_of_term(term: &Term, table: &RangeTable, counts: &RangeCounts) -> u32
    ensures { result ≡ capped (told (terms_of table.now) counts.now.places.items term.now) }
{
    match table.terms.get_index_of(term) {
        Some(place) => number_at(&counts.places, place),
        None => 0,
    }
}

/// At how many tokens fields of the name begin at most.
fn most_of_name(name: &Name, table: &RangeTable, counts: &RangeCounts) -> u32
    ensures { result ≡ capped (told (names_of table.now) counts.now.begins.items name.now) }
{
    match table.names.get_index_of(name) {
        Some(place) => number_at(&counts.begins, place),
        None => 0,
    }
}

/// The number at a place, 0 where there is none.
fn number_at(numbers: &[u32], place: usize) -> u32
    ensures { result ≡ capped (slice_index_or numbers.now place 0) }
{
    match numbers.get(place) {
        Some(number) => (*number).min(MAX_DOC_TOKENS as u32),
        None => 0,
    }
}
