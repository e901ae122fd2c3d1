// A query: what documents must have, what is ranked, and the beliefs that rank it.
ghost use Rattle.std.specs.Prelude.{◌≡◌, IfOk, map};
ghost use Rattle.ri_base.specs.Query.{filter_tree, query_tree, IsBoundedQuery, belief_tree};

use crate::{Belief, ExtentExpr, Name, NoMemory};
use std::alloc::Global;

/// Which documents are ranked: those with an extent of the expression (keep), or those without.
#[derive(Drop)]
pub struct Filter {
    pub keep: bool,
    pub expr: ExtentExpr,
}

/// What is ranked.
#[derive(Drop)]
pub enum Range {
    /// Whole documents.
    Whole,
    /// The fields of this name.
    Field(Name),
    /// Passages of so many tokens, one at every so many.
    Passages { width: u32, every: u32 },
}

/// A query. It keeps the bounds of the query language: at most 32 operators one inside the other and 1,000 nodes,
/// numbers from 1 to 1,048,576, weights below 1,000,000, and at least one argument an operator.
#[derive(Drop)]
pub struct Query {
    /// From the outermost inwards.
    pub filters: Vec<Filter>,
    pub range: Range,
    pub beliefs: Vec<Belief>,
    pub ghost bounded: { IsBoundedQuery (query_tree filters.items range beliefs.items) },
}

impl Filter {
    /// An equal filter.
    pub fn clone_in(&self, alloc: Global) -> Result<Filter, NoMemory>
        ensures { IfOk result (λ f. filter_tree f ≡ filter_tree self.now) }
    {
        Ok(Filter {
            keep: self.keep,
            expr: self.expr.clone_in(alloc)?,
        })
    }
}

impl Range {
    /// An equal range.
    pub fn clone_in(&self, alloc: Global) -> Result<Range, NoMemory>
        ensures { IfOk result (λ range. range ≡ self.now) }
    {
        match self {
            Range::Whole => Ok(Range::Whole),
            Range::Field(name) => name.clone_in(alloc).map(Range::Field),
            Range::Passages { width, every } => Ok(Range::Passages {
                width: *width,
                every: *every,
            }),
        }
    }
}

fn clone_filters(alloc: Global, all: &[Filter]) -> Result<Vec<Filter>, NoMemory>
    ensures { IfOk result (λ clones. map filter_tree clones.items ≡ map filter_tree all.now) }
{
    let mut clones = Vec::new(alloc);
    for filter in all {
        clones.push(filter.clone_in(alloc)?)?;
    }
    Ok(clones)
}

fn clone_beliefs(alloc: Global, all: &[Belief]) -> Result<Vec<Belief>, NoMemory>
    ensures { IfOk result (λ clones. map belief_tree clones.items ≡ map belief_tree all.now) }
{
    let mut clones = Vec::new(alloc);
    for belief in all {
        clones.push(belief.clone_in(alloc)?)?;
    }
    Ok(clones)
}

impl Query {
    ghost use Rattle.ri_base.specs.Queries.{whole_tree};

    /// An equal query.
    pub fn clone_in(&self, alloc: Global) -> Result<Query, NoMemory>
        ensures { IfOk result (λ q. whole_tree q ≡ whole_tree self.now) }
    {
        let filters = clone_filters(alloc, &self.filters)?;
        let range = self.range.clone_in(alloc)?;
        let beliefs = clone_beliefs(alloc, &self.beliefs)?;
        Ok(Query {
            filters,
            range,
            beliefs,
        })
    }
}
