// Searches over what was opened.
ghost use Rattle.std.specs.Prelude.{◌≡◌, true, All, IfSome};
ghost use Rattle.ri_base.specs.Ratio.{ratio_of};
ghost use Rattle.smoothing.specs.Counts.{AreCounts};
ghost use Rattle.smoothing.specs.Fractions.{dirichlet};
ghost use Rattle.belief_nodes.specs.Leaves.{HasPrior};
ghost use Rattle.belief_nodes.specs.Network.{network_tree};

use crate::opened::{Opened, cache_of, shared};
use crate::queries::query;
use crate::stats::all_stats;
use query_check::LeafKind;
use range_bounds::RangeTable;
use range_tables::tables;
use ranker::Search;
use ri_base::{Fraction, Hit, Hits};
use smoothing::{Rule, RuleKind, dirichlet_fraction};
use std::alloc::Global;

/// A query, and the docnos of its results in order, with one space between them.
pub type Row = (&'static str, &'static str);

/// How a query is searched for: for at most so many results, by steps of so many documents, and whether tables of the ranges are made, by
/// which ranges are skipped.
#[derive(Clone, Copy)]
pub struct Wanted {
    pub most: u32,
    pub docs: u64,
    pub skips: bool,
}

/// The tables of the ranges of the parts for these leaves.
fn tables_of(alloc: Global, leaves: &[LeafKind], opened: &mut Opened) -> Option<Vec<RangeTable>> {
    let parts = opened.snapshot.parts();
    tables(alloc, leaves, parts, &mut opened.store, &mut opened.cache).ok()
}

/// A search for a query that has passed no document yet.
fn begin(alloc: Global, opened: &mut Opened, text: &str, wanted: Wanted) -> Option<Search>
    ensures { IfSome result (λ s. All (HasPrior 0) (network_tree s.network).leaves) }
{
    let checked = query(alloc, text)?;
    let stats = all_stats(alloc, &checked.leaves, opened)?;
    let tables = if wanted.skips {
        tables_of(alloc, &checked.leaves, opened)?
    } else {
        Vec::new(alloc)
    };
    let snapshot = shared(alloc, &opened.snapshot)?;
    Search::new(alloc, snapshot, checked, &stats, tables, wanted.most).ok()
}

/// Passes so many documents, with a mu of 1; whether all are passed by now. No prior is asked for.
fn step(alloc: Global, search: &mut Search, opened: &mut Opened, docs: u64) -> Option<bool>
    requires usable { search.old.usable ≡ true }
    requires priors { All (HasPrior 0) (network_tree search.old.network).leaves }
    ensures priors { All (HasPrior 0) (network_tree search.new.network).leaves }
{
    let rule = Rule::new(
        RuleKind::Dirichlet { mu: 1 },
        |tf, len, cf, total| -> Fraction
            requires { AreCounts tf len cf total }
            ensures { ratio_of result ≡ dirichlet 1 tf len cf total }
        { dirichlet_fraction(1, tf, len, cf, total) },
    );
    let store = &mut opened.store;
    let cache = &mut opened.cache;
    search.step(alloc, docs, &rule, &mut [], store, cache).ok()
}

/// Whether the search passes all documents by steps of so many, a thousand steps at most.
fn passes(alloc: Global, search: &mut Search, opened: &mut Opened, docs: u64) -> bool
    requires { All (HasPrior 0) (network_tree search.old.network).leaves }
{
    for _ in 0..1000 {
        if !search.usable() {
            return false;
        }
        match step(alloc, search, opened, docs) {
            Some(true) => return true,
            Some(false) => {}
            None => return false,
        }
    }
    false
}

/// What a search spends, by the numbers that it keeps: ranges that it passes over, blocks that it opens, squarings. Beside it how many
/// blocks its cache holds at the end, and how many terms and leaves the query has.
#[derive(Clone, Copy)]
pub struct Spending {
    pub passed: u64,
    pub opened: u64,
    pub squared: u64,
    pub held: usize,
    pub terms: usize,
    pub leaves: usize,
}

/// What a query spends with an empty cache; nothing where a call fails.
pub fn spending_of(
    alloc: Global,
    opened: &mut Opened,
    text: &str,
    wanted: Wanted,
) -> Option<Spending> {
    let mut search = begin(alloc, opened, text, wanted)?;
    opened.cache = cache_of(alloc, 1000)?;
    if !passes(alloc, &mut search, opened, wanted.docs) {
        return None;
    }
    Some(Spending {
        passed: search.passed(),
        opened: search.opened(),
        squared: search.squared(),
        held: opened.cache.len(),
        terms: search.terms().len(),
        leaves: search.stats().len(),
    })
}

fn results(alloc: Global, search: &Search) -> Option<Hits> {
    if !search.usable() {
        return None;
    }
    search.results()?.clone_in(alloc).ok()
}

/// The results of a query; nothing where a call fails.
pub fn found(alloc: Global, opened: &mut Opened, text: &str, wanted: Wanted) -> Option<Hits> {
    let mut search = begin(alloc, opened, text, wanted)?;
    if !passes(alloc, &mut search, opened, wanted.docs) {
        return None;
    }
    results(alloc, &search)
}

/// Whether these have the first docnos of the text, so many at most, in order.
fn have_docnos(hits: &[Hit], docnos: &str, most: u32) -> bool {
    let mut wanted = docnos.split_whitespace().take(most as usize);
    for hit in hits {
        match wanted.next() {
            Some(docno) if docno.as_bytes() == hit.docno.as_bytes() => {}
            _ => return false,
        }
    }
    wanted.next().is_none()
}

/// Whether a search has just the first results of the row; nothing where it fails.
pub fn is_order(alloc: Global, opened: &mut Opened, row: &Row, wanted: Wanted) -> Option<bool> {
    let (text, docnos) = row;
    let hits = found(alloc, opened, text, wanted)?;
    Some(have_docnos(hits.as_slice(), docnos, wanted.most))
}
