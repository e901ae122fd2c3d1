// Queries that are searched for over a segment that is open.
ghost use Rattle.std.specs.Prelude.{◌≡◌, All, IfSome};
ghost use Rattle.ri_base.specs.Ratio.{ratio_of};
ghost use Rattle.smoothing.specs.Counts.{AreCounts};
ghost use Rattle.smoothing.specs.Fractions.{Computes, dirichlet};
ghost use Rattle.belief_nodes.specs.Leaves.{HasPrior};
ghost use Rattle.belief_nodes.specs.Network.{network_tree};

use crate::parts::Counted;
use crate::queries::query;
use crate::sums::all_stats;
use disk_index::BlockCache;
use ranker::Search;
use ri_base::{Fraction, Hits};
use smoothing::{Rule, RuleKind, dirichlet_fraction};
use std::alloc::Global;
use store_ends::Store;

/// How a query is searched for: for at most so many results, by steps of so many documents, and whether tables of the ranges are made, by
/// which ranges are skipped.
#[derive(Clone, Copy)]
pub struct Wanted {
    pub most: u32,
    pub docs: u64,
    pub skips: bool,
}

/// A search that has passed no document yet.
fn begin<T: Store>(
    alloc: Global,
    counted: &mut Counted,
    text: &str,
    wanted: Wanted,
    store: &mut T,
) -> Option<Search>
    ensures { IfSome result (λ s. All (HasPrior 0) (network_tree s.network).leaves) }
{
    let checked = query(alloc, text)?;
    let stats = all_stats(alloc, counted, &checked.leaves, store)?;
    let tables = if wanted.skips {
        counted.tables(alloc, store, &checked.leaves)?
    } else {
        Vec::new(alloc)
    };
    let snapshot = counted.shared(alloc)?;
    Search::new(alloc, snapshot, checked, &stats, tables, wanted.most).ok()
}

/// Passes so many documents, and tells whether all are passed by now. No prior is asked for.
fn step<T: Store, F: Fn(u32, u32, u64, u64) -> Fraction>(
    alloc: Global,
    search: &mut Search,
    docs: u64,
    rule: &Rule<F>,
    store: &mut T,
    cache: &mut BlockCache,
) -> Option<bool>
    requires rule { Computes F.pre F.post rule.now.kind rule.now.f }
    requires priors { All (HasPrior 0) (network_tree search.old.network).leaves }
    ensures priors { All (HasPrior 0) (network_tree search.new.network).leaves }
{
    if !search.usable() {
        return None;
    }
    search.step(alloc, docs, rule, &mut [], store, cache).ok()
}

/// The results of a search that is at its end.
pub fn results(search: &Search) -> Option<&Hits> {
    if !search.usable() {
        return None;
    }
    search.results()
}

/// Whether the search comes to its end, by steps of so many documents.
fn go_through<T: Store, F: Fn(u32, u32, u64, u64) -> Fraction>(
    alloc: Global,
    search: &mut Search,
    docs: u64,
    rule: &Rule<F>,
    store: &mut T,
    cache: &mut BlockCache,
) -> bool
    requires rule { Computes F.pre F.post rule.now.kind rule.now.f }
    requires priors { All (HasPrior 0) (network_tree search.old.network).leaves }
{
    for _ in 0..10_000_000u32 {
        match step(alloc, search, docs, rule, store, cache) {
            Some(true) => return true,
            Some(false) => {}
            None => return false,
        }
    }
    false
}

/// The search for a query at its end.
pub fn searched<T: Store>(
    alloc: Global,
    counted: &mut Counted,
    text: &str,
    wanted: Wanted,
    store: &mut T,
) -> Option<Search> {
    let rule = Rule::new(
        RuleKind::Dirichlet { mu: 2500 },
        |tf, len, cf, total| -> Fraction
            requires { AreCounts tf len cf total }
            ensures { ratio_of result ≡ dirichlet 2500 tf len cf total }
        { dirichlet_fraction(2500, tf, len, cf, total) },
    );
    let mut search = begin(alloc, counted, text, wanted, store)?;
    let blocks = counted.blocks();
    if go_through(alloc, &mut search, wanted.docs, &rule, store, blocks) {
        Some(search)
    } else {
        None
    }
}
