// A search over all documents of a snapshot.
ghost use Rattle.std.specs.Prelude.{◌≡◌, ◌⊎◌, ◌<◌, ◌-◌, ◌^◌, [], true, length, map, All, Contains, Err, IfErr, IfOk, List, Option, OnOk};
ghost use Rattle.ri_base.specs.Faults.{IsOutside, TellsDamage};
ghost use Rattle.ri_base.specs.Keeps.{Rose};
ghost use Rattle.ri_base.specs.Ratio.{ratio_of};
ghost use Rattle.store_ends.specs.Files.{Files};
ghost use Rattle.smoothing.specs.Counts.{AreCounts};
ghost use Rattle.smoothing.specs.Fractions.{IsMu, dirichlet};
ghost use Rattle.smoothing.specs.declared.rule.RuleKind.{RuleKind};
ghost use Rattle.query_check.specs.Answers.{whole_checked};
ghost use Rattle.query_check.specs.Leaves.{leaf_tree};
ghost use Rattle.belief_nodes.specs.Leaves.{AreLeafStats};
ghost use Rattle.belief_nodes.specs.Network.{network_of, network_tree};
ghost use Rattle.belief_nodes.specs.Priors.{Prior};
ghost use Rattle.disk_index.specs.Cache.{IsCacheBacked};
ghost use Rattle.disk_index.specs.Snapshots.{AreBacked, AreIntact, IsFileAmong, live};
ghost use Rattle.document_scoring.specs.Counts.{stats_of};
ghost use Rattle.counts.specs.Kept.{AreSums, Kept};
ghost use Rattle.counts.specs.Reading.{OnlyReads};
ghost use Rattle.ranker.specs.Searches.{IsAnswerOf, IsTaken, searched};
ghost use Rattle.ranker.specs.Windows.{AreWindows};
ghost use Rattle.desk.specs.Answer.{IsRule};
ghost use Rattle.desk.specs.Searching.{HasSearched};

use crate::all_stats;
use belief_nodes::BeliefNode;
use counts::Counts;
use disk_index::{BlockCache, MarkedPart, Snapshot};
use query_check::Checked;
use range_tables::tables;
use ranker::Search;
use ri_base::{Fraction, Hits, LeafStats, Range, SegFault};
use smoothing::{Rule, RuleKind, dirichlet_fraction};
use std::alloc::Global;
use store_ends::Store;

/// How often the leaves occur together; no more than `u64::MAX`.
fn occurrences(stats: &[LeafStats]) -> u64 {
    let mut all = 0u64;
    for leaf in stats {
        all = all.saturating_add(leaf.cf);
    }
    all
}

/// How often each leaf occurs in a range at least, on average, where tables are made. Where it occurs less often they take more than a
/// tenth of the search.
const LEAST_IN_RANGE: u64 = 4;

/// Whether tables of the ranges of so many documents are made for a search for so many results. Of whole documents there are no more
/// candidates than occurrences, so where these are fewer the results are never all held before the end, and no range is passed over.
fn are_worthwhile(docs: u32, range: &Range, stats: &[LeafStats], most: u32) -> bool {
    let found = occurrences(stats);
    let least = u64::from(docs.div_ceil(64))
        .saturating_mul(stats.len() as u64)
        .saturating_mul(LEAST_IN_RANGE);
    found >= least && (!matches!(range, Range::Whole) || found >= u64::from(most))
}

/// The parts of which tables are made: all, or none where the search gains too little by them.
fn passable<'a>(
    snapshot: &'a Snapshot,
    range: &Range,
    stats: &[LeafStats],
    most: u32,
) -> &'a [MarkedPart]
    ensures { (result.now ≡ []) ⊎ (result.now ≡ snapshot.now) }
{
    let parts = snapshot.parts();
    if are_worthwhile(snapshot.live_count(), range, stats, most) {
        return parts;
    }
    &parts[..0]
}

/// A search over the documents of a snapshot that has passed none yet, with the tables of the ranges of its parts, or without any
/// where it can pass over none. The statistics are those of the query's leaves, in order of their numbers.
pub(crate) fn new_search<T: Store>(
    alloc: Global,
    snapshot: Snapshot,
    checked: Checked,
    stats: &[LeafStats],
    most: u32,
    store: &mut T,
    cache: &mut BlockCache,
) -> Result<Search, SegFault>
    requires each { length stats.now ≡ length checked.leaves.items }
    requires counted { All (λ s. AreLeafStats s) stats.now }
    ensures snapshot { IfOk result (λ s. s.snapshot ≡ snapshot) }
    ensures checked { IfOk result (λ s. s.checked ≡ checked) }
    ensures network { IfOk result (λ s. network_tree s.network ≡ network_of checked stats.now) }
    ensures most { IfOk result (λ s. s.most ≡ most) }
    ensures credit { IfOk result (λ s. s.at.credit ≡ 0) }
    ensures usable { IfOk result (λ s. s.usable ≡ true) }
    ensures taken { AreBacked (T.files store.old) snapshot → IsCacheBacked (T.files store.old) cache.old
        → IfOk result (λ s. (kind : RuleKind) (priors : List Prior) → IsTaken kind priors (T.files store.old) s) }
    ensures honest { AreIntact (T.files store.old) snapshot → IsCacheBacked (T.files store.old) cache.old → IfErr result IsOutside }
    ensures undamaged { OnOk result (cache.new.damage ≡ cache.old.damage) }
    ensures damaged { IfErr result (TellsDamage cache.old.damage cache.new.damage) }
    ensures reads { OnlyReads T.files T.layers T.clock T.since T.longest T.held T.faults (IsFileAmong snapshot) store.old store.new cache.old cache.new }
    ensures store { result ≡ Err SegFault.Store → Rose (T.faults store.old) (T.faults store.new) }
{
    let parts = passable(&snapshot, &checked.range, stats, most);
    let tables = tables(alloc, &checked.leaves, parts, store, cache)?;
    let search = Search::new(alloc, snapshot, checked, stats, tables, most)?;
    Ok(search)
}

/// The same once how often the leaves occur is counted, or known by sums that are kept.
pub(crate) fn counted_search<T: Store>(
    alloc: Global,
    snapshot: Snapshot,
    checked: Checked,
    generation: u64,
    most: u32,
    counts: &mut Counts,
    store: &mut T,
    cache: &mut BlockCache,
) -> Result<Search, SegFault>
    ensures snapshot { IfOk result (λ s. s.snapshot ≡ snapshot) }
    ensures checked { IfOk result (λ s. s.checked ≡ checked) }
    ensures network { IfOk result (λ s. network_tree s.network ≡ network_of checked (network_tree s.network).stats) }
    ensures most { IfOk result (λ s. s.most ≡ most) }
    ensures credit { IfOk result (λ s. s.at.credit ≡ 0) }
    ensures usable { IfOk result (λ s. s.usable ≡ true) }
    ensures exact { AreBacked (T.files store.old) snapshot → IsCacheBacked (T.files store.old) cache.old → AreSums (live (T.files store.old) snapshot) generation counts.old
        → IfOk result (λ s. (network_tree s.network).stats ≡ map (stats_of (live (T.files store.old) snapshot)) (map leaf_tree checked.leaves.items)) }
    ensures taken { AreBacked (T.files store.old) snapshot → IsCacheBacked (T.files store.old) cache.old
        → IfOk result (λ s. (kind : RuleKind) (priors : List Prior) → IsTaken kind priors (T.files store.old) s) }
    ensures kept { AreBacked (T.files store.old) snapshot → IsCacheBacked (T.files store.old) cache.old → AreSums (live (T.files store.old) snapshot) generation counts.old
        → OnOk result (AreSums (live (T.files store.old) snapshot) generation counts.new) }
    ensures adds { (e : Kept) → Contains counts.new e → Contains counts.old e ⊎ (e.generation < 2 ^ 64 - 1) }
    ensures honest { AreIntact (T.files store.old) snapshot → IsCacheBacked (T.files store.old) cache.old → IfErr result IsOutside }
    ensures undamaged { OnOk result (cache.new.damage ≡ cache.old.damage) }
    ensures damaged { IfErr result (TellsDamage cache.old.damage cache.new.damage) }
    ensures reads { OnlyReads T.files T.layers T.clock T.since T.longest T.held T.faults (IsFileAmong snapshot) store.old store.new cache.old cache.new }
    ensures store { result ≡ Err SegFault.Store → Rose (T.faults store.old) (T.faults store.new) }
{
    let stats = all_stats(
        alloc,
        &checked.leaves,
        &snapshot,
        generation,
        counts,
        store,
        cache,
    )?;
    new_search(alloc, snapshot, checked, &stats, most, store, cache)
}

/// A search for the first results over the documents of a snapshot, `most` of them at most, that has passed them all. The
/// statistics are those of the query's leaves, in order of their numbers.
pub fn search_all<T: Store>(
    alloc: Global,
    kind: RuleKind,
    checked: Checked,
    stats: &[LeafStats],
    plugs: &mut [Box<dyn BeliefNode>],
    snapshot: Snapshot,
    most: u32,
    store: &mut T,
    cache: &mut BlockCache,
) -> Result<Search, SegFault>
    requires rule { IsRule kind }
    requires nine { length plugs.old ≡ 9 }
    requires each { length stats.now ≡ length checked.leaves.items }
    requires counted { All (λ s. AreLeafStats s) stats.now }
    ensures searched { IfOk result (HasSearched snapshot (whole_checked checked) stats.now most) }
    ensures taken { AreBacked (T.files store.old) snapshot → IsCacheBacked (T.files store.old) cache.old
        → IfOk result (λ s. IsTaken kind (map (λ plug. meaning plug) plugs.old) (T.files store.old) s) }
    ensures stay { map (λ plug. meaning plug) plugs.new ≡ map (λ plug. meaning plug) plugs.old }
    ensures honest { AreIntact (T.files store.old) snapshot → IsCacheBacked (T.files store.old) cache.old → IfErr result IsOutside }
    ensures undamaged { OnOk result (cache.new.damage ≡ cache.old.damage) }
    ensures damaged { IfErr result (TellsDamage cache.old.damage cache.new.damage) }
    ensures reads { OnlyReads T.files T.layers T.clock T.since T.longest T.held T.faults (IsFileAmong snapshot) store.old store.new cache.old cache.new }
    ensures store { result ≡ Err SegFault.Store → Rose (T.faults store.old) (T.faults store.new) }
{
    let RuleKind::Dirichlet { mu } = kind;
    let rule = Rule::new(
        kind,
        |tf, len, cf, total| -> Fraction
            requires mu { IsMu mu }
            requires counts { AreCounts tf len cf total }
            ensures { ratio_of result ≡ dirichlet mu tf len cf total }
        { dirichlet_fraction(mu, tf, len, cf, total) },
    );
    let live = u64::from(snapshot.live_count());
    let mut search = new_search(alloc, snapshot, checked, stats, most, store, cache)?;
    search.step(alloc, live, &rule, plugs, store, cache)?;
    Ok(search)
}

/// The results of a search that has passed all documents.
pub fn results_of(search: &Search) -> &Hits
    requires usable { search.now.usable ≡ true }
    requires all { (told : Option Files) → search.now.at.credit ≡ length (searched told search.now) }
    ensures answer { (kind : RuleKind) (priors : List Prior) (told : Option Files) → IsTaken kind priors told search.now
        → IsAnswerOf kind priors search.now (searched told search.now) result.now }
    ensures windows { (told : Option Files) → ∥ AreWindows (searched told search.now) (length (network_tree search.now.network).leaves) search.now.most result.now ∥₁ }
{
    match search.results() {
        Some(hits) => hits,
        None => unreachable!(),
    }
}
