// What explains a result of a search.
ghost use Rattle.std.specs.Prelude.{◌≡◌, ◌<◌, ◌≤◌, ◌-◌, Some, length, slice_get, Err, IfErr, IfOk, OnOk};
ghost use Rattle.ri_base.specs.Collection.{document_at};
ghost use Rattle.ri_base.specs.Documents.{Document};
ghost use Rattle.ri_base.specs.Faults.{IsOutside, TellsDamage};
ghost use Rattle.ri_base.specs.Keeps.{Rose};
ghost use Rattle.query_check.specs.Answers.{whole_checked};
ghost use Rattle.disk_index.specs.Cache.{IsCacheBacked};
ghost use Rattle.disk_index.specs.Parts.{IsFileOf, IsPartBacked, IsPartIntact, reads, size};
ghost use Rattle.disk_index.specs.Snapshots.{AreBacked, AreIntact, IsFileAmong, live};
ghost use Rattle.counts.specs.Reading.{OnlyReads};
ghost use Rattle.ranker.specs.Ranking.{candidate_of};
ghost use Rattle.ranker.specs.Windows.{IsWindowIn};
ghost use Rattle.result_explanation.specs.Explanation.{IsExplanation};
ghost use Rattle.desk.specs.Answer.{document_with};
ghost use Rattle.desk.specs.Places.{IsPlaceIn, document_in};

use crate::places::place_of;
use disk_index::{BlockCache, MarkedPart, PartReader};
use query_check::Checked;
use ranked_output::Explained;
use result_explanation::explain;
use ri_base::{Hit, Hits, LeafStats, Name, NoMemory, SegFault};
use std::alloc::Global;
use store_ends::Store;

/// A copy of the result of that rank, counted from 1, where there are as many.
pub fn hit_of_rank(alloc: Global, hits: &Hits, rank: u32) -> Result<Option<Hit>, NoMemory>
    requires { 1 ≤ rank }
    ensures { IfOk result (λ hit. hit ≡ slice_get hits.now (rank - 1)) }
{
    match hits.as_slice().get(rank as usize - 1) {
        Some(hit) => Ok(Some(hit.clone_in(alloc)?)),
        None => Ok(None),
    }
}

/// Explains a hit in the document of a part with this id.
fn explain_in<T: Store>(
    alloc: Global,
    names: &[Name],
    checked: &Checked,
    stats: &[LeafStats],
    marked: &MarkedPart,
    id: u32,
    rank: u32,
    hit: Hit,
    store: &mut T,
    cache: &mut BlockCache,
) -> Result<Explained, SegFault>
    requires id { id < size marked.now.source }
    requires window { hit.begin < hit.end }
    requires stats { length stats.now ≡ length checked.now.leaves.items }
    requires beliefs { length hit.fractions ≡ length checked.now.leaves.items }
    ensures exact { IsPartBacked (T.files store.old) marked.now.source → IsCacheBacked (T.files store.old) cache.old
        → IfOk result (IsExplanation names.now (whole_checked checked.now) stats.now (document_at (reads (T.files store.old) marked.now.source) id) rank hit) }
    ensures scale { IfOk result (λ explained. explained.scale ≡ checked.now.scale) }
    ensures honest { IsPartIntact (T.files store.old) marked.now.source → IsCacheBacked (T.files store.old) cache.old → IfErr result IsOutside }
    ensures undamaged { OnOk result (cache.new.damage ≡ cache.old.damage) }
    ensures damaged { IfErr result (TellsDamage cache.old.damage cache.new.damage) }
    ensures reads { OnlyReads T.files T.layers T.clock T.since T.longest T.held T.faults (IsFileOf marked.now.source) store.old store.new cache.old cache.new }
    ensures store { result ≡ Err SegFault.Store → Rose (T.faults store.old) (T.faults store.new) }
{
    let mut reader = PartReader::new(marked.part(), store, cache);
    explain(alloc, names, checked, stats, &mut reader, id, rank, hit)
}

/// Explains a hit in the document at this place.
fn explain_at<T: Store>(
    alloc: Global,
    names: &[Name],
    checked: &Checked,
    stats: &[LeafStats],
    parts: &[MarkedPart],
    place: (usize, u32),
    rank: u32,
    hit: Hit,
    store: &mut T,
    cache: &mut BlockCache,
) -> Result<Explained, SegFault>
    requires place { IsPlaceIn parts.now place }
    requires window { hit.begin < hit.end }
    requires stats { length stats.now ≡ length checked.now.leaves.items }
    requires beliefs { length hit.fractions ≡ length checked.now.leaves.items }
    ensures exact { AreBacked (T.files store.old) parts.now → IsCacheBacked (T.files store.old) cache.old
        → IfOk result (IsExplanation names.now (whole_checked checked.now) stats.now (document_in (T.files store.old) parts.now place) rank hit) }
    ensures scale { IfOk result (λ explained. explained.scale ≡ checked.now.scale) }
    ensures honest { AreIntact (T.files store.old) parts.now → IsCacheBacked (T.files store.old) cache.old → IfErr result IsOutside }
    ensures undamaged { OnOk result (cache.new.damage ≡ cache.old.damage) }
    ensures damaged { IfErr result (TellsDamage cache.old.damage cache.new.damage) }
    ensures reads { OnlyReads T.files T.layers T.clock T.since T.longest T.held T.faults (IsFileAmong parts.now) store.old store.new cache.old cache.new }
    ensures store { result ≡ Err SegFault.Store → Rose (T.faults store.old) (T.faults store.new) }
{
    let (number, id) = place;
    let marked = &parts[number];
    explain_in(
        alloc, names, checked, stats, marked, id, rank, hit, store, cache,
    )
}

/// Explains a hit, which is a window of a live document of the parts, in the one with its docno.
pub fn explain_hit<T: Store>(
    alloc: Global,
    names: &[Name],
    checked: &Checked,
    stats: &[LeafStats],
    parts: &[MarkedPart],
    rank: u32,
    hit: Hit,
    store: &mut T,
    cache: &mut BlockCache,
) -> Result<Explained, SegFault>
    requires stats { length stats.now ≡ length checked.now.leaves.items }
    requires hit { ∥ IsWindowIn (live (T.files store.old) parts.now) (length checked.now.leaves.items) (candidate_of hit) ∥₁ }
    ensures exact { AreBacked (T.files store.old) parts.now → IsCacheBacked (T.files store.old) cache.old
        → IfOk result (λ explained. (d : Document) × (document_with hit.docno (live (T.files store.old) parts.now) ≡ Some d)
        × IsExplanation names.now (whole_checked checked.now) stats.now d rank hit explained) }
    ensures scale { IfOk result (λ explained. explained.scale ≡ checked.now.scale) }
    ensures honest { AreIntact (T.files store.old) parts.now → IsCacheBacked (T.files store.old) cache.old → IfErr result IsOutside }
    ensures undamaged { OnOk result (cache.new.damage ≡ cache.old.damage) }
    ensures damaged { IfErr result (TellsDamage cache.old.damage cache.new.damage) }
    ensures reads { OnlyReads T.files T.layers T.clock T.since T.longest T.held T.faults (IsFileAmong parts.now) store.old store.new cache.old cache.new }
    ensures store { result ≡ Err SegFault.Store → Rose (T.faults store.old) (T.faults store.new) }
{
    match place_of(parts, &hit.docno) {
        Some(place) => explain_at(
            alloc, names, checked, stats, parts, place, rank, hit, store, cache,
        ),
        None => unreachable!(),
    }
}
