// Documents are copied from a place of the snapshot on.
ghost use Rattle.std.specs.Prelude.{◌≡◌, ◌≢◌, ◌<◌, ◌≤◌, ◌+◌, ◌-◌, ◌*◌, ◌/◌, ◌^◌, ◌++◌, Some, Err, length, map, IfOk, IfErr, IfSome, OnOk, OnErr};
ghost use Rattle.ri_base.specs.Collection.{token_count};
ghost use Rattle.ri_base.specs.Faults.{IsOutside, TellsDamage};
ghost use Rattle.ri_base.specs.Keeps.{Rose};
ghost use Rattle.ri_base.specs.declared.limits.TheConstants.{MAX_HELD_TOKENS};
ghost use Rattle.store_ends.specs.Files.{Files, IsQuiet};
ghost use Rattle.seg_codec.specs.Segment.{entry_of};
ghost use Rattle.disk_index.specs.Cache.{AllKept, IsCacheBacked};
ghost use Rattle.disk_index.specs.Parts.{IsPartBacked, IsPartIntact, IsRangeFaultOf, reads, size};
ghost use Rattle.disk_index.specs.Snapshots.{AreBacked, AreIntact};
ghost use Rattle.merge_job.specs.Range.{IsRange, IsRangeNow};
ghost use Rattle.merge_job.specs.Walk.{Grows, GrowsIn, IsFaultAmong, IsFaultOf, entries, rest, rest_in, tokens_of};

use crate::copied::Copied;
use disk_index::{BlockCache, MarkedPart};
use ri_base::{Doc, List, SegFault};
use std::alloc::Global;
use store_ends::Store;

/// The documents of a range of 64 ids of a part, as they were read last.
#[derive(Drop)]
pub(crate) struct Range {
    pub number: u32,
    pub docs: List<Doc>,
}

/// The range of this number. It is read where it isn't the one that was read last.
fn read<T: Store>(
    alloc: Global,
    marked: &MarkedPart,
    number: u32,
    last: Option<Range>,
    store: &mut T,
    cache: &mut BlockCache,
) -> Result<Range, SegFault>
    requires within { 64 * number < size marked.now.source }
    requires last { IfSome last (IsRange marked.now.source) }
    ensures number { IfOk result (λ r. r.number ≡ number) }
    ensures range { IfOk result (IsRange marked.now.source) }
    ensures exact { IsPartBacked (T.files store.old) marked.now.source → IsCacheBacked (T.files store.old) cache.old
        → IfSome last (IsRangeNow (T.files store.old) marked.now.source) → IfOk result (IsRangeNow (T.files store.old) marked.now.source) }
    ensures honest { IsPartIntact (T.files store.old) marked.now.source → IsCacheBacked (T.files store.old) cache.old → IfErr result IsOutside }
    ensures fault { (f : Files) → T.files store.old ≡ Some f → IfErr result (IsRangeFaultOf f cache.old marked.now.source number) }
    ensures cache { AllKept cache.old cache.new }
    ensures undamaged { OnOk result (cache.new.damage ≡ cache.old.damage) }
    ensures damaged { IfErr result (TellsDamage cache.old.damage cache.new.damage) }
    ensures quiet { IsQuiet T.files T.layers T.clock T.since T.longest T.held store.old store.new }
    ensures later { T.faults store.old ≤ T.faults store.new }
    ensures store { result ≡ Err SegFault.Store → Rose (T.faults store.old) (T.faults store.new) }
    ensures none { result ≢ Err SegFault.Store → T.faults store.new ≡ T.faults store.old }
{
    if let Some(range) = last {
        if range.number == number {
            return Ok(range);
        }
    }
    let docs = marked.part().documents(alloc, store, cache, number)?;
    Ok(Range { number, docs })
}

/// Copies the document with this id, unless it is marked.
fn copy_one<T: Store>(
    alloc: Global,
    marked: &MarkedPart,
    id: u32,
    last: &mut Option<Range>,
    copied: &mut Copied,
    store: &mut T,
    cache: &mut BlockCache,
) -> Result<(), SegFault>
    requires whole { length marked.now.marks ≡ size marked.now.source }
    requires within { id < size marked.now.source }
    requires last { IfSome last.old (IsRange marked.now.source) }
    requires room { length copied.old.docs < 2 ^ 64 - 1 }
    requires tokens { token_count copied.old.docs + tokens_of (rest_in entries marked.now id) ≤ MAX_HELD_TOKENS }
    ensures entries { OnOk result (GrowsIn entries marked.now (map entry_of copied.old.docs) id (map entry_of copied.new.docs) (id + 1)) }
    ensures range { OnOk result (IfSome last.new (IsRange marked.now.source)) }
    ensures exact { OnOk result (IsPartBacked (T.files store.old) marked.now.source → IsCacheBacked (T.files store.old) cache.old
        → IfSome last.old (IsRangeNow (T.files store.old) marked.now.source)
        → GrowsIn (reads (T.files store.old)) marked.now copied.old.docs id copied.new.docs (id + 1)) }
    ensures range_now { OnOk result (IsPartBacked (T.files store.old) marked.now.source → IsCacheBacked (T.files store.old) cache.old
        → IfSome last.old (IsRangeNow (T.files store.old) marked.now.source) → IfSome last.new (IsRangeNow (T.files store.old) marked.now.source)) }
    ensures count { length copied.new.docs ≤ length copied.old.docs + 1 }
    ensures kept { OnErr result (copied.new ≡ copied.old) }
    ensures most { copied.new.most ≡ copied.old.most }
    ensures honest { IsPartIntact (T.files store.old) marked.now.source → IsCacheBacked (T.files store.old) cache.old → IfErr result IsOutside }
    ensures fault { (f : Files) → T.files store.old ≡ Some f → IfErr result (IsRangeFaultOf f cache.old marked.now.source (id / 64)) }
    ensures cache { AllKept cache.old cache.new }
    ensures undamaged { OnOk result (cache.new.damage ≡ cache.old.damage) }
    ensures damaged { IfErr result (TellsDamage cache.old.damage cache.new.damage) }
    ensures quiet { IsQuiet T.files T.layers T.clock T.since T.longest T.held store.old store.new }
    ensures later { T.faults store.old ≤ T.faults store.new }
    ensures store { result ≡ Err SegFault.Store → Rose (T.faults store.old) (T.faults store.new) }
    ensures none { result ≢ Err SegFault.Store → T.faults store.new ≡ T.faults store.old }
{
    if marked.is_marked(id) {
        return Ok(());
    }
    let range = read(alloc, marked, id / 64, last.take(), store, cache)?;
    copied.put(alloc, &range.docs.as_slice()[(id % 64) as usize])?;
    *last = Some(range);
    Ok(())
}

/// Copies documents of a part from an id on, as long as fewer than `goal` are copied.
fn copy_part<T: Store>(
    alloc: Global,
    marked: &MarkedPart,
    id: &mut u32,
    copied: &mut Copied,
    goal: u64,
    store: &mut T,
    cache: &mut BlockCache,
) -> Result<(), SegFault>
    requires goal { length copied.old.docs ≤ goal }
    requires tokens { token_count copied.old.docs + tokens_of (rest_in entries marked.now id.old) ≤ MAX_HELD_TOKENS }
    ensures entries { GrowsIn entries marked.now (map entry_of copied.old.docs) id.old (map entry_of copied.new.docs) id.new }
    ensures exact { IsPartBacked (T.files store.old) marked.now.source → IsCacheBacked (T.files store.old) cache.old
        → GrowsIn (reads (T.files store.old)) marked.now copied.old.docs id.old copied.new.docs id.new }
    ensures goal { length copied.new.docs ≤ goal }
    ensures done { OnOk result (length copied.new.docs < goal → size marked.now.source ≤ id.new) }
    ensures most { copied.new.most ≡ copied.old.most }
    ensures honest { IsPartIntact (T.files store.old) marked.now.source → IsCacheBacked (T.files store.old) cache.old → IfErr result IsOutside }
    ensures fault { (f : Files) → T.files store.old ≡ Some f → IfErr result (IsFaultOf f cache.old marked.now.source) }
    ensures cache { AllKept cache.old cache.new }
    ensures undamaged { OnOk result (cache.new.damage ≡ cache.old.damage) }
    ensures damaged { IfErr result (TellsDamage cache.old.damage cache.new.damage) }
    ensures quiet { IsQuiet T.files T.layers T.clock T.since T.longest T.held store.old store.new }
    ensures later { T.faults store.old ≤ T.faults store.new }
    ensures store { result ≡ Err SegFault.Store → Rose (T.faults store.old) (T.faults store.new) }
    ensures none { result ≢ Err SegFault.Store → T.faults store.new ≡ T.faults store.old }
{
    let mut last = None;
    for i in *id..marked.marks().len() {
        if copied.len() == goal {
            return Ok(());
        }
        copy_one(alloc, marked, i, &mut last, copied, store, cache)?;
        *id = i + 1;
    }
    Ok(())
}

/// A place in parts: a part, counted from 0, and an id in it.
#[derive(Drop)]
pub(crate) struct Place {
    pub part: usize,
    pub id: u32,
}

/// Copies documents of the parts from a place on, until `goal` are copied.
pub(crate) fn copy<T: Store>(
    alloc: Global,
    parts: &[MarkedPart],
    place: &mut Place,
    copied: &mut Copied,
    goal: u64,
    store: &mut T,
    cache: &mut BlockCache,
) -> Result<(), SegFault>
    requires goal { length copied.old.docs ≤ goal }
    requires enough { goal ≤ length copied.old.docs + length (rest entries parts.now place.old.part place.old.id) }
    requires tokens { token_count copied.old.docs + tokens_of (rest entries parts.now place.old.part place.old.id) ≤ MAX_HELD_TOKENS }
    ensures entries { Grows entries parts.now (map entry_of copied.old.docs) place.old.part place.old.id
        (map entry_of copied.new.docs) place.new.part place.new.id }
    ensures exact { AreBacked (T.files store.old) parts.now → IsCacheBacked (T.files store.old) cache.old
        → Grows (reads (T.files store.old)) parts.now copied.old.docs place.old.part place.old.id copied.new.docs place.new.part place.new.id }
    ensures done { OnOk result (length copied.new.docs ≡ goal) }
    ensures most { copied.new.most ≡ copied.old.most }
    ensures honest { AreIntact (T.files store.old) parts.now → IsCacheBacked (T.files store.old) cache.old → IfErr result IsOutside }
    ensures fault { (f : Files) → T.files store.old ≡ Some f → IfErr result (IsFaultAmong f cache.old parts.now) }
    ensures cache { AllKept cache.old cache.new }
    ensures undamaged { OnOk result (cache.new.damage ≡ cache.old.damage) }
    ensures damaged { IfErr result (TellsDamage cache.old.damage cache.new.damage) }
    ensures quiet { IsQuiet T.files T.layers T.clock T.since T.longest T.held store.old store.new }
    ensures later { T.faults store.old ≤ T.faults store.new }
    ensures store { result ≡ Err SegFault.Store → Rose (T.faults store.old) (T.faults store.new) }
    ensures none { result ≢ Err SegFault.Store → T.faults store.new ≡ T.faults store.old }
{
    for number in place.part..parts.len() {
        let id = &mut place.id;
        copy_part(alloc, &parts[number], id, copied, goal, store, cache)?;
        if copied.len() == goal {
            return Ok(());
        }
        place.part = number + 1;
        place.id = 0;
    }
    Ok(())
}
