// The segments that a manifest lists, opened.
ghost use Rattle.std.specs.Prelude.{◌≡◌, ◌≤◌, ◌⊎◌, ◌++◌, ◌∷◌, [], List, Some, Err, true, length, set, IfOk, IfErr, OnOk};
ghost use Rattle.std.specs.List.{AllZip};
ghost use Rattle.ri_base.specs.Documents.{Document};
ghost use Rattle.ri_base.specs.Faults.{IsOutside};
ghost use Rattle.ri_base.specs.Keeps.{Rose};
ghost use Rattle.store_ends.specs.Files.{Files, IsQuiet};
ghost use Rattle.disk_index.specs.Opening.{IsOpenFault};
ghost use Rattle.disk_index.specs.Parts.{OnDisk, source_of};
ghost use Rattle.repository.specs.Opening.{AreEntriesHeld, IsAcrossFault, IsEntryFault, IsEntryOpened};
ghost use Rattle.repository.specs.Stands.{AreHeld, Collection, IsListed, marks_from};

use crate::across::across;
use deletion_list::DelList;
use disk_index::{DiskIndex, MarkedPart, Part};
use holdings::{Holdings, Limits};
use manifest::SegEntry;
use ri_base::{NoMemory, SegFault};
use std::alloc::{AllocError, Global};
use std::rc::Rc;
use store_ends::Store;

/// Marks the id, where there is one.
fn mark(marks: &mut DelList, id: u32)
    ensures { marks.new ≡ set marks.old id true }
{
    if id < marks.len() {
        let _ = marks.mark(id);
    }
}

/// So many ids, of which these are marked.
fn marks_of(alloc: Global, count: u32, ids: &[u32]) -> Result<DelList, NoMemory>
    ensures { IfOk result (λ marks. marks ≡ marks_from 0 count ids.now) }
{
    let mut marks = DelList::new(alloc, count)?;
    for id in ids {
        mark(&mut marks, *id);
    }
    Ok(marks)
}

/// The part on disk.
fn shared(alloc: Global, index: DiskIndex) -> Result<Part, NoMemory>
    ensures { IfOk result (λ part. source_of part ≡ OnDisk index) }
{
    let index = Rc::new(alloc, index).map_err(AllocError::from)?;
    Ok(Part::Disk(index))
}

/// The part on disk with the marks of its entry.
fn with_marks(alloc: Global, index: DiskIndex, ids: &[u32]) -> Result<MarkedPart, NoMemory>
    ensures { IfOk result (λ part. part ≡ record { source = OnDisk index; marks = marks_from 0 (length index.outlines) ids.now }) }
{
    let marks = marks_of(alloc, index.docs(), ids)?;
    let part = shared(alloc, index)?;
    Ok(MarkedPart::new(part, marks))
}

/// The part of a segment that a manifest lists.
fn open_entry<T: Store>(
    alloc: Global,
    store: &mut T,
    entry: &SegEntry,
) -> Result<MarkedPart, SegFault>
    ensures opened { IfOk result (IsEntryOpened (T.files store.old) entry.now) }
    ensures honest { (docs : List Document) → IsListed (T.files store.old) entry.now docs → IfErr result IsOutside }
    ensures fault { (f : Files) → T.files store.old ≡ Some f → IfErr result (IsOpenFault f entry.now.number entry.now.docs) }
    ensures quiet { IsQuiet T.files T.layers T.clock T.since T.longest T.held store.old store.new }
    ensures later { T.faults store.old ≤ T.faults store.new }
    ensures store { result ≡ Err SegFault.Store → Rose (T.faults store.old) (T.faults store.new) }
{
    let index = DiskIndex::open(alloc, store, entry.number, entry.docs)?;
    Ok(with_marks(alloc, index, entry.marks.as_slice())?)
}

/// Puts a part behind the others.
fn put_behind(parts: &mut Vec<MarkedPart>, part: MarkedPart) -> Result<(), NoMemory>
    ensures { OnOk result (parts.new.items ≡ parts.old.items ++ part ∷ []) }
{
    parts.push(part)?;
    Ok(())
}

/// The parts of the segments that a manifest lists.
pub fn open_entries<T: Store>(
    alloc: Global,
    store: &mut T,
    entries: &[SegEntry],
) -> Result<Vec<MarkedPart>, SegFault>
    ensures opened { IfOk result (λ parts. AllZip (IsEntryOpened (T.files store.old)) entries.now parts.items) }
    ensures honest { (segments : List (List Document)) → AllZip (IsListed (T.files store.old)) entries.now segments → IfErr result IsOutside }
    ensures fault { (f : Files) → T.files store.old ≡ Some f → IfErr result (λ fault. IsOutside fault ⊎ IsEntryFault f entries.now fault) }
    ensures quiet { IsQuiet T.files T.layers T.clock T.since T.longest T.held store.old store.new }
    ensures later { T.faults store.old ≤ T.faults store.new }
    ensures store { result ≡ Err SegFault.Store → Rose (T.faults store.old) (T.faults store.new) }
{
    let mut parts = Vec::with_capacity(alloc, entries.len())?;
    for entry in entries {
        let part = open_entry(alloc, store, entry)?;
        put_behind(&mut parts, part)?;
    }
    Ok(parts)
}

/// What the segments that a manifest lists hold together.
pub fn hold_entries<T: Store>(
    alloc: Global,
    store: &mut T,
    limits: Limits,
    entries: &[SegEntry],
) -> Result<Holdings, SegFault>
    ensures held { IfOk result (AreEntriesHeld (T.files store.old) limits entries.now) }
    ensures honest { (segments : List (List Document)) (c : Collection) → AllZip (IsListed (T.files store.old)) entries.now segments → AreHeld limits entries.now segments c
        → IfErr result IsOutside }
    ensures fault { (f : Files) → T.files store.old ≡ Some f
        → IfErr result (λ fault. IsOutside fault ⊎ (IsEntryFault f entries.now fault ⊎ IsAcrossFault (T.files store.old) limits entries.now fault)) }
    ensures quiet { IsQuiet T.files T.layers T.clock T.since T.longest T.held store.old store.new }
    ensures later { T.faults store.old ≤ T.faults store.new }
    ensures store { result ≡ Err SegFault.Store → Rose (T.faults store.old) (T.faults store.new) }
{
    let parts = open_entries(alloc, store, entries)?;
    match Holdings::of_parts(alloc, limits, parts) {
        Ok(held) => Ok(held),
        Err(fault) => Err(across(alloc, store, entries, fault)),
    }
}
