// The manifest of what is held.
ghost use Rattle.std.specs.Prelude.{◌≡◌, ◌≤◌, ◌++◌, ◌∷◌, if◌then◌else◌, ◌≢◌, [], Err, Some, IfOk, IfErr, OnOk};
ghost use Rattle.std.specs.List.{All};
ghost use Rattle.std.specs.Option.{option_map};
ghost use Rattle.ri_base.specs.Faults.{IsOutside};
ghost use Rattle.ri_base.specs.Keeps.{Rose};
ghost use Rattle.store_ends.specs.Files.{GoesOn, Leaves, OldOrNew, with_file};
ghost use Rattle.manifest.specs.Listing.{IsListing, listing};
ghost use Rattle.manifest.specs.Spelling.{manifest_text};
ghost use Rattle.repository.specs.Entries.{IsOnDisk, entries_for, entry_for, marked_from};
ghost use Rattle.repository.specs.Names.{manifest_name};

use crate::files::replace_manifest;
use deletion_list::DelList;
use disk_index::{MarkedPart, Part};
use manifest::{PriorEntry, SegEntry, listing_bytes};
use ri_base::{List, NoMemory, SegFault};
use std::alloc::Global;
use store_ends::Store;

/// Notes the id, where it is marked.
fn note(ids: &mut List<u32>, id: u32, is_marked: bool) -> Result<(), NoMemory>
    ensures { OnOk result (ids.new ≡ ids.old ++ (if is_marked then id ∷ [] else [])) }
{
    if is_marked {
        ids.push(id)?;
    }
    Ok(())
}

/// The ids that are marked.
fn marked(alloc: Global, marks: &DelList) -> Result<List<u32>, NoMemory>
    ensures { IfOk result (λ ids. ids ≡ marked_from 0 marks.now) }
{
    let mut ids = List::new(alloc);
    for id in 0..marks.len() {
        note(&mut ids, id, marks.is_marked(id))?;
    }
    Ok(ids)
}

/// The entry of a part on disk.
fn entry_for(alloc: Global, part: &MarkedPart) -> Result<SegEntry, NoMemory>
    requires { IsOnDisk part.now.source }
    ensures { IfOk result (λ entry. entry ≡ entry_for part.now) }
{
    match part.part() {
        Part::Memory(_) => unreachable!(),
        Part::Disk(index) => Ok(SegEntry {
            number: index.number(),
            docs: index.docs(),
            marks: marked(alloc, part.marks())?,
        }),
    }
}

/// Puts an entry behind the others.
fn put_behind(entries: &mut Vec<SegEntry>, entry: SegEntry) -> Result<(), NoMemory>
    ensures { OnOk result (entries.new.items ≡ entries.old.items ++ entry ∷ []) }
{
    entries.push(entry)?;
    Ok(())
}

/// The entries of parts on disk.
fn entries_for(alloc: Global, parts: &[MarkedPart]) -> Result<Vec<SegEntry>, NoMemory>
    requires { All (λ m. IsOnDisk m.source) parts.now }
    ensures { IfOk result (λ entries. entries.items ≡ entries_for parts.now) }
{
    let mut entries = Vec::with_capacity(alloc, parts.len())?;
    for part in parts {
        let entry = entry_for(alloc, part)?;
        put_behind(&mut entries, entry)?;
    }
    Ok(entries)
}

/// Replaces the manifest by the one that lists these parts, which are all on disk, these stale files and these priors.
pub fn list_files<T: Store>(
    alloc: Global,
    store: &mut T,
    next: u64,
    parts: &[MarkedPart],
    stale: &[u64],
    priors: &[PriorEntry],
) -> Result<(), SegFault>
    requires on_disk { All (λ m. IsOnDisk m.source) parts.now }
    requires form { IsListing next (entries_for parts.now) stale.now priors.now }
    ensures done { OnOk result (T.files store.new
        ≡ option_map (with_file manifest_name (Some (manifest_text (listing next (entries_for parts.now) stale.now priors.now)))) (T.files store.old)) }
    ensures changed { OldOrNew manifest_name (Some (manifest_text (listing next (entries_for parts.now) stale.now priors.now))) (T.files store.old) (T.files store.new) }
    ensures stops { Leaves (T.since store.old) (T.since store.new)
        (OldOrNew manifest_name (Some (manifest_text (listing next (entries_for parts.now) stale.now priors.now))) (T.files store.old)) }
    ensures goes_on { GoesOn T.layers T.clock T.longest T.held store.old store.new }
    ensures outside { IfErr result IsOutside }
    ensures later { T.faults store.old ≤ T.faults store.new }
    ensures store { result ≡ Err SegFault.Store → Rose (T.faults store.old) (T.faults store.new) }
    ensures none { result ≢ Err SegFault.Store → T.faults store.new ≡ T.faults store.old }
{
    let entries = entries_for(alloc, parts)?;
    let bytes = listing_bytes(alloc, next, &entries, stale, priors)?;
    replace_manifest(store, bytes.as_slice())
}
