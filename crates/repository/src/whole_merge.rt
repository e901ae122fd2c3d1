// Merges that are run to their end.
ghost use Rattle.std.specs.Prelude.{◌≡◌, ◌≤◌, ◌⊎◌, ◌&&◌, [], Err, None, Some, IsTrue, nat_lt, true, IfErr, IfOk, OnOk};
ghost use Rattle.ri_base.specs.Faults.{IsOutside, TellsDamage};
ghost use Rattle.ri_base.specs.Keeps.{Rose};
ghost use Rattle.store_ends.specs.Files.{Files, GoesOn, IsQuiet};
ghost use Rattle.disk_index.specs.Cache.{IsCacheBacked, nothing_cached};
ghost use Rattle.holdings.specs.Parts.{is_live, live, sealed, without};
ghost use Rattle.merge_job.specs.Merge.{size_of};
ghost use Rattle.merge_job.specs.Walk.{IsFaultAmong};
ghost use Rattle.repository.specs.Merges.{IsMergedTo, merge_begun, merge_of, without_dead};
ghost use Rattle.repository.specs.Saved.{IsUnlisted};
ghost use Rattle.repository.specs.Stands.{Collection};
ghost use Rattle.repository.specs.States.{IsBacked, IsStateIntact, ReadsAs, listed_numbers};
ghost use Rattle.repository.specs.Writes.{Wrote, Writes};

use crate::{Repository, Turned};
use disk_index::BlockCache;
use ri_base::{Docno, SegFault};
use std::alloc::Global;
use std::num::NonZeroUsize;
use store_ends::Store;

/// Merges all live documents in one turn. None of those that were deleted is held then. After an error the repository is to be
/// opened again.
pub fn merge_whole<T: Store>(
    alloc: Global,
    repository: &mut Repository,
    store: &mut T,
) -> Result<(), SegFault>
    requires usable { repository.old.usable ≡ true }
    requires none { repository.old.merge ≡ None }

    // At each moment the files stand for what they stood for, or for what it reads as without the dead; files that are listed stay.
    ensures writes { Writes T.files T.since (IsUnlisted (listed_numbers repository.old)) without_dead repository.old store.old store.new }

    // It reads as before without the dead, and the files stand for just that.
    ensures wrote { OnOk result (Wrote without_dead (T.files store.old) (T.files store.new) repository.old repository.new) }
    ensures merged { OnOk result (IsMergedTo (merge_begun repository.old) repository.new) }
    ensures usable { OnOk result (repository.new.usable ≡ true) }
    ensures goes_on { GoesOn T.layers T.clock T.longest T.held store.old store.new }

    // Only a document that is copied can be refused, by its file alone, since no block is kept from before; and nothing is written then.
    ensures fault { (f : Files) → T.files store.old ≡ Some f → IfErr result (λ fault. IsOutside fault ⊎ IsFaultAmong f nothing_cached (sealed repository.old.held.parts).closed fault) }
    ensures damage { IfErr result (λ fault. IsOutside fault ⊎ IsQuiet T.files T.layers T.clock T.since T.longest T.held store.old store.new) }
    ensures honest { IsStateIntact (T.files store.old) repository.old → IfErr result IsOutside }
    ensures later { T.faults store.old ≤ T.faults store.new }
    ensures store { result ≡ Err SegFault.Store → Rose (T.faults store.old) (T.faults store.new) }
{
    let mut cache = BlockCache::new(alloc, NonZeroUsize::MIN)?;
    let Ok(size) = repository.begin_merge(alloc) else {
        return Err(SegFault::Memory);
    };
    match repository.merge_turn(alloc, size.max(1), store, &mut cache) {
        Ok(Turned::Open { .. }) => unreachable!(),
        Ok(Turned::Done) => Ok(()),
        Err(fault) => Err(fault),
    }
}

/// Merges all live documents in two turns, and deletes a document between them. The answer is false where the merge was done
/// before, or the document isn't live.
pub fn merge_around<T: Store>(
    alloc: Global,
    repository: &mut Repository,
    docno: &Docno,
    docs: u64,
    store: &mut T,
    cache: &mut BlockCache,
) -> Result<bool, SegFault>
    requires usable { repository.old.usable ≡ true }
    requires none { repository.old.merge ≡ None }

    // It is true exactly where the first turn doesn't reach the size, and there is such a live document.
    ensures answer { IfOk result (λ deleted. deleted ≡ (nat_lt docs (size_of (merge_of repository.old)) && is_live (merge_begun repository.old).held.parts docno.now)) }
    ensures live { IfOk result (λ deleted. IsTrue deleted → (d : Collection) → IsBacked (T.files store.old) repository.old → IsCacheBacked (T.files store.old) cache.old
        → ReadsAs (T.files store.old) repository.old d → live (T.files store.new) repository.new.held.parts ≡ without docno.now d.live) }
    ensures undamaged { OnOk result (cache.new.damage ≡ cache.old.damage) }
    ensures damaged { IfErr result (TellsDamage cache.old.damage cache.new.damage) }
{
    let Ok(size) = repository.begin_merge(alloc) else {
        return Err(SegFault::Memory);
    };
    if let Turned::Done = repository.merge_turn(alloc, docs, store, cache)? {
        return Ok(false);
    }
    if repository.delete(docno).is_err() {
        return Ok(false);
    }
    repository.merge_turn(alloc, size.max(1), store, cache)?;
    Ok(true)
}
