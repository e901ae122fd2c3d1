// A merge that is done in turns.
ghost use Rattle.std.specs.Prelude.{◌≡◌, ◌≢◌, ◌<◌, ◌≤◌, ◌+◌, ◌↔◌, [], false, Option, Some, Err, length, map, min, IfOk, IfErr, OnOk, MatchResult};
ghost use Rattle.std.specs.List.{AllZip};
ghost use Rattle.ri_base.specs.Faults.{IsOutside, TellsDamage};
ghost use Rattle.ri_base.specs.Keeps.{Rose};
ghost use Rattle.ri_base.specs.declared.limits.TheConstants.{MAX_PART_DOCS};
ghost use Rattle.store_ends.specs.Files.{Files, IsQuiet};
ghost use Rattle.seg_codec.specs.Segment.{entry_of};
ghost use Rattle.disk_index.specs.Cache.{CacheKeeps, IsCacheBacked};
ghost use Rattle.disk_index.specs.Parts.{size};
ghost use Rattle.disk_index.specs.Snapshots.{AreBacked, AreIntact, IsFileAmong, live};
ghost use Rattle.merge_job.specs.Marks.{HaveGrown};
ghost use Rattle.merge_job.specs.Merge.{AreTaken, IsMerged, live_new, size_of, under};
ghost use Rattle.merge_job.specs.Walk.{IsFaultAmong};

use crate::Merged;
use crate::copied::Copied;
use crate::copying::{Place, copy};
use crate::marking::mark_all;
use deletion_list::DelList;
use disk_index::{BlockCache, Snapshot};
use ri_base::{NoMemory, SegFault};
use std::alloc::Global;
use std::marker::Model;
use store_ends::Store;

/// A merge that is done in turns, seen as the snapshot that is copied, the most documents of a new part, and the documents that
/// were copied so far.
pub struct MergeJob {
    snapshot: Snapshot,
    size: u64,
    copied: Copied,
    place: Place,
}

impl Drop for MergeJob {
    fn drop(self) {
        let MergeJob {
            snapshot,
            copied,
            size: _,
            place: _,
        } = self;
        drop(snapshot);
        drop(copied);
    }
}

impl Model for MergeJob {
    ghost use Rattle.merge_job.specs.Merge.{IsJob, Merging};

    ghost Value = { Merging };

    ghost view = { λ j. record { snapshot = j.snapshot; most = j.copied.most; copied = j.copied.docs } };

    ghost invariant = { λ j. IsJob (record { snapshot = j.snapshot; most = j.copied.most; copied = j.copied.docs }) j.size j.place.part j.place.id };
}

impl MergeJob {
    /// A merge of the snapshot's documents into parts of at most so many, of which none is copied yet.
    pub fn start(alloc: Global, snapshot: Snapshot, most: u32) -> Result<MergeJob, NoMemory>
        requires some { 1 ≤ most }
        requires small { most ≤ MAX_PART_DOCS }
        ensures { IfOk result (λ j. j ≡ record { snapshot = snapshot; most = most; copied = [] }) }
    {
        let size = u64::from(snapshot.live_count());
        Ok(MergeJob {
            snapshot,
            size,
            copied: Copied::new(alloc, most)?,
            place: Place { part: 0, id: 0 },
        })
    }

    /// The snapshot that is copied.
    pub fn snapshot(&self) -> &Snapshot
        ensures { result.now ≡ self.now.snapshot }
    {
        &self.snapshot
    }

    /// How many documents are to be copied: those that were live in the snapshot.
    pub fn size(&self) -> u64
        ensures size { result ≡ size_of self.now }
        ensures live { (told : Option Files) → result ≡ length (live told self.now.snapshot) }
    {
        self.size
    }

    /// How many documents were copied.
    pub fn copied(&self) -> u64
        ensures exact { result ≡ length self.now.copied }
        ensures most { result ≤ size_of self.now }
    {
        self.copied.len()
    }

    /// Copies the next documents, so many or all that are left where these are fewer, and answers whether all are copied.
    pub fn turn<T: Store>(
        &mut self,
        alloc: Global,
        docs: u64,
        store: &mut T,
        cache: &mut BlockCache,
    ) -> Result<bool, SegFault>
        ensures all { IfOk result (λ all. (all ≡ false) ↔ (length self.new.copied < size_of self.new)) }
        ensures copied { OnOk result (length self.new.copied ≡ min (length self.old.copied + docs) (size_of self.old)) }
        ensures taken { AreBacked (T.files store.old) self.old.snapshot → IsCacheBacked (T.files store.old) cache.old
            → AreTaken (T.files store.old) self.old → AreTaken (T.files store.new) self.new }
        ensures snapshot { self.new.snapshot ≡ self.old.snapshot }
        ensures most { self.new.most ≡ self.old.most }
        ensures honest { AreIntact (T.files store.old) self.old.snapshot → IsCacheBacked (T.files store.old) cache.old → IfErr result IsOutside }
        ensures fault { (f : Files) → T.files store.old ≡ Some f → IfErr result (IsFaultAmong f cache.old self.old.snapshot) }
        ensures cache { CacheKeeps (T.files store.old) (IsFileAmong self.old.snapshot) cache.old cache.new }
        ensures undamaged { OnOk result (cache.new.damage ≡ cache.old.damage) }
        ensures damaged { IfErr result (TellsDamage cache.old.damage cache.new.damage) }
        ensures quiet { IsQuiet T.files T.layers T.clock T.since T.longest T.held store.old store.new }
        ensures later { T.faults store.old ≤ T.faults store.new }
        ensures store { result ≡ Err SegFault.Store → Rose (T.faults store.old) (T.faults store.new) }
        ensures none { result ≢ Err SegFault.Store → T.faults store.new ≡ T.faults store.old }
    {
        let count = self.copied.len();
        let goal = count + docs.min(self.size - count);
        copy(
            alloc,
            self.snapshot.parts(),
            &mut self.place,
            &mut self.copied,
            goal,
            store,
            cache,
        )?;
        Ok(goal == self.size)
    }

    /// The new parts, with the marks of now: for each part of the snapshot those of its documents. Where memory is wanting, the
    /// job comes back as it was.
    pub fn finish(self, alloc: Global, now: &[DelList]) -> Result<Merged, (MergeJob, NoMemory)>
        requires all { length self.copied ≡ size_of self }
        requires now { AllZip (λ m marks. length marks ≡ size m.source) self.snapshot now.now }
        ensures merged { MatchResult result (λ r. IsMerged self now.now r.parts.items) (λ e. e.0 ≡ self) }

        // Where marks were only set, the new parts read as those of the snapshot do under the marks of now.
        ensures live { (told : Option Files) → AreTaken told self → HaveGrown self.snapshot now.now
            → IfOk result (λ r. live_new r.parts.items ≡ live told (under self.snapshot now.now)) }

        // Without their tokens the documents copied are those of the snapshot, whatever the files are.
        ensures entries { (told : Option Files) → map entry_of self.copied ≡ map entry_of (live told self.snapshot) }
    {
        let MergeJob {
            snapshot,
            size,
            copied,
            place,
        } = self;
        match copied.close(alloc) {
            Ok(mut parts) => {
                mark_all(&mut parts, snapshot.parts(), now);
                Ok(Merged { parts })
            }
            Err((copied, e)) => Err((
                MergeJob {
                    snapshot,
                    size,
                    copied,
                    place,
                },
                e,
            )),
        }
    }
}
