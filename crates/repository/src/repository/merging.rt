// A merge that is open.
ghost use Rattle.std.specs.Prelude.{◌≡◌, ◌≤◌, ◌<◌, ◌+◌, ◌⊎◌, ◌↔◌, ◌≢◌, ℕ, List, Option, None, Some, Err, true, false, is_some, length, IfErr, IfOk, IfSome, OnErr, OnOk};
ghost use Rattle.ri_base.specs.Faults.{IsOutside, TellsDamage};
ghost use Rattle.ri_base.specs.Keeps.{Rose};
ghost use Rattle.store_ends.specs.Files.{Files, GoesOn, IsQuiet, Leaves, SameWhere};
ghost use Rattle.disk_index.specs.Cache.{CacheKeeps, IsCacheBacked};
ghost use Rattle.disk_index.specs.Snapshots.{AreBacked, AreIntact, IsFileAmong, Marked};
ghost use Rattle.holdings.specs.Contents.{all_closed};
ghost use Rattle.holdings.specs.Parts.{live};
ghost use Rattle.merge_job.specs.Merge.{size_of};
ghost use Rattle.merge_job.specs.Walk.{IsFaultAmong};
ghost use Rattle.repository.specs.Merges.{AreListed, IsMergeEnded, IsMerging, IsOpenMerging, IsTurnedOver, IsTurnedTo, StaysBacked, merge_begun, merge_of, turned, with_merge, without_dead_of};
ghost use Rattle.repository.specs.Saved.{IsUnlisted};
ghost use Rattle.repository.specs.Stands.{Collection, Stands};
ghost use Rattle.repository.specs.States.{IsBacked, IsNumbered, IsStateIntact, ReadsAs, listed_numbers};
ghost use Rattle.repository.specs.Steps.{with_held};
ghost use Rattle.repository.specs.Ties.{IsTied};
ghost use Rattle.repository.specs.Writes.{IsBeside, IsEither};

use super::Repository;
use crate::exchange::{exchange, note_parts};
use crate::listing::list_files;
use crate::saving::save;
use crate::{MergeRefusal, Turned};
use disk_index::BlockCache;
use merge_job::MergeJob;
use ri_base::SegFault;
use std::alloc::Global;
use store_ends::Store;

impl Repository {
    /// Opens a merge of the live documents of now, and answers how many they are. The part that is being filled is closed first,
    /// where it has documents.
    pub fn begin_merge(&mut self, alloc: Global) -> Result<u64, MergeRefusal>
        requires { self.old.usable ≡ true }
        ensures refused { (result ≡ Err MergeRefusal.MergeOpen) ↔ (is_some self.old.merge ≡ true) }
        ensures size { IfOk result (λ size. size ≡ size_of (merge_of self.old)) }
        ensures live { (told : Option Files) → IfOk result (λ size. size ≡ length (live told self.old.held.parts)) }
        ensures begun { OnOk result (self.new ≡ merge_begun self.old) }

        // Over files by which it is backed it gives the condition under which the merge leaves the live documents as they are.
        ensures merging { OnOk result ((told : Option Files) → IsBacked told self.old → IsOpenMerging told self.new) }
        ensures left { OnErr result ((self.new ≡ self.old) ⊎ (self.new ≡ with_held self.old (all_closed self.old.held))) }
        ensures reads { (told : Option Files) (c : Collection) → ReadsAs told self.old c → ReadsAs told self.new c }
        ensures backed { (told : Option Files) → IsBacked told self.old → IsBacked told self.new }
        ensures intact { (told : Option Files) → IsStateIntact told self.old → IsStateIntact told self.new }
        ensures usable { self.new.usable ≡ self.old.usable }
    {
        if self.merge.is_some() {
            return Err(MergeRefusal::MergeOpen);
        }
        let snapshot = self.held.snapshot(alloc)?;
        let job = MergeJob::start(alloc, snapshot, self.held.limits().part_docs)?;
        let size = job.size();
        self.merge = Some(job);
        Ok(size)
    }

    /// Whether a merge is open.
    pub fn merge_open(&self) -> bool
        ensures { result ≡ is_some self.now.merge }
    {
        self.merge.is_some()
    }

    /// Gives an open merge up.
    pub fn drop_merge(&mut self)
        requires { self.old.usable ≡ true }
        ensures { self.new ≡ with_merge self.old None }
    {
        self.merge = None;
    }

    /// Copies the next documents of the open merge. Where all are copied, the merge is committed: what is in memory alone is written
    /// too, the files of the merged parts become stale, and the dead of the start are no longer held. After an error the repository
    /// must be opened again.
    pub fn merge_turn<T: Store>(
        &mut self,
        alloc: Global,
        docs: u64,
        store: &mut T,
        cache: &mut BlockCache,
    ) -> Result<Turned, SegFault>
        requires usable { self.old.usable ≡ true }
        requires open { is_some self.old.merge ≡ true }
        ensures turned { IfOk result (λ t. IfSome self.old.merge (λ m. t ≡ turned m docs)) }
        ensures state { IfOk result (λ t. IsTurnedTo t docs self.old self.new) }

        // Under the condition of an open merge the live documents stay, and the condition holds on.
        ensures over { IfOk result (λ t. IsOpenMerging (T.files store.old) self.old → IsCacheBacked (T.files store.old) cache.old
            → IsTurnedOver t self.old.merge (T.files store.old) (T.files store.new) self.old self.new) }

        // At each moment the files stand for what they stood for, or for what it reads as once the merge is done; files that are
        // listed stay.
        ensures stay { SameWhere (IsBeside (IsUnlisted (listed_numbers self.old))) (T.files store.old) (T.files store.new) }
        ensures stay_on { Leaves (T.since store.old) (T.since store.new) (SameWhere (IsBeside (IsUnlisted (listed_numbers self.old))) (T.files store.old)) }

        // So a snapshot of listed files stays backed, and reads as before.
        ensures snapshots { (parts : List Marked) → AreListed self.old parts → AreBacked (T.files store.old) parts → StaysBacked (T.files store.old) (T.files store.new) parts }
        ensures stops { (c d : Collection) → IsOpenMerging (T.files store.old) self.old → IsCacheBacked (T.files store.old) cache.old
            → Stands self.old.held.limits (T.files store.old) c → ReadsAs (T.files store.old) self.old d
            → Leaves (T.since store.old) (T.since store.new) (IsEither self.old.held.limits c (without_dead_of self.old.merge d)) }

        // Below the size nothing of the store changes but its count, whatever is answered.
        ensures quiet { IfSome self.old.merge (λ m. length m.copied + docs < size_of m
            → IsQuiet T.files T.layers T.clock T.since T.longest T.held store.old store.new) }
        ensures cache { IfSome self.old.merge (λ m. CacheKeeps (T.files store.old) (IsFileAmong m.snapshot) cache.old cache.new) }
        ensures goes_on { GoesOn T.layers T.clock T.longest T.held store.old store.new }
        ensures usable { OnOk result (self.new.usable ≡ true) }
        ensures broken { OnErr result (self.new.usable ≡ false) }

        // Only a document that is copied can be refused by its file, and nothing is written then.
        ensures fault { (f : Files) → T.files store.old ≡ Some f → IfSome self.old.merge (λ m. IfErr result (λ fault. IsOutside fault ⊎ IsFaultAmong f cache.old m.snapshot fault)) }
        ensures damage { IfErr result (λ fault. IsOutside fault ⊎ IsQuiet T.files T.layers T.clock T.since T.longest T.held store.old store.new) }

        // None is, where the files of the snapshot's parts are read as they were put. They are among those of the parts that are held.
        ensures honest { IfSome self.old.merge (λ m. AreIntact (T.files store.old) m.snapshot) → IsCacheBacked (T.files store.old) cache.old → IfErr result IsOutside }
        ensures honest_held { IsStateIntact (T.files store.old) self.old → IsCacheBacked (T.files store.old) cache.old → IfErr result IsOutside }

        ensures undamaged { OnOk result (cache.new.damage ≡ cache.old.damage) }
        ensures damaged { IfErr result (TellsDamage cache.old.damage cache.new.damage) }
        ensures later { T.faults store.old ≤ T.faults store.new }
        ensures store { result ≡ Err SegFault.Store → Rose (T.faults store.old) (T.faults store.new) }
    {
        let mut job = self.take_merge();
        match job.turn(alloc, docs, store, cache) {
            Err(fault) => {
                self.break_off();
                Err(fault)
            }
            Ok(false) => {
                let credit = job.copied();
                let size = job.size();
                self.put_merge(job);
                Ok(Turned::Open { credit, size })
            }
            Ok(true) => {
                self.end_merge(alloc, job, store)?;
                Ok(Turned::Done)
            }
        }
    }

    /// Takes the open merge out.
    fn take_merge(&mut self) -> MergeJob
        requires usable { self.old.usable ≡ true }
        requires open { is_some self.old.merge ≡ true }
        ensures taken { self.old.merge ≡ Some result }
        ensures numbered { IsNumbered self.old }
        ensures rest { self.new ≡ with_merge self.old None }
        ensures tied { IsTied self.old.held result }
    {
        match self.merge.take() {
            None => unreachable!(),
            Some(job) => job,
        }
    }

    /// Puts a merge back that was taken out.
    fn put_merge(&mut self, job: MergeJob)
        requires usable { self.old.usable ≡ true }
        requires tied { IsTied self.old.held job }
        ensures { self.new ≡ with_merge self.old (Some job) }
    {
        self.merge = Some(job);
    }

    /// It can't be used any more.
    fn break_off(&mut self)
        ensures { self.new.usable ≡ false }
    {
        self.usable = false;
    }

    /// Puts the parts of a merge that was taken out in the place of those of its snapshot, and commits: the numbers of the files of
    /// these become stale.
    fn end_merge<T: Store>(
        &mut self,
        alloc: Global,
        job: MergeJob,
        store: &mut T,
    ) -> Result<(), SegFault>
        requires usable { self.old.usable ≡ true }
        requires none { self.old.merge ≡ None }
        requires all { length job.copied ≡ size_of job }
        requires tied { IsTied self.old.held job }
        ensures state { OnOk result (IsMergeEnded job self.old self.new) }
        ensures over { OnOk result (IsMerging (T.files store.old) self.old job → IsTurnedOver Turned.Done (Some job) (T.files store.old) (T.files store.new) self.old self.new) }
        ensures stay { SameWhere (IsBeside (IsUnlisted (listed_numbers self.old))) (T.files store.old) (T.files store.new) }
        ensures stay_on { Leaves (T.since store.old) (T.since store.new) (SameWhere (IsBeside (IsUnlisted (listed_numbers self.old))) (T.files store.old)) }
        ensures stops { (c d : Collection) → IsMerging (T.files store.old) self.old job → Stands self.old.held.limits (T.files store.old) c → ReadsAs (T.files store.old) self.old d
            → Leaves (T.since store.old) (T.since store.new) (IsEither self.old.held.limits c (without_dead_of (Some job) d)) }
        ensures goes_on { GoesOn T.layers T.clock T.longest T.held store.old store.new }
        ensures usable { OnOk result (self.new.usable ≡ true) }
        ensures broken { OnErr result (self.new.usable ≡ false) }
        ensures outside { IfErr result IsOutside }
        ensures later { T.faults store.old ≤ T.faults store.new }
        ensures store { result ≡ Err SegFault.Store → Rose (T.faults store.old) (T.faults store.new) }
        ensures none { result ≢ Err SegFault.Store → T.faults store.new ≡ T.faults store.old }
    {
        self.usable = false;
        let count = job.snapshot().parts().len();
        let (first, _) = self.held.closed_parts().split_at(count);
        note_parts(&mut self.stale, first)?;
        exchange(alloc, &mut self.held, job)?;
        let after = save(
            alloc,
            store,
            &mut self.held,
            self.next,
            &self.stale,
            &self.priors,
        )?;
        self.next = after;
        let parts = self.held.closed_parts();
        list_files(alloc, store, after, parts, &self.stale, &self.priors)?;
        self.usable = true;
        Ok(())
    }
}
