// A repository.
ghost use Rattle.std.specs.Prelude.{◌≡◌, ◌≤◌, ◌<◌, ◌⊎◌, ◌↔◌, ◌≢◌, [], ℕ, List, Option, Some, Err, false, true, length, not, slice_index_or, is_some, IfOk, IfErr, IfSome, IsErr, IsSomeAnd, IsTrue, OnErr, OnOk};
ghost use Rattle.std.specs.List.{AllZip, IsDistinct};
ghost use Rattle.std.specs.Str.{bytes_eq};
ghost use Rattle.ri_base.specs.Documents.{Document};
ghost use Rattle.ri_base.specs.Faults.{IsOutside};
ghost use Rattle.ri_base.specs.Keeps.{Rose};
ghost use Rattle.ri_base.specs.declared.limits.TheConstants.{MAX_PRIORS};
ghost use Rattle.store_ends.specs.Files.{Files, GoesOn, IsQuiet};
ghost use Rattle.manifest.specs.Entries.{length_name, with_numbers};
ghost use Rattle.manifest.specs.Fits.{IsManifest};
ghost use Rattle.manifest.specs.declared.manifest.PriorEntry.{PriorEntry};
ghost use Rattle.disk_index.specs.Snapshots as snapshots;
ghost use Rattle.disk_index.specs.Snapshots.{AreBacked, AreIntact};
ghost use Rattle.holdings.specs.Contents.{Answers, added, all_closed, answer, deleted};
ghost use Rattle.holdings.specs.MarkedParts.{docnos_of};
ghost use Rattle.holdings.specs.Parts.{is_live, live, sealed};
ghost use Rattle.repository.specs.Merges.{IsOpenMerging};
ghost use Rattle.repository.specs.Names.{manifest_name};
ghost use Rattle.repository.specs.Numbers.{IsNewNumber};
ghost use Rattle.repository.specs.Opening.{IsAcrossFault, IsEntryFault, IsFresh, IsOpeningFault, IsRepositoryOpened};
ghost use Rattle.repository.specs.Priors.{AreStored, IsPriorFault, is_full, is_same, prior_set, with_prior};
ghost use Rattle.repository.specs.Saved.{IsUnlisted};
ghost use Rattle.repository.specs.Stands.{AreHeld, Collection, IsListed, IsManifestRead, IsPriorRead, Prior, Stands};
ghost use Rattle.repository.specs.States.{IsBacked, IsStateIntact, ReadsAs, kept_numbers, listed_numbers, part_numbers};
ghost use Rattle.repository.specs.Steps.{with_document, with_held, without_docno};
ghost use Rattle.repository.specs.Writes.{AreGone, IsSavedAs, Wrote, Writes};

mod merging;

use crate::listing::list_files;
use crate::numbers::Numbers;
use crate::opening::find_manifest;
use crate::priors::{is_full, list_prior, put_rows, read_rows};
use crate::removal::remove_files;
use crate::saving::save;
use crate::segments::hold_entries;
use crate::stored::are_on_disk;
use disk_index::Snapshot;
use holdings::{AddRefusal, Holdings, Limits, NoSuchDoc};
use manifest::{Manifest, PriorEntry, PriorRows};
use merge_job::MergeJob;
use ri_base::{Doc, Docno, Name, NoMemory, SegFault};
use std::alloc::Global;
use std::marker::Model;
use store_ends::Store;

/// Documents that stay in the files of a store, seen as what is held of them in memory, with the files that the manifest lists.
pub struct Repository {
    held: Holdings,
    next: u64,
    stale: Vec<u64>,
    priors: Vec<PriorEntry>,
    merge: Option<MergeJob>,
    usable: bool,
}

impl Drop for Repository {
    fn drop(self) {
        let Repository {
            held,
            stale,
            priors,
            merge,
            next: _,
            usable: _,
        } = self;
        drop(held);
        drop(stale);
        drop(priors);
        drop(merge);
    }
}

impl Model for Repository {
    ghost use Rattle.std.specs.Prelude.{◌≡◌, true, IfSome};
    ghost use Rattle.repository.specs.States.{IsNumbered, State};
    ghost use Rattle.repository.specs.Ties.{IsTied};

    ghost Value = { State };

    ghost view = { λ r. record { held = r.held; next = r.next; stale = r.stale.items; priors = r.priors.items; merge = r.merge; usable = r.usable } };

    ghost invariant = { λ r. (r.usable ≡ true → IsNumbered (record { held = r.held; next = r.next; stale = r.stale.items; priors = r.priors.items; merge = r.merge; usable = r.usable }))
        × (r.usable ≡ true → IfSome r.merge (IsTied r.held)) };
}

impl Repository {
    /// The repository of the files of a store, or `None` where there is no manifest. Of each segment header, documents and dictionary
    /// are read.
    pub fn open<T: Store>(
        alloc: Global,
        store: &mut T,
        limits: Limits,
    ) -> Result<Option<Repository>, SegFault>
        ensures there { (f : Files) → T.files store.old ≡ Some f → IfOk result (λ found. is_some found ≡ is_some (f manifest_name).read) }

        // Files that stand for a collection are opened as that collection, and never refused.
        ensures reads { (c : Collection) → Stands limits (T.files store.old) c → IfOk result (λ found. IsSomeAnd found (λ r. ReadsAs (T.files store.old) r c)) }
        ensures backed { (c : Collection) → Stands limits (T.files store.old) c → IfOk result (λ found. IsSomeAnd found (λ r. IsBacked (T.files store.old) r)) }
        ensures honest { (c : Collection) → Stands limits (T.files store.old) c → IfErr result IsOutside }

        // Whatever the files are: what is opened was read from them by the grammar, and a fault is that of what was read.
        ensures fresh { IfOk result (λ found. IfSome found (IsFresh limits)) }
        ensures stored { IfOk result (λ found. IfSome found (λ r. AreStored r)) }
        ensures opened { (f : Files) → T.files store.old ≡ Some f → IfOk result (λ found. IfSome found (IsRepositoryOpened (T.files store.old) limits)) }
        ensures fault { (f : Files) → T.files store.old ≡ Some f → IfErr result (IsOpeningFault f limits) }

        ensures quiet { IsQuiet T.files T.layers T.clock T.since T.longest T.held store.old store.new }
        ensures later { T.faults store.old ≤ T.faults store.new }
        ensures store { result ≡ Err SegFault.Store → Rose (T.faults store.old) (T.faults store.new) }
    {
        match find_manifest(alloc, store)? {
            None => Ok(None),
            Some(list) => Ok(Some(of_manifest(alloc, store, limits, list)?)),
        }
    }

    /// Adds a document behind the live ones.
    pub fn add(&mut self, alloc: Global, doc: &Doc) -> Result<(), AddRefusal>
        requires { self.old.usable ≡ true }
        ensures answer { Answers result (answer self.old.held doc.now) }
        ensures added { OnOk result (self.new ≡ with_held self.old (added self.old.held doc.now)) }
        ensures reads { OnOk result ((told : Option Files) (c : Collection) → ReadsAs told self.old c → ReadsAs told self.new (with_document c doc.now)) }
        ensures backed { (told : Option Files) → IsBacked told self.old → IsBacked told self.new }
        ensures intact { (told : Option Files) → IsStateIntact told self.old → IsStateIntact told self.new }
        ensures merging { (told : Option Files) → IsOpenMerging told self.old → IsOpenMerging told self.new }
        ensures kept { OnErr result (self.new ≡ self.old) }
        ensures usable { self.new.usable ≡ self.old.usable }
    {
        self.held.add(alloc, doc)
    }

    /// Takes the document with this docno out of the live ones. The numbers held count it on.
    pub fn delete(&mut self, docno: &Docno) -> Result<(), NoSuchDoc>
        requires { self.old.usable ≡ true }
        ensures refused { IsErr result ↔ (is_live self.old.held.parts docno.now ≡ false) }
        ensures deleted { OnOk result (self.new ≡ with_held self.old (deleted self.old.held docno.now)) }
        ensures reads { OnOk result ((told : Option Files) (c : Collection) → ReadsAs told self.old c → ReadsAs told self.new (without_docno c docno.now)) }
        ensures backed { (told : Option Files) → IsBacked told self.old → IsBacked told self.new }
        ensures intact { (told : Option Files) → IsStateIntact told self.old → IsStateIntact told self.new }
        ensures merging { (told : Option Files) → IsOpenMerging told self.old → IsOpenMerging told self.new }
        ensures kept { OnErr result (self.new ≡ self.old) }
        ensures usable { self.new.usable ≡ self.old.usable }
    {
        self.held.delete(docno)
    }

    /// The live documents as they are now, of which no two have one docno. The part that is being filled is closed first, where it
    /// has documents.
    pub fn snapshot(&mut self, alloc: Global) -> Result<Snapshot, NoMemory>
        requires { self.old.usable ≡ true }
        ensures parts { IfOk result (λ s. s ≡ (sealed self.old.held.parts).closed) }
        ensures documents { (told : Option Files) → IfOk result (λ s. snapshots.live told s ≡ live told self.old.held.parts) }
        ensures distinct { IfOk result (λ s. IsDistinct bytes_eq (docnos_of s)) }

        // Its files are those of the repository, so it is backed where the repository is, by files that the manifest lists.
        ensures numbers { IfOk result (λ s. part_numbers s ≡ part_numbers self.old.held.parts.closed) }
        ensures stored { (told : Option Files) → IsBacked told self.old → IfOk result (λ s. AreBacked told s) }
        ensures stored_intact { (told : Option Files) → IsStateIntact told self.old → IfOk result (λ s. AreIntact told s) }

        ensures closed { OnOk result (self.new ≡ with_held self.old (all_closed self.old.held)) }
        ensures left { OnErr result ((self.new ≡ self.old) ⊎ (self.new ≡ with_held self.old (all_closed self.old.held))) }
        ensures reads { (told : Option Files) (c : Collection) → ReadsAs told self.old c → ReadsAs told self.new c }
        ensures backed { (told : Option Files) → IsBacked told self.old → IsBacked told self.new }
        ensures intact { (told : Option Files) → IsStateIntact told self.old → IsStateIntact told self.new }
        ensures merging { (told : Option Files) → IsOpenMerging told self.old → IsOpenMerging told self.new }
        ensures usable { self.new.usable ≡ self.old.usable }
    {
        self.held.snapshot(alloc)
    }

    /// Writes each part that is in memory alone, and then the manifest with all marks. The live documents stay. After an error it must be
    /// opened again.
    pub fn flush<T: Store>(&mut self, alloc: Global, store: &mut T) -> Result<(), SegFault>
        requires { self.old.usable ≡ true }

        // At each moment the files stand for what they stood for, or for what it reads as; files that are listed stay.
        ensures writes { Writes T.files T.since (IsUnlisted (listed_numbers self.old)) (λ c. c) self.old store.old store.new }

        // It reads as before, and the files stand for just that.
        ensures wrote { OnOk result (Wrote (λ c. c) (T.files store.old) (T.files store.new) self.old self.new) }
        ensures merging { OnOk result (IsOpenMerging (T.files store.old) self.old → IsOpenMerging (T.files store.new) self.new) }
        ensures saved { OnOk result (IsSavedAs self.old self.new self.old.stale) }
        ensures usable { OnOk result (self.new.usable ≡ true) }
        ensures broken { OnErr result (self.new.usable ≡ false) }
        ensures goes_on { GoesOn T.layers T.clock T.longest T.held store.old store.new }
        ensures outside { IfErr result IsOutside }
        ensures later { T.faults store.old ≤ T.faults store.new }
        ensures store { result ≡ Err SegFault.Store → Rose (T.faults store.old) (T.faults store.new) }
        ensures none { result ≢ Err SegFault.Store → T.faults store.new ≡ T.faults store.old }
    {
        self.usable = false;
        let after = save(
            alloc,
            store,
            &mut self.held,
            self.next,
            &self.stale,
            &self.priors,
        )?;
        self.next = after;
        let parts = self.held.closed_parts();
        list_files(alloc, store, after, parts, &self.stale, &self.priors)?;
        self.usable = true;
        Ok(())
    }

    /// Removes the stale files, and then writes what `flush` writes, with a manifest that lists none. A snapshot that reads one of these
    /// files isn't backed any more. After an error it must be opened again.
    pub fn sweep<T: Store>(&mut self, alloc: Global, store: &mut T) -> Result<(), SegFault>
        requires { self.old.usable ≡ true }

        // At each moment the files stand for what they stood for, or for what it reads as; those of segments and priors stay.
        ensures writes { Writes T.files T.since (IsUnlisted (kept_numbers self.old)) (λ c. c) self.old store.old store.new }

        // It reads as before, and the files stand for just that.
        ensures wrote { OnOk result (Wrote (λ c. c) (T.files store.old) (T.files store.new) self.old self.new) }
        ensures merging { OnOk result (IsOpenMerging (T.files store.old) self.old → IsOpenMerging (T.files store.new) self.new) }
        ensures saved { OnOk result (IsSavedAs self.old self.new []) }
        ensures gone { OnOk result (AreGone self.old.stale (T.files store.new)) }
        ensures usable { OnOk result (self.new.usable ≡ true) }
        ensures broken { OnErr result (self.new.usable ≡ false) }
        ensures goes_on { GoesOn T.layers T.clock T.longest T.held store.old store.new }
        ensures outside { IfErr result IsOutside }
        ensures later { T.faults store.old ≤ T.faults store.new }
        ensures store { result ≡ Err SegFault.Store → Rose (T.faults store.old) (T.faults store.new) }
        ensures none { result ≢ Err SegFault.Store → T.faults store.new ≡ T.faults store.old }
    {
        self.usable = false;
        remove_files(store, &self.stale)?;
        let after = save(
            alloc,
            store,
            &mut self.held,
            self.next,
            &self.stale,
            &self.priors,
        )?;
        self.next = after;
        self.stale.clear();
        let parts = self.held.closed_parts();
        list_files(alloc, store, after, parts, &self.stale, &self.priors)?;
        self.usable = true;
        Ok(())
    }

    /// How many documents are live.
    pub fn live_count(&self) -> u64
        ensures { (told : Option Files) → result ≡ length (live told self.now.held.parts) }
    {
        self.held.live_count()
    }

    /// How many documents were added and deleted since it was opened. At 2^64 - 1 it stays.
    pub fn generation(&self) -> u64
        ensures { result ≡ self.now.held.generation }
    {
        self.held.generation()
    }

    /// Its priors, in the order of the manifest.
    pub fn priors(&self) -> &[PriorEntry]
        ensures list { result.now ≡ self.now.priors }
        ensures few { self.now.usable ≡ true → length self.now.priors ≤ MAX_PRIORS }
    {
        &self.priors
    }

    /// The rows of a prior, counted from 0, read from its file.
    pub fn prior_rows<T: Store>(
        &self,
        alloc: Global,
        store: &mut T,
        i: u32,
    ) -> Result<PriorRows, SegFault>
        requires usable { self.now.usable ≡ true }
        requires there { i < length self.now.priors }
        // They are those of the prior at this place, of what the repository reads as and whatever it reads as.
        ensures reads { (c : Collection) (p : Prior) → ReadsAs (T.files store.old) self.now c → p ≡ slice_index_or c.priors i p → IfOk result (λ rows. rows ≡ p.table) }
        ensures rows { (f : Files) (e : PriorEntry) → T.files store.old ≡ Some f → e ≡ slice_index_or self.now.priors i e
            → IfOk result (λ rows. IsPriorRead (T.files store.old) e (record { name = e.name; table = rows })) }
        ensures honest { IsBacked (T.files store.old) self.now → IfErr result IsOutside }
        ensures fault { (f : Files) (e : PriorEntry) → T.files store.old ≡ Some f → e ≡ slice_index_or self.now.priors i e → IfErr result (IsPriorFault f e.number) }
        ensures quiet { IsQuiet T.files T.layers T.clock T.since T.longest T.held store.old store.new }
        ensures later { T.faults store.old ≤ T.faults store.new }
        ensures store { result ≡ Err SegFault.Store → Rose (T.faults store.old) (T.faults store.new) }
        ensures none { result ≢ Err SegFault.Store → T.faults store.new ≡ T.faults store.old }
    {
        let rows = read_rows(alloc, store, self.prior(i))?;
        Ok(rows)
    }

    /// The entry of a prior, counted from 0.
    fn prior(&self, i: u32) -> &PriorEntry
        requires { i < length self.now.priors }
        ensures { result.now ≡ slice_index_or self.now.priors i result.now }
    {
        &self.priors[i as usize]
    }

    /// Whether all documents are in files, as they are once they are flushed.
    #[tactic(auto, using(crate::proofs::StoredLemmas::none_filling, crate::proofs::StoredLemmas::filling_none))]
    pub fn is_stored(&self) -> bool
        ensures yes { IsTrue result → AreStored self.now }
        ensures no { AreStored self.now → IsTrue result }
    {
        !self.held.is_filling() && are_on_disk(self.held.closed_parts())
    }

    /// Makes these the rows of the prior of this name; a new one stands behind the others. They are written as a new file, and then the
    /// manifest is replaced. The answer is false, and nothing changes, where the name is new and there are as many priors as there
    /// may be. All documents are in files, as they are once they are flushed. The name isn't `length`. After an error the repository
    /// must be opened again.
    pub fn set_prior<T: Store>(
        &mut self,
        alloc: Global,
        store: &mut T,
        name: Name,
        rows: &PriorRows,
    ) -> Result<bool, SegFault>
        requires usable { self.old.usable ≡ true }
        requires stored { AreStored self.old }
        requires name { is_same name length_name ≡ false }
        ensures answer { IfOk result (λ done. done ≡ not (is_full self.old.priors name)) }
        ensures refused { IfOk result (λ done. done ≡ false → (self.new ≡ self.old) × IsQuiet T.files T.layers T.clock T.since T.longest T.held store.old store.new) }
        ensures set { IfOk result (λ done. IsTrue done → (n : ℕ) × IsNewNumber self.old.next (with_numbers [] (listed_numbers self.old)) n × (self.new ≡ prior_set self.old name n)) }
        ensures wrote { IfOk result (λ done. IsTrue done → Wrote (λ c. with_prior c name rows.now) (T.files store.old) (T.files store.new) self.old self.new) }
        ensures writes { Writes T.files T.since (IsUnlisted (listed_numbers self.old)) (λ c. with_prior c name rows.now) self.old store.old store.new }
        ensures usable { OnOk result (self.new.usable ≡ true) }
        ensures broken { OnErr result (self.new.usable ≡ false) }
        ensures goes_on { GoesOn T.layers T.clock T.longest T.held store.old store.new }
        ensures outside { IfErr result IsOutside }
        ensures later { T.faults store.old ≤ T.faults store.new }
        ensures store { result ≡ Err SegFault.Store → Rose (T.faults store.old) (T.faults store.new) }
        ensures none { result ≢ Err SegFault.Store → T.faults store.new ≡ T.faults store.old }
    {
        if !self.has_room_for(&name) {
            return Ok(false);
        }
        self.replace_prior(alloc, store, name, rows)?;
        Ok(true)
    }

    /// Whether there is room for a prior of this name: one has the name, or there are fewer priors than there may be.
    pub fn has_room_for(&self, name: &Name) -> bool
        ensures { result ≡ not (is_full self.now.priors name.now) }
    {
        !is_full(&self.priors, name)
    }

    /// The same where there is room for the prior.
    fn replace_prior<T: Store>(
        &mut self,
        alloc: Global,
        store: &mut T,
        name: Name,
        rows: &PriorRows,
    ) -> Result<(), SegFault>
        requires usable { self.old.usable ≡ true }
        requires stored { AreStored self.old }
        requires name { is_same name length_name ≡ false }
        requires room { is_full self.old.priors name ≡ false }
        ensures set { OnOk result ((n : ℕ) × IsNewNumber self.old.next (with_numbers [] (listed_numbers self.old)) n × (self.new ≡ prior_set self.old name n)) }
        ensures wrote { OnOk result (Wrote (λ c. with_prior c name rows.now) (T.files store.old) (T.files store.new) self.old self.new) }
        ensures writes { Writes T.files T.since (IsUnlisted (listed_numbers self.old)) (λ c. with_prior c name rows.now) self.old store.old store.new }
        ensures broken { OnErr result (self.new.usable ≡ false) }
        ensures goes_on { GoesOn T.layers T.clock T.longest T.held store.old store.new }
        ensures outside { IfErr result IsOutside }
        ensures later { T.faults store.old ≤ T.faults store.new }
        ensures store { result ≡ Err SegFault.Store → Rose (T.faults store.old) (T.faults store.new) }
        ensures none { result ≢ Err SegFault.Store → T.faults store.new ≡ T.faults store.old }
    {
        let _form = name.as_bytes();
        let taken = self.taken_numbers(alloc);
        self.usable = false;
        let mut numbers = taken?;
        let number = put_rows(alloc, store, &mut numbers, rows)?;
        list_prior(&mut self.stale, &mut self.priors, name, number)?;
        let after = numbers.next();
        self.next = after;
        let parts = self.held.closed_parts();
        list_files(alloc, store, after, parts, &self.stale, &self.priors)?;
        self.usable = true;
        Ok(())
    }

    /// The numbers that its files take.
    fn taken_numbers(&self, alloc: Global) -> Result<Numbers, NoMemory>
        requires { self.now.usable ≡ true }
        ensures next { IfOk result (λ n. n.next ≡ self.now.next) }
        ensures numbers { IfOk result (λ n. n.numbers ≡ with_numbers [] (listed_numbers self.now)) }
    {
        Numbers::of(
            alloc,
            self.next,
            self.held.closed_parts(),
            &self.stale,
            &self.priors,
        )
    }

    /// Whether it may be used. Where a change of its files failed it must be opened again.
    pub fn usable(&self) -> bool
        ensures { result ≡ self.now.usable }
    {
        self.usable
    }
}

/// The repository of this manifest.
fn of_manifest<T: Store>(
    alloc: Global,
    store: &mut T,
    limits: Limits,
    list: Manifest,
) -> Result<Repository, SegFault>
    requires { IsManifest list }
    ensures fresh { IfOk result (IsFresh limits) }
    ensures stored { IfOk result (λ r. AreStored r) }
    ensures opened { IsManifestRead (T.files store.old) list → IfOk result (IsRepositoryOpened (T.files store.old) limits) }
    ensures honest { (segments : List (List Document)) (c : Collection) → AllZip (IsListed (T.files store.old)) list.segments segments → AreHeld limits list.segments segments c
        → IfErr result IsOutside }
    ensures fault { (f : Files) → T.files store.old ≡ Some f
        → IfErr result (λ fault. IsOutside fault ⊎ (IsEntryFault f list.segments fault ⊎ IsAcrossFault (T.files store.old) limits list.segments fault)) }
    ensures quiet { IsQuiet T.files T.layers T.clock T.since T.longest T.held store.old store.new }
    ensures later { T.faults store.old ≤ T.faults store.new }
    ensures store { result ≡ Err SegFault.Store → Rose (T.faults store.old) (T.faults store.new) }
{
    let Manifest {
        version: _,
        next,
        segments,
        stale,
        priors,
    } = list;
    let held = hold_entries(alloc, store, limits, segments.as_slice())?;
    Ok(Repository {
        held,
        next,
        stale: stale.into_vec(),
        priors: priors.into_vec(),
        merge: None,
        usable: true,
    })
}
