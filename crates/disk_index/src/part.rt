// Parts of the collection, in memory or in a file.
ghost use Rattle.std.specs.Prelude.{◌≡◌, ◌≢◌, ◌<◌, ◌≤◌, ◌*◌, Option, Some, length, map, Err, IfOk, IfErr, OnOk};
ghost use Rattle.std.specs.List.{All};
ghost use Rattle.std.specs.List.Sorted.{IsStrictlyIncreasing};
ghost use Rattle.ri_base.specs.Collection.{document_at};
ghost use Rattle.ri_base.specs.Documents.{IsDocument};
ghost use Rattle.ri_base.specs.Faults.{IsOutside, TellsDamage};
ghost use Rattle.ri_base.specs.Keeps.{Rose};
ghost use Rattle.ri_base.specs.Places.{places};
ghost use Rattle.ri_base.specs.declared.limits.TheConstants.{MAX_DOC_TOKENS};
ghost use Rattle.store_ends.specs.Files.{Files, IsQuiet};
ghost use Rattle.seg_codec.specs.Segment.{entry_of};
ghost use Rattle.disk_index.specs.Blocks.{of_range};
ghost use Rattle.disk_index.specs.Cache.{AllKept, CacheKeeps, IsCacheBacked};
ghost use Rattle.disk_index.specs.Parts.{ArePlacesOf, AreRangeOf, IsFileOf, IsPartBacked, IsPartFault, IsPartIntact, IsRangeFaultOf, reads, size, source_of};

use crate::{BlockCache, DiskIndex};
use ri_base::{Doc, Docno, FieldSpan, List, NoMemory, Positions, Postings, Sealed, SegFault, Term};
use std::alloc::Global;
use std::rc::Rc;
use store_ends::Store;

/// A part of the collection. It is shared: another reader of it copies nothing.
#[derive(Drop)]
pub enum Part {
    Memory(Rc<Sealed>),
    Disk(Rc<DiskIndex>),
}

impl Part {
    /// The same part once more; none of it is copied.
    pub fn share(&self) -> Result<Part, NoMemory>
        ensures { IfOk result (λ part. source_of part ≡ source_of self.now) }
    {
        match self {
            Part::Memory(sealed) => Ok(Part::Memory(sealed.clone()?)),
            Part::Disk(index) => Ok(Part::Disk(index.clone()?)),
        }
    }

    /// How many documents there are.
    pub fn docs(&self) -> u32
        ensures size { result ≡ size (source_of self.now) }
        ensures documents { (told : Option Files) → result ≡ length (reads told (source_of self.now)) }
    {
        match self {
            Part::Memory(sealed) => sealed.docs(),
            Part::Disk(index) => index.docs(),
        }
    }

    pub fn docno(&self, id: u32) -> &Docno
        requires { id < size (source_of self.now) }
        ensures { (told : Option Files) → result.now ≡ (document_at (reads told (source_of self.now)) id).docno }
    {
        match self {
            Part::Memory(sealed) => sealed.docno(id),
            Part::Disk(index) => index.docno(id),
        }
    }

    /// How many tokens the document has.
    pub fn length(&self, id: u32) -> u32
        requires { id < size (source_of self.now) }
        ensures exact { (told : Option Files) → result ≡ length (document_at (reads told (source_of self.now)) id).tokens }
        ensures most { result ≤ MAX_DOC_TOKENS }
    {
        match self {
            Part::Memory(sealed) => sealed.length(id),
            Part::Disk(index) => index.length(id),
        }
    }

    /// The fields of the document, by begin, end and name.
    pub fn spans(&self, id: u32) -> &[FieldSpan]
        requires { id < size (source_of self.now) }
        ensures exact { (told : Option Files) → result.now ≡ (document_at (reads told (source_of self.now)) id).fields }
        ensures form { (told : Option Files) → IsDocument (document_at (reads told (source_of self.now)) id).tokens result.now }
    {
        match self {
            Part::Memory(sealed) => sealed.spans(id),
            Part::Disk(index) => index.spans(id),
        }
    }

    /// The places of the term in the document, in order.
    pub fn positions<T: Store>(
        &self,
        alloc: Global,
        store: &mut T,
        cache: &mut BlockCache,
        term: &Term,
        id: u32,
    ) -> Result<Positions, SegFault>
        requires { id < size (source_of self.now) }
        ensures exact { IsPartBacked (T.files store.old) (source_of self.now) → IsCacheBacked (T.files store.old) cache.old
            → IfOk result (λ ps. ps ≡ places term.now (document_at (reads (T.files store.old) (source_of self.now)) id)) }
        ensures honest { IsPartIntact (T.files store.old) (source_of self.now) → IsCacheBacked (T.files store.old) cache.old
            → IfErr result IsOutside }

        // On disk they are those of a block that was kept or read, so no malformed one is passed by.
        ensures told { IfOk result (ArePlacesOf (T.files store.old) cache.old (source_of self.now) term.now id) }

        ensures rising { IfOk result IsStrictlyIncreasing }
        ensures below { IfOk result (All (λ p. p < length (document_at (reads (T.files store.old) (source_of self.now)) id).tokens)) }
        ensures fault { (f : Files) → T.files store.old ≡ Some f → IfErr result (IsPartFault f cache.old (source_of self.now) term.now id) }
        ensures cache { CacheKeeps (T.files store.old) (IsFileOf (source_of self.now)) cache.old cache.new }
        ensures undamaged { OnOk result (cache.new.damage ≡ cache.old.damage) }
        ensures damaged { IfErr result (TellsDamage cache.old.damage cache.new.damage) }
        ensures quiet { IsQuiet T.files T.layers T.clock T.since T.longest T.held store.old store.new }
        ensures later { T.faults store.old ≤ T.faults store.new }
        ensures store { result ≡ Err SegFault.Store → Rose (T.faults store.old) (T.faults store.new) }
        ensures none { result ≢ Err SegFault.Store → T.faults store.new ≡ T.faults store.old }
    {
        match self {
            Part::Memory(sealed) => in_memory(alloc, sealed, term, id),
            Part::Disk(index) => index.positions(alloc, store, cache, term, id),
        }
    }

    /// The documents with the ids from `64 * range` on, 64 at most, each whole.
    pub fn documents<T: Store>(
        &self,
        alloc: Global,
        store: &mut T,
        cache: &mut BlockCache,
        range: u32,
    ) -> Result<List<Doc>, SegFault>
        requires { 64 * range < size (source_of self.now) }
        ensures exact { IsPartBacked (T.files store.old) (source_of self.now) → IsCacheBacked (T.files store.old) cache.old
            → IfOk result (λ ds. ds ≡ of_range range (reads (T.files store.old) (source_of self.now))) }
        ensures honest { IsPartIntact (T.files store.old) (source_of self.now) → IsCacheBacked (T.files store.old) cache.old
            → IfErr result IsOutside }

        // Without their tokens they are those of the part, whatever the file has.
        ensures kept { IfOk result (λ ds. map entry_of ds ≡ map entry_of (of_range range (reads (T.files store.old) (source_of self.now)))) }

        // On disk they are what the blocks of the range tell, so no malformed one is passed by.
        ensures told { IfOk result (AreRangeOf (T.files store.old) cache.old (source_of self.now) range) }

        ensures fault { (f : Files) → T.files store.old ≡ Some f → IfErr result (IsRangeFaultOf f cache.old (source_of self.now) range) }
        ensures cache { AllKept cache.old cache.new }
        ensures undamaged { OnOk result (cache.new.damage ≡ cache.old.damage) }
        ensures damaged { IfErr result (TellsDamage cache.old.damage cache.new.damage) }
        ensures quiet { IsQuiet T.files T.layers T.clock T.since T.longest T.held store.old store.new }
        ensures later { T.faults store.old ≤ T.faults store.new }
        ensures store { result ≡ Err SegFault.Store → Rose (T.faults store.old) (T.faults store.new) }
        ensures none { result ≢ Err SegFault.Store → T.faults store.new ≡ T.faults store.old }
    {
        match self {
            Part::Memory(sealed) => documents_in_memory(alloc, sealed, range),
            Part::Disk(index) => index.documents(alloc, store, cache, range),
        }
    }
}

fn in_memory(alloc: Global, sealed: &Sealed, term: &Term, id: u32) -> Result<Positions, SegFault>
    requires { id < length sealed.now }
    ensures exact { IfOk result (λ ps. ps ≡ places term.now (document_at sealed.now id)) }
    ensures rising { IfOk result IsStrictlyIncreasing }
    ensures below { IfOk result (All (λ p. p < length (document_at sealed.now id).tokens)) }
    ensures honest { IfErr result IsOutside }
    ensures store { result ≡ Err SegFault.Store → ⊥ }
{
    Ok(sealed.places(alloc, term, id)?)
}

fn documents_in_memory(alloc: Global, sealed: &Sealed, range: u32) -> Result<List<Doc>, SegFault>
    requires { 64 * range < length sealed.now }
    ensures exact { IfOk result (λ ds. ds ≡ of_range range sealed.now) }
    ensures honest { IfErr result IsOutside }
    ensures store { result ≡ Err SegFault.Store → ⊥ }
{
    let total = sealed.docs();
    let first = 64 * range;
    let count = (total - first).min(64);
    let mut docs = List::with_capacity(alloc, count as usize)?;
    for i in 0..count {
        docs.push(sealed.doc(alloc, first + i)?)?;
    }
    Ok(docs)
}
