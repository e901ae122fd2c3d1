// A part of the collection that lies in a file.
ghost use Rattle.std.specs.Prelude.{◌≡◌, ◌≢◌, ◌≤◌, ◌<◌, ◌+◌, ◌*◌, ◌^◌, ℕ, List, Some, Err, IfOk, IfErr, IfSome, MatchOption, if◌then◌else◌, length, slice_index_or, IsTrue, [], is_some, OnOk};
ghost use Rattle.std.specs.List.{All, AllPairs};
ghost use Rattle.std.specs.List.Sorted.{IsStrictlyIncreasing};
ghost use Rattle.std.specs.Option.{option_map, option_map_or};
ghost use Rattle.ri_base.specs.Collection.{document_at};
ghost use Rattle.ri_base.specs.Documents.{Document, IsDocument};
ghost use Rattle.ri_base.specs.Faults.{IsOutside, TellsDamage};
ghost use Rattle.ri_base.specs.Keeps.{Rose};
ghost use Rattle.ri_base.specs.Places.{places};
ghost use Rattle.ri_base.specs.Vocabulary.{IsTermBefore};
ghost use Rattle.ri_base.specs.declared.limits.TheConstants.{MAX_DOC_TOKENS};
ghost use Rattle.store_ends.specs.Files.{Files, IsQuiet};
ghost use Rattle.seg_codec.specs.Blocks.{tokens_of};
ghost use Rattle.disk_index.specs.Blocks.{IsBlockFault, block_of, file_of, of_range};
ghost use Rattle.disk_index.specs.Cache.{AllKept, CacheKeeps, IsBlockOf, IsCacheBacked};
ghost use Rattle.disk_index.specs.Faults.{ArePlacesIn, AreTold, CameFrom, IsTermFault};
ghost use Rattle.disk_index.specs.Kept.{AreKept, IsOutline, IsSegmentOf, kept_of, key_of, place_of};
ghost use Rattle.disk_index.specs.Opening.{IsOpenFault, IsOpened};
ghost use Rattle.disk_index.specs.Presence.{IsNext};
ghost use Rattle.disk_index.specs.Ranks.{ranks_of, term_of};
ghost use Rattle.disk_index.specs.Reads.{HasSegment, IsBacked, IsIntact, rebuilt};
ghost use Rattle.disk_index.specs.Together.{begin_of};

use crate::lookup::{fronts_of, next_place, of_range, place_of, ranked_place};
use crate::opening::{KeptParts, docs_within, kept_within, read_kept};
use crate::ranks::{Ranks, ranks_by_range};
use crate::reading::file_length;
use crate::{Block, BlockCache, BlockKey};
use ri_base::{Docno, FieldSpan, FileName, NoMemory, PartName, Positions, SegFault, Steps, Term};
use seg_codec::{BlockPlace, Dictionary, Documents, Entry, TermBlocks};
use std::alloc::{AllocError, Global};
use std::marker::{Brand, Model};
use std::sync::ledger::{Blank, Ledger};
use store_ends::Store;

/// A part of the collection that lies in a file: the number of the file, and its documents without their tokens and its dictionary,
/// as they are kept. No places are kept; they are read block by block.
pub struct DiskIndex {
    number: u64,
    documents: Documents,
    dictionary: Dictionary,
    /// The ranks of the terms that have a block for each range.
    ranks: Vec<Ranks>,
    /// The first bytes of each term as a number, by which it is found sooner.
    fronts: Vec<u64>,
    /// Where the blocks begin in the file.
    blocks_at: u64,
}

impl Drop for DiskIndex {
    fn drop(self) {
        let DiskIndex {
            documents,
            dictionary,
            ranks,
            fronts,
            number: _,
            blocks_at: _,
        } = self;
        drop(documents);
        drop(dictionary);
        drop(ranks);
        drop(fronts);
    }
}

impl Model for DiskIndex {
    ghost use Rattle.disk_index.specs.Kept.{Kept};
    ghost use Rattle.disk_index.specs.Ranks.{AreHeld};

    ghost Value = { Kept };

    ghost view = { λ x. record { number = x.number; outlines = x.documents; dictionary = x.dictionary; begin = x.blocks_at } };

    ghost invariant = { λ x. AreHeld x.documents x.dictionary x.ranks.items };
}

impl DiskIndex {
    /// The segment of so many documents in the file of this number. Its header, its documents and its dictionary are read.
    pub fn open<T: Store>(
        alloc: Global,
        store: &mut T,
        number: u64,
        docs: u32,
    ) -> Result<DiskIndex, SegFault>
        ensures number { IfOk result (λ x. x.number ≡ number) }
        ensures docs { IfOk result (λ x. length x.outlines ≡ docs) }
        ensures found { (f : Files) → T.files store.old ≡ Some f → IfOk result (IsOpened (file_of f number) docs) }
        ensures fault { (f : Files) → T.files store.old ≡ Some f → IfErr result (IsOpenFault f number docs) }

        // The segment of so many documents is opened as what is kept of them, and never refused.
        ensures exact { (ds : List Document) → HasSegment (T.files store.old) number ds → length ds ≡ docs → IfOk result (λ x. x ≡ kept_of number ds) }
        ensures honest { (ds : List Document) → HasSegment (T.files store.old) number ds → length ds ≡ docs → IfErr result IsOutside }

        ensures quiet { IsQuiet T.files T.layers T.clock T.since T.longest T.held store.old store.new }
        ensures later { T.faults store.old ≤ T.faults store.new }
        ensures store { result ≡ Err SegFault.Store → Rose (T.faults store.old) (T.faults store.new) }
        ensures none { result ≢ Err SegFault.Store → T.faults store.new ≡ T.faults store.old }
    {
        let size = file_length(store, number)?;
        let parts = read_kept(alloc, store, number, docs, size)?;
        Ok(DiskIndex::of(alloc, number, parts)?)
    }

    /// The same of bytes that are a segment, as those of the file of this number. No store is read.
    pub fn of_bytes(alloc: Global, bytes: &[u8], number: u64) -> Result<DiskIndex, NoMemory>
        requires { (ds : List Document) × IsSegmentOf bytes.now ds }
        ensures { (ds : List Document) → IsSegmentOf bytes.now ds → IfOk result (λ x. x ≡ kept_of number ds) }
    {
        let docs = docs_within(bytes)?;
        match kept_within(alloc, bytes, number, docs) {
            Ok(parts) => DiskIndex::of(alloc, number, parts),
            Err(_) => Err(AllocError),
        }
    }

    /// What is kept of a file, with the ranks of its terms by range.
    fn of(alloc: Global, number: u64, parts: KeptParts) -> Result<DiskIndex, NoMemory>
        requires { AreKept parts.documents parts.dictionary }
        ensures { IfOk result (λ x. x ≡ record { number = number; outlines = parts.documents; dictionary = parts.dictionary; begin = parts.blocks_at }) }
    {
        let KeptParts {
            documents,
            dictionary,
            blocks_at,
        } = parts;
        let docs = documents.as_slice().len() as u32;
        let ranks = ranks_by_range(alloc, dictionary.as_slice(), docs)?;
        let fronts = fronts_of(alloc, dictionary.as_slice())?;
        Ok(DiskIndex {
            number,
            documents,
            dictionary,
            ranks,
            fronts,
            blocks_at,
        })
    }

    /// How many documents there are.
    pub fn docs(&self) -> u32
        ensures size { result ≡ length self.now.outlines }
        ensures documents { (file : List ℕ) → result ≡ length (rebuilt self.now file) }
    {
        self.documents.as_slice().len() as u32
    }

    /// What is kept of the document.
    fn entry(&self, id: u32) -> &Entry
        requires { id < length self.now.outlines }
        ensures is { result.now ≡ slice_index_or self.now.outlines id result.now }
        ensures kept { IsOutline result.now }
    {
        let entries = self.documents.as_slice();
        &entries[id as usize]
    }

    pub fn docno(&self, id: u32) -> &Docno
        requires { id < length self.now.outlines }
        ensures { (file : List ℕ) → result.now ≡ (document_at (rebuilt self.now file) id).docno }
    {
        &self.entry(id).docno
    }

    /// How many tokens the document has.
    pub fn length(&self, id: u32) -> u32
        requires { id < length self.now.outlines }
        ensures exact { (file : List ℕ) → result ≡ length (document_at (rebuilt self.now file) id).tokens }
        ensures kept { result ≡ tokens_of self.now.outlines id }
        ensures most { result ≤ MAX_DOC_TOKENS }
    {
        self.entry(id).tokens
    }

    /// The fields of the document, by begin, end and name.
    pub fn spans(&self, id: u32) -> &[FieldSpan]
        requires { id < length self.now.outlines }
        ensures exact { (file : List ℕ) → result.now ≡ (document_at (rebuilt self.now file) id).fields }
        ensures form { (file : List ℕ) → IsDocument (document_at (rebuilt self.now file) id).tokens result.now }
    {
        self.entry(id).fields.as_slice()
    }

    /// Where the term's block for the range stands.
    pub(crate) fn key(&self, term: &Term, range: u32) -> Option<BlockKey>
        ensures key { result ≡ option_map (key_of self.now.number range) (place_of self.now.dictionary term.now range) }
        ensures fits { IfSome result (λ key. key.place + key.length < 2 ^ 64) }
    {
        match place_of(self.dictionary.as_slice(), &self.fronts, term, range) {
            Some(place) => Some(self.key_at(range, place)),
            None => None,
        }
    }

    /// The first range from this one on for which the dictionary has a block of the term. No file is read.
    pub fn next_block(&self, term: &Term, from: u32) -> Option<u32>
        ensures { IsNext (λ range. is_some (place_of self.now.dictionary term.now range)) from result }
    {
        next_place(self.dictionary.as_slice(), &self.fronts, term, from)
    }

    /// The number of its file.
    pub fn number(&self) -> u64
        ensures { result ≡ self.now.number }
    {
        self.number
    }

    /// Where the blocks begin in its file.
    pub(crate) fn blocks_at(&self) -> u64
        ensures { result ≡ self.now.begin }
    {
        self.blocks_at
    }

    /// The terms, each with the places of its blocks.
    pub(crate) fn dictionary(&self) -> &[TermBlocks]
        ensures { result.now ≡ self.now.dictionary }
    {
        self.dictionary.as_slice()
    }

    /// The documents of the range without their tokens.
    pub(crate) fn outlines(&self, range: u32) -> &[Entry]
        requires { 64 * range < length self.now.outlines }
        ensures are { result.now ≡ of_range range self.now.outlines }
        ensures kept { All IsOutline result.now }
    {
        of_range(self.documents.as_slice(), range)
    }

    /// The ranks of the terms that have a block for the range.
    pub(crate) fn ranks(&self, range: u32) -> &[u32]
        requires { 64 * range < length self.now.outlines }
        ensures are { result.now ≡ ranks_of range self.now.dictionary }
        ensures order { AllPairs (λ a b. IsTermBefore a.term b.term) self.now.dictionary }
    {
        self.ranks[range as usize].as_slice()
    }

    /// The block of the term of this rank for the range. It isn't kept: a range is put together once.
    pub(crate) fn ranked_block<T: Store>(
        &self,
        alloc: Global,
        store: &mut T,
        cache: &mut BlockCache,
        rank: u32,
        range: u32,
    ) -> Result<Block, SegFault>
        requires { rank < length self.now.dictionary }
        ensures exact { (docs : List Document) → IsBacked (T.files store.old) self.now docs → IsCacheBacked (T.files store.old) cache.old
            → IfOk result (λ b. b ≡ block_of (term_of self.now.dictionary rank) range docs) }
        ensures honest { (docs : List Document) → IsBacked (T.files store.old) self.now docs → IsIntact (T.files store.old) self.now.number → IfErr result IsOutside }
        ensures fault { (f : Files) → T.files store.old ≡ Some f → MatchOption (place_of self.now.dictionary (term_of self.now.dictionary rank) range)
            (IfErr result IsOutside) (λ p. IfErr result (IsBlockFault f (key_of self.now.number range p) self.now.outlines)) }
        ensures origin { MatchOption (place_of self.now.dictionary (term_of self.now.dictionary rank) range) (IfOk result (λ b. b ≡ []))
            (λ p. IfOk result (CameFrom (T.files store.old) cache.old self.now.outlines (key_of self.now.number range p))) }
        ensures cache { AllKept cache.old cache.new }
        ensures undamaged { OnOk result (cache.new.damage ≡ cache.old.damage) }
        ensures damaged { IfErr result (TellsDamage cache.old.damage cache.new.damage) }
        ensures quiet { IsQuiet T.files T.layers T.clock T.since T.longest T.held store.old store.new }
        ensures later { T.faults store.old ≤ T.faults store.new }
        ensures store { result ≡ Err SegFault.Store → Rose (T.faults store.old) (T.faults store.new) }
        ensures none { result ≢ Err SegFault.Store → T.faults store.new ≡ T.faults store.old }
    {
        match self.ranked_key(rank, range) {
            None => Ok(Block::empty(alloc)?),
            Some(key) => cache.once(alloc, store, key, &self.documents),
        }
    }

    /// Where the block of the term of this rank for the range begins in the file; where there is none, the begin of all blocks.
    pub(crate) fn ranked_begin(&self, rank: u32, range: u32) -> u64
        requires { rank < length self.now.dictionary }
        ensures { result ≡ begin_of self.now range rank }
    {
        match self.ranked_key(rank, range) {
            Some(key) => key.place,
            None => self.blocks_at,
        }
    }

    /// Where the block of the term of this rank for the range stands.
    fn ranked_key(&self, rank: u32, range: u32) -> Option<BlockKey>
        requires { rank < length self.now.dictionary }
        ensures key { result ≡ option_map (key_of self.now.number range) (place_of self.now.dictionary (term_of self.now.dictionary rank) range) }
        ensures fits { IfSome result (λ key. key.place + key.length < 2 ^ 64) }
    {
        match ranked_place(self.dictionary.as_slice(), rank as usize, range) {
            Some(place) => Some(self.key_at(range, place)),
            None => None,
        }
    }

    /// The key of the block of the range that stands there.
    fn key_at(&self, range: u32, place: BlockPlace) -> BlockKey
        ensures { result ≡ key_of self.now.number range place }
    {
        BlockKey {
            number: self.number,
            range,
            place: place.place,
            length: place.length,
        }
    }

    /// The places of the term in the documents with the ids from `64 * range` on, 64 at most.
    pub fn block<T: Store, L: Ledger>(
        &self,
        alloc: Global,
        store: &mut T,
        cache: &mut BlockCache,
        term: &Term,
        range: u32,
        blocks: &mut Steps<L>,
    ) -> Result<Block, SegFault>
        ensures exact { (docs : List Document) → IsBacked (T.files store.old) self.now docs → IsCacheBacked (T.files store.old) cache.old
            → IfOk result (λ b. b ≡ block_of term.now range docs) }
        ensures honest { (docs : List Document) → IsBacked (T.files store.old) self.now docs → IsIntact (T.files store.old) self.now.number → IfErr result IsOutside }
        ensures fault { (f : Files) → T.files store.old ≡ Some f → MatchOption (place_of self.now.dictionary term.now range)
            (IfErr result IsOutside) (λ p. IfErr result (IsBlockFault f (key_of self.now.number range p) self.now.outlines)) }

        // A block that is handed out was kept, or is the one of these documents that the file has there.
        ensures origin { MatchOption (place_of self.now.dictionary term.now range) (IfOk result (λ b. b ≡ []))
            (λ p. IfOk result (CameFrom (T.files store.old) cache.old self.now.outlines (key_of self.now.number range p))) }

        // One step where the dictionary has such a block, whether it is kept or read.
        ensures steps { blocks.new ≡ blocks.old + (if is_some (place_of self.now.dictionary term.now range) then 1 else 0) }

        ensures cache { CacheKeeps (T.files store.old) (IsBlockOf self.now) cache.old cache.new }
        ensures undamaged { OnOk result (cache.new.damage ≡ cache.old.damage) }
        ensures damaged { IfErr result (TellsDamage cache.old.damage cache.new.damage) }
        ensures quiet { IsQuiet T.files T.layers T.clock T.since T.longest T.held store.old store.new }
        ensures later { T.faults store.old ≤ T.faults store.new }
        ensures store { result ≡ Err SegFault.Store → Rose (T.faults store.old) (T.faults store.new) }
        ensures none { result ≢ Err SegFault.Store → T.faults store.new ≡ T.faults store.old }
    {
        match self.key(term, range) {
            None => Ok(Block::empty(alloc)?),
            Some(key) => {
                blocks.tick();
                cache.fetch(alloc, store, key, &self.documents)
            }
        }
    }

    /// The places of the term in the document, in order.
    pub fn positions<T: Store>(
        &self,
        alloc: Global,
        store: &mut T,
        cache: &mut BlockCache,
        term: &Term,
        id: u32,
    ) -> Result<Positions, SegFault>
        requires { id < length self.now.outlines }
        ensures exact { (docs : List Document) → IsBacked (T.files store.old) self.now docs → IsCacheBacked (T.files store.old) cache.old
            → IfOk result (λ ps. ps ≡ places term.now (document_at docs id)) }
        ensures honest { (docs : List Document) → IsBacked (T.files store.old) self.now docs → IsIntact (T.files store.old) self.now.number → IsCacheBacked (T.files store.old) cache.old
            → IfErr result IsOutside }

        // They are those of such a block, so no malformed one is passed by.
        ensures told { IfOk result (AreTold (T.files store.old) cache.old self.now term.now id) }

        ensures rising { IfOk result IsStrictlyIncreasing }
        ensures below { (file : List ℕ) → IfOk result (All (λ p. p < length (document_at (rebuilt self.now file) id).tokens)) }
        ensures fault { (f : Files) → T.files store.old ≡ Some f → IfErr result (IsTermFault f cache.old self.now term.now id) }
        ensures cache { CacheKeeps (T.files store.old) (IsBlockOf self.now) cache.old cache.new }
        ensures undamaged { OnOk result (cache.new.damage ≡ cache.old.damage) }
        ensures damaged { IfErr result (TellsDamage cache.old.damage cache.new.damage) }
        ensures quiet { IsQuiet T.files T.layers T.clock T.since T.longest T.held store.old store.new }
        ensures later { T.faults store.old ≤ T.faults store.new }
        ensures store { result ≡ Err SegFault.Store → Rose (T.faults store.old) (T.faults store.new) }
        ensures none { result ≢ Err SegFault.Store → T.faults store.new ≡ T.faults store.old }
    {
        self.counted_positions::<T, Brand>(alloc, store, cache, term, id, Blank::new(1))
    }

    /// The same, by a counter of its own.
    fn counted_positions<T: Store, L: Ledger>(
        &self,
        alloc: Global,
        store: &mut T,
        cache: &mut BlockCache,
        term: &Term,
        id: u32,
        blank: Blank,
    ) -> Result<Positions, SegFault>
        requires id { id < length self.now.outlines }
        requires name { blank.name ≡ L.name }
        requires parts { blank.parts ≡ L.parts }
        requires some { 0 < blank.parts }
        ensures exact { (docs : List Document) → IsBacked (T.files store.old) self.now docs → IsCacheBacked (T.files store.old) cache.old
            → IfOk result (λ ps. ps ≡ places term.now (document_at docs id)) }
        ensures honest { (docs : List Document) → IsBacked (T.files store.old) self.now docs → IsIntact (T.files store.old) self.now.number → IsCacheBacked (T.files store.old) cache.old
            → IfErr result IsOutside }
        ensures told { IfOk result (AreTold (T.files store.old) cache.old self.now term.now id) }
        ensures rising { IfOk result IsStrictlyIncreasing }
        ensures below { (file : List ℕ) → IfOk result (All (λ p. p < length (document_at (rebuilt self.now file) id).tokens)) }
        ensures fault { (f : Files) → T.files store.old ≡ Some f → IfErr result (IsTermFault f cache.old self.now term.now id) }
        ensures cache { CacheKeeps (T.files store.old) (IsBlockOf self.now) cache.old cache.new }
        ensures undamaged { OnOk result (cache.new.damage ≡ cache.old.damage) }
        ensures damaged { IfErr result (TellsDamage cache.old.damage cache.new.damage) }
        ensures quiet { IsQuiet T.files T.layers T.clock T.since T.longest T.held store.old store.new }
        ensures later { T.faults store.old ≤ T.faults store.new }
        ensures store { result ≡ Err SegFault.Store → Rose (T.faults store.old) (T.faults store.new) }
        ensures none { result ≢ Err SegFault.Store → T.faults store.new ≡ T.faults store.old }
    {
        let mut blocks = Steps::<L>::new(blank);
        let block = self.block(alloc, store, cache, term, id / 64, &mut blocks)?;
        let places = block.places(id);
        if !are_places(places, self.length(id)) {
            return Err(cache.noted(SegFault::Malformed {
                file: FileName::Segment(self.number),
                part: PartName::Block,
                place: self.block_place(term, id / 64),
            }));
        }
        Ok(positions_of(alloc, places)?)
    }

    /// Where the term's block for the range stands in the file, or 0 where there is none.
    fn block_place(&self, term: &Term, range: u32) -> u64
        ensures { result ≡ option_map_or (λ p. p.place) (place_of self.now.dictionary term.now range) 0 }
    {
        match place_of(self.dictionary.as_slice(), &self.fronts, term, range) {
            Some(found) => found.place,
            None => 0,
        }
    }
}

fn positions_of(alloc: Global, places: &[u32]) -> Result<Positions, NoMemory>
    ensures { IfOk result (λ ps. ps ≡ places.now) }
{
    Ok(Positions::of(places.to_vec(alloc)?))
}

/// Whether these are rising places of a document of this size.
fn are_places(places: &[u32], size: u32) -> bool
    ensures yes { IsTrue result → ArePlacesIn size places.now }
    ensures no { ArePlacesIn size places.now → IsTrue result }
{
    let mut low = 0;
    for place in places {
        let at = *place;
        if at < low || size <= at {
            return false;
        }
        low = at + 1;
    }
    true
}
