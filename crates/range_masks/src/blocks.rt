// Blocks of a range that are held.
ghost use Rattle.std.specs.Prelude.{◌≡◌, ◌<◌, ◌≤◌, ◌+◌, ◌-◌, ◌^◌, ℕ, List, [], Some, cond, is_some, option_map, Err, IfErr, IfOk, OnOk};
ghost use Rattle.std.specs.Int.{bit_at};
ghost use Rattle.std.specs.List.{All};
ghost use Rattle.std.specs.Str.{bytes_eq};
ghost use Rattle.ri_base.specs.Documents.{Document};
ghost use Rattle.ri_base.specs.Faults.{IsOutside, TellsDamage};
ghost use Rattle.ri_base.specs.Keeps.{Rose};
ghost use Rattle.seg_codec.specs.declared.documents.Entry.{Entry};
ghost use Rattle.store_ends.specs.Files.{Files, IsQuiet};
ghost use Rattle.disk_index.specs.Cache.{CacheKeeps, IsCacheBacked};
ghost use Rattle.disk_index.specs.Parts.{IsFileOf, IsPartBacked, IsReadableIn, IsSourceFault, outlines_of, reads, source_of, IsPartIntact};
ghost use Rattle.range_masks.specs.Held.{AreAnswersOf, AreBlocksOf, FitDocuments, HoldsEach, answer, bit_answer, block_in, most_answer, most_opened};

use crate::most::most_of_entries;
use crate::opening::open_on_disk;
use crate::part::mask_of_entries;
use disk_index::{Block, BlockCache, Part};
use ri_base::{NoMemory, SegFault, Steps, Term};
use std::alloc::Global;
use std::collections::BTreeMap;
use std::marker::Model;
use std::sync::ledger::Ledger;
use store_ends::Store;

/// The blocks of some terms for a range of 64 ids, seen as the range, the list of the terms with
/// the blocks that are held, and how many were opened.
/// No block is copied: what is held is shared with the cache.
#[derive(Drop)]
pub struct RangeBlocks {
    range: u32,
    blocks: BTreeMap<Term, Block>,
    opened: usize,
}

impl Model for RangeBlocks {
    ghost use Rattle.range_masks.specs.Held.{Held};

    ghost Value = { Held };

    ghost view = { λ h. record { range = h.range; blocks = h.blocks.entries; opened = h.opened } };
}

impl RangeBlocks {
    /// Opens the blocks of these terms for the range, each once. Of a part in memory there are none.
    pub fn open<T: Store, L: Ledger>(
        alloc: Global,
        part: &Part,
        store: &mut T,
        cache: &mut BlockCache,
        terms: &[Term],
        range: u32,
        blocks: &mut Steps<L>,
    ) -> Result<RangeBlocks, SegFault>
        ensures range { IfOk result (λ held. held.range ≡ range) }
        ensures exact { IsPartBacked (T.files store.old) (source_of part.now) → IsCacheBacked (T.files store.old) cache.old
            → IfOk result (AreBlocksOf (reads (T.files store.old) (source_of part.now))) }
        ensures answers { IsPartBacked (T.files store.old) (source_of part.now) → IsCacheBacked (T.files store.old) cache.old
            → IfOk result (AreAnswersOf (reads (T.files store.old) (source_of part.now))) }

        // The block of each term is held, so that a reader asks the part for none of them.
        ensures each { IsPartBacked (T.files store.old) (source_of part.now) → IsCacheBacked (T.files store.old) cache.old
            → IfOk result (HoldsEach (source_of part.now) terms.now) }

        // Whatever the file has, the block of each term could be read.
        ensures told { IfOk result (λ _. All (λ t. IsReadableIn (T.files store.old) cache.old (source_of part.now) t range) terms.now) }

        ensures fits { IfOk result (FitDocuments (outlines_of (source_of part.now))) }
        ensures opened { IfOk result (λ held. blocks.new ≡ blocks.old + held.opened) }
        ensures cost { blocks.new ≤ blocks.old + most_opened (source_of part.now) terms.now }
        ensures honest { IsPartIntact (T.files store.old) (source_of part.now) → IfErr result IsOutside }
        ensures fault { (f : Files) → T.files store.old ≡ Some f → IfErr result (IsSourceFault f (source_of part.now)) }
        ensures cache { CacheKeeps (T.files store.old) (IsFileOf (source_of part.now)) cache.old cache.new }
        ensures undamaged { OnOk result (cache.new.damage ≡ cache.old.damage) }
        ensures damaged { IfErr result (TellsDamage cache.old.damage cache.new.damage) }
        ensures quiet { IsQuiet T.files T.layers T.clock T.since T.longest T.held store.old store.new }
        ensures later { T.faults store.old ≤ T.faults store.new }
        ensures store { result ≡ Err SegFault.Store → Rose (T.faults store.old) (T.faults store.new) }
    {
        match part {
            Part::Memory(_) => Ok(RangeBlocks::none(alloc, range)),
            Part::Disk(index) => open_on_disk(alloc, index, store, cache, terms, range, blocks),
        }
    }

    /// None of no range: no id is of the one that it has.
    pub fn nothing(alloc: Global) -> RangeBlocks
        ensures range { result.range ≡ 2 ^ 32 - 1 }
        ensures fits { (outlines : List Entry) → FitDocuments outlines result }
        ensures answers { (docs : List Document) → AreAnswersOf docs result }
    {
        RangeBlocks::none(alloc, u32::MAX)
    }

    /// None of the range.
    pub(crate) fn none(alloc: Global, range: u32) -> RangeBlocks
        ensures { result ≡ record { range = range; blocks = []; opened = 0 } }
    {
        RangeBlocks {
            range,
            blocks: BTreeMap::new(alloc),
            opened: 0,
        }
    }

    /// The range whose blocks these are.
    pub fn range(&self) -> u32
        ensures { result ≡ self.now.range }
    {
        self.range
    }

    /// How many blocks were opened.
    pub fn opened(&self) -> usize
        ensures { result ≡ self.now.opened }
    {
        self.opened
    }

    /// The places of the term in the document, where the term's block is held.
    pub fn places(&self, term: &Term, id: u32) -> Option<&[u32]>
        ensures { option_map (λ places. places.now) result ≡ answer self.now term.now id }
    {
        if id / 64 != self.range {
            return None;
        }
        match self.blocks.get(term) {
            Some(block) => Some(block.places(id)),
            None => None,
        }
    }

    /// Which documents of the range have the term, where the term's block is held.
    pub(crate) fn mask(&self, term: &Term, range: u32) -> Option<u64>
        ensures { (i : ℕ) → i < 64 → option_map (λ mask. bit_at mask i) result ≡ option_map (λ has. cond has 1 0) (bit_answer self.now term.now range i) }
    {
        if range != self.range {
            return None;
        }
        match self.blocks.get(term) {
            Some(block) => Some(mask_of_entries(block.entries())),
            None => None,
        }
    }

    /// How many places the term has at most in one document of the range, where the term's block is held.
    pub(crate) fn most(&self, term: &Term, range: u32) -> Option<usize>
        ensures { result ≡ most_answer self.now term.now range }
    {
        if range != self.range {
            return None;
        }
        match self.blocks.get(term) {
            Some(block) => Some(most_of_entries(block.entries())),
            None => None,
        }
    }

    /// Whether the block of the term is held.
    pub(crate) fn has(&self, term: &Term) -> bool
        ensures { result ≡ is_some (block_in self.now term.now) }
    {
        self.blocks.contains_key(term)
    }

    /// One more was opened.
    pub(crate) fn count(&mut self)
        requires { self.old.opened + 1 < 2 ^ 64 }
        ensures { self.new ≡ record self.old { opened = self.old.opened + 1 } }
    {
        self.opened += 1;
    }

    /// Holds the block of the term from now on.
    pub(crate) fn hold(&mut self, alloc: Global, term: &Term, block: Block) -> Result<(), NoMemory>
        ensures range { self.new.range ≡ self.old.range }
        ensures block { OnOk result ((t : List ℕ) → block_in self.new t ≡ cond (bytes_eq term.now t) (Some block) (block_in self.old t)) }
        ensures opened { self.new.opened ≡ self.old.opened }
    {
        self.blocks.insert(term.clone_in(alloc)?, block)?;
        Ok(())
    }
}
