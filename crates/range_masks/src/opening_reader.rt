// A part that is read by the blocks of one range, which may be opened meanwhile.
ghost use Rattle.std.specs.Prelude.{◌≡◌};
ghost use Rattle.std.proofs.Props.{props};
ghost use Rattle.disk_index.specs.Parts.{outlines_of, source_of};
ghost use Rattle.range_masks.specs.Held.{FitDocuments};

use crate::most::most_in_part;
use crate::part::mask_in_part;
use crate::{OpensRanges, RangeBlocks, TermMasks};
use disk_index::{BlockCache, Part};
use ri_base::{Docno, FieldSpan, Positions, Postings, SegFault, Steps, Term};
use std::alloc::Global;
use std::sync::ledger::Ledger;
use store_ends::Store;

/// A part, the blocks of one range of it, and the store and the cache that it is read by, all lent. Those of another range may be opened.
#[derive(Drop)]
pub struct OpeningReader<'a, T: Store> {
    pub part: &'a Part,
    pub held: &'a mut RangeBlocks,
    pub store: &'a mut T,
    pub cache: &'a mut BlockCache,
    pub ghost fits: { FitDocuments (outlines_of (source_of part.now)) held.now } by { Prim.hlevel props },
}

impl<'a, T: Store> OpeningReader<'a, T> {
    /// Takes no memory.
    pub fn new(
        part: &'a Part,
        held: &'a mut RangeBlocks,
        store: &'a mut T,
        cache: &'a mut BlockCache,
    ) -> OpeningReader<'a, T>
        requires { FitDocuments (outlines_of (source_of part.now)) held.now }
        ensures part { result.part.now ≡ part.now }
        ensures held { result.held.now ≡ held.entry.now }
        ensures same_held { result.held.ghost_name ≡ held.entry.ghost_name }
        ensures store { result.store.now ≡ store.entry.now }
        ensures same_store { result.store.ghost_name ≡ store.entry.ghost_name }
        ensures cache { result.cache.now ≡ cache.entry.now }
        ensures same_cache { result.cache.ghost_name ≡ cache.entry.ghost_name }
    {
        OpeningReader {
            part,
            held,
            store,
            cache,
        }
    }
}

impl<'a, T: Store> Postings for OpeningReader<'a, T> {
    ghost use Rattle.std.specs.Prelude.{◌≡◌, ◌⊎◌};
    ghost use Rattle.disk_index.specs.Cache.{IsCacheBacked};
    ghost use Rattle.disk_index.specs.Parts.{IsPartBacked, IsPartIntact, IsQuietReader, IsReadableOf, reads, source_of};
    ghost use Rattle.range_masks.specs.Held.{AreAnswersOf, IsAnswered};

    ghost documents = { λ s. reads (T.files s.store.now) (source_of s.part.now) };

    ghost faults = { λ s. T.faults s.store.now };

    ghost sound = { λ s. IsPartBacked (T.files s.store.now) (source_of s.part.now) × IsCacheBacked (T.files s.store.now) s.cache.now × AreAnswersOf (reads (T.files s.store.now) (source_of s.part.now)) s.held.now };

    ghost intact = { λ s. IsPartIntact (T.files s.store.now) (source_of s.part.now) × IsCacheBacked (T.files s.store.now) s.cache.now × AreAnswersOf (reads (T.files s.store.now) (source_of s.part.now)) s.held.now };

    ghost quiet = { λ r s. IsQuietReader T.files T.layers T.clock T.since T.longest T.held T.faults (source_of r.part.now) (source_of s.part.now) r.store.ghost_name s.store.ghost_name r.cache.ghost_name s.cache.ghost_name r.store.now s.store.now r.cache.now s.cache.now × s.held.now ≡ r.held.now × s.held.ghost_name ≡ r.held.ghost_name };

    ghost told = { λ s term id. IsAnswered s.held.now term id ⊎ IsReadableOf (T.files s.store.now) s.cache.now (source_of s.part.now) term id };

    ghost damage = { λ s. s.cache.now.damage };

    fn docs(&self) -> u32 {
        self.part.docs()
    }

    fn docno(&self, id: u32) -> &Docno {
        self.part.docno(id)
    }

    fn length(&self, id: u32) -> u32 {
        self.part.length(id)
    }

    fn spans(&self, id: u32) -> &[FieldSpan] {
        self.part.spans(id)
    }

    fn positions(&mut self, alloc: Global, term: &Term, id: u32) -> Result<Positions, SegFault> {
        match self.held.places(term, id) {
            Some(places) => Ok(Positions::of(places.to_vec(alloc)?)),
            None => { self.part.positions(alloc, self.store, self.cache, term, id) }
        }
    }

    ghost use Rattle.std.proofs.Common.{refl, ◌∙◌};
    ghost use Rattle.disk_index.specs.QuietLaws.{IsPartIntact-backed, IsQuietReader-readable, IsQuietReader-same, IsQuietReader-then};

    ghost intact_sound = { λ s here. (IsPartIntact-backed (T.files s.store.now) (source_of s.part.now) here.0, here.1, here.2) };

    ghost quiet_same = { λ s. (IsQuietReader-same _ _ _ _ _ _ _ _ _ _ _ _, refl, refl) };

    ghost quiet_then = { λ r s t first second. (IsQuietReader-then _ _ _ _ _ _ _ _ _ _ _ _ _ _ _ _ _ _ _ _ _ _ first.0 second.0, second.1 ∙ first.1, second.2 ∙ first.2) };

    ghost use Rattle.range_masks.specs.HeldLaws.{answered-before};

    ghost told_before = { λ r s term id quiet now. answered-before _ _ _ _ _ _ quiet.1 (λ here. IsQuietReader-readable _ _ _ _ _ _ _ _ _ _ _ _ _ _ _ _ _ _ _ quiet.0 here) now };
}

impl<'a, T: Store> TermMasks for OpeningReader<'a, T> {
    fn term_mask(&mut self, alloc: Global, term: &Term, range: u32) -> Result<u64, SegFault> {
        match self.held.mask(term, range) {
            Some(mask) => Ok(mask),
            None => mask_in_part(alloc, self.part, self.store, self.cache, term, range),
        }
    }

    fn most_places(&mut self, alloc: Global, term: &Term, range: u32) -> Result<usize, SegFault> {
        match self.held.most(term, range) {
            Some(most) => Ok(most),
            None => most_in_part(alloc, self.part, self.store, self.cache, term, range),
        }
    }

    fn next_term_range(&self, term: &Term, from: u32) -> Option<u32> {
        self.part.next_with(term, from)
    }
}

impl<'a, T: Store> OpensRanges for OpeningReader<'a, T> {
    ghost use Rattle.std.specs.Prelude.{◌≡◌};
    ghost use Rattle.disk_index.specs.Parts.{IsQuietReader, source_of};
    ghost use Rattle.range_masks.specs.Held.{HoldsEach};

    ghost present = { λ s. s.held.now.range };

    ghost holds = { λ s terms. HoldsEach (source_of s.part.now) terms s.held.now };

    ghost calm = { λ r s. IsQuietReader T.files T.layers T.clock T.since T.longest T.held T.faults (source_of r.part.now) (source_of s.part.now) r.store.ghost_name s.store.ghost_name r.cache.ghost_name s.cache.ghost_name r.store.now s.store.now r.cache.now s.cache.now × s.held.ghost_name ≡ r.held.ghost_name };

    fn open_range<L: Ledger>(
        &mut self,
        alloc: Global,
        terms: &[Term],
        range: u32,
        blocks: &mut Steps<L>,
    ) -> Result<usize, SegFault> {
        if self.held.range() == range {
            return Ok(0);
        }
        let opened = RangeBlocks::open(
            alloc, self.part, self.store, self.cache, terms, range, blocks,
        )?;
        let count = opened.opened();
        *self.held = opened;
        Ok(count)
    }

    ghost use Rattle.std.proofs.Common.{ap, refl, ◌∙◌};
    ghost use Rattle.disk_index.specs.QuietLaws.{IsQuietReader-same, IsQuietReader-then};

    ghost calm_same = { λ s. (IsQuietReader-same _ _ _ _ _ _ _ _ _ _ _ _, refl) };

    ghost calm_then = { λ r s t first second. (IsQuietReader-then _ _ _ _ _ _ _ _ _ _ _ _ _ _ _ _ _ _ _ _ _ _ first.0 second.0, second.1 ∙ first.1) };

    ghost calm_reading = { λ r s quiet. (quiet.0, quiet.2) };

    ghost present_stays = { λ r s quiet. ap (λ held. held.range) quiet.1 };
}
