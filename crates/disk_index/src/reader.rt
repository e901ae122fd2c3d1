// A part with the store and the cache that it is read by.
ghost use Rattle.std.specs.Prelude.{◌≡◌};

use crate::{BlockCache, Part};
use ri_base::{Docno, FieldSpan, Positions, Postings, SegFault, Term};
use std::alloc::Global;
use store_ends::Store;

/// A part, and the store and the cache that it is read by, all lent.
#[derive(Drop)]
pub struct PartReader<'a, T: Store> {
    pub part: &'a Part,
    pub store: &'a mut T,
    pub cache: &'a mut BlockCache,
}

impl<'a, T: Store> PartReader<'a, T> {
    /// Takes no memory.
    pub fn new(part: &'a Part, store: &'a mut T, cache: &'a mut BlockCache) -> PartReader<'a, T>
        ensures part { result.part.now ≡ part.now }
        ensures store { result.store.now ≡ store.entry.now }
        ensures same_store { result.store.ghost_name ≡ store.entry.ghost_name }
        ensures cache { result.cache.now ≡ cache.entry.now }
        ensures same_cache { result.cache.ghost_name ≡ cache.entry.ghost_name }
    {
        PartReader { part, store, cache }
    }
}

impl<'a, T: Store> Postings for PartReader<'a, T> {
    ghost use Rattle.std.specs.Prelude.{◌≡◌};
    ghost use Rattle.disk_index.specs.Cache.{IsCacheBacked};
    ghost use Rattle.disk_index.specs.Parts.{IsPartBacked, IsPartIntact, IsQuietReader, IsReadableOf, reads, source_of};

    ghost documents = { λ s. reads (T.files s.store.now) (source_of s.part.now) };

    ghost faults = { λ s. T.faults s.store.now };

    ghost sound = { λ s. IsPartBacked (T.files s.store.now) (source_of s.part.now) × IsCacheBacked (T.files s.store.now) s.cache.now };

    ghost intact = { λ s. IsPartIntact (T.files s.store.now) (source_of s.part.now) × IsCacheBacked (T.files s.store.now) s.cache.now };

    ghost quiet = { λ r s. IsQuietReader T.files T.layers T.clock T.since T.longest T.held T.faults (source_of r.part.now) (source_of s.part.now) r.store.ghost_name s.store.ghost_name r.cache.ghost_name s.cache.ghost_name r.store.now s.store.now r.cache.now s.cache.now };

    ghost told = { λ s term id. IsReadableOf (T.files s.store.now) s.cache.now (source_of s.part.now) term id };

    ghost damage = { λ s. s.cache.now.damage };

    fn docs(&self) -> u32 {
        self.part.docs()
    }

    fn docno(&self, id: u32) -> &Docno {
        self.part.docno(id)
    }

    fn length(&self, id: u32) -> u32 {
        self.part.length(id)
    }

    fn spans(&self, id: u32) -> &[FieldSpan] {
        self.part.spans(id)
    }

    fn positions(&mut self, alloc: Global, term: &Term, id: u32) -> Result<Positions, SegFault> {
        self.part.positions(alloc, self.store, self.cache, term, id)
    }

    ghost use Rattle.disk_index.specs.QuietLaws.{intact-backed, IsQuietReader-readable, IsQuietReader-same, IsQuietReader-then};

    ghost intact_sound = { λ s here. intact-backed (T.files s.store.now) (source_of s.part.now) s.cache.now here };

    ghost quiet_same = { λ s. IsQuietReader-same _ _ _ _ _ _ _ _ _ _ _ _ };

    ghost quiet_then = { λ r s t first second. IsQuietReader-then _ _ _ _ _ _ _ _ _ _ _ _ _ _ _ _ _ _ _ _ _ _ first second };

    ghost told_before = { λ r s term id quiet now. IsQuietReader-readable _ _ _ _ _ _ _ _ _ _ _ _ _ _ _ _ _ _ _ quiet now };
}
