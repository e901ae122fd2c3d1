// What a ranking finds.
ghost use Rattle.std.specs.Prelude.{◌≡◌, IfOk};

use crate::{Docno, Fraction, List, NoMemory};
use std::alloc::Global;

/// How often a leaf occurs in the collection, and in how many words: the sums over all documents.
#[derive(Clone, Copy, Debug, PartialEq, Eq)]
pub struct LeafStats {
    pub cf: u64,
    pub total: u64,
}

/// The beliefs of the leaves of a query, in order of their numbers, seen as their list.
pub type Fractions = List<Fraction>;

impl Fractions {
    /// Equal fractions.
    pub fn clone_in(&self, alloc: Global) -> Result<Fractions, NoMemory>
        ensures { IfOk result (λ fractions. fractions ≡ self.now) }
    {
        Ok(Fractions::of(self.as_slice().to_vec(alloc)?))
    }
}

/// A part of a document that a ranking found: its tokens from `begin` on up to `end`, its key, and the beliefs of the
/// query's leaves in it.
#[derive(Debug, Drop)]
pub struct Hit {
    pub docno: Docno,
    pub begin: u32,
    pub end: u32,
    pub key: u128,
    pub fractions: Fractions,
}

impl Hit {
    /// An equal hit.
    pub fn clone_in(&self, alloc: Global) -> Result<Hit, NoMemory>
        ensures { IfOk result (λ hit. hit ≡ self.now) }
    {
        let docno = self.docno.clone_in(alloc)?;
        let fractions = self.fractions.clone_in(alloc)?;
        Ok(Hit {
            docno,
            begin: self.begin,
            end: self.end,
            key: self.key,
            fractions,
        })
    }
}

/// The hits of a ranking in their order, seen as their list.
pub type Hits = List<Hit>;

impl Hits {
    /// Equal hits.
    pub fn clone_in(&self, alloc: Global) -> Result<Hits, NoMemory>
        ensures { IfOk result (λ hits. hits ≡ self.now) }
    {
        let mut hits = Hits::with_capacity(alloc, self.len())?;
        for hit in self.as_slice() {
            hits.push(hit.clone_in(alloc)?)?;
        }
        Ok(hits)
    }
}
