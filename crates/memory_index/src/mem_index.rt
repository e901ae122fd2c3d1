// The index of a part that is in memory.
ghost use Rattle.std.specs.Prelude.{◌≡◌, ◌<◌, ◌≤◌, ◌↔◌, ℕ, ◌+◌, ◌^◌, ◌++◌, [], ◌∷◌, Err, length, IfOk, MatchResult, OnErr, OnOk, take};
ghost use Rattle.ri_base.specs.Collection.{name_count, token_count};
ghost use Rattle.memory_index.specs.Numbering.{Holds};
ghost use Rattle.ri_base.specs.declared.limits.TheConstants.{MAX_HELD_TOKENS, MAX_PART_DOCS};

use crate::inversion::{Inverted, invert};
use crate::numbering::{count_new, note_names, numbered};
use indexmap::IndexSet;
use ri_base::{Doc, Held, Name, NoMemory, Sealed, Term};
use std::alloc::Global;
use std::marker::Model;
use thiserror::Error;

/// Why a document isn't added.
#[derive(Debug, Drop, Error)]
pub enum MemRefusal {
    #[error("the index is full")]
    IndexFull,
    #[error("out of memory")]
    Memory,
}

/// Documents in the order in which they were added, seen as their list and the most that it may hold.
///
/// Each distinct term and field name is kept once, and a token is the number of its term. The terms are kept in the
/// order in which they came, so a term's number never changes.
pub struct MemIndex {
    most: u32,
    held: u64,
    terms: IndexSet<Term>,
    names: IndexSet<Name>,
    docs: Vec<Held>,
}

impl Drop for MemIndex {
    fn drop(self) {
        let MemIndex {
            terms,
            names,
            docs,
            most: _,
            held: _,
        } = self;
        drop(terms);
        drop(names);
        drop(docs);
    }
}

impl Model for MemIndex {
    ghost use Rattle.memory_index.specs.Kept.{Index};

    ghost Value = { Index };

    ghost use Rattle.memory_index.specs.Kept.{AreKept};
    ghost use Rattle.ri_base.specs.Inversion.{documents_of};

    ghost view = { λ m. record { most = m.most; documents = documents_of m.terms.keys m.docs.items } };

    ghost invariant = { λ m. AreKept m.most m.held m.terms.keys m.names.keys m.docs.items };
}

impl MemIndex {
    /// An index of no documents, for at most so many.
    pub fn new(alloc: Global, most: u32) -> Result<MemIndex, NoMemory>
        requires some { 1 ≤ most }
        requires small { most ≤ MAX_PART_DOCS }
        ensures { IfOk result (λ m. m ≡ record { most = most; documents = [] }) }
    {
        Ok(MemIndex {
            most,
            held: 0,
            terms: IndexSet::new(alloc),
            names: IndexSet::new(alloc),
            docs: Vec::new(alloc),
        })
    }

    /// How many documents it holds.
    pub fn len(&self) -> u32
        ensures exact { result ≡ length self.now.documents }
        ensures within { result ≤ self.now.most }
    {
        self.docs.len() as u32
    }

    /// How many tokens its documents have together.
    pub fn token_count(&self) -> u64
        ensures exact { result ≡ token_count self.now.documents }
        ensures most { result ≤ MAX_HELD_TOKENS }
    {
        self.held
    }

    /// How many distinct field names its documents and this one have together.
    pub fn names_with(&self, doc: &Doc) -> u64
        ensures { result ≡ name_count (self.now.documents ++ doc.now ∷ []) }
    {
        self.names.len() as u64 + count_new(&self.names, doc.names()) as u64
    }

    /// Adds a document, and answers its id. `token_count` tells whether there is room for its tokens.
    pub fn add(&mut self, alloc: Global, doc: &Doc) -> Result<u32, MemRefusal>
        requires room { token_count self.old.documents + length doc.now.tokens ≤ MAX_HELD_TOKENS }
        ensures id { IfOk result (λ id. id ≡ length self.old.documents) }
        ensures added { OnOk result (self.new ≡ record { most = self.old.most; documents = self.old.documents ++ doc.now ∷ [] }) }
        ensures kept { OnErr result (self.new ≡ self.old) }
        ensures full { (result ≡ Err MemRefusal.IndexFull) ↔ (length self.old.documents ≡ self.old.most) }
    {
        let id = self.docs.len();
        if id >= self.most as usize {
            return Err(MemRefusal::IndexFull);
        }
        let terms = self.terms.len();
        let names = self.names.len();
        match hold(alloc, &mut self.terms, &mut self.names, &mut self.docs, doc) {
            Ok(()) => {
                self.held += u64::from(doc.len());
                Ok(id as u32)
            }
            Err(_) => {
                self.terms.truncate(terms);
                self.names.truncate(names);
                Err(MemRefusal::Memory)
            }
        }
    }

    /// The inversion of the documents. Where memory is wanting, the index comes back as it was.
    pub fn seal(self, alloc: Global) -> Result<Sealed, (MemIndex, NoMemory)>
        ensures { MatchResult result (λ s. s ≡ self.documents) (λ e. e.0 ≡ self) }
    {
        match invert(alloc, self.terms.as_slice(), &self.docs) {
            Ok(inverted) => {
                let MemIndex {
                    most: _,
                    held: _,
                    terms: _,
                    names: _,
                    docs,
                } = self;
                let Inverted {
                    vocabulary,
                    ranks,
                    postings,
                } = inverted;
                Ok(Sealed::of(vocabulary, ranks, docs, postings))
            }
            Err(e) => Err((self, e)),
        }
    }
}

/// Keeps a document behind the others, with its terms and names.
fn hold(
    alloc: Global,
    terms: &mut IndexSet<Term>,
    names: &mut IndexSet<Name>,
    docs: &mut Vec<Held>,
    doc: &Doc,
) -> Result<(), NoMemory>
    requires room { length terms.old.keys + length doc.now.tokens < 2 ^ 32 }
    ensures ok { OnOk result (Holds terms.old.keys terms.new.keys names.old.keys names.new.keys docs.old.items docs.new.items doc.now) }
    ensures terms_kept { take (length terms.old.keys) terms.new.keys ≡ terms.old.keys }
    ensures names_kept { take (length names.old.keys) names.new.keys ≡ names.old.keys }
    ensures err { OnErr result (docs.new.items ≡ docs.old.items) }
{
    let docno = doc.docno().clone_in(alloc)?;
    let fields = doc.fields().clone_in(alloc)?;
    note_names(alloc, names, doc.names())?;
    let tokens = numbered(alloc, terms, doc.tokens().as_slice())?;
    docs.push(Held {
        docno,
        tokens,
        fields,
    })?;
    Ok(())
}
