// What a repository holds, within its limits.
ghost use Rattle.std.specs.Prelude.{◌≡◌, ◌≤◌, ◌<◌, ◌+◌, ◌++◌, ◌∷◌, ◌↔◌, ◌⊎◌, [], ℕ, Option, false, length, map, nat_lt, slice_index_or, IfOk, IfErr, OnOk, OnErr, IsErr};
ghost use Rattle.std.specs.List.{All, IsDistinct};
ghost use Rattle.std.specs.Str.{bytes_eq};
ghost use Rattle.ri_base.specs.Collection.{token_count};
ghost use Rattle.ri_base.specs.Documents.{Document};
ghost use Rattle.store_ends.specs.Files.{Files};
ghost use Rattle.disk_index.specs.Parts.{OnDisk, outlines_of};
ghost use Rattle.disk_index.specs.Snapshots as snapshots;
ghost use Rattle.disk_index.specs.Snapshots.{IsSnapshot, documents_held};
ghost use Rattle.holdings.specs.Contents.{Answers, Contents, added, all_closed, answer, closed_held, deleted, is_full, none_held, part_moved, with_parts};
ghost use Rattle.holdings.specs.MarkedParts.{IsWhole, IsWritable, docnos_of, documents_of, filled, tokens_held};
ghost use Rattle.holdings.specs.Parts.{all_parts, is_live, live, sealed, without};
ghost use Rattle.holdings.specs.Placing.{IsPartsFault};

use crate::live_parts::LiveParts;
use crate::sums::held_sums;
use crate::{AddRefusal, Limits, NoSuchDoc, PartsFault};
use disk_index::{DiskIndex, MarkedPart, Snapshot};
use ri_base::{Doc, Docno, NoMemory};
use std::alloc::{AllocError, Global};
use std::marker::Model;
use std::rc::Rc;

/// Parts with their marks and the part that is being filled, within limits. It reads, together with the files of the parts on
/// disk, as the list of its live documents.
#[derive(Drop)]
pub struct Holdings {
    parts: LiveParts,
    limits: Limits,
    /// How many documents and tokens the parts have, the marked documents included.
    documents: u64,
    tokens: u64,
    generation: u64,
}

impl Model for Holdings {
    ghost use Rattle.holdings.specs.Contents.{Contents};
    ghost use Rattle.holdings.specs.Kept.{AreCounted};

    ghost Value = { Contents };

    ghost view = { λ h. record { parts = h.parts; limits = h.limits; generation = h.generation } };

    ghost invariant = { λ h. AreCounted h.parts h.limits h.documents h.tokens };
}

impl Holdings {
    /// No documents.
    pub fn new(alloc: Global, limits: Limits) -> Result<Holdings, NoMemory>
        ensures { IfOk result (λ h. h ≡ none_held limits) }
    {
        let parts = LiveParts::new(alloc, limits.part_docs)?;
        Ok(Holdings {
            parts,
            limits,
            documents: 0,
            tokens: 0,
            generation: 0,
        })
    }

    /// These closed parts, one behind the other, and none that is being filled. Each in memory has no more documents and names of
    /// fields than a segment can have.
    pub fn of_parts(
        alloc: Global,
        limits: Limits,
        parts: Vec<MarkedPart>,
    ) -> Result<Holdings, PartsFault>
        requires { All (λ m. IsWritable m.source) parts.items }
        ensures held { IfOk result (λ h. h ≡ closed_held limits parts.items) }
        ensures documents { OnOk result (documents_held parts.items ≤ limits.held_docs) }
        ensures tokens { OnOk result (tokens_held parts.items ≤ limits.held_tokens) }
        ensures distinct { OnOk result (IsDistinct bytes_eq (docnos_of parts.items)) }
        ensures fault { IfErr result (IsPartsFault limits parts.items) }

        // Parts within the limits whose live docnos are distinct are held, unless memory runs out.
        ensures honest { documents_held parts.items ≤ limits.held_docs → tokens_held parts.items ≤ limits.held_tokens
            → IsDistinct bytes_eq (docnos_of parts.items) → IfErr result (λ fault. fault ≡ PartsFault.Memory) }
    {
        let (documents, tokens) = held_sums(&parts, limits)?;
        let parts = LiveParts::of_parts(alloc, limits.part_docs, parts)?;
        Ok(Holdings {
            parts,
            limits,
            documents,
            tokens,
            generation: 0,
        })
    }

    /// How many documents are live. No two have one docno.
    pub fn live_count(&self) -> u64
        ensures live { (told : Option Files) → result ≡ length (live told self.now.parts) }
        ensures docnos { (told : Option Files) → map (λ (d : Document). d.docno) (live told self.now.parts) ≡ docnos_of (all_parts self.now.parts) }
        ensures distinct { IsDistinct bytes_eq (docnos_of (all_parts self.now.parts)) }
    {
        self.parts.live_count() as u64
    }

    /// Whether a live document has this docno.
    pub fn is_live(&self, docno: &Docno) -> bool
        ensures { result ≡ is_live self.now.parts docno.now }
    {
        self.parts.is_live(docno)
    }

    /// How many documents the parts have, the marked ones included.
    pub fn held_docs(&self) -> u64
        ensures count { result ≡ documents_held (all_parts self.now.parts) }
        ensures documents { (told : Option Files) → result ≡ length (documents_of told (all_parts self.now.parts)) }
        ensures within { result ≤ self.now.limits.held_docs }
    {
        self.documents
    }

    /// How many tokens the documents of the parts have together, the marked ones included.
    pub fn held_tokens(&self) -> u64
        ensures count { result ≡ tokens_held (all_parts self.now.parts) }
        ensures documents { (told : Option Files) → result ≡ token_count (documents_of told (all_parts self.now.parts)) }
        ensures within { result ≤ self.now.limits.held_tokens }
    {
        self.tokens
    }

    /// How many documents were added and deleted since the beginning. At 2^64 - 1 it stays.
    pub fn generation(&self) -> u64
        ensures { result ≡ self.now.generation }
    {
        self.generation
    }

    pub fn limits(&self) -> Limits
        ensures { result ≡ self.now.limits }
    {
        self.limits
    }

    /// The closed parts, of whose live documents no two have one docno. Each has a mark for each document, and one in memory has
    /// no more documents and names of fields than a segment can have.
    pub fn closed_parts(&self) -> &[MarkedPart]
        ensures parts { result.now ≡ self.now.parts.closed }
        ensures whole { All IsWhole self.now.parts.closed }
        ensures writable { All (λ m. IsWritable m.source) self.now.parts.closed }
        ensures docnos { (told : Option Files) → map (λ (d : Document). d.docno) (snapshots.live told self.now.parts.closed) ≡ docnos_of self.now.parts.closed }
        ensures distinct { IsDistinct bytes_eq (docnos_of self.now.parts.closed) }
        ensures fits { IsSnapshot self.now.parts.closed }
        ensures documents { documents_held self.now.parts.closed ≤ self.now.limits.held_docs }
        ensures tokens { tokens_held self.now.parts.closed ≤ self.now.limits.held_tokens }
    {
        self.parts.closed()
    }

    /// Whether a part is being filled, so that some document is in no closed one.
    pub fn is_filling(&self) -> bool
        ensures { result ≡ nat_lt 0 (length self.now.parts.filling) }
    {
        self.parts.is_filling()
    }

    /// Adds a document behind the live ones. The part that is being filled is closed first where it is full.
    pub fn add(&mut self, alloc: Global, doc: &Doc) -> Result<(), AddRefusal>
        ensures answer { Answers result (answer self.old doc.now) }
        ensures added { OnOk result (self.new ≡ added self.old doc.now) }
        ensures live { OnOk result ((told : Option Files) → live told self.new.parts ≡ live told self.old.parts ++ doc.now ∷ []) }
        ensures documents { OnOk result (documents_held (all_parts self.new.parts) ≡ documents_held (all_parts self.old.parts) + 1) }
        ensures tokens { OnOk result (tokens_held (all_parts self.new.parts) ≡ tokens_held (all_parts self.old.parts) + length doc.now.tokens) }
        ensures kept { OnErr result (self.new ≡ self.old) }
    {
        if self.is_live(doc.docno()) {
            return Err(AddRefusal::Repeated {
                docno: doc.docno().clone_in(alloc)?,
            });
        }
        if self.is_full(doc) {
            return Err(AddRefusal::CollectionFull {
                docno: doc.docno().clone_in(alloc)?,
            });
        }
        self.parts.put(alloc, doc, self.limits.part_docs)?;
        self.documents += 1;
        self.tokens += u64::from(doc.len());
        self.generation = self.generation.saturating_add(1);
        Ok(())
    }

    /// Whether with the document more would be held than the limits allow.
    fn is_full(&self, doc: &Doc) -> bool
        ensures { result ≡ is_full self.now doc.now }
    {
        self.documents + 1 > self.limits.held_docs
            || self.tokens + u64::from(doc.len()) > self.limits.held_tokens
    }

    /// Takes the document with this docno out of the live ones. It stays in its part, and is marked there.
    pub fn delete(&mut self, docno: &Docno) -> Result<(), NoSuchDoc>
        ensures refused { IsErr result ↔ (is_live self.old.parts docno.now ≡ false) }
        ensures deleted { OnOk result (self.new ≡ deleted self.old docno.now) }
        ensures live { OnOk result ((told : Option Files) → live told self.new.parts ≡ without docno.now (live told self.old.parts)) }
        ensures documents { documents_held (all_parts self.new.parts) ≡ documents_held (all_parts self.old.parts) }
        ensures tokens { tokens_held (all_parts self.new.parts) ≡ tokens_held (all_parts self.old.parts) }
        ensures kept { OnErr result (self.new ≡ self.old) }
    {
        if !self.parts.mark(docno) {
            return Err(NoSuchDoc);
        }
        self.generation = self.generation.saturating_add(1);
        Ok(())
    }

    /// Closes the part that is being filled, where it has documents: it becomes a part in memory.
    pub fn seal(&mut self, alloc: Global) -> Result<(), NoMemory>
        ensures closed { OnOk result (self.new ≡ all_closed self.old) }
        ensures live { (told : Option Files) → live told self.new.parts ≡ live told self.old.parts }
        ensures documents { documents_held (all_parts self.new.parts) ≡ documents_held (all_parts self.old.parts) }
        ensures tokens { tokens_held (all_parts self.new.parts) ≡ tokens_held (all_parts self.old.parts) }
        ensures kept { OnErr result (self.new ≡ self.old) }
    {
        self.parts.seal(alloc, self.limits.part_docs)?;
        Ok(())
    }

    /// Has the documents of a closed part in a file, which keeps docno, length and fields of each. All else stays: their marks, the
    /// sums, and what is live.
    pub fn store_part(&mut self, number: usize, index: Rc<DiskIndex>)
        requires inside { number < length self.old.parts.closed }
        requires same { index.value.outlines ≡ outlines_of (slice_index_or self.old.parts.closed number (filled [] [])).source }
        ensures moved { self.new ≡ part_moved self.old number (OnDisk index.value) }
        ensures docnos { docnos_of (all_parts self.new.parts) ≡ docnos_of (all_parts self.old.parts) }
        ensures documents { documents_held (all_parts self.new.parts) ≡ documents_held (all_parts self.old.parts) }
        ensures tokens { tokens_held (all_parts self.new.parts) ≡ tokens_held (all_parts self.old.parts) }
    {
        self.parts.store_part(number, index);
    }

    /// Holds these closed parts in place of its own, and none that is being filled. Each in memory has no more documents and names of
    /// fields than a segment can have. They are within the limits, and no two of their live documents have one docno.
    pub fn exchange(&mut self, alloc: Global, parts: Vec<MarkedPart>) -> Result<(), NoMemory>
        requires writable { All (λ m. IsWritable m.source) parts.items }
        requires documents { documents_held parts.items ≤ self.old.limits.held_docs }
        requires tokens { tokens_held parts.items ≤ self.old.limits.held_tokens }
        requires distinct { IsDistinct bytes_eq (docnos_of parts.items) }
        ensures held { OnOk result (self.new ≡ with_parts self.old parts.items) }
        ensures kept { OnErr result (self.new ≡ self.old) }
    {
        match Holdings::of_parts(alloc, self.limits, parts) {
            Ok(fresh) => {
                self.take_parts(fresh);
                Ok(())
            }
            Err(PartsFault::Memory) => Err(AllocError),
            Err(_) => unreachable!(),
        }
    }

    /// Holds what the other holds, within the same limits. The generation stays.
    fn take_parts(&mut self, other: Holdings)
        requires { other.limits ≡ self.old.limits }
        ensures { self.new ≡ record { parts = other.parts; limits = self.old.limits; generation = self.old.generation } }
    {
        let Holdings {
            parts,
            limits: _,
            documents,
            tokens,
            generation: _,
        } = other;
        self.parts = parts;
        self.documents = documents;
        self.tokens = tokens;
    }

    /// The live documents as they are now, of which no two have one docno. The part that is being filled is closed first, where
    /// it has documents.
    pub fn snapshot(&mut self, alloc: Global) -> Result<Snapshot, NoMemory>
        ensures parts { IfOk result (λ s. s ≡ (sealed self.old.parts).closed) }
        ensures documents { (told : Option Files) → IfOk result (λ s. snapshots.live told s ≡ live told self.old.parts) }
        ensures distinct { IfOk result (λ s. IsDistinct bytes_eq (docnos_of s)) }
        ensures closed { OnOk result (self.new ≡ all_closed self.old) }
        ensures left { OnErr result ((self.new ≡ self.old) ⊎ (self.new ≡ all_closed self.old)) }
        ensures live { (told : Option Files) → live told self.new.parts ≡ live told self.old.parts }
    {
        self.seal(alloc)?;
        Ok(Snapshot::of(alloc, self.closed_parts())?)
    }
}
