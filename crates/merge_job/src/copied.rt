// Documents that were copied, cut into parts.
ghost use Rattle.std.specs.Prelude.{◌≡◌, ◌<◌, ◌≤◌, ◌+◌, ◌-◌, ◌^◌, ◌++◌, ◌∷◌, [], false, length, replicate, IsTrue, IfOk, IfErr, OnOk, OnErr, MatchResult};
ghost use Rattle.std.specs.List.{All};
ghost use Rattle.ri_base.specs.Collection.{name_count, token_count};
ghost use Rattle.ri_base.specs.declared.limits.TheConstants.{MAX_HELD_TOKENS, MAX_PART_DOCS, MAX_PART_NAMES};
ghost use Rattle.merge_job.specs.Closed.{AreClosed, IsUnmarked};
ghost use Rattle.merge_job.specs.Cut.{AreCopies, Takes};
ghost use Rattle.merge_job.specs.NewParts.{all_docs, docs_in};

use crate::MergedPart;
use deletion_list::DelList;
use memory_index::{MemIndex, MemRefusal};
use ri_base::limits::MAX_PART_NAMES;
use ri_base::{Doc, NoMemory};
use std::alloc::{AllocError, Global};
use std::marker::Model;
use std::mem;

/// Documents that were copied, cut into parts of which the last is being filled, seen as their list and the most documents of a
/// part.
pub(crate) struct Copied {
    most: u32,
    count: u64,
    parts: Vec<MergedPart>,
    filling: MemIndex,
}

impl Drop for Copied {
    fn drop(self) {
        let Copied {
            parts,
            filling,
            most: _,
            count: _,
        } = self;
        drop(parts);
        drop(filling);
    }
}

impl Model for Copied {
    ghost use Rattle.std.specs.Prelude.{◌≡◌, ◌++◌, length};
    ghost use Rattle.std.specs.List.{All};
    ghost use Rattle.merge_job.specs.Closed.{IsUnmarked};
    ghost use Rattle.merge_job.specs.Cut.{AreCopies, Copies};
    ghost use Rattle.merge_job.specs.NewParts.{all_docs, docs_in};

    ghost Value = { Copies };

    ghost view = { λ c. record { most = c.most; docs = all_docs c.parts.items ++ c.filling.documents } };

    ghost invariant = { λ c. (c.filling.most ≡ c.most) × (All IsUnmarked c.parts.items)
        × AreCopies c.most (docs_in c.parts.items) c.filling.documents × (c.count ≡ length (all_docs c.parts.items ++ c.filling.documents)) };
}

impl Copied {
    /// No documents.
    pub(crate) fn new(alloc: Global, most: u32) -> Result<Copied, NoMemory>
        requires some { 1 ≤ most }
        requires small { most ≤ MAX_PART_DOCS }
        ensures { IfOk result (λ c. c ≡ record { most = most; docs = [] }) }
    {
        Ok(Copied {
            most,
            count: 0,
            parts: Vec::new(alloc),
            filling: MemIndex::new(alloc, most)?,
        })
    }

    /// How many documents were copied.
    pub(crate) fn len(&self) -> u64
        ensures { result ≡ length self.now.docs }
    {
        self.count
    }

    /// Puts a document behind the others, where need be in a part of its own.
    pub(crate) fn put(&mut self, alloc: Global, doc: &Doc) -> Result<(), NoMemory>
        requires room { length self.old.docs < 2 ^ 64 - 1 }
        requires tokens { token_count self.old.docs + length doc.now.tokens ≤ MAX_HELD_TOKENS }
        ensures put { OnOk result (self.new ≡ record { most = self.old.most; docs = self.old.docs ++ doc.now ∷ [] }) }
        ensures kept { OnErr result (self.new ≡ self.old) }
    {
        place(alloc, &mut self.parts, &mut self.filling, self.most, doc)?;
        self.count += 1;
        Ok(())
    }

    /// The parts, in which no document is marked. Where memory is wanting, all comes back as it was.
    pub(crate) fn close(self, alloc: Global) -> Result<Vec<MergedPart>, (Copied, NoMemory)>
        ensures { MatchResult result (λ ps. AreClosed self ps.items) (λ e. e.0 ≡ self) }
    {
        let Copied {
            most,
            count,
            mut parts,
            filling,
        } = self;
        if filling.len() == 0 {
            return Ok(parts);
        }
        match end(alloc, &mut parts, filling) {
            Ok(()) => Ok(parts),
            Err((filling, e)) => Err((
                Copied {
                    most,
                    count,
                    parts,
                    filling,
                },
                e,
            )),
        }
    }
}

/// Whether a part of these documents can take one more.
fn takes(filling: &MemIndex, most: u32, doc: &Doc) -> bool
    ensures yes { IsTrue result → Takes most filling.now.documents doc.now }
    ensures no { result ≡ false → Takes most filling.now.documents doc.now → ⊥ }
{
    filling.len() < most && filling.names_with(doc) <= MAX_PART_NAMES as u64
}

/// Puts a document behind the others, where need be in a part of its own.
fn place(
    alloc: Global,
    parts: &mut Vec<MergedPart>,
    filling: &mut MemIndex,
    most: u32,
    doc: &Doc,
) -> Result<(), NoMemory>
    requires cut { AreCopies most (docs_in parts.old.items) filling.old.documents }
    requires same { filling.old.most ≡ most }
    requires unmarked { All IsUnmarked parts.old.items }
    requires tokens { token_count filling.old.documents + length doc.now.tokens ≤ MAX_HELD_TOKENS }
    ensures docs { OnOk result (all_docs parts.new.items ++ filling.new.documents
        ≡ (all_docs parts.old.items ++ filling.old.documents) ++ doc.now ∷ []) }
    ensures cut { OnOk result (AreCopies most (docs_in parts.new.items) filling.new.documents) }
    ensures unmarked { OnOk result (All IsUnmarked parts.new.items) }
    ensures same { OnOk result (filling.new.most ≡ most) }
    ensures same_parts { OnErr result (parts.new.items ≡ parts.old.items) }
    ensures same_filling { OnErr result (filling.new ≡ filling.old) }
{
    if takes(filling, most, doc) {
        fill(alloc, filling, doc)?;
        return Ok(());
    }
    cut(alloc, parts, filling, most, doc)?;
    Ok(())
}

/// Puts a document into an index that has room for it.
fn fill(alloc: Global, filling: &mut MemIndex, doc: &Doc) -> Result<(), NoMemory>
    requires room { length filling.old.documents < filling.old.most }
    requires tokens { token_count filling.old.documents + length doc.now.tokens ≤ MAX_HELD_TOKENS }
    ensures put { OnOk result (filling.new ≡ record { most = filling.old.most; documents = filling.old.documents ++ doc.now ∷ [] }) }
    ensures kept { OnErr result (filling.new ≡ filling.old) }
{
    match filling.add(alloc, doc) {
        Ok(_) => Ok(()),
        Err(MemRefusal::IndexFull) => unreachable!(),
        Err(MemRefusal::Memory) => Err(AllocError),
    }
}

/// Closes the part that is being filled, and begins another with the document.
fn cut(
    alloc: Global,
    parts: &mut Vec<MergedPart>,
    filling: &mut MemIndex,
    most: u32,
    doc: &Doc,
) -> Result<(), NoMemory>
    requires some { 1 ≤ most }
    requires small { most ≤ MAX_PART_DOCS }
    requires tokens { length doc.now.tokens ≤ MAX_HELD_TOKENS }
    ensures closed { OnOk result (parts.new.items
        ≡ parts.old.items ++ record { docs = filling.old.documents; marks = replicate (length filling.old.documents) false } ∷ []) }
    ensures named { OnOk result (name_count (doc.now ∷ []) ≤ MAX_PART_NAMES) }
    ensures begun { OnOk result (filling.new ≡ record { most = most; documents = doc.now ∷ [] }) }
    ensures same_parts { OnErr result (parts.new.items ≡ parts.old.items) }
    ensures same_filling { OnErr result (filling.new ≡ filling.old) }
{
    // its fields keep the form of a document's, so they are few
    let _fields = doc.fields();
    let mut fresh = MemIndex::new(alloc, most)?;
    fill(alloc, &mut fresh, doc)?;
    let full = mem::replace(filling, fresh);
    match end(alloc, parts, full) {
        Ok(()) => Ok(()),
        Err((full, e)) => {
            *filling = full;
            Err(e)
        }
    }
}

/// Puts the part of these documents behind the others. Where memory is wanting, all comes back as it was.
fn end(
    alloc: Global,
    parts: &mut Vec<MergedPart>,
    filling: MemIndex,
) -> Result<(), (MemIndex, NoMemory)>
    ensures closed { OnOk result (parts.new.items
        ≡ parts.old.items ++ record { docs = filling.documents; marks = replicate (length filling.documents) false } ∷ []) }
    ensures back { IfErr result (λ e. e.0 ≡ filling) }
    ensures same_parts { OnErr result (parts.new.items ≡ parts.old.items) }
{
    if parts.reserve(1).is_err() {
        return Err((filling, AllocError));
    }
    let Ok(marks) = DelList::new(alloc, filling.len()) else {
        return Err((filling, AllocError));
    };
    match filling.seal(alloc) {
        Ok(docs) => {
            parts.push_reserved(MergedPart { docs, marks });
            Ok(())
        }
        Err(back) => Err(back),
    }
}
