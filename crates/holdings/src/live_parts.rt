// Parts with their marks, and where each live document is.
ghost use Rattle.std.specs.Prelude.{◌≡◌, ◌<◌, ◌≤◌, ◌+◌, ◌&&◌, ◌++◌, ◌∷◌, [], nat_le, nat_lt, ℕ, List, Option, false, length, map, slice_index_or, IsTrue, IfOk, IfErr, OnOk, OnErr};
ghost use Rattle.std.specs.List.{All, IsDistinct};
ghost use Rattle.std.specs.Str.{bytes_eq};
ghost use Rattle.ri_base.specs.Collection.{name_count, token_count};
ghost use Rattle.ri_base.specs.Documents.{Document};
ghost use Rattle.ri_base.specs.declared.limits.TheConstants.{MAX_HELD_TOKENS, MAX_PART_DOCS, MAX_PART_NAMES};
ghost use Rattle.store_ends.specs.Files.{Files};
ghost use Rattle.disk_index.specs.Parts.{InMemory, OnDisk, outlines_of, source_of};
ghost use Rattle.holdings.specs.Kept.{marked_at};
ghost use Rattle.holdings.specs.MarkedParts.{IsWhole, IsWritable, docnos_of, filled};
ghost use Rattle.holdings.specs.Parts.{all_parts, is_live, live, moved, parts_of, sealed, with_document, with_room, with_source, without_docno};
ghost use Rattle.holdings.specs.Placing.{AreWithin, IsPartsFault};
ghost use Rattle.holdings.specs.declared.limits.Limits.{Limits};

use crate::PartsFault;
use crate::closing::close;
use crate::places::insert;
use crate::placing::place_all;
use crate::spot::Spot;
use deletion_list::DelList;
use disk_index::{DiskIndex, MarkedPart, Part};
use indexmap::IndexMap;
use memory_index::{MemIndex, MemRefusal};
use ri_base::limits::MAX_PART_NAMES;
use ri_base::{Doc, Docno, NoMemory};
use std::alloc::{AllocError, Global};
use std::marker::Model;
use std::rc::Rc;

/// The closed parts, the part that is being filled, and the place of each live document by its docno.
pub struct LiveParts {
    closed: Vec<MarkedPart>,
    filling: MemIndex,
    marks: DelList,
    places: IndexMap<Docno, Spot>,
}

impl Drop for LiveParts {
    fn drop(self) {
        let LiveParts {
            closed,
            filling,
            marks,
            places,
        } = self;
        drop(closed);
        drop(filling);
        drop(marks);
        drop(places);
    }
}

impl Model for LiveParts {
    ghost use Rattle.holdings.specs.Kept.{AreKept};
    ghost use Rattle.holdings.specs.Parts.{Parts, all_parts, parts_of};

    ghost Value = { Parts };

    ghost view = { λ l. parts_of l.closed.items l.filling l.marks };

    ghost invariant = { λ l. AreKept l.filling.most l.places.entries (all_parts (parts_of l.closed.items l.filling l.marks)) };
}

impl LiveParts {
    /// No documents.
    pub fn new(alloc: Global, part_docs: u32) -> Result<LiveParts, NoMemory>
        requires some { 1 ≤ part_docs }
        requires small { part_docs ≤ MAX_PART_DOCS }
        ensures { IfOk result (λ l. l ≡ record { most = part_docs; closed = []; filling = []; marks = [] }) }
    {
        Ok(LiveParts {
            closed: Vec::new(alloc),
            filling: MemIndex::new(alloc, part_docs)?,
            marks: DelList::new(alloc, 0)?,
            places: IndexMap::new(alloc),
        })
    }

    /// These closed parts, and none that is being filled.
    pub fn of_parts(
        alloc: Global,
        part_docs: u32,
        parts: Vec<MarkedPart>,
    ) -> Result<LiveParts, PartsFault>
        requires some { 1 ≤ part_docs }
        requires small { part_docs ≤ MAX_PART_DOCS }
        requires writable { All (λ m. IsWritable m.source) parts.items }
        ensures held { IfOk result (λ l. l ≡ record { most = part_docs; closed = parts.items; filling = []; marks = [] }) }
        ensures distinct { OnOk result (IsDistinct bytes_eq (docnos_of parts.items)) }
        ensures fault { (limits : Limits) → AreWithin limits parts.items → IfErr result (IsPartsFault limits parts.items) }
    {
        let filling = MemIndex::new(alloc, part_docs)?;
        let marks = DelList::new(alloc, 0)?;
        match place_all(alloc, &parts)? {
            Ok(places) => Ok(LiveParts {
                closed: parts,
                filling,
                marks,
                places,
            }),
            Err(spot) => Err(PartsFault::Repeated {
                part: spot.part,
                id: spot.id,
            }),
        }
    }

    /// The closed parts.
    pub fn closed(&self) -> &[MarkedPart]
        ensures parts { result.now ≡ self.now.closed }
        ensures whole { All IsWhole self.now.closed }
        ensures writable { All (λ m. IsWritable m.source) self.now.closed }
        ensures distinct { IsDistinct bytes_eq (docnos_of self.now.closed) }
    {
        &self.closed
    }

    /// How many documents are live. No two have one docno.
    pub fn live_count(&self) -> usize
        ensures count { result ≡ length (docnos_of (all_parts self.now)) }
        ensures distinct { IsDistinct bytes_eq (docnos_of (all_parts self.now)) }
    {
        self.places.len()
    }

    /// Whether a live document has this docno.
    pub fn is_live(&self, docno: &Docno) -> bool
        ensures { result ≡ is_live self.now docno.now }
    {
        self.places.contains_key(docno)
    }

    /// Puts a document behind the others, where need be in a part of its own.
    pub fn put(&mut self, alloc: Global, doc: &Doc, part_docs: u32) -> Result<(), NoMemory>
        requires absent { is_live self.old doc.now.docno ≡ false }
        requires most { part_docs ≡ self.old.most }
        requires some { 1 ≤ part_docs }
        requires tokens { token_count self.old.filling + length doc.now.tokens ≤ MAX_HELD_TOKENS }
        ensures added { OnOk result (self.new ≡ with_document self.old doc.now) }
        ensures live { OnOk result ((told : Option Files) → live told self.new ≡ live told self.old ++ doc.now ∷ []) }
        ensures kept { OnErr result (self.new ≡ self.old) }
    {
        let docno = doc.docno().clone_in(alloc)?;
        self.places.reserve(1)?;
        let spot = hold(
            alloc,
            &mut self.closed,
            &mut self.filling,
            &mut self.marks,
            doc,
            part_docs,
        )?;
        insert(&mut self.places, docno, spot);
        Ok(())
    }

    /// Marks the live document with this docno, and answers whether there is one.
    pub fn mark(&mut self, docno: &Docno) -> bool
        ensures found { result ≡ is_live self.old docno.now }
        ensures marked { IsTrue result → self.new ≡ without_docno self.old docno.now }
        ensures absent { result ≡ false → self.new ≡ self.old }
    {
        match self.places.swap_remove(docno) {
            None => false,
            Some(spot) => {
                mark_at(&mut self.closed, &mut self.marks, spot);
                true
            }
        }
    }

    /// Whether a part is being filled.
    pub fn is_filling(&self) -> bool
        ensures { result ≡ nat_lt 0 (length self.now.filling) }
    {
        self.filling.len() > 0
    }

    /// Closes the part that is being filled, where it has documents.
    pub fn seal(&mut self, alloc: Global, part_docs: u32) -> Result<(), NoMemory>
        requires most { part_docs ≡ self.old.most }
        requires some { 1 ≤ part_docs }
        ensures sealed { OnOk result (self.new ≡ sealed self.old) }
        ensures kept { OnErr result (self.new ≡ self.old) }
    {
        if self.filling.len() == 0 {
            return Ok(());
        }
        let fresh = MemIndex::new(alloc, part_docs)?;
        let fresh_marks = DelList::new(alloc, 0)?;
        close(
            alloc,
            &mut self.closed,
            &mut self.filling,
            &mut self.marks,
            fresh,
            fresh_marks,
        )?;
        Ok(())
    }

    /// Has the documents of a closed part in a file, which keeps them. Their marks and places stay.
    pub fn store_part(&mut self, number: usize, index: Rc<DiskIndex>)
        requires inside { number < length self.old.closed }
        requires same { index.value.outlines ≡ outlines_of (slice_index_or self.old.closed number (filled [] [])).source }
        ensures { self.new ≡ moved self.old number (OnDisk index.value) }
    {
        move_part(&mut self.closed, number, Part::Disk(index));
    }
}

/// Has the documents of one of these parts elsewhere.
fn move_part(parts: &mut Vec<MarkedPart>, number: usize, part: Part)
    requires inside { number < length parts.old.items }
    requires same { outlines_of (source_of part) ≡ outlines_of (slice_index_or parts.old.items number (filled [] [])).source }
    ensures { parts.new.items ≡ with_source parts.old.items number (source_of part) }
{
    let marked = &mut parts[number];
    marked.set_part(part);
}

/// Keeps a document behind the others, where need be in a part of its own, and answers its place.
fn hold(
    alloc: Global,
    closed: &mut Vec<MarkedPart>,
    filling: &mut MemIndex,
    marks: &mut DelList,
    doc: &Doc,
    part_docs: u32,
) -> Result<Spot, NoMemory>
    requires some { 1 ≤ part_docs }
    requires small { part_docs ≤ MAX_PART_DOCS }
    requires most { part_docs ≡ filling.old.most }
    requires whole { length marks.old ≡ length filling.old.documents }
    requires tokens { token_count filling.old.documents + length doc.now.tokens ≤ MAX_HELD_TOKENS }
    ensures held { OnOk result (parts_of closed.new.items filling.new marks.new ≡ with_document (parts_of closed.old.items filling.old marks.old) doc.now) }
    ensures part { IfOk result (λ s. s.part ≡ length (with_room (parts_of closed.old.items filling.old marks.old) doc.now).closed) }
    ensures id { IfOk result (λ s. s.id ≡ length (with_room (parts_of closed.old.items filling.old marks.old) doc.now).filling) }
    ensures writable { OnOk result (IsWritable (InMemory filling.new.documents)) }
    ensures same_closed { OnErr result (closed.new.items ≡ closed.old.items) }
    ensures same_filling { OnErr result (filling.new ≡ filling.old) }
    ensures same_marks { OnErr result (marks.new ≡ marks.old) }
{
    if has_room(filling, doc, part_docs) {
        let spot = Spot {
            part: closed.len(),
            id: filling.len(),
        };
        append(alloc, filling, marks, doc)?;
        return Ok(spot);
    }
    // its fields keep the form of a document's, so they are few
    let _fields = doc.fields();
    let mut fresh = MemIndex::new(alloc, part_docs)?;
    let mut fresh_marks = DelList::new(alloc, 0)?;
    append(alloc, &mut fresh, &mut fresh_marks, doc)?;
    close(alloc, closed, filling, marks, fresh, fresh_marks)?;
    Ok(Spot {
        part: closed.len(),
        id: 0,
    })
}

/// Whether the part that is being filled has room for the document.
fn has_room(filling: &MemIndex, doc: &Doc, part_docs: u32) -> bool
    requires { part_docs ≡ filling.now.most }
    ensures { result ≡ (nat_lt (length filling.now.documents) filling.now.most && nat_le (name_count (filling.now.documents ++ doc.now ∷ [])) MAX_PART_NAMES) }
{
    filling.len() < part_docs && filling.names_with(doc) <= MAX_PART_NAMES as u64
}

/// Keeps a document in the part that is being filled, which has room for it. The room for its mark is made first.
fn append(
    alloc: Global,
    filling: &mut MemIndex,
    marks: &mut DelList,
    doc: &Doc,
) -> Result<(), NoMemory>
    requires room { length filling.old.documents < filling.old.most }
    requires few { length marks.old < MAX_PART_DOCS }
    requires tokens { token_count filling.old.documents + length doc.now.tokens ≤ MAX_HELD_TOKENS }
    ensures filling { OnOk result (filling.new ≡ record { most = filling.old.most; documents = filling.old.documents ++ doc.now ∷ [] }) }
    ensures marks { OnOk result (marks.new ≡ marks.old ++ false ∷ []) }
    ensures same_filling { OnErr result (filling.new ≡ filling.old) }
    ensures same_marks { OnErr result (marks.new ≡ marks.old) }
{
    marks.grow()?;
    match filling.add(alloc, doc) {
        Ok(_) => Ok(()),
        Err(MemRefusal::IndexFull) => unreachable!(),
        Err(MemRefusal::Memory) => {
            marks.cut();
            Err(AllocError)
        }
    }
}

/// Marks the document at this place.
fn mark_at(closed: &mut Vec<MarkedPart>, marks: &mut DelList, spot: Spot)
    requires room { spot.id < length (slice_index_or (closed.old.items ++ filled [] marks.old ∷ []) spot.part (filled [] [])).marks }
    requires whole { All IsWhole closed.old.items }
    ensures { (docs : List Document) → closed.new.items ++ filled docs marks.new ∷ [] ≡ marked_at (closed.old.items ++ filled docs marks.old ∷ []) spot.part spot.id }
{
    if spot.part < closed.len() {
        let marked = &mut closed[spot.part];
        let _ = marked.mark(spot.id);
    } else {
        let _ = marks.mark(spot.id);
    }
}
