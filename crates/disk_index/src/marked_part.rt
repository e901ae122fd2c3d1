// A part of the collection with the marks of its dead documents.
ghost use Rattle.std.specs.Prelude.{◌≡◌, ◌<◌, ◌≤◌, Option, length, set, true, false, not, slice_index_or, if◌then◌else◌, IfOk};
ghost use Rattle.ri_base.specs.Collection.{token_count};
ghost use Rattle.store_ends.specs.Files.{Files};
ghost use Rattle.disk_index.specs.Parts.{outlines_of, reads, size, source_of};
ghost use Rattle.disk_index.specs.Snapshots.{Marked, live_in};

use crate::Part;
use deletion_list::DelList;
use ri_base::NoMemory;
use std::alloc::Global;
use std::marker::Model;

/// A part with a mark for each of its documents that is dead, seen as where its documents are and which of them are dead. How
/// many tokens all its documents have, and how many the live ones, is kept.
pub struct MarkedPart {
    part: Part,
    marks: DelList,
    tokens: u64,
    live_tokens: u64,
}

impl Drop for MarkedPart {
    fn drop(self) {
        let MarkedPart {
            part,
            marks,
            tokens: _,
            live_tokens: _,
        } = self;
        drop(part);
        drop(marks);
    }
}

impl Model for MarkedPart {
    ghost use Rattle.disk_index.specs.Parts.{source_of};
    ghost use Rattle.disk_index.specs.Snapshots.{AreCounted, Marked};

    ghost Value = { Marked };

    ghost view = { λ m. record { source = source_of m.part; marks = m.marks } };

    ghost invariant = { λ m. AreCounted (source_of m.part) m.marks m.tokens m.live_tokens };
}

impl MarkedPart {
    /// The part with these marks. The lengths of its documents are gone over once.
    pub fn new(part: Part, marks: DelList) -> MarkedPart
        requires { length marks ≡ size (source_of part) }
        ensures { result ≡ record { source = source_of part; marks = marks } }
    {
        let mut tokens = 0;
        let mut live_tokens = 0;
        for id in 0..part.docs() {
            let length = u64::from(part.length(id));
            tokens += length;
            live_tokens += unless(marks.is_marked(id), length);
        }
        MarkedPart {
            part,
            marks,
            tokens,
            live_tokens,
        }
    }

    /// The same part with the same marks once more. The part is shared, and nothing of a document is copied.
    pub fn share(&self, alloc: Global) -> Result<MarkedPart, NoMemory>
        ensures { IfOk result (λ m. m ≡ self.now) }
    {
        Ok(MarkedPart {
            part: self.part.share()?,
            marks: self.marks.clone_in(alloc)?,
            tokens: self.tokens,
            live_tokens: self.live_tokens,
        })
    }

    /// The part without its marks.
    pub fn part(&self) -> &Part
        ensures part { source_of result.now ≡ self.now.source }
        ensures whole { length self.now.marks ≡ size self.now.source }
    {
        &self.part
    }

    /// The marks of its documents.
    pub fn marks(&self) -> &DelList
        ensures marks { result.now ≡ self.now.marks }
        ensures whole { length self.now.marks ≡ size self.now.source }
    {
        &self.marks
    }

    /// Whether the document is dead.
    pub fn is_marked(&self, id: u32) -> bool
        requires { id < size self.now.source }
        ensures { result ≡ slice_index_or self.now.marks id false }
    {
        self.marks.is_marked(id)
    }

    /// Marks the document as dead. True where it was live.
    pub fn mark(&mut self, id: u32) -> bool
        requires { id < size self.old.source }
        ensures before { result ≡ not (slice_index_or self.old.marks id false) }
        ensures marks { self.new ≡ record { source = self.old.source; marks = set self.old.marks id true } }
    {
        let length = u64::from(self.part.length(id));
        let was_live = self.marks.mark(id);
        self.live_tokens -= unless(!was_live, length);
        was_live
    }

    /// Has its documents in another part, which has each of them under its id with docno, length and fields. Their marks stay.
    pub fn set_part(&mut self, part: Part)
        requires { outlines_of (source_of part) ≡ outlines_of self.old.source }
        ensures { self.new ≡ record { source = source_of part; marks = self.old.marks } }
    {
        self.part = part;
    }

    /// How many documents are live.
    pub fn live_count(&self) -> u32
        ensures exact { (told : Option Files) → result ≡ length (live_in told self.now) }
        ensures most { result ≤ size self.now.source }
    {
        self.marks.live_count()
    }

    /// How many tokens the live documents have.
    pub fn token_count(&self) -> u64
        ensures { (told : Option Files) → result ≡ token_count (live_in told self.now) }
    {
        self.live_tokens
    }

    /// How many tokens all documents have, the dead ones among them.
    pub fn held_tokens(&self) -> u64
        ensures { (told : Option Files) → result ≡ token_count (reads told self.now.source) }
    {
        self.tokens
    }
}

/// The number, or 0 where it is left out.
fn unless(is_out: bool, number: u64) -> u64
    ensures { result ≡ (if is_out then 0 else number) }
{
    if is_out { 0 } else { number }
}
