// Marks of documents.
ghost use Rattle.std.specs.Prelude.{◌≡◌, ◌<◌, ◌≤◌, ◌+◌, ◌-◌, ◌^◌, ℕ, Bool, true, false, List, [], ◌∷◌, ◌++◌, length, set, take, not, slice_index_or, replicate, IfOk, OnOk, OnErr};
ghost use Rattle.deletion_list.specs.Marks.{marked_count};

use ri_base::NoMemory;
use std::alloc::Global;
use std::marker::Model;

/// A set of ids below a number: those of the documents that are dead. It is seen as a list that says of each id whether
/// it is marked. A byte is kept for each id, and the number of those that aren't marked.
#[derive(Debug, Drop)]
pub struct DelList {
    marks: Vec<bool>,
    live: u32,
}

impl Model for DelList {
    ghost use Rattle.std.specs.Prelude.{◌≡◌, ◌<◌, ◌+◌, ◌^◌, Bool, List, length};
    ghost use Rattle.deletion_list.specs.Marks.{marked_count};

    ghost Value = { List Bool };

    ghost view = { λ l. l.marks.items };

    ghost invariant = { λ l. (l.live + marked_count l.marks.items ≡ length l.marks.items) × (length l.marks.items < 2 ^ 32) };
}

impl DelList {
    /// So many ids, none of them marked.
    #[tactic(auto, using(crate::proofs::MarkLemmas::none_marked))]
    pub fn new(alloc: Global, n: u32) -> Result<DelList, NoMemory>
        ensures { IfOk result (λ l. l ≡ replicate n false) }
    {
        let mut marks = Vec::new(alloc);
        marks.resize(n as usize, false)?;
        Ok(DelList { marks, live: n })
    }

    /// The number of ids, marked or not.
    pub fn len(&self) -> u32
        ensures { result ≡ length self.now }
    {
        self.marks.len() as u32
    }

    /// How many ids aren't marked.
    pub fn live_count(&self) -> u32
        ensures { result ≡ length self.now - marked_count self.now }
    {
        self.live
    }

    pub fn is_marked(&self, id: u32) -> bool
        requires { id < length self.now }
        ensures { result ≡ slice_index_or self.now id false }
    {
        self.marks[id as usize]
    }

    /// Marks the id. True where it wasn't marked before.
    pub fn mark(&mut self, id: u32) -> bool
        requires { id < length self.old }
        ensures before { result ≡ not (slice_index_or self.old id false) }
        ensures marks { self.new ≡ set self.old id true }
    {
        let marked = self.marks[id as usize];
        if !marked {
            self.marks[id as usize] = true;
            self.live -= 1;
        }
        !marked
    }

    /// One more id, which isn't marked.
    #[tactic(auto, using(crate::proofs::MarkLemmas::grown))]
    pub fn grow(&mut self) -> Result<(), NoMemory>
        requires { length self.old + 1 < 2 ^ 32 }
        ensures ok { OnOk result (self.new ≡ self.old ++ false ∷ []) }
        ensures err { OnErr result (self.new ≡ self.old) }
    {
        self.marks.push(false)?;
        self.live += 1;
        Ok(())
    }

    /// Takes the last id away.
    pub fn cut(&mut self)
        requires { 0 < length self.old }
        ensures { self.new ≡ take (length self.old - 1) self.old }
    {
        let last = self.marks.len() - 1;
        if !self.marks[last] {
            self.live -= 1;
        }
        self.marks.truncate(last);
    }

    /// Equal marks.
    pub fn clone_in(&self, alloc: Global) -> Result<DelList, NoMemory>
        ensures { IfOk result (λ l. l ≡ self.now) }
    {
        Ok(DelList {
            marks: self.marks.to_vec(alloc)?,
            live: self.live,
        })
    }
}
