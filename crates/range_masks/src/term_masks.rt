// What a part tells of a term in a range of ids.
ghost use Rattle.std.specs.Prelude.{◌≡◌, ◌≤◌, ◌/◌, ℕ, Err, IfErr, IfOk, IfSome, OnOk};
ghost use Rattle.ri_base.specs.Faults.{IsOutside, TellsDamage};
ghost use Rattle.ri_base.specs.Keeps.{Keeps, Rose};
ghost use Rattle.range_masks.specs.Masks.{IsMask};
ghost use Rattle.range_masks.specs.May.{has_term};
ghost use Rattle.range_masks.specs.Most.{most_places};
ghost use Rattle.range_masks.specs.Next.{IsPassed};

use ri_base::{Postings, SegFault, Term};
use std::alloc::Global;

/// A part of the collection that tells which documents of a range have a term, and how often one of them has it at most, each by one
/// look at the term's places there.
pub trait TermMasks: Postings {
    /// Which documents of the range have the term: bit i is that of the document with the id `64 * range + i`.
    fn term_mask(&mut self, alloc: Global, term: &Term, range: u32) -> Result<u64, SegFault>
        ensures keeps { Keeps Self.documents Self.faults Self.sound Self.intact Self.quiet self.old self.new }
        ensures exact { Self.sound self.old → IfOk result (IsMask (has_term term.now) range (Self.documents self.old)) }

        // Also of a part that isn't sound, it was told of the term in each document of the range, so no malformed block is passed by.
        ensures told { IfOk result (λ _. (id : ℕ) → id / 64 ≡ range → Self.told self.old term.now id) }

        ensures honest { Self.intact self.old → IfErr result IsOutside }
        ensures undamaged { OnOk result (Self.damage self.new ≡ Self.damage self.old) }
        ensures damaged { IfErr result (TellsDamage (Self.damage self.old) (Self.damage self.new)) }
        ensures store { result ≡ Err SegFault.Store → Rose (Self.faults self.old) (Self.faults self.new) };

    /// How many places the term has at most in one document of the range.
    fn most_places(&mut self, alloc: Global, term: &Term, range: u32) -> Result<usize, SegFault>
        ensures keeps { Keeps Self.documents Self.faults Self.sound Self.intact Self.quiet self.old self.new }
        ensures exact { Self.sound self.old → IfOk result (λ most. most ≡ most_places term.now range (Self.documents self.old)) }
        ensures told { IfOk result (λ _. (id : ℕ) → id / 64 ≡ range → Self.told self.old term.now id) }
        ensures honest { Self.intact self.old → IfErr result IsOutside }
        ensures undamaged { OnOk result (Self.damage self.new ≡ Self.damage self.old) }
        ensures damaged { IfErr result (TellsDamage (Self.damage self.old) (Self.damage self.new)) }
        ensures store { result ≡ Err SegFault.Store → Rose (Self.faults self.old) (Self.faults self.new) };

    /// A range from this one on before which no document from this one on has the term; none where no document from this one on
    /// has it. No file is read.
    fn next_term_range(&self, term: &Term, from: u32) -> Option<u32>
        ensures forward { IfSome result (λ next. from ≤ next) }
        ensures passed { Self.sound self.now → IsPassed (has_term term.now) (Self.documents self.now) from result };
}
