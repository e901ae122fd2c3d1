// Blocks that a part is asked to open.
ghost use Rattle.std.specs.Prelude.{◌≡◌, ◌≤◌, ◌+◌, ◌/◌, ℕ, List, length, Err, IfErr, IfOk, OnOk};
ghost use Rattle.std.specs.List.{All};
ghost use Rattle.ri_base.specs.Faults.{IsOutside, TellsDamage};
ghost use Rattle.ri_base.specs.Keeps.{Keeps, Rose};

use crate::TermMasks;
use ri_base::{SegFault, Steps, Term};
use std::alloc::Global;
use std::sync::ledger::Ledger;

/// A part of the collection that opens the blocks of terms for a range, and answers by them from then on.
///
/// `calm` relates two of its states where the second differs from the first by no more than reading and opening may change. The blocks
/// are those of `present`, a range, and `holds` says that those of some terms are there.
pub trait OpensRanges: TermMasks {
    ghost present: { Self → ℕ };

    ghost holds: { Self → List (List ℕ) → Type 0 };

    ghost calm: { Self → Self → Type 0 };

    /// Opens the blocks of these terms for the range, unless blocks of it are held, and answers how many it opened. From then on no
    /// others are held.
    fn open_range<L: Ledger>(
        &mut self,
        alloc: Global,
        terms: &[Term],
        range: u32,
        blocks: &mut Steps<L>,
    ) -> Result<usize, SegFault>
        ensures keeps { Keeps Self.documents Self.faults Self.sound Self.intact calm self.old self.new }
        ensures present { OnOk result (present self.new ≡ range) }
        ensures holds { Self.sound self.old → OnOk result ((present self.old ≡ range → ⊥) → holds self.new terms.now) }
        ensures told { OnOk result ((present self.old ≡ range → ⊥) → All (λ t. (id : ℕ) → id / 64 ≡ range → Self.told self.old t id) terms.now) }
        ensures opened { IfOk result (λ count. blocks.new ≡ blocks.old + count) }
        ensures none { present self.old ≡ range → blocks.new ≡ blocks.old }
        ensures cost { blocks.new ≤ blocks.old + length terms.now }
        ensures honest { Self.intact self.old → IfErr result IsOutside }
        ensures undamaged { OnOk result (Self.damage self.new ≡ Self.damage self.old) }
        ensures damaged { IfErr result (TellsDamage (Self.damage self.old) (Self.damage self.new)) }
        ensures store { result ≡ Err SegFault.Store → Rose (Self.faults self.old) (Self.faults self.new) };

    // laws
    ghost calm_same: { (s : Self) → calm s s };

    ghost calm_then: { (r s t : Self) → calm r s → calm s t → calm r t };

    ghost calm_reading: { (r s : Self) → Self.quiet r s → calm r s };

    ghost present_stays: { (r s : Self) → Self.quiet r s → present s ≡ present r };
}
