// A prior by lengths.
ghost use Rattle.std.specs.Prelude.{◌≡◌, [], map, false};
ghost use Rattle.std.specs.List.Sorted.{IsStrictlyIncreasing};
ghost use Rattle.ri_base.specs.Ratio.{ratio_of};
ghost use Rattle.belief_nodes.specs.PlugLaws.{all_are_beliefs};
ghost use Rattle.belief_nodes.specs.Plugs.{told_of};

use crate::greater::greater;
use crate::node::{BeliefNode, RowRefused};
use ri_base::{Docno, Fraction};
use std::alloc::Global;

/// A fraction from each of some lengths of a document on, and one for all shorter documents. It is no table.
#[derive(Drop)]
pub struct LengthPlug {
    steps: Vec<(u32, Fraction)>,
    rest: Fraction,
    ghost rising: { IsStrictlyIncreasing (map (λ step. step.0) steps.items) },
}

impl LengthPlug {
    /// The fractions from each length on, in tokens, and the fraction of all shorter documents. The lengths rise.
    pub fn new(steps: Vec<(u32, Fraction)>, rest: Fraction) -> LengthPlug
        requires rising { IsStrictlyIncreasing (map (λ step. step.0) steps.items) }
        ensures { ⟦<LengthPlug as BeliefNode>⟧.meaning result
            ≡ record { rows = []; steps = told_of steps.items; rest = ratio_of rest; is_table = false } }
    {
        LengthPlug { steps, rest }
    }
}

impl BeliefNode for LengthPlug {
    ghost meaning = { λ plug. record { rows = []; steps = told_of plug.steps.items; rest = ratio_of plug.rest; is_table = false } };

    fn is_table(&self) -> bool {
        false
    }

    fn take_row(&mut self, _alloc: Global, _docno: &Docno, _f: Fraction) -> Result<(), RowRefused> {
        Err(RowRefused::Fixed)
    }

    fn take_rest(&mut self, _f: Fraction) -> Result<(), RowRefused> {
        Err(RowRefused::Fixed)
    }

    fn settle(&mut self, _docno: &Docno, len: u32) -> Fraction {
        let count = self.steps.partition_point(|step| step.0 <= len);
        if count == 0 {
            return self.rest;
        }
        self.steps[count - 1].1
    }

    fn greatest(&self) -> Fraction {
        let mut greatest = self.rest;
        for (_, f) in &self.steps {
            greatest = greater(greatest, *f);
        }
        greatest
    }

    ghost beliefs = { λ plug. all_are_beliefs plug.rest [] plug.steps.items };
}
