// What a prior can be asked.
ghost use Rattle.std.specs.Prelude.{◌≡◌, ◌↔◌, true, false, Err, OnErr, OnOk};
ghost use Rattle.ri_base.specs.Ratio.{ratio_of};
ghost use Rattle.belief_nodes.specs.Priors.{IsGreatestOf, IsPrior, Prior, has_row, prior_fraction, prior_fractions, with_rest, with_row};

use ri_base::{Docno, Fraction};
use std::alloc::{AllocError, Global};
use thiserror::Error;

/// Why a prior doesn't take a row or a rest.
#[derive(Debug, Drop, PartialEq, Eq, Error)]
pub enum RowRefused {
    #[error("the docno has a row")]
    Repeated,
    #[error("the prior is no table")]
    Fixed,
    #[error("out of memory")]
    Memory,
}

impl From<AllocError> for RowRefused {
    ghost use Rattle.std.specs.Prelude.{◌≡◌};
    ghost use Rattle.belief_nodes.specs.declared.node.RowRefused.TheVariants.{Memory};

    ghost from_gives = { λ _ refused. refused ≡ Memory };

    fn from(_: AllocError) -> RowRefused {
        RowRefused::Memory
    }
}

/// A node of a query whose belief is the same in each window of a document: a prior.
pub trait BeliefNode: Drop {
    /// What the prior tells.
    ghost meaning: { Self → Prior };

    /// Whether the prior is a table, which takes rows and a rest.
    fn is_table(&self) -> bool
        ensures { result ≡ (meaning self.now).is_table };

    /// Adds the row of a docno.
    fn take_row(&mut self, alloc: Global, docno: &Docno, f: Fraction) -> Result<(), RowRefused>
        ensures taken { OnOk result (meaning self.new ≡ with_row (meaning self.old) docno.now (ratio_of f)) }
        ensures refused { OnErr result (meaning self.new ≡ meaning self.old) }
        ensures fixed { (result ≡ Err RowRefused.Fixed) ↔ ((meaning self.old).is_table ≡ false) }
        ensures repeated { (result ≡ Err RowRefused.Repeated)
            ↔ (((meaning self.old).is_table ≡ true) × (has_row (meaning self.old) docno.now ≡ true)) };

    /// Sets the fraction of the documents that have neither row nor step. It takes no memory.
    fn take_rest(&mut self, f: Fraction) -> Result<(), RowRefused>
        ensures taken { OnOk result (meaning self.new ≡ with_rest (meaning self.old) (ratio_of f)) }
        ensures refused { OnErr result ((meaning self.new ≡ meaning self.old) × (result ≡ Err RowRefused.Fixed)) }
        ensures fixed { (result ≡ Err RowRefused.Fixed) ↔ ((meaning self.old).is_table ≡ false) };

    /// The fraction of a document with that docno and that many tokens. It takes no memory.
    fn settle(&mut self, docno: &Docno, len: u32) -> Fraction
        ensures answer { ratio_of result ≡ prior_fraction (meaning self.old) docno.now len }
        ensures stays { meaning self.new ≡ meaning self.old };

    /// The greatest fraction of any document. It takes no memory.
    fn greatest(&self) -> Fraction
        ensures { IsGreatestOf (prior_fractions (meaning self.now)) (ratio_of result) };

    // law
    ghost beliefs: { (node : Self) → IsPrior (meaning node) };
}
