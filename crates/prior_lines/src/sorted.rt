// The rows of a prior, as its file has them.
ghost use Rattle.std.specs.Prelude.{◌≡◌, IfOk, map};
ghost use Rattle.std.specs.List.Sorted.{IsPermutation};
ghost use Rattle.manifest.specs.PriorFits.{IsPrior};
ghost use Rattle.prior_lines.specs.Rows.{prior_row};

use crate::rows::KeptRows;
use manifest::PriorRows;
use ri_base::{Docno, Fraction, NoMemory};
use std::alloc::Global;

impl KeptRows {
    /// The rows of the prior, in rising order of their docnos.
    pub fn into_rows(self, alloc: Global) -> Result<PriorRows, NoMemory>
        ensures rest { IfOk result (λ prior. prior.rest ≡ self.rest) }
        ensures rows { IfOk result (λ prior. IsPermutation (map prior_row self.rows) prior.rows) }
        ensures form { IfOk result IsPrior }
    {
        let (rest, mut map) = self.into_parts();
        map.sort_keys()?;
        let rows: Vec<(Docno, Fraction)> = map.into_iter().collect(alloc)?;
        Ok(PriorRows::of(rest, rows))
    }
}
