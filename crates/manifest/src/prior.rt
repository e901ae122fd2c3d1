// The rows of a prior.
ghost use Rattle.std.specs.Prelude.{◌≡◌, map, option_map};
ghost use Rattle.ri_base.specs.Ratio.{ratio_of};
ghost use Rattle.manifest.specs.PriorFits.{IsPrior};
ghost use Rattle.manifest.specs.Priors.{row_of};

use ri_base::{Docno, Fraction};
use std::marker::Model;

/// The beliefs of a prior: rows by rising docno, and that of the documents without a row, where there is one. There are
/// at most 1,048,576 rows, and all numbers are below 10^18.
#[derive(Debug, Drop)]
pub struct PriorRows {
    rest: Option<Fraction>,
    rows: Vec<(Docno, Fraction)>,
}

impl Model for PriorRows {
    ghost use Rattle.std.specs.Prelude.{map, option_map};
    ghost use Rattle.ri_base.specs.Ratio.{ratio_of};
    ghost use Rattle.manifest.specs.PriorFits.{IsPrior};
    ghost use Rattle.manifest.specs.Priors.{PriorTable, row_of};

    ghost Value = { PriorTable };

    ghost view = { λ p. record { rest = option_map ratio_of p.rest; rows = map row_of p.rows.items } };

    ghost invariant = { λ p. IsPrior (record { rest = option_map ratio_of p.rest; rows = map row_of p.rows.items }) };
}

impl PriorRows {
    pub fn of(rest: Option<Fraction>, rows: Vec<(Docno, Fraction)>) -> PriorRows
        requires { IsPrior (record { rest = option_map ratio_of rest; rows = map row_of rows.items }) }
        ensures { result ≡ record { rest = option_map ratio_of rest; rows = map row_of rows.items } }
    {
        PriorRows { rest, rows }
    }

    /// The belief of the documents without a row.
    pub fn rest(&self) -> Option<Fraction>
        ensures { option_map ratio_of result ≡ self.now.rest }
    {
        self.rest
    }

    /// The rows by rising docno.
    pub fn rows(&self) -> &[(Docno, Fraction)]
        ensures same { map row_of result.now ≡ self.now.rows }
        ensures form { IsPrior self.now }
    {
        self.rows.as_slice()
    }
}
