// The rows that are kept.
ghost use Rattle.std.specs.Prelude.{◌≡◌, ◌<◌, ◌≤◌, ◌++◌, ◌∷◌, [], Some, true, false, OnOk, IfOk, is_some, length};
ghost use Rattle.ri_base.specs.Ratio.{ratio_of};
ghost use Rattle.ri_base.specs.declared.limits.TheConstants.{PRIOR_LIMIT};
ghost use Rattle.ri_base.specs.Text.{is_docno};
ghost use Rattle.prior_lines.specs.Rows.{IsKept, is_full, none_kept, row_of, rows_seen};
ghost use Rattle.std.specs.Option.{option_map};

use indexmap::IndexMap;
use ri_base::limits::MAX_PRIOR_ROWS;
use ri_base::{Docno, Fraction, NoMemory};
use std::alloc::Global;
use std::marker::Model;

/// The rows that were accepted, in the order of their lines.
#[derive(Drop)]
pub struct KeptRows {
    rest: Option<Fraction>,
    rows: IndexMap<Docno, Fraction>,
}

impl Model for KeptRows {
    ghost use Rattle.std.specs.Option.{option_map};
    ghost use Rattle.ri_base.specs.Ratio.{ratio_of};
    ghost use Rattle.prior_lines.specs.Rows.{IsKept, Kept, rows_seen};

    ghost Value = { Kept };

    ghost view = { λ k. record { rest = option_map ratio_of k.rest; rows = rows_seen k.rows.entries } };

    ghost invariant = { λ k. IsKept (record { rest = option_map ratio_of k.rest; rows = rows_seen k.rows.entries }) };
}

impl KeptRows {
    /// No rows yet.
    pub fn new(alloc: Global) -> KeptRows
        ensures { result ≡ none_kept }
    {
        KeptRows {
            rest: None,
            rows: IndexMap::new(alloc),
        }
    }

    /// How many rows of docnos were accepted.
    pub fn len(&self) -> usize
        ensures { result ≡ length self.now.rows }
    {
        self.rows.len()
    }

    /// Whether no further docno can have a row.
    pub fn is_full(&self) -> bool
        ensures { result ≡ is_full self.now.rows }
    {
        self.len() >= MAX_PRIOR_ROWS
    }

    /// Whether there is a fraction of the documents without a row.
    pub fn has_rest(&self) -> bool
        ensures { result ≡ is_some self.now.rest }
    {
        self.rest.is_some()
    }

    /// Whether this docno has a row.
    #[tactic(auto, using(crate::proofs::RowsLemmas::has_same))]
    pub fn has_row(&self, docno: &Docno) -> bool
        ensures { result ≡ is_some (row_of docno.now self.now.rows) }
    {
        self.rows.contains_key(docno)
    }

    /// Sets the fraction of the documents without a row.
    pub(crate) fn set_rest(&mut self, fraction: Fraction)
        requires { fraction.q < PRIOR_LIMIT }
        ensures { self.new ≡ record { rest = Some (ratio_of fraction); rows = self.old.rows } }
    {
        self.rest = Some(fraction);
    }

    /// Puts a row of a new docno behind the others.
    pub(crate) fn push(&mut self, docno: Docno, fraction: Fraction) -> Result<(), NoMemory>
        requires named { is_docno docno ≡ true }
        requires new { is_some (row_of docno self.old.rows) ≡ false }
        requires room { is_full self.old.rows ≡ false }
        requires small { fraction.q < PRIOR_LIMIT }
        ensures { OnOk result (self.new ≡ record { rest = self.old.rest; rows = self.old.rows ++ (docno, ratio_of fraction) ∷ [] }) }
    {
        self.rows.insert(docno, fraction)?;
        Ok(())
    }

    /// The fraction of the documents without a row, and the rows by their docnos.
    pub(crate) fn into_parts(self) -> (Option<Fraction>, IndexMap<Docno, Fraction>)
        ensures same { record { rest = option_map ratio_of result.0; rows = rows_seen result.1.entries } ≡ self }
        ensures form { IsKept self }
    {
        (self.rest, self.rows)
    }
}
