// A prior by docnos.
ghost use Rattle.std.specs.Prelude.{◌≡◌, IfOk, [], true};
ghost use Rattle.std.specs.Option.{option_map};
ghost use Rattle.ri_base.specs.Ratio.{ratio_of};
ghost use Rattle.belief_nodes.specs.PlugLaws.{all_are_beliefs};
ghost use Rattle.belief_nodes.specs.Plugs.{greatest_row, told_of};
ghost use Rattle.belief_nodes.specs.Priors.{no_prior};

use crate::greater::greater;
use crate::node::{BeliefNode, RowRefused};
use indexmap::IndexMap;
use ri_base::{Docno, Fraction, NoMemory};
use std::alloc::{AllocError, Global};

/// A table: a fraction for each docno that has a row, and one for all other documents.
pub struct TablePlug {
    rows: IndexMap<Docno, Fraction>,
    rest: Fraction,
    greatest: Option<Fraction>,
    ghost kept: { option_map ratio_of greatest ≡ greatest_row (told_of rows.entries) },
}

impl Drop for TablePlug {
    fn drop(self) {
        let TablePlug {
            rows,
            rest: _,
            greatest: _,
        } = self;
        drop(rows);
    }
}

impl TablePlug {
    /// A table without rows that gives 1 to each document.
    pub fn new(alloc: Global) -> Result<TablePlug, NoMemory>
        ensures { IfOk result (λ plug. ⟦<TablePlug as BeliefNode>⟧.meaning plug ≡ no_prior) }
    {
        Ok(TablePlug {
            rows: IndexMap::new(alloc),
            rest: Fraction { p: 1, q: 1 },
            greatest: None,
        })
    }
}

impl BeliefNode for TablePlug {
    ghost meaning = { λ plug. record { rows = told_of plug.rows.entries; steps = []; rest = ratio_of plug.rest; is_table = true } };

    fn is_table(&self) -> bool {
        true
    }

    fn take_row(&mut self, alloc: Global, docno: &Docno, f: Fraction) -> Result<(), RowRefused> {
        if self.rows.contains_key(docno) {
            return Err(RowRefused::Repeated);
        }
        self.rows
            .insert(docno.clone_in(alloc)?, f)
            .map_err(AllocError::from)?;
        self.greatest = match self.greatest {
            Some(greatest) => Some(greater(greatest, f)),
            None => Some(f),
        };
        Ok(())
    }

    fn take_rest(&mut self, f: Fraction) -> Result<(), RowRefused> {
        self.rest = f;
        Ok(())
    }

    fn settle(&mut self, docno: &Docno, _len: u32) -> Fraction {
        match self.rows.get(docno) {
            Some(f) => *f,
            None => self.rest,
        }
    }

    fn greatest(&self) -> Fraction {
        match self.greatest {
            Some(f) => greater(self.rest, f),
            None => self.rest,
        }
    }

    ghost beliefs = { λ plug. all_are_beliefs plug.rest plug.rows.entries [] };
}
