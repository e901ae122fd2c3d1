// A list of terms.
ghost use Rattle.std.specs.Prelude.{◌≡◌, IfOk};

use crate::{List, NoMemory, Term};
use std::alloc::Global;

/// Terms, seen as their list.
pub type Terms = List<Term>;

impl Terms {
    /// Equal terms.
    pub fn clone_in(&self, alloc: Global) -> Result<Terms, NoMemory>
        ensures { IfOk result (λ terms. terms ≡ self.now) }
    {
        let mut terms = Terms::new(alloc);
        for term in self.as_slice() {
            terms.push(term.clone_in(alloc)?)?;
        }
        Ok(terms)
    }
}
