// The terms and the names of a table.
ghost use Rattle.std.specs.Prelude.{IfOk, Contains};
ghost use Rattle.std.specs.List.{All};

use indexmap::IndexSet;
use ri_base::{Name, NoMemory, Term};
use std::alloc::Global;

/// These terms, each once.
pub(crate) fn distinct_terms(alloc: Global, terms: &[Term]) -> Result<IndexSet<Term>, NoMemory>
    ensures { IfOk result (λ set. All (Contains set.keys) terms.now) }
{
    let mut set = IndexSet::new(alloc);
    for term in terms {
        set.insert(term.clone_in(alloc)?)?;
    }
    Ok(set)
}

/// These names, each once.
pub(crate) fn distinct_names(alloc: Global, names: &[Name]) -> Result<IndexSet<Name>, NoMemory>
    ensures { IfOk result (λ set. All (Contains set.keys) names.now) }
{
    let mut set = IndexSet::new(alloc);
    for name in names {
        set.insert(name.clone_in(alloc)?)?;
    }
    Ok(set)
}
