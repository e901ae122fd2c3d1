// The leaves of a query that was checked.
ghost use Rattle.std.specs.Prelude.{◌≡◌, IfOk};
ghost use Rattle.query_check.specs.Leaves.{leaf_tree};

use ri_base::{ExtentExpr, Name, NoMemory};
use std::alloc::Global;

/// What a leaf of a query asks.
#[derive(Drop)]
pub enum LeafKind {
    /// An expression's extents, where there is a name within the fields of that name.
    Extents(ExtentExpr, Option<Name>),
    /// A prior: its place among the priors, and 8 for `length`.
    Prior(u8),
}

impl LeafKind {
    /// An equal leaf.
    pub fn clone_in(&self, alloc: Global) -> Result<LeafKind, NoMemory>
        ensures { IfOk result (λ leaf. leaf_tree leaf ≡ leaf_tree self.now) }
    {
        match self {
            LeafKind::Extents(x, context) => {
                let x = x.clone_in(alloc)?;
                Ok(LeafKind::Extents(x, clone_context(alloc, context)?))
            }
            LeafKind::Prior(number) => Ok(LeafKind::Prior(*number)),
        }
    }
}

fn clone_context(alloc: Global, context: &Option<Name>) -> Result<Option<Name>, NoMemory>
    ensures { IfOk result (λ name. name ≡ context.now) }
{
    match context {
        None => Ok(None),
        Some(name) => Ok(Some(name.clone_in(alloc)?)),
    }
}
