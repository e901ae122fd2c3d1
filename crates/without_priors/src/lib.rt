//! Whether a query is without priors, so that its search needs no table of them.
#![tactic(auto)]

ghost use Rattle.std.specs.Prelude.{map, All};
ghost use Rattle.std.specs.Bool.{OnFalse, OnTrue};
ghost use Rattle.query_check.specs.Leaves.{leaf_tree};
ghost use Rattle.belief_nodes.specs.Leaves.{HasPrior};

use query_check::LeafKind;

/// Whether the leaf is no prior.
fn is_no_prior(leaf: &LeafKind) -> bool
    ensures yes { OnTrue result (HasPrior 0 (leaf_tree leaf.now)) }
    ensures no { OnFalse result (HasPrior 0 (leaf_tree leaf.now) → ⊥) }
{
    match leaf {
        LeafKind::Extents(_, _) => true,
        LeafKind::Prior(_) => false,
    }
}

/// Whether no leaf is a prior.
pub fn have_no_prior(leaves: &[LeafKind]) -> bool
    ensures yes { OnTrue result (All (HasPrior 0) (map leaf_tree leaves.now)) }
    ensures no { OnFalse result (All (HasPrior 0) (map leaf_tree leaves.now) → ⊥) }
{
    for leaf in leaves {
        if !is_no_prior(leaf) {
            return false;
        }
    }
    true
}
