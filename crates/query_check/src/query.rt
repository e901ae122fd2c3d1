// The check of a query.
ghost use Rattle.std.specs.Prelude.{◌≡◌, ◌≤◌, ◌+◌, length, map, true};
ghost use Rattle.ri_base.specs.Queries.{whole_tree};
ghost use Rattle.ri_base.specs.declared.limits.TheConstants.{MAX_QUERY_NODES};
ghost use Rattle.ri_base.specs.Query.{belief_tree, belief_trees, combine, is_sound, nodes};
ghost use Rattle.query_check.specs.Answers.{Answers};
ghost use Rattle.query_check.specs.Check.{checks, first_fault, pruned, tree_from};
ghost use Rattle.query_check.specs.Scaling.{Accepts};

use crate::leaves::{have_leaf, take_all_leaves};
use crate::priors::first_unknown;
use crate::scaling::scaled;
use crate::weights::have_weights;
use crate::{CheckFault, Checked, Tree};
use ri_base::{Belief, Name, Query};
use std::alloc::Global;

/// The checked query of a query, or its first fault in the order of `CheckFault`. The names are those of the priors that
/// are there, beside `length`, which always is.
pub fn check(alloc: Global, query: Query, priors: &[Name]) -> Result<Checked, CheckFault>
    requires few { length priors.now ≤ 8 }
    ensures exact { Answers result (checks (whole_tree query) priors.now) }
{
    let tree = accepted(alloc, &query.beliefs, priors)?;
    let mut leaves = Vec::new(alloc);
    take_all_leaves(&mut leaves, query.beliefs, priors)?;
    let scale = tree.scale();
    Ok(Checked {
        filters: query.filters,
        range: query.range,
        leaves,
        tree,
        scale,
    })
}

/// The scaled tree of beliefs without a fault.
fn accepted(alloc: Global, beliefs: &[Belief], priors: &[Name]) -> Result<Tree, CheckFault>
    requires sound { is_sound (combine (belief_trees (map belief_tree beliefs.now))) ≡ true }
    requires few { nodes (combine (belief_trees (map belief_tree beliefs.now))) ≤ MAX_QUERY_NODES + 1 }
    ensures { Accepts result (first_fault priors.now (combine (belief_trees (map belief_tree beliefs.now)))) (tree_from 0 (pruned (combine (belief_trees (map belief_tree beliefs.now))))) }
{
    if !have_weights(beliefs) {
        return Err(CheckFault::NoWeight);
    }
    if !have_leaf(beliefs) {
        return Err(CheckFault::NoLeaf);
    }
    let tree = scaled(alloc, beliefs)?;
    match first_unknown(alloc, beliefs, priors)? {
        Some(name) => Err(CheckFault::UnknownPrior { name }),
        None => Ok(tree),
    }
}
