// Leaves of a query.
ghost use Rattle.std.specs.Prelude.{◌≡◌, ◌≤◌, ◌++◌, [], ◌∷◌, length, map, OnOk};
ghost use Rattle.ri_base.specs.Query.{belief_tree, belief_trees, weighted_tree, weighted_trees};
ghost use Rattle.query_check.specs.Check.{pruned, all_pruned, weighted_pruned, has_leaf, have_leaf, have_leaf_weighted, leaves_of, all_leaves, weighted_leaves};
ghost use Rattle.query_check.specs.Leaves.{leaf_tree};

use crate::LeafKind;
use crate::priors::prior_number;
use ri_base::{Belief, Name, NoMemory};

/// Whether some leaf is no prior, once the children of weight 0 are dropped.
#[cycle(leaves)]
#[tactic(auto, using(ri_base::proofs::QueryLemmas::belief_tree_laws), unfolding(crate::specs::Check::has_leaf, crate::specs::Check::pruned))]
fn has_leaf(x: &Belief) -> bool
    ensures { result ≡ has_leaf (pruned (belief_tree x.now)) }
{
    match x {
        Belief::Combine(all) | Belief::Max(all) => have_leaf(all),
        Belief::Weight(all) => have_leaf_weighted(all),
        Belief::Prior(_) => false,
        Belief::Leaf(..) => true,
    }
}

#[cycle(leaves)]
#[tactic(auto, using(crate::proofs::Walks::have_leaf_found, crate::proofs::Walks::have_leaf_passed, crate::proofs::Walks::have_leaf_end))]
pub(crate) fn have_leaf(all: &[Belief]) -> bool
    ensures { result ≡ have_leaf (all_pruned (belief_trees (map belief_tree all.now))) }
{
    for x in all {
        if has_leaf(x) {
            return true;
        }
    }
    false
}

#[cycle(leaves)]
#[tactic(auto, using(crate::proofs::Walks::have_leaf_weighted_found, crate::proofs::Walks::have_leaf_weighted_passed, crate::proofs::Walks::have_leaf_weighted_dropped, crate::proofs::Walks::have_leaf_weighted_end))]
fn have_leaf_weighted(all: &[(u64, Belief)]) -> bool
    ensures { result ≡ have_leaf_weighted (weighted_pruned (weighted_trees (map weighted_tree all.now))) }
{
    for (weight, x) in all {
        if *weight > 0 && has_leaf(x) {
            return true;
        }
    }
    false
}

fn push_leaf(leaves: &mut Vec<LeafKind>, leaf: LeafKind) -> Result<(), NoMemory>
    ensures { OnOk result (map leaf_tree leaves.new.items ≡ map leaf_tree leaves.old.items ++ leaf_tree leaf ∷ []) }
{
    leaves.push(leaf)?;
    Ok(())
}

/// Appends the leaves in reading order, without those of weight 0.
#[cycle(taking)]
#[tactic(auto, using(ri_base::proofs::QueryLemmas::belief_tree_laws), unfolding(crate::specs::Check::leaves_of, crate::specs::Check::pruned))]
fn take_leaves(leaves: &mut Vec<LeafKind>, x: Belief, names: &[Name]) -> Result<(), NoMemory>
    requires { length names.now ≤ 8 }
    ensures { OnOk result (map leaf_tree leaves.new.items ≡ map leaf_tree leaves.old.items ++ leaves_of names.now (pruned (belief_tree x))) }
{
    match x {
        Belief::Combine(all) | Belief::Max(all) => take_all_leaves(leaves, all, names),
        Belief::Weight(all) => take_weighted_leaves(leaves, all, names),
        Belief::Prior(name) => push_leaf(leaves, LeafKind::Prior(prior_number(&name, names))),
        Belief::Leaf(x, context) => push_leaf(leaves, LeafKind::Extents(x, context)),
    }
}

#[cycle(taking)]
#[tactic(auto, using(crate::proofs::Walks::all_leaves_start))]
pub(crate) fn take_all_leaves(
    leaves: &mut Vec<LeafKind>,
    all: Vec<Belief>,
    names: &[Name],
) -> Result<(), NoMemory>
    requires { length names.now ≤ 8 }
    ensures { OnOk result (map leaf_tree leaves.new.items ≡ map leaf_tree leaves.old.items ++ all_leaves names.now (all_pruned (belief_trees (map belief_tree all.items)))) }
{
    for x in all {
        take_leaves(leaves, x, names)?;
    }
    Ok(())
}

#[cycle(taking)]
#[tactic(auto, using(crate::proofs::Walks::weighted_leaves_start))]
fn take_weighted_leaves(
    leaves: &mut Vec<LeafKind>,
    all: Vec<(u64, Belief)>,
    names: &[Name],
) -> Result<(), NoMemory>
    requires { length names.now ≤ 8 }
    ensures { OnOk result (map leaf_tree leaves.new.items ≡ map leaf_tree leaves.old.items ++ weighted_leaves names.now (weighted_pruned (weighted_trees (map weighted_tree all.items)))) }
{
    for (weight, x) in all {
        if weight > 0 {
            take_leaves(leaves, x, names)?;
        }
    }
    Ok(())
}
