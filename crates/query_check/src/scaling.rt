// The scaled tree of a query's beliefs.
ghost use Rattle.std.specs.Prelude.{◌≡◌, ◌<◌, ◌+◌, ◌^◌, map, OnOk};
ghost use Rattle.ri_base.specs.Query.{belief_tree, belief_trees, weighted_tree, weighted_trees, combine};
ghost use Rattle.query_check.specs.Check.{pruned, all_pruned, weighted_pruned, leaf_count, all_leaf_count, weighted_leaf_count, tree_from, trees_from, weighted_trees_from};
ghost use Rattle.query_check.specs.Scale.{scale, common, weighted_common};
ghost use Rattle.query_check.specs.Scaling.{Scales, ScalesAll, ScalesWeighted};

use crate::weights::divisor;
use crate::{CheckFault, Tree};
use ri_base::Belief;
use std::alloc::Global;

/// Takes the next number.
fn take_number(next: &mut u32) -> u32
    requires { next.old + 1 < 2 ^ 32 }
    ensures number { result ≡ next.old }
    ensures next { next.new ≡ next.old + 1 }
{
    let number = *next;
    *next += 1;
    number
}

/// The scaled tree of a belief, whose leaves have the numbers from the next on.
#[cycle(scaling)]
#[tactic(auto, using(ri_base::proofs::QueryLemmas::belief_tree_laws, crate::proofs::TreeLemmas::scaled_tree_laws), unfolding(crate::specs::Check::tree_from, crate::specs::Check::pruned, crate::specs::Check::leaf_count))]
fn scale_belief(alloc: Global, x: &Belief, next: &mut u32) -> Result<Tree, CheckFault>
    requires positive { 0 < scale (tree_from next.old (pruned (belief_tree x.now))) }
    requires room { next.old + leaf_count (pruned (belief_tree x.now)) < 2 ^ 32 }
    ensures tree { Scales result (tree_from next.old (pruned (belief_tree x.now))) }
    ensures next { OnOk result (next.new ≡ next.old + leaf_count (pruned (belief_tree x.now))) }
{
    match x {
        Belief::Combine(all) => Tree::combine(scale_all(alloc, all, next)?),
        Belief::Max(all) => Tree::max(scale_all(alloc, all, next)?),
        Belief::Weight(all) => Tree::weight(scale_weighted(alloc, all, divisor(all), next)?),
        Belief::Prior(_) | Belief::Leaf(..) => Ok(Tree::Leaf(take_number(next))),
    }
}

/// The scaled trees of beliefs.
#[cycle(scaling)]
fn scale_all(alloc: Global, all: &[Belief], next: &mut u32) -> Result<Vec<Tree>, CheckFault>
    requires positive { 0 < common (trees_from next.old (all_pruned (belief_trees (map belief_tree all.now)))) }
    requires room { next.old + all_leaf_count (all_pruned (belief_trees (map belief_tree all.now))) < 2 ^ 32 }
    ensures trees { ScalesAll result (trees_from next.old (all_pruned (belief_trees (map belief_tree all.now)))) }
    ensures next { OnOk result (next.new ≡ next.old + all_leaf_count (all_pruned (belief_trees (map belief_tree all.now)))) }
{
    let mut trees = Vec::new(alloc);
    for x in all {
        trees.push(scale_belief(alloc, x, next)?)?;
    }
    Ok(trees)
}

/// The scaled trees of beliefs with a weight above 0, each with its weight divided by the divisor.
#[cycle(scaling)]
fn scale_weighted(
    alloc: Global,
    all: &[(u64, Belief)],
    divisor: u64,
    next: &mut u32,
) -> Result<Vec<(u64, Tree)>, CheckFault>
    requires some { 0 < divisor }
    requires positive { 0 < weighted_common (weighted_trees_from divisor next.old (weighted_pruned (weighted_trees (map weighted_tree all.now)))) }
    requires room { next.old + weighted_leaf_count (weighted_pruned (weighted_trees (map weighted_tree all.now))) < 2 ^ 32 }
    ensures trees { ScalesWeighted result (weighted_trees_from divisor next.old (weighted_pruned (weighted_trees (map weighted_tree all.now)))) }
    ensures next { OnOk result (next.new ≡ next.old + weighted_leaf_count (weighted_pruned (weighted_trees (map weighted_tree all.now)))) }
{
    let mut trees = Vec::new(alloc);
    for (weight, x) in all {
        if *weight == 0 {
            continue;
        }
        let tree = scale_belief(alloc, x, next)?;
        trees.push((*weight / divisor, tree))?;
    }
    Ok(trees)
}

/// The scaled tree of beliefs as the arguments of one `#combine`.
pub(crate) fn scaled(alloc: Global, all: &[Belief]) -> Result<Tree, CheckFault>
    requires positive { 0 < scale (tree_from 0 (pruned (combine (belief_trees (map belief_tree all.now))))) }
    requires room { leaf_count (pruned (combine (belief_trees (map belief_tree all.now)))) < 2 ^ 32 }
    ensures { Scales result (tree_from 0 (pruned (combine (belief_trees (map belief_tree all.now))))) }
{
    let mut next = 0;
    Tree::combine(scale_all(alloc, all, &mut next)?)
}
