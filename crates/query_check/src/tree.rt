// The beliefs of a query that was checked.
ghost use Rattle.std.specs.Prelude.{◌≡◌, ◌<◌, ◌*◌, ◌+◌, map, true, IfOk};
ghost use Rattle.query_check.specs.Limit.{below_limit};
ghost use Rattle.query_check.specs.Scale.{count, total, common, weighted_common, is_scaled, are_scaled, are_weighted_scaled, scale};
ghost use Rattle.query_check.specs.Check.{combined, weighed, greatest_of};
ghost use Rattle.query_check.specs.Scaling.{Scales};
ghost use Rattle.query_check.specs.Trees.{scaled_tree, scaled_trees, weighted_scaled_tree, weighted_scaled_trees};

use crate::CheckFault;
use crate::multiples::{least_common_multiple, product, sum};
use ri_base::NoMemory;
use std::alloc::Global;

/// The beliefs of a query that was checked. The number before the arguments is the scale of the operator.
#[derive(Drop)]
pub enum Tree {
    /// The leaf of this number.
    Leaf(u32),
    Combine(u64, Vec<Tree>),
    /// The arguments, each with its weight.
    Weight(u64, Vec<(u64, Tree)>),
    Max(u64, Vec<Tree>),
}

impl Tree {
    /// An equal tree.
    #[cycle(cloning)]
    #[tactic(auto, using(crate::proofs::TreeLemmas::scaled_tree_laws))]
    pub fn clone_in(&self, alloc: Global) -> Result<Tree, NoMemory>
        ensures { IfOk result (λ tree. scaled_tree tree ≡ scaled_tree self.now) }
    {
        match self {
            Tree::Leaf(number) => Ok(Tree::Leaf(*number)),
            Tree::Combine(scale, trees) => Ok(Tree::Combine(*scale, clone_all(alloc, trees)?)),
            Tree::Weight(scale, trees) => Ok(Tree::Weight(*scale, clone_weighted(alloc, trees)?)),
            Tree::Max(scale, trees) => Ok(Tree::Max(*scale, clone_all(alloc, trees)?)),
        }
    }

    /// The scale that stands in the tree.
    #[tactic(auto, using(crate::proofs::TreeLemmas::scaled_tree_laws, crate::proofs::Scales::number_is))]
    pub(crate) fn scale(&self) -> u64
        requires { is_scaled (scaled_tree self.now) ≡ true }
        ensures { result ≡ scale (scaled_tree self.now) }
    {
        match self {
            Tree::Leaf(_) => 1,
            Tree::Combine(scale, _) | Tree::Weight(scale, _) | Tree::Max(scale, _) => *scale,
        }
    }

    /// The operator `#combine` over these arguments.
    #[tactic(auto, using(crate::proofs::TreeLemmas::scaled_tree_laws, crate::proofs::Combined::combined_is))]
    pub(crate) fn combine(trees: Vec<Tree>) -> Result<Tree, CheckFault>
        requires scaled { are_scaled (scaled_trees (map scaled_tree trees.items)) ≡ true }
        requires positive { 0 < scale (combined (scaled_trees (map scaled_tree trees.items))) }
        ensures { Scales result (combined (scaled_trees (map scaled_tree trees.items))) }
    {
        let Some(multiple) = common_multiple(&trees) else {
            return Err(CheckFault::ScaleTooLarge);
        };
        let Some(scale) = product(trees.len() as u64, multiple) else {
            return Err(CheckFault::ScaleTooLarge);
        };
        Ok(Tree::Combine(scale, trees))
    }

    /// The operator `#max` over these arguments.
    pub(crate) fn max(trees: Vec<Tree>) -> Result<Tree, CheckFault>
        requires scaled { are_scaled (scaled_trees (map scaled_tree trees.items)) ≡ true }
        requires positive { 0 < scale (greatest_of (scaled_trees (map scaled_tree trees.items))) }
        ensures { Scales result (greatest_of (scaled_trees (map scaled_tree trees.items))) }
    {
        let Some(scale) = common_multiple(&trees) else {
            return Err(CheckFault::ScaleTooLarge);
        };
        Ok(Tree::Max(scale, trees))
    }

    /// The operator `#weight` over these arguments.
    pub(crate) fn weight(trees: Vec<(u64, Tree)>) -> Result<Tree, CheckFault>
        requires scaled { are_weighted_scaled (weighted_scaled_trees (map weighted_scaled_tree trees.items)) ≡ true }
        requires positive { 0 < scale (weighed (weighted_scaled_trees (map weighted_scaled_tree trees.items))) }
        ensures { Scales result (weighed (weighted_scaled_trees (map weighted_scaled_tree trees.items))) }
    {
        let Some(multiple) = weighted_common_multiple(&trees) else {
            return Err(CheckFault::ScaleTooLarge);
        };
        let Some(total) = total(&trees) else {
            return Err(CheckFault::ScaleTooLarge);
        };
        let Some(scale) = product(total, multiple) else {
            return Err(CheckFault::ScaleTooLarge);
        };
        Ok(Tree::Weight(scale, trees))
    }
}

#[cycle(cloning)]
fn clone_all(alloc: Global, trees: &[Tree]) -> Result<Vec<Tree>, NoMemory>
    ensures { IfOk result (λ clones. map scaled_tree clones.items ≡ map scaled_tree trees.now) }
{
    let mut clones = Vec::new(alloc);
    for tree in trees {
        clones.push(tree.clone_in(alloc)?)?;
    }
    Ok(clones)
}

#[cycle(cloning)]
fn clone_weighted(alloc: Global, trees: &[(u64, Tree)]) -> Result<Vec<(u64, Tree)>, NoMemory>
    ensures { IfOk result (λ clones. map weighted_scaled_tree clones.items ≡ map weighted_scaled_tree trees.now) }
{
    let mut clones = Vec::new(alloc);
    for (weight, tree) in trees {
        clones.push((*weight, tree.clone_in(alloc)?))?;
    }
    Ok(clones)
}

/// The least common multiple of the scales, where it is below the limit.
#[tactic(auto, using(crate::proofs::MultipleLemmas::lcm_of_one))]
fn common_multiple(trees: &[Tree]) -> Option<u64>
    requires scaled { are_scaled (scaled_trees (map scaled_tree trees.now)) ≡ true }
    requires positive { 0 < common (scaled_trees (map scaled_tree trees.now)) }
    ensures { result ≡ below_limit (common (scaled_trees (map scaled_tree trees.now))) }
{
    let mut multiple = 1;
    for tree in trees {
        multiple = least_common_multiple(multiple, tree.scale())?;
    }
    Some(multiple)
}

/// The least common multiple of the scales, where it is below the limit.
#[tactic(auto, using(crate::proofs::MultipleLemmas::lcm_of_one))]
fn weighted_common_multiple(trees: &[(u64, Tree)]) -> Option<u64>
    requires scaled { are_weighted_scaled (weighted_scaled_trees (map weighted_scaled_tree trees.now)) ≡ true }
    requires positive { 0 < weighted_common (weighted_scaled_trees (map weighted_scaled_tree trees.now)) }
    ensures { result ≡ below_limit (weighted_common (weighted_scaled_trees (map weighted_scaled_tree trees.now))) }
{
    let mut multiple = 1;
    for (_, tree) in trees {
        multiple = least_common_multiple(multiple, tree.scale())?;
    }
    Some(multiple)
}

/// The sum of the weights, where it is below the limit.
#[tactic(auto, using(crate::proofs::Scales::total_at, crate::proofs::Scales::total_end, crate::proofs::Limits::is_below, crate::proofs::Limits::is_beyond, crate::proofs::Limits::below_is, crate::proofs::Limits::beyond_is))]
fn total(trees: &[(u64, Tree)]) -> Option<u64>
    ensures { result ≡ below_limit (total (weighted_scaled_trees (map weighted_scaled_tree trees.now))) }
{
    let mut total = 0;
    for (weight, _) in trees {
        total = sum(total, *weight)?;
    }
    Some(total)
}
