// The key of a tree from the digits of its leaves.
ghost use Rattle.std.specs.Prelude.{◌≡◌, ◌<◌, ◌*◌, ◌/◌, ◌^◌, true, length, map, All};
ghost use Rattle.std.specs.List.{sum};
ghost use Rattle.query_check.specs.Scale.{count, total, scale, is_scaled};
ghost use Rattle.query_check.specs.Trees.{scaled_tree, scaled_trees, weighted_scaled_tree, weighted_scaled_trees};
ghost use Rattle.belief_nodes.specs.Fits.{IsFit, AreFit, AreWeightedFit};
ghost use Rattle.belief_nodes.specs.Keys.{key, shares, weighted_shares, least_of};

use query_check::Tree;

/// The key of a tree whose leaf `i` has the digits `digits[i]`.
#[cycle(keys)]
pub(crate) fn key_of(tree: &Tree, digits: &[u128]) -> u128
    requires fit { IsFit (length digits.now) (scaled_tree tree.now) }
    requires small { All (λ c. c < 2 ^ 66) digits.now }
    ensures { result ≡ key digits.now (scaled_tree tree.now) }
{
    match tree {
        Tree::Leaf(number) => digits[*number as usize],
        Tree::Combine(scale, trees) => sum_of(trees, *scale / trees.len() as u64, digits),
        Tree::Weight(scale, trees) => weighted_sum_of(trees, *scale / total_weight(trees), digits),
        Tree::Max(scale, trees) => least_of(trees, *scale, digits),
    }
}

/// The sum of the arguments' keys, each brought to the scale `common`.
#[cycle(keys)]
fn sum_of(trees: &[Tree], common: u64, digits: &[u128]) -> u128
    requires fit { AreFit (length digits.now) common (scaled_trees (map scaled_tree trees.now)) }
    requires whole { count (scaled_trees (map scaled_tree trees.now)) * common < 2 ^ 60 }
    requires small { All (λ c. c < 2 ^ 66) digits.now }
    ensures { result ≡ sum (shares digits.now common (scaled_trees (map scaled_tree trees.now))) }
{
    let mut sum = 0;
    for tree in trees {
        sum += brought_to(common, tree, key_of(tree, digits));
    }
    sum
}

/// The sum of the arguments' keys, each brought to the scale `common` and taken as often as its weight says.
#[cycle(keys)]
fn weighted_sum_of(trees: &[(u64, Tree)], common: u64, digits: &[u128]) -> u128
    requires fit { AreWeightedFit (length digits.now) common
        (weighted_scaled_trees (map weighted_scaled_tree trees.now)) }
    requires whole { total (weighted_scaled_trees (map weighted_scaled_tree trees.now)) * common < 2 ^ 60 }
    requires small { All (λ c. c < 2 ^ 66) digits.now }
    ensures { result
        ≡ sum (weighted_shares digits.now common (weighted_scaled_trees (map weighted_scaled_tree trees.now))) }
{
    let mut sum = 0;
    for (weight, tree) in trees {
        sum += u128::from(*weight) * brought_to(common, tree, key_of(tree, digits));
    }
    sum
}

/// The least of the arguments' keys, each brought to the scale `common`.
#[cycle(keys)]
fn least_of(trees: &[Tree], common: u64, digits: &[u128]) -> u128
    requires fit { AreFit (length digits.now) common (scaled_trees (map scaled_tree trees.now)) }
    requires small { All (λ c. c < 2 ^ 66) digits.now }
    ensures { result ≡ least_of (shares digits.now common (scaled_trees (map scaled_tree trees.now))) }
{
    let Some((first, rest)) = trees.split_first() else {
        return 0;
    };
    let mut least = brought_to(common, first, key_of(first, digits));
    for tree in rest {
        least = least.min(brought_to(common, tree, key_of(tree, digits)));
    }
    least
}

/// A tree's key, brought from the tree's scale to a multiple of it.
fn brought_to(common: u64, tree: &Tree, key: u128) -> u128
    requires scaled { is_scaled (scaled_tree tree.now) ≡ true }
    requires positive { 0 < scale (scaled_tree tree.now) }
    requires small { common / scale (scaled_tree tree.now) * key < 2 ^ 128 }
    ensures { result ≡ common / scale (scaled_tree tree.now) * key }
{
    u128::from(common / scale_of(tree)) * key
}

/// The scale that stands in the tree.
#[tactic(auto, using(query_check::proofs::TreeLemmas::scaled_tree_laws, query_check::proofs::Scales::number_is))]
fn scale_of(tree: &Tree) -> u64
    requires { is_scaled (scaled_tree tree.now) ≡ true }
    ensures { result ≡ scale (scaled_tree tree.now) }
{
    match tree {
        Tree::Leaf(_) => 1,
        Tree::Combine(scale, _) | Tree::Weight(scale, _) | Tree::Max(scale, _) => *scale,
    }
}

/// The sum of the weights.
#[tactic(auto, using(query_check::proofs::Scales::total_at, query_check::proofs::Scales::total_end))]
fn total_weight(trees: &[(u64, Tree)]) -> u64
    requires { total (weighted_scaled_trees (map weighted_scaled_tree trees.now)) < 2 ^ 64 }
    ensures { result ≡ total (weighted_scaled_trees (map weighted_scaled_tree trees.now)) }
{
    let mut total = 0;
    for (weight, _) in trees {
        total += *weight;
    }
    total
}
