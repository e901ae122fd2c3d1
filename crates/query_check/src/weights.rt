// Weights of a query.
ghost use Rattle.std.specs.Prelude.{◌≡◌, ◌<◌, map};
ghost use Rattle.std.specs.List.{list_any};
ghost use Rattle.ri_base.specs.Query.{belief_tree, belief_trees, weighted_tree, weighted_trees};
ghost use Rattle.query_check.specs.Check.{weights, weighted_pruned, is_some_weight, has_weights, have_weights, have_weights_weighted};
ghost use Rattle.query_check.specs.Multiples.{common_divisor};

use crate::multiples::greatest_common_divisor;
use ri_base::Belief;

/// Whether some weight is above 0.
#[tactic(auto, using(crate::proofs::Walks::some_weight_found, crate::proofs::Walks::some_weight_passed, crate::proofs::Walks::some_weight_end))]
fn has_weight(all: &[(u64, Belief)]) -> bool
    ensures { result ≡ list_any is_some_weight (weights (weighted_trees (map weighted_tree all.now))) }
{
    for (weight, _) in all {
        if *weight > 0 {
            return true;
        }
    }
    false
}

/// Whether each `#weight` has a weight above 0.
#[cycle(weights)]
#[tactic(auto, using(ri_base::proofs::QueryLemmas::belief_tree_laws), unfolding(crate::specs::Check::has_weights))]
pub(crate) fn has_weights(x: &Belief) -> bool
    ensures { result ≡ has_weights (belief_tree x.now) }
{
    match x {
        Belief::Combine(all) | Belief::Max(all) => have_weights(all),
        Belief::Weight(all) => has_weight(all) && have_weights_weighted(all),
        Belief::Prior(_) | Belief::Leaf(..) => true,
    }
}

#[cycle(weights)]
#[tactic(auto, using(crate::proofs::Walks::have_weights_found, crate::proofs::Walks::have_weights_passed, crate::proofs::Walks::have_weights_end))]
pub(crate) fn have_weights(all: &[Belief]) -> bool
    ensures { result ≡ have_weights (belief_trees (map belief_tree all.now)) }
{
    for x in all {
        if !has_weights(x) {
            return false;
        }
    }
    true
}

#[cycle(weights)]
#[tactic(auto, using(crate::proofs::Walks::have_weights_weighted_found, crate::proofs::Walks::have_weights_weighted_passed, crate::proofs::Walks::have_weights_weighted_end))]
fn have_weights_weighted(all: &[(u64, Belief)]) -> bool
    ensures { result ≡ have_weights_weighted (weighted_trees (map weighted_tree all.now)) }
{
    for (_, x) in all {
        if !has_weights(x) {
            return false;
        }
    }
    true
}

/// The greatest common divisor of the weights above 0.
#[tactic(auto, using(crate::proofs::Walks::divisor_at, crate::proofs::Walks::divisor_end, crate::proofs::Walks::divisor_start))]
pub(crate) fn divisor(all: &[(u64, Belief)]) -> u64
    ensures { result ≡ common_divisor (weights (weighted_pruned (weighted_trees (map weighted_tree all.now)))) }
{
    let mut divisor = 0;
    for (weight, _) in all {
        divisor = greatest_common_divisor(divisor, *weight);
    }
    divisor
}
