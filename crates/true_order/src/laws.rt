//! A law is a function that computes nothing: a caller calls it, and its proof then knows the clauses.
ghost use Rattle.std.specs.Prelude.{ℕ, List, map, take, drop};
ghost use Rattle.ri_base.specs.declared.hit.Hit.{Hit};
ghost use Rattle.query_check.specs.Scale.{scale};
ghost use Rattle.query_check.specs.Trees.{ScaledTree};
ghost use Rattle.ranked_output.specs.Texts.{lines_of};
ghost use Rattle.true_order.specs.Ranked.{IsRanked, hit_beliefs};
ghost use Rattle.true_order.specs.TrueOrder.{IsTrueOrder};

use belief_nodes::{key_scored, keys_apart, keys_near};

/// The lines of the first `k` hits of a ranking stand in an order that is true of their beliefs, and of those of the
/// hits that aren't shown.
pub fn order_is_true()
    ensures { (tree : ScaledTree) (hits : List Hit) (k : ℕ) → IsRanked tree hits
        → IsTrueOrder tree (lines_of (scale tree) (take k hits)) (map hit_beliefs (drop k hits)) }
{
    keys_apart();
    keys_near();
    key_scored();
}
