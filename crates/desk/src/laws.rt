//! A law is a function that computes nothing: a caller calls it, and its proof then knows the clauses.
ghost use Rattle.std.specs.Prelude.{◌<◌, ℕ, List, map, take, drop};
ghost use Rattle.ri_base.specs.Documents.{Document};
ghost use Rattle.ri_base.specs.declared.hit.Hit.{Hit};
ghost use Rattle.smoothing.specs.declared.rule.RuleKind.{RuleKind};
ghost use Rattle.query_check.specs.Check.{CheckedTree};
ghost use Rattle.query_check.specs.Scale.{scale};
ghost use Rattle.belief_nodes.specs.Priors.{Prior};
ghost use Rattle.ranked_output.specs.Texts.{lines_of};
ghost use Rattle.true_order.specs.Ranked.{hit_beliefs};
ghost use Rattle.true_order.specs.TrueOrder.{IsTrueOrder};
ghost use Rattle.desk.specs.Ranking.{IsRanking};

use true_order::order_is_true;

/// The lines of the first `k` hits of a ranking of all documents stand in an order that is true of their beliefs, and
/// of those of the hits that aren't shown.
pub fn ranking_is_true()
    ensures { (kind : RuleKind) (priors : List Prior) (q : CheckedTree) (docs : List Document) (ranking : List Hit) (k : ℕ)
        → IsRanking kind priors q docs ranking → 0 < scale q.tree
        → IsTrueOrder q.tree (lines_of (scale q.tree) (take k ranking)) (map hit_beliefs (drop k ranking)) }
{
    order_is_true();
}
