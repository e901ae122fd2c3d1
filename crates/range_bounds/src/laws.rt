//! What the bounds of a range tell. A law is a function that does nothing: a caller calls it, and its proof then knows the
//! clauses.
ghost use Rattle.std.specs.Prelude.{ℕ, ◌≤◌, List, Contains, Option, length};
ghost use Rattle.std.specs.List.{All, AllZip};
ghost use Rattle.ri_base.specs.Documents.{Document};
ghost use Rattle.ri_base.specs.Expression.{ExprTree};
ghost use Rattle.ri_base.specs.Pair.{Pair};
ghost use Rattle.ri_base.specs.Ratio.{IsBelief, Ratio};
ghost use Rattle.ri_base.specs.declared.hit.LeafStats.{LeafStats};
ghost use Rattle.ri_base.specs.declared.query.Range.{Range};
ghost use Rattle.extent_evaluation.specs.Counts.{tf};
ghost use Rattle.smoothing.specs.Bounds.{IsAtMost};
ghost use Rattle.smoothing.specs.declared.rule.RuleKind.{RuleKind};
ghost use Rattle.query_check.specs.Leaves.{LeafTree};
ghost use Rattle.query_check.specs.Trees.{ScaledTree};
ghost use Rattle.belief_nodes.specs.Keys.{key_at};
ghost use Rattle.belief_nodes.specs.Leaves.{AreLeafStats};
ghost use Rattle.belief_nodes.specs.Priors.{Prior};
ghost use Rattle.windows.specs.Windows.{windows};
ghost use Rattle.range_bounds.specs.Bounds.{AreBounds, AreCovered};
ghost use Rattle.range_bounds.specs.Most.{most};
ghost use Rattle.range_bounds.specs.Tables.{AreFormed};

/// In no window of any of these documents does an expression occur more often than their counts say, with or without a
/// context.
pub fn extents_are_few()
    ensures { (docs : List Document) (x : ExprTree) (d : Document) (w : Pair) (context : Option (List ℕ)) → AreFormed docs → Contains docs d
        → tf x d w context ≤ most docs x }
{}

/// The bounds of leaves cover their beliefs in each window of each of these documents.
pub fn bounds_cover()
    ensures { (kind : RuleKind) (priors : List Prior) (range : Range) (docs : List Document) (leaves : List LeafTree) (stats : List LeafStats)
        (bounds : List Ratio) (d : Document) (w : Pair) → AreFormed docs → All AreLeafStats stats
        → AreBounds kind priors range docs leaves stats bounds → Contains docs d → Contains (windows range (length d.tokens) d.fields) w
        → AreCovered kind priors d w leaves stats bounds }
{}

/// Beliefs that are at most the bounds have a key that is at least theirs, at each level.
pub fn keys_of_bounds()
    ensures { (t : ScaledTree) (beliefs bounds : List Ratio) (k : ℕ) → All IsBelief beliefs → All IsBelief bounds
        → AllZip IsAtMost beliefs bounds → key_at k bounds t ≤ key_at k beliefs t }
{}
