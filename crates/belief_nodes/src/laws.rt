//! What keys tell. A law is a function that does nothing: a caller calls it, and its proof then knows the clauses.
ghost use Rattle.std.specs.Prelude.{◌≡◌, ℕ, ◌+◌, ◌*◌, ◌^◌, ◌<◌, ◌≤◌, List, All};
ghost use Rattle.ri_base.specs.Ratio.{Ratio, IsBelief};
ghost use Rattle.ri_base.specs.declared.hit.LeafStats.{LeafStats};
ghost use Rattle.smoothing.specs.Fractions.{IsMu};
ghost use Rattle.smoothing.specs.declared.rule.RuleKind.TheVariants.{Dirichlet};
ghost use Rattle.query_check.specs.Leaves.{LeafTree};
ghost use Rattle.query_check.specs.Scale.{scale};
ghost use Rattle.query_check.specs.Trees.{ScaledTree};
ghost use Rattle.belief_nodes.specs.Fractions.{leaf_fractions};
ghost use Rattle.log_chain.specs.Score.{score};
ghost use Rattle.belief_nodes.specs.Keys.{key_at};
ghost use Rattle.belief_nodes.specs.Leaves.{IsLeafCount, AreLeafStats};
ghost use Rattle.belief_nodes.specs.Order.{IsGreater, IsSame, IsNear};
ghost use Rattle.belief_nodes.specs.Priors.{Prior, IsPrior};
ghost use Rattle.belief_nodes.specs.Products.{product};
ghost use Rattle.belief_nodes.specs.declared.leaf_count.LeafCount.{LeafCount};

use log_chain::{LAST, MAX_LEVEL};

/// The key at each level encloses the logarithm of the product P / Q: with `N = 2 ^ k`, `2 ^ key ≤ (Q / P) ^ N` and
/// `(Q / P) ^ N < 2 ^ (key + 2 * scale)`.
pub fn key_encloses()
    ensures positive { (t : ScaledTree) (beliefs : List Ratio) → All IsBelief beliefs → 0 < (product beliefs t).p }
    ensures lower { (t : ScaledTree) (beliefs : List Ratio) (k : ℕ) → All IsBelief beliefs → k ≤ MAX_LEVEL
        → 2 ^ key_at k beliefs t * (product beliefs t).p ^ (2 ^ k) ≤ (product beliefs t).q ^ (2 ^ k) }
    ensures upper { (t : ScaledTree) (beliefs : List Ratio) (k : ℕ) → All IsBelief beliefs → k ≤ MAX_LEVEL
        → 1 ≤ scale t
        → (product beliefs t).q ^ (2 ^ k) < 2 ^ (key_at k beliefs t + 2 * scale t) * (product beliefs t).p ^ (2 ^ k) }
{}

/// Keys that are apart by more than twice the scale tell which belief is greater.
pub fn keys_apart()
    ensures { (t : ScaledTree) (a b : List Ratio) (k : ℕ) → All IsBelief a → All IsBelief b → k ≤ MAX_LEVEL
        → key_at k a t + 2 * scale t < key_at k b t → IsGreater t a b }
{}

/// Keys at the last level that aren't apart by more than twice the scale are those of beliefs near to each other.
pub fn keys_near()
    ensures { (t : ScaledTree) (a b : List Ratio) → All IsBelief a → All IsBelief b
        → key_at LAST a t ≤ key_at LAST b t + 2 * scale t → key_at LAST b t ≤ key_at LAST a t + 2 * scale t
        → IsNear t a b }
{}

/// Leaves with the same beliefs give the same key, however the fractions are written.
pub fn keys_of_same()
    ensures { (t : ScaledTree) (a b : List Ratio) (k : ℕ) → All IsBelief a → All IsBelief b → IsSame a b
        → key_at k a t ≡ key_at k b t }
{}

/// The score of a key at the last level tells the logarithm of the belief in millionths: with `s` the score,
/// `2 ^ (s * scale) ≤ (Q / P) ^ 1000000 < 2 ^ ((s + 2) * scale)`.
pub fn key_scored()
    ensures lower { (t : ScaledTree) (beliefs : List Ratio) → All IsBelief beliefs
        → 2 ^ (score (scale t) (key_at LAST beliefs t) * scale t) * (product beliefs t).p ^ 1000000
        ≤ (product beliefs t).q ^ 1000000 }
    ensures upper { (t : ScaledTree) (beliefs : List Ratio) → All IsBelief beliefs → 1 ≤ scale t
        → (product beliefs t).q ^ 1000000
        < 2 ^ ((score (scale t) (key_at LAST beliefs t) + 2) * scale t) * (product beliefs t).p ^ 1000000 }
{}

/// The key at one level tells between which bounds the key at each further level lies, and how large it is.
pub fn key_levels()
    ensures least { (t : ScaledTree) (beliefs : List Ratio) (k s : ℕ)
        → key_at k beliefs t * 2 ^ s ≤ key_at (k + s) beliefs t }
    ensures most { (t : ScaledTree) (beliefs : List Ratio) (k s : ℕ)
        → key_at (k + s) beliefs t + scale t ≤ (key_at k beliefs t + scale t) * 2 ^ s }
    ensures small { (t : ScaledTree) (beliefs : List Ratio) (k : ℕ) → 1 ≤ scale t
        → key_at k beliefs t < scale t * 2 ^ (k + 6) }
{}

/// The beliefs of leaves under Dirichlet smoothing are above 0 and at most 1, and their numbers have 64 bits, where those
/// of the priors are.
pub fn fractions_are_beliefs()
    ensures { (mu : ℕ) (priors : List Prior) (docno : List ℕ) (tokens : ℕ) (leaves : List LeafTree)
        (counts : List LeafCount) (stats : List LeafStats) → IsMu mu → All IsPrior priors
        → All IsLeafCount counts → All AreLeafStats stats
        → All IsBelief (leaf_fractions (Dirichlet mu) priors docno tokens leaves counts stats) }
{}
