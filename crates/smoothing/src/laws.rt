//! What the beliefs of each rule keep. A law is a function that does nothing: a caller calls it, and its proof then knows
//! the clauses.
ghost use Rattle.std.specs.Prelude.{ℕ, ◌^◌, ◌<◌, ◌≤◌};
ghost use Rattle.ri_base.specs.Ratio.{IsBelief};
ghost use Rattle.smoothing.specs.Bounds.{IsAtMost};
ghost use Rattle.smoothing.specs.Counts.{AreCounts};
ghost use Rattle.smoothing.specs.Fractions.{IsMu, dirichlet};

/// Under Dirichlet smoothing a belief is above 0 and at most 1, and its numbers are below `2 ^ 51`.
pub fn dirichlet_sizes()
    ensures belief { (mu tf len cf total : ℕ) → IsMu mu → AreCounts tf len cf total → IsBelief (dirichlet mu tf len cf total) }
    ensures small { (mu tf len cf total : ℕ) → IsMu mu → AreCounts tf len cf total → (dirichlet mu tf len cf total).q < 2 ^ 51 }
{}

/// Under Dirichlet smoothing a belief rises with the occurrences, falls with the words that are scored, and rises where each
/// of the words is an occurrence.
pub fn dirichlet_rises()
    ensures occurrences { (mu tf more len cf total : ℕ) → tf ≤ more → IsAtMost (dirichlet mu tf len cf total) (dirichlet mu more len cf total) }
    ensures words { (mu tf len longer cf total : ℕ) → len ≤ longer → IsAtMost (dirichlet mu tf longer cf total) (dirichlet mu tf len cf total) }
    ensures both { (mu len longer cf total : ℕ) → cf ≤ total → len ≤ longer → IsAtMost (dirichlet mu len len cf total) (dirichlet mu longer longer cf total) }
{}
