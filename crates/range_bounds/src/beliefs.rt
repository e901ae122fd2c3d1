// That the beliefs of a rule are fractions.
ghost use Rattle.std.specs.Prelude.{ℕ};
ghost use Rattle.ri_base.specs.Ratio.{IsBelief};
ghost use Rattle.smoothing.specs.Counts.{AreCounts};
ghost use Rattle.smoothing.specs.Fractions.{Computes, fraction_of};

use ri_base::Fraction;
use smoothing::Rule;

/// Tells that each belief of the rule is one. The rule is asked for the belief with the greatest numbers, of what doesn't occur in the
/// longest document of the largest collection, and answers a fraction.
pub(crate) fn ask_rule<F: Fn(u32, u32, u64, u64) -> Fraction>(rule: &Rule<F>)
    requires { Computes F.pre F.post rule.now.kind rule.now.f }
    ensures { (tf len cf total : ℕ) → AreCounts tf len cf total → IsBelief (fraction_of rule.now.kind tf len cf total) }
{
    rule.belief(0, 1 << 20, 0, 1 << 29);
}
