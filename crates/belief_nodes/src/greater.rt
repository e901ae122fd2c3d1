ghost use Rattle.std.specs.Prelude.{◌≡◌, [], ◌∷◌};
ghost use Rattle.ri_base.specs.Ratio.{ratio_of};
ghost use Rattle.belief_nodes.specs.Products.{greatest_of};

use ri_base::Fraction;

/// The greater of two fractions, and of equal ones the first.
#[tactic(auto, unfolding(crate::specs::Products::greatest_of))]
pub(crate) fn greater(a: Fraction, b: Fraction) -> Fraction
    ensures { ratio_of result ≡ greatest_of (ratio_of a ∷ ratio_of b ∷ []) }
{
    if b.at_most(a) { a } else { b }
}
