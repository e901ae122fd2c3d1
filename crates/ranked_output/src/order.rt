ghost use Rattle.std.specs.Prelude.{◌≡◌, length, IfSome};
ghost use Rattle.std.specs.Option.{option_copied};
ghost use Rattle.ranked_output.specs.Marks.{IsScale, are_same, mark_of};

use crate::Mark;
use ri_base::{Fraction, Hit};

/// Whether the fractions are the same numbers, one by one.
fn are_same(xs: &[Fraction], ys: &[Fraction]) -> bool
    requires { length xs.now ≡ length ys.now }
    ensures { result ≡ are_same xs.now ys.now }
{
    for (x, y) in xs.iter().zip(ys) {
        if !x.same(*y) {
            return false;
        }
    }
    true
}

/// The mark of a hit behind the hit of the line above it. The scale is that of the query.
pub fn mark(prev: Option<&Hit>, hit: &Hit, scale: u64) -> Mark
    requires scale { IsScale scale }
    requires leaves { IfSome prev (λ above. length above.now.fractions ≡ length hit.now.fractions) }
    ensures { result ≡ mark_of scale (option_copied prev.entry) hit.now }
{
    let Some(above) = prev else {
        return Mark::First;
    };
    if are_same(above.fractions.as_slice(), hit.fractions.as_slice()) {
        return Mark::Same;
    }
    if hit.key.saturating_sub(above.key) > 2 * u128::from(scale) {
        Mark::Below
    } else {
        Mark::Near
    }
}
