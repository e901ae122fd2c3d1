ghost use Rattle.std.specs.Prelude.{◌≡◌, ◌^◌, ◌<◌};
ghost use Rattle.ri_base.specs.Ratio.{ratio_of};
ghost use Rattle.smoothing.specs.Counts.{AreCounts};
ghost use Rattle.smoothing.specs.Fractions.{IsMu, dirichlet};

use ri_base::Fraction;

/// The belief of a leaf under Dirichlet smoothing: it occurs `tf` times in the `len` words that are scored, and `cf` times
/// in the `total` words of the collection.
pub fn dirichlet_fraction(mu: u32, tf: u32, len: u32, cf: u64, total: u64) -> Fraction
    requires mu { IsMu mu }
    requires counts { AreCounts tf len cf total }
    ensures exact { ratio_of result ≡ dirichlet mu tf len cf total }
    ensures small { result.q < 2 ^ 51 }
{
    let (mu, tf, len) = (u64::from(mu), u64::from(tf), u64::from(len));
    // twice the counts, so that the half of an occurrence is a whole number
    let twice_total = 2 * total.max(1);
    let twice_background = (2 * cf).max(1);
    Fraction {
        p: twice_total * tf + mu * twice_background,
        q: twice_total * (len + mu),
    }
}
