ghost use Rattle.std.specs.Prelude.{◌≡◌, ◌≤◌, ℕ, max};
ghost use Rattle.ri_base.specs.Ratio.{ratio_of};
ghost use Rattle.smoothing.specs.Bounds.{AreLimits, IsAtMost};
ghost use Rattle.smoothing.specs.Counts.{AreCounts};
ghost use Rattle.smoothing.specs.Fractions.{Computes, fraction_of};

use ri_base::Fraction;

/// The greatest `mu`. With it the numbers of a belief stay below `2 ^ 51`.
pub const MAX_MU: u32 = 1_000_000;

/// Which smoothing rule, and its numbers.
#[derive(Clone, Copy, Debug, PartialEq, Eq)]
pub enum RuleKind {
    /// `(tf + mu * cf / total) / (len + mu)`, with `mu` from 1 to [`MAX_MU`].
    Dirichlet { mu: u32 },
}

/// A smoothing rule with the function that computes it, from `tf`, `len`, `cf` and `total`.
#[derive(Drop)]
pub struct Rule<F> {
    pub kind: RuleKind,
    pub f: F,
}

impl<F: Fn(u32, u32, u64, u64) -> Fraction> Rule<F> {
    /// The rule of this kind, which `f` computes.
    pub fn new(kind: RuleKind, f: F) -> Rule<F>
        requires { Computes F.pre F.post kind f }
        ensures { result ≡ record { kind = kind; f = f } }
    {
        Rule { kind, f }
    }

    /// The belief of a leaf that occurs `tf` times in the `len` words that are scored, and `cf` times in the `total`
    /// words of the collection.
    pub fn belief(&self, tf: u32, len: u32, cf: u64, total: u64) -> Fraction
        requires rule { Computes F.pre F.post self.now.kind self.now.f }
        requires counts { AreCounts tf len cf total }
        ensures answer { F.post self.now.f tf len cf total result }
        ensures exact { ratio_of result ≡ fraction_of self.now.kind tf len cf total }
    {
        (self.f)(tf, len, cf, total)
    }

    /// A bound of the beliefs of a leaf that occurs at most `tf_most` times, where at least `len_least` words are scored:
    /// the belief for `tf_most` in the least length that has room for it.
    pub fn bound(&self, tf_most: u32, len_least: u32, cf: u64, total: u64) -> Fraction
        requires rule { Computes F.pre F.post self.now.kind self.now.f }
        requires limits { AreLimits tf_most len_least cf total }
        ensures answer { F.post self.now.f tf_most (max len_least tf_most) cf total result }
        ensures exact { ratio_of result ≡ fraction_of self.now.kind tf_most (max len_least tf_most) cf total }
        ensures covers { (tf len : ℕ) → AreCounts tf len cf total → tf ≤ tf_most → len_least ≤ len
            → IsAtMost (fraction_of self.now.kind tf len cf total) (ratio_of result) }
    {
        self.belief(tf_most, len_least.max(tf_most), cf, total)
    }
}
