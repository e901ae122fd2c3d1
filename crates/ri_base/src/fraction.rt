ghost use Rattle.std.specs.Prelude.{◌≡◌, ◌⊎◌, ◌*◌, ◌^◌, ◌<◌, ◌≤◌, ◌↔◌, IsTrue, IsErr, IfOk};

use thiserror::Error;

/// A belief as an exact fraction `p / q`, above 0 and at most 1. It isn't reduced: `==` compares the numbers as they
/// stand, and [`Fraction::same`] the values.
#[derive(Clone, Copy, Debug, PartialEq, Eq)]
pub struct Fraction {
    pub p: u64,
    pub q: u64,
    pub ghost positive: { 0 < p },
    pub ghost at_most_one: { p ≤ q },
    // a number of the program, which a law about a fraction isn't told by its type
    pub ghost fits: { q < 2 ^ 64 },
}

/// Two numbers that make no fraction above 0 and at most 1.
#[derive(Clone, Copy, Debug, PartialEq, Eq, Error)]
#[error("a belief is above 0 and at most 1")]
pub struct NotABelief;

impl Fraction {
    /// The fraction `p / q`.
    pub fn new(p: u64, q: u64) -> Result<Fraction, NotABelief>
        ensures refused { IsErr result ↔ ((p ≡ 0) ⊎ (q ≡ 0) ⊎ (q < p)) }
        ensures numbers { IfOk result (λ f. (f.p ≡ p) × (f.q ≡ q)) }
    {
        if p == 0 || p > q {
            return Err(NotABelief);
        }
        Ok(Fraction { p, q })
    }

    /// Whether the two are the same number, however each is written.
    pub fn same(self, other: Fraction) -> bool
        ensures { IsTrue result ↔ (self.p * other.q ≡ other.p * self.q) }
    {
        product(self.p, other.q) == product(other.p, self.q)
    }

    /// Whether the number is at most the other.
    pub fn at_most(self, other: Fraction) -> bool
        ensures { IsTrue result ↔ (self.p * other.q ≤ other.p * self.q) }
    {
        product(self.p, other.q) <= product(other.p, self.q)
    }
}

fn product(a: u64, b: u64) -> u128
    ensures { result ≡ a * b }
{
    u128::from(a) * u128::from(b)
}
