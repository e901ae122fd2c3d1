//! What the digits of every fraction keep. Each law is a function that does nothing: a caller calls it, and its proof
//! then knows the clauses.
ghost use Rattle.std.specs.Prelude.{◌≡◌, ℕ, ◌+◌, ◌-◌, ◌*◌, ◌/◌, ◌^◌, ◌<◌, ◌≤◌};
ghost use Rattle.log_chain.specs.Chain.{chain, IsAtMost};

use crate::chain::MAX_LEVEL;
use ri_base::Fraction;

/// The digits at each level enclose the logarithm: with `x = q / p`, `2 ^ digits ≤ x ^ (2 ^ k) < 2 ^ (digits + 2)`.
pub fn digits_enclose(f: Fraction)
    ensures lower { (k : ℕ) → 2 ^ (chain f.p f.q k).digits * f.p ^ (2 ^ k) ≤ f.q ^ (2 ^ k) }
    ensures upper { (k : ℕ) → k ≤ MAX_LEVEL
        → f.q ^ (2 ^ k) < 2 ^ ((chain f.p f.q k).digits + 2) * f.p ^ (2 ^ k) }

    // without the part 2 ^ (k - 61) of it, which is more than the cut rests can lose, it is below 2 ^ (digits + 1)
    ensures nearly { (k : ℕ)
        → f.q ^ (2 ^ k) * (2 ^ 62 + 1 - 2 * 2 ^ k) < 2 ^ ((chain f.p f.q k).digits + 1) * f.p ^ (2 ^ k) * 2 ^ 62 }

    // at level 0 the digits are the whole part of the logarithm
    ensures whole { 2 ^ (chain f.p f.q 0).digits * f.p ≤ f.q }
    ensures next_whole { f.q < 2 ^ ((chain f.p f.q 0).digits + 1) * f.p }
{}

/// The digits at one level lead those at every further level, and they have at most six bits more than the level.
pub fn digits_lead(f: Fraction)
    ensures half { (k : ℕ) → (chain f.p f.q (k + 1)).digits / 2 ≡ (chain f.p f.q k).digits }
    ensures leading { (k s : ℕ) → (chain f.p f.q (k + s)).digits / 2 ^ s ≡ (chain f.p f.q k).digits }
    ensures few { (k : ℕ) → (chain f.p f.q k).digits < 2 ^ (k + 6) }
{}

/// A smaller fraction has digits at least as great, and one number has the same digits however its fraction is written.
pub fn digits_fall(f: Fraction, g: Fraction)
    ensures smaller { f.p * g.q ≤ g.p * f.q
        → (k : ℕ) → (chain g.p g.q k).digits ≤ (chain f.p f.q k).digits }
    ensures same { f.p * g.q ≡ g.p * f.q → (k : ℕ) → chain f.p f.q k ≡ chain g.p g.q k }

    // so it is with the pair of digits and rest
    ensures pairs { f.p * g.q ≤ g.p * f.q → (k : ℕ) → IsAtMost (chain g.p g.q k) (chain f.p f.q k) }

    // digits that are apart by 2 tell which fraction is smaller
    ensures apart { (k : ℕ) → k ≤ MAX_LEVEL
        → (chain g.p g.q k).digits + 2 ≤ (chain f.p f.q k).digits → f.p * g.q < g.p * f.q }
{}
