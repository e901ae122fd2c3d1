// Whole numbers below 2^60: products, common divisors and common multiples.
ghost use Rattle.std.specs.Prelude.{◌≡◌, ◌<◌, ◌+◌, ◌*◌, ◌^◌, Some, None};
ghost use Rattle.query_check.specs.Multiples.{gcd, lcm};
ghost use Rattle.query_check.specs.Limit.{below_limit};

/// Scales are below this number. A key is a scale times digits of at most 62 bits, and so it fits 128 bits.
const LIMIT: u64 = 1 << 60;

/// The greatest common divisor, by Euclid's algorithm.
#[tactic(auto, using(crate::proofs::MultipleLemmas::gcd_zero, crate::proofs::MultipleLemmas::gcd_step))]
pub(crate) fn greatest_common_divisor(a: u64, b: u64) -> u64
    ensures { result ≡ gcd a b }
{
    let (mut a, mut b) = (a, b);
    while b > 0 {
        (a, b) = (b, a % b);
    }
    a
}

/// The number, where it is below the limit.
#[tactic(auto, using(crate::proofs::Limits::below_is, crate::proofs::Limits::beyond_is))]
fn limited(n: u64) -> Option<u64>
    ensures { result ≡ below_limit n }
{
    if n < LIMIT { Some(n) } else { None }
}

/// The product, where it is below the limit.
#[tactic(auto, using(crate::proofs::Limits::below_is, crate::proofs::Limits::beyond_is))]
pub(crate) fn product(a: u64, b: u64) -> Option<u64>
    ensures { result ≡ below_limit (a * b) }
{
    limited(a.checked_mul(b)?)
}

/// The sum, where it is below the limit.
#[tactic(auto, using(crate::proofs::Limits::below_is, crate::proofs::Limits::beyond_is))]
pub(crate) fn sum(a: u64, b: u64) -> Option<u64>
    ensures { result ≡ below_limit (a + b) }
{
    limited(a.checked_add(b)?)
}

/// The least common multiple, where it is below the limit.
#[tactic(auto, using(crate::proofs::MultipleLemmas::gcd_positive), unfolding(crate::specs::Multiples::lcm))]
pub(crate) fn least_common_multiple(a: u64, b: u64) -> Option<u64>
    requires { 0 < b }
    ensures { result ≡ below_limit (lcm a b) }
{
    product(a, b / greatest_common_divisor(a, b))
}
