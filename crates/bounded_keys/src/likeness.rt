// Leaves compared by their beliefs.
ghost use Rattle.std.specs.Prelude.{◌≡◌};
ghost use Rattle.bounded_keys.specs.Likeness.{by_belief, by_beliefs};

use log_chain::LogChain;
use std::cmp::Ordering;

/// The order of two beliefs, by the fractions as they are written.
fn by_belief(a: &LogChain, b: &LogChain) -> Ordering
    ensures { result ≡ by_belief a.now b.now }
{
    let a = a.fraction();
    let b = b.fraction();
    a.p.cmp(&b.p).then(a.q.cmp(&b.q))
}

/// The order of the beliefs of leaves: the first that differ decide.
pub fn by_beliefs(some: &[LogChain], others: &[LogChain]) -> Ordering
    ensures { result ≡ by_beliefs some.now others.now }
{
    let both = some.len().min(others.len());
    for i in 0..both {
        let found = by_belief(&some[i], &others[i]);
        if found.is_ne() {
            return found;
        }
    }
    some.len().cmp(&others.len())
}
