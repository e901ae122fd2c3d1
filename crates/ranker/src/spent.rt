// What a search has spent.
ghost use Rattle.std.specs.Prelude.{◌≡◌, ◌-◌, ◌*◌, length};
ghost use Rattle.log_chain.specs.declared.chain.TheConstants.{FIRST, LAST};
ghost use Rattle.belief_nodes.specs.Network.{network_tree};
ghost use Rattle.ranker.specs.First.{early_cost};
ghost use Rattle.ranker.specs.Spent.{saturated};

use belief_nodes::Network;
use log_chain::{FIRST, LAST};

/// Numbers of what a search has spent: the squarings that it did, the blocks that it opened, and the ranges that it passed over for
/// their bounds. A number that can't go on stays the greatest one.
#[derive(Clone, Copy, Debug)]
pub struct Spent {
    pub squared: u64,
    pub opened: u64,
    pub passed: u64,
}

impl Spent {
    /// Nothing so far.
    pub fn nothing() -> Spent
        ensures { result ≡ record { squared = 0; opened = 0; passed = 0 } }
    {
        Spent {
            squared: 0,
            opened: 0,
            passed: 0,
        }
    }
}

/// So many more.
pub fn count_more(number: &mut u64, more: u64)
    ensures { number.new ≡ saturated number.old more }
{
    *number = number.saturating_add(more);
}

/// The squarings of so many candidates or bounds more, up to the first level.
pub fn count_early(network: &Network, count: usize, squared: &mut u64)
    ensures { squared.new ≡ saturated squared.old (early_cost (network_tree network.now) count) }
{
    let leaves = network.leaves().len() as u64;
    let each = u64::from(FIRST).saturating_mul(leaves);
    count_more(squared, each.saturating_mul(count as u64));
}

/// The squarings of so many candidates more, from the first level up to the last.
pub fn count_late(network: &Network, count: usize, squared: &mut u64)
    ensures { squared.new ≡ saturated squared.old ((LAST - FIRST) * length (network_tree network.now).leaves * count) }
{
    let leaves = network.leaves().len() as u64;
    let each = u64::from(LAST - FIRST).saturating_mul(leaves);
    count_more(squared, each.saturating_mul(count as u64));
}
