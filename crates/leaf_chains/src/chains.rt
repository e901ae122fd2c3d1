// Chains of digits, all of one level.
ghost use Rattle.std.specs.Prelude.{◌≡◌, ◌<◌, ◌≤◌, ◌+◌, ◌-◌, ◌*◌, ◌^◌, length, map, All, IfOk};
ghost use Rattle.log_chain.specs.Progress.{digits_of};
ghost use Rattle.leaf_chains.specs.Chains.{AreAt, at_level, started};

use log_chain::{LogChain, MAX_LEVEL};
use ri_base::{Fraction, NoMemory, Steps};
use std::alloc::Global;
use std::sync::ledger::Ledger;

/// The chains of these fractions, at level 0.
pub fn start_all(alloc: Global, fractions: &[Fraction]) -> Result<Vec<LogChain>, NoMemory>
    ensures { IfOk result (λ chains. chains.items ≡ map started fractions.now) }
{
    let mut chains = Vec::with_capacity(alloc, fractions.len())?;
    for f in fractions {
        chains.push(LogChain::start(*f))?;
    }
    Ok(chains)
}

/// One chain up to a level.
fn extend_to<L: Ledger>(chain: &mut LogChain, level: u32, squares: &mut Steps<L>)
    requires below { chain.old.level ≤ level }
    requires most { level ≤ MAX_LEVEL }
    ensures level { chain.new ≡ at_level level chain.old }
    ensures cost { squares.new ≡ squares.old + (level - chain.old.level) }
{
    while chain.level() < level {
        chain.extend(squares);
    }
}

/// All chains from one level up to another: each takes as many squarings as there are levels between.
pub fn extend_all<L: Ledger>(chains: &mut Vec<LogChain>, from: u32, to: u32, squares: &mut Steps<L>)
    requires at { AreAt from chains.old.items }
    requires below { from ≤ to }
    requires most { to ≤ MAX_LEVEL }
    ensures level { chains.new.items ≡ map (at_level to) chains.old.items }
    ensures cost { squares.new ≡ squares.old + (to - from) * length chains.old.items }
{
    for chain in chains.iter_mut() {
        extend_to(chain, to, squares);
    }
}

/// The digits of all chains.
pub fn digits_all(alloc: Global, chains: &[LogChain]) -> Result<Vec<u128>, NoMemory>
    ensures values { IfOk result (λ v. v.items ≡ map digits_of chains.now) }
    ensures small { IfOk result (λ v. All (λ c. c < 2 ^ 66) v.items) }
{
    let mut digits = Vec::with_capacity(alloc, chains.len())?;
    for chain in chains {
        digits.push(chain.digits())?;
    }
    Ok(digits)
}
