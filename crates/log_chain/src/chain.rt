ghost use Rattle.std.specs.Prelude.{◌≡◌, ◌+◌, ◌*◌, ◌^◌, ◌<◌, ◌≤◌};
ghost use Rattle.log_chain.specs.Progress.{digits_of};

use ri_base::{Fraction, Steps};
use std::marker::Model;
use std::sync::ledger::Ledger;

/// A lower level at which digits are looked at: twelve squarings tell a logarithm to within some 0.0005.
pub const FIRST: u32 = 12;

/// The level of the digits that decide: some twelve decimal places, twice those that a score shows.
pub const LAST: u32 = 40;

/// The most squarings of one number: up to here the digits enclose its logarithm, since what is cut of a rest of `PLACES`
/// places stays below one digit.
pub const MAX_LEVEL: u32 = 60;

/// The binary places of a rest. A rest is below 2^63, so its square fits into 128 bits.
const PLACES: u32 = 62;

/// The digits of the logarithm to base 2 of `q / p`, for a fraction `p / q`. At level `k` they are the whole part of that
/// logarithm times `2 ^ k`, or one less. The digits before the point and the `k` digits behind it are kept apart, so that each fits into
/// a word.
#[derive(Debug, Drop)]
pub struct LogChain {
    fraction: Fraction,
    rest: u64,
    behind: u64,
    whole: u32,
    level: u32,
}

impl Model for LogChain {
    ghost use Rattle.log_chain.specs.Progress.{Progress, IsReached};

    ghost Value = { Progress };

    ghost view = { λ a. record { p = a.fraction.p; q = a.fraction.q; level = a.level } };

    ghost invariant = { λ a. IsReached a.fraction.p a.fraction.q a.level a.whole a.behind a.rest };
}

impl LogChain {
    /// The digits at level 0: the whole part of the logarithm.
    pub fn start(f: Fraction) -> LogChain
        ensures { result ≡ record { p = f.p; q = f.q; level = 0 } }
    {
        let whole = (f.q / f.p).ilog2();
        let rest = (u128::from(f.q) << PLACES) / (u128::from(f.p) << whole);
        LogChain {
            fraction: f,
            rest: rest as u64,
            behind: 0,
            whole,
            level: 0,
        }
    }

    /// One level more, by one squaring.
    pub fn extend<L: Ledger>(&mut self, squares: &mut Steps<L>)
        requires { self.old.level < MAX_LEVEL }
        ensures level { self.new ≡ record self.old { level = self.old.level + 1 } }
        ensures cost { squares.new ≡ squares.old + 1 }
    {
        squares.tick();
        let square = u128::from(self.rest) * u128::from(self.rest);
        if square < 1 << (2 * PLACES + 1) {
            self.behind = 2 * self.behind;
            self.rest = (square >> PLACES) as u64;
        } else {
            self.behind = 2 * self.behind + 1;
            self.rest = (square >> (PLACES + 1)) as u64;
        }
        self.level += 1;
    }

    /// The digits at the chain's level. They enclose the logarithm, as `lower` and `upper` say in powers of whole
    /// numbers.
    pub fn digits(&self) -> u128
        ensures value { result ≡ digits_of self.now }
        ensures lower { let a = self.now in 2 ^ result * a.p ^ (2 ^ a.level) ≤ a.q ^ (2 ^ a.level) }
        ensures upper { let a = self.now in a.q ^ (2 ^ a.level) < 2 ^ (result + 2) * a.p ^ (2 ^ a.level) }
        ensures few { result < 2 ^ (self.now.level + 6) }
        ensures small { result < 2 ^ 66 }
    {
        (u128::from(self.whole) << self.level) + u128::from(self.behind)
    }

    /// The fraction whose logarithm they tell.
    pub fn fraction(&self) -> Fraction
        ensures p { result.p ≡ self.now.p }
        ensures q { result.q ≡ self.now.q }
    {
        self.fraction
    }

    /// How many squarings there were.
    pub fn level(&self) -> u32
        ensures value { result ≡ self.now.level }
        ensures most { result ≤ MAX_LEVEL }
    {
        self.level
    }
}
