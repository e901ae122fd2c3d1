// Entries whose keys are known at the first level, and with all digits.
ghost use Rattle.std.specs.Prelude.{◌≡◌, ◌<◌, ◌≤◌, ◌+◌, ◌*◌, ◌-◌, ◌^◌, All, length, map, IfOk, OnOk};
ghost use Rattle.ri_base.specs.Ratio.{ratio_of};
ghost use Rattle.log_chain.specs.Progress.{digits_of};
ghost use Rattle.log_chain.specs.declared.chain.TheConstants.{FIRST, LAST};
ghost use Rattle.leaf_chains.specs.Chains.{AreAt};
ghost use Rattle.bounded_keys.specs.Digits.{belief, digits_at, early, late};
ghost use Rattle.bounded_keys.specs.Entries.{IsEarly, settled};

use crate::likeness::by_beliefs;
use crate::{Combination, Leading};
use leaf_chains::{digits_all, extend_all, start_all};
use log_chain::{FIRST, LAST, LogChain};
use ri_base::{Fraction, Fractions, List, NoMemory, Steps};
use std::alloc::Global;
use std::cmp::Ordering;
use std::mem::size_of;
use std::sync::ledger::Ledger;

/// The beliefs of a candidate's leaves, with the digits of their logarithms.
pub type Leaves = List<LogChain>;

const _: () = prove!(size_of::<LogChain>() <= 40);

/// A candidate whose key is known at the first level, with its leaves there. Entries are compared by that key alone.
#[derive(Drop)]
#[derive_where(PartialEq, Eq, PartialOrd, Ord)]
pub struct Entry<W> {
    pub leading: u128,
    #[derive_where(skip(EqHashOrd))]
    pub window: W,
    #[derive_where(skip(EqHashOrd))]
    pub leaves: Leaves,
}

/// A candidate with its key and its leaves at the last level, compared by that key and then by its window.
#[derive(Drop)]
#[derive_where(PartialEq, Eq, PartialOrd, Ord; W)]
pub struct Settled<W> {
    pub key: u128,
    pub window: W,
    #[derive_where(skip(EqHashOrd))]
    pub leaves: Leaves,
}

impl<W: Ord> Leading for Entry<W> {
    ghost use Rattle.std.proofs.Common.{refl};
    ghost use Rattle.bounded_keys.specs.Likeness.{is_before};
    ghost use Rattle.bounded_keys.specs.LikenessLaws.{before_follow};

    ghost number = { λ x. x.leading };

    ghost before = { λ a b. is_before W.cmp a b };

    fn leading(&self) -> u128 {
        self.leading
    }

    fn is_before(&self, other: &Entry<W>) -> bool {
        by_beliefs(self.leaves.as_slice(), other.leaves.as_slice()).is_eq()
            && self.window.cmp(&other.window).is_lt()
    }

    fn in_runs(&self, other: &Entry<W>) -> Ordering {
        let order = by_beliefs(self.leaves.as_slice(), other.leaves.as_slice());
        if order.is_ne() {
            return order;
        }
        self.window.cmp(&other.window)
    }

    ghost by_number = { λ a b. refl };

    ghost follow = { before_follow W.cmp W.total };
}

/// Leaves of these beliefs, with their digits at the first level.
fn early_leaves<L: Ledger>(
    alloc: Global,
    fractions: &[Fraction],
    squares: &mut Steps<L>,
) -> Result<Leaves, NoMemory>
    ensures leaves { IfOk result (λ leaves. leaves ≡ early fractions.now) }
    ensures cost { OnOk result (squares.new ≡ squares.old + FIRST * length fractions.now) }
    ensures within { squares.new ≤ squares.old + FIRST * length fractions.now }
{
    let mut chains = start_all(alloc, fractions)?;
    extend_all(&mut chains, 0, FIRST, squares);
    Ok(Leaves::of(chains))
}

/// The same leaves with their digits at the last level.
fn late_leaves<L: Ledger>(leaves: Leaves, squares: &mut Steps<L>) -> Leaves
    requires { AreAt FIRST leaves }
    ensures leaves { result ≡ late leaves }
    ensures cost { squares.new ≡ squares.old + (LAST - FIRST) * length leaves }
{
    let mut chains = leaves.into_vec();
    extend_all(&mut chains, FIRST, LAST, squares);
    Leaves::of(chains)
}

/// The key of leaves, at the level of their digits.
fn key_of<C: Combination>(
    alloc: Global,
    combination: &C,
    leaves: &[LogChain],
) -> Result<u128, NoMemory>
    requires { length leaves.now ≡ C.leaves combination.now }
    ensures { IfOk result (λ key. key ≡ C.key_of combination.now (map digits_of leaves.now)) }
{
    let digits = digits_all(alloc, leaves)?;
    Ok(combination.key(&digits))
}

/// The key at the first level of a combination whose leaves have these beliefs.
pub fn leading_key<C: Combination, L: Ledger>(
    alloc: Global,
    combination: &C,
    fractions: &[Fraction],
    squares: &mut Steps<L>,
) -> Result<u128, NoMemory>
    requires { length fractions.now ≡ C.leaves combination.now }
    ensures key { IfOk result (λ key. key ≡ C.key_of combination.now (digits_at FIRST (map ratio_of fractions.now))) }
    ensures cost { OnOk result (squares.new ≡ squares.old + FIRST * C.leaves combination.now) }
    ensures within { squares.new ≤ squares.old + FIRST * C.leaves combination.now }
{
    let leaves = early_leaves(alloc, fractions, squares)?;
    key_of(alloc, combination, leaves.as_slice())
}

/// The beliefs of leaves.
pub fn fractions_of(alloc: Global, leaves: &Leaves) -> Result<Fractions, NoMemory>
    ensures { IfOk result (λ fractions. map ratio_of fractions ≡ map belief leaves.now) }
{
    let mut fractions = Fractions::with_capacity(alloc, leaves.len())?;
    for leaf in leaves.as_slice() {
        fractions.push(leaf.fraction())?;
    }
    Ok(fractions)
}

impl<W: Drop> Entry<W> {
    /// The entry of a candidate whose leaves have these beliefs in this window.
    pub fn new<C: Combination, L: Ledger>(
        alloc: Global,
        combination: &C,
        fractions: &[Fraction],
        window: W,
        squares: &mut Steps<L>,
    ) -> Result<Entry<W>, NoMemory>
        requires { length fractions.now ≡ C.leaves combination.now }
        ensures window { IfOk result (λ x. x.window ≡ window) }
        ensures beliefs { IfOk result (λ x. map belief x.leaves ≡ map ratio_of fractions.now) }
        ensures early { IfOk result (λ x. IsEarly (C.key_of combination.now) (C.leaves combination.now) x) }
        ensures cost { OnOk result (squares.new ≡ squares.old + FIRST * C.leaves combination.now) }
        ensures within { squares.new ≤ squares.old + FIRST * C.leaves combination.now }
    {
        let leaves = early_leaves(alloc, fractions, squares)?;
        let leading = key_of(alloc, combination, leaves.as_slice())?;
        Ok(Entry {
            leading,
            window,
            leaves,
        })
    }

    /// The candidate with all digits.
    pub fn settle<C: Combination, L: Ledger>(
        self,
        alloc: Global,
        combination: &C,
        squares: &mut Steps<L>,
    ) -> Result<Settled<W>, NoMemory>
        requires { IsEarly (C.key_of combination.now) (C.leaves combination.now) self }
        ensures settled { IfOk result (λ x. x ≡ settled (C.key_of combination.now) self) }
        ensures cost { squares.new ≡ squares.old + (LAST - FIRST) * C.leaves combination.now }
    {
        let Entry { window, leaves, .. } = self;
        let leaves = late_leaves(leaves, squares);
        let key = key_of(alloc, combination, leaves.as_slice())?;
        Ok(Settled {
            key,
            window,
            leaves,
        })
    }
}
