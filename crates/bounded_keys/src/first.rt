// The first of all entries by their keys at the last level.
ghost use Rattle.std.specs.Prelude.{◌≡◌, ◌≤◌, ◌+◌, ◌*◌, ◌-◌, ◌++◌, All, List, length, map, IfOk, OnOk};
ghost use Rattle.first_few.specs.First.{AreFirst, IsFront};
ghost use Rattle.log_chain.specs.declared.chain.TheConstants.{FIRST, LAST};
ghost use Rattle.bounded_keys.specs.Entries.{IsEarly, WereOffered, by_key, in_question, settled};
ghost use Rattle.bounded_keys.specs.Kept.{AreAmong};

use crate::{Combination, Contenders, Entry, Settled};
use first_few::FirstFew;
use ri_base::{NoMemory, Steps};
use std::alloc::Global;
use std::sync::ledger::Ledger;

/// Offers each of some entries with all digits.
fn offer_settled<W: Ord + Drop, C: Combination, L: Ledger>(
    alloc: Global,
    combination: &C,
    mut entries: Vec<Entry<W>>,
    first: &mut FirstFew<Settled<W>>,
    squares: &mut Steps<L>,
) -> Result<(), NoMemory>
    requires { All (λ x. IsEarly (C.key_of combination.now) (C.leaves combination.now) x) entries.items }
    ensures most { first.new.most ≡ first.old.most }
    ensures first { OnOk result ((all : List (Settled W)) → AreFirst (by_key W.cmp) first.old.most all first.old.held
        → AreFirst (by_key W.cmp) first.old.most (map (settled (C.key_of combination.now)) entries.items ++ all) first.new.held) }
    ensures cost { OnOk result (squares.new ≡ squares.old + (LAST - FIRST) * C.leaves combination.now * length entries.items) }
    ensures within { squares.new ≤ squares.old + (LAST - FIRST) * C.leaves combination.now * length entries.items }
{
    while let Some(entry) = entries.pop() {
        first.offer(entry.settle(alloc, combination, squares)?)?;
    }
    Ok(())
}

impl<W: Ord + Drop> Contenders<Entry<W>> {
    /// The first of all that were offered by their keys at the last level, in order. Further digits are taken of those alone that may
    /// be among them; of how many is answered too.
    pub fn into_first<C: Combination, L: Ledger>(
        self,
        alloc: Global,
        combination: &C,
        squares: &mut Steps<L>,
    ) -> Result<(Vec<Settled<W>>, usize), NoMemory>
        requires scale { self.scale ≡ C.scale combination.now }
        requires early { All (λ x. IsEarly (C.key_of combination.now) (C.leaves combination.now) x) (self.held ++ self.near) }
        ensures front { IfOk result (λ v. (all : List (Entry W)) → WereOffered W.cmp all self → All (λ x. IsEarly (C.key_of combination.now) (C.leaves combination.now) x) all
            → IsFront (by_key W.cmp) self.most (map (settled (C.key_of combination.now)) all) v.0.items) }
        ensures few { IfOk result (λ v. length v.0.items ≤ self.most) }
        ensures among { IfOk result (λ v. AreAmong v.0.items (map (settled (C.key_of combination.now)) (self.held ++ self.near))) }
        ensures cost { IfOk result (λ v. squares.new ≡ squares.old + (LAST - FIRST) * C.leaves combination.now * v.1) }
        ensures within { (all : List (Entry W)) → WereOffered W.cmp all self
            → squares.new ≤ squares.old + (LAST - FIRST) * C.leaves combination.now * length (in_question self.scale self.most all) }
    {
        let most = self.most();
        let entries = self.into_contenders(alloc)?;
        let count = entries.len();
        let mut first = FirstFew::new(alloc, most);
        offer_settled(alloc, combination, entries, &mut first, squares)?;
        Ok((first.into_sorted(), count))
    }
}
