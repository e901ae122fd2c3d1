// The numbers of new files.
ghost use Rattle.std.specs.Prelude.{◌≡◌, ◌≤◌, ◌<◌, ◌++◌, [], ℕ, true, false, IfOk, OnOk};
ghost use Rattle.disk_index.specs.Parts.{source_of};
ghost use Rattle.manifest.specs.Entries.{with_number, with_numbers};
ghost use Rattle.manifest.specs.Listing.{AreNumbered, prior_numbers};
ghost use Rattle.repository.specs.Numbers.{IsLeastFree, IsNewNumber, greatest, is_among, next_after};
ghost use Rattle.repository.specs.States.{numbers_in, part_numbers};

use disk_index::{MarkedPart, Part};
use manifest::PriorEntry;
use ri_base::NoMemory;
use std::alloc::{AllocError, Global};
use std::collections::BTreeSet;
use std::marker::Model;

/// The numbers that are taken, by files that are listed and by those that were written since, and the next one.
#[derive(Drop)]
pub struct Numbers {
    next: u64,
    taken: BTreeSet<u64>,
    /// All numbers below it are taken.
    low: u64,
}

impl Model for Numbers {
    ghost use Rattle.repository.specs.Numbers.{AreTaken, Taken};

    ghost Value = { Taken };

    ghost view = { λ n. record { next = n.next; numbers = n.taken.keys } };

    ghost invariant = { λ n. AreTaken n.next n.low n.taken.keys };
}

impl Numbers {
    /// Those of the files of these parts, of stale files and of priors.
    pub fn of(
        alloc: Global,
        next: u64,
        parts: &[MarkedPart],
        stale: &[u64],
        priors: &[PriorEntry],
    ) -> Result<Numbers, NoMemory>
        requires some { 1 ≤ next }
        requires numbered { AreNumbered next (part_numbers parts.now ++ (stale.now ++ prior_numbers priors.now)) }
        ensures next { IfOk result (λ n. n.next ≡ next) }
        ensures numbers { IfOk result (λ n. n.numbers ≡ with_numbers [] (part_numbers parts.now ++ (stale.now ++ prior_numbers priors.now))) }
    {
        let mut taken = BTreeSet::new(alloc);
        put_parts(&mut taken, parts)?;
        put_stale(&mut taken, stale)?;
        put_priors(&mut taken, priors)?;
        Ok(Numbers {
            next,
            taken,
            low: 1,
        })
    }

    /// The number of the next file.
    pub fn next(&self) -> u64
        ensures next { result ≡ self.now.next }
        ensures fits { result ≤ greatest }
    {
        self.next
    }

    /// The number of a new file: the next one, or, once that is the greatest, the least that is free.
    pub fn take(&mut self) -> Result<u64, NoMemory>
        ensures new { IfOk result (IsNewNumber self.old.next self.old.numbers) }
        ensures some { IfOk result (λ n. 1 ≤ n) }
        ensures below { IfOk result (λ n. n < self.new.next) }
        ensures small { IfOk result (λ n. n < greatest) }
        ensures rises { OnOk result (self.old.next ≤ self.new.next) }
        ensures free { IfOk result (λ n. is_among n self.old.numbers ≡ false) }
        ensures next { OnOk result (self.new.next ≡ next_after self.old.next) }
        ensures numbers { IfOk result (λ n. self.new.numbers ≡ with_number self.old.numbers n) }
    {
        if self.next == u64::MAX {
            let number = least_free(&self.taken, self.low)?;
            self.taken.insert(number)?;
            self.low = number + 1;
            return Ok(number);
        }
        let number = self.next;
        self.taken.insert(number)?;
        self.next = number + 1;
        Ok(number)
    }
}

/// Whether the number is taken.
#[tactic(auto, using(manifest::proofs::EntryLemmas::number_among))]
fn is_taken(taken: &BTreeSet<u64>, number: u64) -> bool
    ensures { result ≡ is_among number taken.now.keys }
{
    taken.contains(&number)
}

/// The least number that isn't taken. All below low are.
fn least_free(taken: &BTreeSet<u64>, low: u64) -> Result<u64, NoMemory>
    requires some { 1 ≤ low }
    requires filled { (k : ℕ) → 1 ≤ k → k < low → is_among k taken.now.keys ≡ true }
    ensures least { IfOk result (IsLeastFree taken.now.keys) }
    ensures below { IfOk result (λ n. n < greatest) }
{
    for number in low..u64::MAX {
        if !is_taken(taken, number) {
            return Ok(number);
        }
    }
    // so many numbers have no room in memory
    Err(AllocError)
}

/// Notes the number of a part's file, where it has one.
fn put_part(taken: &mut BTreeSet<u64>, part: &Part) -> Result<(), NoMemory>
    ensures { OnOk result (taken.new.keys ≡ with_numbers taken.old.keys (numbers_in (source_of part.now))) }
{
    match part {
        Part::Memory(_) => Ok(()),
        Part::Disk(index) => {
            taken.insert(index.number())?;
            Ok(())
        }
    }
}

fn put_parts(taken: &mut BTreeSet<u64>, parts: &[MarkedPart]) -> Result<(), NoMemory>
    ensures { OnOk result (taken.new.keys ≡ with_numbers taken.old.keys (part_numbers parts.now)) }
{
    for part in parts {
        put_part(taken, part.part())?;
    }
    Ok(())
}

fn put_stale(taken: &mut BTreeSet<u64>, stale: &[u64]) -> Result<(), NoMemory>
    ensures { OnOk result (taken.new.keys ≡ with_numbers taken.old.keys stale.now) }
{
    for number in stale {
        taken.insert(*number)?;
    }
    Ok(())
}

fn put_priors(taken: &mut BTreeSet<u64>, priors: &[PriorEntry]) -> Result<(), NoMemory>
    ensures { OnOk result (taken.new.keys ≡ with_numbers taken.old.keys (prior_numbers priors.now)) }
{
    for prior in priors {
        taken.insert(prior.number)?;
    }
    Ok(())
}
