// The first items of each run of those that stand before each other whatever their further digits are.
ghost use Rattle.std.specs.Prelude.{◌≡◌, ◌-◌, ◌∷◌, [], true, false, List, IfOk, OnOk, length};
ghost use Rattle.bounded_keys.specs.Runs.{AreSeen, Continues, HoldsRuns, IsFull, Reaches};

use crate::Leading;
use std::alloc::{AllocError, Global};

/// Of items that were taken the first of each run, at most so many. It tells of each run of which some were left out where the last item
/// stands that is kept, in the order of the runs.
#[derive(Drop)]
pub struct Runs<T: Leading> {
    pub items: Vec<T>,
    pub full: Vec<usize>,
    most: usize,
    run: usize,
}

/// Whether an item continues the run of the last of some items.
fn continues<T: Leading + Drop>(items: &[T], item: &T) -> bool
    ensures yes { result ≡ true → Continues T.before items.now item.now }
    ensures no { result ≡ false → Continues T.before items.now item.now → ⊥ }
{
    match items.last() {
        Some(last) => last.is_before(item),
        None => false,
    }
}

/// How many items of an item's run were seen, where so many were seen of the last one's.
fn seen_of_run<T: Leading + Drop>(items: &[T], run: usize, item: &T) -> usize
    ensures { AreSeen T.before items.now run item.now result }
{
    if continues(items, item) { run } else { 0 }
}

impl<T: Leading + Drop> Runs<T> {
    /// None was taken yet; there is room for so many.
    fn new(alloc: Global, most: usize, room: usize) -> Result<Runs<T>, AllocError>
        ensures most { IfOk result (λ runs. runs.most ≡ most) }
        ensures runs { IfOk result (λ runs. HoldsRuns T.before most [] runs.run runs.full.items runs.items.items) }
    {
        Ok(Runs {
            items: Vec::with_capacity(alloc, room)?,
            full: Vec::new(alloc),
            most,
            run: 0,
        })
    }

    /// Tells where the last item stands that is kept, where the one that is left out, before which so many of its run were seen, is the
    /// first of them to be so.
    fn end_run(&mut self, seen: usize) -> Result<(), AllocError>
        ensures most { self.new.most ≡ self.old.most }
        ensures run { self.new.run ≡ self.old.run }
        ensures items { self.new.items.items ≡ self.old.items.items }
        ensures full { OnOk result (Reaches T.before self.old.most (length self.old.items.items - 1) self.old.items.items
            → IsFull T.before self.old.most self.old.full.items self.old.items.items → IsFull T.before self.old.most self.new.full.items self.old.items.items) }
    {
        match self.items.len().checked_sub(1) {
            Some(last) if seen == self.most => Ok(self.full.push(last)?),
            _ => Ok(()),
        }
    }

    /// Takes the next item in, unless so many of its run are kept.
    fn take(&mut self, item: T) -> Result<(), AllocError>
        ensures most { self.new.most ≡ self.old.most }
        ensures runs { OnOk result ((taken : List T) → HoldsRuns T.before self.old.most taken self.old.run self.old.full.items self.old.items.items
            → HoldsRuns T.before self.old.most (item ∷ taken) self.new.run self.new.full.items self.new.items.items) }
    {
        let seen = seen_of_run(&self.items, self.run, &item);
        self.run = seen.saturating_add(1);
        if seen < self.most {
            self.items.push(item)?;
            return Ok(());
        }
        self.end_run(seen)
    }
}

/// The first of each run of some items, at most so many.
pub fn first_of_runs<T: Leading + Drop>(
    alloc: Global,
    mut items: Vec<T>,
    most: usize,
) -> Result<Runs<T>, AllocError>
    ensures { IfOk result (λ runs. HoldsRuns T.before most items.items runs.run runs.full.items runs.items.items) }
{
    // A sort that goes on with what is in order: of items that are looked through again most are.
    items.sort_by(|a, b| b.in_runs(a))?;
    let mut runs = Runs::new(alloc, most, items.len())?;
    while let Some(item) = items.pop() {
        runs.take(item)?;
    }
    Ok(runs)
}
