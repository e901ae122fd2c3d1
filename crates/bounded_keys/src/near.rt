// Items that are kept beside the first ones.
ghost use Rattle.std.specs.Prelude.{◌≡◌, ◌≤◌, ◌∷◌, ◌++◌, [], ℕ, true, OnOk, not};
ghost use Rattle.std.specs.List.{filter};
ghost use Rattle.bounded_keys.specs.Kept.{LeavesOut, beats};
ghost use Rattle.bounded_keys.specs.Runs.{IsFull, count_before};

use crate::Leading;
use crate::runs::first_of_runs;
use crate::threshold::Threshold;
use std::alloc::{AllocError, Global};
use std::mem;

/// Items of which none is known to be behind so many others. They are looked through when they are more than the limit. From then on
/// `full` tells of some of them, in their order, that so many stand before what one of these stands before.
#[derive(Drop)]
pub struct Near<T: Leading> {
    pub items: Vec<T>,
    pub full: Vec<usize>,
    limit: usize,
}

/// How many items may come beside those that were left before all are looked through again.
pub const LEAST_ROOM: usize = 16;

/// The limit where so many items are left and so many may be held. There is room for a sixteenth of the greater number, so each item that
/// comes pays for a look at seventeen, and few items are held beside those that must be.
pub fn limit_of(left: usize, most: usize) -> usize {
    left.saturating_add(left.max(most) / 16)
        .saturating_add(LEAST_ROOM)
}

/// Keeps those that aren't above the threshold.
pub fn drop_above<T: Leading + Drop>(items: &mut Vec<T>, threshold: Threshold)
    ensures { items.new.items ≡ filter (λ x. not (beats threshold (T.number x))) items.old.items }
{
    items.retain(|x| !threshold.beats(x.leading()));
}

/// Whether the item at a place is ahead of another in the order of runs.
fn is_ahead<T: Leading>(items: &[T], place: usize, item: &T) -> bool {
    match items.get(place) {
        Some(other) => other.in_runs(item).is_lt(),
        None => false,
    }
}

impl<T: Leading + Drop> Near<T> {
    /// None is kept yet.
    pub fn new(alloc: Global, most: usize) -> Near<T>
        ensures items { result.items.items ≡ [] }
        ensures full { result.full.items ≡ [] }
    {
        Near {
            items: Vec::new(alloc),
            full: Vec::new(alloc),
            limit: limit_of(0, most),
        }
    }

    /// Whether an item stands behind the last one that is kept of a full run, the one of this number.
    fn is_behind(&self, number: usize, item: &T) -> bool
        ensures { result ≡ true → (most : ℕ) → IsFull T.before most self.now.full.items self.now.items.items → most ≤ count_before T.before self.now.items.items item.now }
    {
        let Some(place) = self.full.get(number) else {
            return false;
        };
        match self.items.get(*place) {
            Some(last) => last.is_before(item),
            None => false,
        }
    }

    /// Whether it is known that so many stand before an item.
    fn is_passed(&self, item: &T) -> bool
        ensures { result ≡ true → (most : ℕ) → IsFull T.before most self.now.full.items self.now.items.items → most ≤ count_before T.before self.now.items.items item.now }
    {
        let ends = self
            .full
            .partition_point(|place| is_ahead(&self.items, *place, item));
        self.is_behind(ends.saturating_sub(1), item)
    }

    /// Looks the items through: those that are above the threshold go, and so do those that aren't among the first of their run.
    fn purge(&mut self, most: usize, threshold: Threshold) -> Result<(), AllocError>
        ensures full { IsFull T.before most self.new.full.items self.new.items.items }
        ensures left { OnOk result (LeavesOut T.number T.before most threshold self.old.items.items self.new.items.items) }
    {
        drop_above(&mut self.items, threshold);
        let alloc = *self.items.allocator();
        let items = mem::replace(&mut self.items, Vec::new(alloc));
        self.full.clear();
        let runs = first_of_runs(alloc, items, most)?;
        self.items = runs.items;
        self.full = runs.full;
        self.limit = limit_of(self.items.len(), most);
        Ok(())
    }

    /// Keeps an item too, unless it is known to be behind so many others.
    pub fn keep(&mut self, most: usize, threshold: Threshold, item: T) -> Result<(), AllocError>
        requires { IsFull T.before most self.old.full.items self.old.items.items }
        ensures full { IsFull T.before most self.new.full.items self.new.items.items }
        ensures left { OnOk result (LeavesOut T.number T.before most threshold (self.old.items.items ++ item ∷ []) self.new.items.items) }
    {
        if threshold.beats(item.leading()) {
            return Ok(());
        }
        if self.is_passed(&item) {
            return Ok(());
        }
        self.items.push(item)?;
        if self.items.len() > self.limit {
            self.purge(most, threshold)?;
        }
        Ok(())
    }
}
