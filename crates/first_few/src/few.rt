// A heap of the least items that were offered, with the greatest of these on top.
ghost use Rattle.std.specs.Prelude.{◌≡◌, ◌<◌, ◌≤◌, true, false, List, [], ◌∷◌, ◌++◌, length, OnOk, OnErr, slice_index_or};
ghost use Rattle.std.specs.BinaryHeap.{IsHeap, IsUpperBound, heap_capacity, heap_items, heap_len};
ghost use Rattle.std.specs.List.Sorted.{IsPermutation};
ghost use Rattle.std.specs.Ordering.{is_lt};
ghost use Rattle.first_few.specs.First.{AreFirst, IsFront};

use std::alloc::{AllocError, Global};
use std::collections::BinaryHeap;
use std::marker::Model;

/// Of all items that were offered the least, at most so many, in the order of their type. It never holds more, and copies none.
#[derive(Drop)]
pub struct FirstFew<T: Ord> {
    heap: BinaryHeap<T>,
    most: usize,
}

impl<T: Ord> Model for FirstFew<T> {
    ghost use Rattle.std.specs.BinaryHeap.{IsHeap, heap_items};
    ghost use Rattle.first_few.specs.First.{Few};

    ghost Value = { Few T };

    ghost view = { λ f. record { most = f.most; held = heap_items f.heap } };

    ghost invariant = { λ f. IsHeap T.cmp (heap_items f.heap) };
}

impl<T: Ord + Drop> FirstFew<T> {
    /// Nothing was offered yet; of what comes at most so many are kept.
    pub fn new(alloc: Global, most: usize) -> FirstFew<T>
        ensures most { result.most ≡ most }
        ensures first { AreFirst T.cmp most [] result.held }
    {
        FirstFew {
            heap: BinaryHeap::new(alloc),
            most,
        }
    }

    /// Takes an item in, where it is among the first of all that were offered. The one that is then too many is dropped.
    /// After an error nothing has changed.
    pub fn offer(&mut self, item: T) -> Result<(), AllocError>
        ensures most { self.new.most ≡ self.old.most }
        ensures first { OnOk result ((all : List T) → AreFirst T.cmp self.old.most all self.old.held → AreFirst T.cmp self.old.most (item ∷ all) self.new.held) }
        ensures err { OnErr result (self.new ≡ self.old) }
    {
        if self.heap.len() < self.most {
            self.heap.push(item)?;
            return Ok(());
        }
        let better = comes_first(&self.heap, &item);
        if better {
            drop_greatest(&mut self.heap);
            self.heap.push(item)?;
        }
        Ok(())
    }

    /// Offers each item of a list, and leaves none there.
    pub fn offer_all(&mut self, items: &mut Vec<T>) -> Result<(), AllocError>
        ensures most { self.new.most ≡ self.old.most }
        ensures none { OnOk result (items.new.items ≡ []) }
        ensures first { OnOk result ((all : List T) → AreFirst T.cmp self.old.most all self.old.held → AreFirst T.cmp self.old.most (items.old.items ++ all) self.new.held) }
    {
        while let Some(item) = items.pop() {
            self.offer(item)?;
        }
        Ok(())
    }

    /// The first of all that were offered, in order.
    pub fn into_sorted(self) -> Vec<T>
        ensures { (all : List T) → AreFirst T.cmp self.most all self.held → IsFront T.cmp self.most all result.items }
    {
        self.heap.into_sorted_vec()
    }
}

/// Whether the item is less than the greatest.
fn comes_first<T: Ord + Drop>(heap: &BinaryHeap<T>, item: &T) -> bool
    requires order { IsHeap T.cmp (heap_items heap.now) }
    ensures yes { result ≡ true → (0 < heap_len heap.now) × ((d : T) → is_lt (T.cmp item.now (slice_index_or (heap_items heap.now) 0 d)) ≡ true) }
    ensures no { result ≡ false → IsUpperBound T.cmp item.now (heap_items heap.now) }
{
    match heap.peek() {
        Some(greatest) => item.cmp(greatest).is_lt(),
        None => false,
    }
}

/// Takes the greatest out.
fn drop_greatest<T: Ord + Drop>(heap: &mut BinaryHeap<T>)
    requires order { IsHeap T.cmp (heap_items heap.old) }
    requires some { 0 < heap_len heap.old }
    ensures order { IsHeap T.cmp (heap_items heap.new) }
    ensures greatest { (top : T) × (top ≡ slice_index_or (heap_items heap.old) 0 top) × IsPermutation (heap_items heap.old) (top ∷ heap_items heap.new) × IsUpperBound T.cmp top (heap_items heap.old) }
    ensures room { heap_len heap.new < heap_capacity heap.new }
{
    let _ = heap.pop();
}
