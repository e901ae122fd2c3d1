// The first items by numbers that lead their keys, and those that may still be among the first by their keys.
ghost use Rattle.std.specs.Prelude.{◌≡◌, ◌<◌, ◌≤◌, ◌∷◌, ◌++◌, [], ℕ, true, false, nat_le, List, length, slice_index_or, IfOk, OnOk};
ghost use Rattle.std.specs.BinaryHeap.{IsHeap, IsUpperBound, heap_items, heap_len};
ghost use Rattle.std.specs.List.{All};
ghost use Rattle.std.specs.List.Sorted.{IsPermutation};
ghost use Rattle.std.specs.Ordering.{is_lt};
ghost use Rattle.bounded_keys.specs.Kept.{AreAmong, AreContenders, IsApart, IsKept, beats, is_beaten_by};
ghost use Rattle.bounded_keys.specs.Runs.{AreShort};

use crate::Leading;
use crate::near::{LEAST_ROOM, Near, drop_above, limit_of};
use crate::runs::first_of_runs;
use crate::threshold::Threshold;
use std::alloc::{AllocError, Global};
use std::collections::BinaryHeap;
use std::marker::Model;

/// Of all items that were offered the first by their leading numbers, at most so many, and beside them those that may still be among
/// the first by their keys. The others are gone.
#[derive(Drop)]
pub struct Contenders<T: Leading> {
    heap: BinaryHeap<T>,
    near: Near<T>,
    most: usize,
    scale: u64,
}

impl<T: Leading> Model for Contenders<T> {
    ghost use Rattle.std.specs.Prelude.{◌≤◌};
    ghost use Rattle.std.specs.BinaryHeap.{IsHeap, heap_items, heap_len};
    ghost use Rattle.bounded_keys.specs.Kept.{Kept};
    ghost use Rattle.bounded_keys.specs.Runs.{IsFull};

    ghost Value = { Kept T };

    ghost view = { λ c. record { most = c.most; scale = c.scale; held = heap_items c.heap; near = c.near.items.items } };

    ghost invariant = { λ c. IsHeap T.cmp (heap_items c.heap) × (heap_len c.heap ≤ c.most) × IsFull T.before c.most c.near.full.items c.near.items.items };
}

/// How much room is made where so many items are held, of a limit: it is halved as often as it stays above these, and above a few. So the
/// room is doubled as items come, and the last time it becomes the limit.
fn room_above(held: usize, limit: usize) -> usize {
    let least = held.saturating_add(1).max(LEAST_ROOM);
    let halvings = (limit / least).max(1).ilog2();
    limit >> halvings
}

/// Makes room for another item where there is none, and in the end for all that are ever held, and kept beside them at first.
fn make_room<T: Leading>(heap: &mut BinaryHeap<T>, most: usize) -> Result<(), AllocError>
    ensures items { heap_items heap.new ≡ heap_items heap.old }
    ensures len { heap_len heap.new ≡ heap_len heap.old }
{
    let len = heap.len();
    if len == heap.capacity() {
        let room = room_above(len, limit_of(most, most));
        heap.reserve_exact(room.saturating_sub(len))?;
    }
    Ok(())
}

/// What is beaten by what is held.
fn threshold_of<T: Leading + Drop>(heap: &BinaryHeap<T>, most: usize, scale: u64) -> Threshold
    requires order { IsHeap T.cmp (heap_items heap.now) }
    requires few { heap_len heap.now ≤ most }
    ensures { (c : ℕ) → is_beaten_by T.number scale most (heap_items heap.now) c ≡ beats result c }
{
    if heap.len() < most {
        return Threshold::Nothing;
    }
    match heap.peek() {
        Some(greatest) => Threshold::behind(greatest.leading(), scale),
        None => Threshold::Everything,
    }
}

/// Whether an item comes before the greatest.
fn comes_first<T: Leading + Drop>(heap: &BinaryHeap<T>, item: &T) -> bool
    requires order { IsHeap T.cmp (heap_items heap.now) }
    ensures yes { result ≡ true → (0 < heap_len heap.now) × ((d : T) → is_lt (T.cmp item.now (slice_index_or (heap_items heap.now) 0 d)) ≡ true) }
    ensures no { result ≡ false → IsUpperBound T.cmp item.now (heap_items heap.now) }
{
    match heap.peek() {
        Some(greatest) => item.leading() < greatest.leading(),
        None => false,
    }
}

/// Puts an item in the place of the greatest, which is answered.
fn exchanged<T: Leading + Drop>(heap: &mut BinaryHeap<T>, item: T) -> T
    requires order { IsHeap T.cmp (heap_items heap.old) }
    requires some { 0 < heap_len heap.old }
    ensures order { IsHeap T.cmp (heap_items heap.new) }
    ensures len { heap_len heap.new ≡ heap_len heap.old }
    ensures top { result ≡ slice_index_or (heap_items heap.old) 0 result }
    ensures greatest { IsUpperBound T.cmp result (heap_items heap.old) }
    ensures moved { (left : List T) × IsPermutation (heap_items heap.old) (result ∷ left) × IsPermutation (item ∷ left) (heap_items heap.new) }
{
    let Some(top) = heap.pop() else {
        unreachable!()
    };
    let Ok(()) = heap.push(item) else {
        unreachable!()
    };
    top
}

/// Puts an item in the place of the greatest, where it comes before it, and answers the one that isn't held.
fn displaced<T: Leading + Drop>(heap: &mut BinaryHeap<T>, item: T) -> T
    requires order { IsHeap T.cmp (heap_items heap.old) }
    ensures order { IsHeap T.cmp (heap_items heap.new) }
    ensures len { heap_len heap.new ≡ heap_len heap.old }
    ensures apart { (k : ℕ) (all others : List T) → k ≤ length (heap_items heap.old) → IsApart T.cmp k all (heap_items heap.old) others
        → IsApart T.cmp k (item ∷ all) (heap_items heap.new) (result ∷ others) }
    ensures same { IsPermutation (item ∷ heap_items heap.old) (result ∷ heap_items heap.new) }
{
    if comes_first(heap, &item) {
        exchanged(heap, item)
    } else {
        item
    }
}

impl<T: Leading + Drop> Contenders<T> {
    /// Nothing was offered yet; of what comes at most so many are held. The keys are of this scale.
    pub fn new(alloc: Global, most: usize, scale: u64) -> Contenders<T>
        ensures most { result.most ≡ most }
        ensures scale { result.scale ≡ scale }
        ensures kept { IsKept T.cmp T.number T.before [] result }
    {
        Contenders {
            heap: BinaryHeap::new(alloc),
            near: Near::new(alloc, most),
            most,
            scale,
        }
    }

    /// How many may be held.
    pub fn most(&self) -> usize
        ensures { result ≡ self.now.most }
    {
        self.most
    }

    /// Whether some number is beaten: no more can be held without one that goes.
    pub fn beats_some(&self) -> bool
        ensures full { result ≡ nat_le self.now.most (length self.now.held) }
        ensures nothing { result ≡ false → (all : List T) → IsKept T.cmp T.number T.before all self.now → (number : ℕ) → is_beaten_by T.number self.now.scale self.now.most all number ≡ false }
    {
        self.heap.len() >= self.most
    }

    /// Whether a key that this number leads is surely above those of the first: at least so many may be held whose keys are surely
    /// less. So items needn't be offered whose numbers are at least this one.
    pub fn is_beaten(&self, number: u128) -> bool
        ensures exact { (all : List T) → IsKept T.cmp T.number T.before all self.now → result ≡ is_beaten_by T.number self.now.scale self.now.most all number }
        ensures skipped { result ≡ true → (all more : List T) → IsKept T.cmp T.number T.before all self.now → All (λ x. number ≤ T.number x) more → IsKept T.cmp T.number T.before (more ++ all) self.now }
    {
        threshold_of(&self.heap, self.most, self.scale).beats(number)
    }

    /// Takes an item in.
    pub fn offer(&mut self, item: T) -> Result<(), AllocError>
        ensures most { self.new.most ≡ self.old.most }
        ensures scale { self.new.scale ≡ self.old.scale }
        ensures kept { OnOk result ((all : List T) → IsKept T.cmp T.number T.before all self.old → IsKept T.cmp T.number T.before (item ∷ all) self.new) }
        ensures among { OnOk result (AreAmong (self.new.held ++ self.new.near) (item ∷ (self.old.held ++ self.old.near))) }
    {
        if self.heap.len() < self.most {
            make_room(&mut self.heap, self.most)?;
            self.heap.push(item)?;
            return Ok(());
        }
        let other = displaced(&mut self.heap, item);
        let threshold = threshold_of(&self.heap, self.most, self.scale);
        self.near.keep(self.most, threshold, other)?;
        Ok(())
    }

    /// Takes each item of a list in, and leaves none there.
    pub fn offer_all(&mut self, items: &mut Vec<T>) -> Result<(), AllocError>
        ensures most { self.new.most ≡ self.old.most }
        ensures scale { self.new.scale ≡ self.old.scale }
        ensures none { OnOk result (items.new.items ≡ []) }
        ensures kept { OnOk result ((all : List T) → IsKept T.cmp T.number T.before all self.old → IsKept T.cmp T.number T.before (items.old.items ++ all) self.new) }
        ensures among { OnOk result (AreAmong (self.new.held ++ self.new.near) (items.old.items ++ (self.old.held ++ self.old.near))) }
    {
        while let Some(item) = items.pop() {
            self.offer(item)?;
        }
        Ok(())
    }

    /// Those that may be among the first by their keys, for all that is known.
    pub fn into_contenders(self, alloc: Global) -> Result<Vec<T>, AllocError>
        ensures contenders { IfOk result (λ v. (all : List T) → IsKept T.cmp T.number T.before all self → AreContenders T.number self.scale T.before self.most all v.items) }
        ensures among { IfOk result (λ v. AreAmong v.items (self.held ++ self.near)) }
        ensures short { IfOk result (λ v. AreShort T.before self.most v.items) }
    {
        let threshold = threshold_of(&self.heap, self.most, self.scale);
        let Contenders {
            heap,
            near,
            most,
            ..
        } = self;
        let mut near = near.items;
        let mut all = heap.into_vec();
        all.append(&mut near)?;
        drop_above(&mut all, threshold);
        let runs = first_of_runs(alloc, all, most)?;
        Ok(runs.items)
    }
}
