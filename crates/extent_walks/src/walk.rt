// What gives the extents of an expression one after the other.
ghost use Rattle.std.specs.Prelude.{◌≡◌, ◌≢◌, ◌<◌, ◌≤◌, ◌+◌, ◌↔◌, ℕ, ◌⊎◌, Option, Some, None, IfOk, IfSome, IsTrue, length, true};
ghost use Rattle.ri_base.specs.Pair.{Pair};
ghost use Rattle.extent_walks.specs.Chains.{AreChained, IsReached, plan_at};
ghost use Rattle.extent_walks.specs.Next.{EndsFrom, IsFrom, IsLeast, IsLeastBelow, IsNext};
ghost use Rattle.extent_lists.specs.Plans.{LiesInSome};
ghost use Rattle.extent_walks.specs.Next.{earlier, least_either};
ghost use Rattle.extent_lists.specs.Operators.{HasEach, HasEachInside, IsChain, IsInSome, IsLeastEnd, IsWindow, Joins};
ghost use Rattle.extent_lists.specs.Plans.{each_set, set};
ghost use Rattle.extent_walks.specs.Shapes.{AreMonotone, HasShape, has_one_end, plan_shape, plans_shape};
ghost use Rattle.extent_walks.specs.Walks.{AreKept, IsAheadKept, IsKept, chain_plan, plan, plans};

use crate::listed::Listed;
use crate::outermost::Outermost;
use crate::place::Place;
use crate::reach::Reach;
use crate::shape::Shape;
use extent_lists::lesser;
use ri_base::{Extent, NoMemory};
use std::alloc::Global;

/// What gives the first extent of an expression from any place on. An operator holds those of its arguments, and asks
/// them for no more than it needs.
#[derive(Drop)]
#[cycle(walk)]
pub enum Walk {
    /// A list.
    Listed(Listed),
    /// Any of the arguments.
    Union(Vec<Ahead>),
    /// Those that lie in a field.
    Within(Box<Ahead>, Outermost),
    /// The one of the least end for each begin.
    Shortest(Box<Ahead>),
    /// For each begin of a first extent the least end of a later one that follows it within so many tokens.
    Joined(u32, Box<Ahead>, Box<Ahead>),
    /// The same of a chain of arguments of which none has an extent that begins no earlier than another and ends earlier.
    Chain(u32, Vec<Ahead>, Reach),
    /// For each begin the least end of a window of at most so many tokens that has each argument.
    Window(u32, Vec<Ahead>),
    /// A document of so many tokens, where each argument is found.
    Whole(u32, Vec<Ahead>),
}

/// A walk, what is known of its extents, and where it was asked last what it answered.
#[derive(Drop)]
#[cycle(walk)]
pub struct Ahead {
    walk: Walk,
    shape: Shape,
    is_asked: bool,
    from: Place,
    found: Option<Extent>,
}

/// The one that comes first.
fn earlier(a: Option<Extent>, b: Option<Extent>) -> Option<Extent>
    ensures { result ≡ earlier a b }
{
    match (a, b) {
        (None, other) => other,
        (Some(x), None) => Some(x),
        (Some(x), Some(y)) => {
            if y.begin() < x.begin() || (y.begin() == x.begin() && y.end() < x.end()) {
                Some(y)
            } else {
                Some(x)
            }
        }
    }
}

/// The lesser of what may be two ends.
fn lesser_of(a: Option<u32>, b: Option<u32>) -> Option<u32>
    ensures { result ≡ least_either a b }
{
    match a {
        None => b,
        Some(end) => lesser(end, b),
    }
}

/// The extent from `begin` to the end, if there is one, where it stands at this place or behind.
fn extent_from(from: Place, begin: u32, end: Option<u32>) -> Option<Extent>
    requires { IfSome end (λ e. begin < e) }
    ensures some { IfSome result
        (λ x. (x.begin ≡ begin) × (end ≡ Some x.end) × IsFrom from.begin from.end begin x.end) }
    ensures none { result ≡ None → (e : ℕ) → end ≡ Some e → IsFrom from.begin from.end begin e → ⊥ }
{
    match end {
        None => None,
        Some(end) => {
            if from.is_before(begin, end) {
                Some(Extent::new(begin, end))
            } else {
                None
            }
        }
    }
}

/// Whether an extent that begins there begins below `top`, and may end below the least end so far.
fn may_be_less(begin: u32, top: u64, least: Option<u32>) -> bool
    ensures below { IsTrue result → begin < top }
    ensures less { IsTrue result → (m : ℕ) → least ≡ Some m → begin < m }
    ensures not { result ≢ true → (top ≤ begin) ⊎ ((m : ℕ) × (least ≡ Some m) × (m ≤ begin)) }
{
    if u64::from(begin) >= top {
        return false;
    }
    match least {
        None => true,
        Some(end) => begin < end,
    }
}

#[tactic(auto, using(crate::proofs::WalkLaws::walk_laws))]
impl Walk {
    /// What is known of its extents. It takes a step for each extent of a list and for each argument.
    #[tactic(auto, using(crate::proofs::WalkLaws::walk_laws, crate::proofs::WalkLaws::shape_laws))]
    fn shape(&self) -> Shape
        requires { IsKept self.now }
        ensures { result ≡ plan_shape (plan self.now) }
    {
        match self {
            Walk::Listed(list) => list.shape(),
            Walk::Union(all) => weakest(all).of_union(),
            Walk::Within(inner, _) => inner.shape,
            Walk::Shortest(inner) => inner.shape.of_windows(),
            Walk::Joined(_, first, later) => first.shape.weaker(later.shape).of_windows(),
            Walk::Chain(_, _, _) => Shape::Monotone,
            Walk::Window(_, all) => weakest(all).of_windows(),
            Walk::Whole(_, _) => Shape::Monotone,
        }
    }

    /// The first extent from this place on.
    #[cycle(next)]
    pub fn next(&mut self, from: Place) -> Option<Extent>
        requires { IsKept self.old }
        ensures next { IsNext (set (plan self.old)) from.begin from.end result }
        ensures same { plan self.new ≡ plan self.old }
        ensures kept { IsKept self.new }
    {
        match self {
            Walk::Listed(list) => list.next(from),
            Walk::Union(all) => next_of_any(all, from),
            Walk::Within(inner, fields) => next_within(inner, fields, from),
            Walk::Shortest(inner) => next_shortest(inner, from),
            Walk::Joined(n, first, later) => next_joined(*n, first, later, from),
            Walk::Chain(n, all, reach) => next_chain(*n, all, reach, from),
            Walk::Window(n, all) => next_window(*n, all, from),
            Walk::Whole(length, all) => next_whole(*length, all, from),
        }
    }
}

impl Ahead {
    pub fn new(walk: Walk) -> Ahead
        requires { IsKept walk }
        ensures walk { result.walk ≡ walk }
        ensures shape { HasShape result.shape (set (plan result.walk)) }
        ensures kept { IsAheadKept result }
    {
        let shape = walk.shape();
        Ahead {
            walk,
            shape,
            is_asked: false,
            from: Place::at(0),
            found: None,
        }
    }

    /// Whether what it answered last answers this too.
    fn answers(&self, from: Place) -> bool
        ensures asked { IsTrue result → self.now.is_asked ≡ true }
        ensures later { IsTrue result → IsFrom self.now.from.begin self.now.from.end from.begin from.end }
        ensures none_between { IsTrue result →
            (x : Pair) → self.now.found ≡ Some x → IsFrom from.begin from.end x.begin x.end }
        ensures all { self.now.is_asked ≡ true → IsFrom self.now.from.begin self.now.from.end from.begin from.end →
            ((x : Pair) → self.now.found ≡ Some x → IsFrom from.begin from.end x.begin x.end) → IsTrue result }
    {
        if !self.is_asked || from.begin < self.from.begin {
            return false;
        }
        if from.begin == self.from.begin && from.end < self.from.end {
            return false;
        }
        match self.found {
            None => true,
            Some(x) => from.is_before(x.begin(), x.end()),
        }
    }

    /// A place from which on the first extent is the same. Where extents of one begin have one end, and the one of this
    /// begin was found and ends before the place, it is the next begin, so the walk needn't go over this begin again.
    fn start(&self, from: Place) -> Place
        requires { IsAheadKept self.now }
        ensures next { (found : Option Pair) → IsNext (set (plan self.now.walk)) result.begin result.end found →
            IsNext (set (plan self.now.walk)) from.begin from.end found }
        ensures further { self.now.is_asked ≡ true → has_one_end self.now.shape ≡ true → (x : Pair) →
            self.now.found ≡ Some x → x.begin ≡ from.begin → x.end < from.end → from.begin < result.begin }
    {
        if !self.is_asked || !self.shape.has_one_end() {
            return from;
        }
        let Some(x) = self.found else {
            return from;
        };
        if x.begin() == from.begin && u64::from(x.end()) < from.end {
            Place::at(x.begin() + 1)
        } else {
            from
        }
    }

    /// The first extent from this place on.
    #[cycle(next)]
    pub fn next(&mut self, from: Place) -> Option<Extent>
        requires { IsAheadKept self.old }
        ensures next { IsNext (set (plan self.old.walk)) from.begin from.end result }
        ensures same { plan self.new.walk ≡ plan self.old.walk }
        ensures kept { IsAheadKept self.new }
        ensures remembered { (self.new.is_asked ≡ true) × (self.new.found ≡ result) }
    {
        if !self.answers(from) {
            let start = self.start(from);
            self.found = self.walk.next(start);
            self.from = from;
            self.is_asked = true;
        }
        self.found
    }

    /// The least end of the extents that begin at `low` or behind and below `top`.
    #[cycle(next)]
    fn least_end(&mut self, low: u32, top: u64) -> Option<u32>
        requires { IsAheadKept self.old }
        ensures least { IsLeast (EndsFrom (set (plan self.old.walk)) low top) result }
        ensures same { plan self.new.walk ≡ plan self.old.walk }
        ensures kept { IsAheadKept self.new }
    {
        if self.shape.is_monotone() {
            self.first_end(low, top)
        } else {
            self.least_of_ends(low, top)
        }
    }

    /// The same where an extent that begins no earlier than another ends no earlier: the first one tells it.
    #[cycle(next)]
    fn first_end(&mut self, low: u32, top: u64) -> Option<u32>
        requires kept { IsAheadKept self.old }
        requires monotone { AreMonotone (set (plan self.old.walk)) }
        ensures least { IsLeast (EndsFrom (set (plan self.old.walk)) low top) result }
        ensures same { plan self.new.walk ≡ plan self.old.walk }
        ensures kept { IsAheadKept self.new }
    {
        let Some(x) = self.next(Place::at(low)) else {
            return None;
        };
        if u64::from(x.begin()) >= top {
            return None;
        }
        Some(x.end())
    }

    /// The same where a later extent may end earlier: each begin is looked at that may have a lesser end.
    #[cycle(next)]
    fn least_of_ends(&mut self, low: u32, top: u64) -> Option<u32>
        requires { IsAheadKept self.old }
        ensures least { IsLeast (EndsFrom (set (plan self.old.walk)) low top) result }
        ensures same { plan self.new.walk ≡ plan self.old.walk }
        ensures kept { IsAheadKept self.new }
    {
        let mut least = None;
        let mut begin = low;
        while may_be_less(begin, top, least) {
            let Some(x) = self.next(Place::at(begin)) else {
                return least;
            };
            if u64::from(x.begin()) >= top {
                return least;
            }
            least = lesser(x.end(), least);
            begin = x.begin() + 1;
        }
        least
    }
}

/// What is known of the extents of each argument.
fn weakest(all: &[Ahead]) -> Shape
    requires { AreKept all.now }
    ensures { result ≡ plans_shape (plans all.now) }
{
    let mut shape = Shape::OneToken;
    let mut i = all.len();
    while i > 0 {
        i -= 1;
        shape = all[i].shape.weaker(shape);
    }
    shape
}

/// The first extent of any argument from this place on.
#[cycle(next)]
fn next_of_any(all: &mut Vec<Ahead>, from: Place) -> Option<Extent>
    requires { AreKept all.old.items }
    ensures next { IsNext (IsInSome (each_set (plans all.old.items))) from.begin from.end result }
    ensures same { plans all.new.items ≡ plans all.old.items }
    ensures kept { AreKept all.new.items }
{
    let mut found = None;
    let mut i = all.len();
    while i > 0 {
        i -= 1;
        let here = all[i].next(from);
        found = earlier(here, found);
    }
    found
}

/// The least end by which each argument has an extent that begins at `low` or behind and below `top`.
#[cycle(next)]
fn enclosing_end(all: &mut Vec<Ahead>, low: u32, top: u64) -> Option<u32>
    requires { AreKept all.old.items }
    ensures least { IsLeastBelow top (HasEachInside (each_set (plans all.old.items)) low) result }
    ensures same { plans all.new.items ≡ plans all.old.items }
    ensures kept { AreKept all.new.items }
{
    let mut end = 0;
    let mut i = all.len();
    while i > 0 {
        i -= 1;
        let Some(here) = all[i].least_end(low, top) else {
            return None;
        };
        end = here.max(end);
    }
    Some(end)
}

/// Whether each argument has an extent.
#[cycle(next)]
fn has_each(all: &mut Vec<Ahead>) -> bool
    requires { AreKept all.old.items }
    ensures each { IsTrue result ↔ HasEach (each_set (plans all.old.items)) }
    ensures same { plans all.new.items ≡ plans all.old.items }
    ensures kept { AreKept all.new.items }
{
    let mut i = all.len();
    while i > 0 {
        i -= 1;
        let Some(_) = all[i].next(Place::at(0)) else {
            return false;
        };
    }
    true
}

#[cycle(next)]
fn next_within(inner: &mut Box<Ahead>, fields: &Outermost, from: Place) -> Option<Extent>
    requires { IsAheadKept inner.old.value }
    ensures next { IsNext
        (λ b e. set (plan inner.old.value.walk) b e × LiesInSome fields.now b e) from.begin from.end result }
    ensures same { plan inner.new.value.walk ≡ plan inner.old.value.walk }
    ensures kept { IsAheadKept inner.new.value }
{
    let mut begin = from.begin;
    let mut end = from.end;
    while let Some(x) = inner.next(Place { begin, end }) {
        if fields.holds(x) {
            return Some(x);
        }
        begin = x.begin();
        end = u64::from(x.end()) + 1;
    }
    None
}

#[cycle(next)]
fn next_shortest(inner: &mut Box<Ahead>, from: Place) -> Option<Extent>
    requires { IsAheadKept inner.old.value }
    ensures next { IsNext (IsLeastEnd (set (plan inner.old.value.walk))) from.begin from.end result }
    ensures same { plan inner.new.value.walk ≡ plan inner.old.value.walk }
    ensures kept { IsAheadKept inner.new.value }
{
    let mut low = from.begin;
    while let Some(x) = inner.next(Place::at(low)) {
        if let Some(found) = extent_from(from, x.begin(), Some(x.end())) {
            return Some(found);
        }
        low = x.begin() + 1;
    }
    None
}

/// Where both arguments are monotone and this is asked for places that rise, so is each argument. Then each of its extents
/// is found once, by one search in its list: about n + m steps for lists of n and m extents. Where the later one isn't
/// monotone, its extents may be looked at again for each of the first one.
#[cycle(next)]
fn next_joined(
    n: u32,
    first: &mut Box<Ahead>,
    later: &mut Box<Ahead>,
    from: Place,
) -> Option<Extent>
    requires first { IsAheadKept first.old.value }
    requires later { IsAheadKept later.old.value }
    ensures next { IsNext
        (IsLeastEnd (Joins n (set (plan first.old.value.walk)) (set (plan later.old.value.walk))))
        from.begin from.end result }
    ensures same_first { plan first.new.value.walk ≡ plan first.old.value.walk }
    ensures same_later { plan later.new.value.walk ≡ plan later.old.value.walk }
    ensures kept_first { IsAheadKept first.new.value }
    ensures kept_later { IsAheadKept later.new.value }
{
    let mut low = from.begin;
    while let Some(x) = first.next(Place::at(low)) {
        let end = joined_end(n, first, later, x.begin());
        if let Some(found) = extent_from(from, x.begin(), end) {
            return Some(found);
        }
        low = x.begin() + 1;
    }
    None
}

/// The least end of a later extent that follows a first one of this begin.
#[cycle(next)]
fn joined_end(n: u32, first: &mut Box<Ahead>, later: &mut Box<Ahead>, begin: u32) -> Option<u32>
    requires first { IsAheadKept first.old.value }
    requires later { IsAheadKept later.old.value }
    ensures least { IsLeast (Joins n (set (plan first.old.value.walk)) (set (plan later.old.value.walk)) begin) result }
    ensures above { IfSome result (λ e. begin < e) }
    ensures same_first { plan first.new.value.walk ≡ plan first.old.value.walk }
    ensures same_later { plan later.new.value.walk ≡ plan later.old.value.walk }
    ensures kept_first { IsAheadKept first.new.value }
    ensures kept_later { IsAheadKept later.new.value }
{
    let mut least = None;
    let mut end = 0;
    while let Some(x) = first.next(Place { begin, end }) {
        if x.begin() != begin {
            return least;
        }
        let top = u64::from(x.end()) + u64::from(n);
        let here = later.least_end(x.end(), top);
        least = lesser_of(here, least);
        end = u64::from(x.end()) + 1;
    }
    least
}

#[cycle(next)]
fn next_chain(n: u32, all: &mut Vec<Ahead>, reach: &mut Reach, from: Place) -> Option<Extent>
    requires kept { AreKept all.old.items }
    requires chained { AreChained (plans all.old.items) }
    requires reached { IsReached n (each_set (plans all.old.items)) reach.old }
    ensures next { IsNext (IsLeastEnd (IsChain n (each_set (plans all.old.items)))) from.begin from.end result }
    ensures same { plans all.new.items ≡ plans all.old.items }
    ensures kept { AreKept all.new.items }
    ensures reached { IsReached n (each_set (plans all.old.items)) reach.new }
{
    let mut low = from.begin;
    while let Some(x) = first_chain(n, all, reach, low) {
        if let Some(found) = extent_from(from, x.begin(), Some(x.end())) {
            return Some(found);
        }
        low = x.begin() + 1;
    }
    None
}

/// The first chain from `low` on. From the last argument to the first, the first extent of each from its number on has to
/// be followed by that of the next argument. Where it isn't, one of both numbers rises. So each extent is passed once.
#[cycle(next)]
fn first_chain(n: u32, all: &mut Vec<Ahead>, reach: &mut Reach, low: u32) -> Option<Extent>
    requires kept { AreKept all.old.items }
    requires chained { AreChained (plans all.old.items) }
    requires reached { IsReached n (each_set (plans all.old.items)) reach.old }
    ensures next { IsNext (IsChain n (each_set (plans all.old.items))) low 0 result }
    ensures same { plans all.new.items ≡ plans all.old.items }
    ensures kept { AreKept all.new.items }
    ensures reached { IsReached n (each_set (plans all.old.items)) reach.new }
{
    reach.ask(low);
    let mut end = 0;
    let mut i = all.len();
    while i > 0 {
        i -= 1;
        let Some(x) = next_of_one(all, i, reach.lows[i]) else {
            return None;
        };
        if i + 1 == all.len() {
            end = x.end();
            continue;
        }
        let Some(y) = next_of_one(all, i + 1, reach.lows[i + 1]) else {
            return None;
        };
        if y.begin() < x.end() {
            reach.lows[i + 1] = x.end();
            i += 2;
            continue;
        }
        if u64::from(y.begin()) >= u64::from(x.end()) + u64::from(n) {
            reach.lows[i] = x.begin() + 1;
            i += 1;
            continue;
        }
    }
    let Some(x) = next_of_one(all, 0, reach.lows[0]) else {
        return None;
    };
    Some(Extent::new(x.begin(), end))
}

/// The first extent of the i-th argument from `low` on.
#[cycle(next)]
fn next_of_one(all: &mut Vec<Ahead>, i: usize, low: u32) -> Option<Extent>
    requires kept { AreKept all.old.items }
    requires inside { i < length all.old.items }
    ensures next { IsNext (set (plan_at (plans all.old.items) i)) low 0 result }
    ensures same { plans all.new.items ≡ plans all.old.items }
    ensures kept { AreKept all.new.items }
{
    all[i].next(Place::at(low))
}

#[cycle(next)]
fn next_window(n: u32, all: &mut Vec<Ahead>, from: Place) -> Option<Extent>
    requires { AreKept all.old.items }
    ensures next { IsNext (IsLeastEnd (IsWindow n (each_set (plans all.old.items)))) from.begin from.end result }
    ensures same { plans all.new.items ≡ plans all.old.items }
    ensures kept { AreKept all.new.items }
{
    let mut low = from.begin;
    while let Some(x) = next_of_any(all, Place::at(low)) {
        let end = window_end(n, all, x);
        if let Some(found) = extent_from(from, x.begin(), end) {
            return Some(found);
        }
        low = x.begin() + 1;
    }
    None
}

/// The least end of a window that begins where x does, which is the first from its begin on.
#[cycle(next)]
fn window_end(n: u32, all: &mut Vec<Ahead>, x: Extent) -> Option<u32>
    requires kept { AreKept all.old.items }
    requires first { IsNext (IsInSome (each_set (plans all.old.items))) x.begin 0 (Some x) }
    ensures least { IsLeast (IsWindow n (each_set (plans all.old.items)) x.begin) result }
    ensures above { IfSome result (λ e. x.begin < e) }
    ensures same { plans all.new.items ≡ plans all.old.items }
    ensures kept { AreKept all.new.items }
{
    let top = u64::from(x.begin()) + u64::from(n);
    let Some(end) = enclosing_end(all, x.begin(), top + 1) else {
        return None;
    };
    let end = end.max(x.end());
    if u64::from(end) > top {
        return None;
    }
    Some(end)
}

#[cycle(next)]
fn next_whole(length: u32, all: &mut Vec<Ahead>, from: Place) -> Option<Extent>
    requires { AreKept all.old.items }
    ensures next { IsNext
        (λ b e. (b ≡ 0) × (e ≡ length) × (b < e) × HasEach (each_set (plans all.old.items)))
        from.begin from.end result }
    ensures same { plans all.new.items ≡ plans all.old.items }
    ensures kept { AreKept all.new.items }
{
    if length == 0 || !from.is_before(0, length) {
        return None;
    }
    if has_each(all) {
        return Some(Extent::new(0, length));
    }
    None
}

/// The chain of these arguments.
#[tactic(auto, using(crate::proofs::WalkLaws::walk_laws))]
pub fn chain_of(alloc: Global, n: u32, all: Vec<Ahead>) -> Result<Walk, NoMemory>
    requires { AreKept all.items }
    ensures chain { IfOk result (λ w. plan w ≡ chain_plan n (plans all.items)) }
    ensures kept { IfOk result IsKept }
{
    if !all.is_empty() && weakest(&all).is_monotone() {
        let reach = Reach::new(alloc, all.len())?;
        return Ok(Walk::Chain(n, all, reach));
    }
    joined_of(alloc, n, all)
}

/// The same, from the last argument to the first, each joined to those behind it.
#[tactic(auto, using(crate::proofs::WalkLaws::walk_laws))]
fn joined_of(alloc: Global, n: u32, all: Vec<Ahead>) -> Result<Walk, NoMemory>
    requires { AreKept all.items }
    ensures chain { IfOk result (λ w. plan w ≡ chain_plan n (plans all.items)) }
    ensures kept { IfOk result IsKept }
{
    let mut others = all;
    let Some(last) = others.pop() else {
        return Ok(Walk::Listed(Listed::new(Vec::new(alloc))));
    };
    let mut chain = Walk::Shortest(Box::new(alloc, last)?);
    while let Some(one) = others.pop() {
        let later = Box::new(alloc, Ahead::new(chain))?;
        chain = Walk::Joined(n, Box::new(alloc, one)?, later);
    }
    Ok(chain)
}
