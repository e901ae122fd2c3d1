// The least end among the extents that begin in a range that moves to the left.
ghost use Rattle.std.specs.Prelude.{◌≡◌, ◌<◌, ◌≤◌, ◌-◌, ℕ, length, slice_index, IfOk, IfSome};
ghost use Rattle.extent_evaluation.specs.Nearest.{IsShorter, IsShorterAt, Leads, end_led};
ghost use Rattle.extent_lists.specs.Rows.{begin_at, end_at};
ghost use Rattle.extent_lists.specs.Operators.{Follows};
ghost use Rattle.extent_evaluation.specs.Covers.{IsLeastOf};
ghost use Rattle.extent_lists.specs.Rows.{IsRising};

use ri_base::{Extent, NoMemory};
use std::alloc::Global;

/// How many extents are looked at one by one before a search: those of a window are mostly near, and so few are found faster
/// by a look at each than by halving.
const NEAR: usize = 16;

/// For each extent the number of extents up to the last one before it that ends earlier, and 0 where none does.
pub fn shorter_before(alloc: Global, ys: &[Extent]) -> Result<Vec<usize>, NoMemory>
    ensures { IfOk result (λ v. IsShorter ys.now v.items) }
{
    let mut table = Vec::new(alloc);
    for y in ys {
        let count = ending_before(ys, &table, y.end());
        table.push(count)?;
    }
    Ok(table)
}

/// The number of extents up to the last one that ends before this end, among those that the table has.
fn ending_before(ys: &[Extent], table: &[usize], end: u32) -> usize
    requires within { length table.now ≤ length ys.now }
    requires table { (j : ℕ) → j < length table.now → IsShorterAt ys.now j (slice_index table.now j) (end_at ys.now j) }
    ensures { IsShorterAt ys.now (length table.now) result end }
{
    let mut count = table.len();
    while count > 0 && end <= ys[count - 1].end() {
        count = table[count - 1];
    }
    count
}

/// Where the search stands: the least end is that of the extent before `count`, and `low` is where the range began.
#[derive(Drop)]
pub struct Reach {
    pub count: usize,
    pub low: u32,
}

/// The least end of the extents that follow the end `low`. Where `low` falls from call to call, `count` falls too, so
/// all calls together take a step for each extent. Where it rises, the place is searched for.
pub fn least_following(
    reach: &mut Reach,
    ys: &[Extent],
    table: &[usize],
    n: u32,
    low: u32,
) -> Option<u32>
    requires rising { IsRising ys.now }
    requires table { IsShorter ys.now table.now }
    requires within { reach.old.count ≤ length ys.now }
    requires leads { Leads ys.now n reach.old.low reach.old.count }
    ensures within { reach.new.count ≤ length ys.now }
    ensures leads { Leads ys.now n reach.new.low reach.new.count }
    ensures least { IsLeastOf (Follows n low) ys.now result }
    ensures above { IfSome result (λ end. low < end) }
{
    let top = u64::from(low) + u64::from(n);
    let count = start(reach, ys, n, low);
    let count = begins_below(ys, count, top);
    let count = shortest(ys, table, count, low);
    reach.count = count;
    reach.low = low;
    led_end(ys, count, low)
}

/// Where to begin for this low end: where the search stands, or where the range ends if that lies further to the right.
fn start(reach: &Reach, ys: &[Extent], n: u32, low: u32) -> usize
    requires rising { IsRising ys.now }
    requires within { reach.now.count ≤ length ys.now }
    requires leads { Leads ys.now n reach.now.low reach.now.count }
    ensures within { result ≤ length ys.now }
    ensures leads { Leads ys.now n low result }
{
    if low <= reach.low {
        return reach.count;
    }
    count_below(ys, u64::from(low) + u64::from(n))
}

/// How many extents begin below `top`.
fn count_below(ys: &[Extent], top: u64) -> usize
    requires { IsRising ys.now }
    ensures within { result ≤ length ys.now }
    ensures last { 0 < result → begin_at ys.now (result - 1) < top }
    ensures others { (k : ℕ) → result ≤ k → k < length ys.now → top ≤ begin_at ys.now k }
{
    ys.partition_point(|y| u64::from(y.begin()) < top)
}

/// The end of the extent before `count`, if there is one that begins at `low` or behind.
fn led_end(ys: &[Extent], count: usize, low: u32) -> Option<u32>
    requires { count ≤ length ys.now }
    ensures value { result ≡ end_led ys.now low count }
    ensures above { IfSome result (λ end. low < end) }
{
    if count == 0 {
        return None;
    }
    let y = ys[count - 1];
    if y.begin() < low {
        return None;
    }
    Some(y.end())
}

/// How many of the first `count` extents begin below `top`. It looks at the last few, and searches for a place further to
/// the left.
fn begins_below(ys: &[Extent], count: usize, top: u64) -> usize
    requires rising { IsRising ys.now }
    requires within { count ≤ length ys.now }
    ensures within { result ≤ count }
    ensures last { 0 < result → begin_at ys.now (result - 1) < top }
    ensures others { (k : ℕ) → result ≤ k → k < count → top ≤ begin_at ys.now k }
{
    let near = count.saturating_sub(NEAR);
    let mut count = count;
    while count > 0 && top <= u64::from(ys[count - 1].begin()) {
        if count <= near {
            return count_below(ys, top);
        }
        count -= 1;
    }
    count
}

/// From the extent before `count` on to the left, the last of those that end earlier and earlier and begin at `low` or
/// behind.
fn shortest(ys: &[Extent], table: &[usize], count: usize, low: u32) -> usize
    requires rising { IsRising ys.now }
    requires table { IsShorter ys.now table.now }
    requires within { count ≤ length ys.now }
    ensures within { result ≤ count }
    ensures some { 0 < count → 0 < result }
    ensures moved { result < count → low ≤ begin_at ys.now (result - 1) }
    ensures behind { (k : ℕ) → result ≤ k → k < count → end_at ys.now (result - 1) ≤ end_at ys.now k }
    ensures before { (k : ℕ) → k < result → low ≤ begin_at ys.now k → end_at ys.now (result - 1) ≤ end_at ys.now k }
{
    let mut count = count;
    while count > 0 {
        let next = table[count - 1];
        if next == 0 || ys[next - 1].begin() < low {
            return count;
        }
        count = next;
    }
    count
}
