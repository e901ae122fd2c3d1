// Documents that are passed without a look at them.
ghost use Rattle.std.specs.Prelude.{◌≡◌, ◌<◌, ◌≤◌, ◌+◌, ◌-◌, ℕ, true, false, length, min, slice_index_or};
ghost use Rattle.deletion_list.specs.Marks.{marked_count};
ghost use Rattle.ranker.specs.Passed.{IsPassed};

use crate::place::{Ahead, Passed};
use deletion_list::DelList;

/// Passes the ids from one on up to another, at most so many, where all are live.
fn pass_live(ahead: Ahead, id: u32, end: u32, most: u64) -> Passed
    requires { id ≤ end }
    ensures id { result.id ≡ id + result.docs }
    ensures docs { result.docs ≡ min (end - id) most }
    ensures same { result.ahead ≡ ahead }
{
    let docs = u64::from(end - id).min(most);
    Passed {
        id: id + docs as u32,
        docs,
        ahead,
    }
}

/// Passes the ids of a part with these marks from one on up to another, at most so many live ones, one by one.
fn pass_by_marks(marks: &DelList, ahead: Ahead, id: u32, end: u32, most: u64) -> Passed
    requires id { id ≤ end }
    requires end { end ≤ length marks.now }
    ensures passed { IsPassed marks.now id most result }
    ensures inside { result.id ≤ end }
    ensures back { id ≤ result.id }
    ensures forward { 0 < most → id < end → id < result.id }
    ensures same { result.ahead ≡ ahead }
{
    let mut at = id;
    let mut docs = 0;
    while at < end && docs < most {
        docs += u64::from(!marks.is_marked(at));
        at += 1;
    }
    Passed {
        id: at,
        docs,
        ahead,
    }
}

/// Whether the ids from one on up to another are all of these marks, and no more than so many of them are live.
fn is_whole(marks: &DelList, id: u32, end: u32, most: u64) -> bool
    ensures { result ≡ true → (id ≡ 0) × (end ≡ length marks.now) × (length marks.now - marked_count marks.now ≤ most) }
{
    id == 0 && end == marks.len() && u64::from(marks.live_count()) <= most
}

/// Passes a dead document.
pub fn pass_dead(marks: &DelList, ahead: Ahead, id: u32) -> Passed
    requires id { id < length marks.now }
    requires dead { slice_index_or marks.now id false ≡ true }
    ensures passed { (most : ℕ) → IsPassed marks.now id most result }
    ensures next { result.id ≡ id + 1 }
    ensures same { result.ahead ≡ ahead }
{
    let size = marks.len();
    prove!(id < size);
    Passed {
        id: id + 1,
        docs: 0,
        ahead,
    }
}

/// Passes the ids of a part with these marks from an id on up to the end of what is known, at most so many live ones. Where none is
/// marked, and where these are all ids of the part, the marks aren't looked at.
pub fn pass_unseen(marks: &DelList, ahead: Ahead, id: u32, most: u64) -> Passed
    requires id { id < length marks.now }
    requires end { id < ahead.end }
    ensures passed { IsPassed marks.now id most result }
    ensures inside { result.id ≤ ahead.end }
    ensures back { id ≤ result.id }
    ensures forward { 0 < most → id < result.id }
    ensures same { result.ahead ≡ ahead }
{
    let size = marks.len();
    let end = ahead.end.min(size);
    let live = marks.live_count();
    if live == size {
        return pass_live(ahead, id, end, most);
    }
    if is_whole(marks, id, end, most) {
        return Passed {
            id: end,
            docs: u64::from(live),
            ahead,
        };
    }
    pass_by_marks(marks, ahead, id, end, most)
}
