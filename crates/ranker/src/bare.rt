// Live documents that come next and have nothing to show.
ghost use Rattle.std.specs.Prelude.{◌≡◌, ◌<◌, ◌≤◌, ◌+◌, ◌%◌, ◌^◌, ℕ, Option, false, length, slice_index_or};
ghost use Rattle.std.specs.Int.{bit_at};
ghost use Rattle.store_ends.specs.Files.{Files};
ghost use Rattle.disk_index.specs.Snapshots.{IsSnapshot, live};
ghost use Rattle.ranker.specs.Passed.{AreBare, IsBareTo, IsPlace, bit_of, part_at};

use crate::place::{Ahead, Place};
use deletion_list::DelList;
use disk_index::MarkedPart;

/// So many marks are looked at, at most.
const MOST: u32 = 64;

/// How many ids from one on have no bit in the mask, one behind the other: any number where none is set, and else no more than are left
/// of its range.
fn clear_bits(mask: u64, id: u32) -> u32
    ensures { (i : ℕ) → id ≤ i → i < id + result → bit_at mask (i % 64) ≡ 0 }
{
    if mask == 0 {
        return u32::MAX;
    }
    let place = id % 64;
    (mask >> place).trailing_zeros().min(64 - place)
}

/// The same where the mask may not be read: none then.
fn clear_run(mask: Option<u64>, id: u32) -> u32
    ensures { (i : ℕ) → id ≤ i → i < id + result → bit_of mask i ≡ 0 }
{
    match mask {
        Some(mask) => clear_bits(mask, id),
        None => 0,
    }
}

/// How many of so many ids from one on aren't marked, one behind the other: all, without a look at each, where no id is marked, and
/// else no more than are looked at.
fn live_run(marks: &DelList, id: u32, count: u32) -> u32
    requires { id + count ≤ length marks.now }
    ensures few { result ≤ count }
    ensures live { (i : ℕ) → id ≤ i → i < id + result → slice_index_or marks.now i false ≡ false }
{
    if marks.live_count() == marks.len() {
        return count;
    }
    let end = id + count.min(MOST);
    let mut at = id;
    while at < end && !marks.is_marked(at) {
        at += 1;
    }
    at - id
}

/// How many ids of a part from one on are live and have nothing to show, one behind the other, as far as is known.
fn bare_from(marked: &MarkedPart, ahead: Ahead, id: u32) -> u32
    ensures bare { AreBare marked.now ahead id result }
    ensures ids { id + result < 2 ^ 32 }
{
    let end = ahead.end.min(marked.part().docs());
    if end <= id {
        return 0;
    }
    let clear = clear_run(ahead.mask, id).min(end - id);
    live_run(marked.marks(), id, clear)
}

/// How many of the documents that come next at a place are live and have nothing to show.
fn bare_at(parts: &[MarkedPart], at: &Place) -> u32
    ensures bare { AreBare (part_at parts.now at.now.part) at.now.ahead at.now.id result }
    ensures ids { at.now.id + result < 2 ^ 32 }
{
    let Place {
        part,
        id,
        ahead,
        ..
    } = *at;
    if part < parts.len() {
        bare_from(&parts[part], ahead, id)
    } else {
        0
    }
}

/// Up to which credit the documents that come next at a place have nothing to show, where some of so many live ones are left behind
/// them.
#[inline(never)]
pub fn bare_to(parts: &[MarkedPart], at: &Place, live_count: u64) -> u64
    requires few { IsSnapshot parts.now }
    requires place { IsPlace parts.now at.now }
    requires count { (told : Option Files) → live_count ≡ length (live told parts.now) }
    ensures { IsBareTo parts.now at.now live_count result }
{
    let count = bare_at(parts, at);
    (at.credit + u64::from(count) + 1).min(live_count)
}
