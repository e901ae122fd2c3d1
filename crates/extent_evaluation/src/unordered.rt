// Unordered windows.
ghost use Rattle.std.specs.Prelude.{◌≡◌, ◌≤◌, ◌+◌, nat_le, filter, IfOk, map};
ghost use Rattle.std.specs.List.{All};
ghost use Rattle.extent_evaluation.specs.Nearest.{IsTail};
ghost use Rattle.extent_lists.specs.Operators.{IsLeastEnd, IsWindow, Widens};
ghost use Rattle.extent_evaluation.specs.Covers.{Covers, IsLeastOf};
ghost use Rattle.extent_lists.specs.Rows.{Has, IsAscending, IsRising, Lists, sets};

use crate::ends::least_ends;
use crate::union::union_of;
use extent_lists::lesser;
use ri_base::{Extent, Extents, NoMemory};
use std::alloc::Global;

/// For each begin the least end of a window of at most n tokens. Each list widens what the others need; a window begins
/// with the least end of an extent of its begin.
pub fn windows(alloc: Global, n: u32, lists: &[Extents]) -> Result<Vec<Extent>, NoMemory>
    requires { All IsAscending lists.now }
    ensures { IfOk result (λ v. Lists (IsLeastEnd (IsWindow n (sets lists.now))) v.items) }
{
    let all = union_of(alloc, lists)?;
    let mut out = least_ends(alloc, &all)?;
    let mut i = lists.len();
    while i > 0 {
        i -= 1;
        out = widened(alloc, &out, lists[i].as_slice())?;
    }
    narrow(alloc, n, &out)
}

/// The extents of at most n tokens.
fn narrow(alloc: Global, n: u32, xs: &[Extent]) -> Result<Vec<Extent>, NoMemory>
    ensures { IfOk result (λ v. v.items ≡ filter (λ x. nat_le x.end (x.begin + n)) xs.now) }
{
    let mut out = Vec::new(alloc);
    for x in xs {
        if x.end() - x.begin() <= n {
            out.push(*x)?;
        }
    }
    Ok(out)
}

/// Each extent, as much longer as it must be to have one of the list inside; those for which there is none are left out.
fn widened(alloc: Global, xs: &[Extent], list: &[Extent]) -> Result<Vec<Extent>, NoMemory>
    requires rising { IsRising xs.now }
    requires ascending { IsAscending list.now }
    ensures { IfOk result (λ v. Covers (Widens (Has xs.now) (Has list.now)) v.items) }
{
    let mut tail = Tail {
        from: list.len(),
        least: None,
    };
    let mut out = Vec::new(alloc);
    let mut i = xs.len();
    while i > 0 {
        i -= 1;
        let x = xs[i];
        tail = grown(tail, list, x.begin());
        if let Some(end) = tail.least {
            out.push(Extent::new(x.begin(), x.end().max(end)))?;
        }
    }
    out.reverse();
    Ok(out)
}

/// The extents of a list from place `from` on, and their least end.
#[derive(Drop)]
struct Tail {
    from: usize,
    least: Option<u32>,
}

/// The tail of all extents that begin at `low` or behind, of a tail of such extents.
fn grown(tail: Tail, list: &[Extent], low: u32) -> Tail
    requires ascending { IsAscending list.now }
    requires tail { IsTail list.now low tail.from tail.least }
    ensures tail { IsTail list.now low result.from result.least }
    ensures least { IsLeastOf (λ b. low ≤ b) list.now result.least }
{
    let mut from = tail.from;
    let mut least = tail.least;
    while from > 0 && low <= list[from - 1].begin() {
        from -= 1;
        least = lesser(list[from].end(), least);
    }
    Tail { from, least }
}
