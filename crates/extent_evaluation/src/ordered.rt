// Chains of extents: ordered windows.
ghost use Rattle.std.specs.Prelude.{IfOk, map};
ghost use Rattle.std.specs.List.{All};
ghost use Rattle.std.specs.List.Sorted.{IsNonDecreasingBy, IsPermutation};
ghost use Rattle.extent_lists.specs.Operators.{IsChain, IsLeastEnd, Joins};
ghost use Rattle.extent_evaluation.specs.Covers.{Covers, Finds};
ghost use Rattle.extent_lists.specs.Rows.{Has, IsAscending, IsRising, Lists, sets};

use crate::ends::least_ends;
use crate::nearest::{Reach, least_following, shorter_before};
use ri_base::{Extent, Extents, NoMemory};
use std::alloc::Global;

/// For each begin of a chain the least end of a chain that begins there. Lists are taken from the last to the first.
pub fn chains(alloc: Global, n: u32, lists: &[Extents]) -> Result<Vec<Extent>, NoMemory>
    requires { All IsAscending lists.now }
    ensures { IfOk result (λ v. Lists (IsLeastEnd (IsChain n (sets lists.now))) v.items) }
{
    let Some((last, first)) = lists.split_last() else {
        return Ok(Vec::new(alloc));
    };
    let mut out = least_ends(alloc, last.as_slice())?;
    let mut i = first.len();
    while i > 0 {
        i -= 1;
        out = joined(alloc, n, first[i].as_slice(), &out)?;
    }
    Ok(out)
}

/// For each begin of the first extents the least end of a later one that follows an extent of that begin.
fn joined(alloc: Global, n: u32, xs: &[Extent], later: &[Extent]) -> Result<Vec<Extent>, NoMemory>
    requires { IsRising later.now }
    ensures { IfOk result (λ v. Covers (Joins n (Has xs.now) (Has later.now)) v.items) }
{
    let firsts = by_end(alloc, xs)?;
    let mut found = following(alloc, n, &firsts, later)?;
    sort_by_begin(&mut found);
    least_ends(alloc, &found)
}

/// The same extents by their ends, so that the search of what follows them goes one way. Ends rise already unless
/// extents lie inside others.
fn by_end(alloc: Global, xs: &[Extent]) -> Result<Vec<Extent>, NoMemory>
    ensures same { IfOk result (λ v. IsPermutation xs.now v.items) }
    ensures sorted { IfOk result (λ v. IsNonDecreasingBy (λ x. x.end) v.items) }
{
    let mut out = Vec::new(alloc);
    out.extend_from_slice(xs)?;
    if !xs.is_sorted_by_key(|x| x.end()) {
        out.sort_unstable_by_key(|x| x.end());
    }
    Ok(out)
}

/// From the begin of each first extent to the least end of a later one that follows it.
fn following(
    alloc: Global,
    n: u32,
    firsts: &[Extent],
    later: &[Extent],
) -> Result<Vec<Extent>, NoMemory>
    requires { IsRising later.now }
    ensures { IfOk result (λ v. Finds (Joins n (Has firsts.now) (Has later.now)) v.items) }
{
    let table = shorter_before(alloc, later)?;
    let mut reach = Reach {
        count: later.len(),
        low: u32::MAX,
    };
    let mut out = Vec::new(alloc);
    let mut i = firsts.len();
    while i > 0 {
        i -= 1;
        let x = firsts[i];
        if let Some(end) = least_following(&mut reach, later, &table, n, x.end()) {
            out.push(Extent::new(x.begin(), end))?;
        }
    }
    out.reverse();
    Ok(out)
}

/// The same extents by their begins.
fn sort_by_begin(xs: &mut Vec<Extent>)
    ensures same { IsPermutation xs.old.items xs.new.items }
    ensures sorted { IsNonDecreasingBy (λ x. x.begin) xs.new.items }
{
    if !xs.is_sorted_by_key(|x| x.begin()) {
        xs.sort_unstable_by_key(|x| x.begin());
    }
}
