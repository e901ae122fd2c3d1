// Several lists of extents in one.
ghost use Rattle.std.specs.Prelude.{◌≡◌, ◌⊎◌, IfOk, map};
ghost use Rattle.std.specs.List.{All};
ghost use Rattle.extent_lists.specs.Operators.{IsInSome};
ghost use Rattle.extent_lists.specs.Rows.{Has, IsAscending, Lists, is_earlier, sets};

use ri_base::{Extent, Extents, NoMemory};
use std::alloc::Global;

/// The extents of all lists, each once. Lists are merged by halves, so an extent is moved as often as the number of
/// lists can be halved.
pub fn union_of(alloc: Global, lists: &[Extents]) -> Result<Vec<Extent>, NoMemory>
    requires { All IsAscending lists.now }
    ensures { IfOk result (λ v. Lists (IsInSome (sets lists.now)) v.items) }
{
    if lists.is_empty() {
        return Ok(Vec::new(alloc));
    }
    if lists.len() == 1 {
        return copy_of(alloc, lists[0].as_slice());
    }
    let half = lists.len() / 2;
    let front = union_of(alloc, &lists[..half])?;
    let back = union_of(alloc, &lists[half..])?;
    merged(alloc, &front, &back)
}

fn copy_of(alloc: Global, list: &[Extent]) -> Result<Vec<Extent>, NoMemory>
    ensures { IfOk result (λ v. v.items ≡ list.now) }
{
    let mut out = Vec::new(alloc);
    out.extend_from_slice(list)?;
    Ok(out)
}

/// The extents of both lists, each once.
fn merged(alloc: Global, a: &[Extent], b: &[Extent]) -> Result<Vec<Extent>, NoMemory>
    requires left { IsAscending a.now }
    requires right { IsAscending b.now }
    ensures { IfOk result (λ v. Lists (λ x y. Has a.now x y ⊎ Has b.now x y) v.items) }
{
    let mut out = Vec::new(alloc);
    let mut i = 0;
    let mut j = 0;
    while i < a.len() && j < b.len() {
        let x = a[i];
        let y = b[j];
        if is_before(x, y) {
            out.push(x)?;
            i += 1;
        } else if is_before(y, x) {
            out.push(y)?;
            j += 1;
        } else {
            out.push(x)?;
            i += 1;
            j += 1;
        }
    }
    out.extend_from_slice(&a[i..])?;
    out.extend_from_slice(&b[j..])?;
    Ok(out)
}

fn is_before(x: Extent, y: Extent) -> bool
    ensures { result ≡ is_earlier x y }
{
    x.begin() < y.begin() || (x.begin() == y.begin() && x.end() < y.end())
}
