// The least end for each begin.
ghost use Rattle.std.specs.Prelude.{◌≡◌, ◌<◌, IfOk, OnOk, reverse};
ghost use Rattle.std.specs.List.Sorted.{IsNonDecreasingBy};
ghost use Rattle.extent_evaluation.specs.Covers.{Covers, with_least};
ghost use Rattle.extent_lists.specs.Rows.{Has};

use ri_base::{Extent, NoMemory};
use std::alloc::Global;

/// Puts an extent in front of those that are there, which lie last first. Where both begin alike, one stays, with the
/// lesser end.
fn put_least(out: &mut Vec<Extent>, x: Extent) -> Result<(), NoMemory>
    ensures { OnOk result (reverse out.new.items ≡ with_least x (reverse out.old.items)) }
{
    if let Some(y) = out.pop() {
        if x.begin() == y.begin() {
            out.push(Extent::new(y.begin(), x.end().min(y.end())))?;
            return Ok(());
        }
        out.push(y)?;
    }
    out.push(x)?;
    Ok(())
}

/// For each begin of these extents, which are sorted by begin, the one of the least end.
pub fn least_ends(alloc: Global, xs: &[Extent]) -> Result<Vec<Extent>, NoMemory>
    requires { IsNonDecreasingBy (λ x. x.begin) xs.now }
    ensures { IfOk result (λ v. Covers (Has xs.now) v.items) }
{
    let mut out = Vec::new(alloc);
    let mut i = xs.len();
    while i > 0 {
        i -= 1;
        put_least(&mut out, xs[i])?;
    }
    out.reverse();
    Ok(out)
}
