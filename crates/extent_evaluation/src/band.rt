// All of several, anywhere in a document.
ghost use Rattle.std.specs.Prelude.{◌≡◌, ◌≢◌, ◌<◌, ◌↔◌, [], IfOk, IsTrue};
ghost use Rattle.std.specs.List.{All};
ghost use Rattle.extent_lists.specs.Operators.{HasEach};
ghost use Rattle.extent_lists.specs.Rows.{Lists, sets};

use ri_base::{Extent, Extents, NoMemory};
use std::alloc::Global;

/// The extent of a whole document of that length where each list has an extent, and otherwise none.
pub fn whole_if_each(alloc: Global, lists: &[Extents], length: u32) -> Result<Vec<Extent>, NoMemory>
    ensures { IfOk result (λ v. Lists (λ b e. (b ≡ 0) × (e ≡ length) × (b < e) × HasEach (sets lists.now)) v.items) }
{
    let mut out = Vec::new(alloc);
    if length > 0 && has_each(lists) {
        out.push(Extent::new(0, length))?;
    }
    Ok(out)
}

fn has_each(lists: &[Extents]) -> bool
    ensures { IsTrue result ↔ All (λ xs. xs ≢ []) lists.now }
{
    lists.iter().all(|xs| !xs.is_empty())
}
