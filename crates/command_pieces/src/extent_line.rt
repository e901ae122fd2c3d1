// The line of an extent.
ghost use Rattle.std.specs.Prelude.{◌≡◌, ◌++◌, OnOk};
ghost use Rattle.command_pieces.specs.ExtentLines.{extent_line};

use ri_base::{Extent, NoMemory};
use std::alloc::Global;

/// Appends `DOCNO BEGIN END`.
pub fn push_extent(
    alloc: Global,
    text: &mut Vec<u8>,
    docno: &[u8],
    extent: Extent,
) -> Result<(), NoMemory>
    ensures { OnOk result (text.new.items ≡ text.old.items ++ extent_line docno.now extent) }
{
    let begin = extent.begin().to_string(alloc)?;
    let end = extent.end().to_string(alloc)?;
    text.extend_from_slice(docno)?;
    text.push(b' ')?;
    text.extend_from_slice(begin.as_bytes())?;
    text.push(b' ')?;
    text.extend_from_slice(end.as_bytes())?;
    text.push(b'\n')?;
    Ok(())
}
