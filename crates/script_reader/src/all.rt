// All items of a script.
ghost use Rattle.std.specs.Prelude.{◌≡◌, ℕ, List, IfOk, IfSome, OnOk};
ghost use Rattle.read_ahead.specs.Ahead.{Moves};
ghost use Rattle.read_ahead.specs.Causes.{ReadRose, StaysUnlessRead};
ghost use Rattle.script_reader.specs.Items.{items};

use crate::{Item, ItemReader};
use read_ahead::InputFault;
use ri_ends::Source;
use std::alloc::Global;

/// Reads a script to its end.
pub fn read_items<S: Source>(alloc: Global, source: &mut S) -> Result<Vec<Item>, InputFault>
    ensures items { IfOk result (λ found. IfSome (S.left source.old) (λ bytes. found.items ≡ items bytes)) }
    ensures moves { Moves S.layers S.held S.faults source.old source.new }
    ensures failed { ReadRose result (S.faults source.old) (S.faults source.new) }
    ensures same { StaysUnlessRead result (S.faults source.old) (S.faults source.new) }
{
    let mut reader = ItemReader::new(alloc)?;
    let mut items = Vec::new(alloc);
    'items: while let Some(item) = reader.next_item(source)? {
        items.push(item)?;
    }
    Ok(items)
}
