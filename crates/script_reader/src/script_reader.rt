// A reader of items that owns its source.
ghost use Rattle.std.specs.Prelude.{◌≡◌, ◌<◌, ◌≤◌, ◌||◌, ℕ, List, Option, [], ◌∷◌, IfOk, OnOk, MatchOption, is_none, is_ok, true, false};
ghost use Rattle.std.specs.Option.{option_map};
ghost use Rattle.read_ahead.specs.Causes.{ReadRose, StaysUnlessRead};
ghost use Rattle.script_reader.specs.Items.{items};
ghost use Rattle.script_reader.specs.Held.{IsItem};
ghost use Rattle.script_reader.specs.State.{is_end};
ghost use Rattle.script_reader.specs.Script.{GivesFirst};

use crate::{Item, ItemReader};
use read_ahead::InputFault;
use ri_base::NoMemory;
use ri_ends::Source;
use std::alloc::Global;
use std::marker::Model;

/// Reads the items of the script of its source, one after the other. After a fault it may only be dropped.
#[derive(Drop)]
pub struct ScriptReader<S: Source> {
    source: S,
    reader: ItemReader,
    is_usable: bool,
}

impl<S: Source> Model for ScriptReader<S> {
    ghost use Rattle.std.specs.Prelude.{◌≡◌, true};
    ghost use Rattle.std.specs.Option.{option_map};
    ghost use Rattle.script_reader.specs.Script.{Script};
    ghost use Rattle.script_reader.specs.State.{IsReady, is_ended, items_left};

    ghost Value = { Script };

    ghost view = { λ r. record { left = option_map (items_left r.reader) (S.left r.source); is_ended = is_ended r.reader; is_usable = r.is_usable; layers = S.layers r.source; held = S.held r.source; faults = S.faults r.source } };

    ghost invariant = { λ r. r.is_usable ≡ true → IsReady r.reader (S.left r.source) (S.can_give r.source) };
}

impl<S: Source> ScriptReader<S> {
    /// A reader of this source, from its next byte on, which gets offset 0.
    pub fn new(alloc: Global, source: S) -> Result<Self, NoMemory>
    where
        S: Drop,
        ensures left { IfOk result (λ r. r.left ≡ option_map items (S.left source)) }
        ensures usable { IfOk result (λ r. (r.is_usable ≡ true) × (r.is_ended ≡ false)) }
        ensures layers { IfOk result (λ r. r.layers ≡ S.layers source) }
        ensures held { IfOk result (λ r. r.held ≡ S.held source) }
        ensures faults { IfOk result (λ r. r.faults ≡ S.faults source) }
    {
        let reader = ItemReader::new(alloc)?;
        Ok(ScriptReader {
            source,
            reader,
            is_usable: true,
        })
    }

    /// The next item. The last one is the event `end`, and behind it there is none.
    pub fn next_item(&mut self) -> Result<Option<Item>, InputFault>
        requires { self.old.is_usable ≡ true }
        ensures items { IfOk result (λ found. GivesFirst found self.old.left self.new.left) }
        ensures none { IfOk result (λ found. is_none found ≡ self.old.is_ended) }
        ensures ended { IfOk result (λ found. self.new.is_ended ≡ (is_none found || is_end found)) }
        ensures form { IfOk result (λ found. MatchOption found (Unit {0}) IsItem) }
        ensures usable { self.new.is_usable ≡ is_ok result }
        ensures layers { self.new.layers ≡ self.old.layers }
        ensures held { self.new.held ≡ self.old.held }
        ensures later { self.old.faults ≤ self.new.faults }
        ensures failed { ReadRose result self.old.faults self.new.faults }
        ensures same { StaysUnlessRead result self.old.faults self.new.faults }
    {
        let result = self.reader.next_item(&mut self.source);
        self.is_usable = result.is_ok();
        result
    }
}
