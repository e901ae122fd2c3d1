// What a script is read as, in the words of its form.
ghost use Rattle.std.specs.Prelude.{◌≡◌, ℕ, List};
ghost use Rattle.script_reader.specs.Form.{IsScript};
ghost use Rattle.script_reader.specs.Items.{items_at};
ghost use Rattle.script_reader.specs.declared.item.Item.{Item};

/// The items from an offset on are those that the form of scripts names, and no others.
pub fn script_is_form()
    ensures only { (offset : ℕ) (bytes : List ℕ) → IsScript offset bytes (items_at offset bytes) }
    ensures every { (offset : ℕ) (bytes : List ℕ) (found : List Item) → IsScript offset bytes found → found ≡ items_at offset bytes }
{}
