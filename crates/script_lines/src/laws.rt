// What a line asks for, in the words of its table.
ghost use Rattle.std.specs.Prelude.{◌≡◌, ◌<◌, ℕ, List, length};
ghost use Rattle.script_lines.specs.Asked.{asked};
ghost use Rattle.script_lines.specs.Rows.{IsRow};
ghost use Rattle.script_lines.specs.declared.asked.Asked.{Asked};
ghost use Rattle.script_lines.specs.declared.asked.Asked.TheVariants.{Unknown};

/// A line that isn't empty asks for something exactly where it is a row of the table.
pub fn table_is_form()
    ensures only { (text : List ℕ) (a : Asked) → 0 < length text → asked text ≡ a → (a ≡ Unknown → ⊥) → IsRow text a }
    ensures every { (text : List ℕ) (a : Asked) → IsRow text a → asked text ≡ a }
{}
