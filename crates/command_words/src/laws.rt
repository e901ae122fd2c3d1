//! A law is a function that does nothing: a caller calls it, and its proof then knows the clauses.
ghost use Rattle.std.specs.Prelude.{◌≡◌, ℕ, List, Some};
ghost use Rattle.command_words.specs.Items.{Item, items_of};
ghost use Rattle.command_words.specs.Written.{AreWords};

/// Words are read as items where these are written so, and nowhere else.
#[tactic(auto, using(crate::proofs::WrittenLaw::items_written, crate::proofs::WrittenLaw::written_items))]
pub fn items_are_written()
    ensures only { (words : List (List ℕ)) (items : List Item) → items_of words ≡ Some items → AreWords items words }
    ensures every { (words : List (List ℕ)) (items : List Item) → AreWords items words → items_of words ≡ Some items }
{}
