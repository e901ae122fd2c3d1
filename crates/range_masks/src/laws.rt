//! A law is a function that computes nothing: a caller calls it, and its proof then knows the clauses.
ghost use Rattle.std.specs.Prelude.{◌≡◌, true, ℕ, Option};
ghost use Rattle.ri_base.specs.Documents.{Document};
ghost use Rattle.ri_base.specs.Expression.{ExprTree};
ghost use Rattle.store_ends.specs.Files.{Files};
ghost use Rattle.extent_lists.specs.Extents.{Ext};
ghost use Rattle.disk_index.specs.Parts.{Source, reads};
ghost use Rattle.range_masks.specs.Held.{AreAnswersOf, Held};
ghost use Rattle.range_masks.specs.May.{may};

/// A document that has an extent of an expression may have one by its terms.
pub fn extents_may()
    ensures { (x : ExprTree) (d : Document) (b e : ℕ) → Ext x d b e → may x d ≡ true }
{}

/// Blocks of a part may be kept: by any later files too by which its documents are the same, they answer as these.
pub fn blocks_stay()
    ensures { (part : Source) (told later : Option Files) (held : Held) → reads later part ≡ reads told part
        → AreAnswersOf (reads told part) held → AreAnswersOf (reads later part) held }
{}
