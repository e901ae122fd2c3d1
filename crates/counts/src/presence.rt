// Whether an expression may occur in a range of documents.
ghost use Rattle.std.specs.Prelude.{◌≡◌, map};
ghost use Rattle.ri_base.specs.Expression.{expr_tree, expr_trees};
ghost use Rattle.extent_lists.specs.Presence.{may_with, may_each_with, may_some_with};
ghost use Rattle.disk_index.specs.Parts.{source_of};
ghost use Rattle.disk_index.specs.Presence.{may_have};

use disk_index::Part;
use ri_base::ExtentExpr;

/// Whether the expression may have an extent in a document with an id from `64 * range` on, 64 at most, by the terms that the
/// part may have there. No file is read.
#[cycle(presence)]
pub fn may_occur(expr: &ExtentExpr, part: &Part, range: u32) -> bool
    ensures { result ≡ may_with (may_have (source_of part.now) range) (expr_tree expr.now) }
{
    match expr {
        ExtentExpr::Word(term) => part.may_have(term, range),
        ExtentExpr::Ordered(_, all) | ExtentExpr::Unordered(_, all) | ExtentExpr::Band(all) =>
            each_may(all, part, range),
        ExtentExpr::Syn(all) => some_may(all, part, range),
        ExtentExpr::Any(_) => true,
        ExtentExpr::InField(x, _) => may_occur(x, part, range),
    }
}

/// Whether each of the expressions may.
#[cycle(presence)]
fn each_may(all: &[ExtentExpr], part: &Part, range: u32) -> bool
    ensures { result ≡ may_each_with (may_have (source_of part.now) range) (expr_trees (map expr_tree all.now)) }
{
    for x in all {
        if !may_occur(x, part, range) {
            return false;
        }
    }
    true
}

/// Whether some of the expressions may.
#[cycle(presence)]
fn some_may(all: &[ExtentExpr], part: &Part, range: u32) -> bool
    ensures { result ≡ may_some_with (may_have (source_of part.now) range) (expr_trees (map expr_tree all.now)) }
{
    for x in all {
        if may_occur(x, part, range) {
            return true;
        }
    }
    false
}
