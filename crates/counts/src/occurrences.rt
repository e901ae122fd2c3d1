// How often an expression occurs in a document.
ghost use Rattle.std.specs.Prelude.{◌≡◌, ◌<◌, ◌≤◌, length, option_copied, Err, IfErr, IfOk, OnOk};
ghost use Rattle.ri_base.specs.Collection.{document_at};
ghost use Rattle.ri_base.specs.Expression.{EachWord, expr_tree};
ghost use Rattle.ri_base.specs.Faults.{IsOutside, TellsDamage};
ghost use Rattle.ri_base.specs.Keeps.{Keeps, Rose};
ghost use Rattle.field_extents.specs.Extents.{AreInOrder, begin_count};
ghost use Rattle.extent_lists.specs.Pairs.{pair};
ghost use Rattle.counts.specs.Sums.{counted_tokens, occurrences};

use extent_evaluation::{extents, extents_have_one_list};
use field_extents::{WindowBegins, inside};
use ri_base::{Extent, ExtentExpr, Extents, Name, Postings, SegFault};
use std::alloc::Global;

/// At how many tokens of a document of so many tokens these extents begin.
fn begins_in(xs: &Extents, tokens: u32) -> u32
    requires { AreInOrder xs.now }
    ensures exact { result ≡ begin_count xs.now (pair 0 tokens) }
    ensures most { result ≤ tokens }
{
    let mut begins = WindowBegins::new(xs);
    // a window has a token, so that a document without one is told apart
    if tokens == 0 {
        return 0;
    }
    begins.count(Extent::new(0, tokens))
}

/// At how many tokens of the document extents of the expression begin: all of them, or those that lie in fields of a name.
pub fn occurrences<P: Postings>(
    alloc: Global,
    expr: &ExtentExpr,
    context: Option<&Name>,
    part: &mut P,
    id: u32,
) -> Result<u32, SegFault>
    requires { id < length (P.documents part.old) }
    ensures keeps { Keeps P.documents P.faults P.sound P.intact P.quiet part.old part.new }
    ensures exact { P.sound part.old → IfOk result
        (λ n. n ≡ occurrences (expr_tree expr.now) (option_copied context.entry) (document_at (P.documents part.old) id)) }
    ensures few { IfOk result (λ n. n ≤ counted_tokens (option_copied context.entry) (document_at (P.documents part.old) id)) }

    // Also of a part that isn't sound, each term's places were told, so no malformed block is passed by.
    ensures told { IfOk result (λ _. EachWord (λ t. P.told part.old t id) (expr_tree expr.now)) }

    ensures honest { P.intact part.old → IfErr result IsOutside }
    ensures undamaged { OnOk result (P.damage part.new ≡ P.damage part.old) }
    ensures damaged { IfErr result (TellsDamage (P.damage part.old) (P.damage part.new)) }
    ensures store { result ≡ Err SegFault.Store → Rose (P.faults part.old) (P.faults part.new) }
{
    extents_have_one_list();
    let found = extents(alloc, expr, part, id)?;
    match context {
        None => Ok(begins_in(&found, part.length(id))),
        Some(name) => {
            let kept = inside(alloc, &found, part.spans(id), name)?;
            Ok(begins_in(&kept, part.length(id)))
        }
    }
}
