// The extents of an expression in a document alone.
ghost use Rattle.std.specs.Prelude.{◌≡◌, IfOk};
ghost use Rattle.field_extents.specs.Extents.{AreInOrder};
ghost use Rattle.ri_base.specs.Expression.{expr_tree};
ghost use Rattle.extent_evaluation.specs.Listed.{extent_list};

use extent_evaluation::extents;
use lone_document::LoneDocument;
use ri_base::{Doc, ExtentExpr, Extents, NoMemory, SegFault};
use std::alloc::{AllocError, Global};

/// The extents of the expression in a document alone, which has no file and no store to fail.
pub fn extents_of(alloc: Global, expr: &ExtentExpr, doc: &Doc) -> Result<Extents, NoMemory>
    ensures exact { IfOk result (λ xs. xs ≡ extent_list (expr_tree expr.now) doc.now) }
    ensures order { IfOk result AreInOrder }
{
    let mut alone = LoneDocument::new(alloc, doc, expr)?;
    match extents(alloc, expr, &mut alone, 0) {
        Ok(found) => Ok(found),
        Err(SegFault::Memory) => Err(AllocError),
        Err(SegFault::Malformed { .. } | SegFault::Missing { .. } | SegFault::Store) =>
            unreachable!(),
    }
}
