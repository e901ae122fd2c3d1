// The scan of documents for an expression.
ghost use Rattle.std.specs.Prelude.{◌≡◌, ◌++◌, ◌∷◌, [], ⊤, IfOk, OnOk};
ghost use Rattle.ri_base.specs.Expression.{expr_tree};
ghost use Rattle.document_handlers.specs.Scan.{document_lines, extent_lines};
ghost use Rattle.document_handlers.specs.Work.{behind, pieces_in, replies, scanning};

use crate::handler::Handler;
use command_pieces::{Reply, push_extent};
use extent_ops::extents_of;
use refusals::{Refusal, reply_of};
use ri_base::{Doc, ExtentExpr, Extents, NoMemory};
use std::alloc::{AllocError, Global};
use tokens::{TokenRefusal, doc_of};
use trec_reader::RawDoc;

/// A line for each extent.
fn extent_lines(alloc: Global, docno: &[u8], found: &Extents) -> Result<Vec<u8>, NoMemory>
    ensures { IfOk result (λ lines. lines.items ≡ extent_lines docno.now found.now) }
{
    let mut lines = Vec::new(alloc);
    for x in found.as_slice() {
        push_extent(alloc, &mut lines, docno, *x)?;
    }
    Ok(lines)
}

/// A line for each extent of the expression in the document.
fn document_lines(alloc: Global, expr: &ExtentExpr, doc: Doc) -> Result<Vec<u8>, NoMemory>
    ensures { IfOk result (λ lines. lines.items ≡ document_lines (expr_tree expr.now) doc) }
{
    let found = extents_of(alloc, expr, &doc)?;
    extent_lines(alloc, doc.docno().as_bytes(), &found)
}

/// Answers the lines of each document.
#[derive(Drop)]
pub struct Scanner {
    expr: ExtentExpr,
}

impl Scanner {
    pub fn new(expr: ExtentExpr) -> Scanner
        ensures does { ⟦<Scanner as Handler>⟧.does result (scanning (expr_tree expr)) }
        ensures whole { ⟦<Scanner as Handler>⟧.is_whole result }
    {
        Scanner { expr }
    }
}

impl Handler for Scanner {
    ghost does = { λ s w. w ≡ scanning (expr_tree s.expr) };

    ghost is_whole = { λ _. ⊤ };

    #[tactic(auto, unfolding(crate::specs::Work::behind, crate::specs::Work::replies))]
    fn take(&mut self, alloc: Global, document: RawDoc) -> Result<Option<Reply>, NoMemory> {
        match doc_of(alloc, document) {
            Ok(doc) => {
                let text = document_lines(alloc, &self.expr, doc)?;
                Ok(Some(Reply::told(text)))
            }
            Err(TokenRefusal::Memory) => Err(AllocError),
            Err(refusal) => {
                let reply = reply_of(alloc, &Refusal::Document(refusal))?;
                Ok(Some(reply))
            }
        }
    }
}
