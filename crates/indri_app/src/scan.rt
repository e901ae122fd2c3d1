// The command `scan`.
ghost use Rattle.std.specs.Prelude.{◌≡◌, ◌≤◌, IfErr, IfOk, IfSome, IsErrOf, OnOk};
ghost use Rattle.ri_base.specs.Expression.{expr_tree};
ghost use Rattle.ri_ends.specs.Causes.{Rose};
ghost use Rattle.trec_reader.specs.Read.{read};
ghost use Rattle.command_pieces.specs.Faults.{IsCut, StaysUnless};
ghost use Rattle.command_pieces.specs.Pieces.{some_refused};
ghost use Rattle.command_pieces.specs.Written.{AllWritten};
ghost use Rattle.document_handlers.specs.Work.{input_pieces, scanning};

use command_pieces::Fault;
use document_handlers::{Scanner, take_documents};
use ri_base::ExtentExpr;
use ri_ends::{Sink, Source};
use std::alloc::Global;

/// Writes what a scan for the expression writes. The answer is whether something is refused.
pub fn scan<S: Source, K: Sink>(
    alloc: Global,
    expr: ExtentExpr,
    source: &mut S,
    sink: &mut K,
) -> Result<bool, Fault>
    ensures refused { IfOk result (λ refused. IfSome (S.left source.old) (λ bytes. refused ≡ some_refused (input_pieces (scanning (expr_tree expr)) (read bytes)))) }
    ensures finished { OnOk result (IfSome (S.left source.old) (λ bytes. AllWritten (input_pieces (scanning (expr_tree expr)) (read bytes)) (K.taken sink.old) (K.taken sink.new))) }
    ensures broken { IfErr result (λ fault. IfSome (S.left source.old) (λ bytes. IsCut fault (input_pieces (scanning (expr_tree expr)) (read bytes)) (K.taken sink.old) (K.taken sink.new))) }

    ensures read { IsErrOf result Fault.Read → Rose (S.faults source.old) (S.faults source.new) }
    ensures write { IsErrOf result Fault.Write → Rose (K.faults sink.old) (K.faults sink.new) }
    ensures read_later { S.faults source.old ≤ S.faults source.new }
    ensures write_later { K.faults sink.old ≤ K.faults sink.new }
    ensures read_same { StaysUnless Fault.Read result (S.faults source.old) (S.faults source.new) }
    ensures write_same { StaysUnless Fault.Write result (K.faults sink.old) (K.faults sink.new) }
    ensures layers { S.layers source.new ≡ S.layers source.old }
    ensures held { S.held source.new ≡ S.held source.old }
{
    let mut scanner = Scanner::new(expr);
    take_documents(alloc, &mut scanner, source, sink)
}
