// What `prior` says of the lines of its input.
ghost use Rattle.std.specs.Prelude.{◌≡◌, IfErr, IfOk, IsErrOf, OnOk};
ghost use Rattle.command_pieces.specs.Faults.{IsCut};
ghost use Rattle.command_pieces.specs.Written.{AllWritten};
ghost use Rattle.collection_commands.specs.RowRefusals.{row_piece, row_pieces, row_refusal};
ghost use Rattle.collection_commands.specs.Steps.{CountsFault};

use command_pieces::Fault;
use prior_lines::RowLine;
use refusals::{Refusal, reply_of};
use ri_base::NoMemory;
use ri_ends::Sink;
use std::alloc::Global;

/// Why a line is refused, where it is.
fn row_refusal(alloc: Global, line: &RowLine) -> Result<Option<Refusal>, NoMemory>
    ensures { IfOk result (λ refusal. refusal ≡ row_refusal line.now) }
{
    match line {
        RowLine::Accepted => Ok(None),
        RowLine::BadRow { place } => Ok(Some(Refusal::BadRow { place: *place })),
        RowLine::LineTooLong { place } => Ok(Some(Refusal::LineTooLong { place: *place })),
        RowLine::RepeatedRow(docno) => Ok(Some(Refusal::RepeatedRow(docno.clone_in(alloc)?))),
        RowLine::RepeatedRest => Ok(Some(Refusal::RepeatedRest)),
        RowLine::TooManyRows { place } => Ok(Some(Refusal::TooManyRows { place: *place })),
    }
}

/// Writes why a line is refused, where it is.
#[tactic(auto, using(command_pieces::proofs::Cut::all_none, command_pieces::proofs::Cut::cut_first))]
fn write_row<K: Sink>(alloc: Global, line: &RowLine, sink: &mut K) -> Result<(), Fault>
    ensures finished { OnOk result (AllWritten (row_piece line.now) (K.taken sink.old) (K.taken sink.new)) }
    ensures broken { IfErr result (λ fault. IsCut fault (row_piece line.now) (K.taken sink.old) (K.taken sink.new)) }
    ensures no_read { IsErrOf result Fault.Read → ⊥ }
    ensures write { CountsFault Fault.Write result (K.faults sink.old) (K.faults sink.new) }
{
    let Ok(refusal) = row_refusal(alloc, line) else {
        return Err(Fault::Memory);
    };
    let Some(refusal) = refusal else {
        return Ok(());
    };
    match reply_of(alloc, &refusal) {
        Ok(reply) => reply.write(sink),
        Err(_) => Err(Fault::Memory),
    }
}

/// Writes why lines are refused, one behind the other.
pub fn write_rows<K: Sink>(alloc: Global, lines: &[RowLine], sink: &mut K) -> Result<(), Fault>
    ensures finished { OnOk result (AllWritten (row_pieces lines.now) (K.taken sink.old) (K.taken sink.new)) }
    ensures broken { IfErr result (λ fault. IsCut fault (row_pieces lines.now) (K.taken sink.old) (K.taken sink.new)) }
    ensures no_read { IsErrOf result Fault.Read → ⊥ }
    ensures write { CountsFault Fault.Write result (K.faults sink.old) (K.faults sink.new) }
{
    for line in lines {
        match write_row(alloc, line, sink) {
            Ok(()) => {}
            Err(fault) => return Err(fault),
        }
    }
    Ok(())
}
