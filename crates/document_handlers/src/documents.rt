// The documents of a source, one behind the other.
ghost use Rattle.std.specs.Prelude.{◌≡◌, ◌≤◌, ◌∷◌, [], IfErr, IfOk, IfSome, IsErrOf, OnOk};
ghost use Rattle.ri_ends.specs.Causes.{Rose};
ghost use Rattle.trec_reader.specs.Read.{read};
ghost use Rattle.command_pieces.specs.Faults.{IsCut, StaysUnless};
ghost use Rattle.command_pieces.specs.Pieces.{some_refused};
ghost use Rattle.command_pieces.specs.Written.{AllWritten};
ghost use Rattle.refusals.specs.declared.refusal.Refusal.TheVariants.{Input};
ghost use Rattle.refusals.specs.Lines.{refusal_piece};
ghost use Rattle.document_handlers.specs.Work.{Work, behind, behind_all, input_pieces, replies};

use crate::handler::Handler;
use command_pieces::Fault;
use refusals::{Refusal, reply_of};
use ri_ends::{Sink, Source};
use std::alloc::Global;
use trec_reader::{DocReader, RawDoc, TrecRefusal};

/// Hands a document to a handler, and writes its piece. The answer is whether it is refused.
#[tactic(auto, using(command_pieces::proofs::Cut::all_none, command_pieces::proofs::Cut::cut_first))]
fn take_document<H: Handler, K: Sink>(
    alloc: Global,
    handler: &mut H,
    document: RawDoc,
    sink: &mut K,
) -> Result<bool, Fault>
    requires whole { H.is_whole handler.old }
    ensures refused { (w : Work) → H.does handler.old w → IfOk result (λ refused. refused ≡ some_refused (replies w document)) }
    ensures behind { (w : Work) → H.does handler.old w → OnOk result (H.does handler.new (behind w document)) }
    ensures whole { OnOk result (H.is_whole handler.new) }
    ensures finished { (w : Work) → H.does handler.old w → OnOk result (AllWritten (replies w document) (K.taken sink.old) (K.taken sink.new)) }
    ensures broken { (w : Work) → H.does handler.old w → IfErr result (λ fault. IsCut fault (replies w document) (K.taken sink.old) (K.taken sink.new)) }
    ensures no_read { IsErrOf result Fault.Read → ⊥ }
    ensures later { K.faults sink.old ≤ K.faults sink.new }
    ensures cause { IsErrOf result Fault.Write → Rose (K.faults sink.old) (K.faults sink.new) }
    ensures same { StaysUnless Fault.Write result (K.faults sink.old) (K.faults sink.new) }
{
    let Ok(reply) = handler.take(alloc, document) else {
        return Err(Fault::Memory);
    };
    let Some(reply) = reply else {
        return Ok(false);
    };
    match reply.write(sink) {
        Ok(()) => Ok(reply.is_refusal()),
        Err(fault) => Err(fault),
    }
}

/// Writes the line of the refusal at which an input ends.
#[tactic(auto, using(command_pieces::proofs::Cut::cut_first))]
fn write_refusal<K: Sink>(alloc: Global, refusal: TrecRefusal, sink: &mut K) -> Result<(), Fault>
    ensures finished { OnOk result (AllWritten (refusal_piece (Input refusal) ∷ []) (K.taken sink.old) (K.taken sink.new)) }
    ensures broken { IfErr result (λ fault. IsCut fault (refusal_piece (Input refusal) ∷ []) (K.taken sink.old) (K.taken sink.new)) }
    ensures no_read { IsErrOf result Fault.Read → ⊥ }
    ensures later { K.faults sink.old ≤ K.faults sink.new }
    ensures cause { IsErrOf result Fault.Write → Rose (K.faults sink.old) (K.faults sink.new) }
    ensures same { StaysUnless Fault.Write result (K.faults sink.old) (K.faults sink.new) }
{
    match reply_of(alloc, &Refusal::Input(refusal)) {
        Ok(reply) => reply.write(sink),
        Err(_) => Err(Fault::Memory),
    }
}

/// Hands all documents of a source to a handler, and writes what it answers, and last the refusal of the input. The
/// answer is whether something is refused.
pub fn take_documents<H: Handler, S: Source, K: Sink>(
    alloc: Global,
    handler: &mut H,
    source: &mut S,
    sink: &mut K,
) -> Result<bool, Fault>
    requires whole { H.is_whole handler.old }

    ensures refused { (w : Work) → H.does handler.old w → IfOk result (λ refused. IfSome (S.left source.old) (λ bytes. refused ≡ some_refused (input_pieces w (read bytes)))) }
    ensures behind { (w : Work) → H.does handler.old w → OnOk result (IfSome (S.left source.old) (λ bytes. H.does handler.new (behind_all w (read bytes).0))) }
    ensures whole { OnOk result (H.is_whole handler.new) }
    ensures finished { (w : Work) → H.does handler.old w → OnOk result (IfSome (S.left source.old) (λ bytes. AllWritten (input_pieces w (read bytes)) (K.taken sink.old) (K.taken sink.new))) }
    ensures broken { (w : Work) → H.does handler.old w → IfErr result (λ fault. IfSome (S.left source.old) (λ bytes. IsCut fault (input_pieces w (read bytes)) (K.taken sink.old) (K.taken sink.new))) }

    ensures read { IsErrOf result Fault.Read → Rose (S.faults source.old) (S.faults source.new) }
    ensures write { IsErrOf result Fault.Write → Rose (K.faults sink.old) (K.faults sink.new) }
    ensures read_later { S.faults source.old ≤ S.faults source.new }
    ensures write_later { K.faults sink.old ≤ K.faults sink.new }
    ensures read_same { StaysUnless Fault.Read result (S.faults source.old) (S.faults source.new) }
    ensures write_same { StaysUnless Fault.Write result (K.faults sink.old) (K.faults sink.new) }
    ensures layers { S.layers source.new ≡ S.layers source.old }
    ensures held { S.held source.new ≡ S.held source.old }
{
    let Ok(mut reader) = DocReader::new(alloc) else {
        return Err(Fault::Memory);
    };
    let mut some_refused = false;
    'documents: loop {
        let document = match reader.next_doc(source) {
            Ok(Some(document)) => document,
            Ok(None) => return Ok(some_refused),
            Err(TrecRefusal::Read) => return Err(Fault::Read),
            Err(TrecRefusal::Memory) => return Err(Fault::Memory),
            Err(refusal) => match write_refusal(alloc, refusal, sink) {
                Ok(()) => return Ok(true),
                Err(fault) => return Err(fault),
            },
        };
        match take_document(alloc, handler, document, sink) {
            Ok(refused) => some_refused |= refused,
            Err(fault) => return Err(fault),
        }
    }
}
