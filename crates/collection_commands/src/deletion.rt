// A line of the input of `delete`.
ghost use Rattle.std.specs.Prelude.{◌≡◌, ◌∷◌, [], true, IfErr, IfOk, IsErrOf, OnOk, Option};
ghost use Rattle.store_ends.specs.Files.{Files};
ghost use Rattle.command_pieces.specs.Faults.{IsCut};
ghost use Rattle.command_pieces.specs.Written.{AllWritten};
ghost use Rattle.docno_lines.specs.declared.docno.DocnoLine.{DocnoLine};
ghost use Rattle.repository.specs.Stands.{Collection};
ghost use Rattle.repository.specs.States.{IsBacked, ReadsAs};
ghost use Rattle.collection_commands.specs.Deletions.{behind_line, deleted_text, line_piece};
ghost use Rattle.collection_commands.specs.Steps.{CountsFault};

use command_pieces::{Fault, Reply};
use docno_lines::DocnoLine;
use refusals::{Refusal, reply_of};
use repository::Repository;
use ri_base::{Docno, NoMemory};
use ri_ends::Sink;
use std::alloc::Global;

fn deleted_text(alloc: Global, docno: &Docno) -> Result<Vec<u8>, NoMemory>
    ensures { IfOk result (λ text. text.items ≡ deleted_text docno.now) }
{
    let mut text = b"deleted ".to_vec(alloc)?;
    text.extend_from_slice(docno.as_bytes())?;
    text.push(b'\n')?;
    Ok(text)
}

/// Deletes the document with this docno, and answers what is to be written of it.
fn delete(alloc: Global, repository: &mut Repository, docno: Docno) -> Result<Reply, NoMemory>
    requires usable { repository.old.usable ≡ true }
    ensures reply { (told : Option Files) (c : Collection) → ReadsAs told repository.old c → IfOk result (λ reply. reply ≡ line_piece c (DocnoLine.Docno docno)) }
    ensures reads { (told : Option Files) (c : Collection) → ReadsAs told repository.old c → OnOk result (ReadsAs told repository.new (behind_line c (DocnoLine.Docno docno))) }
    ensures backed { (told : Option Files) → IsBacked told repository.old → IsBacked told repository.new }
    ensures limits { repository.new.held.limits ≡ repository.old.held.limits }
    ensures usable { repository.new.usable ≡ true }
{
    match repository.delete(&docno) {
        Ok(()) => Ok(Reply::told(deleted_text(alloc, &docno)?)),
        Err(_) => reply_of(alloc, &Refusal::NoSuchDoc(docno)),
    }
}

/// Does what a line asks for, and answers what is to be written of it.
fn take_line(alloc: Global, repository: &mut Repository, line: DocnoLine) -> Result<Reply, NoMemory>
    requires usable { repository.old.usable ≡ true }
    ensures reply { (told : Option Files) (c : Collection) → ReadsAs told repository.old c → IfOk result (λ reply. reply ≡ line_piece c line) }
    ensures reads { (told : Option Files) (c : Collection) → ReadsAs told repository.old c → OnOk result (ReadsAs told repository.new (behind_line c line)) }
    ensures backed { (told : Option Files) → IsBacked told repository.old → IsBacked told repository.new }
    ensures limits { repository.new.held.limits ≡ repository.old.held.limits }
    ensures usable { repository.new.usable ≡ true }
{
    match line {
        DocnoLine::Docno(docno) => delete(alloc, repository, docno),
        DocnoLine::BadEvent { place } => reply_of(alloc, &Refusal::BadEvent { place }),
        DocnoLine::LineTooLong { place } => reply_of(alloc, &Refusal::LineTooLong { place }),
    }
}

/// Does what a line asks for and writes what is said of it. The answer is whether it is refused.
#[tactic(auto, using(command_pieces::proofs::Cut::cut_first))]
pub fn write_line<K: Sink>(
    alloc: Global,
    repository: &mut Repository,
    line: DocnoLine,
    sink: &mut K,
) -> Result<bool, Fault>
    requires usable { repository.old.usable ≡ true }
    ensures refused { (told : Option Files) (c : Collection) → ReadsAs told repository.old c → IfOk result (λ refused. refused ≡ (line_piece c line).is_refusal) }
    ensures reads { (told : Option Files) (c : Collection) → ReadsAs told repository.old c → OnOk result (ReadsAs told repository.new (behind_line c line)) }
    ensures finished { (told : Option Files) (c : Collection) → ReadsAs told repository.old c → OnOk result (AllWritten (line_piece c line ∷ []) (K.taken sink.old) (K.taken sink.new)) }
    ensures broken { (told : Option Files) (c : Collection) → ReadsAs told repository.old c → IfErr result (λ fault. IsCut fault (line_piece c line ∷ []) (K.taken sink.old) (K.taken sink.new)) }
    ensures backed { (told : Option Files) → IsBacked told repository.old → IsBacked told repository.new }
    ensures limits { repository.new.held.limits ≡ repository.old.held.limits }
    ensures usable { repository.new.usable ≡ true }
    ensures no_read { IsErrOf result Fault.Read → ⊥ }
    ensures write { CountsFault Fault.Write result (K.faults sink.old) (K.faults sink.new) }
{
    let Ok(reply) = take_line(alloc, repository, line) else {
        return Err(Fault::Memory);
    };
    match reply.write(sink) {
        Ok(()) => Ok(reply.is_refusal()),
        Err(fault) => Err(fault),
    }
}
