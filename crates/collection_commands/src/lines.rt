// All lines of the input of `delete`.
ghost use Rattle.std.specs.Prelude.{◌≡◌, ◌≤◌, true, IfErr, IfOk, IfSome, IsErrOf, OnOk, Option};
ghost use Rattle.ri_ends.specs.Causes.{Rose};
ghost use Rattle.store_ends.specs.Files.{Files};
ghost use Rattle.command_pieces.specs.Faults.{IsCut, StaysUnless};
ghost use Rattle.command_pieces.specs.Pieces.{some_refused};
ghost use Rattle.command_pieces.specs.Written.{AllWritten};
ghost use Rattle.docno_lines.specs.Docnos.{docnos_at};
ghost use Rattle.repository.specs.Stands.{Collection};
ghost use Rattle.repository.specs.States.{IsBacked, ReadsAs};
ghost use Rattle.collection_commands.specs.Deletions.{behind_lines, line_pieces};

use crate::deletion::write_line;
use command_pieces::Fault;
use docno_lines::next_docno;
use line_reader::LineReader;
use read_ahead::InputFault;
use repository::Repository;
use ri_ends::{Sink, Source};
use std::alloc::Global;

/// Does what all lines of an input ask for, and writes what is said of them. The answer is whether one is refused.
pub fn take_docnos<S: Source, K: Sink>(
    alloc: Global,
    repository: &mut Repository,
    source: &mut S,
    sink: &mut K,
) -> Result<bool, Fault>
    requires usable { repository.old.usable ≡ true }

    // The repository reads as the collection behind the lines, and what is written is theirs.
    ensures refused { (told : Option Files) (c : Collection) → ReadsAs told repository.old c → IfOk result (λ refused. IfSome (S.left source.old) (λ bytes. refused ≡ some_refused (line_pieces c (docnos_at 0 bytes)))) }
    ensures reads { (told : Option Files) (c : Collection) → ReadsAs told repository.old c → OnOk result (IfSome (S.left source.old) (λ bytes. ReadsAs told repository.new (behind_lines c (docnos_at 0 bytes)))) }
    ensures finished { (told : Option Files) (c : Collection) → ReadsAs told repository.old c → OnOk result (IfSome (S.left source.old) (λ bytes. AllWritten (line_pieces c (docnos_at 0 bytes)) (K.taken sink.old) (K.taken sink.new))) }
    ensures broken { (told : Option Files) (c : Collection) → ReadsAs told repository.old c → IfErr result (λ fault. IfSome (S.left source.old) (λ bytes. IsCut fault (line_pieces c (docnos_at 0 bytes)) (K.taken sink.old) (K.taken sink.new))) }
    ensures backed { (told : Option Files) → IsBacked told repository.old → IsBacked told repository.new }
    ensures limits { repository.new.held.limits ≡ repository.old.held.limits }
    ensures usable { repository.new.usable ≡ true }

    ensures read { IsErrOf result Fault.Read → Rose (S.faults source.old) (S.faults source.new) }
    ensures write { IsErrOf result Fault.Write → Rose (K.faults sink.old) (K.faults sink.new) }
    ensures read_later { S.faults source.old ≤ S.faults source.new }
    ensures write_later { K.faults sink.old ≤ K.faults sink.new }
    ensures read_same { StaysUnless Fault.Read result (S.faults source.old) (S.faults source.new) }
    ensures write_same { StaysUnless Fault.Write result (K.faults sink.old) (K.faults sink.new) }
    ensures layers { S.layers source.new ≡ S.layers source.old }
    ensures held { S.held source.new ≡ S.held source.old }
{
    let Ok(mut lines) = LineReader::new(alloc) else {
        return Err(Fault::Memory);
    };
    let mut some_refused = false;
    'docnos: loop {
        let line = match next_docno(alloc, &mut lines, source) {
            Ok(Some(line)) => line,
            Ok(None) => return Ok(some_refused),
            Err(InputFault::Read) => return Err(Fault::Read),
            Err(InputFault::Memory) => return Err(Fault::Memory),
        };
        match write_line(alloc, repository, line, sink) {
            Ok(refused) => some_refused |= refused,
            Err(fault) => return Err(fault),
        }
    }
}
