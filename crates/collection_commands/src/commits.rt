// The end of a command that changed the documents of a collection.
ghost use Rattle.std.specs.Prelude.{◌≡◌, ◌≤◌, ◌≢◌, [], true, IfErr, IsErrOf, OnOk, Err};
ghost use Rattle.ri_ends.specs.Causes.{Rose};
ghost use Rattle.store_ends.specs.Files.{GoesOn, Leaves};
ghost use Rattle.command_pieces.specs.CommandFaults.{IsBrokenBy, IsChangeFault};
ghost use Rattle.command_pieces.specs.Pieces.{Finished, StandsAlong};
ghost use Rattle.repository.specs.RealLimits.{StandsFor};
ghost use Rattle.repository.specs.Stands.{Collection};
ghost use Rattle.repository.specs.Writes.{AreGone};
ghost use Rattle.collection_commands.specs.Ahead.{IsAhead};
ghost use Rattle.collection_commands.specs.Flushing.{flush_pieces};
ghost use Rattle.collection_commands.specs.Steps.{CountsFault, Does};

use crate::flushed::flushed_reply;
use crate::sweeping::sweep;
use command_pieces::CommandFault;
use repository::Repository;
use ri_ends::Sink;
use std::alloc::Global;
use store_ends::Store;

/// Flushes a repository, and tells how many documents are live.
fn flush_and_tell<K: Sink, T: Store>(
    alloc: Global,
    repository: &mut Repository,
    sink: &mut K,
    store: &mut T,
) -> Result<(), CommandFault>
    requires usable { repository.old.usable ≡ true }
    ensures does { Does (T.files store.old) repository.old flush_pieces result (K.taken sink.old) (K.taken sink.new) (T.files store.new) (T.since store.old) (T.since store.new) }
    ensures ahead { (kept c : Collection) → IsAhead (T.files store.old) repository.old kept c → OnOk result (IsAhead (T.files store.new) repository.new c c) }
    ensures stale { OnOk result (repository.new.stale ≡ repository.old.stale) }
    ensures usable { OnOk result (repository.new.usable ≡ true) }
    ensures only { IfErr result IsChangeFault }
    ensures goes_on { GoesOn T.layers T.clock T.longest T.held store.old store.new }
    ensures write { CountsFault CommandFault.Write result (K.faults sink.old) (K.faults sink.new) }
    ensures store { CountsFault CommandFault.Store result (T.faults store.old) (T.faults store.new) }
{
    match repository.flush(alloc, store) {
        Ok(()) => {}
        Err(fault) => return Err(CommandFault::of_files(fault)),
    }
    let Ok(reply) = flushed_reply(alloc, repository) else {
        return Err(CommandFault::Memory);
    };
    match reply.write(sink) {
        Ok(()) => Ok(()),
        Err(fault) => Err(CommandFault::of_items(fault)),
    }
}

/// Flushes a repository, tells how many documents are live, and sweeps.
pub fn commit<K: Sink, T: Store>(
    alloc: Global,
    repository: &mut Repository,
    sink: &mut K,
    store: &mut T,
) -> Result<(), CommandFault>
    requires usable { repository.old.usable ≡ true }
    ensures finished { (kept c : Collection) → IsAhead (T.files store.old) repository.old kept c
        → OnOk result (Finished StandsFor kept (flush_pieces c) (K.taken sink.old) (K.taken sink.new) (T.files store.new)) }
    ensures broken { (kept c : Collection) → IsAhead (T.files store.old) repository.old kept c
        → IfErr result (λ fault. IsBrokenBy fault StandsFor kept (flush_pieces c) (K.taken sink.old) (K.taken sink.new) (T.files store.new)) }
    ensures stops { (kept c : Collection) → IsAhead (T.files store.old) repository.old kept c
        → Leaves (T.since store.old) (T.since store.new) (StandsAlong StandsFor kept (flush_pieces c)) }
    ensures swept { OnOk result (AreGone repository.old.stale (T.files store.new)) }
    ensures none_stale { OnOk result (repository.new.stale ≡ []) }
    ensures only { IfErr result IsChangeFault }
    ensures goes_on { GoesOn T.layers T.clock T.longest T.held store.old store.new }
    ensures write { IsErrOf result CommandFault.Write → Rose (K.faults sink.old) (K.faults sink.new) }
    ensures store { IsErrOf result CommandFault.Store → Rose (T.faults store.old) (T.faults store.new) }
    ensures write_later { K.faults sink.old ≤ K.faults sink.new }
    ensures store_later { T.faults store.old ≤ T.faults store.new }
    ensures write_same { result ≢ Err CommandFault.Write → K.faults sink.new ≡ K.faults sink.old }
    ensures store_same { result ≢ Err CommandFault.Store → T.faults store.new ≡ T.faults store.old }
{
    match flush_and_tell(alloc, repository, sink, store) {
        Ok(()) => {}
        Err(fault) => return Err(fault),
    }
    match sweep(alloc, repository, store) {
        Ok(()) => Ok(()),
        Err(fault) => Err(fault),
    }
}
