// The command `delete` on a repository that is open.
ghost use Rattle.std.specs.Prelude.{◌≡◌, ◌≤◌, ◌≢◌, true, IfErr, IfOk, IfSome, IsErrOf, OnOk, Err};
ghost use Rattle.ri_ends.specs.Causes.{Rose};
ghost use Rattle.store_ends.specs.Files.{GoesOn, Leaves};
ghost use Rattle.command_pieces.specs.CommandFaults.{IsBrokenBy, IsItemsFault};
ghost use Rattle.command_pieces.specs.Pieces.{Finished, StandsAlong, some_refused};
ghost use Rattle.repository.specs.RealLimits.{StandsFor};
ghost use Rattle.repository.specs.Stands.{Collection};
ghost use Rattle.collection_commands.specs.Ahead.{IsAhead};
ghost use Rattle.collection_commands.specs.Flushing.{delete_pieces};

use crate::commits::commit;
use crate::lines::take_docnos;
use command_pieces::CommandFault;
use repository::Repository;
use ri_ends::{Sink, Source};
use std::alloc::Global;
use store_ends::Store;

/// Deletes the documents whose docnos stand on the lines of an input, and commits that. The answer is whether a line is refused.
pub fn delete<S: Source, K: Sink, T: Store>(
    alloc: Global,
    repository: &mut Repository,
    source: &mut S,
    sink: &mut K,
    store: &mut T,
) -> Result<bool, CommandFault>
    requires usable { repository.old.usable ≡ true }
    ensures refused { (c : Collection) → IsAhead (T.files store.old) repository.old c c
        → IfOk result (λ refused. IfSome (S.left source.old) (λ bytes. some_refused (delete_pieces c bytes) ≡ refused)) }
    ensures finished { (c : Collection) → IsAhead (T.files store.old) repository.old c c
        → OnOk result (IfSome (S.left source.old) (λ bytes. Finished StandsFor c (delete_pieces c bytes) (K.taken sink.old) (K.taken sink.new) (T.files store.new))) }
    ensures broken { (c : Collection) → IsAhead (T.files store.old) repository.old c c
        → IfErr result (λ fault. IfSome (S.left source.old) (λ bytes. IsBrokenBy fault StandsFor c (delete_pieces c bytes) (K.taken sink.old) (K.taken sink.new) (T.files store.new))) }
    ensures stops { (c : Collection) → IsAhead (T.files store.old) repository.old c c
        → IfSome (S.left source.old) (λ bytes. Leaves (T.since store.old) (T.since store.new) (StandsAlong StandsFor c (delete_pieces c bytes))) }
    ensures only { IfErr result IsItemsFault }
    ensures goes_on { GoesOn T.layers T.clock T.longest T.held store.old store.new }
    ensures layers { S.layers source.new ≡ S.layers source.old }
    ensures held { S.held source.new ≡ S.held source.old }
    ensures read { IsErrOf result CommandFault.Read → Rose (S.faults source.old) (S.faults source.new) }
    ensures write { IsErrOf result CommandFault.Write → Rose (K.faults sink.old) (K.faults sink.new) }
    ensures store { IsErrOf result CommandFault.Store → Rose (T.faults store.old) (T.faults store.new) }
    ensures read_later { S.faults source.old ≤ S.faults source.new }
    ensures write_later { K.faults sink.old ≤ K.faults sink.new }
    ensures store_later { T.faults store.old ≤ T.faults store.new }
    ensures read_same { result ≢ Err CommandFault.Read → S.faults source.new ≡ S.faults source.old }
    ensures write_same { result ≢ Err CommandFault.Write → K.faults sink.new ≡ K.faults sink.old }
    ensures store_same { result ≢ Err CommandFault.Store → T.faults store.new ≡ T.faults store.old }
{
    let some_refused = match take_docnos(alloc, repository, source, sink) {
        Ok(some_refused) => some_refused,
        Err(fault) => return Err(CommandFault::of_items(fault)),
    };
    match commit(alloc, repository, sink, store) {
        Ok(()) => Ok(some_refused),
        Err(fault) => Err(fault),
    }
}
