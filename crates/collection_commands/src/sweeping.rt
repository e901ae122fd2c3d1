// The sweep at the end of a command.
ghost use Rattle.std.specs.Prelude.{◌≡◌, ◌⊎◌, [], true, IfErr, OnOk};
ghost use Rattle.store_ends.specs.Files.{GoesOn, Leaves};
ghost use Rattle.repository.specs.RealLimits.{StandsFor};
ghost use Rattle.repository.specs.Stands.{Collection};
ghost use Rattle.repository.specs.Writes.{AreGone};
ghost use Rattle.collection_commands.specs.Ahead.{IsAhead};
ghost use Rattle.collection_commands.specs.Steps.{CountsFault};

use command_pieces::CommandFault;
use repository::Repository;
use std::alloc::Global;
use store_ends::Store;

/// Removes the files that a repository no longer reads.
pub fn sweep<T: Store>(
    alloc: Global,
    repository: &mut Repository,
    store: &mut T,
) -> Result<(), CommandFault>
    requires usable { repository.old.usable ≡ true }

    // What the files stand for stays, at each moment and whatever the answer.
    ensures stands { (c : Collection) → IsAhead (T.files store.old) repository.old c c → StandsFor c (T.files store.new) }
    ensures stops { (c : Collection) → IsAhead (T.files store.old) repository.old c c → Leaves (T.since store.old) (T.since store.new) (StandsFor c) }
    ensures swept { OnOk result (AreGone repository.old.stale (T.files store.new)) }
    ensures none_stale { OnOk result (repository.new.stale ≡ []) }
    ensures only { IfErr result (λ fault. (fault ≡ CommandFault.Store) ⊎ (fault ≡ CommandFault.Memory)) }
    ensures goes_on { GoesOn T.layers T.clock T.longest T.held store.old store.new }
    ensures store { CountsFault CommandFault.Store result (T.faults store.old) (T.faults store.new) }
{
    match repository.sweep(alloc, store) {
        Ok(()) => Ok(()),
        Err(fault) => Err(CommandFault::of_files(fault)),
    }
}
