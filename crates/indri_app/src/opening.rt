// The repository of a store is opened.
ghost use Rattle.std.specs.Prelude.{◌≡◌, ◌≤◌, None, Some, true, is_some, IfErr, IfOk, IsErrOf, IsTrue, OnOk};
ghost use Rattle.ri_base.specs.Keeps.{Rose};
ghost use Rattle.store_ends.specs.Files.{Files, IsQuiet};
ghost use Rattle.repository.specs.Names.{manifest_name};
ghost use Rattle.repository.specs.Opening.{IsRepositoryOpened};
ghost use Rattle.repository.specs.Priors.{AreStored};
ghost use Rattle.repository.specs.RealLimits.{AreReal, StandsFor};
ghost use Rattle.repository.specs.Stands.{Collection};
ghost use Rattle.collection_commands.specs.Ahead.{IsAhead};
ghost use Rattle.indri_app.specs.Opened.{IsAbsentFault, IsOpenFault, IsWant};

use command_pieces::CommandFault;
use holdings::Limits;
use repository::Repository;
use std::alloc::Global;
use store_ends::Store;

/// The repository of a store, within the limits of every repository.
pub fn open_repository<T: Store>(alloc: Global, store: &mut T) -> Result<Repository, CommandFault>
    // Files that stand for a collection are opened as that collection, and never refused.
    ensures opened { (c : Collection) → StandsFor c (T.files store.old) → IfOk result (λ r. IsAhead (T.files store.old) r c c) }
    ensures honest { (c : Collection) → StandsFor c (T.files store.old) → IfErr result IsWant }

    ensures usable { IfOk result (λ r. r.usable ≡ true) }
    ensures stored { IfOk result (λ r. AreStored r) }
    ensures unmerged { IfOk result (λ r. r.merge ≡ None) }
    ensures real { IfOk result (λ r. AreReal r.held.limits) }

    // Whatever the files are: a repository is one that was read from them by the grammar.
    ensures read { (f : Files) → T.files store.old ≡ Some f → IfOk result (λ r. IsRepositoryOpened (T.files store.old) r.held.limits r) }
    ensures there { (f : Files) → T.files store.old ≡ Some f → OnOk result (IsTrue (is_some (f manifest_name).read)) }
    ensures absent { (f : Files) → T.files store.old ≡ Some f → IsErrOf result CommandFault.NoRepository → (f manifest_name).read ≡ None }
    ensures without { (f : Files) → T.files store.old ≡ Some f → (f manifest_name).read ≡ None → OnOk result ⊥ × IfErr result IsAbsentFault }

    ensures only { IfErr result IsOpenFault }
    ensures quiet { IsQuiet T.files T.layers T.clock T.since T.longest T.held store.old store.new }
    ensures later { T.faults store.old ≤ T.faults store.new }
    ensures store { IsErrOf result CommandFault.Store → Rose (T.faults store.old) (T.faults store.new) }
{
    match Repository::open(alloc, store, Limits::real()) {
        Ok(Some(repository)) => Ok(repository),
        Ok(None) => Err(CommandFault::NoRepository),
        Err(fault) => Err(CommandFault::of_files(fault)),
    }
}
