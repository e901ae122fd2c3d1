// The repository that a generated collection is made in.
ghost use Rattle.std.specs.Prelude.{◌≡◌, ◌≤◌, ◌∷◌, [], None, Some, is_some, true, IfErr, IfOk, IsErrOf, IsTrue, OnOk};
ghost use Rattle.ri_ends.specs.Causes.{Rose};
ghost use Rattle.store_ends.specs.Files.{Files, GoesOn, IsQuiet, Leaves};
ghost use Rattle.command_pieces.specs.CommandFaults.{IsExistsFault};
ghost use Rattle.command_pieces.specs.Pieces.{StandsAlong};
ghost use Rattle.repository.specs.Names.{manifest_name};
ghost use Rattle.repository.specs.RealLimits.{StandsFor};
ghost use Rattle.repository.specs.Stands.{empty_collection};
ghost use Rattle.repository.specs.States.{IsStateIntact};
ghost use Rattle.collection_commands.specs.Ahead.{IsAhead};
ghost use Rattle.collection_commands.specs.Creation.{IsMade};
ghost use Rattle.indri_app.specs.Faults.{IsSilentFault};
ghost use Rattle.indri_app.specs.Generated.{created};
ghost use Rattle.indri_app.specs.Opened.{IsFileFault, IsWant};

use command_pieces::CommandFault;
use holdings::Limits;
use repository::{Repository, create};
use ri_base::FileName;
use std::alloc::Global;
use store_ends::Store;

/// Makes a repository in which nothing is, where there is none.
fn make_files<T: Store>(alloc: Global, store: &mut T) -> Result<(), CommandFault>
    // Where there is no manifest.
    ensures made { (f : Files) → T.files store.old ≡ Some f → (f manifest_name).read ≡ None → OnOk result (IsMade (Some f) (Some empty_collection) (T.files store.new)) }
    ensures along { (f : Files) → T.files store.old ≡ Some f → (f manifest_name).read ≡ None → StandsAlong (IsMade (Some f)) None (created ∷ []) (T.files store.new) }
    ensures stops { (f : Files) → T.files store.old ≡ Some f → (f manifest_name).read ≡ None → Leaves (T.since store.old) (T.since store.new) (StandsAlong (IsMade (Some f)) None (created ∷ [])) }
    ensures honest { (f : Files) → T.files store.old ≡ Some f → (f manifest_name).read ≡ None → IfErr result IsWant }

    // Where there is one.
    ensures exists { (f : Files) → T.files store.old ≡ Some f → IsTrue (is_some (f manifest_name).read) → IfErr result IsExistsFault × OnOk result ⊥ × IsQuiet T.files T.layers T.clock T.since T.longest T.held store.old store.new }
    ensures there { (f : Files) → T.files store.old ≡ Some f → IsErrOf result CommandFault.Exists → IsTrue (is_some (f manifest_name).read) }
    ensures same { IsErrOf result CommandFault.Exists → IsQuiet T.files T.layers T.clock T.since T.longest T.held store.old store.new }
    ensures only { IfErr result IsExistsFault }
    ensures goes_on { GoesOn T.layers T.clock T.longest T.held store.old store.new }
    ensures store { IsErrOf result CommandFault.Store → Rose (T.faults store.old) (T.faults store.new) }
    ensures store_later { T.faults store.old ≤ T.faults store.new }
{
    match create(alloc, store) {
        Ok(true) => Ok(()),
        Ok(false) => Err(CommandFault::Exists),
        Err(fault) => Err(CommandFault::of_files(fault)),
    }
}

/// Opens the repository that was made. It can't be gone while nobody else changes the files.
fn open_made<T: Store>(alloc: Global, store: &mut T) -> Result<Repository, CommandFault>
    ensures opened { StandsFor empty_collection (T.files store.old) → IfOk result (λ r. IsAhead (T.files store.old) r empty_collection empty_collection) }
    ensures honest { StandsFor empty_collection (T.files store.old) → IfErr result IsWant }
    ensures intact { StandsFor empty_collection (T.files store.old) → IfOk result (IsStateIntact (T.files store.old)) }
    ensures usable { IfOk result (λ r. r.usable ≡ true) }
    ensures unmerged { IfOk result (λ r. r.merge ≡ None) }
    ensures only { IfErr result IsFileFault }
    ensures quiet { IsQuiet T.files T.layers T.clock T.since T.longest T.held store.old store.new }
    ensures store { IsErrOf result CommandFault.Store → Rose (T.faults store.old) (T.faults store.new) }
    ensures store_later { T.faults store.old ≤ T.faults store.new }
{
    match Repository::open(alloc, store, Limits::real()) {
        Ok(Some(repository)) => Ok(repository),
        Ok(None) => Err(CommandFault::Missing {
            file: FileName::Manifest,
        }),
        Err(fault) => Err(CommandFault::of_files(fault)),
    }
}

/// A repository in which nothing is, made where there is none.
pub(crate) fn new_repository<T: Store>(
    alloc: Global,
    store: &mut T,
) -> Result<Repository, CommandFault>
    // Where there is no manifest.
    ensures new { (f : Files) → T.files store.old ≡ Some f → (f manifest_name).read ≡ None → IfOk result (λ r. IsAhead (T.files store.new) r empty_collection empty_collection) }
    ensures intact { (f : Files) → T.files store.old ≡ Some f → (f manifest_name).read ≡ None → IfOk result (IsStateIntact (T.files store.new)) }
    ensures along { (f : Files) → T.files store.old ≡ Some f → (f manifest_name).read ≡ None → StandsAlong (IsMade (Some f)) None (created ∷ []) (T.files store.new) }
    ensures stops { (f : Files) → T.files store.old ≡ Some f → (f manifest_name).read ≡ None → Leaves (T.since store.old) (T.since store.new) (StandsAlong (IsMade (Some f)) None (created ∷ [])) }
    ensures honest { (f : Files) → T.files store.old ≡ Some f → (f manifest_name).read ≡ None → IfErr result IsWant }

    // Where there is one.
    ensures exists { (f : Files) → T.files store.old ≡ Some f → IsTrue (is_some (f manifest_name).read) → IfErr result IsExistsFault × OnOk result ⊥ × IsQuiet T.files T.layers T.clock T.since T.longest T.held store.old store.new }
    ensures there { (f : Files) → T.files store.old ≡ Some f → IsErrOf result CommandFault.Exists → IsTrue (is_some (f manifest_name).read) }
    ensures same { IsErrOf result CommandFault.Exists → IsQuiet T.files T.layers T.clock T.since T.longest T.held store.old store.new }
    ensures usable { IfOk result (λ r. r.usable ≡ true) }
    ensures unmerged { IfOk result (λ r. r.merge ≡ None) }
    ensures only { IfErr result IsSilentFault }
    ensures goes_on { GoesOn T.layers T.clock T.longest T.held store.old store.new }
    ensures store { IsErrOf result CommandFault.Store → Rose (T.faults store.old) (T.faults store.new) }
    ensures store_later { T.faults store.old ≤ T.faults store.new }
{
    match make_files(alloc, store) {
        Ok(()) => open_made(alloc, store),
        Err(fault) => Err(fault),
    }
}
