// The commands that change a repository.
ghost use Rattle.std.specs.Prelude.{◌≡◌, ◌≤◌, None, Some, false, true, IfErr, IfOk, IfSome, IsErrOf, OnOk};
ghost use Rattle.ri_ends.specs.Causes.{Rose};
ghost use Rattle.store_ends.specs.Files.{Files, GoesOn, IsQuiet, Leaves};
ghost use Rattle.command_pieces.specs.CommandFaults.{IsBrokenBy, IsDamage};
ghost use Rattle.command_pieces.specs.Pieces.{Finished, StandsAlong};
ghost use Rattle.repository.specs.Names.{manifest_name};
ghost use Rattle.repository.specs.Priors.{AreStored};
ghost use Rattle.repository.specs.RealLimits.{StandsFor};
ghost use Rattle.repository.specs.Stands.{Collection};
ghost use Rattle.repository.specs.States.{IsStateIntact};
ghost use Rattle.collection_commands.specs.Ahead.{IsAhead};
ghost use Rattle.collection_commands.specs.Merging.{IsMergeFault, merge_pieces};
ghost use Rattle.indri_app.specs.Asked.{AreWhole, IsIntact};
ghost use Rattle.indri_app.specs.Changes.{IsFoundFirst, IsOverFault, told_change};
ghost use Rattle.indri_app.specs.Command.{ReadsBlocks};
ghost use Rattle.indri_app.specs.Faults.{IsSessionFault};
ghost use Rattle.indri_app.specs.Opened.{IsAbsentFault};
ghost use Rattle.indri_app.specs.Runs.{IsBegun, IsDone, StopsAlong};

use crate::addition::add;
use crate::opening::open_repository;
use collection_commands::{delete, merge, set_prior};
use command_pieces::CommandFault;
use repository::Repository;
use ri_base::Name;
use ri_ends::{Sink, Source};
use std::alloc::Global;
use store_ends::Store;

/// A command that changes a repository.
#[derive(Debug, Drop)]
pub enum Change {
    /// The documents of the input are added.
    Add,
    /// The documents that the input names are deleted.
    Delete,
    /// The live documents stand in new parts, and no others.
    Merge,
    /// The rows of the input become those of the prior of this name.
    Prior(Name),
}

/// Merges the documents of a repository that is open. The answer is whether something is refused, which nothing of a merge is.
fn merge_documents<K: Sink, T: Store>(
    alloc: Global,
    repository: Repository,
    sink: &mut K,
    store: &mut T,
) -> Result<bool, CommandFault>
    requires usable { repository.usable ≡ true }
    requires none { repository.merge ≡ None }
    ensures refused { IfOk result (λ refused. refused ≡ false) }
    ensures finished { (c : Collection) → IsAhead (T.files store.old) repository c c
        → OnOk result (Finished StandsFor c (merge_pieces c) (K.taken sink.old) (K.taken sink.new) (T.files store.new)) }
    ensures broken { (c : Collection) → IsAhead (T.files store.old) repository c c
        → IfErr result (λ why. IsBrokenBy why StandsFor c (merge_pieces c) (K.taken sink.old) (K.taken sink.new) (T.files store.new)) }
    ensures stops { (c : Collection) → IsAhead (T.files store.old) repository c c
        → Leaves (T.since store.old) (T.since store.new) (StandsAlong StandsFor c (merge_pieces c)) }
    ensures only { IfErr result IsMergeFault }
    ensures honest { IsStateIntact (T.files store.old) repository → IfErr result (λ why. IsDamage why → ⊥) }
    ensures damage { IfErr result (λ why. IsDamage why → IsQuiet T.files T.layers T.clock T.since T.longest T.held store.old store.new × (K.taken sink.new ≡ K.taken sink.old)) }
    ensures goes_on { GoesOn T.layers T.clock T.longest T.held store.old store.new }
    ensures write { IsErrOf result CommandFault.Write → Rose (K.faults sink.old) (K.faults sink.new) }
    ensures store { IsErrOf result CommandFault.Store → Rose (T.faults store.old) (T.faults store.new) }
    ensures write_later { K.faults sink.old ≤ K.faults sink.new }
    ensures store_later { T.faults store.old ≤ T.faults store.new }
{
    let mut repository = repository;
    match merge(alloc, &mut repository, sink, store) {
        Ok(()) => Ok(false),
        Err(fault) => Err(fault),
    }
}

/// Changes a repository that is open. The answer is whether something is refused.
fn change_repository<S: Source, K: Sink, T: Store>(
    alloc: Global,
    what: Change,
    repository: Repository,
    source: &mut S,
    sink: &mut K,
    store: &mut T,
) -> Result<bool, CommandFault>
    requires usable { repository.usable ≡ true }
    requires stored { AreStored repository }
    requires none { repository.merge ≡ None }
    ensures done { (c : Collection) → IsAhead (T.files store.old) repository c c
        → IfOk result (λ refused. IfSome (S.left source.old) (λ bytes. IsDone (T.files store.old) (told_change what) c bytes refused (K.taken sink.old) (K.taken sink.new) (T.files store.new))) }
    ensures broken { (c : Collection) → IsAhead (T.files store.old) repository c c
        → IfErr result (λ why. IfSome (S.left source.old) (λ bytes. IsBegun why (T.files store.old) (told_change what) c bytes (K.taken sink.old) (K.taken sink.new) (T.files store.new))) }
    ensures stops { (c : Collection) → IsAhead (T.files store.old) repository c c
        → IfSome (S.left source.old) (λ bytes. StopsAlong (T.files store.old) (told_change what) c bytes (T.since store.old) (T.since store.new)) }

    // Damage is found before anything is done, and only by a command that reads blocks, in files that aren't read as they were put.
    ensures honest { (ReadsBlocks (told_change what) → IsStateIntact (T.files store.old) repository) → IfErr result (λ why. IsDamage why → ⊥) }
    ensures damage { IfErr result (λ why. IsDamage why
        → IsQuiet T.files T.layers T.clock T.since T.longest T.held store.old store.new × (source.new ≡ source.old) × (K.taken sink.new ≡ K.taken sink.old)) }
    ensures only { IfErr result IsSessionFault }
    ensures goes_on { GoesOn T.layers T.clock T.longest T.held store.old store.new }
    ensures layers { S.layers source.new ≡ S.layers source.old }
    ensures held { S.held source.new ≡ S.held source.old }
    ensures read { IsErrOf result CommandFault.Read → Rose (S.faults source.old) (S.faults source.new) }
    ensures write { IsErrOf result CommandFault.Write → Rose (K.faults sink.old) (K.faults sink.new) }
    ensures store { IsErrOf result CommandFault.Store → Rose (T.faults store.old) (T.faults store.new) }
    ensures read_later { S.faults source.old ≤ S.faults source.new }
    ensures write_later { K.faults sink.old ≤ K.faults sink.new }
    ensures store_later { T.faults store.old ≤ T.faults store.new }
{
    match what {
        Change::Add => add(alloc, repository, source, sink, store),
        Change::Delete => {
            let mut repository = repository;
            delete(alloc, &mut repository, source, sink, store)
        }
        Change::Merge => merge_documents(alloc, repository, sink, store),
        Change::Prior(name) => {
            let mut repository = repository;
            set_prior(alloc, &mut repository, name, source, sink, store)
        }
    }
}

/// Changes the repository of a store. The answer is whether something is refused.
pub fn change_files<S: Source, K: Sink, T: Store>(
    alloc: Global,
    what: Change,
    source: &mut S,
    sink: &mut K,
    store: &mut T,
) -> Result<bool, CommandFault>
    ensures done { (c : Collection) → StandsFor c (T.files store.old)
        → IfOk result (λ refused. IfSome (S.left source.old) (λ bytes. IsDone (T.files store.old) (told_change what) c bytes refused (K.taken sink.old) (K.taken sink.new) (T.files store.new))) }
    ensures broken { (c : Collection) → StandsFor c (T.files store.old)
        → IfErr result (λ why. IfSome (S.left source.old) (λ bytes. IsBegun why (T.files store.old) (told_change what) c bytes (K.taken sink.old) (K.taken sink.new) (T.files store.new))) }
    ensures stops { (c : Collection) → StandsFor c (T.files store.old)
        → IfSome (S.left source.old) (λ bytes. StopsAlong (T.files store.old) (told_change what) c bytes (T.since store.old) (T.since store.new)) }

    // What is found first is found before anything is done.
    ensures honest { (c : Collection) → StandsFor c (T.files store.old) → (ReadsBlocks (told_change what) → AreWhole (T.files store.old)) → IfErr result (λ why. IsFoundFirst why → ⊥) }
    ensures first { IfErr result (λ why. IsFoundFirst why
        → IsQuiet T.files T.layers T.clock T.since T.longest T.held store.old store.new × (source.new ≡ source.old) × (K.taken sink.new ≡ K.taken sink.old)) }
    ensures absent { (f : Files) → T.files store.old ≡ Some f → IsErrOf result CommandFault.NoRepository → (f manifest_name).read ≡ None }
    ensures without { (f : Files) → T.files store.old ≡ Some f → (f manifest_name).read ≡ None → OnOk result ⊥ × IfErr result IsAbsentFault }
    ensures intact { (f : Files) → T.files store.old ≡ Some f → OnOk result (IsIntact (T.files store.old)) }
    ensures only { IfErr result IsOverFault }
    ensures goes_on { GoesOn T.layers T.clock T.longest T.held store.old store.new }
    ensures layers { S.layers source.new ≡ S.layers source.old }
    ensures held { S.held source.new ≡ S.held source.old }
    ensures read { IsErrOf result CommandFault.Read → Rose (S.faults source.old) (S.faults source.new) }
    ensures write { IsErrOf result CommandFault.Write → Rose (K.faults sink.old) (K.faults sink.new) }
    ensures store { IsErrOf result CommandFault.Store → Rose (T.faults store.old) (T.faults store.new) }
    ensures read_later { S.faults source.old ≤ S.faults source.new }
    ensures write_later { K.faults sink.old ≤ K.faults sink.new }
    ensures store_later { T.faults store.old ≤ T.faults store.new }
{
    match open_repository(alloc, store) {
        Ok(repository) => change_repository(alloc, what, repository, source, sink, store),
        Err(fault) => Err(fault),
    }
}
