// The command `session`.
ghost use Rattle.std.specs.Prelude.{◌≡◌, ◌≤◌, None, Some, map, IfErr, IfOk, IfSome, IsErrOf, OnOk};
ghost use Rattle.ri_ends.specs.Causes.{Rose};
ghost use Rattle.smoothing.specs.Fractions.{IsMu};
ghost use Rattle.store_ends.specs.Files.{Files, GoesOn, IsQuiet};
ghost use Rattle.command_words.specs.Table as asks;
ghost use Rattle.repository.specs.Names.{manifest_name};
ghost use Rattle.repository.specs.RealLimits.{StandsFor};
ghost use Rattle.repository.specs.Stands.{Collection};
ghost use Rattle.desk.specs.Priors.{run_priors};
ghost use Rattle.indri_app.specs.Sessions.{Grows};
ghost use Rattle.indri_app.specs.Asked.{AreWhole, IsIntactWithPriors};
ghost use Rattle.indri_app.specs.Changes.{IsFoundFirst, IsOverFault};
ghost use Rattle.indri_app.specs.Command.{ShowsInOrder};
ghost use Rattle.indri_app.specs.Opened.{IsAbsentFault};
ghost use Rattle.indri_app.specs.Runs.{IsBegun, IsDone, StopsAlong};

use crate::opening::open_repository;
use crate::script::session;
use belief_nodes::BeliefNode;
use command_pieces::CommandFault;
use ri_ends::{Sink, Source};
use std::alloc::Global;
use store_ends::Store;

/// Does what the script of the input asks for, over the repository of a store. The answer is whether something is refused.
pub fn session_files<S: Source, K: Sink, T: Store>(
    alloc: Global,
    mu: u32,
    source: &mut S,
    sink: &mut K,
    store: &mut T,
    plugs: &mut [Box<dyn BeliefNode>],
) -> Result<bool, CommandFault>
    requires mu { IsMu mu }
    requires plugs { map (λ plug. meaning plug) plugs.old ≡ run_priors }
    ensures done { (c : Collection) → StandsFor c (T.files store.old)
        → IfOk result (λ refused. IfSome (S.left source.old) (λ bytes. IsDone (T.files store.old) (asks.session mu) c bytes refused (K.taken sink.old) (K.taken sink.new) (T.files store.new))) }
    ensures broken { (c : Collection) → StandsFor c (T.files store.old)
        → IfErr result (λ why. IfSome (S.left source.old) (λ bytes. IsBegun why (T.files store.old) (asks.session mu) c bytes (K.taken sink.old) (K.taken sink.new) (T.files store.new))) }
    ensures stops { (c : Collection) → StandsFor c (T.files store.old)
        → IfSome (S.left source.old) (λ bytes. StopsAlong (T.files store.old) (asks.session mu) c bytes (T.since store.old) (T.since store.new)) }
    ensures order { (c : Collection) → StandsFor c (T.files store.old) → OnOk result (ShowsInOrder (asks.session mu) c (S.left source.old)) }

    // Damage is found only in files that stand for nothing, or aren't all read as they were put.
    ensures honest { (c : Collection) → StandsFor c (T.files store.old) → AreWhole (T.files store.old) → IfErr result (λ why. IsFoundFirst why → ⊥) }
    ensures untouched { IsErrOf result CommandFault.NoRepository
        → IsQuiet T.files T.layers T.clock T.since T.longest T.held store.old store.new × (source.new ≡ source.old) × (K.taken sink.new ≡ K.taken sink.old) }
    ensures absent { (f : Files) → T.files store.old ≡ Some f → IsErrOf result CommandFault.NoRepository → (f manifest_name).read ≡ None }
    ensures without { (f : Files) → T.files store.old ≡ Some f → (f manifest_name).read ≡ None → OnOk result ⊥ × IfErr result IsAbsentFault }
    ensures intact { (f : Files) → T.files store.old ≡ Some f → OnOk result (IsIntactWithPriors (T.files store.old)) }
    ensures grows { Grows (K.taken sink.old) (K.taken sink.new) }
    ensures only { IfErr result IsOverFault }
    ensures goes_on { GoesOn T.layers T.clock T.longest T.held store.old store.new }
    ensures layers { S.layers source.new ≡ S.layers source.old }
    ensures held { S.held source.new ≡ S.held source.old }
    ensures read { IsErrOf result CommandFault.Read → Rose (S.faults source.old) (S.faults source.new) }
    ensures write { IsErrOf result CommandFault.Write → Rose (K.faults sink.old) (K.faults sink.new) }
    ensures store { IsErrOf result CommandFault.Store → Rose (T.faults store.old) (T.faults store.new) }
    ensures read_later { S.faults source.old ≤ S.faults source.new }
    ensures write_later { K.faults sink.old ≤ K.faults sink.new }
    ensures store_later { T.faults store.old ≤ T.faults store.new }
{
    match open_repository(alloc, store) {
        Ok(repository) => session(alloc, repository, mu, source, sink, store, plugs),
        Err(fault) => Err(fault),
    }
}
