// A session over a repository that is open.
ghost use Rattle.std.specs.Prelude.{◌≡◌, ◌≤◌, None, Some, true, map, IfErr, IfOk, IfSome, IsErrOf, List, OnOk};
ghost use Rattle.std.specs.List.{AllZip};
ghost use Rattle.ri_base.specs.Ratio.{ratio_of};
ghost use Rattle.ri_ends.specs.Causes.{Rose};
ghost use Rattle.store_ends.specs.Files.{Files, GoesOn, Leaves};
ghost use Rattle.smoothing.specs.Counts.{AreCounts};
ghost use Rattle.smoothing.specs.Fractions.{IsMu, dirichlet};
ghost use Rattle.smoothing.specs.declared.rule.RuleKind.TheVariants.{Dirichlet};
ghost use Rattle.command_pieces.specs.CommandFaults.{IsBrokenBy, IsDamage};
ghost use Rattle.command_pieces.specs.Pieces.{Finished, StandsAlong, some_refused};
ghost use Rattle.repository.specs.RealLimits.{StandsFor};
ghost use Rattle.repository.specs.Stands.{Collection, IsPriorRead, Prior};
ghost use Rattle.repository.specs.States.{IsStateIntact};
ghost use Rattle.collection_commands.specs.Ahead.{IsAhead};
ghost use Rattle.desk.specs.Priors.{run_priors};
ghost use Rattle.script_reader.specs.Items.{items};
ghost use Rattle.indri_app.specs.Faults.{IsSessionFault};
ghost use Rattle.indri_app.specs.Orders.{AreTrue};
ghost use Rattle.indri_app.specs.Sessions.{Grows, begun, session_collection, session_pieces};

use crate::items::take_items;
use belief_nodes::BeliefNode;
use command_pieces::CommandFault;
use desk::{Desk, take_priors};
use repository::Repository;
use ri_base::Fraction;
use ri_ends::{Sink, Source};
use smoothing::{Rule, RuleKind, dirichlet_fraction};
use std::alloc::Global;
use store_ends::Store;

/// Does what a script asks for over an open repository, and writes what is said of each item. The answer is whether something is
/// refused.
pub fn session<S: Source, K: Sink, T: Store>(
    alloc: Global,
    repository: Repository,
    mu: u32,
    source: &mut S,
    sink: &mut K,
    store: &mut T,
    plugs: &mut [Box<dyn BeliefNode>],
) -> Result<bool, CommandFault>
    requires usable { repository.usable ≡ true }
    requires none { repository.merge ≡ None }
    requires mu { IsMu mu }
    requires plugs { map (λ plug. meaning plug) plugs.old ≡ run_priors }

    // Over files that stand for a collection. Read to its end, it has written the texts of all items, and the files stand for what is
    // live behind them.
    ensures refused { (c : Collection) → IsAhead (T.files store.old) repository c c
        → IfOk result (λ refused. IfSome (S.left source.old) (λ bytes. some_refused (session_pieces repository.held.limits (Dirichlet mu) c bytes) ≡ refused)) }
    ensures finished { (c : Collection) → IsAhead (T.files store.old) repository c c
        → OnOk result (IfSome (S.left source.old) (λ bytes. Finished StandsFor c (session_pieces repository.held.limits (Dirichlet mu) c bytes) (K.taken sink.old) (K.taken sink.new) (T.files store.new))) }
    ensures stands { (c : Collection) → IsAhead (T.files store.old) repository c c
        → OnOk result (IfSome (S.left source.old) (λ bytes. StandsFor (session_collection repository.held.limits (Dirichlet mu) c bytes) (T.files store.new))) }

    // Each answer that is shown stands in an order that is true of the beliefs behind it.
    ensures order { (c : Collection) → IsAhead (T.files store.old) repository c c
        → OnOk result (IfSome (S.left source.old) (λ bytes. AreTrue (begun repository.held.limits (Dirichlet mu) c) (items bytes))) }

    // Where it is broken off, and whenever it is stopped, it is done as far as some of its items.
    ensures broken { (c : Collection) → IsAhead (T.files store.old) repository c c
        → IfErr result (λ why. IfSome (S.left source.old) (λ bytes. IsBrokenBy why StandsFor c (session_pieces repository.held.limits (Dirichlet mu) c bytes) (K.taken sink.old) (K.taken sink.new) (T.files store.new))) }
    ensures honest { (c : Collection) → IsAhead (T.files store.old) repository c c → IsStateIntact (T.files store.old) repository → IfErr result (λ why. IsDamage why → ⊥) }
    ensures stops { (c : Collection) → IsAhead (T.files store.old) repository c c
        → IfSome (S.left source.old) (λ bytes. Leaves (T.since store.old) (T.since store.new) (StandsAlong StandsFor c (session_pieces repository.held.limits (Dirichlet mu) c bytes))) }

    // Whatever the files are: the file of each prior was read by its grammar.
    ensures listed { (f : Files) → T.files store.old ≡ Some f → OnOk result ((ps : List Prior) × AllZip (IsPriorRead (T.files store.old)) repository.priors ps) }
    ensures grows { Grows (K.taken sink.old) (K.taken sink.new) }
    ensures only { IfErr result IsSessionFault }
    ensures goes_on { GoesOn T.layers T.clock T.longest T.held store.old store.new }
    ensures layers { S.layers source.new ≡ S.layers source.old }
    ensures held { S.held source.new ≡ S.held source.old }
    ensures read { IsErrOf result CommandFault.Read → Rose (S.faults source.old) (S.faults source.new) }
    ensures write { IsErrOf result CommandFault.Write → Rose (K.faults sink.old) (K.faults sink.new) }
    ensures store { IsErrOf result CommandFault.Store → Rose (T.faults store.old) (T.faults store.new) }
    ensures read_later { S.faults source.old ≤ S.faults source.new }
    ensures write_later { K.faults sink.old ≤ K.faults sink.new }
    ensures store_later { T.faults store.old ≤ T.faults store.new }
{
    match take_priors(alloc, &repository, plugs, store) {
        Ok(()) => {}
        Err(fault) => return Err(CommandFault::of_files(fault)),
    }
    let rule = Rule::new(
        RuleKind::Dirichlet { mu },
        |tf, len, cf, total| -> Fraction
            requires mu { IsMu mu }
            requires counts { AreCounts tf len cf total }
            ensures { ratio_of result ≡ dirichlet mu tf len cf total }
        { dirichlet_fraction(mu, tf, len, cf, total) },
    );
    let Ok(mut desk) = Desk::new(alloc, repository, rule) else {
        return Err(CommandFault::Memory);
    };
    take_items(alloc, &mut desk, source, sink, store, plugs)
}
