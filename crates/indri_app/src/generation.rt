// The command `gen`.
ghost use Rattle.std.specs.Prelude.{◌≡◌, ◌≤◌, None, Some, is_some, map, true, IfErr, IfOk, IsErrOf, IsTrue, OnOk};
ghost use Rattle.ri_base.specs.Faults.{IsOutside};
ghost use Rattle.ri_base.specs.Ratio.{ratio_of};
ghost use Rattle.ri_ends.specs.Causes.{Rose};
ghost use Rattle.store_ends.specs.Files.{Files, GoesOn, IsQuiet, Leaves};
ghost use Rattle.smoothing.specs.Counts.{AreCounts};
ghost use Rattle.smoothing.specs.Fractions.{IsMu, dirichlet};
ghost use Rattle.smoothing.specs.declared.rule.RuleKind.TheVariants.{Dirichlet};
ghost use Rattle.command_pieces.specs.CommandFaults.{IsDamage, IsExistsFault};
ghost use Rattle.command_pieces.specs.Pieces.{StandsAlong, kept_behind};
ghost use Rattle.repository.specs.Names.{manifest_name};
ghost use Rattle.repository.specs.RealLimits.{StandsFor};
ghost use Rattle.repository.specs.Stands.{empty_collection};
ghost use Rattle.repository.specs.States.{IsStateIntact};
ghost use Rattle.collection_commands.specs.Ahead.{IsAhead};
ghost use Rattle.generated_events.specs.Events.{last_event};
ghost use Rattle.generated_events.specs.declared.generator.TheConstants.{MAX_GENERATED};
ghost use Rattle.script_reader.specs.declared.item.Item.TheVariants as item;
ghost use Rattle.desk.specs.Priors.{run_priors};
ghost use Rattle.indri_app.specs.Faults.{IsGenFault, IsSilentFault};
ghost use Rattle.indri_app.specs.Generated.{IsInOrder, gen_items};
ghost use Rattle.indri_app.specs.GeneratedTexts.{gen_text};
ghost use Rattle.indri_app.specs.Generation.{IsGenBroken, IsGenerated, IsMadeWith, StandsSome, StopsSome};
ghost use Rattle.indri_app.specs.Items.{pieces_of, state_behind_all};
ghost use Rattle.indri_app.specs.Opened.{IsWant};
ghost use Rattle.indri_app.specs.Orders.{IsTrueItem};
ghost use Rattle.indri_app.specs.Sessions.{begun};

use crate::creation::new_repository;
use crate::filling::make_and_ask;
use belief_nodes::BeliefNode;
use command_pieces::{CommandFault, Reply};
use command_words::DEFAULT_MU;
use desk::Desk;
use repository::Repository;
use ri_base::{Fraction, SegFault};
use ri_ends::Sink;
use smoothing::{Rule, RuleKind, dirichlet_fraction};
use std::alloc::Global;
use store_ends::Store;

/// Makes a generated collection in a repository in which nothing is, asks it, and answers what is to be written.
fn fill<T: Store>(
    alloc: Global,
    repository: Repository,
    mu: u32,
    count: u32,
    store: &mut T,
    plugs: &mut [Box<dyn BeliefNode>],
) -> Result<Vec<u8>, SegFault>
    requires usable { repository.usable ≡ true }
    requires none { repository.merge ≡ None }
    requires mu { IsMu mu }
    requires some { 1 ≤ count }
    requires few { count ≤ MAX_GENERATED }
    requires plugs { map (λ plug. meaning plug) plugs.old ≡ run_priors }
    ensures text { IsAhead (T.files store.old) repository empty_collection empty_collection
        → IfOk result (λ text. text.items ≡ gen_text count (state_behind_all (begun repository.held.limits (Dirichlet mu) empty_collection) (gen_items count))) }
    ensures order { IsAhead (T.files store.old) repository empty_collection empty_collection
        → OnOk result (IsTrueItem (state_behind_all (begun repository.held.limits (Dirichlet mu) empty_collection) (gen_items count)) (item.Event last_event)) }
    ensures done { IsAhead (T.files store.old) repository empty_collection empty_collection
        → OnOk result (StandsFor (kept_behind empty_collection (pieces_of (begun repository.held.limits (Dirichlet mu) empty_collection) (gen_items count))) (T.files store.new)) }

    // However it ends, and whenever it is stopped.
    ensures along { IsAhead (T.files store.old) repository empty_collection empty_collection
        → StandsAlong StandsFor empty_collection (pieces_of (begun repository.held.limits (Dirichlet mu) empty_collection) (gen_items count)) (T.files store.new) }
    ensures stops { IsAhead (T.files store.old) repository empty_collection empty_collection
        → Leaves (T.since store.old) (T.since store.new) (StandsAlong StandsFor empty_collection (pieces_of (begun repository.held.limits (Dirichlet mu) empty_collection) (gen_items count))) }

    ensures honest { IsAhead (T.files store.old) repository empty_collection empty_collection → IsStateIntact (T.files store.old) repository → IfErr result IsOutside }
    ensures goes_on { GoesOn T.layers T.clock T.longest T.held store.old store.new }
    ensures later { T.faults store.old ≤ T.faults store.new }
    ensures store { IsErrOf result SegFault.Store → Rose (T.faults store.old) (T.faults store.new) }
{
    let rule = Rule::new(
        RuleKind::Dirichlet { mu },
        |tf, len, cf, total| -> Fraction
            requires mu { IsMu mu }
            requires counts { AreCounts tf len cf total }
            ensures { ratio_of result ≡ dirichlet mu tf len cf total }
        { dirichlet_fraction(mu, tf, len, cf, total) },
    );
    let Ok(mut desk) = Desk::new(alloc, repository, rule) else {
        return Err(SegFault::Memory);
    };
    make_and_ask(alloc, &mut desk, count, store, plugs)
}

/// Makes a generated collection in a new repository, asks it, and answers what is to be written.
fn made_text<T: Store>(
    alloc: Global,
    count: u32,
    store: &mut T,
    plugs: &mut [Box<dyn BeliefNode>],
) -> Result<Vec<u8>, CommandFault>
    requires some { 1 ≤ count }
    requires few { count ≤ MAX_GENERATED }
    requires plugs { map (λ plug. meaning plug) plugs.old ≡ run_priors }

    // Where there is no manifest.
    ensures made { (f : Files) → T.files store.old ≡ Some f → (f manifest_name).read ≡ None → IfOk result (λ text. IsMadeWith count f text.items (T.files store.new)) }
    ensures along { (f : Files) → T.files store.old ≡ Some f → (f manifest_name).read ≡ None → StandsSome count f (T.files store.new) }
    ensures stops { (f : Files) → T.files store.old ≡ Some f → (f manifest_name).read ≡ None → StopsSome count f (T.since store.old) (T.since store.new) }
    ensures honest { (f : Files) → T.files store.old ≡ Some f → (f manifest_name).read ≡ None → IfErr result IsWant }

    // Where there is one.
    ensures exists { (f : Files) → T.files store.old ≡ Some f → IsTrue (is_some (f manifest_name).read) → IfErr result IsExistsFault × OnOk result ⊥ × IsQuiet T.files T.layers T.clock T.since T.longest T.held store.old store.new }
    ensures there { (f : Files) → T.files store.old ≡ Some f → IsErrOf result CommandFault.Exists → IsTrue (is_some (f manifest_name).read) }
    ensures same { IsErrOf result CommandFault.Exists → IsQuiet T.files T.layers T.clock T.since T.longest T.held store.old store.new }
    ensures only { IfErr result IsSilentFault }
    ensures goes_on { GoesOn T.layers T.clock T.longest T.held store.old store.new }
    ensures store { IsErrOf result CommandFault.Store → Rose (T.faults store.old) (T.faults store.new) }
    ensures store_later { T.faults store.old ≤ T.faults store.new }
{
    let repository = match new_repository(alloc, store) {
        Ok(repository) => repository,
        Err(fault) => return Err(fault),
    };
    match fill(alloc, repository, DEFAULT_MU, count, store, plugs) {
        Ok(text) => Ok(text),
        Err(fault) => Err(CommandFault::of_files(fault)),
    }
}

/// Makes a generated collection of so many documents in a new repository, asks it, and writes how much of it is live and the results.
pub fn generate<K: Sink, T: Store>(
    alloc: Global,
    count: u32,
    sink: &mut K,
    store: &mut T,
    plugs: &mut [Box<dyn BeliefNode>],
) -> Result<(), CommandFault>
    requires some { 1 ≤ count }
    requires few { count ≤ MAX_GENERATED }
    requires plugs { map (λ plug. meaning plug) plugs.old ≡ run_priors }

    // Where there is no manifest.
    ensures finished { (f : Files) → T.files store.old ≡ Some f → (f manifest_name).read ≡ None → OnOk result (IsGenerated count f (K.taken sink.old) (K.taken sink.new) (T.files store.new)) }
    ensures order { (f : Files) → T.files store.old ≡ Some f → (f manifest_name).read ≡ None → OnOk result (IsInOrder count) }
    ensures broken { (f : Files) → T.files store.old ≡ Some f → (f manifest_name).read ≡ None → IfErr result (λ fault. IsGenBroken fault count f (K.taken sink.old) (K.taken sink.new) (T.files store.new)) }
    ensures stops { (f : Files) → T.files store.old ≡ Some f → (f manifest_name).read ≡ None → StopsSome count f (T.since store.old) (T.since store.new) }
    ensures honest { (f : Files) → T.files store.old ≡ Some f → IfErr result (λ fault. IsDamage fault → ⊥) }

    // Where there is one.
    ensures exists { (f : Files) → T.files store.old ≡ Some f → IsTrue (is_some (f manifest_name).read) → IfErr result IsExistsFault × OnOk result ⊥
        × IsQuiet T.files T.layers T.clock T.since T.longest T.held store.old store.new × (K.taken sink.new ≡ K.taken sink.old) }
    ensures there { (f : Files) → T.files store.old ≡ Some f → IsErrOf result CommandFault.Exists → IsTrue (is_some (f manifest_name).read) }
    ensures same { IsErrOf result CommandFault.Exists → IsQuiet T.files T.layers T.clock T.since T.longest T.held store.old store.new × (K.taken sink.new ≡ K.taken sink.old) }

    ensures only { IfErr result IsGenFault }

    // Damage is found before anything is written.
    ensures damage { IfErr result (λ fault. IsDamage fault → K.taken sink.new ≡ K.taken sink.old) }
    ensures goes_on { GoesOn T.layers T.clock T.longest T.held store.old store.new }
    ensures write { IsErrOf result CommandFault.Write → Rose (K.faults sink.old) (K.faults sink.new) }
    ensures store { IsErrOf result CommandFault.Store → Rose (T.faults store.old) (T.faults store.new) }
    ensures write_later { K.faults sink.old ≤ K.faults sink.new }
    ensures store_later { T.faults store.old ≤ T.faults store.new }
{
    let text = match made_text(alloc, count, store, plugs) {
        Ok(text) => text,
        Err(fault) => return Err(fault),
    };
    match Reply::told(text).write(sink) {
        Ok(()) => Ok(()),
        Err(fault) => Err(CommandFault::of_items(fault)),
    }
}
