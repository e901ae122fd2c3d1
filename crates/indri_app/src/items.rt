// All items of a script.
ghost use Rattle.std.specs.Prelude.{◌≡◌, ◌≤◌, length, map, IfErr, IfOk, IfSome, IsErrOf, OnOk};
ghost use Rattle.ri_ends.specs.Causes.{Rose};
ghost use Rattle.store_ends.specs.Files.{GoesOn, Leaves};
ghost use Rattle.smoothing.specs.Fractions.{Computes};
ghost use Rattle.command_pieces.specs.CommandFaults.{IsBrokenBy, IsDamage};
ghost use Rattle.command_pieces.specs.Pieces.{Finished, StandsAlong, some_refused};
ghost use Rattle.repository.specs.RealLimits.{StandsFor};
ghost use Rattle.repository.specs.Stands.{Collection};
ghost use Rattle.script_reader.specs.Items.{items};
ghost use Rattle.desk.specs.Backed.{IsDeskIntact, IsUsable, state_of};
ghost use Rattle.desk.specs.State.{collection_of};
ghost use Rattle.indri_app.specs.Faults.{IsSessionFault};
ghost use Rattle.indri_app.specs.Items.{pieces_of, state_behind_all};
ghost use Rattle.indri_app.specs.Orders.{AreTrue};
ghost use Rattle.indri_app.specs.Sessions.{Grows, IsUnderWay};

use crate::turn::take_item;
use belief_nodes::BeliefNode;
use command_pieces::CommandFault;
use desk::Desk;
use read_ahead::InputFault;
use ri_base::Fraction;
use ri_ends::{Sink, Source};
use script_reader::ItemReader;
use std::alloc::Global;
use store_ends::Store;

/// Does what all items of a script ask for, and writes what is said of each. The answer is whether something is refused.
pub fn take_items<F: Fn(u32, u32, u64, u64) -> Fraction, S: Source, K: Sink, T: Store>(
    alloc: Global,
    desk: &mut Desk<F>,
    source: &mut S,
    sink: &mut K,
    store: &mut T,
    plugs: &mut [Box<dyn BeliefNode>],
) -> Result<bool, CommandFault>
    requires usable { IsUsable desk.old.kept }
    requires rule { Computes F.pre F.post desk.old.rule.kind desk.old.rule.f }
    requires nine { length plugs.old ≡ 9 }

    // Over files that stand for a collection: what is written, and what the files stand for, are those of the items one behind the other.
    ensures refused { (kept : Collection) → IsUnderWay (T.files store.old) desk.old.kept (map (λ plug. meaning plug) plugs.old) kept
        → IfOk result (λ refused. IfSome (S.left source.old) (λ bytes. some_refused (pieces_of (state_of (T.files store.old) desk.old.kept) (items bytes)) ≡ refused)) }
    ensures finished { (kept : Collection) → IsUnderWay (T.files store.old) desk.old.kept (map (λ plug. meaning plug) plugs.old) kept
        → OnOk result (IfSome (S.left source.old) (λ bytes. Finished StandsFor kept (pieces_of (state_of (T.files store.old) desk.old.kept) (items bytes)) (K.taken sink.old) (K.taken sink.new) (T.files store.new))) }
    ensures stands { (kept : Collection) → IsUnderWay (T.files store.old) desk.old.kept (map (λ plug. meaning plug) plugs.old) kept
        → OnOk result (IfSome (S.left source.old) (λ bytes. StandsFor (collection_of (state_behind_all (state_of (T.files store.old) desk.old.kept) (items bytes))) (T.files store.new))) }
    ensures order { (kept : Collection) → IsUnderWay (T.files store.old) desk.old.kept (map (λ plug. meaning plug) plugs.old) kept
        → OnOk result (IfSome (S.left source.old) (λ bytes. AreTrue (state_of (T.files store.old) desk.old.kept) (items bytes))) }
    ensures broken { (kept : Collection) → IsUnderWay (T.files store.old) desk.old.kept (map (λ plug. meaning plug) plugs.old) kept
        → IfErr result (λ why. IfSome (S.left source.old) (λ bytes. IsBrokenBy why StandsFor kept (pieces_of (state_of (T.files store.old) desk.old.kept) (items bytes)) (K.taken sink.old) (K.taken sink.new) (T.files store.new))) }
    ensures honest { (kept : Collection) → IsUnderWay (T.files store.old) desk.old.kept (map (λ plug. meaning plug) plugs.old) kept
        → IsDeskIntact (T.files store.old) desk.old.kept → IfErr result (λ why. IsDamage why → ⊥) }
    ensures stops { (kept : Collection) → IsUnderWay (T.files store.old) desk.old.kept (map (λ plug. meaning plug) plugs.old) kept
        → IfSome (S.left source.old) (λ bytes. Leaves (T.since store.old) (T.since store.new) (StandsAlong StandsFor kept (pieces_of (state_of (T.files store.old) desk.old.kept) (items bytes)))) }

    // Whatever the files are.
    ensures grows { Grows (K.taken sink.old) (K.taken sink.new) }
    ensures stay { map (λ plug. meaning plug) plugs.new ≡ map (λ plug. meaning plug) plugs.old }
    ensures only { IfErr result IsSessionFault }
    ensures goes_on { GoesOn T.layers T.clock T.longest T.held store.old store.new }
    ensures layers { S.layers source.new ≡ S.layers source.old }
    ensures held { S.held source.new ≡ S.held source.old }
    ensures read { IsErrOf result CommandFault.Read → Rose (S.faults source.old) (S.faults source.new) }
    ensures write { IsErrOf result CommandFault.Write → Rose (K.faults sink.old) (K.faults sink.new) }
    ensures store { IsErrOf result CommandFault.Store → Rose (T.faults store.old) (T.faults store.new) }
    ensures read_later { S.faults source.old ≤ S.faults source.new }
    ensures write_later { K.faults sink.old ≤ K.faults sink.new }
    ensures store_later { T.faults store.old ≤ T.faults store.new }
{
    let Ok(mut reader) = ItemReader::new(alloc) else {
        return Err(CommandFault::Memory);
    };
    let mut some_refused = false;
    'items: loop {
        let item = match reader.next_item(source) {
            Ok(Some(item)) => item,
            Ok(None) => return Ok(some_refused),
            Err(InputFault::Read) => return Err(CommandFault::Read),
            Err(InputFault::Memory) => return Err(CommandFault::Memory),
        };
        match take_item(alloc, desk, item, sink, store, plugs) {
            Ok(refused) => some_refused |= refused,
            Err(fault) => return Err(fault),
        }
    }
}
