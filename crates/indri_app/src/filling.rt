// A generated collection is made and asked at a desk.
ghost use Rattle.std.specs.Prelude.{◌≡◌, ◌≤◌, ◌++◌, Err, length, map, IfErr, IfOk, OnOk};
ghost use Rattle.ri_base.specs.Faults.{IsOutside};
ghost use Rattle.ri_base.specs.Keeps.{Rose};
ghost use Rattle.store_ends.specs.Files.{GoesOn, IsQuiet, Leaves};
ghost use Rattle.smoothing.specs.Fractions.{Computes};
ghost use Rattle.command_pieces.specs.Pieces.{StandsAlong, kept_behind};
ghost use Rattle.repository.specs.RealLimits.{StandsFor};
ghost use Rattle.repository.specs.Stands.{Collection};
ghost use Rattle.generated_events.specs.Documents.{kept_documents};
ghost use Rattle.generated_events.specs.Events.{last_event};
ghost use Rattle.generated_events.specs.declared.generator.TheConstants.{MAX_GENERATED};
ghost use Rattle.script_reader.specs.declared.item.Item.TheVariants as item;
ghost use Rattle.desk.specs.Backed.{IsDeskIntact, IsUsable, state_of};
ghost use Rattle.desk.specs.Replied.{IsReply};
ghost use Rattle.desk.specs.Step.{step};
ghost use Rattle.desk.specs.Told.{Shows};
ghost use Rattle.indri_app.specs.Generated.{gen_items};
ghost use Rattle.indri_app.specs.GeneratedTexts.{summary_text, told_lines};
ghost use Rattle.indri_app.specs.Items.{pieces_of, state_behind_all};
ghost use Rattle.indri_app.specs.Orders.{IsTrueItem};
ghost use Rattle.indri_app.specs.Sessions.{IsUnderWay};

use crate::generated_text::gen_text;
use crate::turn::do_event;
use belief_nodes::BeliefNode;
use desk::{Desk, Reply};
use generated_events::{Generator, query_name};
use ri_base::{Fraction, SegFault};
use session_events::Event;
use std::alloc::Global;
use store_ends::Store;

/// Does all events of a generated collection that come before its results are shown. What is replied is let go.
fn do_events<F: Fn(u32, u32, u64, u64) -> Fraction, T: Store>(
    alloc: Global,
    desk: &mut Desk<F>,
    count: u32,
    store: &mut T,
    plugs: &mut [Box<dyn BeliefNode>],
) -> Result<(), SegFault>
    requires usable { IsUsable desk.old.kept }
    requires rule { Computes F.pre F.post desk.old.rule.kind desk.old.rule.f }
    requires some { 1 ≤ count }
    requires few { count ≤ MAX_GENERATED }
    requires nine { length plugs.old ≡ 9 }
    ensures state { (kept : Collection) → IsUnderWay (T.files store.old) desk.old.kept (map (λ plug. meaning plug) plugs.old) kept
        → OnOk result (state_of (T.files store.new) desk.new.kept ≡ state_behind_all (state_of (T.files store.old) desk.old.kept) (gen_items count)) }
    ensures way { (kept : Collection) → IsUnderWay (T.files store.old) desk.old.kept (map (λ plug. meaning plug) plugs.old) kept
        → OnOk result (IsUnderWay (T.files store.new) desk.new.kept (map (λ plug. meaning plug) plugs.new) (kept_behind kept (pieces_of (state_of (T.files store.old) desk.old.kept) (gen_items count)))) }

    // However it ends, and whenever it is stopped.
    ensures along { (kept : Collection) → IsUnderWay (T.files store.old) desk.old.kept (map (λ plug. meaning plug) plugs.old) kept
        → StandsAlong StandsFor kept (pieces_of (state_of (T.files store.old) desk.old.kept) (gen_items count)) (T.files store.new) }
    ensures stops { (kept : Collection) → IsUnderWay (T.files store.old) desk.old.kept (map (λ plug. meaning plug) plugs.old) kept
        → Leaves (T.since store.old) (T.since store.new) (StandsAlong StandsFor kept (pieces_of (state_of (T.files store.old) desk.old.kept) (gen_items count))) }

    ensures usable { OnOk result (IsUsable desk.new.kept) }
    ensures rule { desk.new.rule ≡ desk.old.rule }
    ensures stay { map (λ plug. meaning plug) plugs.new ≡ map (λ plug. meaning plug) plugs.old }
    ensures nine { length plugs.new ≡ 9 }
    ensures intact { (kept : Collection) → IsUnderWay (T.files store.old) desk.old.kept (map (λ plug. meaning plug) plugs.old) kept
        → IsDeskIntact (T.files store.old) desk.old.kept → OnOk result (IsDeskIntact (T.files store.new) desk.new.kept) }
    ensures honest { (kept : Collection) → IsUnderWay (T.files store.old) desk.old.kept (map (λ plug. meaning plug) plugs.old) kept → IsDeskIntact (T.files store.old) desk.old.kept → IfErr result IsOutside }
    ensures goes_on { GoesOn T.layers T.clock T.longest T.held store.old store.new }
    ensures later { T.faults store.old ≤ T.faults store.new }
    ensures store { result ≡ Err SegFault.Store → Rose (T.faults store.old) (T.faults store.new) }
{
    let mut generator = Generator::new(count);
    'events: loop {
        match generator.next_event(alloc) {
            Ok(Some(event)) => match do_event(alloc, desk, event, store, plugs) {
                Ok(_) => {}
                Err(fault) => return Err(fault),
            },
            Ok(None) => return Ok(()),
            Err(_) => return Err(SegFault::Memory),
        }
    }
}

/// What the query of a generated collection shows.
fn show<F: Fn(u32, u32, u64, u64) -> Fraction, T: Store>(
    alloc: Global,
    desk: &mut Desk<F>,
    store: &mut T,
    plugs: &mut [Box<dyn BeliefNode>],
) -> Result<Reply, SegFault>
    requires usable { IsUsable desk.old.kept }
    requires rule { Computes F.pre F.post desk.old.rule.kind desk.old.rule.f }
    requires nine { length plugs.old ≡ 9 }
    ensures shows { (kept : Collection) → IsUnderWay (T.files store.old) desk.old.kept (map (λ plug. meaning plug) plugs.old) kept
        → IfOk result (λ reply. Shows (step (state_of (T.files store.old) desk.old.kept) last_event).1 reply) }
    ensures order { (kept : Collection) → IsUnderWay (T.files store.old) desk.old.kept (map (λ plug. meaning plug) plugs.old) kept
        → OnOk result (IsTrueItem (state_of (T.files store.old) desk.old.kept) (item.Event last_event)) }
    ensures form { IfOk result IsReply }
    ensures quiet { IsQuiet T.files T.layers T.clock T.since T.longest T.held store.old store.new }
    ensures stay { map (λ plug. meaning plug) plugs.new ≡ map (λ plug. meaning plug) plugs.old }
    ensures honest { (kept : Collection) → IsUnderWay (T.files store.old) desk.old.kept (map (λ plug. meaning plug) plugs.old) kept → IsDeskIntact (T.files store.old) desk.old.kept → IfErr result IsOutside }
    ensures later { T.faults store.old ≤ T.faults store.new }
    ensures store { result ≡ Err SegFault.Store → Rose (T.faults store.old) (T.faults store.new) }
{
    let Ok(name) = query_name(alloc) else {
        return Err(SegFault::Memory);
    };
    desk.event(alloc, Event::Show(name), store, plugs)
}

/// Makes a generated collection at a desk, asks it, and answers what is to be written.
pub(crate) fn make_and_ask<F: Fn(u32, u32, u64, u64) -> Fraction, T: Store>(
    alloc: Global,
    desk: &mut Desk<F>,
    count: u32,
    store: &mut T,
    plugs: &mut [Box<dyn BeliefNode>],
) -> Result<Vec<u8>, SegFault>
    requires usable { IsUsable desk.old.kept }
    requires rule { Computes F.pre F.post desk.old.rule.kind desk.old.rule.f }
    requires some { 1 ≤ count }
    requires few { count ≤ MAX_GENERATED }
    requires nine { length plugs.old ≡ 9 }
    ensures text { (kept : Collection) → IsUnderWay (T.files store.old) desk.old.kept (map (λ plug. meaning plug) plugs.old) kept
        → IfOk result (λ text. text.items ≡ summary_text count (kept_documents count) ++ told_lines (step (state_behind_all (state_of (T.files store.old) desk.old.kept) (gen_items count)) last_event).1) }
    ensures order { (kept : Collection) → IsUnderWay (T.files store.old) desk.old.kept (map (λ plug. meaning plug) plugs.old) kept
        → OnOk result (IsTrueItem (state_behind_all (state_of (T.files store.old) desk.old.kept) (gen_items count)) (item.Event last_event)) }
    ensures done { (kept : Collection) → IsUnderWay (T.files store.old) desk.old.kept (map (λ plug. meaning plug) plugs.old) kept
        → OnOk result (StandsFor (kept_behind kept (pieces_of (state_of (T.files store.old) desk.old.kept) (gen_items count))) (T.files store.new)) }

    // However it ends, and whenever it is stopped.
    ensures along { (kept : Collection) → IsUnderWay (T.files store.old) desk.old.kept (map (λ plug. meaning plug) plugs.old) kept
        → StandsAlong StandsFor kept (pieces_of (state_of (T.files store.old) desk.old.kept) (gen_items count)) (T.files store.new) }
    ensures stops { (kept : Collection) → IsUnderWay (T.files store.old) desk.old.kept (map (λ plug. meaning plug) plugs.old) kept
        → Leaves (T.since store.old) (T.since store.new) (StandsAlong StandsFor kept (pieces_of (state_of (T.files store.old) desk.old.kept) (gen_items count))) }

    ensures stay { map (λ plug. meaning plug) plugs.new ≡ map (λ plug. meaning plug) plugs.old }
    ensures honest { (kept : Collection) → IsUnderWay (T.files store.old) desk.old.kept (map (λ plug. meaning plug) plugs.old) kept → IsDeskIntact (T.files store.old) desk.old.kept → IfErr result IsOutside }
    ensures goes_on { GoesOn T.layers T.clock T.longest T.held store.old store.new }
    ensures later { T.faults store.old ≤ T.faults store.new }
    ensures store { result ≡ Err SegFault.Store → Rose (T.faults store.old) (T.faults store.new) }
{
    match do_events(alloc, desk, count, store, plugs) {
        Ok(()) => {}
        Err(fault) => return Err(fault),
    }
    let reply = match show(alloc, desk, store, plugs) {
        Ok(reply) => reply,
        Err(fault) => return Err(fault),
    };
    match gen_text(alloc, count, reply) {
        Ok(text) => Ok(text),
        Err(_) => Err(SegFault::Memory),
    }
}
