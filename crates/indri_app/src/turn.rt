// One item of a session.
ghost use Rattle.std.specs.Prelude.{◌≡◌, ◌≤◌, ◌⊎◌, ◌∷◌, [], Err, Some, false, length, map, IfErr, IfOk, IsErrOf, OnOk};
ghost use Rattle.ri_base.specs.Faults.{IsOutside};
ghost use Rattle.ri_ends.specs.Causes.{Rose};
ghost use Rattle.store_ends.specs.Files.{GoesOn, Leaves};
ghost use Rattle.smoothing.specs.Fractions.{Computes};
ghost use Rattle.command_pieces.specs.CommandFaults.{IsBrokenBy, IsDamage};
ghost use Rattle.command_pieces.specs.Pieces.{Finished, StandsAlong};
ghost use Rattle.refusals.specs.Lines.{refusal_piece};
ghost use Rattle.repository.specs.RealLimits.{StandsFor};
ghost use Rattle.repository.specs.Stands.{Collection};
ghost use Rattle.session_events.specs.Events.{IsSessionEvent};
ghost use Rattle.desk.specs.Replied.{IsReply, reply_piece};
ghost use Rattle.script_reader.specs.Held.{IsItem};
ghost use Rattle.script_reader.specs.State.{is_end};
ghost use Rattle.desk.specs.Backed.{IsDeskIntact, IsUsable, state_of};
ghost use Rattle.desk.specs.State.{State};
ghost use Rattle.indri_app.specs.Faults.{IsItemFault};
ghost use Rattle.indri_app.specs.Items.{IsNoEvent, item_piece, item_reply, kept_by, state_behind, unread_name, unread_reply};
ghost use Rattle.indri_app.specs.Orders.{IsTrueItem};
ghost use Rattle.indri_app.specs.Sessions.{Grows, IsUnderWay};

use belief_nodes::BeliefNode;
use command_pieces::{CommandFault, Reply as Piece};
use desk::{Desk, Reply, piece_of};
use refusals::{Refusal, placed_line, reply_of};
use ri_base::{Fraction, SegFault};
use ri_ends::Sink;
use script_reader::{Item, Unread};
use session_events::Event;
use std::alloc::Global;
use store_ends::Store;

/// The name of what is no event.
fn unread_name(kind: Unread) -> &'static [u8]
    ensures { result.now ≡ unread_name kind }
{
    match kind {
        Unread::BadEvent => b"BadEvent",
        Unread::LineTooLong => b"LineTooLong",
        Unread::ShortAdd => b"ShortAdd",
    }
}

/// Says that something at this place is no event.
fn tell_unread(alloc: Global, kind: Unread, place: u64) -> Result<Piece, SegFault>
    ensures piece { IfOk result (λ piece. piece ≡ unread_reply kind place) }
    ensures only { IfErr result (λ fault. fault ≡ SegFault.Memory) }
{
    match placed_line(alloc, unread_name(kind), place) {
        Ok(line) => Ok(Piece::refused(line)),
        Err(_) => Err(SegFault::Memory),
    }
}

/// Says why a part of an `add` is refused.
fn tell_refusal(alloc: Global, refusal: &Refusal) -> Result<Piece, SegFault>
    ensures piece { IfOk result (λ piece. piece ≡ refusal_piece refusal.now) }
    ensures only { IfErr result (λ fault. fault ≡ SegFault.Memory) }
{
    match reply_of(alloc, refusal) {
        Ok(piece) => Ok(piece),
        Err(_) => Err(SegFault::Memory),
    }
}

/// Says what is said of an item that is no event.
fn tell_other(alloc: Global, item: Item) -> Result<Piece, SegFault>
    requires { IsNoEvent item }
    ensures piece { IfOk result (λ piece. (s : State) → piece ≡ item_reply s item) }
    ensures only { IfErr result (λ fault. fault ≡ SegFault.Memory) }
{
    match item {
        Item::Unread { kind, place } => tell_unread(alloc, kind, place),
        Item::Trec(refusal) => tell_refusal(alloc, &Refusal::Input(refusal)),
        Item::Token(refusal) => tell_refusal(alloc, &Refusal::Document(refusal)),
        Item::Event(_) => unreachable!(),
    }
}

/// Says what is replied to an event.
fn tell_reply(alloc: Global, reply: &Reply) -> Result<Piece, SegFault>
    requires { IsReply reply.now }
    ensures piece { IfOk result (λ piece. piece ≡ reply_piece reply.now) }
    ensures only { IfErr result (λ fault. fault ≡ SegFault.Memory) }
{
    match piece_of(alloc, reply) {
        Ok(piece) => Ok(piece),
        Err(_) => Err(SegFault::Memory),
    }
}

/// Does what an event asks for. The answer is the piece of its reply.
pub(crate) fn do_event<F: Fn(u32, u32, u64, u64) -> Fraction, T: Store>(
    alloc: Global,
    desk: &mut Desk<F>,
    event: Event,
    store: &mut T,
    plugs: &mut [Box<dyn BeliefNode>],
) -> Result<Piece, SegFault>
    requires usable { IsUsable desk.old.kept }
    requires rule { Computes F.pre F.post desk.old.rule.kind desk.old.rule.f }
    requires form { IsSessionEvent event }
    requires nine { length plugs.old ≡ 9 }
    ensures reply { (kept : Collection) → IsUnderWay (T.files store.old) desk.old.kept (map (λ plug. meaning plug) plugs.old) kept
        → IfOk result (λ piece. piece ≡ item_reply (state_of (T.files store.old) desk.old.kept) (Item.Event event)) }
    ensures state { (kept : Collection) → IsUnderWay (T.files store.old) desk.old.kept (map (λ plug. meaning plug) plugs.old) kept
        → OnOk result (state_of (T.files store.new) desk.new.kept ≡ state_behind (state_of (T.files store.old) desk.old.kept) (Item.Event event)) }
    ensures way { (kept : Collection) → IsUnderWay (T.files store.old) desk.old.kept (map (λ plug. meaning plug) plugs.old) kept
        → OnOk result (IsUnderWay (T.files store.new) desk.new.kept (map (λ plug. meaning plug) plugs.new) (kept_by kept (state_of (T.files store.old) desk.old.kept) (Item.Event event))) }
    ensures order { (kept : Collection) → IsUnderWay (T.files store.old) desk.old.kept (map (λ plug. meaning plug) plugs.old) kept
        → OnOk result (IsTrueItem (state_of (T.files store.old) desk.old.kept) (Item.Event event)) }
    ensures now { (kept : Collection) → IsUnderWay (T.files store.old) desk.old.kept (map (λ plug. meaning plug) plugs.old) kept
        → StandsFor kept (T.files store.new) ⊎ StandsFor (kept_by kept (state_of (T.files store.old) desk.old.kept) (Item.Event event)) (T.files store.new) }
    ensures stops { (kept : Collection) → IsUnderWay (T.files store.old) desk.old.kept (map (λ plug. meaning plug) plugs.old) kept
        → Leaves (T.since store.old) (T.since store.new) (λ f. StandsFor kept f ⊎ StandsFor (kept_by kept (state_of (T.files store.old) desk.old.kept) (Item.Event event)) f) }
    ensures intact { (kept : Collection) → IsUnderWay (T.files store.old) desk.old.kept (map (λ plug. meaning plug) plugs.old) kept
        → IsDeskIntact (T.files store.old) desk.old.kept → OnOk result (IsDeskIntact (T.files store.new) desk.new.kept) }
    ensures honest { (kept : Collection) → IsUnderWay (T.files store.old) desk.old.kept (map (λ plug. meaning plug) plugs.old) kept → IsDeskIntact (T.files store.old) desk.old.kept → IfErr result IsOutside }
    ensures usable { OnOk result (is_end (Some (Item.Event event)) ≡ false → IsUsable desk.new.kept) }
    ensures rule { desk.new.rule ≡ desk.old.rule }
    ensures stay { map (λ plug. meaning plug) plugs.new ≡ map (λ plug. meaning plug) plugs.old }
    ensures nine { length plugs.new ≡ 9 }
    ensures goes_on { GoesOn T.layers T.clock T.longest T.held store.old store.new }
    ensures later { T.faults store.old ≤ T.faults store.new }
    ensures store { result ≡ Err SegFault.Store → Rose (T.faults store.old) (T.faults store.new) }
{
    match desk.event(alloc, event, store, plugs) {
        Ok(reply) => tell_reply(alloc, &reply),
        Err(fault) => Err(fault),
    }
}

/// Does what an item asks for. The answer is the piece of what is said of it.
fn do_item<F: Fn(u32, u32, u64, u64) -> Fraction, T: Store>(
    alloc: Global,
    desk: &mut Desk<F>,
    item: Item,
    store: &mut T,
    plugs: &mut [Box<dyn BeliefNode>],
) -> Result<Piece, SegFault>
    requires usable { IsUsable desk.old.kept }
    requires rule { Computes F.pre F.post desk.old.rule.kind desk.old.rule.f }
    requires form { IsItem item }
    requires nine { length plugs.old ≡ 9 }
    ensures reply { (kept : Collection) → IsUnderWay (T.files store.old) desk.old.kept (map (λ plug. meaning plug) plugs.old) kept
        → IfOk result (λ piece. piece ≡ item_reply (state_of (T.files store.old) desk.old.kept) item) }
    ensures state { (kept : Collection) → IsUnderWay (T.files store.old) desk.old.kept (map (λ plug. meaning plug) plugs.old) kept
        → OnOk result (state_of (T.files store.new) desk.new.kept ≡ state_behind (state_of (T.files store.old) desk.old.kept) item) }
    ensures way { (kept : Collection) → IsUnderWay (T.files store.old) desk.old.kept (map (λ plug. meaning plug) plugs.old) kept
        → OnOk result (IsUnderWay (T.files store.new) desk.new.kept (map (λ plug. meaning plug) plugs.new) (kept_by kept (state_of (T.files store.old) desk.old.kept) item)) }
    ensures order { (kept : Collection) → IsUnderWay (T.files store.old) desk.old.kept (map (λ plug. meaning plug) plugs.old) kept
        → OnOk result (IsTrueItem (state_of (T.files store.old) desk.old.kept) item) }
    ensures now { (kept : Collection) → IsUnderWay (T.files store.old) desk.old.kept (map (λ plug. meaning plug) plugs.old) kept
        → StandsFor kept (T.files store.new) ⊎ StandsFor (kept_by kept (state_of (T.files store.old) desk.old.kept) item) (T.files store.new) }
    ensures stops { (kept : Collection) → IsUnderWay (T.files store.old) desk.old.kept (map (λ plug. meaning plug) plugs.old) kept
        → Leaves (T.since store.old) (T.since store.new) (λ f. StandsFor kept f ⊎ StandsFor (kept_by kept (state_of (T.files store.old) desk.old.kept) item) f) }
    ensures intact { (kept : Collection) → IsUnderWay (T.files store.old) desk.old.kept (map (λ plug. meaning plug) plugs.old) kept
        → IsDeskIntact (T.files store.old) desk.old.kept → OnOk result (IsDeskIntact (T.files store.new) desk.new.kept) }
    ensures honest { (kept : Collection) → IsUnderWay (T.files store.old) desk.old.kept (map (λ plug. meaning plug) plugs.old) kept → IsDeskIntact (T.files store.old) desk.old.kept → IfErr result IsOutside }
    ensures usable { OnOk result (is_end (Some item) ≡ false → IsUsable desk.new.kept) }
    ensures rule { desk.new.rule ≡ desk.old.rule }
    ensures stay { map (λ plug. meaning plug) plugs.new ≡ map (λ plug. meaning plug) plugs.old }
    ensures nine { length plugs.new ≡ 9 }
    ensures goes_on { GoesOn T.layers T.clock T.longest T.held store.old store.new }
    ensures later { T.faults store.old ≤ T.faults store.new }
    ensures store { result ≡ Err SegFault.Store → Rose (T.faults store.old) (T.faults store.new) }
{
    match item {
        Item::Event(event) => do_event(alloc, desk, event, store, plugs),
        other => tell_other(alloc, other),
    }
}

/// Does what an item asks for, and writes what is said of it. The answer is whether it is refused.
pub(crate) fn take_item<F: Fn(u32, u32, u64, u64) -> Fraction, K: Sink, T: Store>(
    alloc: Global,
    desk: &mut Desk<F>,
    item: Item,
    sink: &mut K,
    store: &mut T,
    plugs: &mut [Box<dyn BeliefNode>],
) -> Result<bool, CommandFault>
    requires usable { IsUsable desk.old.kept }
    requires rule { Computes F.pre F.post desk.old.rule.kind desk.old.rule.f }
    requires form { IsItem item }
    requires nine { length plugs.old ≡ 9 }

    // The desk reads as the state behind the item, and what is written is its piece.
    ensures refused { (kept : Collection) → IsUnderWay (T.files store.old) desk.old.kept (map (λ plug. meaning plug) plugs.old) kept
        → IfOk result (λ refused. refused ≡ (item_piece (state_of (T.files store.old) desk.old.kept) item).is_refusal) }
    ensures state { (kept : Collection) → IsUnderWay (T.files store.old) desk.old.kept (map (λ plug. meaning plug) plugs.old) kept
        → OnOk result (state_of (T.files store.new) desk.new.kept ≡ state_behind (state_of (T.files store.old) desk.old.kept) item) }
    ensures way { (kept : Collection) → IsUnderWay (T.files store.old) desk.old.kept (map (λ plug. meaning plug) plugs.old) kept
        → OnOk result (IsUnderWay (T.files store.new) desk.new.kept (map (λ plug. meaning plug) plugs.new) (kept_by kept (state_of (T.files store.old) desk.old.kept) item)) }
    ensures order { (kept : Collection) → IsUnderWay (T.files store.old) desk.old.kept (map (λ plug. meaning plug) plugs.old) kept
        → OnOk result (IsTrueItem (state_of (T.files store.old) desk.old.kept) item) }
    ensures finished { (kept : Collection) → IsUnderWay (T.files store.old) desk.old.kept (map (λ plug. meaning plug) plugs.old) kept
        → OnOk result (Finished StandsFor kept (item_piece (state_of (T.files store.old) desk.old.kept) item ∷ []) (K.taken sink.old) (K.taken sink.new) (T.files store.new)) }
    ensures broken { (kept : Collection) → IsUnderWay (T.files store.old) desk.old.kept (map (λ plug. meaning plug) plugs.old) kept
        → IfErr result (λ why. IsBrokenBy why StandsFor kept (item_piece (state_of (T.files store.old) desk.old.kept) item ∷ []) (K.taken sink.old) (K.taken sink.new) (T.files store.new)) }
    ensures stops { (kept : Collection) → IsUnderWay (T.files store.old) desk.old.kept (map (λ plug. meaning plug) plugs.old) kept
        → Leaves (T.since store.old) (T.since store.new) (StandsAlong StandsFor kept (item_piece (state_of (T.files store.old) desk.old.kept) item ∷ [])) }

    ensures intact { (kept : Collection) → IsUnderWay (T.files store.old) desk.old.kept (map (λ plug. meaning plug) plugs.old) kept
        → IsDeskIntact (T.files store.old) desk.old.kept → OnOk result (IsDeskIntact (T.files store.new) desk.new.kept) }
    ensures honest { (kept : Collection) → IsUnderWay (T.files store.old) desk.old.kept (map (λ plug. meaning plug) plugs.old) kept
        → IsDeskIntact (T.files store.old) desk.old.kept → IfErr result (λ why. IsDamage why → ⊥) }

    // Whatever the files are.
    ensures grows { Grows (K.taken sink.old) (K.taken sink.new) }
    ensures usable { OnOk result (is_end (Some item) ≡ false → IsUsable desk.new.kept) }
    ensures rule { desk.new.rule ≡ desk.old.rule }
    ensures stay { map (λ plug. meaning plug) plugs.new ≡ map (λ plug. meaning plug) plugs.old }
    ensures nine { length plugs.new ≡ 9 }
    ensures only { IfErr result IsItemFault }
    ensures goes_on { GoesOn T.layers T.clock T.longest T.held store.old store.new }
    ensures write { IsErrOf result CommandFault.Write → Rose (K.faults sink.old) (K.faults sink.new) }
    ensures store { IsErrOf result CommandFault.Store → Rose (T.faults store.old) (T.faults store.new) }
    ensures write_later { K.faults sink.old ≤ K.faults sink.new }
    ensures store_later { T.faults store.old ≤ T.faults store.new }
{
    let piece = match do_item(alloc, desk, item, store, plugs) {
        Ok(piece) => piece,
        Err(fault) => return Err(CommandFault::of_files(fault)),
    };
    match piece.write(sink) {
        Ok(()) => Ok(piece.is_refusal()),
        Err(fault) => Err(CommandFault::of_items(fault)),
    }
}
