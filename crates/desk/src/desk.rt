// A desk over a repository.
ghost use Rattle.std.specs.Prelude.{◌≡◌, ◌≤◌, ◌&&◌, [], Option, Err, true, false, not, length, map, OnOk, OnErr, IfOk, IfErr, IfSome};
ghost use Rattle.ri_base.specs.Faults.{IsOutside, TellsDamage};
ghost use Rattle.ri_base.specs.Keeps.{Rose};
ghost use Rattle.store_ends.specs.Files.{Files, GoesOn, IsQuiet, Leaves};
ghost use Rattle.session_events.specs.Events.{IsSessionEvent, is_end};
ghost use Rattle.smoothing.specs.Fractions.{Computes};
ghost use Rattle.disk_index.specs.Snapshots.{AreIntact};
ghost use Rattle.repository.specs.Stands.{Collection, Stands};
ghost use Rattle.repository.specs.States.{IsBacked};
ghost use Rattle.repository.specs.Writes.{AreGone, IsEither};
ghost use Rattle.desk.specs.Backed.{IsDeskBacked, IsDeskIntact, IsMergeBacked, IsUsable, Steps, state_of};
ghost use Rattle.desk.specs.Keeping.{StaysIfRefused};
ghost use Rattle.desk.specs.Points.{is_inside, kept_behind, may_write, needs_hits};
ghost use Rattle.desk.specs.Queries.{priors_in};
ghost use Rattle.desk.specs.Replied.{IsReply};
ghost use Rattle.desk.specs.Orders.{IsTrueReply};
ghost use Rattle.desk.specs.Plugs.{ArePlugs};
ghost use Rattle.desk.specs.Step.{step};
ghost use Rattle.desk.specs.Told.{RefusesAs, reply_early, told_early};

use crate::Reply;
use crate::kept::Kept;
use belief_nodes::BeliefNode;
use repository::Repository;
use ri_base::{Fraction, NoMemory, SegFault};
use session_events::Event;
use smoothing::Rule;
use std::alloc::Global;
use store_ends::Store;

/// A desk over a repository, with its rule.
pub struct Desk<F> {
    rule: Rule<F>,
    kept: Kept,
    ghost same_kind: { kept.kind ≡ rule.kind },
}

impl<F: Drop> Drop for Desk<F> {
    fn drop(self) {
        let Desk { rule, kept } = self;
        drop(rule);
        drop(kept);
    }
}

impl<F: Fn(u32, u32, u64, u64) -> Fraction> Desk<F> {
    /// A desk over a repository, with nothing open.
    pub fn new(alloc: Global, repository: Repository, rule: Rule<F>) -> Result<Desk<F>, NoMemory>
        requires usable { repository.usable ≡ true }
        requires rule { Computes F.pre F.post rule.kind rule.f }
        ensures usable { IfOk result (λ d. IsUsable d.kept) }
        ensures rule { IfOk result (λ d. d.rule ≡ rule) }
        ensures repository { IfOk result (λ d. d.kept.repository ≡ repository) }
        ensures queries { IfOk result (λ d. d.kept.queries ≡ []) }
        ensures backed { (told : Option Files) → IsBacked told repository → IfSome repository.merge (IsMergeBacked told repository) → IfOk result (λ d. IsDeskBacked told d.kept) }
        ensures intact { (told : Option Files) → AreIntact told repository.held.parts.closed → IfSome repository.merge (λ m. AreIntact told m.snapshot) → IfOk result (λ d. IsDeskIntact told d.kept) }
    {
        let kept = Kept::new(alloc, repository, rule.kind)?;
        Ok(Desk { rule, kept })
    }

    /// Whether it may be used: not after an `Err`, and not after the end.
    pub fn usable(&self) -> bool
        ensures { result ≡ (self.now.kept.usable && self.now.kept.repository.usable) }
    {
        self.kept.usable()
    }

    /// Does what an event asks for.
    pub fn event<T: Store>(
        &mut self,
        alloc: Global,
        event: Event,
        store: &mut T,
        plugs: &mut [Box<dyn BeliefNode>],
    ) -> Result<Reply, SegFault>
        requires usable { IsUsable self.old.kept }
        requires rule { Computes F.pre F.post self.old.rule.kind self.old.rule.f }
        requires form { IsSessionEvent event }
        requires nine { length plugs.old ≡ 9 }

        // Over a store by whose files the desk is backed, and with the plugs of its priors, the event is one step of the state that the
        // desk reads as, together with the files as they are now. The desk is backed again.
        ensures steps { IfOk result (λ reply. IsDeskBacked (T.files store.old) self.old.kept → ArePlugs (priors_in (T.files store.old) self.old.kept.repository.priors) (map (λ plug. meaning plug) plugs.old)
            → Steps event (T.files store.old) (T.files store.new) self.old.kept self.new.kept reply) }

        // The order of results that are shown is true of the beliefs behind them.
        ensures order { IfOk result (λ reply. IsDeskBacked (T.files store.old) self.old.kept → IsTrueReply (state_of (T.files store.old) self.old.kept) event reply) }
        ensures form { IfOk result IsReply }

        // Whatever the files are, it is refused just where the definition says. Of an explanation only the refusal of a rank rests on them.
        ensures refuses { needs_hits event ≡ false → IfOk result (λ reply. (told : Option Files) → RefusesAs reply (step (state_of told self.old.kept) event).1) }
        ensures early { IfOk result (λ reply. (told : Option Files) → reply_early reply ≡ told_early (step (state_of told self.old.kept) event).1) }

        // Where it is refused, all that is kept stays as it is.
        ensures unchanged { IfOk result (λ reply. StaysIfRefused reply self.old.kept self.new.kept) }

        // Whatever the files are, a reply leaves what the desk's cache notes of damage as it was, and a malformed or missing file that is told is
        // noted there.
        ensures undamaged { OnOk result (self.new.kept.cache.damage ≡ self.old.kept.cache.damage) }
        ensures damaged { IfErr result (TellsDamage self.old.kept.cache.damage self.new.kept.cache.damage) }

        // Behind a flush point the files stand for the live documents, and behind another event for what they stood for.
        ensures done { OnOk result ((kept : Collection) → IsDeskBacked (T.files store.old) self.old.kept → Stands self.old.kept.repository.held.limits (T.files store.old) kept
            → Stands self.old.kept.repository.held.limits (T.files store.new) (kept_behind kept (step (state_of (T.files store.old) self.old.kept) event))) }

        // However it ends, and whenever it is stopped, they stand for one of the two.
        ensures now { (kept : Collection) → IsDeskBacked (T.files store.old) self.old.kept → Stands self.old.kept.repository.held.limits (T.files store.old) kept
            → IsEither self.old.kept.repository.held.limits kept (kept_behind kept (step (state_of (T.files store.old) self.old.kept) event)) (T.files store.new) }
        ensures stops { (kept : Collection) → IsDeskBacked (T.files store.old) self.old.kept → Stands self.old.kept.repository.held.limits (T.files store.old) kept
            → Leaves (T.since store.old) (T.since store.new) (IsEither self.old.kept.repository.held.limits kept (kept_behind kept (step (state_of (T.files store.old) self.old.kept) event))) }

        // Behind the end no file is stale, and those that were are gone.
        ensures swept { is_end event ≡ true → OnOk result ((self.new.kept.repository.stale ≡ []) × AreGone self.old.kept.repository.stale (T.files store.new)) }

        // It may be used on, but for the end.
        ensures rule { self.new.rule ≡ self.old.rule }
        ensures usable { OnOk result ((self.new.kept.usable ≡ not (is_end event)) × (self.new.kept.repository.usable ≡ true)) }
        ensures broken { OnErr result (self.new.kept.usable ≡ false) }

        // Documents, deletions, a merge's begin, a show and a close never ask the store; what isn't a flush, a turn or the end writes nothing.
        ensures inside { is_inside event ≡ true → IfErr result (λ fault. fault ≡ SegFault.Memory) }
        ensures quiet { may_write event ≡ false → IsQuiet T.files T.layers T.clock T.since T.longest T.held store.old store.new }
        ensures stay { map (λ plug. meaning plug) plugs.new ≡ map (λ plug. meaning plug) plugs.old }
        ensures goes_on { GoesOn T.layers T.clock T.longest T.held store.old store.new }

        // Over files that back it, no malformed or missing file is told where those of its parts are read as they were put.
        ensures honest { IsDeskBacked (T.files store.old) self.old.kept → IsDeskIntact (T.files store.old) self.old.kept → IfErr result IsOutside }

        // Behind a reply these are read so too.
        ensures intact { OnOk result (IsDeskBacked (T.files store.old) self.old.kept → IsDeskIntact (T.files store.old) self.old.kept → IsDeskIntact (T.files store.new) self.new.kept) }
        ensures later { T.faults store.old ≤ T.faults store.new }
        ensures store { result ≡ Err SegFault.Store → Rose (T.faults store.old) (T.faults store.new) }
    {
        let is_last = event.is_end();
        match self.kept.answer(alloc, event, &self.rule, store, plugs) {
            Ok(reply) => {
                self.kept.set_usable(!is_last);
                Ok(reply)
            }
            Err(fault) => {
                self.kept.set_usable(false);
                Err(fault)
            }
        }
    }
}
