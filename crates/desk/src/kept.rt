// What a desk keeps, and its calls: all but the function of its rule.
ghost use Rattle.std.specs.Prelude.{◌≡◌, ◌≤◌, ◌&&◌, All, [], Option, Err, Ok, true, false, length, map, position, OnOk, IfOk, IfErr, IfSome};
ghost use Rattle.std.specs.Str.{bytes_eq};
ghost use Rattle.ri_base.specs.Faults.{IsOutside};
ghost use Rattle.ri_base.specs.Keeps.{Rose};
ghost use Rattle.store_ends.specs.Files.{Files, GoesOn, IsQuiet};
ghost use Rattle.session_events.specs.Events.{IsFrom1To, IsSessionEvent, is_end};
ghost use Rattle.session_events.specs.declared.event.TheConstants.{MAX_RESULTS};
ghost use Rattle.session_events.specs.declared.event.Event.TheVariants as event;
ghost use Rattle.smoothing.specs.Fractions.{Computes};
ghost use Rattle.query_check.specs.Answers.{whole_checked};
ghost use Rattle.disk_index.specs.Snapshots.{AreIntact};
ghost use Rattle.repository.specs.States.{IsBacked};
ghost use Rattle.repository.specs.Writes.{AreGone};
ghost use Rattle.desk.specs.Backed.{IsDeskBacked, IsDeskIntact, IsMergeBacked, IsUsable, Steps, StepsTo, state_of, with_usable};
ghost use Rattle.desk.specs.Leaving.{LeavesFiles, LeavesKept};
ghost use Rattle.desk.specs.Points.{is_inside, may_write, needs_hits};
ghost use Rattle.desk.specs.Queries.{priors_in};
ghost use Rattle.desk.specs.Replying.{not_added, turned_reply};
ghost use Rattle.desk.specs.Replied.{IsReply};
ghost use Rattle.desk.specs.Orders.{IsTrueReply};
ghost use Rattle.desk.specs.Keeping.{AsksFor};
ghost use Rattle.desk.specs.Plugs.{ArePlugs};
ghost use Rattle.desk.specs.Step.{open_step, step};
ghost use Rattle.desk.specs.Told.{RefusesAs, reply_early, told_early};

use crate::asking::{NotTaken, ask, ask_expr};
use crate::blocks::block_cache;
use crate::query::{MAX_QUERIES, OpenQuery};
use crate::scanning::scan;
use crate::search::counted_search;
use crate::{Refusal, Reply, explain_hit, hit_of_rank, names_of, ranking_is_true};
use belief_nodes::BeliefNode;
use counts::Counts;
use disk_index::BlockCache;
use holdings::AddRefusal;
use query_check::Checked;
use repository::{Repository, Turned};
use ri_base::{Bytes, Doc, Docno, Fraction, Name, NoMemory, SegFault};
use session_events::Event;
use smoothing::{Rule, RuleKind};
use std::alloc::{AllocError, Global};
use std::marker::Model;
use std::num::NonZeroUsize;
use store_ends::Store;

/// As many sums are kept.
const SUMS: usize = 256;

/// Whether it may write to the store.
fn may_write(event: &Event) -> bool
    ensures { result ≡ may_write event.now }
{
    matches!(event, Event::Flush | Event::Turn(_) | Event::End)
}

/// Whether it never asks the store.
fn is_inside(event: &Event) -> bool
    ensures { result ≡ is_inside event.now }
{
    matches!(
        event,
        Event::Document(_) | Event::Delete(_) | Event::Merge | Event::Show(_) | Event::Close(_)
    )
}

/// What is replied where a document isn't added.
fn not_added(refusal: AddRefusal) -> Result<Reply, SegFault>
    ensures { result ≡ not_added refusal }
{
    match refusal {
        AddRefusal::Repeated { docno } => Ok(Reply::Refused(Refusal::Repeated(docno))),
        AddRefusal::CollectionFull { docno } => Ok(Reply::Refused(Refusal::CollectionFull(docno))),
        AddRefusal::Memory => Err(SegFault::Memory),
    }
}

/// What is replied to a turn, where so many documents are live.
fn turned_reply(turned: Turned, live: u64) -> Reply
    ensures { result ≡ turned_reply turned live }
{
    match turned {
        Turned::Open { credit, size } => Reply::Turned(credit, size),
        Turned::Done => Reply::Merged(live),
    }
}

/// A repository with the open queries of a desk, the sums and blocks that are kept, and which rule it has.
pub(crate) struct Kept {
    repository: Repository,
    kind: RuleKind,
    queries: Vec<OpenQuery>,
    counts: Counts,
    cache: BlockCache,
    usable: bool,
}

impl Drop for Kept {
    fn drop(self) {
        let Kept {
            repository,
            queries,
            counts,
            cache,
            kind: _,
            usable: _,
        } = self;
        drop(repository);
        drop(queries);
        drop(counts);
        drop(cache);
    }
}

impl Model for Kept {
    ghost use Rattle.std.specs.Prelude.{◌≡◌, true};
    ghost use Rattle.desk.specs.Backed.{Keeps};
    ghost use Rattle.desk.specs.Codes.{keeps_code};
    ghost use Rattle.desk.specs.Keeping.{AreKept};

    ghost Value = { Keeps };

    ghost coded = { keeps_code };

    ghost view = { λ d. record { repository = d.repository; kind = d.kind; queries = d.queries.items; counts = d.counts; cache = d.cache; usable = d.usable } };

    ghost invariant = { λ d. d.usable ≡ true → d.repository.usable ≡ true → AreKept d.repository d.queries.items d.counts };
}

impl Kept {
    /// A repository, with nothing open.
    pub(crate) fn new(
        alloc: Global,
        repository: Repository,
        kind: RuleKind,
    ) -> Result<Kept, NoMemory>
        requires usable { repository.usable ≡ true }
        ensures usable { IfOk result IsUsable }
        ensures repository { IfOk result (λ d. d.repository ≡ repository) }
        ensures kind { IfOk result (λ d. d.kind ≡ kind) }
        ensures queries { IfOk result (λ d. d.queries ≡ []) }
        ensures backed { (told : Option Files) → IsBacked told repository → IfSome repository.merge (IsMergeBacked told repository) → IfOk result (IsDeskBacked told) }
        ensures intact { (told : Option Files) → AreIntact told repository.held.parts.closed → IfSome repository.merge (λ m. AreIntact told m.snapshot) → IfOk result (IsDeskIntact told) }
    {
        Ok(Kept {
            repository,
            kind,
            queries: Vec::new(alloc),
            counts: Counts::new(alloc, NonZeroUsize::new(SUMS).unwrap())?,
            cache: block_cache(alloc)?,
            usable: true,
        })
    }

    /// Whether it may be used: not after an `Err`, and not after the end.
    pub(crate) fn usable(&self) -> bool
        ensures { result ≡ (self.now.usable && self.now.repository.usable) }
    {
        self.usable && self.repository.usable()
    }

    /// Where the open query of this name is.
    fn find(&self, name: &Name) -> Option<usize>
        ensures { result ≡ position (λ q. bytes_eq q.name name.now) self.now.queries }
    {
        self.queries
            .iter()
            .position(|query| query.name.as_bytes() == name.as_bytes())
    }

    /// Whether it may be used on: only where it was usable.
    pub(crate) fn set_usable(&mut self, usable: bool)
        requires { usable ≡ true → self.old.usable ≡ true }
        ensures { self.new ≡ with_usable self.old usable }
    {
        self.usable = usable;
    }

    /// Does what an event asks for, and leaves it to its caller whether the desk stays usable.
    pub(crate) fn answer<T: Store, F: Fn(u32, u32, u64, u64) -> Fraction>(
        &mut self,
        alloc: Global,
        event: Event,
        rule: &Rule<F>,
        store: &mut T,
        plugs: &mut [Box<dyn BeliefNode>],
    ) -> Result<Reply, SegFault>
        requires usable { IsUsable self.old }
        requires rule { Computes F.pre F.post rule.now.kind rule.now.f }
        requires kind { rule.now.kind ≡ self.old.kind }
        requires form { IsSessionEvent event }
        requires nine { length plugs.old ≡ 9 }
        ensures steps { IfOk result (λ reply. IsDeskBacked (T.files store.old) self.old → ArePlugs (priors_in (T.files store.old) self.old.repository.priors) (map (λ plug. meaning plug) plugs.old)
            → Steps event (T.files store.old) (T.files store.new) self.old self.new reply) }
        ensures order { IfOk result (λ reply. IsDeskBacked (T.files store.old) self.old → IsTrueReply (state_of (T.files store.old) self.old) event reply) }
        ensures refuses { needs_hits event ≡ false → IfOk result (λ reply. (told : Option Files) → RefusesAs reply (step (state_of told self.old) event).1) }
        ensures early { IfOk result (λ reply. (told : Option Files) → reply_early reply ≡ told_early (step (state_of told self.old) event).1) }
        ensures files { LeavesFiles event result (T.files store.old) (T.files store.new) (T.since store.old) (T.since store.new) self.old }
        ensures swept { is_end event ≡ true → OnOk result ((self.new.repository.stale ≡ []) × AreGone self.old.repository.stale (T.files store.new)) }
        ensures keeps { LeavesKept result self.old self.new }
        ensures inside { is_inside event ≡ true → IfErr result (λ fault. fault ≡ SegFault.Memory) }
        ensures quiet { may_write event ≡ false → IsQuiet T.files T.layers T.clock T.since T.longest T.held store.old store.new }
        ensures stay { map (λ plug. meaning plug) plugs.new ≡ map (λ plug. meaning plug) plugs.old }
        ensures goes_on { GoesOn T.layers T.clock T.longest T.held store.old store.new }
        ensures honest { IsDeskBacked (T.files store.old) self.old → IsDeskIntact (T.files store.old) self.old → IfErr result IsOutside }
        ensures intact { OnOk result (IsDeskBacked (T.files store.old) self.old → IsDeskIntact (T.files store.old) self.old → IsDeskIntact (T.files store.new) self.new) }
        ensures later { T.faults store.old ≤ T.faults store.new }
        ensures store { result ≡ Err SegFault.Store → Rose (T.faults store.old) (T.faults store.new) }
    {
        if may_write(&event) {
            return self.writing(alloc, event, store);
        }
        self.keeping(alloc, event, rule, store, plugs)
    }

    /// Does an event that writes nothing to the store.
    fn keeping<T: Store, F: Fn(u32, u32, u64, u64) -> Fraction>(
        &mut self,
        alloc: Global,
        event: Event,
        rule: &Rule<F>,
        store: &mut T,
        plugs: &mut [Box<dyn BeliefNode>],
    ) -> Result<Reply, SegFault>
        requires usable { IsUsable self.old }
        requires rule { Computes F.pre F.post rule.now.kind rule.now.f }
        requires kind { rule.now.kind ≡ self.old.kind }
        requires form { IsSessionEvent event }
        requires nine { length plugs.old ≡ 9 }
        requires quiet { may_write event ≡ false }
        ensures steps { IfOk result (λ reply. IsDeskBacked (T.files store.old) self.old → ArePlugs (priors_in (T.files store.old) self.old.repository.priors) (map (λ plug. meaning plug) plugs.old)
            → Steps event (T.files store.old) (T.files store.new) self.old self.new reply) }
        ensures order { IfOk result (λ reply. IsDeskBacked (T.files store.old) self.old → IsTrueReply (state_of (T.files store.old) self.old) event reply) }
        ensures refuses { needs_hits event ≡ false → IfOk result (λ reply. (told : Option Files) → RefusesAs reply (step (state_of told self.old) event).1) }
        ensures early { IfOk result (λ reply. (told : Option Files) → reply_early reply ≡ told_early (step (state_of told self.old) event).1) }
        ensures keeps { LeavesKept result self.old self.new }
        ensures inside { is_inside event ≡ true → IfErr result (λ fault. fault ≡ SegFault.Memory) }
        ensures quiet { IsQuiet T.files T.layers T.clock T.since T.longest T.held store.old store.new }
        ensures stay { map (λ plug. meaning plug) plugs.new ≡ map (λ plug. meaning plug) plugs.old }
        ensures honest { IsDeskBacked (T.files store.old) self.old → IsDeskIntact (T.files store.old) self.old → IfErr result IsOutside }
        ensures intact { OnOk result ((told : Option Files) → IsDeskIntact told self.old → IsDeskIntact told self.new) }
        ensures later { T.faults store.old ≤ T.faults store.new }
        ensures store { result ≡ Err SegFault.Store → Rose (T.faults store.old) (T.faults store.new) }
    {
        if is_inside(&event) {
            return self.inside(alloc, event);
        }
        self.reading(alloc, event, rule, store, plugs)
    }

    /// Does an event that never asks the store.
    fn inside(&mut self, alloc: Global, event: Event) -> Result<Reply, SegFault>
        requires usable { IsUsable self.old }
        requires inside { is_inside event ≡ true }
        ensures steps { IfOk result (λ reply. (told : Option Files) → IsDeskBacked told self.old → Steps event told told self.old self.new reply) }
        ensures order { IfOk result (λ reply. (told : Option Files) → IsDeskBacked told self.old → IsTrueReply (state_of told self.old) event reply) }
        ensures refuses { IfOk result (λ reply. (told : Option Files) → RefusesAs reply (step (state_of told self.old) event).1) }
        ensures memory { IfErr result (λ fault. fault ≡ SegFault.Memory) }
        ensures keeps { LeavesKept result self.old self.new }
        ensures intact { OnOk result ((told : Option Files) → IsDeskIntact told self.old → IsDeskIntact told self.new) }
    {
        match event {
            Event::Document(doc) => self.add(alloc, doc),
            Event::Delete(docno) => Ok(self.delete(docno)),
            Event::Merge => self.merge(alloc),
            Event::Show(name) => self.show(alloc, name),
            Event::Close(name) => Ok(self.close(name)),
            _ => unreachable!(),
        }
    }

    /// Does an event that reads from the store.
    fn reading<T: Store, F: Fn(u32, u32, u64, u64) -> Fraction>(
        &mut self,
        alloc: Global,
        event: Event,
        rule: &Rule<F>,
        store: &mut T,
        plugs: &mut [Box<dyn BeliefNode>],
    ) -> Result<Reply, SegFault>
        requires usable { IsUsable self.old }
        requires rule { Computes F.pre F.post rule.now.kind rule.now.f }
        requires kind { rule.now.kind ≡ self.old.kind }
        requires form { IsSessionEvent event }
        requires nine { length plugs.old ≡ 9 }
        requires quiet { may_write event ≡ false }
        requires outside { is_inside event ≡ false }
        ensures steps { IfOk result (λ reply. IsDeskBacked (T.files store.old) self.old → ArePlugs (priors_in (T.files store.old) self.old.repository.priors) (map (λ plug. meaning plug) plugs.old)
            → Steps event (T.files store.old) (T.files store.new) self.old self.new reply) }
        ensures refuses { needs_hits event ≡ false → IfOk result (λ reply. (told : Option Files) → RefusesAs reply (step (state_of told self.old) event).1) }
        ensures early { IfOk result (λ reply. (told : Option Files) → reply_early reply ≡ told_early (step (state_of told self.old) event).1) }
        ensures keeps { LeavesKept result self.old self.new }
        ensures quiet { IsQuiet T.files T.layers T.clock T.since T.longest T.held store.old store.new }
        ensures stay { map (λ plug. meaning plug) plugs.new ≡ map (λ plug. meaning plug) plugs.old }
        ensures honest { IsDeskBacked (T.files store.old) self.old → IsDeskIntact (T.files store.old) self.old → IfErr result IsOutside }
        ensures intact { OnOk result ((told : Option Files) → IsDeskIntact told self.old → IsDeskIntact told self.new) }
        ensures later { T.faults store.old ≤ T.faults store.new }
        ensures store { result ≡ Err SegFault.Store → Rose (T.faults store.old) (T.faults store.new) }
    {
        match event {
            Event::Open { name, k, text } => self.open(alloc, name, k, &text, store),
            Event::Step { name, docs } => self.step(alloc, name, docs, rule, store, plugs),
            Event::Explain { name, rank } => self.explain(alloc, name, rank, store),
            Event::Scan(text) => self.scan(alloc, &text, store),
            _ => unreachable!(),
        }
    }

    /// Does an event that may write to the store.
    fn writing<T: Store>(
        &mut self,
        alloc: Global,
        event: Event,
        store: &mut T,
    ) -> Result<Reply, SegFault>
        requires usable { IsUsable self.old }
        requires writes { may_write event ≡ true }
        ensures steps { IfOk result (λ reply. IsDeskBacked (T.files store.old) self.old → Steps event (T.files store.old) (T.files store.new) self.old self.new reply) }
        ensures refuses { IfOk result (λ reply. (told : Option Files) → RefusesAs reply (step (state_of told self.old) event).1) }
        ensures files { LeavesFiles event result (T.files store.old) (T.files store.new) (T.since store.old) (T.since store.new) self.old }
        ensures swept { is_end event ≡ true → OnOk result ((self.new.repository.stale ≡ []) × AreGone self.old.repository.stale (T.files store.new)) }
        ensures keeps { LeavesKept result self.old self.new }
        ensures goes_on { GoesOn T.layers T.clock T.longest T.held store.old store.new }
        ensures honest { IsDeskBacked (T.files store.old) self.old → IsDeskIntact (T.files store.old) self.old → IfErr result IsOutside }
        ensures intact { OnOk result (IsDeskBacked (T.files store.old) self.old → IsDeskIntact (T.files store.old) self.old → IsDeskIntact (T.files store.new) self.new) }
        ensures later { T.faults store.old ≤ T.faults store.new }
        ensures store { result ≡ Err SegFault.Store → Rose (T.faults store.old) (T.faults store.new) }
    {
        match event {
            Event::Flush => self.flush(alloc, store),
            Event::Turn(docs) => self.turn(alloc, docs, store),
            Event::End => self.end(alloc, store),
            _ => unreachable!(),
        }
    }

    fn add(&mut self, alloc: Global, doc: Doc) -> Result<Reply, SegFault>
        requires usable { IsUsable self.old }
        ensures steps { IfOk result (λ reply. (told : Option Files) → IsDeskBacked told self.old → Steps (event.Document doc) told told self.old self.new reply) }
        ensures refuses { IfOk result (λ reply. (told : Option Files) → RefusesAs reply (step (state_of told self.old) (event.Document doc)).1) }
        ensures memory { IfErr result (λ fault. fault ≡ SegFault.Memory) }
        ensures keeps { LeavesKept result self.old self.new }
        ensures intact { OnOk result ((told : Option Files) → IsDeskIntact told self.old → IsDeskIntact told self.new) }
    {
        let docno = doc.docno().clone_in(alloc)?;
        match self.repository.add(alloc, &doc) {
            Ok(()) => Ok(Reply::Added(docno, doc.len())),
            Err(refusal) => not_added(refusal),
        }
    }

    fn delete(&mut self, docno: Docno) -> Reply
        requires usable { IsUsable self.old }
        ensures steps { (told : Option Files) → IsDeskBacked told self.old → Steps (event.Delete docno) told told self.old self.new result }
        ensures refuses { (told : Option Files) → RefusesAs result (step (state_of told self.old) (event.Delete docno)).1 }
        ensures keeps { LeavesKept (Ok result) self.old self.new }
        ensures intact { (told : Option Files) → IsDeskIntact told self.old → IsDeskIntact told self.new }
    {
        if self.repository.delete(&docno).is_err() {
            return Reply::Refused(Refusal::NoSuchDoc(docno));
        }
        Reply::Deleted(docno)
    }

    fn flush<T: Store>(&mut self, alloc: Global, store: &mut T) -> Result<Reply, SegFault>
        requires usable { IsUsable self.old }
        ensures steps { IfOk result (λ reply. IsDeskBacked (T.files store.old) self.old → Steps event.Flush (T.files store.old) (T.files store.new) self.old self.new reply) }
        ensures refuses { IfOk result (λ reply. (told : Option Files) → RefusesAs reply (step (state_of told self.old) event.Flush).1) }
        ensures files { LeavesFiles event.Flush result (T.files store.old) (T.files store.new) (T.since store.old) (T.since store.new) self.old }
        ensures keeps { LeavesKept result self.old self.new }
        ensures goes_on { GoesOn T.layers T.clock T.longest T.held store.old store.new }
        ensures honest { IsDeskBacked (T.files store.old) self.old → IfErr result IsOutside }
        ensures intact { OnOk result (IsDeskBacked (T.files store.old) self.old → IsDeskIntact (T.files store.old) self.old → IsDeskIntact (T.files store.new) self.new) }
        ensures later { T.faults store.old ≤ T.faults store.new }
        ensures store { result ≡ Err SegFault.Store → Rose (T.faults store.old) (T.faults store.new) }
    {
        self.repository.flush(alloc, store)?;
        Ok(Reply::Flushed(self.repository.live_count()))
    }

    fn merge(&mut self, alloc: Global) -> Result<Reply, SegFault>
        requires usable { IsUsable self.old }
        ensures steps { IfOk result (λ reply. (told : Option Files) → IsDeskBacked told self.old → Steps event.Merge told told self.old self.new reply) }
        ensures refuses { IfOk result (λ reply. (told : Option Files) → RefusesAs reply (step (state_of told self.old) event.Merge).1) }
        ensures memory { IfErr result (λ fault. fault ≡ SegFault.Memory) }
        ensures keeps { LeavesKept result self.old self.new }
        ensures intact { OnOk result ((told : Option Files) → IsDeskIntact told self.old → IsDeskIntact told self.new) }
    {
        if self.repository.merge_open() {
            return Ok(Reply::Refused(Refusal::MergeOpen));
        }
        let Ok(size) = self.repository.begin_merge(alloc) else {
            return Err(SegFault::Memory);
        };
        Ok(Reply::Merging(size))
    }

    fn turn<T: Store>(&mut self, alloc: Global, docs: u64, store: &mut T) -> Result<Reply, SegFault>
        requires usable { IsUsable self.old }
        ensures steps { IfOk result (λ reply. IsDeskBacked (T.files store.old) self.old → Steps (event.Turn docs) (T.files store.old) (T.files store.new) self.old self.new reply) }
        ensures refuses { IfOk result (λ reply. (told : Option Files) → RefusesAs reply (step (state_of told self.old) (event.Turn docs)).1) }
        ensures files { LeavesFiles (event.Turn docs) result (T.files store.old) (T.files store.new) (T.since store.old) (T.since store.new) self.old }
        ensures keeps { LeavesKept result self.old self.new }
        ensures goes_on { GoesOn T.layers T.clock T.longest T.held store.old store.new }
        ensures honest { IsDeskBacked (T.files store.old) self.old → IsDeskIntact (T.files store.old) self.old → IfErr result IsOutside }
        ensures intact { OnOk result (IsDeskBacked (T.files store.old) self.old → IsDeskIntact (T.files store.old) self.old → IsDeskIntact (T.files store.new) self.new) }
        ensures later { T.faults store.old ≤ T.faults store.new }
        ensures store { result ≡ Err SegFault.Store → Rose (T.faults store.old) (T.faults store.new) }
    {
        if !self.repository.merge_open() {
            return Ok(Reply::Refused(Refusal::NoMerge));
        }
        let turned = self
            .repository
            .merge_turn(alloc, docs, store, &mut self.cache)?;
        Ok(turned_reply(turned, self.repository.live_count()))
    }

    fn open<T: Store>(
        &mut self,
        alloc: Global,
        name: Name,
        k: u32,
        text: &Bytes,
        store: &mut T,
    ) -> Result<Reply, SegFault>
        requires usable { IsUsable self.old }
        requires form { IsSessionEvent (event.Open name k text.now) }
        ensures steps { IfOk result (λ reply. IsDeskBacked (T.files store.old) self.old → Steps (event.Open name k text.now) (T.files store.old) (T.files store.new) self.old self.new reply) }
        ensures refuses { IfOk result (λ reply. (told : Option Files) → RefusesAs reply (step (state_of told self.old) (event.Open name k text.now)).1) }
        ensures keeps { LeavesKept result self.old self.new }
        ensures quiet { IsQuiet T.files T.layers T.clock T.since T.longest T.held store.old store.new }
        ensures honest { IsDeskBacked (T.files store.old) self.old → IsDeskIntact (T.files store.old) self.old → IfErr result IsOutside }
        ensures intact { OnOk result ((told : Option Files) → IsDeskIntact told self.old → IsDeskIntact told self.new) }
        ensures later { T.faults store.old ≤ T.faults store.new }
        ensures store { result ≡ Err SegFault.Store → Rose (T.faults store.old) (T.faults store.new) }
    {
        let names = names_of(alloc, self.repository.priors())?;
        match ask(alloc, text.as_slice(), &names) {
            Ok(checked) => self.open_checked(alloc, name, k, checked, store),
            Err(NotTaken::Refused(refusal)) => Ok(Reply::Refused(refusal)),
            Err(NotTaken::Memory) => Err(SegFault::Memory),
        }
    }

    /// Opens a query whose text has no fault.
    fn open_checked<T: Store>(
        &mut self,
        alloc: Global,
        name: Name,
        k: u32,
        checked: Checked,
        store: &mut T,
    ) -> Result<Reply, SegFault>
        requires usable { IsUsable self.old }
        requires k { IsFrom1To MAX_RESULTS k }
        requires asks { All (AsksFor (length self.old.repository.priors)) (whole_checked checked).leaves }
        ensures steps { IfOk result (λ reply. IsDeskBacked (T.files store.old) self.old → StepsTo (open_step (state_of (T.files store.old) self.old) name k (Ok (whole_checked checked))) (T.files store.new) self.new reply) }
        ensures refuses { IfOk result (λ reply. (told : Option Files) → RefusesAs reply (open_step (state_of told self.old) name k (Ok (whole_checked checked))).1) }
        ensures keeps { LeavesKept result self.old self.new }
        ensures quiet { IsQuiet T.files T.layers T.clock T.since T.longest T.held store.old store.new }
        ensures honest { IsDeskBacked (T.files store.old) self.old → IsDeskIntact (T.files store.old) self.old → IfErr result IsOutside }
        ensures intact { OnOk result ((told : Option Files) → IsDeskIntact told self.old → IsDeskIntact told self.new) }
        ensures later { T.faults store.old ≤ T.faults store.new }
        ensures store { result ≡ Err SegFault.Store → Rose (T.faults store.old) (T.faults store.new) }
    {
        if self.find(&name).is_some() {
            return Ok(Reply::Refused(Refusal::NameTaken(name)));
        }
        if self.queries.len() >= MAX_QUERIES {
            return Ok(Reply::Refused(Refusal::DeskFull(name)));
        }
        let told = name.clone_in(alloc)?;
        let snapshot = self.repository.snapshot(alloc)?;
        let live = u64::from(snapshot.live_count());
        let generation = self.repository.generation();
        let search = counted_search(
            alloc,
            snapshot,
            checked,
            generation,
            k,
            &mut self.counts,
            store,
            &mut self.cache,
        )?;
        self.queries
            .push(OpenQuery { name, search })
            .map_err(AllocError::from)?;
        Ok(Reply::Opened(told, live))
    }

    fn step<T: Store, F: Fn(u32, u32, u64, u64) -> Fraction>(
        &mut self,
        alloc: Global,
        name: Name,
        docs: u64,
        rule: &Rule<F>,
        store: &mut T,
        plugs: &mut [Box<dyn BeliefNode>],
    ) -> Result<Reply, SegFault>
        requires usable { IsUsable self.old }
        requires rule { Computes F.pre F.post rule.now.kind rule.now.f }
        requires kind { rule.now.kind ≡ self.old.kind }
        requires nine { length plugs.old ≡ 9 }
        ensures steps { IfOk result (λ reply. IsDeskBacked (T.files store.old) self.old → ArePlugs (priors_in (T.files store.old) self.old.repository.priors) (map (λ plug. meaning plug) plugs.old)
            → Steps (event.Step name docs) (T.files store.old) (T.files store.new) self.old self.new reply) }
        ensures refuses { IfOk result (λ reply. (told : Option Files) → RefusesAs reply (step (state_of told self.old) (event.Step name docs)).1) }
        ensures stay { map (λ plug. meaning plug) plugs.new ≡ map (λ plug. meaning plug) plugs.old }
        ensures keeps { LeavesKept result self.old self.new }
        ensures quiet { IsQuiet T.files T.layers T.clock T.since T.longest T.held store.old store.new }
        ensures honest { IsDeskBacked (T.files store.old) self.old → IsDeskIntact (T.files store.old) self.old → IfErr result IsOutside }
        ensures intact { OnOk result ((told : Option Files) → IsDeskIntact told self.old → IsDeskIntact told self.new) }
        ensures later { T.faults store.old ≤ T.faults store.new }
        ensures store { result ≡ Err SegFault.Store → Rose (T.faults store.old) (T.faults store.new) }
    {
        let Some(place) = self.find(&name) else {
            return Ok(Reply::Refused(Refusal::NoSuchName(name)));
        };
        let _few = self.repository.priors();
        match self.queries[place].advance(alloc, docs, rule, plugs, store, &mut self.cache) {
            Ok((credit, live)) => Ok(Reply::Stepped(name, credit, live)),
            Err(fault) => {
                self.usable = false;
                Err(fault)
            }
        }
    }

    fn show(&self, alloc: Global, name: Name) -> Result<Reply, SegFault>
        requires usable { IsUsable self.now }
        ensures steps { IfOk result (λ reply. (told : Option Files) → IsDeskBacked told self.now → Steps (event.Show name) told told self.now self.now reply) }
        ensures order { IfOk result (λ reply. (told : Option Files) → IsDeskBacked told self.now → IsTrueReply (state_of told self.now) (event.Show name) reply) }
        ensures form { IfOk result IsReply }
        ensures refuses { IfOk result (λ reply. (told : Option Files) → RefusesAs reply (step (state_of told self.now) (event.Show name)).1) }
        ensures memory { IfErr result (λ fault. fault ≡ SegFault.Memory) }
    {
        ranking_is_true();
        let Some(place) = self.find(&name) else {
            return Ok(Reply::Refused(Refusal::NoSuchName(name)));
        };
        let search = &self.queries[place].search;
        match search.results() {
            Some(hits) => Ok(Reply::Results(name, search.checked().scale, hits.clone_in(alloc)?)),
            None => Ok(Reply::Refused(Refusal::NotYet(name))),
        }
    }

    fn explain<T: Store>(
        &mut self,
        alloc: Global,
        name: Name,
        rank: u32,
        store: &mut T,
    ) -> Result<Reply, SegFault>
        requires usable { IsUsable self.old }
        requires form { IsSessionEvent (event.Explain name rank) }
        ensures steps { IfOk result (λ reply. IsDeskBacked (T.files store.old) self.old → Steps (event.Explain name rank) (T.files store.old) (T.files store.new) self.old self.new reply) }
        ensures early { IfOk result (λ reply. (told : Option Files) → reply_early reply ≡ told_early (step (state_of told self.old) (event.Explain name rank)).1) }
        ensures keeps { LeavesKept result self.old self.new }
        ensures quiet { IsQuiet T.files T.layers T.clock T.since T.longest T.held store.old store.new }
        ensures honest { IsDeskBacked (T.files store.old) self.old → IsDeskIntact (T.files store.old) self.old → IfErr result IsOutside }
        ensures intact { OnOk result ((told : Option Files) → IsDeskIntact told self.old → IsDeskIntact told self.new) }
        ensures later { T.faults store.old ≤ T.faults store.new }
        ensures store { result ≡ Err SegFault.Store → Rose (T.faults store.old) (T.faults store.new) }
    {
        let names = names_of(alloc, self.repository.priors())?;
        let Some(place) = self.find(&name) else {
            return Ok(Reply::Refused(Refusal::NoSuchName(name)));
        };
        let search = &self.queries[place].search;
        let Some(hits) = search.results() else {
            return Ok(Reply::Refused(Refusal::NotYet(name)));
        };
        let Some(hit) = hit_of_rank(alloc, hits, rank)? else {
            return Ok(Reply::Refused(Refusal::NoSuchRank(name)));
        };
        let explained = explain_hit(
            alloc,
            &names,
            search.checked(),
            search.stats(),
            search.snapshot().parts(),
            rank,
            hit,
            store,
            &mut self.cache,
        )?;
        Ok(Reply::Explained(explained))
    }

    fn scan<T: Store>(
        &mut self,
        alloc: Global,
        text: &Bytes,
        store: &mut T,
    ) -> Result<Reply, SegFault>
        requires usable { IsUsable self.old }
        requires form { IsSessionEvent (event.Scan text.now) }
        ensures steps { IfOk result (λ reply. IsDeskBacked (T.files store.old) self.old → Steps (event.Scan text.now) (T.files store.old) (T.files store.new) self.old self.new reply) }
        ensures refuses { IfOk result (λ reply. (told : Option Files) → RefusesAs reply (step (state_of told self.old) (event.Scan text.now)).1) }
        ensures keeps { LeavesKept result self.old self.new }
        ensures quiet { IsQuiet T.files T.layers T.clock T.since T.longest T.held store.old store.new }
        ensures honest { IsDeskBacked (T.files store.old) self.old → IsDeskIntact (T.files store.old) self.old → IfErr result IsOutside }
        ensures intact { OnOk result ((told : Option Files) → IsDeskIntact told self.old → IsDeskIntact told self.new) }
        ensures later { T.faults store.old ≤ T.faults store.new }
        ensures store { result ≡ Err SegFault.Store → Rose (T.faults store.old) (T.faults store.new) }
    {
        let expr = match ask_expr(alloc, text.as_slice()) {
            Ok(expr) => expr,
            Err(NotTaken::Refused(refusal)) => return Ok(Reply::Refused(refusal)),
            Err(NotTaken::Memory) => return Err(SegFault::Memory),
        };
        let snapshot = self.repository.snapshot(alloc)?;
        let lines = scan(alloc, &expr, snapshot.parts(), store, &mut self.cache)?;
        Ok(Reply::Extents(lines))
    }

    fn close(&mut self, name: Name) -> Reply
        requires usable { IsUsable self.old }
        ensures steps { (told : Option Files) → IsDeskBacked told self.old → Steps (event.Close name) told told self.old self.new result }
        ensures refuses { (told : Option Files) → RefusesAs result (step (state_of told self.old) (event.Close name)).1 }
        ensures keeps { LeavesKept (Ok result) self.old self.new }
        ensures intact { (told : Option Files) → IsDeskIntact told self.old → IsDeskIntact told self.new }
    {
        match self.find(&name) {
            Some(place) => {
                self.queries.remove(place);
                Reply::Closed(name)
            }
            None => Reply::Refused(Refusal::NoSuchName(name)),
        }
    }

    /// Closes all queries, gives an open merge up, flushes and sweeps. Blocks of the files that are swept are no longer kept.
    fn end<T: Store>(&mut self, alloc: Global, store: &mut T) -> Result<Reply, SegFault>
        requires usable { IsUsable self.old }
        ensures steps { IfOk result (λ reply. IsDeskBacked (T.files store.old) self.old → Steps event.End (T.files store.old) (T.files store.new) self.old self.new reply) }
        ensures refuses { IfOk result (λ reply. (told : Option Files) → RefusesAs reply (step (state_of told self.old) event.End).1) }
        ensures files { LeavesFiles event.End result (T.files store.old) (T.files store.new) (T.since store.old) (T.since store.new) self.old }
        ensures swept { OnOk result ((self.new.repository.stale ≡ []) × AreGone self.old.repository.stale (T.files store.new)) }
        ensures keeps { LeavesKept result self.old self.new }
        ensures goes_on { GoesOn T.layers T.clock T.longest T.held store.old store.new }
        ensures honest { IsDeskBacked (T.files store.old) self.old → IfErr result IsOutside }
        ensures intact { OnOk result (IsDeskBacked (T.files store.old) self.old → IsDeskIntact (T.files store.old) self.old → IsDeskIntact (T.files store.new) self.new) }
        ensures later { T.faults store.old ≤ T.faults store.new }
        ensures store { result ≡ Err SegFault.Store → Rose (T.faults store.old) (T.faults store.new) }
    {
        self.queries.clear();
        self.repository.drop_merge();
        self.cache.clear();
        self.repository.flush(alloc, store)?;
        self.repository.sweep(alloc, store)?;
        Ok(Reply::Ended(self.repository.live_count()))
    }
}
