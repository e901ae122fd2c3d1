// The events of a generated collection, one by one.
ghost use Rattle.std.specs.Prelude.{◌≡◌, ◌<◌, ◌≤◌, ◌∷◌, ℕ, true, IfOk, IfSome, OnErr};
ghost use Rattle.session_events.specs.Events.{IsSessionEvent};
ghost use Rattle.session_events.specs.declared.event.Event.TheVariants as event;
ghost use Rattle.generated_events.specs.Documents.{generated, is_deleted, live_count};
ghost use Rattle.generated_events.specs.Events.{deletion, is_flushed, name, question, quiet_events};
ghost use Rattle.generated_events.specs.Left.{IsStage, IsStage-prop, events_left, given, is_first};
ghost use Rattle.generated_events.specs.declared.generator.TheConstants.{MAX_GENERATED};

use crate::documents::{docno_of, generated};
use crate::sums::live_count;
use ri_base::{Bytes, Name, NoMemory};
use session_events::Event;
use std::alloc::Global;

/// The documents of a generated collection, at most.
pub const MAX_GENERATED: u32 = 100_000;

/// The documents of a turn of the merge.
const TURN_DOCS: u64 = 500;

/// The results that are asked for.
const RESULTS: u32 = 10;

/// What comes next.
#[derive(Clone, Copy, Debug, PartialEq, Eq)]
pub enum Stage {
    /// The document with this number.
    Document(u32),
    /// The flush behind it.
    Flush(u32),
    /// The deletion of the document with this number.
    Deletion(u32),
    Merge,
    /// So many turns of the merge.
    Turn(u64),
    Question,
    Step,
    Ended,
}

/// The events of a collection of `count` documents, up to those that open and answer a query.
#[derive(Clone, Copy, Debug, PartialEq, Eq)]
pub struct Generator {
    count: u32,
    stage: Stage,
    ghost some: { 1 ≤ count },
    ghost few: { count ≤ MAX_GENERATED },
    ghost ranges: { IsStage count stage } by { IsStage-prop count stage },
}

/// Whether a flush comes behind the document with this number.
fn is_flushed(count: u32, number: u32) -> bool
    requires { number < count }
    ensures { result ≡ is_flushed count number }
{
    (number + 1) % 1000 == 0 || number + 1 == count
}

/// The name of the query.
pub fn query_name(alloc: Global) -> Result<Name, NoMemory>
    ensures { IfOk result (λ n. n ≡ name) }
{
    match Name::new(alloc, b"q")? {
        Some(name) => Ok(name),
        None => unreachable!(),
    }
}

/// The event that opens the query.
#[tactic(auto, using(crate::proofs::DocnoLemmas::question_is))]
fn question(alloc: Global) -> Result<Event, NoMemory>
    ensures event { IfOk result (λ e. e ≡ question) }
    ensures form { IfOk result IsSessionEvent }
{
    Ok(Event::Open {
        name: query_name(alloc)?,
        k: RESULTS,
        text: Bytes::of(b"w0 #1(w1 w2)".to_vec(alloc)?),
    })
}

/// The event that goes over all documents for the query.
#[tactic(auto, using(crate::proofs::EventLemmas::some_live))]
fn step(alloc: Global, count: u32) -> Result<Event, NoMemory>
    requires some { 1 ≤ count }
    requires few { count ≤ MAX_GENERATED }
    ensures event { IfOk result (λ e. e ≡ event.Step name (live_count count)) }
    ensures form { IfOk result IsSessionEvent }
{
    Ok(Event::Step {
        name: query_name(alloc)?,
        docs: live_count(count),
    })
}

/// What comes behind the document with this number.
#[tactic(auto, using(crate::proofs::EventLemmas::left_flushed, crate::proofs::EventLemmas::left_document, crate::proofs::EventLemmas::not_last))]
fn behind_document(count: u32, number: u32) -> Stage
    requires number { number < count }
    ensures stage { IsStage count result }
    ensures left { events_left count (Stage.Document number) ≡ event.Document (generated number) ∷ events_left count result }
{
    if is_flushed(count, number) {
        Stage::Flush(number)
    } else {
        Stage::Document(number + 1)
    }
}

/// What comes behind a flush.
#[tactic(auto, using(crate::proofs::EventLemmas::left_flush, crate::proofs::EventLemmas::left_deletions, crate::proofs::EventLemmas::left_none))]
fn behind_flush(count: u32, number: u32) -> Stage
    requires number { number < count }
    ensures stage { IsStage count result }
    ensures left { events_left count (Stage.Flush number) ≡ event.Flush ∷ events_left count result }
{
    if number + 1 < count {
        Stage::Document(number + 1)
    } else if 1 < count {
        Stage::Deletion(1)
    } else {
        Stage::Merge
    }
}

/// What comes behind a deletion.
#[tactic(auto, using(crate::proofs::EventLemmas::left_deletion, crate::proofs::EventLemmas::left_last, crate::proofs::EventLemmas::third_is))]
fn behind_deletion(count: u32, number: u32) -> Stage
    requires few { count ≤ MAX_GENERATED }
    requires number { number < count }
    requires deleted { is_deleted number ≡ true }
    ensures stage { IsStage count result }
    ensures left { events_left count (Stage.Deletion number) ≡ deletion number ∷ events_left count result }
{
    if number + 3 < count {
        Stage::Deletion(number + 3)
    } else {
        Stage::Merge
    }
}

/// What comes behind the opening of the merge.
#[tactic(auto, using(crate::proofs::EventLemmas::left_merge, crate::proofs::EventLemmas::some_turn))]
fn behind_merge(count: u32) -> Stage
    requires few { count ≤ MAX_GENERATED }
    requires some { 1 ≤ count }
    ensures stage { IsStage count result }
    ensures left { events_left count Stage.Merge ≡ event.Merge ∷ events_left count result }
{
    Stage::Turn((live_count(count) + (TURN_DOCS - 1)) / TURN_DOCS)
}

/// What comes behind a turn of the merge, of which so many were left.
#[tactic(auto, using(crate::proofs::EventLemmas::left_turn, crate::proofs::EventLemmas::left_last_turn))]
fn behind_turn(left: u64) -> Stage
    requires { 1 ≤ left }
    ensures stage { (count : ℕ) → IsStage count result }
    ensures left { (count : ℕ) → events_left count (Stage.Turn left) ≡ event.Turn TURN_DOCS ∷ events_left count result }
{
    if left == 1 {
        Stage::Question
    } else {
        Stage::Turn(left - 1)
    }
}

/// The event of a stage with the stage behind it, or `None` at the end.
#[tactic(auto, using(crate::proofs::EventLemmas::left_question, crate::proofs::EventLemmas::left_step, crate::proofs::EventLemmas::left_none_more))]
fn event_of(alloc: Global, count: u32, stage: Stage) -> Result<Option<(Event, Stage)>, NoMemory>
    requires some { 1 ≤ count }
    requires few { count ≤ MAX_GENERATED }
    requires stage { IsStage count stage }
    ensures gives { IfOk result (λ found. events_left count stage ≡ given count found) }
    ensures stage { IfOk result (λ found. IfSome found (λ next. IsStage count next.1)) }
    ensures form { IfOk result (λ found. IfSome found (λ next. IsSessionEvent next.0)) }
{
    match stage {
        Stage::Document(number) => {
            let event = Event::Document(generated(alloc, number)?);
            Ok(Some((event, behind_document(count, number))))
        }
        Stage::Flush(number) => Ok(Some((Event::Flush, behind_flush(count, number)))),
        Stage::Deletion(number) => {
            let event = Event::Delete(docno_of(alloc, number)?);
            Ok(Some((event, behind_deletion(count, number))))
        }
        Stage::Merge => Ok(Some((Event::Merge, behind_merge(count)))),
        Stage::Turn(left) => Ok(Some((Event::Turn(TURN_DOCS), behind_turn(left)))),
        Stage::Question => Ok(Some((question(alloc)?, Stage::Step))),
        Stage::Step => Ok(Some((step(alloc, count)?, Stage::Ended))),
        Stage::Ended => Ok(None),
    }
}

impl Generator {
    /// All events of a collection of so many documents.
    #[tactic(auto, using(crate::proofs::EventLemmas::left_all))]
    pub fn new(count: u32) -> Generator
        requires some { 1 ≤ count }
        requires few { count ≤ MAX_GENERATED }
        ensures count { result.count ≡ count }
        ensures all { events_left count result.stage ≡ quiet_events count }
    {
        Generator {
            count,
            stage: Stage::Document(0),
        }
    }

    /// The next event, or `None` behind the last one.
    pub fn next_event(&mut self, alloc: Global) -> Result<Option<Event>, NoMemory>
        ensures gives { IfOk result (λ found. events_left self.old.count self.old.stage ≡ is_first found (events_left self.new.count self.new.stage)) }
        ensures form { IfOk result (λ found. IfSome found IsSessionEvent) }
        ensures count { self.new.count ≡ self.old.count }
        ensures kept { OnErr result (self.new ≡ self.old) }
    {
        match event_of(alloc, self.count, self.stage)? {
            Some((event, next)) => {
                self.stage = next;
                Ok(Some(event))
            }
            None => Ok(None),
        }
    }
}
