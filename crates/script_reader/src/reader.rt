// A reader of items to which its source is lent.
ghost use Rattle.std.specs.Prelude.{◌≡◌, ◌+◌, ◌-◌, ◌*◌, ◌^◌, ◌<◌, ◌≤◌, ◌++◌, ◌||◌, ℕ, List, Option, [], Some, None, IfOk, IfSome, OnOk, OnSome, IsErrOf, MatchOption, length, take, drop, true, false, is_none, is_some, ◌==◌, if◌then◌else◌};
ghost use Rattle.std.specs.Bool.{OnFalse, OnTrue};
ghost use Rattle.std.specs.Option.{option_map};
ghost use Rattle.read_ahead.specs.Ahead.{Moves};
ghost use Rattle.read_ahead.specs.Causes.{ReadRose, StaysUnlessRead};
ghost use Rattle.script_reader.specs.Items.{items};
ghost use Rattle.script_reader.specs.Held.{IsItem, IsTextRefusal};
ghost use Rattle.script_reader.specs.State.{GivesItem, GivesTurn, IsReady, added_items, is_end, is_ended, items_left, line_items, position_of, short_of, with_item, work_left};

use crate::block::next_raw;
use crate::item::document_item;
use crate::{Item, Unread};
use line_reader::{Line, LineReader};
use read_ahead::InputFault;
use ri_base::NoMemory;
use ri_ends::Source;
use script_lines::{Asked, read_line};
use session_events::Event;
use std::alloc::Global;
use trec_reader::{DocReader, TrecRefusal};

/// What comes next in a script.
#[derive(Clone, Copy, Debug, PartialEq, Eq)]
pub enum Stage {
    /// A line.
    Lines,
    /// A document of the `add` line at this place: what the documents have ahead, and so many further bytes.
    Documents { place: u64, missing: u64 },
    /// So many bytes of the `add` line at this place that are skipped.
    Rest { place: u64, missing: u64 },
    /// Nothing: the script has ended.
    Ended,
}

/// The item behind the documents of an `add`, where so many bytes are missing.
fn short_item(place: u64, missing: u64) -> Option<Item>
    ensures { result ≡ short_of place missing }
{
    if missing == 0 {
        return None;
    }
    Some(Item::Unread {
        kind: Unread::ShortAdd,
        place,
    })
}

/// A refusal that stands in the text, or else the fault behind it.
fn text_refusal(refusal: TrecRefusal) -> Result<TrecRefusal, InputFault>
    ensures kept { IfOk result (λ r. (r ≡ refusal) × IsTextRefusal refusal) }
    ensures failed { IsErrOf result InputFault.Read → refusal ≡ TrecRefusal.Read }
    ensures read { refusal ≡ TrecRefusal.Read → IsErrOf result InputFault.Read }
{
    match refusal {
        TrecRefusal::Read => Err(InputFault::Read),
        TrecRefusal::Memory | TrecRefusal::Ended => Err(InputFault::Memory),
        _ => Ok(refusal),
    }
}

/// Reads the items of a script one after the other from the source that each call is lent. It holds bytes that it took
/// ahead, so the calls of one reader are lent one source.
#[derive(Drop)]
pub struct ItemReader {
    alloc: Global,
    lines: LineReader,
    documents: DocReader,
    /// How many bytes of documents didn't come from what the lines have ahead.
    passed: u64,
    stage: Stage,
}

impl ItemReader {
    /// A reader that has read nothing yet.
    pub fn new(alloc: Global) -> Result<Self, NoMemory>
        ensures items { IfOk result (λ r. (bytes : List ℕ) → items_left r bytes ≡ items bytes) }
        ensures ready { IfOk result (λ r. (left : Option (List ℕ)) (can_give : ℕ) → can_give < 2 ^ 64 → IsReady r left can_give) }
        ensures goes_on { IfOk result (λ r. is_ended r ≡ false) }
    {
        Ok(ItemReader {
            alloc,
            lines: LineReader::new(alloc)?,
            documents: DocReader::new(alloc)?,
            passed: 0,
            stage: Stage::Lines,
        })
    }

    /// Reads a document of an `add`.
    fn take_document<S: Source>(
        &mut self,
        place: u64,
        missing: u64,
        source: &mut S,
    ) -> Result<Option<Item>, InputFault>
        requires ready { IsReady self.old (S.left source.old) (S.can_give source.old) }
        requires stage { self.old.stage ≡ Stage.Documents place missing }
        ensures items { IfOk result (λ found. GivesTurn found self.old (S.left source.old) self.new (S.left source.new)) }
        ensures ready { OnOk result (IsReady self.new (S.left source.new) (S.can_give source.new)) }
        ensures lowers { OnOk result (work_left self.new (S.can_give source.new) < work_left self.old (S.can_give source.old)) }
        ensures ended { IfOk result (λ found. is_ended self.new ≡ is_end found) }
        ensures form { IfOk result (λ found. MatchOption found (Unit {0}) IsItem) }
        ensures moves { Moves S.layers S.held S.faults source.old source.new }
        ensures failed { ReadRose result (S.faults source.old) (S.faults source.new) }
        ensures same { StaysUnlessRead result (S.faults source.old) (S.faults source.new) }
    {
        let mut missing = missing;
        let taken = self.documents.taken();
        let result = next_raw(&mut self.documents, &mut missing, source);
        self.passed += self.documents.taken() - taken;
        match result {
            Ok(Some(raw)) => {
                self.stage = Stage::Documents { place, missing };
                Ok(Some(document_item(self.alloc, raw)?))
            }
            Ok(None) => {
                self.stage = Stage::Lines;
                Ok(short_item(place, missing))
            }
            Err(refusal) => {
                let refusal = text_refusal(refusal)?;
                self.stage = Stage::Rest { place, missing };
                Ok(Some(Item::Trec(refusal)))
            }
        }
    }

    /// Skips what is left of the bytes of an `add`.
    fn skip_rest<S: Source>(
        &mut self,
        place: u64,
        missing: u64,
        source: &mut S,
    ) -> Result<Option<Item>, InputFault>
        requires ready { IsReady self.old (S.left source.old) (S.can_give source.old) }
        requires stage { self.old.stage ≡ Stage.Rest place missing }
        ensures items { IfOk result (λ found. GivesTurn found self.old (S.left source.old) self.new (S.left source.new)) }
        ensures ready { OnOk result (IsReady self.new (S.left source.new) (S.can_give source.new)) }
        ensures lowers { OnOk result (work_left self.new (S.can_give source.new) < work_left self.old (S.can_give source.old)) }
        ensures ended { IfOk result (λ found. is_ended self.new ≡ is_end found) }
        ensures form { IfOk result (λ found. MatchOption found (Unit {0}) IsItem) }
        ensures moves { Moves S.layers S.held S.faults source.old source.new }
        ensures failed { ReadRose result (S.faults source.old) (S.faults source.new) }
        ensures same { StaysUnlessRead result (S.faults source.old) (S.faults source.new) }
    {
        let missing = self.lines.skip(missing, source)?;
        self.stage = Stage::Lines;
        Ok(short_item(place, missing))
    }

    /// Hands the next bytes, so many of them as the `add` line at this place says, to the documents.
    fn begin_documents(&mut self, place: u64, count: u64) -> Result<(), NoMemory>
        requires { position_of self.old + length self.old.lines.ahead.bytes < 2 ^ 64 }
        ensures items { OnOk result ((rest : List ℕ) → items_left self.new rest ≡ added_items place count (position_of self.old) (self.old.lines.ahead.bytes ++ rest)) }
        ensures ready { OnOk result ((left : Option (List ℕ)) (can_give : ℕ) → position_of self.old + length self.old.lines.ahead.bytes + can_give < 2 ^ 64 → IsReady self.new left can_give) }
        ensures lowers { OnOk result ((can_give : ℕ) → work_left self.new can_give ≤ 3 + 3 * (length self.old.lines.ahead.bytes + can_give)) }
        ensures goes_on { OnOk result (is_ended self.new ≡ false) }
    {
        let there = count.min(self.lines.bytes().len() as u64) as usize;
        self.documents.restart(&self.lines.bytes()[..there])?;
        let missing = self.lines.advance(count);
        self.stage = Stage::Documents { place, missing };
        Ok(())
    }

    /// Does what the line asks for that was read last.
    fn take_asked(&mut self, line: Line) -> Result<Option<Item>, InputFault>
        requires stage { self.old.stage ≡ Stage.Lines }
        requires place { line.place + self.old.passed < 2 ^ 64 }
        requires fits { position_of self.old + length self.old.lines.ahead.bytes < 2 ^ 64 }
        ensures items { IfOk result (λ found. (rest : List ℕ) → with_item found (items_left self.new rest)
            ≡ line_items line.is_too_long self.old.lines.text (line.place + self.old.passed) (position_of self.old) (self.old.lines.ahead.bytes ++ rest)) }
        ensures ready { OnOk result ((left : Option (List ℕ)) (can_give : ℕ) → position_of self.old + length self.old.lines.ahead.bytes + can_give < 2 ^ 64 → IsReady self.new left can_give) }
        ensures lowers { OnOk result ((can_give : ℕ) → work_left self.new can_give ≤ 3 + 3 * (length self.old.lines.ahead.bytes + can_give)) }
        ensures ended { IfOk result (λ found. is_ended self.new ≡ is_end found) }
        ensures form { IfOk result (λ found. MatchOption found (Unit {0}) IsItem) }
        ensures failed { IsErrOf result InputFault.Read → ⊥ }
    {
        let place = line.place + self.passed;
        if line.is_too_long {
            return Ok(Some(Item::Unread {
                kind: Unread::LineTooLong,
                place,
            }));
        }
        match read_line(self.alloc, self.lines.text())? {
            Asked::Nothing => Ok(None),
            Asked::Unknown => Ok(Some(Item::Unread {
                kind: Unread::BadEvent,
                place,
            })),
            Asked::Event(event) => Ok(Some(Item::Event(event))),
            Asked::Add(count) => {
                self.begin_documents(place, count)?;
                Ok(None)
            }
            Asked::End => {
                self.stage = Stage::Ended;
                Ok(Some(Item::Event(Event::End)))
            }
        }
    }

    /// Reads a line.
    fn take_line<S: Source>(&mut self, source: &mut S) -> Result<Option<Item>, InputFault>
        requires ready { IsReady self.old (S.left source.old) (S.can_give source.old) }
        requires stage { self.old.stage ≡ Stage.Lines }
        ensures items { IfOk result (λ found. GivesTurn found self.old (S.left source.old) self.new (S.left source.new)) }
        ensures ready { OnOk result (IsReady self.new (S.left source.new) (S.can_give source.new)) }
        ensures lowers { OnOk result (work_left self.new (S.can_give source.new) < work_left self.old (S.can_give source.old)) }
        ensures ended { IfOk result (λ found. is_ended self.new ≡ is_end found) }
        ensures form { IfOk result (λ found. MatchOption found (Unit {0}) IsItem) }
        ensures moves { Moves S.layers S.held S.faults source.old source.new }
        ensures failed { ReadRose result (S.faults source.old) (S.faults source.new) }
        ensures same { StaysUnlessRead result (S.faults source.old) (S.faults source.new) }
    {
        match self.lines.next_line(source)? {
            Some(line) => self.take_asked(line),
            None => {
                self.stage = Stage::Ended;
                Ok(Some(Item::Event(Event::End)))
            }
        }
    }

    /// Goes on by a line, a document or the skipping of others. The answer is the item that was there, if one was.
    fn turn<S: Source>(&mut self, source: &mut S) -> Result<Option<Item>, InputFault>
        requires ready { IsReady self.old (S.left source.old) (S.can_give source.old) }
        requires goes_on { is_ended self.old ≡ false }
        ensures items { IfOk result (λ found. GivesTurn found self.old (S.left source.old) self.new (S.left source.new)) }
        ensures ready { OnOk result (IsReady self.new (S.left source.new) (S.can_give source.new)) }
        ensures lowers { OnOk result (work_left self.new (S.can_give source.new) < work_left self.old (S.can_give source.old)) }
        ensures ended { IfOk result (λ found. is_ended self.new ≡ is_end found) }
        ensures form { IfOk result (λ found. MatchOption found (Unit {0}) IsItem) }
        ensures moves { Moves S.layers S.held S.faults source.old source.new }
        ensures failed { ReadRose result (S.faults source.old) (S.faults source.new) }
        ensures same { StaysUnlessRead result (S.faults source.old) (S.faults source.new) }
    {
        match self.stage {
            Stage::Lines => self.take_line(source),
            Stage::Documents { place, missing } => self.take_document(place, missing, source),
            Stage::Rest { place, missing } => self.skip_rest(place, missing, source),
            Stage::Ended => Ok(None),
        }
    }

    /// The next item. The last one is the event `end`, and behind it there is none.
    pub fn next_item<S: Source>(&mut self, source: &mut S) -> Result<Option<Item>, InputFault>
        requires { IsReady self.old (S.left source.old) (S.can_give source.old) }

        // The answer is the first of the items that were left.
        ensures items { IfOk result (λ found. GivesItem found self.old (S.left source.old) self.new (S.left source.new)) }
        ensures none { IfOk result (λ found. is_none found ≡ is_ended self.old) }
        ensures ended { IfOk result (λ found. is_ended self.new ≡ (is_none found || is_end found)) }

        ensures ready { OnOk result (IsReady self.new (S.left source.new) (S.can_give source.new)) }
        ensures lowers { IfOk result (λ found. OnSome found (work_left self.new (S.can_give source.new) < work_left self.old (S.can_give source.old))) }
        ensures form { IfOk result (λ found. MatchOption found (Unit {0}) IsItem) }
        ensures moves { Moves S.layers S.held S.faults source.old source.new }
        ensures failed { ReadRose result (S.faults source.old) (S.faults source.new) }
        ensures same { StaysUnlessRead result (S.faults source.old) (S.faults source.new) }
    {
        'turns: while self.stage != Stage::Ended {
            if let Some(item) = self.turn(source)? {
                return Ok(Some(item));
            }
        }
        Ok(None)
    }
}
