// Lines.
ghost use Rattle.std.specs.Prelude.{◌≡◌, ◌+◌, ◌-◌, ◌^◌, ◌<◌, ◌≤◌, ◌++◌, ◌||◌, ℕ, List, Option, [], IfOk, IfErr, IfSome, OnOk, OnSome, Some, length, take, drop, map, nat_lt, vec_len};
ghost use Rattle.std.specs.Bool.{OnFalse, OnTrue};
ghost use Rattle.std.specs.Option.{option_map};
ghost use Rattle.std.specs.List.{after_first, before_first};
ghost use Rattle.std.specs.Io.KnownBytes.{IsAtEnd, prepend_known};
ghost use Rattle.read_ahead.specs.Ahead.{Steps, most_of};
ghost use Rattle.read_ahead.specs.Causes.{ReadRose, StaysUnlessRead};
ghost use Rattle.read_ahead.specs.declared.ahead.TheConstants.{MOST_AHEAD};
ghost use Rattle.line_reader.specs.Lines.{behind_line, is_feed, has_feed, kept, line, without_return};
ghost use Rattle.line_reader.specs.Reads.{GivesLine};
ghost use Rattle.line_reader.specs.Texts.{text_answer, texts_at, trimmed};

use memchr::memchr;
use read_ahead::{InputFault, ReadAhead};
use ri_ends::{NoMemory, Source};
use std::alloc::Global;
use std::marker::Model;

/// The most bytes of a line, without its LF and a CR before that.
pub const LINE_BYTES: usize = 65_536;

/// How many bytes of a line are kept at most: so many tell that it is too long.
const KEPT_BYTES: usize = 65_538;

/// A line that was read: the offset of its first byte, and whether it has too many bytes. Its text is the reader's.
#[derive(Clone, Copy, Debug, PartialEq, Eq)]
pub struct Line {
    pub place: u64,
    pub is_too_long: bool,
}

/// Puts a further piece of a line behind what is kept of it.
#[tactic(auto, unfolding(crate::specs::Lines::kept))]
fn keep(text: &mut Vec<u8>, piece: &[u8]) -> Result<(), NoMemory>
    requires { vec_len text.old ≤ KEPT_BYTES }
    ensures kept { OnOk result (text.new.items ≡ kept (text.old.items ++ piece.now)) }
    ensures few { vec_len text.new ≤ KEPT_BYTES }
{
    let room = (KEPT_BYTES - text.len()).min(piece.len());
    text.extend_from_slice(&piece[..room])?;
    Ok(())
}

/// Reads what is ahead of a line, its LF too. The answer is whether that was there.
fn take_piece(ahead: &mut ReadAhead, text: &mut Vec<u8>) -> Result<bool, NoMemory>
    requires few { vec_len text.old ≤ KEPT_BYTES }
    requires fits { ahead.old.offset + length ahead.old.bytes < 2 ^ 64 }
    ensures ends { IfOk result (λ ends. ends ≡ has_feed ahead.old.bytes) }
    ensures text { OnOk result (text.new.items ≡ kept (text.old.items ++ before_first is_feed ahead.old.bytes)) }
    ensures few { vec_len text.new ≤ KEPT_BYTES }
    ensures advances { (count : ℕ) × (count ≤ length ahead.old.bytes) × (ahead.new.bytes ≡ drop count ahead.old.bytes) × (ahead.new.offset ≡ ahead.old.offset + count) }
    ensures rest { OnOk result (ahead.new.bytes ≡ after_first is_feed ahead.old.bytes) }
    ensures moves { OnOk result (0 < length ahead.old.bytes → ahead.old.offset < ahead.new.offset) }
{
    let bytes = ahead.bytes();
    match memchr(b'\n', bytes) {
        Some(count) => {
            keep(text, &bytes[..count])?;
            ahead.advance(count + 1);
            Ok(true)
        }
        None => {
            keep(text, bytes)?;
            let count = bytes.len();
            ahead.advance(count);
            Ok(false)
        }
    }
}

/// Reads a line behind what is kept of it, up to and with its LF or up to the end of the input.
fn read_text<S: Source>(
    ahead: &mut ReadAhead,
    text: &mut Vec<u8>,
    source: &mut S,
) -> Result<(), InputFault>
    requires few { vec_len text.old ≤ KEPT_BYTES }
    requires fits { most_of ahead.old (S.can_give source.old) < 2 ^ 64 }
    ensures text { OnOk result (IfSome (prepend_known ahead.old.bytes (S.left source.old)) (λ bytes. text.new.items ≡ kept (text.old.items ++ before_first is_feed bytes))) }
    ensures rest { OnOk result (prepend_known ahead.new.bytes (S.left source.new) ≡ option_map behind_line (prepend_known ahead.old.bytes (S.left source.old))) }
    ensures steps { Steps S.left S.layers S.held S.faults S.can_give ahead.old ahead.new source.old source.new }
    ensures failed { ReadRose result (S.faults source.old) (S.faults source.new) }
    ensures none { StaysUnlessRead result (S.faults source.old) (S.faults source.new) }
    ensures moves { OnOk result (0 < length ahead.old.bytes → ahead.old.offset < ahead.new.offset) }
{
    'pieces: loop {
        if take_piece(ahead, text)? {
            return Ok(());
        }
        if ahead.fill(source)? {
            return Ok(());
        }
    }
}

/// Takes a CR at the end away.
fn drop_return(text: &mut Vec<u8>)
    ensures { text.new.items ≡ without_return text.old.items }
{
    let count = text.len();
    if count > 0 && text[count - 1] == b'\r' {
        text.truncate(count - 1);
    }
}

/// Takes bytes from the source where none are ahead. The answer is whether a byte stands next; else the source has
/// ended.
fn has_next<S: Source>(ahead: &mut ReadAhead, source: &mut S) -> Result<bool, InputFault>
    ensures unread { prepend_known ahead.new.bytes (S.left source.new) ≡ prepend_known ahead.old.bytes (S.left source.old) }
    ensures offset { ahead.new.offset ≡ ahead.old.offset }
    ensures steps { Steps S.left S.layers S.held S.faults S.can_give ahead.old ahead.new source.old source.new }
    ensures some { IfOk result (λ some. OnTrue some (0 < length ahead.new.bytes)) }
    ensures end { IfOk result (λ some. OnFalse some ((ahead.new.bytes ≡ []) × IsAtEnd (S.left source.new))) }
    ensures failed { ReadRose result (S.faults source.old) (S.faults source.new) }
    ensures none { StaysUnlessRead result (S.faults source.old) (S.faults source.new) }
{
    if !ahead.bytes().is_empty() {
        return Ok(true);
    }
    let ended = ahead.fill(source)?;
    Ok(!ended)
}

/// Reads a line of which a byte is ahead.
#[tactic(auto, using(crate::proofs::LineLemmas::size_kept, crate::proofs::LineLemmas::text_kept), unfolding(crate::specs::Lines::line))]
fn read_line<S: Source>(
    ahead: &mut ReadAhead,
    text: &mut Vec<u8>,
    source: &mut S,
) -> Result<Line, InputFault>
    requires some { 0 < length ahead.old.bytes }
    requires fits { most_of ahead.old (S.can_give source.old) < 2 ^ 64 }
    ensures read { IfOk result (λ found. GivesLine (Some found) text.new.items ahead.old.offset (prepend_known ahead.old.bytes (S.left source.old)) (prepend_known ahead.new.bytes (S.left source.new))) }
    ensures steps { Steps S.left S.layers S.held S.faults S.can_give ahead.old ahead.new source.old source.new }
    ensures failed { ReadRose result (S.faults source.old) (S.faults source.new) }
    ensures none { StaysUnlessRead result (S.faults source.old) (S.faults source.new) }
    ensures moves { OnOk result (ahead.old.offset < ahead.new.offset) }
{
    let place = ahead.offset();
    text.clear();
    read_text(ahead, text, source)?;
    drop_return(text);
    Ok(Line {
        place,
        is_too_long: text.len() > LINE_BYTES,
    })
}

/// Reads so many of the bytes ahead as are there. The answer is how many are missing.
fn advance_within(ahead: &mut ReadAhead, count: u64) -> u64
    requires { ahead.old.offset + length ahead.old.bytes < 2 ^ 64 }
    ensures rest { ahead.new.bytes ≡ drop count ahead.old.bytes }
    ensures missing { result ≡ count - length ahead.old.bytes }
    ensures offset { ahead.new.offset + result ≡ ahead.old.offset + count }
    ensures not_back { ahead.old.offset ≤ ahead.new.offset }
    ensures most { ahead.new.offset + length ahead.new.bytes ≡ ahead.old.offset + length ahead.old.bytes }
{
    let there = count.min(ahead.bytes().len() as u64);
    ahead.advance(there as usize);
    count - there
}

/// Skips so many bytes. The answer is how many are missing where the input ends before.
fn skip<S: Source>(ahead: &mut ReadAhead, count: u64, source: &mut S) -> Result<u64, InputFault>
    requires { most_of ahead.old (S.can_give source.old) < 2 ^ 64 }
    ensures rest { OnOk result (prepend_known ahead.new.bytes (S.left source.new) ≡ option_map (drop count) (prepend_known ahead.old.bytes (S.left source.old))) }
    ensures missing { IfOk result (λ n. IfSome (prepend_known ahead.old.bytes (S.left source.old)) (λ bytes. n ≡ count - length bytes)) }
    ensures offset { IfOk result (λ n. ahead.new.offset + n ≡ ahead.old.offset + count) }
    ensures steps { Steps S.left S.layers S.held S.faults S.can_give ahead.old ahead.new source.old source.new }
    ensures failed { ReadRose result (S.faults source.old) (S.faults source.new) }
    ensures none { StaysUnlessRead result (S.faults source.old) (S.faults source.new) }
{
    let mut missing = count;
    'pieces: loop {
        missing = advance_within(ahead, missing);
        if missing == 0 || ahead.fill(source)? {
            return Ok(missing);
        }
    }
}

/// Reads lines one after the other from the source that each call is lent. It holds bytes that it took ahead, so the
/// calls of one reader are lent one source.
#[derive(Drop)]
pub struct LineReader {
    ahead: ReadAhead,
    text: Vec<u8>,
}

impl Model for LineReader {
    ghost use Rattle.line_reader.specs.Reads.{Lines};

    ghost Value = { Lines };

    ghost view = { λ r. record { ahead = r.ahead; text = r.text.items } };
}

impl LineReader {
    /// A reader that has read nothing yet.
    pub fn new(alloc: Global) -> Result<Self, NoMemory>
        ensures { IfOk result (λ r. (r.ahead.bytes ≡ []) × (r.ahead.offset ≡ 0)) }
    {
        Ok(LineReader {
            ahead: ReadAhead::new(alloc)?,
            text: Vec::new(alloc),
        })
    }

    /// The text of the line that was read last, unless that is too long.
    pub fn text(&self) -> &[u8]
        ensures { result.now ≡ self.now.text }
    {
        self.text.as_slice()
    }

    /// The bytes ahead.
    pub fn bytes(&self) -> &[u8]
        ensures exact { result.now ≡ self.now.ahead.bytes }
        ensures most { length result.now ≤ MOST_AHEAD }
    {
        self.ahead.bytes()
    }

    /// Reads so many of the bytes ahead as are there. The answer is how many are missing.
    pub fn advance(&mut self, count: u64) -> u64
        requires { self.old.ahead.offset + length self.old.ahead.bytes < 2 ^ 64 }
        ensures rest { self.new.ahead.bytes ≡ drop count self.old.ahead.bytes }
        ensures missing { result ≡ count - length self.old.ahead.bytes }
        ensures offset { self.new.ahead.offset + result ≡ self.old.ahead.offset + count }
        ensures most { self.new.ahead.offset + length self.new.ahead.bytes ≡ self.old.ahead.offset + length self.old.ahead.bytes }
    {
        advance_within(&mut self.ahead, count)
    }

    /// Skips so many bytes. The answer is how many are missing where the input ends before.
    pub fn skip<S: Source>(&mut self, count: u64, source: &mut S) -> Result<u64, InputFault>
        requires { most_of self.old.ahead (S.can_give source.old) < 2 ^ 64 }
        ensures rest { OnOk result (prepend_known self.new.ahead.bytes (S.left source.new) ≡ option_map (drop count) (prepend_known self.old.ahead.bytes (S.left source.old))) }
        ensures missing { IfOk result (λ n. IfSome (prepend_known self.old.ahead.bytes (S.left source.old)) (λ bytes. n ≡ count - length bytes)) }
        ensures offset { IfOk result (λ n. self.new.ahead.offset + n ≡ self.old.ahead.offset + count) }
        ensures steps { Steps S.left S.layers S.held S.faults S.can_give self.old.ahead self.new.ahead source.old source.new }
        ensures failed { ReadRose result (S.faults source.old) (S.faults source.new) }
        ensures none { StaysUnlessRead result (S.faults source.old) (S.faults source.new) }
    {
        skip(&mut self.ahead, count, source)
    }

    /// The next line, or none at the end of the input.
    pub fn next_line<S: Source>(&mut self, source: &mut S) -> Result<Option<Line>, InputFault>
        requires { most_of self.old.ahead (S.can_give source.old) < 2 ^ 64 }
        ensures read { IfOk result (λ found. GivesLine found self.new.text self.old.ahead.offset (prepend_known self.old.ahead.bytes (S.left source.old)) (prepend_known self.new.ahead.bytes (S.left source.new))) }
        ensures steps { Steps S.left S.layers S.held S.faults S.can_give self.old.ahead self.new.ahead source.old source.new }
        ensures failed { ReadRose result (S.faults source.old) (S.faults source.new) }
        ensures none { StaysUnlessRead result (S.faults source.old) (S.faults source.new) }
        ensures moves { IfOk result (λ found. OnSome found (self.old.ahead.offset < self.new.ahead.offset)) }
    {
        if has_next(&mut self.ahead, source)? {
            Ok(Some(read_line(&mut self.ahead, &mut self.text, source)?))
        } else {
            Ok(None)
        }
    }

    /// The text of the line that was read last, without the white space at both ends.
    #[tactic(auto, using(crate::proofs::TextLemmas::trimmed_is))]
    pub fn trimmed(&self) -> &[u8]
        ensures { result.now ≡ trimmed self.now.text }
    {
        self.text.trim_ascii()
    }

    /// Whether the line that was read last has more than white space or is too long.
    fn is_some(&self, line: Line) -> bool
        ensures { result ≡ (line.is_too_long || nat_lt 0 (length (trimmed self.now.text))) }
    {
        line.is_too_long || self.trimmed().len() > 0
    }

    /// The next line that has more than white space or is too long, or none at the end of the input.
    pub fn next_text<S: Source>(&mut self, source: &mut S) -> Result<Option<Line>, InputFault>
        requires { most_of self.old.ahead (S.can_give source.old) < 2 ^ 64 }
        ensures texts { IfOk result (λ found. option_map (texts_at self.old.ahead.offset) (prepend_known self.old.ahead.bytes (S.left source.old))
            ≡ option_map (text_answer found self.new.text self.new.ahead.offset) (prepend_known self.new.ahead.bytes (S.left source.new))) }
        ensures steps { Steps S.left S.layers S.held S.faults S.can_give self.old.ahead self.new.ahead source.old source.new }
        ensures failed { ReadRose result (S.faults source.old) (S.faults source.new) }
        ensures none { StaysUnlessRead result (S.faults source.old) (S.faults source.new) }
        ensures moves { IfOk result (λ found. OnSome found (self.old.ahead.offset < self.new.ahead.offset)) }
    {
        'lines: while let Some(line) = self.next_line(source)? {
            if self.is_some(line) {
                return Ok(Some(line));
            }
        }
        Ok(None)
    }
}
