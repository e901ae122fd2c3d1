// The documents part of a segment.
ghost use Rattle.std.specs.Prelude.{◌≡◌, ◌<◌, ◌^◌, ◌==◌, [], ℕ, length, map, sum_by, IfOk, nat_lt, nat_le, ◌&&◌};
ghost use Rattle.std.specs.List.{All};
ghost use Rattle.std.specs.Int.{w16, w32};
ghost use Rattle.ri_base.specs.FieldAnswers.{Gives};
ghost use Rattle.ri_base.specs.Fields.{name_behind, ruled};
ghost use Rattle.ri_base.specs.Reading.{repeat};
ghost use Rattle.ri_base.specs.declared.limits.TheConstants.{MAX_DOC_TOKENS};
ghost use Rattle.seg_codec.specs.Documents.{are_whole, documents, entry, fields, first_row, is_behind, listed, named, names_in_order, row, rows};

use crate::header::Header;
use crate::names::names_of;
use ri_base::file_fields::{Broken, docno_at, kept, name_behind_at, u16_at, u32_at};
use ri_base::limits::MAX_DOC_TOKENS;
use ri_base::{Docno, FieldSpan, Name, NoMemory, Spans};
use std::alloc::Global;
use std::marker::Model;

/// A field whose name is told by its number.
#[derive(Clone, Copy, Debug, PartialEq, Eq)]
pub struct Row {
    pub name: u16,
    pub begin: u32,
    pub end: u32,
}

/// A document without its tokens, of which it has so many.
#[derive(Debug, Drop)]
pub struct Entry {
    pub docno: Docno,
    pub tokens: u32,
    pub fields: Spans,
}

/// The documents of a segment by id, without their tokens, seen as their list. Their ids have 32 bits.
#[derive(Debug, Drop)]
pub struct Documents {
    entries: Vec<Entry>,
}

impl Model for Documents {
    ghost use Rattle.std.specs.Prelude.{◌<◌, ◌^◌, List, length};
    ghost use Rattle.seg_codec.specs.declared.documents.Entry.{Entry};

    ghost Value = { List Entry };

    ghost view = { λ d. d.entries.items };

    ghost invariant = { λ d. length d.entries.items < 2 ^ 32 };
}

impl Documents {
    /// So many documents.
    fn of(entries: Vec<Entry>, count: u32) -> Documents
        requires { length entries.items ≡ count }
        ensures { result ≡ entries.items }
    {
        Documents { entries }
    }

    pub fn as_slice(&self) -> &[Entry]
        ensures same { result.now ≡ self.now }
        ensures few { length result.now < 2 ^ 32 }
    {
        self.entries.as_slice()
    }

    pub(crate) fn into_entries(self) -> Vec<Entry>
        ensures { result.items ≡ self }
    {
        self.entries
    }
}

#[tactic(auto, unfolding(ri_base::specs::Fields::ruled))]
fn name_number_at(names: usize, bytes: &[u8]) -> Result<(u16, &[u8]), Broken>
    ensures { Gives (λ x. (x.0, x.1.now)) result (ruled w16 (λ n. nat_lt n names) bytes.now) }
{
    let (name, rest) = u16_at(bytes)?;
    kept(usize::from(name) < names, name, rest, bytes)
}

#[tactic(auto, unfolding(ri_base::specs::Fields::ruled))]
fn number_from(least: u32, bytes: &[u8]) -> Result<(u32, &[u8]), Broken>
    ensures { Gives (λ x. (x.0, x.1.now)) result (ruled w32 (λ b. nat_le least b) bytes.now) }
{
    let (number, rest) = u32_at(bytes)?;
    kept(least <= number, number, rest, bytes)
}

/// The number of tokens of a document.
#[tactic(auto, unfolding(ri_base::specs::Fields::ruled))]
fn tokens_at(bytes: &[u8]) -> Result<(u32, &[u8]), Broken>
    ensures { Gives (λ x. (x.0, x.1.now)) result (ruled w32 (λ n. nat_le n MAX_DOC_TOKENS) bytes.now) }
{
    let (tokens, rest) = u32_at(bytes)?;
    kept(tokens as usize <= MAX_DOC_TOKENS, tokens, rest, bytes)
}

/// Whether one stands before the other: by begin, then end, then the number of the name.
fn is_behind(a: Row, b: Row) -> bool
    ensures { result ≡ is_behind a b }
{
    a.begin < b.begin
        || (a.begin == b.begin && (a.end < b.end || (a.end == b.end && a.name < b.name)))
}

#[tactic(auto, unfolding(ri_base::specs::Fields::ruled))]
fn end_at(
    tokens: u32,
    before: Row,
    name: u16,
    begin: u32,
    bytes: &[u8],
) -> Result<(u32, &[u8]), Broken>
    ensures { Gives (λ x. (x.0, x.1.now)) result (ruled w32 (λ e. nat_lt begin e && nat_le e tokens && is_behind before (record { name = name; begin = begin; end = e })) bytes.now) }
{
    let (end, rest) = u32_at(bytes)?;
    if begin < end && end <= tokens && is_behind(before, Row { name, begin, end }) {
        Ok((end, rest))
    } else {
        Err(Broken::At(bytes.len()))
    }
}

#[tactic(auto, unfolding(crate::specs::Documents::row))]
fn row_at(names: usize, tokens: u32, before: Row, bytes: &[u8]) -> Result<(Row, &[u8]), Broken>
    ensures { Gives (λ x. (x.0, x.1.now)) result (row names tokens before bytes.now) }
{
    let (name, rest) = name_number_at(names, bytes)?;
    let (begin, rest) = number_from(before.begin, rest)?;
    let (end, rest) = end_at(tokens, before, name, begin, rest)?;
    Ok((Row { name, begin, end }, rest))
}

/// So many fields.
fn rows_from(
    alloc: Global,
    names: usize,
    tokens: u32,
    count: u16,
    bytes: &[u8],
) -> Result<(Vec<Row>, &[u8]), Broken>
    ensures { Gives (λ x. (x.0.items, x.1.now)) result (repeat (row names tokens) (λ _ r. r) count first_row bytes.now) }
{
    let mut rows = Vec::with_capacity(alloc, usize::from(count).min(bytes.len() / 10))?;
    let mut before = Row {
        name: 0,
        begin: 0,
        end: 0,
    };
    let mut rest = bytes;
    for _ in 0..count {
        let (row, after) = row_at(names, tokens, before, rest)?;
        rows.push(row)?;
        before = row;
        rest = after;
    }
    Ok((rows, rest))
}

/// The fields of a document, as they stand there.
#[tactic(auto, unfolding(crate::specs::Documents::rows))]
fn rows_at(
    alloc: Global,
    names: usize,
    tokens: u32,
    bytes: &[u8],
) -> Result<(Vec<Row>, &[u8]), Broken>
    ensures { Gives (λ x. (x.0.items, x.1.now)) result (rows names tokens bytes.now) }
{
    let (count, rest) = u16_at(bytes)?;
    rows_from(alloc, names, tokens, count, rest)
}

/// The fields for which these stand.
fn fields_of(alloc: Global, names: &[Name], rows: &[Row]) -> Result<Spans, NoMemory>
    requires known { All (λ r. r.name < length names.now) rows.now }
    requires some { All (λ r. r.begin < r.end) rows.now }
    ensures { IfOk result (λ fs. fs ≡ map (named names.now) rows.now) }
{
    let mut fields = Vec::with_capacity(alloc, rows.len())?;
    for row in rows {
        let name = names[usize::from(row.name)].clone_in(alloc)?;
        fields.push(FieldSpan::new(name, row.begin, row.end))?;
    }
    Ok(Spans::of(fields))
}

#[tactic(auto, unfolding(crate::specs::Documents::fields), using(crate::proofs::Rows::known_rows, crate::proofs::Rows::some_rows))]
fn fields_at<'a>(
    alloc: Global,
    names: &[Name],
    tokens: u32,
    bytes: &'a [u8],
) -> Result<(Spans, &'a [u8]), Broken>
    ensures { Gives (λ x. (x.0, x.1.now)) result (fields names.now tokens bytes.now) }
{
    let (rows, rest) = rows_at(alloc, names.len(), tokens, bytes)?;
    let fields = fields_of(alloc, names, &rows)?;
    Ok((fields, rest))
}

#[tactic(auto, unfolding(crate::specs::Documents::entry))]
fn entry_at<'a>(alloc: Global, names: &[Name], bytes: &'a [u8]) -> Result<(Entry, &'a [u8]), Broken>
    ensures { Gives (λ x. (x.0, x.1.now)) result (entry names.now bytes.now) }
{
    let (docno, rest) = docno_at(alloc, bytes)?;
    let (tokens, rest) = tokens_at(rest)?;
    let (fields, rest) = fields_at(alloc, names, tokens, rest)?;
    Ok((
        Entry {
            docno,
            tokens,
            fields,
        },
        rest,
    ))
}

fn entries_from<'a>(
    alloc: Global,
    names: &[Name],
    count: u32,
    bytes: &'a [u8],
) -> Result<(Vec<Entry>, &'a [u8]), Broken>
    ensures { Gives (λ x. (x.0.items, x.1.now)) result (repeat {S = ℕ} (λ _. entry names.now) (λ s _. s) count 0 bytes.now) }
{
    let mut entries = Vec::with_capacity(alloc, (count as usize).min(bytes.len() / 8))?;
    let mut rest = bytes;
    for _ in 0..count {
        let (entry, after) = entry_at(alloc, names, rest)?;
        entries.push(entry)?;
        rest = after;
    }
    Ok((entries, rest))
}

fn names_from(alloc: Global, count: u32, bytes: &[u8]) -> Result<(Vec<Name>, &[u8]), Broken>
    ensures { Gives (λ x. (x.0.items, x.1.now)) result (repeat name_behind (λ _ x. x) count [] bytes.now) }
{
    let mut names = Vec::with_capacity(alloc, (count as usize).min(bytes.len() / 2))?;
    let mut before: &[u8] = &[];
    let mut rest = bytes;
    for _ in 0..count {
        let (name, text, after) = name_behind_at(alloc, before, rest)?;
        names.push(name)?;
        before = text;
        rest = after;
    }
    Ok((names, rest))
}

#[tactic(auto, unfolding(crate::specs::Documents::listed), using(crate::proofs::ListedLemmas::listed_fails))]
fn listed_at(
    alloc: Global,
    names: u32,
    docs: u32,
    bytes: &[u8],
) -> Result<(Vec<Name>, Vec<Entry>, &[u8]), Broken>
    ensures { Gives (λ x. ((x.0.items, x.1.items), x.2.now)) result (listed names docs bytes.now) }
{
    let (names, rest) = names_from(alloc, names, bytes)?;
    let (entries, rest) = entries_from(alloc, &names, docs, rest)?;
    Ok((names, entries, rest))
}

/// Whether the documents have so many tokens together.
fn have_tokens(entries: &[Entry], tokens: u64) -> bool
    ensures { result ≡ (sum_by (λ e. e.tokens) entries.now == tokens) }
{
    let mut left = tokens;
    for entry in entries {
        let tokens = u64::from(entry.tokens);
        if tokens > left {
            return false;
        }
        left -= tokens;
    }
    left == 0
}

/// Whether the documents have so many tokens, and the names are those of their fields.
fn are_whole(
    alloc: Global,
    tokens: u64,
    names: &[Name],
    entries: &[Entry],
) -> Result<bool, NoMemory>
    ensures { IfOk result (λ b. b ≡ are_whole tokens (names.now, entries.now)) }
{
    let in_order = names_of(alloc, entries)?;
    Ok(have_tokens(entries, tokens) && names == in_order.as_slice())
}

fn entries_of(alloc: Global, header: &Header, bytes: &[u8]) -> Result<Vec<Entry>, Broken>
    ensures { Gives (λ v. v.items) result (documents header.now bytes.now) }
{
    let (names, entries, rest) = listed_at(alloc, header.names, header.docs, bytes)?;
    if rest.len() > 0 {
        return Err(Broken::At(rest.len()));
    }
    if are_whole(alloc, header.tokens, &names, &entries)? {
        Ok(entries)
    } else {
        Err(Broken::At(0))
    }
}

/// The documents part, all of these bytes.
pub fn documents_of(alloc: Global, header: &Header, bytes: &[u8]) -> Result<Documents, Broken>
    ensures { Gives (λ d. d) result (documents header.now bytes.now) }
{
    match entries_of(alloc, header, bytes) {
        Ok(entries) => Ok(Documents::of(entries, header.docs)),
        Err(broken) => Err(broken),
    }
}
