// Documents put together again from the blocks of a range.
ghost use Rattle.std.specs.Prelude.{◌≡◌, ◌<◌, Some, None, Ok, Err, length, map, replicate, set, slice_get, IfErr, IfOk, OnOk};
ghost use Rattle.std.specs.List.{All};
ghost use Rattle.std.specs.Option.{option_copied, option_map};
ghost use Rattle.seg_codec.specs.Held.{lengths_of};
ghost use Rattle.disk_index.specs.Kept.{IsOutline};
ghost use Rattle.disk_index.specs.Rebuild.{all_terms, document_of, documents_of, is_free, lengths, put_block, put_entry, put_places, term_in};

use ri_base::{Doc, List, NoMemory, Term, Terms};
use seg_codec::{BlockEntry, Entry, TermBlocks};
use std::alloc::Global;
use std::marker::Model;

/// A place of a block that isn't free: where it stands in the file.
#[derive(Clone, Copy, Debug)]
pub(crate) struct Taken {
    pub place: u64,
}

/// Of each token of a document the rank of its term, where a block has told it. Seen as its list.
#[derive(Drop)]
pub(crate) struct Slots {
    slots: Vec<Option<u32>>,
}

impl Model for Slots {
    ghost use Rattle.std.specs.Prelude.{ℕ, List, Option};

    ghost Value = { List (Option ℕ) };

    ghost view = { λ s. s.slots.items };
}

impl Slots {
    /// So many tokens, of which none is told.
    fn untold(alloc: Global, tokens: u32) -> Result<Slots, NoMemory>
        ensures { IfOk result (λ s. s ≡ replicate tokens None) }
    {
        Ok(Slots {
            slots: vec![in alloc; None; tokens as usize]?,
        })
    }

    /// Whether there is such a token, of which none is told yet.
    fn is_free(&self, at: u32) -> bool
        ensures { result ≡ is_free self.now at }
    {
        let at = at as usize;
        at < self.slots.len() && self.slots[at].is_none()
    }

    fn put(&mut self, at: u32, rank: u32)
        requires { at < length self.old }
        ensures { self.new ≡ set self.old at (Some rank) }
    {
        self.slots[at as usize] = Some(rank);
    }

    fn as_slice(&self) -> &[Option<u32>]
        ensures { result.now ≡ self.now }
    {
        self.slots.as_slice()
    }
}

/// A row for each document, in which no rank is told.
pub(crate) fn untold_rows(alloc: Global, outlines: &[Entry]) -> Result<Vec<Slots>, NoMemory>
    ensures { IfOk result (λ v. v.items ≡ map (λ o. replicate o.tokens None) outlines.now) }
{
    let mut rows = Vec::with_capacity(alloc, outlines.len())?;
    for outline in outlines {
        rows.push(Slots::untold(alloc, outline.tokens)?)?;
    }
    Ok(rows)
}

/// Tells the rank at these places, the first of which stands there in the file.
fn put_places(slots: &mut Slots, places: &[u32], rank: u32, begin: u64) -> Result<(), Taken>
    ensures ok { OnOk result (put_places begin rank places.now slots.old ≡ Ok slots.new) }
    ensures err { IfErr result (λ taken. put_places begin rank places.now slots.old ≡ Err taken.place) }
{
    let mut at = begin;
    for place in places {
        if !slots.is_free(*place) {
            return Err(Taken { place: at });
        }
        slots.put(*place, rank);
        at = at.saturating_add(4);
    }
    Ok(())
}

/// Tells the rank at the places of an entry, the first of which stands there in the file.
fn put_entry(rows: &mut Vec<Slots>, entry: &BlockEntry, rank: u32, begin: u64) -> Result<(), Taken>
    ensures ok { OnOk result (put_entry begin rank entry.now rows.old.items ≡ Ok rows.new.items) }
    ensures err { IfErr result (λ taken. put_entry begin rank entry.now rows.old.items ≡ Err taken.place) }
{
    let row = (entry.id % 64) as usize;
    if row >= rows.len() {
        return Err(Taken { place: begin });
    }
    put_places(&mut rows[row], entry.positions.as_slice(), rank, begin)?;
    Ok(())
}

/// Tells the rank at the places of a block's entries. The block begins there in the file.
pub(crate) fn put_block(
    rows: &mut Vec<Slots>,
    entries: &[BlockEntry],
    rank: u32,
    begin: u64,
) -> Result<(), Taken>
    ensures ok { OnOk result (put_block begin rank entries.now rows.old.items ≡ Ok rows.new.items) }
    ensures err { IfErr result (λ taken. put_block begin rank entries.now rows.old.items ≡ Err taken.place) }
{
    let mut at = begin.saturating_add(1);
    for entry in entries {
        // an id of one byte and a count of four stand before the places
        at = at.saturating_add(5);
        put_entry(rows, entry, rank, at)?;
        at = at.saturating_add((entry.positions.len() as u64).saturating_mul(4));
    }
    Ok(())
}

/// The term of this rank.
fn term_at(dictionary: &[TermBlocks], rank: usize) -> Option<&Term>
    ensures { option_copied result ≡ option_map (λ t. t.term) (slice_get dictionary.now rank) }
{
    if rank < dictionary.len() {
        Some(&dictionary[rank].term)
    } else {
        None
    }
}

/// The term of a rank, where one is told.
fn term_in(dictionary: &[TermBlocks], slot: Option<u32>) -> Option<&Term>
    ensures { option_copied result ≡ term_in dictionary.now slot }
{
    match slot {
        Some(rank) => term_at(dictionary, rank as usize),
        None => None,
    }
}

/// The terms of these ranks, where each is told.
fn all_terms(
    alloc: Global,
    dictionary: &[TermBlocks],
    slots: &[Option<u32>],
) -> Result<Option<Terms>, NoMemory>
    ensures { IfOk result (λ o. o ≡ all_terms dictionary.now slots.now) }
{
    let mut terms = Terms::with_capacity(alloc, slots.len())?;
    for slot in slots {
        match term_in(dictionary, *slot) {
            Some(term) => terms.push(term.clone_in(alloc)?)?,
            None => return Ok(None),
        }
    }
    Ok(Some(terms))
}

/// The document of this outline with these tokens.
fn with_tokens(alloc: Global, outline: &Entry, tokens: Terms) -> Result<Doc, NoMemory>
    requires form { IsOutline outline.now }
    requires size { length tokens ≡ outline.now.tokens }
    ensures { IfOk result (λ d. d ≡ record { docno = outline.now.docno; tokens = tokens; fields = outline.now.fields }) }
{
    let docno = outline.docno.clone_in(alloc)?;
    let fields = outline.fields.clone_in(alloc)?;
    Doc::new(alloc, docno, tokens, fields)
}

/// The document of this outline with the terms of its tokens, where each is told.
fn document_of(
    alloc: Global,
    dictionary: &[TermBlocks],
    outline: &Entry,
    slots: &Slots,
) -> Result<Option<Doc>, NoMemory>
    requires form { IsOutline outline.now }
    requires size { length slots.now ≡ outline.now.tokens }
    ensures { IfOk result (λ o. o ≡ document_of dictionary.now outline.now slots.now) }
{
    match all_terms(alloc, dictionary, slots.as_slice())? {
        Some(tokens) => Ok(Some(with_tokens(alloc, outline, tokens)?)),
        None => Ok(None),
    }
}

/// The documents of these outlines with the terms of their tokens, where each is told.
pub(crate) fn documents_of(
    alloc: Global,
    dictionary: &[TermBlocks],
    outlines: &[Entry],
    rows: &[Slots],
) -> Result<Option<List<Doc>>, NoMemory>
    requires form { All IsOutline outlines.now }
    requires shape { lengths rows.now ≡ lengths_of outlines.now }
    ensures { IfOk result (λ o. o ≡ documents_of dictionary.now outlines.now rows.now) }
{
    let mut docs = List::with_capacity(alloc, outlines.len())?;
    for i in 0..outlines.len() {
        match document_of(alloc, dictionary, &outlines[i], &rows[i])? {
            Some(doc) => docs.push(doc)?,
            None => return Ok(None),
        }
    }
    Ok(Some(docs))
}
