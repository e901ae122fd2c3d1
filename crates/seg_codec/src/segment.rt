// The bytes of a segment.
ghost use Rattle.std.specs.Prelude.{◌≡◌, ◌<◌, ◌≤◌, ◌+◌, ◌*◌, ◌++◌, ◌∷◌, [], length, map, IsTrue, IfOk, OnOk, IfSome, OnSome};
ghost use Rattle.std.specs.Int.{w16, w32, w64, to_le_bytes};
ghost use Rattle.std.specs.Cmp.Lexicographic.{slice_cmp};
ghost use Rattle.std.specs.List.{All, flat_map};
ghost use Rattle.std.specs.List.Sorted.{IsStrictlySortedBy};
ghost use Rattle.std.specs.Ordering.{nat_cmp};
ghost use Rattle.ri_base.specs.Collection.{name_count, token_count};
ghost use Rattle.ri_base.specs.Text.{is_docno, is_name, is_term};
ghost use Rattle.ri_base.specs.Vocabulary.{vocabulary_of};
ghost use Rattle.ri_base.specs.Spelling.{spelled_text};
ghost use Rattle.ri_base.specs.declared.limits.TheConstants.{MAX_HELD_TOKENS, MAX_PART_DOCS, MAX_PART_NAMES};
ghost use Rattle.seg_codec.specs.Documents.{names_in_order};
ghost use Rattle.seg_codec.specs.Part.{HasDocno, IsPart};
ghost use Rattle.seg_codec.specs.Segment.{all_blocks, dictionary_size, entry_of, header_of, index, segment, term_size};
ghost use Rattle.seg_codec.specs.Spelling.{dictionary_bytes, documents_bytes, header_bytes, number_of, numbered, spelled_entry, spelled_row, spelled_rows};

use crate::header::Header;
use crate::names::{add_names, listed};
use crate::writing::{count_ranges, put_term_blocks};
use ri_base::file_fields::{put_docno, put_name, put_u16, put_u32, put_u64};
use ri_base::{Bytes, Docno, FieldSpan, Name, NoMemory, Place, Postings, Sealed};
use std::alloc::{AllocError, Global};
use std::collections::BTreeSet;

/// The distinct names of the fields of all documents, in rising order of bytes.
fn names_of(alloc: Global, sealed: &Sealed) -> Result<Vec<Name>, NoMemory>
    ensures { IfOk result (λ v. v.items ≡ names_in_order (map entry_of sealed.now)) }
{
    let mut names = BTreeSet::new(alloc);
    let mut id = sealed.docs();
    while id > 0 {
        id -= 1;
        add_names(alloc, &mut names, sealed.spans(id))?;
    }
    listed(alloc, names)
}

/// The place of a name among the names, which rise; their number where it isn't one of them.
fn number_of(names: &[Name], name: &Name) -> usize
    requires { IsStrictlySortedBy (slice_cmp nat_cmp) names.now }
    ensures { result ≡ number_of names.now name.now }
{
    match names.binary_search(name) {
        Ok(number) => number,
        Err(_) => names.len(),
    }
}

fn put_row(out: &mut Vec<u8>, names: &[Name], field: &FieldSpan) -> Result<(), NoMemory>
    requires { IsStrictlySortedBy (slice_cmp nat_cmp) names.now }
    ensures { OnOk result (out.new.items ≡ out.old.items ++ spelled_row (numbered names.now field.now)) }
{
    let Ok(name) = u16::try_from(number_of(names, field.name())) else {
        return Err(AllocError);
    };
    put_u16(out, name)?;
    put_u32(out, field.begin())?;
    put_u32(out, field.end())?;
    Ok(())
}

fn put_rows(out: &mut Vec<u8>, names: &[Name], fields: &[FieldSpan]) -> Result<(), NoMemory>
    requires { IsStrictlySortedBy (slice_cmp nat_cmp) names.now }
    ensures { OnOk result (out.new.items ≡ out.old.items ++ spelled_rows (map (numbered names.now) fields.now)) }
{
    let Ok(count) = u16::try_from(fields.len()) else {
        return Err(AllocError);
    };
    put_u16(out, count)?;
    for field in fields {
        put_row(out, names, field)?;
    }
    Ok(())
}

fn put_entry(
    out: &mut Vec<u8>,
    names: &[Name],
    docno: &Docno,
    tokens: u32,
    fields: &[FieldSpan],
) -> Result<(), NoMemory>
    requires { IsStrictlySortedBy (slice_cmp nat_cmp) names.now }
    ensures written { OnOk result (out.new.items ≡ out.old.items ++ spelled_entry names.now (record { docno = docno.now; tokens = tokens; fields = fields.now })) }
    ensures form { IsTrue (is_docno docno.now) }
{
    put_docno(out, docno)?;
    put_u32(out, tokens)?;
    put_rows(out, names, fields)
}

fn put_names(out: &mut Vec<u8>, names: &[Name]) -> Result<(), NoMemory>
    ensures written { OnOk result (out.new.items ≡ out.old.items ++ flat_map spelled_text names.now) }
    ensures formed { OnOk result (All (λ n. IsTrue (is_name n)) names.now) }
{
    for name in names {
        put_name(out, name)?;
    }
    Ok(())
}

fn put_entries(out: &mut Vec<u8>, names: &[Name], sealed: &Sealed) -> Result<(), NoMemory>
    requires { IsStrictlySortedBy (slice_cmp nat_cmp) names.now }
    ensures written { OnOk result (out.new.items ≡ out.old.items ++ flat_map (spelled_entry names.now) (map entry_of sealed.now)) }
    ensures formed { OnOk result (All HasDocno sealed.now) }
{
    for id in 0..sealed.docs() {
        put_entry(
            out,
            names,
            sealed.docno(id),
            sealed.length(id),
            sealed.spans(id),
        )?;
    }
    Ok(())
}

/// The documents part, for these names.
fn documents_of(alloc: Global, names: &[Name], sealed: &Sealed) -> Result<Vec<u8>, NoMemory>
    requires { names.now ≡ names_in_order (map entry_of sealed.now) }
    ensures written { IfOk result (λ v. v.items ≡ documents_bytes (map entry_of sealed.now)) }
    ensures formed { OnOk result (All HasDocno sealed.now) }
    ensures named { OnOk result (All (λ n. IsTrue (is_name n)) (names_in_order (map entry_of sealed.now))) }
{
    let mut out = Vec::new(alloc);
    put_names(&mut out, names)?;
    put_entries(&mut out, names, sealed)?;
    Ok(out)
}

/// How many bytes a term has in the dictionary.
fn term_size(term: &[u8], postings: &[Place]) -> Option<u64>
    ensures { IfSome result (λ n. n ≡ term_size term.now postings.now) }
{
    let ranges = (count_ranges(postings) as u64).checked_mul(16)?;
    (5 + term.len() as u64).checked_add(ranges)
}

/// How many bytes the dictionary has.
fn dictionary_size(sealed: &Sealed) -> Option<u64>
    ensures { IfSome result (λ n. n ≡ dictionary_size (vocabulary_of sealed.now) sealed.now) }
{
    let vocabulary = sealed.vocabulary().as_slice();
    let mut size = 0u64;
    for rank in 0..vocabulary.len() {
        let term = term_size(
            vocabulary[rank].as_bytes(),
            sealed.postings(rank).as_slice(),
        )?;
        size = size.checked_add(term)?;
    }
    Some(size)
}

/// The dictionary and the blocks, from a place on.
fn put_terms(
    dictionary: &mut Vec<u8>,
    blocks: &mut Vec<u8>,
    place: u64,
    sealed: &Sealed,
) -> Result<(), NoMemory>
    ensures dictionary { OnOk result (dictionary.new.items ≡ dictionary.old.items ++ dictionary_bytes (index place (vocabulary_of sealed.now) sealed.now)) }
    ensures blocks { OnOk result (blocks.new.items ≡ blocks.old.items ++ all_blocks (vocabulary_of sealed.now) sealed.now) }
    ensures formed { OnOk result (All (λ t. IsTrue (is_term t)) (vocabulary_of sealed.now)) }
{
    let vocabulary = sealed.vocabulary().as_slice();
    let mut at = place;
    for rank in 0..vocabulary.len() {
        at = put_term_blocks(
            dictionary,
            blocks,
            at,
            &vocabulary[rank],
            sealed.postings(rank).as_slice(),
        )?;
    }
    Ok(())
}

fn put_counts(out: &mut Vec<u8>, header: Header) -> Result<(), NoMemory>
    ensures { OnOk result (out.new.items ≡ out.old.items ++ (to_le_bytes w32 header.docs ++ (to_le_bytes w64 header.tokens ++ (to_le_bytes w32 header.terms ++ to_le_bytes w32 header.names)))) }
{
    put_u32(out, header.docs)?;
    put_u64(out, header.tokens)?;
    put_u32(out, header.terms)?;
    put_u32(out, header.names)?;
    Ok(())
}

fn put_header_places(out: &mut Vec<u8>, header: Header) -> Result<(), NoMemory>
    ensures { OnOk result (out.new.items ≡ out.old.items ++ (to_le_bytes w64 header.documents_at ++ (to_le_bytes w64 header.dictionary_at ++ (to_le_bytes w64 header.blocks_at ++ to_le_bytes w64 header.length)))) }
{
    put_u64(out, header.documents_at)?;
    put_u64(out, header.dictionary_at)?;
    put_u64(out, header.blocks_at)?;
    put_u64(out, header.length)?;
    Ok(())
}

fn put_header(out: &mut Vec<u8>, header: Header) -> Result<(), NoMemory>
    ensures { OnOk result (out.new.items ≡ out.old.items ++ header_bytes header) }
{
    out.extend_from_slice(b"indriseg".as_slice())?;
    put_u32(out, 1)?;
    put_counts(out, header)?;
    put_header_places(out, header)
}

fn header_for(
    sealed: &Sealed,
    names: usize,
    documents: usize,
    blocks: usize,
    size: u64,
) -> Option<Header>
    requires names { names ≡ length (names_in_order (map entry_of sealed.now)) }
    requires documents { documents ≡ length (documents_bytes (map entry_of sealed.now)) }
    requires blocks { blocks ≡ length (all_blocks (vocabulary_of sealed.now) sealed.now) }
    requires size { size ≡ dictionary_size (vocabulary_of sealed.now) sealed.now }
    ensures header { IfSome result (λ h. h ≡ header_of sealed.now) }
    ensures short { OnSome result (token_count sealed.now ≤ MAX_HELD_TOKENS) }
{
    let dictionary_at = 64u64.checked_add(documents as u64)?;
    let blocks_at = dictionary_at.checked_add(size)?;
    let length = blocks_at.checked_add(blocks as u64)?;
    let (Ok(terms), Ok(names)) = (
        u32::try_from(sealed.vocabulary().len()),
        u32::try_from(names),
    ) else {
        return None;
    };
    Some(Header {
        docs: sealed.docs(),
        tokens: sealed.token_count(),
        terms,
        names,
        documents_at: 64,
        dictionary_at,
        blocks_at,
        length,
    })
}

/// The segment of the documents.
#[tactic(auto, unfolding(crate::specs::Segment::segment), using(crate::proofs::PartLemmas::part_of))]
pub fn seg_bytes(alloc: Global, sealed: &Sealed) -> Result<Bytes, NoMemory>
    requires few { length sealed.now ≤ MAX_PART_DOCS }
    requires named { name_count sealed.now ≤ MAX_PART_NAMES }
    ensures written { IfOk result (λ b. b ≡ segment sealed.now) }
    // The documents are some that have a segment, so it is one that is read.
    ensures part { OnOk result (IsPart sealed.now) }
{
    let names = names_of(alloc, sealed)?;
    let documents = documents_of(alloc, &names, sealed)?;
    let Some(size) = dictionary_size(sealed) else {
        return Err(AllocError);
    };
    let Some(blocks_at) = size
        .checked_add(64)
        .and_then(|n| n.checked_add(documents.len() as u64))
    else {
        return Err(AllocError);
    };
    let mut dictionary = Vec::new(alloc);
    let mut blocks = Vec::new(alloc);
    put_terms(&mut dictionary, &mut blocks, blocks_at, sealed)?;
    let Some(header) = header_for(sealed, names.len(), documents.len(), blocks.len(), size) else {
        return Err(AllocError);
    };
    let mut out = Vec::new(alloc);
    put_header(&mut out, header)?;
    out.extend_from_slice(&documents)?;
    out.extend_from_slice(&dictionary)?;
    out.extend_from_slice(&blocks)?;
    Ok(Bytes::of(out))
}
