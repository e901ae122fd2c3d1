// A whole file, read part by part.
ghost use Rattle.std.specs.Prelude.{◌≡◌, ◌≤◌, ◌++◌, length, map, take, IfOk, OnOk};
ghost use Rattle.std.specs.List.{All};
ghost use Rattle.seg_codec.specs.Whole.{AnswersFile, ArePlaced, LiesWithin, all_postings, between, block_in, block_postings, dictionary_in, docs_told, documents_in, grammar, header_in, term_postings};

use crate::blocks::{Block, BlockEntry};
use crate::calls::{read_block, read_dictionary, read_documents, read_header};
use crate::dictionary::{BlockPlace, Dictionary, TermBlocks};
use crate::documents::Documents;
use crate::header::Header;
use ri_base::{FileName, List, NoMemory, Place, Places, SegFault};
use std::alloc::Global;

/// What the parts of a file hold. The postings are those of each term, from all of its blocks.
#[derive(Debug, Drop)]
pub struct Whole {
    pub header: Header,
    pub documents: Documents,
    pub terms: Dictionary,
    pub postings: List<Places>,
}

/// The bytes from one place on up to another.
fn between(bytes: &[u8], from: u64, to: u64) -> &[u8]
    requires rises { from ≤ to }
    requires within { to ≤ length bytes.now }
    ensures { result.now ≡ between bytes.now from to }
{
    &bytes[from as usize..to as usize]
}

/// How many documents these bytes of a header tell, where they tell so.
fn docs_told(bytes: &[u8]) -> u32
    ensures { result ≡ docs_told bytes.now }
{
    if bytes.len() < 12 {
        return 0;
    }
    let (_before, rest) = bytes.split_at(12);
    if rest.len() < 4 {
        return 0;
    }
    let (front, _behind) = rest.split_at(4);
    u32::from_le_bytes([front[0], front[1], front[2], front[3]])
}

/// The bytes of a header, or all where there are fewer.
#[tactic(auto, using(crate::proofs::GrammarLemmas::all_taken))]
fn header_part(bytes: &[u8]) -> &[u8]
    ensures { result.now ≡ take 64 bytes.now }
{
    if bytes.len() < 64 {
        return bytes;
    }
    let (front, _rest) = bytes.split_at(64);
    front
}

fn header_at(bytes: &[u8], file: FileName) -> Result<Header, SegFault>
    ensures exact { AnswersFile (λ v. v) result (header_in bytes.now) file }
    ensures placed { IfOk result (ArePlaced (length bytes.now)) }
{
    let front = header_part(bytes);
    read_header(front, file, docs_told(front), bytes.len() as u64)
}

fn documents_at(
    alloc: Global,
    bytes: &[u8],
    file: FileName,
    header: &Header,
) -> Result<Documents, SegFault>
    requires { ArePlaced (length bytes.now) header.now }
    ensures { AnswersFile (λ v. v) result (documents_in bytes.now header.now) file }
{
    let part = between(bytes, header.documents_at, header.dictionary_at);
    read_documents(alloc, part, file, header)
}

fn dictionary_at(
    alloc: Global,
    bytes: &[u8],
    file: FileName,
    header: &Header,
) -> Result<Dictionary, SegFault>
    requires { ArePlaced (length bytes.now) header.now }
    ensures exact { AnswersFile (λ v. v) result (dictionary_in bytes.now header.now) file }
    ensures within { IfOk result (All (λ t. All (LiesWithin (length bytes.now)) t.blocks)) }
{
    let part = between(bytes, header.dictionary_at, header.blocks_at);
    read_dictionary(alloc, part, file, header)
}

fn block_at(
    alloc: Global,
    bytes: &[u8],
    file: FileName,
    documents: &Documents,
    block: &BlockPlace,
) -> Result<Block, SegFault>
    requires { LiesWithin (length bytes.now) block.now }
    ensures { AnswersFile (λ v. v.entries) result (block_in bytes.now documents.now block.now) file }
{
    let end = block.place + u64::from(block.length);
    let part = between(bytes, block.place, end);
    read_block(alloc, part, file, block.place, documents, block.range)
}

/// Puts the postings of a document behind the others.
fn put_positions(postings: &mut Vec<Place>, id: u32, positions: &[u32]) -> Result<(), NoMemory>
    ensures { OnOk result (postings.new.items ≡ postings.old.items ++ map (λ p. record { id = id; at = p }) positions.now) }
{
    for at in positions {
        postings.push(Place { id, at: *at })?;
    }
    Ok(())
}

/// Puts the postings of a block behind the others.
fn put_postings(postings: &mut Vec<Place>, entries: &[BlockEntry]) -> Result<(), NoMemory>
    ensures { OnOk result (postings.new.items ≡ postings.old.items ++ block_postings entries.now) }
{
    for entry in entries {
        put_positions(postings, entry.id, entry.positions.as_slice())?;
    }
    Ok(())
}

/// The postings of a term, from its blocks.
fn term_postings(
    alloc: Global,
    bytes: &[u8],
    file: FileName,
    documents: &Documents,
    blocks: &[BlockPlace],
) -> Result<Places, SegFault>
    requires { All (LiesWithin (length bytes.now)) blocks.now }
    ensures { AnswersFile (λ v. v) result (term_postings bytes.now documents.now blocks.now) file }
{
    let mut postings = Vec::new(alloc);
    for block in blocks {
        let found = block_at(alloc, bytes, file, documents, block)?;
        put_postings(&mut postings, found.entries.as_slice())?;
    }
    Ok(List::of(postings))
}

/// The postings of each term.
fn all_postings(
    alloc: Global,
    bytes: &[u8],
    file: FileName,
    documents: &Documents,
    terms: &[TermBlocks],
) -> Result<List<Places>, SegFault>
    requires { All (λ t. All (LiesWithin (length bytes.now)) t.blocks) terms.now }
    ensures { AnswersFile (λ v. v) result (all_postings bytes.now documents.now terms.now) file }
{
    let mut postings = List::with_capacity(alloc, terms.len())?;
    for term in terms {
        let found = term_postings(alloc, bytes, file, documents, term.blocks.as_slice())?;
        postings.push(found)?;
    }
    Ok(postings)
}

/// What the parts of a file hold, each of which keeps its grammar.
pub fn whole_of(alloc: Global, bytes: &[u8], file: FileName) -> Result<Whole, SegFault>
    ensures { AnswersFile (λ v. v) result (grammar bytes.now) file }
{
    let header = header_at(bytes, file)?;
    let documents = documents_at(alloc, bytes, file, &header)?;
    let terms = dictionary_at(alloc, bytes, file, &header)?;
    let postings = all_postings(alloc, bytes, file, &documents, terms.as_slice())?;
    Ok(Whole {
        header,
        documents,
        terms,
        postings,
    })
}
