// Reading what is kept of a segment's file.
ghost use Rattle.std.specs.Prelude.{◌≡◌, ◌≢◌, ◌≤◌, ◌<◌, ◌^◌, ℕ, List, Some, Ok, Err, IfOk, IfErr, length, take};
ghost use Rattle.std.specs.List.{All, AllPairs};
ghost use Rattle.ri_base.specs.Documents.{Document};
ghost use Rattle.ri_base.specs.Keeps.{Rose};
ghost use Rattle.ri_base.specs.Vocabulary.{IsTermBefore};
ghost use Rattle.store_ends.specs.Files.{Files, IsQuiet};
ghost use Rattle.seg_codec.specs.Dictionary.{dictionary};
ghost use Rattle.seg_codec.specs.Documents.{documents};
ghost use Rattle.seg_codec.specs.declared.documents.Entry.{Entry};
ghost use Rattle.disk_index.specs.Blocks.{file_of};
ghost use Rattle.disk_index.specs.Kept.{AreKept, ArePlaces, IsOutline, IsSegmentOf};
ghost use Rattle.disk_index.specs.Opening.{AreInOrder, IsOpenFault, IsOpened, dictionary_in, documents_in, header_in};

use crate::reading::read_bytes;
use ri_base::file_fields::u32_at;
use ri_base::{FileName, NoMemory, SegFault};
use seg_codec::{Dictionary, Documents, Header, read_dictionary, read_documents, read_header};
use std::alloc::{AllocError, Global};
use store_ends::Store;

const HEADER_LENGTH: usize = 64;

/// Where a header tells the number of documents.
const DOCS_PLACE: usize = 12;

/// What is kept of a segment's file, and where its blocks begin.
#[derive(Drop)]
pub(crate) struct KeptParts {
    pub documents: Documents,
    pub dictionary: Dictionary,
    pub blocks_at: u64,
}

/// The header of the file, of a segment of so many documents and bytes.
fn header_of<T: Store>(
    alloc: Global,
    store: &mut T,
    number: u64,
    docs: u32,
    size: u64,
) -> Result<Header, SegFault>
    ensures in_order { IfOk result AreInOrder }
    ensures docs { IfOk result (λ h. h.docs ≡ docs) }
    ensures found { (f : Files) → T.files store.old ≡ Some f → size ≡ length (file_of f number) → IfOk result (λ h. header_in (file_of f number) docs ≡ Ok h) }
    ensures fault { (f : Files) → T.files store.old ≡ Some f → size ≡ length (file_of f number) → IfErr result (IsOpenFault f number docs) }
    ensures quiet { IsQuiet T.files T.layers T.clock T.since T.longest T.held store.old store.new }
    ensures later { T.faults store.old ≤ T.faults store.new }
    ensures store { result ≡ Err SegFault.Store → Rose (T.faults store.old) (T.faults store.new) }
    ensures none { result ≢ Err SegFault.Store → T.faults store.new ≡ T.faults store.old }
{
    let bytes = read_bytes(alloc, store, number, 0, HEADER_LENGTH)?;
    read_header(&bytes, FileName::Segment(number), docs, size)
}

/// The documents part of the file with this header.
fn documents_of<T: Store>(
    alloc: Global,
    store: &mut T,
    number: u64,
    header: &Header,
) -> Result<Documents, SegFault>
    requires { AreInOrder header.now }
    ensures kept { IfOk result (All IsOutline) }
    ensures docs { IfOk result (λ es. length es ≡ header.now.docs) }
    ensures found { (f : Files) → T.files store.old ≡ Some f → IfOk result (λ es. documents header.now (documents_in (file_of f number) header.now) ≡ Ok es) }
    ensures fault { (f : Files) (docs : ℕ) → T.files store.old ≡ Some f → header_in (file_of f number) docs ≡ Ok header.now → IfErr result (IsOpenFault f number docs) }
    ensures quiet { IsQuiet T.files T.layers T.clock T.since T.longest T.held store.old store.new }
    ensures later { T.faults store.old ≤ T.faults store.new }
    ensures store { result ≡ Err SegFault.Store → Rose (T.faults store.old) (T.faults store.new) }
    ensures none { result ≢ Err SegFault.Store → T.faults store.new ≡ T.faults store.old }
{
    let count = (header.dictionary_at - header.documents_at) as usize;
    let bytes = read_bytes(alloc, store, number, header.documents_at, count)?;
    read_documents(alloc, &bytes, FileName::Segment(number), header)
}

/// The dictionary of the file with this header.
fn dictionary_of<T: Store>(
    alloc: Global,
    store: &mut T,
    number: u64,
    header: &Header,
) -> Result<Dictionary, SegFault>
    requires { AreInOrder header.now }
    ensures terms { IfOk result (AllPairs (λ a b. IsTermBefore a.term b.term)) }
    ensures places { IfOk result (All ArePlaces) }
    ensures few { IfOk result (λ ts. length ts < 2 ^ 32) }
    ensures found { (f : Files) → T.files store.old ≡ Some f → IfOk result (λ ts. dictionary header.now (dictionary_in (file_of f number) header.now) ≡ Ok ts) }
    ensures fault { (f : Files) (docs : ℕ) (es : List Entry) → T.files store.old ≡ Some f → header_in (file_of f number) docs ≡ Ok header.now
        → documents header.now (documents_in (file_of f number) header.now) ≡ Ok es → IfErr result (IsOpenFault f number docs) }
    ensures quiet { IsQuiet T.files T.layers T.clock T.since T.longest T.held store.old store.new }
    ensures later { T.faults store.old ≤ T.faults store.new }
    ensures store { result ≡ Err SegFault.Store → Rose (T.faults store.old) (T.faults store.new) }
    ensures none { result ≢ Err SegFault.Store → T.faults store.new ≡ T.faults store.old }
{
    let count = (header.blocks_at - header.dictionary_at) as usize;
    let bytes = read_bytes(alloc, store, number, header.dictionary_at, count)?;
    read_dictionary(alloc, &bytes, FileName::Segment(number), header)
}

/// The documents without their tokens, and the dictionary, of the segment of so many documents in the file of this number, which
/// has so many bytes.
pub(crate) fn read_kept<T: Store>(
    alloc: Global,
    store: &mut T,
    number: u64,
    docs: u32,
    size: u64,
) -> Result<KeptParts, SegFault>
    ensures kept { IfOk result (λ x. AreKept x.documents x.dictionary) }
    ensures docs { IfOk result (λ x. length x.documents ≡ docs) }
    ensures found { (f : Files) → T.files store.old ≡ Some f → size ≡ length (file_of f number)
        → IfOk result (λ x. IsOpened (file_of f number) docs (record { number = number; outlines = x.documents; dictionary = x.dictionary; begin = x.blocks_at })) }
    ensures fault { (f : Files) → T.files store.old ≡ Some f → size ≡ length (file_of f number) → IfErr result (IsOpenFault f number docs) }
    ensures quiet { IsQuiet T.files T.layers T.clock T.since T.longest T.held store.old store.new }
    ensures later { T.faults store.old ≤ T.faults store.new }
    ensures store { result ≡ Err SegFault.Store → Rose (T.faults store.old) (T.faults store.new) }
    ensures none { result ≢ Err SegFault.Store → T.faults store.new ≡ T.faults store.old }
{
    let header = header_of(alloc, store, number, docs, size)?;
    let documents = documents_of(alloc, store, number, &header)?;
    let dictionary = dictionary_of(alloc, store, number, &header)?;
    Ok(KeptParts {
        documents,
        dictionary,
        blocks_at: header.blocks_at,
    })
}

/// The first bytes, so many, or all where there are no more.
fn front(bytes: &[u8], count: usize) -> &[u8]
    ensures { result.now ≡ take count bytes.now }
{
    if count < bytes.len() {
        &bytes[..count]
    } else {
        bytes
    }
}

/// The header of a segment of so many documents, whose bytes these are.
fn header_within(bytes: &[u8], number: u64, docs: u32) -> Result<Header, SegFault>
    ensures in_order { IfOk result AreInOrder }
    ensures size { IfOk result (λ h. h.length ≡ length bytes.now) }
    ensures found { IfOk result (λ h. header_in bytes.now docs ≡ Ok h) }
{
    let head = front(bytes, HEADER_LENGTH);
    read_header(head, FileName::Segment(number), docs, bytes.len() as u64)
}

/// The documents part of the bytes with this header.
fn documents_within(
    alloc: Global,
    bytes: &[u8],
    number: u64,
    header: &Header,
) -> Result<Documents, SegFault>
    requires order { AreInOrder header.now }
    requires size { header.now.length ≡ length bytes.now }
    ensures kept { IfOk result (All IsOutline) }
    ensures found { IfOk result (λ es. documents header.now (documents_in bytes.now header.now) ≡ Ok es) }
{
    let part = &bytes[header.documents_at as usize..header.dictionary_at as usize];
    read_documents(alloc, part, FileName::Segment(number), header)
}

/// The dictionary of the bytes with this header.
fn dictionary_within(
    alloc: Global,
    bytes: &[u8],
    number: u64,
    header: &Header,
) -> Result<Dictionary, SegFault>
    requires order { AreInOrder header.now }
    requires size { header.now.length ≡ length bytes.now }
    ensures terms { IfOk result (AllPairs (λ a b. IsTermBefore a.term b.term)) }
    ensures places { IfOk result (All ArePlaces) }
    ensures few { IfOk result (λ ts. length ts < 2 ^ 32) }
    ensures found { IfOk result (λ ts. dictionary header.now (dictionary_in bytes.now header.now) ≡ Ok ts) }
{
    let part = &bytes[header.dictionary_at as usize..header.blocks_at as usize];
    read_dictionary(alloc, part, FileName::Segment(number), header)
}

/// The documents without their tokens, and the dictionary, of a segment of so many documents, whose bytes these are.
pub(crate) fn kept_within(
    alloc: Global,
    bytes: &[u8],
    number: u64,
    docs: u32,
) -> Result<KeptParts, SegFault>
    ensures kept { IfOk result (λ x. AreKept x.documents x.dictionary) }
    ensures small { IfOk result (λ _. length bytes.now < 2 ^ 64) }
    ensures found { IfOk result (λ x. IsOpened bytes.now docs (record { number = number; outlines = x.documents; dictionary = x.dictionary; begin = x.blocks_at })) }
{
    let header = header_within(bytes, number, docs)?;
    let documents = documents_within(alloc, bytes, number, &header)?;
    let dictionary = dictionary_within(alloc, bytes, number, &header)?;
    Ok(KeptParts {
        documents,
        dictionary,
        blocks_at: header.blocks_at,
    })
}

/// How many documents the segment has that these bytes are. Of bytes that are no segment nothing is said.
pub(crate) fn docs_within(bytes: &[u8]) -> Result<u32, NoMemory>
    ensures { (docs : List Document) → IsSegmentOf bytes.now docs → IfOk result (λ n. n ≡ length docs) }
{
    if bytes.len() < DOCS_PLACE {
        return Err(AllocError);
    }
    match u32_at(&bytes[DOCS_PLACE..]) {
        Ok((docs, _)) => Ok(docs),
        Err(_) => Err(AllocError),
    }
}
