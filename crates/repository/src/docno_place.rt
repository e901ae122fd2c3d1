// Where a document stands in the file of a segment.
ghost use Rattle.std.specs.Prelude.{◌≡◌, ◌≤◌, ◌<◌, ◌+◌, ◌^◌, ◌≢◌, ℕ, List, Some, Ok, Err, IfOk, IfErr, drop, length, sum_by};
ghost use Rattle.ri_base.specs.Faults.{IsOutside};
ghost use Rattle.ri_base.specs.Keeps.{Rose};
ghost use Rattle.store_ends.specs.Files.{Files, IsQuiet};
ghost use Rattle.seg_codec.specs.Documents.{documents};
ghost use Rattle.seg_codec.specs.Spelling.{documents_bytes};
ghost use Rattle.seg_codec.specs.declared.documents.Entry.{Entry};
ghost use Rattle.seg_codec.specs.declared.header.Header.{Header};
ghost use Rattle.disk_index.specs.Blocks.{file_of};
ghost use Rattle.disk_index.specs.Opening.{documents_in, header_in};
ghost use Rattle.disk_index.specs.Parts.{outlines_of};
ghost use Rattle.disk_index.specs.Snapshots.{Marked};
ghost use Rattle.repository.specs.Opening.{IsEntryOpened};
ghost use Rattle.repository.specs.Places.{bytes_of, document_place};

use disk_index::{file_length, read_bytes};
use manifest::SegEntry;
use ri_base::{FileName, SegFault};
use seg_codec::{Documents, Entry, Header, read_documents, read_header};
use std::alloc::Global;
use store_ends::Store;

const HEADER_BYTES: usize = 64;

/// How many bytes stand in a segment beside a document's docno and fields, and how many a field has.
const ENTRY_BYTES: usize = 7;

const FIELD_BYTES: usize = 10;

/// The header of the entry's segment, which was read before.
fn header_of<T: Store>(alloc: Global, store: &mut T, entry: &SegEntry) -> Result<Header, SegFault>
    ensures first { IfOk result (λ h. h.documents_at ≡ 64) }
    ensures order { IfOk result (λ h. h.documents_at ≤ h.dictionary_at) }
    ensures found { (f : Files) (h : Header) → T.files store.old ≡ Some f → header_in (file_of f entry.now.number) entry.now.docs ≡ Ok h → IfOk result (λ x. x ≡ h) }
    ensures outside { (f : Files) (h : Header) → T.files store.old ≡ Some f → header_in (file_of f entry.now.number) entry.now.docs ≡ Ok h → IfErr result IsOutside }
    ensures quiet { IsQuiet T.files T.layers T.clock T.since T.longest T.held store.old store.new }
    ensures later { T.faults store.old ≤ T.faults store.new }
    ensures store { result ≡ Err SegFault.Store → Rose (T.faults store.old) (T.faults store.new) }
    ensures none { result ≢ Err SegFault.Store → T.faults store.new ≡ T.faults store.old }
{
    let size = file_length(store, entry.number)?;
    let bytes = read_bytes(alloc, store, entry.number, 0, HEADER_BYTES)?;
    read_header(&bytes, FileName::Segment(entry.number), entry.docs, size)
}

/// How many bytes of the file the document has.
fn entry_bytes(entry: &Entry) -> usize
    requires { bytes_of entry.now < 2 ^ 64 }
    ensures { result ≡ bytes_of entry.now }
{
    ENTRY_BYTES + entry.docno.as_bytes().len() + FIELD_BYTES * entry.fields.len()
}

/// How many of these bytes stand before the documents, which stand last.
fn bytes_before(bytes: usize, entries: &[Entry]) -> usize
    requires { sum_by bytes_of entries.now ≤ bytes }
    ensures { result + sum_by bytes_of entries.now ≡ bytes }
{
    let mut before = bytes;
    for entry in entries {
        before -= entry_bytes(entry);
    }
    before
}

/// The documents from this id on.
#[tactic(auto, using(std::proofs::lemmas::List::drop_all))]
fn from_id(entries: &[Entry], id: u32) -> &[Entry]
    ensures { result.now ≡ drop id entries.now }
{
    let from = id as usize;
    if from < entries.len() {
        &entries[from..]
    } else {
        &[]
    }
}

/// Where a document stands whose segment has this part of documents. What stands behind it is counted from the end.
fn place_within(part: &[u8], documents: &Documents, id: u32) -> u64
    requires { part.now ≡ documents_bytes documents.now }
    ensures { result ≡ document_place documents.now id }
{
    let before = bytes_before(part.len(), from_id(documents.as_slice(), id));
    (HEADER_BYTES + before) as u64
}

/// The same in the file with this header. Its documents are read once more.
fn place_behind<T: Store>(
    alloc: Global,
    store: &mut T,
    number: u64,
    header: &Header,
    id: u32,
) -> Result<u64, SegFault>
    requires first { header.now.documents_at ≡ 64 }
    requires order { header.now.documents_at ≤ header.now.dictionary_at }
    ensures place { (f : Files) (es : List Entry) → T.files store.old ≡ Some f → documents header.now (documents_in (file_of f number) header.now) ≡ Ok es
        → IfOk result (λ place. place ≡ document_place es id) }
    ensures outside { (f : Files) (docs : ℕ) (es : List Entry) → T.files store.old ≡ Some f → header_in (file_of f number) docs ≡ Ok header.now
        → documents header.now (documents_in (file_of f number) header.now) ≡ Ok es → IfErr result IsOutside }
    ensures quiet { IsQuiet T.files T.layers T.clock T.since T.longest T.held store.old store.new }
    ensures later { T.faults store.old ≤ T.faults store.new }
    ensures store { result ≡ Err SegFault.Store → Rose (T.faults store.old) (T.faults store.new) }
    ensures none { result ≢ Err SegFault.Store → T.faults store.new ≡ T.faults store.old }
{
    let count = (header.dictionary_at - header.documents_at) as usize;
    let bytes = read_bytes(alloc, store, number, header.documents_at, count)?;
    let documents = read_documents(alloc, &bytes, FileName::Segment(number), header)?;
    Ok(place_within(&bytes, &documents, id))
}

/// Where a document of an entry stands in its file, at the byte of its docno's length. The entry was opened before.
pub fn docno_place<T: Store>(
    alloc: Global,
    store: &mut T,
    entry: &SegEntry,
    id: u32,
) -> Result<u64, SegFault>
    ensures place { (f : Files) (m : Marked) → T.files store.old ≡ Some f → IsEntryOpened (Some f) entry.now m → IfOk result (λ place. place ≡ document_place (outlines_of m.source) id) }
    ensures outside { (f : Files) (m : Marked) → T.files store.old ≡ Some f → IsEntryOpened (Some f) entry.now m → IfErr result IsOutside }
    ensures quiet { IsQuiet T.files T.layers T.clock T.since T.longest T.held store.old store.new }
    ensures later { T.faults store.old ≤ T.faults store.new }
    ensures store { result ≡ Err SegFault.Store → Rose (T.faults store.old) (T.faults store.new) }
    ensures none { result ≢ Err SegFault.Store → T.faults store.new ≡ T.faults store.old }
{
    let header = header_of(alloc, store, entry)?;
    place_behind(alloc, store, entry.number, &header, id)
}
