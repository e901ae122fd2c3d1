// The calls that read a part of a segment's file.
ghost use Rattle.std.specs.Prelude.{◌≡◌, ◌<◌, ◌+◌, ◌^◌, ℕ, List, length, Ok, IfOk};
ghost use Rattle.ri_base.specs.FieldAnswers.{AnswersPart};
ghost use Rattle.ri_base.specs.declared.seg_fault.PartName.TheVariants as parts;
ghost use Rattle.seg_codec.specs.Blocks.{block};
ghost use Rattle.seg_codec.specs.Dictionary.{dictionary};
ghost use Rattle.seg_codec.specs.Documents.{documents};
ghost use Rattle.seg_codec.specs.Fits.{FitBlock, FitDictionary, FitDocuments, FitsHeader};
ghost use Rattle.seg_codec.specs.Headers.{header};
ghost use Rattle.seg_codec.specs.Spelling.{block_bytes, dictionary_bytes, documents_bytes, header_bytes};
ghost use Rattle.seg_codec.specs.declared.blocks.BlockEntry.{BlockEntry};
ghost use Rattle.seg_codec.specs.declared.dictionary.TermBlocks.{TermBlocks};
ghost use Rattle.seg_codec.specs.declared.documents.Entry.{Entry};
ghost use Rattle.seg_codec.specs.declared.header.Header.{Header};

use crate::blocks::{Block, block_of};
use crate::dictionary::{Dictionary, dictionary_of};
use crate::documents::{Documents, documents_of};
use crate::header::{Header, header_of};
use ri_base::file_fields::part_answer;
use ri_base::{FileName, PartName, SegFault};
use std::alloc::Global;

#[tactic(auto, using(ri_base::proofs::FieldFaults::answers_part))]
fn header_answer(bytes: &[u8], file: FileName, docs: u32, size: u64) -> Result<Header, SegFault>
    ensures { AnswersPart (λ v. v) result (header docs size bytes.now) file parts.Header (length bytes.now) }
{
    part_answer(
        header_of(docs, size, bytes),
        file,
        PartName::Header,
        bytes.len() as u64,
    )
}

/// The header that these bytes are, of a segment of so many documents in a file of so many bytes.
pub fn read_header(bytes: &[u8], file: FileName, docs: u32, size: u64) -> Result<Header, SegFault>
    // What is read is spelled so.
    ensures found { IfOk result (λ v. (bytes.now ≡ header_bytes v) × FitsHeader docs size v) }
    // What is spelled so is read, unless memory runs out.
    ensures only { (h : Header) → FitsHeader docs size h → bytes.now ≡ header_bytes h → AnswersPart (λ v. v) result (Ok h) file parts.Header (length bytes.now) }
    // The fault is the first one from the left, at its place.
    ensures exact { AnswersPart (λ v. v) result (header docs size bytes.now) file parts.Header (length bytes.now) }
{
    header_answer(bytes, file, docs, size)
}

#[tactic(auto, using(ri_base::proofs::FieldFaults::answers_part))]
fn documents_answer(
    alloc: Global,
    bytes: &[u8],
    file: FileName,
    header: &Header,
) -> Result<Documents, SegFault>
    requires { header.now.documents_at + length bytes.now < 2 ^ 64 }
    ensures { AnswersPart (λ v. v) result (documents header.now bytes.now) file parts.Documents (header.now.documents_at + length bytes.now) }
{
    part_answer(
        documents_of(alloc, header, bytes),
        file,
        PartName::Documents,
        header.documents_at + bytes.len() as u64,
    )
}

/// The documents part that these bytes are, behind this header.
pub fn read_documents(
    alloc: Global,
    bytes: &[u8],
    file: FileName,
    header: &Header,
) -> Result<Documents, SegFault>
    requires { header.now.documents_at + length bytes.now < 2 ^ 64 }
    // What is read is spelled so.
    ensures found { IfOk result (λ v. (bytes.now ≡ documents_bytes v) × FitDocuments header.now v) }
    // What is spelled so is read, unless memory runs out.
    ensures only { (es : List Entry) → FitDocuments header.now es → bytes.now ≡ documents_bytes es → AnswersPart (λ v. v) result (Ok es) file parts.Documents (header.now.documents_at + length bytes.now) }
    // The fault is the first one from the left, at its place.
    ensures exact { AnswersPart (λ v. v) result (documents header.now bytes.now) file parts.Documents (header.now.documents_at + length bytes.now) }
{
    documents_answer(alloc, bytes, file, header)
}

#[tactic(auto, using(ri_base::proofs::FieldFaults::answers_part))]
fn dictionary_answer(
    alloc: Global,
    bytes: &[u8],
    file: FileName,
    header: &Header,
) -> Result<Dictionary, SegFault>
    requires { header.now.dictionary_at + length bytes.now < 2 ^ 64 }
    ensures { AnswersPart (λ v. v) result (dictionary header.now bytes.now) file parts.Dictionary (header.now.dictionary_at + length bytes.now) }
{
    part_answer(
        dictionary_of(alloc, header, bytes),
        file,
        PartName::Dictionary,
        header.dictionary_at + bytes.len() as u64,
    )
}

/// The dictionary that these bytes are, behind this header.
pub fn read_dictionary(
    alloc: Global,
    bytes: &[u8],
    file: FileName,
    header: &Header,
) -> Result<Dictionary, SegFault>
    requires { header.now.dictionary_at + length bytes.now < 2 ^ 64 }
    // What is read is spelled so.
    ensures found { IfOk result (λ v. (bytes.now ≡ dictionary_bytes v) × FitDictionary header.now v) }
    // What is spelled so is read, unless memory runs out.
    ensures only { (ts : List TermBlocks) → FitDictionary header.now ts → bytes.now ≡ dictionary_bytes ts → AnswersPart (λ v. v) result (Ok ts) file parts.Dictionary (header.now.dictionary_at + length bytes.now) }
    // The fault is the first one from the left, at its place.
    ensures exact { AnswersPart (λ v. v) result (dictionary header.now bytes.now) file parts.Dictionary (header.now.dictionary_at + length bytes.now) }
{
    dictionary_answer(alloc, bytes, file, header)
}

#[tactic(auto, using(ri_base::proofs::FieldFaults::answers_part))]
fn block_answer(
    alloc: Global,
    bytes: &[u8],
    file: FileName,
    place: u64,
    documents: &Documents,
    range: u32,
) -> Result<Block, SegFault>
    requires { place + length bytes.now < 2 ^ 64 }
    ensures { AnswersPart (λ v. v.entries) result (block documents.now range bytes.now) file parts.Block (place + length bytes.now) }
{
    part_answer(
        block_of(alloc, documents.as_slice(), range, bytes),
        file,
        PartName::Block,
        place + bytes.len() as u64,
    )
}

/// The block that these bytes are, at a place of the file, of this range of 64 ids.
pub fn read_block(
    alloc: Global,
    bytes: &[u8],
    file: FileName,
    place: u64,
    documents: &Documents,
    range: u32,
) -> Result<Block, SegFault>
    requires { place + length bytes.now < 2 ^ 64 }
    // What is read is spelled so.
    ensures found { IfOk result (λ v. (bytes.now ≡ block_bytes range v.entries) × FitBlock documents.now range v.entries) }
    // What is spelled so is read, unless memory runs out.
    ensures only { (es : List BlockEntry) → FitBlock documents.now range es → bytes.now ≡ block_bytes range es → AnswersPart (λ v. v.entries) result (Ok es) file parts.Block (place + length bytes.now) }
    // The fault is the first one from the left, at its place.
    ensures exact { AnswersPart (λ v. v.entries) result (block documents.now range bytes.now) file parts.Block (place + length bytes.now) }
{
    block_answer(alloc, bytes, file, place, documents, range)
}
