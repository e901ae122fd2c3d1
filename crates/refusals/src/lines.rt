// The lines of refusals.
ghost use Rattle.std.specs.Prelude.{◌≡◌, IfOk};
ghost use Rattle.refusals.specs.Lines.{collection_name, input_line, line_of, named_line, placed_line, token_line};

use crate::{CollectionKind, Refusal};
use ri_base::{Docno, NoMemory};
use std::alloc::Global;
use tokens::TokenRefusal;
use trec_reader::TrecRefusal;

/// `refused KIND NAME`.
pub fn named_line(alloc: Global, kind: &[u8], name: &[u8]) -> Result<Vec<u8>, NoMemory>
    ensures { IfOk result (λ line. line.items ≡ named_line kind.now name.now) }
{
    let mut line = b"refused ".to_vec(alloc)?;
    line.extend_from_slice(kind)?;
    line.push(b' ')?;
    line.extend_from_slice(name)?;
    line.push(b'\n')?;
    Ok(line)
}

/// `refused KIND PLACE`.
pub fn placed_line(alloc: Global, kind: &[u8], place: u64) -> Result<Vec<u8>, NoMemory>
    ensures { IfOk result (λ line. line.items ≡ placed_line kind.now place) }
{
    let digits = place.to_string(alloc)?;
    named_line(alloc, kind, digits.as_bytes())
}

/// The line of a document that isn't read.
fn token_line(alloc: Global, refusal: &TokenRefusal) -> Result<Vec<u8>, NoMemory>
    ensures { IfOk result (λ line. line.items ≡ token_line refusal.now) }
{
    match refusal {
        TokenRefusal::TooManyTokens { docno } => {
            named_line(alloc, b"TooManyTokens", docno.as_bytes())
        }
        TokenRefusal::TooManyFields { docno } => {
            named_line(alloc, b"TooManyFields", docno.as_bytes())
        }
        TokenRefusal::Memory => Ok(Vec::new(alloc)),
    }
}

fn collection_name(kind: CollectionKind) -> &'static [u8]
    ensures { result.now ≡ collection_name kind }
{
    match kind {
        CollectionKind::Repeated => b"Repeated",
        CollectionKind::CollectionFull => b"CollectionFull",
    }
}

/// The line of what stands where a document must stand.
fn input_line(alloc: Global, refusal: TrecRefusal) -> Result<Vec<u8>, NoMemory>
    ensures { IfOk result (λ line. line.items ≡ input_line refusal) }
{
    match refusal {
        TrecRefusal::NoDocno { at } => placed_line(alloc, b"NoDocno", at),
        TrecRefusal::DocnoEmpty { at } => placed_line(alloc, b"DocnoEmpty", at),
        TrecRefusal::DocnoBad { at } => placed_line(alloc, b"DocnoBad", at),
        TrecRefusal::DocnoLong { at } => placed_line(alloc, b"DocnoLong", at),
        TrecRefusal::DocOpen { at } => placed_line(alloc, b"DocOpen", at),
        TrecRefusal::NotADoc { at } => placed_line(alloc, b"NotADoc", at),
        TrecRefusal::DocTooLarge { at } => placed_line(alloc, b"DocTooLarge", at),
        TrecRefusal::Read | TrecRefusal::Ended | TrecRefusal::Memory => Ok(Vec::new(alloc)),
    }
}

/// The line of a refusal.
#[tactic(auto, unfolding(crate::specs::Lines::line_of))]
pub fn line_of(alloc: Global, refusal: &Refusal) -> Result<Vec<u8>, NoMemory>
    ensures { IfOk result (λ line. line.items ≡ line_of refusal.now) }
{
    match refusal {
        Refusal::Document(refusal) => token_line(alloc, refusal),
        Refusal::Collection { kind, docno } => {
            named_line(alloc, collection_name(*kind), docno.as_bytes())
        }
        Refusal::Input(refusal) => input_line(alloc, *refusal),
        Refusal::NoSuchDoc(docno) => named_line(alloc, b"NoSuchDoc", docno.as_bytes()),
        Refusal::BadEvent { place } => placed_line(alloc, b"BadEvent", *place),
        Refusal::LineTooLong { place } => placed_line(alloc, b"LineTooLong", *place),
        Refusal::BadRow { place } => placed_line(alloc, b"BadRow", *place),
        Refusal::RepeatedRow(docno) => named_line(alloc, b"RepeatedRow", docno.as_bytes()),
        Refusal::RepeatedRest => named_line(alloc, b"RepeatedRow", b"*"),
        Refusal::TooManyRows { place } => placed_line(alloc, b"TooManyRows", *place),
        Refusal::Fixed(name) => named_line(alloc, b"Fixed", name.as_bytes()),
        Refusal::PriorsFull(name) => named_line(alloc, b"PriorsFull", name.as_bytes()),
    }
}
