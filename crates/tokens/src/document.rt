// The document that a raw document is read as.
ghost use Rattle.std.specs.Prelude.{◌≡◌, ◌≤◌, ◌<◌, ◌++◌, List, length, Err, IfOk, OnOk};
ghost use Rattle.tokens.specs.declared.document.TokenRefusal.TheVariants.{Memory};
ghost use Rattle.tokens.specs.Content.{Answers, content, document_terms, piece_terms};
ghost use Rattle.std.specs.List.Sorted.{IsStrictlySortedBy};
ghost use Rattle.tokens.specs.Fields.{Opened, closed, document_fields, field_cmp, with_fields, without_last};
ghost use Rattle.tokens.specs.Open.{Keeps, ReadsBehind};
ghost use Rattle.ri_base.specs.declared.limits.TheConstants.{MAX_DOC_TOKENS};

use crate::field_set::FieldSet;
use crate::open_fields::OpenFields;
use crate::terms::{Stop, push_byte_terms};
use ri_base::limits::MAX_DOC_FIELDS;
use ri_base::{Doc, Docno, Name, NoMemory, Spans, Terms};
use std::alloc::{AllocError, Global};
use thiserror::Error;
use trec_reader::{Piece, Pieces, RawDoc};

/// Why a raw document isn't read as a document.
#[derive(Debug, Drop, Error)]
pub enum TokenRefusal {
    #[error("the document has more than 1,048,576 tokens")]
    TooManyTokens { docno: Docno },
    #[error("the document has more than 65,535 fields")]
    TooManyFields { docno: Docno },
    #[error("out of memory")]
    Memory,
}

impl From<AllocError> for TokenRefusal {
    ghost from_gives = { λ _ e. e ≡ Memory };

    fn from(_: AllocError) -> Self {
        TokenRefusal::Memory
    }
}

/// Closes the field of this name that was opened last, if one is open, and puts it among the fields.
#[tactic(auto, using(crate::proofs::SetLemmas::in_order_after))]
fn close_one(
    opened: &mut OpenFields,
    fields: &mut FieldSet,
    name: Name,
    end: u32,
) -> Result<(), NoMemory>
    ensures fields { OnOk result ((list : List Opened) → Keeps opened.old list → fields.new ≡ with_fields fields.old (closed name end list)) }
    ensures rest { OnOk result ((list : List Opened) → Keeps opened.old list → Keeps opened.new (without_last name list)) }
    ensures in_order { OnOk result (IsStrictlySortedBy field_cmp fields.old → IsStrictlySortedBy field_cmp fields.new) }
{
    if let Some(begin) = opened.close_field(&name) {
        fields.insert(name, begin, end)?;
    }
    Ok(())
}

/// Reads a piece behind these tokens: its terms, or the field that it opens or closes.
fn read_piece(
    alloc: Global,
    piece: Piece,
    tokens: &mut Terms,
    opened: &mut OpenFields,
    fields: &mut FieldSet,
) -> Result<(), Stop>
    requires { length tokens.old ≤ MAX_DOC_TOKENS }
    ensures tokens { OnOk result (tokens.new ≡ tokens.old ++ piece_terms piece) }
    ensures few { OnOk result (length tokens.new ≤ MAX_DOC_TOKENS) }
    ensures many { result ≡ Err Stop.TooMany → MAX_DOC_TOKENS < length (tokens.old ++ piece_terms piece) }
    ensures fields { OnOk result ((list : List Opened) → Keeps opened.old list → ReadsBehind piece (length tokens.old) list fields.old (length tokens.new) opened.new fields.new) }
    ensures in_order { OnOk result (IsStrictlySortedBy field_cmp fields.old → IsStrictlySortedBy field_cmp fields.new) }
{
    let at = tokens.len() as u32;
    match piece {
        Piece::Text(text) => push_byte_terms(alloc, text.as_slice(), tokens),
        Piece::Open(name) => Ok(opened.open_field(name, at)?),
        Piece::Close(name) => Ok(close_one(opened, fields, name, at)?),
        Piece::Break => Ok(()),
    }
}

/// The tokens of these pieces, and their fields.
#[tactic(auto, using(crate::proofs::ContentLemmas::ended, crate::proofs::SetLemmas::no_field_in_order), unfolding(crate::specs::Content::document_terms, crate::specs::Fields::document_fields))]
fn read_pieces(alloc: Global, pieces: Pieces) -> Result<(Terms, FieldSet), Stop>
    ensures tokens { IfOk result (λ x. x.0 ≡ document_terms pieces) }
    ensures fields { IfOk result (λ x. x.1 ≡ document_fields pieces) }
    ensures few { IfOk result (λ x. length x.0 ≤ MAX_DOC_TOKENS) }
    ensures many { result ≡ Err Stop.TooMany → MAX_DOC_TOKENS < length (document_terms pieces) }
{
    let mut tokens = Terms::new(alloc);
    let mut opened = OpenFields::new(alloc);
    let mut fields = FieldSet::new(alloc);
    for piece in pieces.into_vec() {
        read_piece(alloc, piece, &mut tokens, &mut opened, &mut fields)?;
    }
    opened.close_all(tokens.len() as u32, &mut fields)?;
    Ok((tokens, fields))
}

/// The document of a raw document: its terms in their places, and the fields that its tags open and close.
#[tactic(auto, using(crate::proofs::ContentLemmas::is_document_of), unfolding(crate::specs::Content::content))]
pub fn doc_of(alloc: Global, raw: RawDoc) -> Result<Doc, TokenRefusal>
    ensures { Answers result (content raw) }
{
    let RawDoc { docno, pieces, .. } = raw;
    let (tokens, fields) = match read_pieces(alloc, pieces) {
        Ok(parts) => parts,
        Err(Stop::TooMany) => return Err(TokenRefusal::TooManyTokens { docno }),
        Err(Stop::Memory) => return Err(TokenRefusal::Memory),
    };
    if fields.len() > MAX_DOC_FIELDS {
        return Err(TokenRefusal::TooManyFields { docno });
    }
    let spans = fields.into_spans(alloc)?;
    Ok(Doc::new(alloc, docno, tokens, spans)?)
}
