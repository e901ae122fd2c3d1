// One document alone.
ghost use Rattle.std.specs.Prelude.{◌≡◌, ◌≤◌, ◌<◌, ℕ, [], ◌∷◌, ◌++◌, length, if◌then◌else◌, IfOk, OnOk};
ghost use Rattle.ri_base.specs.Collection.{document_at};
ghost use Rattle.ri_base.specs.Places.{places, places_from};
ghost use Rattle.ri_base.specs.declared.limits.TheConstants.{MAX_DOC_TOKENS};

use crate::known::Known;
use ri_base::{Doc, Docno, ExtentExpr, FieldSpan, NoMemory, Positions, Postings, SegFault, Term};
use std::alloc::Global;
use std::marker::Model;

/// A document alone, seen as the list of this document.
///
/// The places of the terms that an expression has are found in one pass over the tokens; those of another term are
/// looked for when they are asked for. So nothing is sorted and no token is copied.
#[derive(Drop)]
pub struct LoneDocument<'a> {
    doc: &'a Doc,
    known: Known,
}

impl<'a> Model for LoneDocument<'a> {
    ghost use Rattle.std.specs.Prelude.{List, [], ◌∷◌};
    ghost use Rattle.ri_base.specs.Documents.{Document};
    ghost use Rattle.lone_document.specs.Known.{AreKnown};

    ghost Value = { List Document };

    ghost view = { λ x. x.doc.now ∷ [] };

    ghost invariant = { λ x. AreKnown x.known x.doc.now.tokens };
}

impl<'a> LoneDocument<'a> {
    /// The document, of which the terms of this expression are asked for.
    pub fn new(alloc: Global, doc: &'a Doc, expr: &ExtentExpr) -> Result<LoneDocument<'a>, NoMemory>
        ensures { IfOk result (λ x. x ≡ doc.now ∷ []) }
    {
        let _few = doc.len();
        let known = Known::of(alloc, expr, doc.tokens().as_slice())?;
        Ok(LoneDocument { doc, known })
    }

    /// The places of the term in the document, in order.
    fn places(&self, alloc: Global, term: &Term, _id: u32) -> Result<Positions, NoMemory>
        requires { _id < length self.now }
        ensures { IfOk result (λ ps. ps ≡ places term.now (document_at self.now _id)) }
    {
        match self.known.get(term) {
            Some(places) => Ok(Positions::of(places.to_vec(alloc)?)),
            None => places_among(alloc, term, self.doc.tokens().as_slice()),
        }
    }
}

/// The places of a term among these tokens.
fn places_among(alloc: Global, term: &Term, tokens: &[Term]) -> Result<Positions, NoMemory>
    requires { length tokens.now ≤ MAX_DOC_TOKENS }
    ensures { IfOk result (λ ps. ps ≡ places_from 0 term.now tokens.now) }
{
    let mut places = Vec::new(alloc);
    let mut at = 0;
    for token in tokens {
        note_place(&mut places, token == term, at)?;
        at += 1;
    }
    Ok(Positions::of(places))
}

/// Notes a place, where the term stands there.
fn note_place(places: &mut Vec<u32>, is_there: bool, at: u32) -> Result<(), NoMemory>
    ensures { OnOk result (places.new.items ≡ places.old.items ++ (if is_there then at ∷ [] else [])) }
{
    if is_there {
        places.push(at)?;
    }
    Ok(())
}

impl<'a> Postings for LoneDocument<'a> {
    ghost use Rattle.std.specs.Prelude.{◌≡◌, ⊤, None};

    ghost documents = { λ s. s };

    ghost faults = { λ _. 0 };

    ghost sound = { λ _. ⊤ };

    ghost intact = { λ _. ⊤ };

    ghost quiet = { λ r s. r ≡ s };

    ghost told = { λ _ _ _. ⊤ };

    ghost damage = { λ _. None };

    fn docs(&self) -> u32 {
        let _one = &self.doc;
        1
    }

    fn docno(&self, _id: u32) -> &Docno {
        self.doc.docno()
    }

    fn length(&self, _id: u32) -> u32 {
        self.doc.len()
    }

    fn spans(&self, _id: u32) -> &[FieldSpan] {
        self.doc.fields().as_slice()
    }

    fn positions(&mut self, alloc: Global, term: &Term, id: u32) -> Result<Positions, SegFault> {
        let places = self.places(alloc, term, id)?;
        Ok(places)
    }

    ghost use Rattle.std.proofs.Common.{◌∙◌, refl};

    ghost intact_sound = { λ s intact. intact };

    ghost quiet_same = { λ s. refl };

    ghost quiet_then = { λ r s t first second. first ∙ second };

    ghost told_before = { λ r s term id quiet told. told };
}
