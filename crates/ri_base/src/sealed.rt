// The inversion of a list of documents.
ghost use Rattle.std.specs.Prelude.{◌≡◌, ◌<◌, ◌≤◌, ℕ, [], length, map, slice_index_or, IfOk};
ghost use Rattle.std.specs.List.{All};
ghost use Rattle.std.specs.List.Sorted.{IsNonDecreasingBy};
ghost use Rattle.ri_base.specs.Collection.{document_at, token_count};
ghost use Rattle.ri_base.specs.Documents.{IsDocument};
ghost use Rattle.ri_base.specs.Inversion.{IsInversion, by_number, document_of, documents_of};
ghost use Rattle.ri_base.specs.Places.{places, places_at, postings_of};
ghost use Rattle.ri_base.specs.Vocabulary.{IsVocabulary, vocabulary_of};
ghost use Rattle.ri_base.specs.declared.limits.TheConstants.{MAX_HELD_TOKENS};

use crate::{
    Doc, Docno, FieldSpan, Held, NoMemory, Place, Places, Positions, Postings, SegFault, Term,
    Terms,
};
use std::alloc::Global;
use std::marker::Model;

/// The inversion of a list of at most 1,048,576 documents with at most 67,108,864 tokens together, seen as that list.
///
/// A term's rank is its place in the vocabulary. The tokens of the documents are kept as numbers of terms, and
/// `ranks` has the rank of each number; `postings` has the postings of each rank.
#[derive(Drop)]
pub struct Sealed {
    vocabulary: Terms,
    ranks: Vec<u32>,
    docs: Vec<Held>,
    postings: Vec<Places>,
}

impl Model for Sealed {
    ghost use Rattle.std.specs.Prelude.{List};
    ghost use Rattle.ri_base.specs.Documents.{Document};

    ghost Value = { List Document };

    ghost use Rattle.ri_base.specs.Inversion.{IsInversion, by_number, documents_of};

    ghost view = { λ s. documents_of (by_number s.vocabulary s.ranks.items) s.docs.items };

    ghost invariant = { λ s. IsInversion s.vocabulary s.ranks.items s.docs.items s.postings.items };
}

impl Sealed {
    /// The inversion, of its parts.
    pub fn of(vocabulary: Terms, ranks: Vec<u32>, docs: Vec<Held>, postings: Vec<Places>) -> Sealed
        requires inverts { IsInversion vocabulary ranks.items docs.items postings.items }
        ensures { result ≡ documents_of (by_number vocabulary ranks.items) docs.items }
    {
        Sealed {
            vocabulary,
            ranks,
            docs,
            postings,
        }
    }

    /// How many tokens the documents have together.
    pub fn token_count(&self) -> u64
        ensures count { result ≡ token_count self.now }
        ensures most { result ≤ MAX_HELD_TOKENS }
    {
        let mut count = 0;
        for held in &self.docs {
            count += held.tokens.len() as u64;
        }
        count
    }

    /// The distinct terms of the documents, in rising order of bytes.
    pub fn vocabulary(&self) -> &Terms
        ensures distinct { IsVocabulary result.now self.now }
        ensures same { result.now ≡ vocabulary_of self.now }
    {
        &self.vocabulary
    }

    /// The postings of the term of that rank.
    pub fn postings(&self, rank: usize) -> &Places
        requires { rank < length (vocabulary_of self.now) }
        ensures { result.now ≡ postings_of (slice_index_or (vocabulary_of self.now) rank []) self.now }
    {
        &self.postings[rank]
    }

    /// The document, whole.
    pub fn doc(&self, alloc: Global, id: u32) -> Result<Doc, NoMemory>
        requires { id < length self.now }
        ensures { IfOk result (λ d. d ≡ document_at self.now id) }
    {
        doc_of(
            alloc,
            self.vocabulary.as_slice(),
            &self.ranks,
            &self.docs[id as usize],
        )
    }

    /// The places of the term in the document, in order.
    pub fn places(&self, alloc: Global, term: &Term, id: u32) -> Result<Positions, NoMemory>
        requires { id < length self.now }
        ensures { IfOk result (λ ps. ps ≡ places term.now (document_at self.now id)) }
    {
        match self.vocabulary.as_slice().binary_search(term) {
            Ok(rank) => places_in(alloc, self.postings[rank].as_slice(), id),
            Err(_) => Ok(Positions::of(Vec::new(alloc))),
        }
    }
}

/// The places in one document, of postings by rising id.
fn places_in(alloc: Global, postings: &[Place], id: u32) -> Result<Positions, NoMemory>
    requires { IsNonDecreasingBy (λ p. p.id) postings.now }
    ensures { IfOk result (λ ps. ps ≡ places_at id postings.now) }
{
    let first = postings.partition_point(|p| p.id < id);
    let rest = &postings[first..];
    let count = rest.partition_point(|p| p.id <= id);
    positions_of(alloc, &rest[..count])
}

/// The place of each posting.
fn positions_of(alloc: Global, postings: &[Place]) -> Result<Positions, NoMemory>
    ensures { IfOk result (λ ps. ps ≡ map (λ p. p.at) postings.now) }
{
    let places = postings.iter().map(|p| p.at).collect(alloc)?;
    Ok(Positions::of(places))
}

/// The document for which this stands.
fn doc_of(alloc: Global, vocabulary: &[Term], ranks: &[u32], held: &Held) -> Result<Doc, NoMemory>
    requires numbers { All (λ n. n < length ranks.now) held.now.tokens.items }
    requires ranked { All (λ r. r < length vocabulary.now) ranks.now }
    requires form { IsDocument (document_of (by_number vocabulary.now ranks.now) held.now).tokens held.now.fields }
    ensures { IfOk result (λ d. d ≡ document_of (by_number vocabulary.now ranks.now) held.now) }
{
    let docno = held.docno.clone_in(alloc)?;
    let fields = held.fields.clone_in(alloc)?;
    let tokens = terms_at(alloc, vocabulary, ranks, &held.tokens)?;
    Doc::new(alloc, docno, tokens, fields)
}

/// The terms of these numbers.
fn terms_at(
    alloc: Global,
    vocabulary: &[Term],
    ranks: &[u32],
    numbers: &[u32],
) -> Result<Terms, NoMemory>
    requires numbers { All (λ n. n < length ranks.now) numbers.now }
    requires ranked { All (λ r. r < length vocabulary.now) ranks.now }
    ensures { IfOk result (λ ts. ts ≡ map (λ n. slice_index_or (by_number vocabulary.now ranks.now) n []) numbers.now) }
{
    let mut terms = Vec::with_capacity(alloc, numbers.len())?;
    for n in numbers {
        terms.push(vocabulary[ranks[*n as usize] as usize].clone_in(alloc)?)?;
    }
    Ok(Terms::of(terms))
}

impl Postings for Sealed {
    ghost use Rattle.std.specs.Prelude.{◌≡◌, ⊤, None};

    ghost documents = { λ s. s };

    ghost faults = { λ _. 0 };

    ghost sound = { λ _. ⊤ };

    ghost intact = { λ _. ⊤ };

    ghost quiet = { λ r s. r ≡ s };

    ghost told = { λ _ _ _. ⊤ };

    ghost damage = { λ _. None };

    fn docs(&self) -> u32 {
        self.docs.len() as u32
    }

    fn docno(&self, id: u32) -> &Docno {
        &self.docs[id as usize].docno
    }

    fn length(&self, id: u32) -> u32 {
        self.docs[id as usize].tokens.len() as u32
    }

    fn spans(&self, id: u32) -> &[FieldSpan] {
        self.docs[id as usize].fields.as_slice()
    }

    fn positions(&mut self, alloc: Global, term: &Term, id: u32) -> Result<Positions, SegFault> {
        let places = self.places(alloc, term, id)?;
        Ok(places)
    }

    ghost use Rattle.std.proofs.Common.{◌∙◌, refl};

    ghost intact_sound = { λ s intact. intact };

    ghost quiet_same = { λ s. refl };

    ghost quiet_then = { λ r s t first second. first ∙ second };

    ghost told_before = { λ r s term id quiet told. told };
}
