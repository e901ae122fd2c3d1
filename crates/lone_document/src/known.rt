// The places of the terms that an expression has.
ghost use Rattle.std.specs.Prelude.{◌≡◌, ◌≤◌, ℕ, List, [], ◌∷◌, ◌++◌, length, option_map, IfOk, OnOk};
ghost use Rattle.lone_document.specs.Known.{AreKnown, places_known};
ghost use Rattle.ri_base.specs.declared.limits.TheConstants.{MAX_DOC_TOKENS};

use ri_base::{ExtentExpr, NoMemory, Term};
use std::alloc::Global;
use std::collections::BTreeMap;

/// The places of some terms.
#[derive(Drop)]
pub struct Known {
    places: BTreeMap<Term, Vec<u32>>,
}

impl Known {
    /// The places of the expression's terms among these tokens.
    pub fn of(alloc: Global, expr: &ExtentExpr, tokens: &[Term]) -> Result<Known, NoMemory>
        requires { length tokens.now ≤ MAX_DOC_TOKENS }
        ensures { IfOk result (λ known. AreKnown known tokens.now) }
    {
        let mut known = Known {
            places: BTreeMap::new(alloc),
        };
        enter_terms(alloc, expr, &mut known)?;
        let mut at = 0;
        for token in tokens {
            known.note(token, at)?;
            at += 1;
        }
        Ok(known)
    }

    /// The places of the term, where they are known.
    pub fn get(&self, term: &Term) -> Option<&[u32]>
        ensures { option_map (λ places. places.now) result ≡ places_known self.now term.now }
    {
        match self.places.get(term) {
            Some(places) => Some(places.as_slice()),
            None => None,
        }
    }

    /// Enters a term of which no place was seen.
    fn enter(&mut self, alloc: Global, term: &Term) -> Result<(), NoMemory>
        ensures { OnOk result (AreKnown self.old [] → AreKnown self.new []) }
    {
        self.places.insert(term.clone_in(alloc)?, Vec::new(alloc))?;
        Ok(())
    }

    /// Notes a token behind those that were seen.
    fn note(&mut self, token: &Term, at: u32) -> Result<(), NoMemory>
        ensures { OnOk result ((tokens : List (List ℕ)) → at ≡ length tokens → AreKnown self.old tokens → AreKnown self.new (tokens ++ token.now ∷ [])) }
    {
        if let Some(places) = self.places.get_mut(token) {
            places.push(at)?;
        }
        Ok(())
    }
}

/// Enters each term of the expression.
#[cycle(entering)]
fn enter_terms(alloc: Global, expr: &ExtentExpr, known: &mut Known) -> Result<(), NoMemory>
    ensures { OnOk result (AreKnown known.old [] → AreKnown known.new []) }
{
    match expr {
        ExtentExpr::Word(term) => known.enter(alloc, term),
        ExtentExpr::Any(_) => Ok(()),
        ExtentExpr::Ordered(_, all)
        | ExtentExpr::Unordered(_, all)
        | ExtentExpr::Syn(all)
        | ExtentExpr::Band(all) => enter_all(alloc, all, known),
        ExtentExpr::InField(x, _) => enter_terms(alloc, x, known),
    }
}

#[cycle(entering)]
fn enter_all(alloc: Global, all: &[ExtentExpr], known: &mut Known) -> Result<(), NoMemory>
    ensures { OnOk result (AreKnown known.old [] → AreKnown known.new []) }
{
    for x in all {
        enter_terms(alloc, x, known)?;
    }
    Ok(())
}
