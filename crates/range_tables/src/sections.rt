// What is counted of the documents with the ids from one on up to another, and of those of a range.
ghost use Rattle.std.specs.Prelude.{◌≡◌, ◌≤◌, ◌<◌, length, map, Err, IfErr, IfOk, OnOk};
ghost use Rattle.std.specs.List.{AllZip};
ghost use Rattle.ri_base.specs.Collection.{document_at};
ghost use Rattle.ri_base.specs.Documents.{IsDocument};
ghost use Rattle.ri_base.specs.Faults.{IsOutside, TellsDamage};
ghost use Rattle.ri_base.specs.Keeps.{Keeps, Rose};
ghost use Rattle.ri_base.specs.declared.limits.TheConstants.{MAX_DOC_TOKENS};
ghost use Rattle.query_check.specs.Leaves.{leaf_tree};
ghost use Rattle.range_bounds.specs.Most.{capped};
ghost use Rattle.range_bounds.specs.Ranges.{least_length, most_begins, range_documents};
ghost use Rattle.range_tables.specs.Needs.{IsTermCount};
ghost use Rattle.range_tables.specs.Sections.{section};
ghost use Rattle.range_bounds.specs.Tables.{AreFormed};

use crate::begins::begin_count;
use crate::needs::is_needed;
use query_check::LeafKind;
use range_masks::TermMasks;
use ri_base::limits::MAX_DOC_TOKENS;
use ri_base::{Name, NoMemory, Postings, SegFault, Term};
use std::alloc::{AllocError, Global};

/// How many tokens the document has. Its fields are looked at only since they tell that it has the form of every document.
fn token_count<P: Postings>(part: &P, id: u32) -> u32
    requires { id < length (P.documents part.now) }
    ensures exact { result ≡ length (document_at (P.documents part.now) id).tokens }
    ensures formed { IsDocument (document_at (P.documents part.now) id).tokens (document_at (P.documents part.now) id).fields }
{
    part.spans(id);
    part.length(id)
}

/// The tokens of the shortest document.
pub(crate) fn least_length<P: Postings>(part: &P, first: u32, end: u32) -> u32
    requires order { first ≤ end }
    requires within { end ≤ length (P.documents part.now) }
    ensures exact { result ≡ least_length (section (P.documents part.now) first end) }
    ensures short { result ≤ MAX_DOC_TOKENS }
    ensures formed { AreFormed (section (P.documents part.now) first end) }
{
    let mut least = MAX_DOC_TOKENS as u32;
    for id in first..end {
        least = least.min(token_count(part, id));
    }
    least
}

/// At how many tokens fields of the name begin at most in one document.
fn most_begins<P: Postings>(part: &P, name: &Name, first: u32, end: u32) -> u32
    requires order { first ≤ end }
    requires within { end ≤ length (P.documents part.now) }
    ensures { result ≡ capped (most_begins (section (P.documents part.now) first end) name.now) }
{
    let mut most = 0u64;
    for id in first..end {
        most = most.max(begin_count(part.spans(id), name));
    }
    most.min(MAX_DOC_TOKENS as u64) as u32
}

/// The same of each name.
pub(crate) fn all_most_begins<P: Postings>(
    alloc: Global,
    part: &P,
    names: &[Name],
    first: u32,
    end: u32,
) -> Result<Vec<u32>, NoMemory>
    requires order { first ≤ end }
    requires within { end ≤ length (P.documents part.now) }
    ensures { IfOk result (λ v. v.items ≡ map (λ f. capped (most_begins (section (P.documents part.now) first end) f)) names.now) }
{
    let mut all = Vec::with_capacity(alloc, names.len())?;
    for name in names {
        all.push(most_begins(part, name, first, end))?;
    }
    Ok(all)
}

/// How many places the term has at most in one document of the range. Where no leaf that asks for the term may occur there, they
/// aren't looked at, and it is 0.
fn needed_places<P: TermMasks>(
    alloc: Global,
    part: &mut P,
    leaves: &[LeafKind],
    term: &Term,
    range: u32,
) -> Result<u32, SegFault>
    ensures keeps { Keeps P.documents P.faults P.sound P.intact P.quiet part.old part.new }
    ensures exact { P.sound part.old → IfOk result
        (IsTermCount (map leaf_tree leaves.now) (range_documents (P.documents part.old) range) term.now) }
    ensures honest { P.intact part.old → IfErr result IsOutside }
    ensures undamaged { OnOk result (P.damage part.new ≡ P.damage part.old) }
    ensures damaged { IfErr result (TellsDamage (P.damage part.old) (P.damage part.new)) }
    ensures store { result ≡ Err SegFault.Store → Rose (P.faults part.old) (P.faults part.new) }
{
    if !is_needed(leaves, term, part, range) {
        return Ok(0);
    }
    let most = part.most_places(alloc, term, range)?;
    Ok(most.min(MAX_DOC_TOKENS) as u32)
}

/// The same of each term.
pub(crate) fn all_needed_places<P: TermMasks>(
    alloc: Global,
    part: &mut P,
    leaves: &[LeafKind],
    terms: &[Term],
    range: u32,
) -> Result<Vec<u32>, SegFault>
    ensures keeps { Keeps P.documents P.faults P.sound P.intact P.quiet part.old part.new }
    ensures exact { P.sound part.old → IfOk result
        (λ v. AllZip (IsTermCount (map leaf_tree leaves.now) (range_documents (P.documents part.old) range)) terms.now v.items) }
    ensures honest { P.intact part.old → IfErr result IsOutside }
    ensures undamaged { OnOk result (P.damage part.new ≡ P.damage part.old) }
    ensures damaged { IfErr result (TellsDamage (P.damage part.old) (P.damage part.new)) }
    ensures store { result ≡ Err SegFault.Store → Rose (P.faults part.old) (P.faults part.new) }
{
    let mut all = Vec::with_capacity(alloc, terms.len())?;
    for term in terms {
        let most = needed_places(alloc, part, leaves, term, range)?;
        all.push(most).map_err(AllocError::from)?;
    }
    Ok(all)
}
