// Texts behind their lengths: docnos, terms and names.
ghost use Rattle.std.specs.Prelude.{◌≡◌, IfOk};
ghost use Rattle.ri_base.specs.FieldAnswers.{Gives};
ghost use Rattle.ri_base.specs.Fields.{docno, docno_behind, is_before, name_behind, term_behind, text_length};

use crate::broken::Broken;
use crate::field_bytes::{byte_at, front_at};
use crate::{DOCNO_BYTES, Docno, NAME_BYTES, Name, TERM_BYTES, Term};
use std::alloc::Global;
use std::cmp::Ordering;

/// The byte that says how many bytes a text has: at least one, and at most so many.
#[tactic(auto, unfolding(crate::specs::Fields::text_length))]
pub fn text_length_at(most: usize, bytes: &[u8]) -> Result<(usize, &[u8]), Broken>
    ensures { Gives (λ x. (x.0, x.1.now)) result (text_length most bytes.now) }
{
    let (count, rest) = byte_at(bytes)?;
    if 1 <= count && usize::from(count) <= most {
        Ok((usize::from(count), rest))
    } else {
        Err(Broken::At(bytes.len()))
    }
}

/// Whether one stands before the other, by their bytes.
pub fn is_before(a: &[u8], b: &[u8]) -> bool
    ensures { result ≡ is_before a.now b.now }
{
    match a.cmp(b) {
        Ordering::Less => true,
        Ordering::Equal | Ordering::Greater => false,
    }
}

#[tactic(auto, unfolding(crate::specs::Fields::text, crate::specs::Fields::ruled_front))]
pub fn docno_at(alloc: Global, bytes: &[u8]) -> Result<(Docno, &[u8]), Broken>
    ensures { Gives (λ x. (x.0, x.1.now)) result (docno bytes.now) }
{
    let (count, behind) = text_length_at(DOCNO_BYTES, bytes)?;
    let (text, rest) = front_at(count, behind)?;
    match Docno::new(alloc, text)? {
        Some(docno) => Ok((docno, rest)),
        None => Err(Broken::At(behind.len())),
    }
}

/// A docno that stands behind another, with the bytes that it has there.
#[tactic(auto, unfolding(crate::specs::Fields::text, crate::specs::Fields::ruled_front))]
pub fn docno_behind_at<'a>(
    alloc: Global,
    before: &[u8],
    bytes: &'a [u8],
) -> Result<(Docno, &'a [u8], &'a [u8]), Broken>
    ensures read { Gives (λ x. (x.0, x.2.now)) result (docno_behind before.now bytes.now) }
    ensures same { IfOk result (λ x. x.1.now ≡ x.0) }
{
    let (count, behind) = text_length_at(DOCNO_BYTES, bytes)?;
    let (text, rest) = front_at(count, behind)?;
    if !is_before(before, text) {
        return Err(Broken::At(behind.len()));
    }
    match Docno::new(alloc, text)? {
        Some(docno) => Ok((docno, text, rest)),
        None => Err(Broken::At(behind.len())),
    }
}

/// A term that stands behind another, with the bytes that it has there.
#[tactic(auto, unfolding(crate::specs::Fields::text, crate::specs::Fields::ruled_front))]
pub fn term_behind_at<'a>(
    alloc: Global,
    before: &[u8],
    bytes: &'a [u8],
) -> Result<(Term, &'a [u8], &'a [u8]), Broken>
    ensures read { Gives (λ x. (x.0, x.2.now)) result (term_behind before.now bytes.now) }
    ensures same { IfOk result (λ x. x.1.now ≡ x.0) }
{
    let (count, behind) = text_length_at(TERM_BYTES, bytes)?;
    let (text, rest) = front_at(count, behind)?;
    if !is_before(before, text) {
        return Err(Broken::At(behind.len()));
    }
    match Term::new(alloc, text)? {
        Some(term) => Ok((term, text, rest)),
        None => Err(Broken::At(behind.len())),
    }
}

/// A name that stands behind another, with the bytes that it has there.
#[tactic(auto, unfolding(crate::specs::Fields::text, crate::specs::Fields::ruled_front))]
pub fn name_behind_at<'a>(
    alloc: Global,
    before: &[u8],
    bytes: &'a [u8],
) -> Result<(Name, &'a [u8], &'a [u8]), Broken>
    ensures read { Gives (λ x. (x.0, x.2.now)) result (name_behind before.now bytes.now) }
    ensures same { IfOk result (λ x. x.1.now ≡ x.0) }
{
    let (count, behind) = text_length_at(NAME_BYTES, bytes)?;
    let (text, rest) = front_at(count, behind)?;
    if !is_before(before, text) {
        return Err(Broken::At(behind.len()));
    }
    match Name::of_lower(alloc, text)? {
        Some(name) => Ok((name, text, rest)),
        None => Err(Broken::At(behind.len())),
    }
}
