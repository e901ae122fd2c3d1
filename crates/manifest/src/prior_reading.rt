// The rows of a prior, of bytes.
ghost use Rattle.std.specs.Prelude.{◌≡◌, ◌<◌, ◌==◌, ◌&&◌, [], ℕ, length, map, option_map, Ok, IfOk, nat_le};
ghost use Rattle.std.specs.Int.{w32, w64};
ghost use Rattle.ri_base.specs.FieldAnswers.{AnswersPart, Gives};
ghost use Rattle.ri_base.specs.Fields.{ruled, ruled_byte};
ghost use Rattle.ri_base.specs.Reading.{repeat};
ghost use Rattle.ri_base.specs.Ratio.{ratio_of};
ghost use Rattle.ri_base.specs.declared.limits.TheConstants.{MAX_PRIOR_ROWS};
ghost use Rattle.ri_base.specs.declared.seg_fault.FileName.TheVariants as files;
ghost use Rattle.ri_base.specs.declared.seg_fault.PartName.TheVariants as parts;
ghost use Rattle.manifest.specs.PriorFits.{IsPrior};
ghost use Rattle.manifest.specs.Priors.{PriorTable, belief, is_p, is_q, prior_fields, prior_file, prior_text, rest, row, row_of, rows};

use crate::prior::PriorRows;
use ri_base::file_fields::{
    Broken, byte_at, docno_behind_at, kept, magic_at, part_answer, u32_at, u64_at,
};
use ri_base::limits::{MAX_PRIOR_ROWS, PRIOR_LIMIT};
use ri_base::{Docno, FileName, Fraction, PartName, SegFault};
use std::alloc::Global;

/// A belief: p above 0 and at most q, both below the limit.
#[tactic(auto, unfolding(crate::specs::Priors::belief, ri_base::specs::Fields::ruled))]
fn belief_at(bytes: &[u8]) -> Result<(Fraction, &[u8]), Broken>
    ensures { Gives (λ x. (ratio_of x.0, x.1.now)) result (belief bytes.now) }
{
    let (p, rest) = u64_at(bytes)?;
    if p < 1 || p >= PRIOR_LIMIT {
        return Err(Broken::At(bytes.len()));
    }
    let (q, behind) = u64_at(rest)?;
    if q < p || q >= PRIOR_LIMIT {
        return Err(Broken::At(rest.len()));
    }
    Ok((Fraction { p, q }, behind))
}

/// A row, with the bytes of the docno that stand there.
#[tactic(auto, unfolding(crate::specs::Priors::row))]
fn row_at<'a>(
    alloc: Global,
    before: &[u8],
    bytes: &'a [u8],
) -> Result<((Docno, Fraction), &'a [u8], &'a [u8]), Broken>
    ensures read { Gives (λ x. (row_of x.0, x.2.now)) result (row before.now bytes.now) }
    ensures same { IfOk result (λ x. x.1.now ≡ x.0.0) }
{
    let (docno, text, rest) = docno_behind_at(alloc, before, bytes)?;
    let (fraction, rest) = belief_at(rest)?;
    Ok(((docno, fraction), text, rest))
}

fn rows_from(
    alloc: Global,
    count: u32,
    bytes: &[u8],
) -> Result<(Vec<(Docno, Fraction)>, &[u8]), Broken>
    ensures { Gives (λ x. (map row_of x.0.items, x.1.now)) result (repeat row (λ _ r. r.docno) count [] bytes.now) }
{
    let mut rows = Vec::with_capacity(alloc, (count as usize).min(bytes.len() / 18))?;
    let mut before: &[u8] = &[];
    let mut rest = bytes;
    for _ in 0..count {
        let (row, text, after) = row_at(alloc, before, rest)?;
        rows.push(row)?;
        before = text;
        rest = after;
    }
    Ok((rows, rest))
}

#[tactic(auto, unfolding(ri_base::specs::Fields::ruled))]
fn row_count_at(bytes: &[u8]) -> Result<(u32, &[u8]), Broken>
    ensures { Gives (λ x. (x.0, x.1.now)) result (ruled w32 (λ n. nat_le n MAX_PRIOR_ROWS) bytes.now) }
{
    let (count, rest) = u32_at(bytes)?;
    kept(count as usize <= MAX_PRIOR_ROWS, count, rest, bytes)
}

#[tactic(auto, unfolding(crate::specs::Priors::rows))]
fn rows_at(alloc: Global, bytes: &[u8]) -> Result<(Vec<(Docno, Fraction)>, &[u8]), Broken>
    ensures { Gives (λ x. (map row_of x.0.items, x.1.now)) result (rows bytes.now) }
{
    let (count, rest) = row_count_at(bytes)?;
    rows_from(alloc, count, rest)
}

#[tactic(auto, unfolding(ri_base::specs::Fields::ruled_byte))]
fn flag_at(bytes: &[u8]) -> Result<(u8, &[u8]), Broken>
    ensures { Gives (λ x. (x.0, x.1.now)) result (ruled_byte (λ n. nat_le n 1) bytes.now) }
{
    let (flag, rest) = byte_at(bytes)?;
    kept(flag <= 1, flag, rest, bytes)
}

/// The belief of the documents without a row.
#[tactic(auto, unfolding(crate::specs::Priors::rest))]
fn rest_at(bytes: &[u8]) -> Result<(Option<Fraction>, &[u8]), Broken>
    ensures { Gives (λ x. (option_map ratio_of x.0, x.1.now)) result (rest bytes.now) }
{
    let (flag, behind) = flag_at(bytes)?;
    if flag == 0 {
        return Ok((None, behind));
    }
    let (fraction, behind) = belief_at(behind)?;
    Ok((Some(fraction), behind))
}

/// The belief of the documents without a row, and the rows.
#[tactic(auto, unfolding(crate::specs::Priors::prior_fields))]
fn prior_at(
    alloc: Global,
    bytes: &[u8],
) -> Result<(Option<Fraction>, Vec<(Docno, Fraction)>, &[u8]), Broken>
    ensures { Gives (λ x. (record { rest = option_map ratio_of x.0; rows = map row_of x.1.items }, x.2.now)) result (prior_fields bytes.now) }
{
    let (_magic, rest) = magic_at(b"indripri".as_slice(), bytes)?;
    let (fraction, rest) = rest_at(rest)?;
    let (rows, rest) = rows_at(alloc, rest)?;
    Ok((fraction, rows, rest))
}

fn prior_of(alloc: Global, bytes: &[u8]) -> Result<PriorRows, Broken>
    ensures { Gives (λ p. p) result (prior_file bytes.now) }
{
    let (fraction, rows, behind) = prior_at(alloc, bytes)?;
    if behind.len() == 0 {
        Ok(PriorRows::of(fraction, rows))
    } else {
        Err(Broken::At(behind.len()))
    }
}

#[tactic(auto, using(ri_base::proofs::FieldFaults::answers_part))]
fn prior_answer(alloc: Global, bytes: &[u8], number: u64) -> Result<PriorRows, SegFault>
    ensures { AnswersPart (λ p. p) result (prior_file bytes.now) (files.Prior number) parts.Prior (length bytes.now) }
{
    part_answer(
        prior_of(alloc, bytes),
        FileName::Prior(number),
        PartName::Prior,
        bytes.len() as u64,
    )
}

/// The rows of a prior, of the bytes of the file of this number.
pub fn read_prior(alloc: Global, bytes: &[u8], number: u64) -> Result<PriorRows, SegFault>
    // What is read is spelled so.
    ensures found { IfOk result (λ p. (bytes.now ≡ prior_text p) × IsPrior p) }
    // What is spelled so is read, unless memory runs out.
    ensures only { (t : PriorTable) → IsPrior t → bytes.now ≡ prior_text t → AnswersPart (λ p. p) result (Ok t) (files.Prior number) parts.Prior (length bytes.now) }
    // The fault is the first one from the left, at its place.
    ensures exact { AnswersPart (λ p. p) result (prior_file bytes.now) (files.Prior number) parts.Prior (length bytes.now) }
{
    prior_answer(alloc, bytes, number)
}
