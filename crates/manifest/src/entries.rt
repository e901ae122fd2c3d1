// The entries of a manifest, read from the front of bytes.
ghost use Rattle.std.specs.Prelude.{◌≡◌, ◌≤◌, ◌==◌, ◌+◌, ◌&&◌, [], ℕ, length, map, IfOk, not, nat_lt, nat_le};
ghost use Rattle.std.specs.Bool.{nat_eq};
ghost use Rattle.std.specs.Int.{w32, w64};
ghost use Rattle.std.specs.Cmp.Lexicographic.{pointwise};
ghost use Rattle.std.specs.List.{list_any};
ghost use Rattle.ri_base.specs.FieldAnswers.{Gives};
ghost use Rattle.ri_base.specs.Fields.{number, ruled, ruled_byte, text};
ghost use Rattle.ri_base.specs.Reading.{repeat};
ghost use Rattle.ri_base.specs.declared.limits.TheConstants.{MAX_PRIORS};
ghost use Rattle.ri_base.specs.declared.text.TheConstants.{NAME_BYTES};
ghost use Rattle.manifest.specs.Entries.{Behind, BehindPrior, behind, behind_prior, file_number, is_docs, is_number, is_prior_name, length_name, marks, prior, priors, segment, segments, stale, stale_number, with_number, with_numbers};
ghost use Rattle.manifest.specs.Files.{numbers_of};

use crate::manifest::{PriorEntry, SegEntry};
use ri_base::file_fields::{
    Broken, byte_at, front_at, kept, rising_numbers_at, text_length_at, u32_at, u64_at,
};
use ri_base::limits::{MAX_PART_DOCS, MAX_PRIORS};
use ri_base::{List, NAME_BYTES, Name};
use std::alloc::Global;
use std::collections::BTreeSet;

/// Whether a file may have this number: it is at least 1, below that of the next file, and none of those before.
#[tactic(auto, using(crate::proofs::EntryLemmas::number_among))]
fn is_number(next: u64, used: &BTreeSet<u64>, number: u64) -> bool
    ensures { result ≡ is_number next used.now.keys number }
{
    1 <= number && number < next && !used.contains(&number)
}

#[tactic(auto, unfolding(ri_base::specs::Fields::ruled))]
fn file_number_at<'a>(
    next: u64,
    used: &BTreeSet<u64>,
    bytes: &'a [u8],
) -> Result<(u64, &'a [u8]), Broken>
    ensures { Gives (λ x. (x.0, x.1.now)) result (file_number next used.now.keys bytes.now) }
{
    let (number, rest) = u64_at(bytes)?;
    kept(is_number(next, used, number), number, rest, bytes)
}

#[tactic(auto, unfolding(crate::specs::Entries::marks))]
fn marks_at(alloc: Global, docs: u32, bytes: &[u8]) -> Result<(Vec<u32>, &[u8]), Broken>
    ensures { Gives (λ x. (x.0.items, x.1.now)) result (marks docs bytes.now) }
{
    let (count, rest) = u32_at(bytes)?;
    rising_numbers_at(alloc, docs, count, rest)
}

#[tactic(auto, unfolding(ri_base::specs::Fields::ruled))]
fn docs_at(bytes: &[u8]) -> Result<(u32, &[u8]), Broken>
    ensures { Gives (λ x. (x.0, x.1.now)) result (ruled w32 is_docs bytes.now) }
{
    let (docs, rest) = u32_at(bytes)?;
    kept(
        1 <= docs && docs as usize <= MAX_PART_DOCS,
        docs,
        rest,
        bytes,
    )
}

#[tactic(auto, unfolding(crate::specs::Entries::segment))]
fn segment_at<'a>(
    alloc: Global,
    next: u64,
    used: &BTreeSet<u64>,
    bytes: &'a [u8],
) -> Result<(SegEntry, &'a [u8]), Broken>
    ensures { Gives (λ x. (x.0, x.1.now)) result (segment next used.now.keys bytes.now) }
{
    let (number, rest) = file_number_at(next, used, bytes)?;
    let (docs, rest) = docs_at(rest)?;
    let (marks, rest) = marks_at(alloc, docs, rest)?;
    Ok((
        SegEntry {
            number,
            docs,
            marks: List::of(marks),
        },
        rest,
    ))
}

/// So many segments, with the set of their numbers.
fn segments_from(
    alloc: Global,
    next: u64,
    count: u32,
    bytes: &[u8],
) -> Result<(Vec<SegEntry>, BTreeSet<u64>, &[u8]), Broken>
    ensures read { Gives (λ x. (x.0.items, x.2.now)) result (repeat (segment next) (λ used e. with_number used e.number) count [] bytes.now) }
    ensures used { IfOk result (λ x. x.1.keys ≡ with_numbers [] (numbers_of x.0.items)) }
{
    let mut segments = Vec::with_capacity(alloc, (count as usize).min(bytes.len() / 16))?;
    let mut used = BTreeSet::new(alloc);
    let mut rest = bytes;
    for _ in 0..count {
        let (segment, after) = segment_at(alloc, next, &used, rest)?;
        used.insert(segment.number)?;
        segments.push(segment)?;
        rest = after;
    }
    Ok((segments, used, rest))
}

/// The segments, with the set of their numbers.
#[tactic(auto, unfolding(crate::specs::Entries::segments))]
pub fn segments_at(
    alloc: Global,
    next: u64,
    bytes: &[u8],
) -> Result<(Vec<SegEntry>, BTreeSet<u64>, &[u8]), Broken>
    ensures read { Gives (λ x. (x.0.items, x.2.now)) result (segments next bytes.now) }
    ensures used { IfOk result (λ x. x.1.keys ≡ with_numbers [] (numbers_of x.0.items)) }
{
    let (count, rest) = u32_at(bytes)?;
    segments_from(alloc, next, count, rest)
}

#[tactic(auto, unfolding(ri_base::specs::Fields::ruled))]
fn stale_number_at<'a>(
    next: u64,
    low: u128,
    used: &BTreeSet<u64>,
    bytes: &'a [u8],
) -> Result<(u64, &'a [u8]), Broken>
    ensures { Gives (λ x. (x.0, x.1.now)) result (stale_number next (record { low = low; used = used.now.keys }) bytes.now) }
{
    let (number, rest) = u64_at(bytes)?;
    let rule = low <= u128::from(number) && is_number(next, used, number);
    kept(rule, number, rest, bytes)
}

/// So many stale files, with the set of all numbers so far.
fn stale_from(
    alloc: Global,
    next: u64,
    before: BTreeSet<u64>,
    count: u64,
    bytes: &[u8],
) -> Result<(Vec<u64>, BTreeSet<u64>, &[u8]), Broken>
    ensures read { Gives (λ x. (x.0.items, x.2.now)) result (repeat (stale_number next) behind count (record { low = 0; used = before.keys }) bytes.now) }
    ensures used { IfOk result (λ x. x.1.keys ≡ with_numbers before.keys x.0.items) }
{
    let mut stale = Vec::with_capacity(alloc, count.min(bytes.len() as u64 / 8) as usize)?;
    let mut used = before;
    let mut low = 0u128;
    let mut rest = bytes;
    for _ in 0..count {
        let (number, after) = stale_number_at(next, low, &used, rest)?;
        used.insert(number)?;
        stale.push(number)?;
        low = u128::from(number) + 1;
        rest = after;
    }
    Ok((stale, used, rest))
}

/// The stale files, with the set of all numbers so far.
#[tactic(auto, unfolding(crate::specs::Entries::stale))]
pub fn stale_at(
    alloc: Global,
    next: u64,
    before: BTreeSet<u64>,
    bytes: &[u8],
) -> Result<(Vec<u64>, BTreeSet<u64>, &[u8]), Broken>
    ensures read { Gives (λ x. (x.0.items, x.2.now)) result (stale next before.keys bytes.now) }
    ensures used { IfOk result (λ x. x.1.keys ≡ with_numbers before.keys x.0.items) }
{
    let (count, rest) = u64_at(bytes)?;
    stale_from(alloc, next, before, count, rest)
}

/// Whether one of these priors has this name.
fn is_named(priors: &[PriorEntry], name: &[u8]) -> bool
    ensures { result ≡ list_any (pointwise nat_eq name.now) (map (λ p. p.name) priors.now) }
{
    for p in priors {
        if name == p.name.as_bytes() {
            return true;
        }
    }
    false
}

/// The name of a prior, behind these.
#[tactic(auto, unfolding(ri_base::specs::Fields::text, ri_base::specs::Fields::ruled_front))]
fn prior_name_at<'a>(
    alloc: Global,
    priors: &[PriorEntry],
    bytes: &'a [u8],
) -> Result<(Name, &'a [u8]), Broken>
    ensures { Gives (λ x. (x.0, x.1.now)) result (text NAME_BYTES (is_prior_name (map (λ p. p.name) priors.now)) bytes.now) }
{
    let (count, behind) = text_length_at(NAME_BYTES, bytes)?;
    let (name, rest) = front_at(count, behind)?;
    if name == b"length".as_slice() || is_named(priors, name) {
        return Err(Broken::At(behind.len()));
    }
    match Name::of_lower(alloc, name)? {
        Some(name) => Ok((name, rest)),
        None => Err(Broken::At(behind.len())),
    }
}

#[tactic(auto, unfolding(crate::specs::Entries::prior))]
fn prior_at<'a>(
    alloc: Global,
    next: u64,
    priors: &[PriorEntry],
    used: &BTreeSet<u64>,
    bytes: &'a [u8],
) -> Result<(PriorEntry, &'a [u8]), Broken>
    ensures { Gives (λ x. (x.0, x.1.now)) result (prior next (record { names = map (λ p. p.name) priors.now; used = used.now.keys }) bytes.now) }
{
    let (name, rest) = prior_name_at(alloc, priors, bytes)?;
    let (number, rest) = file_number_at(next, used, rest)?;
    Ok((PriorEntry { name, number }, rest))
}

fn priors_from(
    alloc: Global,
    next: u64,
    before: BTreeSet<u64>,
    count: u8,
    bytes: &[u8],
) -> Result<(Vec<PriorEntry>, &[u8]), Broken>
    ensures { Gives (λ x. (x.0.items, x.1.now)) result (repeat (prior next) behind_prior count (record { names = []; used = before.keys }) bytes.now) }
{
    let mut priors = Vec::with_capacity(alloc, usize::from(count).min(bytes.len() / 10))?;
    let mut used = before;
    let mut rest = bytes;
    for _ in 0..count {
        let (prior, after) = prior_at(alloc, next, priors.as_slice(), &used, rest)?;
        used.insert(prior.number)?;
        priors.push(prior)?;
        rest = after;
    }
    Ok((priors, rest))
}

#[tactic(auto, unfolding(ri_base::specs::Fields::ruled_byte))]
fn prior_count_at(bytes: &[u8]) -> Result<(u8, &[u8]), Broken>
    ensures { Gives (λ x. (x.0, x.1.now)) result (ruled_byte (λ n. nat_le n MAX_PRIORS) bytes.now) }
{
    let (count, rest) = byte_at(bytes)?;
    kept(usize::from(count) <= MAX_PRIORS, count, rest, bytes)
}

/// The priors, behind the files of these numbers.
#[tactic(auto, unfolding(crate::specs::Entries::priors))]
pub fn priors_at(
    alloc: Global,
    next: u64,
    before: BTreeSet<u64>,
    bytes: &[u8],
) -> Result<(Vec<PriorEntry>, &[u8]), Broken>
    ensures { Gives (λ x. (x.0.items, x.1.now)) result (priors next before.keys bytes.now) }
{
    let (count, rest) = prior_count_at(bytes)?;
    priors_from(alloc, next, before, count, rest)
}
