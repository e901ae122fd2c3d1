// The header of a segment.
ghost use Rattle.std.specs.Prelude.{◌≡◌, ◌<◌, ◌==◌, ◌&&◌, length, IfOk, nat_le};
ghost use Rattle.std.specs.Int.{w32, w64};
ghost use Rattle.ri_base.specs.FieldAnswers.{Gives};
ghost use Rattle.ri_base.specs.Fields.{ruled};
ghost use Rattle.ri_base.specs.declared.limits.TheConstants.{MAX_HELD_TOKENS, MAX_PART_DOCS, MAX_PART_NAMES};
ghost use Rattle.seg_codec.specs.Headers.{docs_count, counts, dictionary_place, blocks_place, places, header_fields, header, magic};

use ri_base::file_fields::{Broken, kept, magic_at, u32_at, u64_at};
use ri_base::limits::{MAX_HELD_TOKENS, MAX_PART_DOCS, MAX_PART_NAMES};

/// How much a segment has, and where its parts stand.
#[derive(Clone, Copy, Debug, PartialEq, Eq)]
pub struct Header {
    pub docs: u32,
    pub tokens: u64,
    pub terms: u32,
    pub names: u32,
    pub documents_at: u64,
    pub dictionary_at: u64,
    pub blocks_at: u64,
    pub length: u64,
}

#[tactic(auto, unfolding(ri_base::specs::Fields::ruled))]
fn version_at(bytes: &[u8]) -> Result<(u32, &[u8]), Broken>
    ensures { Gives (λ x. (x.0, x.1.now)) result (ruled w32 (λ n. n == 1) bytes.now) }
{
    let (number, rest) = u32_at(bytes)?;
    kept(number == 1, number, rest, bytes)
}

#[tactic(auto, unfolding(ri_base::specs::Fields::ruled))]
fn docs_at(docs: u32, bytes: &[u8]) -> Result<(u32, &[u8]), Broken>
    ensures { Gives (λ x. (x.0, x.1.now)) result (ruled w32 (λ n. nat_le n MAX_PART_DOCS && n == docs) bytes.now) }
{
    let (number, rest) = u32_at(bytes)?;
    kept(
        number as usize <= MAX_PART_DOCS && number == docs,
        number,
        rest,
        bytes,
    )
}

#[tactic(auto, unfolding(crate::specs::Headers::docs_count))]
fn docs_count_at(docs: u32, bytes: &[u8]) -> Result<(u32, &[u8]), Broken>
    ensures { Gives (λ x. (x.0, x.1.now)) result (docs_count docs bytes.now) }
{
    let (_magic, rest) = magic_at(b"indriseg".as_slice(), bytes)?;
    let (_version, rest) = version_at(rest)?;
    docs_at(docs, rest)
}

#[tactic(auto, unfolding(ri_base::specs::Fields::ruled))]
fn tokens_at(bytes: &[u8]) -> Result<(u64, &[u8]), Broken>
    ensures { Gives (λ x. (x.0, x.1.now)) result (ruled w64 (λ n. nat_le n MAX_HELD_TOKENS) bytes.now) }
{
    let (number, rest) = u64_at(bytes)?;
    kept(number <= MAX_HELD_TOKENS, number, rest, bytes)
}

#[tactic(auto, unfolding(ri_base::specs::Fields::ruled))]
fn names_at(bytes: &[u8]) -> Result<(u32, &[u8]), Broken>
    ensures { Gives (λ x. (x.0, x.1.now)) result (ruled w32 (λ n. nat_le n MAX_PART_NAMES) bytes.now) }
{
    let (number, rest) = u32_at(bytes)?;
    kept(number as usize <= MAX_PART_NAMES, number, rest, bytes)
}

#[tactic(auto, unfolding(crate::specs::Headers::counts))]
fn counts_at(bytes: &[u8]) -> Result<((u64, u32, u32), &[u8]), Broken>
    ensures { Gives (λ x. ((x.0.0, x.0.1, x.0.2), x.1.now)) result (counts bytes.now) }
{
    let (tokens, rest) = tokens_at(bytes)?;
    let (terms, rest) = u32_at(rest)?;
    let (names, rest) = names_at(rest)?;
    Ok(((tokens, terms, names), rest))
}

#[tactic(auto, unfolding(ri_base::specs::Fields::ruled))]
fn just_at(number: u64, bytes: &[u8]) -> Result<(u64, &[u8]), Broken>
    ensures { Gives (λ x. (x.0, x.1.now)) result (ruled w64 (λ n. n == number) bytes.now) }
{
    let (found, rest) = u64_at(bytes)?;
    kept(found == number, found, rest, bytes)
}

#[tactic(auto, unfolding(ri_base::specs::Fields::ruled))]
fn place_from(least: u64, bytes: &[u8]) -> Result<(u64, &[u8]), Broken>
    ensures { Gives (λ x. (x.0, x.1.now)) result (ruled w64 (λ n. nat_le least n) bytes.now) }
{
    let (number, rest) = u64_at(bytes)?;
    kept(least <= number, number, rest, bytes)
}

#[tactic(auto, unfolding(ri_base::specs::Fields::ruled))]
fn length_at(least: u64, size: u64, bytes: &[u8]) -> Result<(u64, &[u8]), Broken>
    ensures { Gives (λ x. (x.0, x.1.now)) result (ruled w64 (λ n. nat_le least n && n == size) bytes.now) }
{
    let (number, rest) = u64_at(bytes)?;
    kept(least <= number && number == size, number, rest, bytes)
}

#[tactic(auto, unfolding(crate::specs::Headers::dictionary_place))]
fn dictionary_place_at(bytes: &[u8]) -> Result<(u64, &[u8]), Broken>
    ensures { Gives (λ x. (x.0, x.1.now)) result (dictionary_place bytes.now) }
{
    let (_documents, rest) = just_at(64, bytes)?;
    place_from(64, rest)
}

#[tactic(auto, unfolding(crate::specs::Headers::blocks_place))]
fn blocks_place_at(size: u64, dictionary: u64, bytes: &[u8]) -> Result<(u64, &[u8]), Broken>
    ensures { Gives (λ x. (x.0, x.1.now)) result (blocks_place size dictionary bytes.now) }
{
    let (blocks, rest) = place_from(dictionary, bytes)?;
    let (_end, rest) = length_at(blocks, size, rest)?;
    Ok((blocks, rest))
}

#[tactic(auto, unfolding(crate::specs::Headers::places))]
fn places_at(size: u64, bytes: &[u8]) -> Result<(u64, u64, &[u8]), Broken>
    ensures { Gives (λ x. ((x.0, x.1), x.2.now)) result (places size bytes.now) }
{
    let (dictionary, rest) = dictionary_place_at(bytes)?;
    let (blocks, rest) = blocks_place_at(size, dictionary, rest)?;
    Ok((dictionary, blocks, rest))
}

#[tactic(auto, unfolding(crate::specs::Headers::header_fields))]
fn header_fields_at(docs: u32, size: u64, bytes: &[u8]) -> Result<(Header, &[u8]), Broken>
    ensures { Gives (λ x. (x.0, x.1.now)) result (header_fields docs size bytes.now) }
{
    let (docs, rest) = docs_count_at(docs, bytes)?;
    let ((tokens, terms, names), rest) = counts_at(rest)?;
    let (dictionary_at, blocks_at, rest) = places_at(size, rest)?;
    Ok((
        Header {
            docs,
            tokens,
            terms,
            names,
            documents_at: 64,
            dictionary_at,
            blocks_at,
            length: size,
        },
        rest,
    ))
}

/// The header, all of these bytes.
pub fn header_of(docs: u32, size: u64, bytes: &[u8]) -> Result<Header, Broken>
    ensures { Gives (λ h. h) result (header docs size bytes.now) }
{
    let (header, rest) = header_fields_at(docs, size, bytes)?;
    if rest.len() == 0 {
        Ok(header)
    } else {
        Err(Broken::At(rest.len()))
    }
}
