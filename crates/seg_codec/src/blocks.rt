// A block of a segment.
ghost use Rattle.std.specs.Prelude.{◌≡◌, ◌<◌, ◌==◌, ◌+◌, ◌*◌, ◌&&◌, [], ℕ, length, IfOk, nat_lt, nat_le, ◌^◌};
ghost use Rattle.std.specs.Int.{w32};
ghost use Rattle.ri_base.specs.FieldAnswers.{Gives};
ghost use Rattle.ri_base.specs.Fields.{number, ruled, ruled_byte};
ghost use Rattle.ri_base.specs.Reading.{repeat};
ghost use Rattle.seg_codec.specs.Blocks.{is_local, tokens_of, places, document_id, block_entry, block_entries, block};

use crate::documents::Entry;
use ri_base::file_fields::{Broken, byte_at, kept, rising_numbers_at, u32_at};
use ri_base::{List, Positions};
use std::alloc::Global;

/// The places of a term in the document of this id.
#[derive(Debug, Drop)]
pub struct BlockEntry {
    pub id: u32,
    pub positions: Positions,
}

/// The places of a term in the documents of a range of 64 ids, by rising id.
#[derive(Debug, Drop)]
pub struct Block {
    pub entries: List<BlockEntry>,
}

#[tactic(auto, unfolding(ri_base::specs::Fields::ruled))]
fn count_at(bytes: &[u8]) -> Result<(u32, &[u8]), Broken>
    ensures { Gives (λ x. (x.0, x.1.now)) result (ruled w32 (λ n. nat_le 1 n) bytes.now) }
{
    let (count, rest) = u32_at(bytes)?;
    kept(1 <= count, count, rest, bytes)
}

#[tactic(auto, unfolding(crate::specs::Blocks::places))]
fn places_at(alloc: Global, tokens: u32, bytes: &[u8]) -> Result<(Vec<u32>, &[u8]), Broken>
    ensures { Gives (λ x. (x.0.items, x.1.now)) result (places tokens bytes.now) }
{
    let (count, rest) = count_at(bytes)?;
    rising_numbers_at(alloc, tokens, count, rest)
}

#[tactic(auto, unfolding(ri_base::specs::Fields::ruled_byte, crate::specs::Blocks::document_id))]
fn id_at(docs: usize, range: u32, low: u64, bytes: &[u8]) -> Result<(u32, &[u8]), Broken>
    requires few { docs < 2 ^ 32 }
    ensures read { Gives (λ x. (x.0, x.1.now)) result (document_id docs range low bytes.now) }
    ensures below { IfOk result (λ x. x.0 < docs) }
{
    let (i, rest) = byte_at(bytes)?;
    let id = 64 * u64::from(range) + u64::from(i);
    if i < 64 && id < docs as u64 && low <= id {
        Ok((id as u32, rest))
    } else {
        Err(Broken::At(bytes.len()))
    }
}

fn tokens_of(docs: &[Entry], id: u32) -> u32
    requires { id < length docs.now }
    ensures { result ≡ tokens_of docs.now id }
{
    docs[id as usize].tokens
}

#[tactic(auto, unfolding(crate::specs::Blocks::block_entry))]
fn block_entry_at<'a>(
    alloc: Global,
    docs: &[Entry],
    range: u32,
    low: u64,
    bytes: &'a [u8],
) -> Result<(BlockEntry, &'a [u8]), Broken>
    requires few { length docs.now < 2 ^ 32 }
    ensures { Gives (λ x. (x.0, x.1.now)) result (block_entry docs.now range low bytes.now) }
{
    let (id, rest) = id_at(docs.len(), range, low, bytes)?;
    let (places, rest) = places_at(alloc, tokens_of(docs, id), rest)?;
    Ok((
        BlockEntry {
            id,
            positions: Positions::of(places),
        },
        rest,
    ))
}

fn block_entries_from<'a>(
    alloc: Global,
    docs: &[Entry],
    range: u32,
    count: u8,
    bytes: &'a [u8],
) -> Result<(Vec<BlockEntry>, &'a [u8]), Broken>
    requires few { length docs.now < 2 ^ 32 }
    ensures { Gives (λ x. (x.0.items, x.1.now)) result (repeat (block_entry docs.now range) (λ _ e. e.id + 1) count 0 bytes.now) }
{
    let mut entries = Vec::with_capacity(alloc, usize::from(count).min(bytes.len() / 9))?;
    let mut low = 0u64;
    let mut rest = bytes;
    for _ in 0..count {
        let (entry, after) = block_entry_at(alloc, docs, range, low, rest)?;
        low = u64::from(entry.id) + 1;
        entries.push(entry)?;
        rest = after;
    }
    Ok((entries, rest))
}

#[tactic(auto, unfolding(ri_base::specs::Fields::ruled_byte))]
fn entry_count_at(bytes: &[u8]) -> Result<(u8, &[u8]), Broken>
    ensures { Gives (λ x. (x.0, x.1.now)) result (ruled_byte (λ n. nat_le 1 n && nat_le n 64) bytes.now) }
{
    let (count, rest) = byte_at(bytes)?;
    kept(1 <= count && count <= 64, count, rest, bytes)
}

#[tactic(auto, unfolding(crate::specs::Blocks::block_entries))]
fn block_entries_at<'a>(
    alloc: Global,
    docs: &[Entry],
    range: u32,
    bytes: &'a [u8],
) -> Result<(Vec<BlockEntry>, &'a [u8]), Broken>
    requires few { length docs.now < 2 ^ 32 }
    ensures { Gives (λ x. (x.0.items, x.1.now)) result (block_entries docs.now range bytes.now) }
{
    let (count, rest) = entry_count_at(bytes)?;
    block_entries_from(alloc, docs, range, count, rest)
}

/// The block, all of these bytes.
pub fn block_of(alloc: Global, docs: &[Entry], range: u32, bytes: &[u8]) -> Result<Block, Broken>
    requires few { length docs.now < 2 ^ 32 }
    ensures { Gives (λ b. b.entries) result (block docs.now range bytes.now) }
{
    let (entries, rest) = block_entries_at(alloc, docs, range, bytes)?;
    if rest.len() == 0 {
        Ok(Block {
            entries: List::of(entries),
        })
    } else {
        Err(Broken::At(rest.len()))
    }
}
