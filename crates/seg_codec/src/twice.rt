// The place of a posting that stands in a file a second time.
ghost use Rattle.std.specs.Prelude.{◌≡◌, ◌<◌, ◌+◌, ◌^◌, ◌++◌, [], None, length, IfOk, OnOk, sum_by};
ghost use Rattle.seg_codec.specs.Segment.{blocks_of};
ghost use Rattle.seg_codec.specs.Twice.{all_standing, first_twice, size_behind, sizes, standing, told_twice};

use crate::whole::Whole;
use ri_base::{NoMemory, Place, Places};
use std::alloc::Global;
use std::collections::BTreeSet;

/// A posting, and where it stands in its file.
#[derive(Clone, Copy, Debug, PartialEq, Eq)]
pub struct Standing {
    pub posting: Place,
    pub place: u64,
}

/// How many bytes a posting takes in the blocks of its term, behind another.
fn size_behind(before: Option<Place>, posting: Place) -> u64
    ensures { result ≡ size_behind before posting }
{
    match before {
        None => 10,
        Some(last) if last.id == posting.id => 4,
        Some(last) if last.id / 64 == posting.id / 64 => 9,
        Some(_) => 10,
    }
}

/// Puts the postings of a term behind the others, where its blocks begin at this place; and the place behind them.
fn stand(out: &mut Vec<Standing>, start: u64, postings: &[Place]) -> Result<u64, NoMemory>
    requires { start + sizes None postings.now < 2 ^ 64 }
    ensures stand { OnOk result (out.new.items ≡ out.old.items ++ standing start None postings.now) }
    ensures end { IfOk result (λ n. n ≡ start + sizes None postings.now) }
{
    let mut end = start;
    let mut before = None;
    for posting in postings {
        end += size_behind(before, *posting);
        out.push(Standing {
            posting: *posting,
            place: end - 4,
        })?;
        before = Some(*posting);
    }
    Ok(end)
}

/// The postings of all terms, in the order of the file, where the first block stands at this place.
fn standing_in(alloc: Global, start: u64, postings: &[Places]) -> Result<Vec<Standing>, NoMemory>
    requires { start + sum_by (λ ps. length (blocks_of ps)) postings.now < 2 ^ 64 }
    ensures { IfOk result (λ v. v.items ≡ all_standing start postings.now) }
{
    let mut out = Vec::new(alloc);
    let mut end = start;
    for places in postings {
        end = stand(&mut out, end, places.as_slice())?;
    }
    Ok(out)
}

/// Where the first posting stands that is one of those before it.
fn first_twice(alloc: Global, all: &[Standing]) -> Result<Option<u64>, NoMemory>
    ensures { IfOk result (λ o. o ≡ first_twice [] all.now) }
{
    let mut seen = BTreeSet::new(alloc);
    for one in all {
        if !seen.insert((one.posting.id, one.posting.at))? {
            return Ok(Some(one.place));
        }
    }
    Ok(None)
}

/// Where a posting stands in the file a second time, the first one of these in the file's order.
pub fn place_told_twice(alloc: Global, whole: &Whole) -> Result<Option<u64>, NoMemory>
    requires { whole.now.header.blocks_at + sum_by (λ ps. length (blocks_of ps)) whole.now.postings < 2 ^ 64 }
    ensures { IfOk result (λ o. o ≡ told_twice whole.now) }
{
    let all = standing_in(alloc, whole.header.blocks_at, whole.postings.as_slice())?;
    first_twice(alloc, &all)
}
