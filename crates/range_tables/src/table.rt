// The table of the ranges of a part.
ghost use Rattle.std.specs.Prelude.{◌≡◌, ◌<◌, ◌≤◌, ◌+◌, ◌*◌, length, map, Err, IfErr, IfOk, OnOk};
ghost use Rattle.ri_base.specs.Faults.{IsOutside, TellsDamage};
ghost use Rattle.ri_base.specs.Keeps.{Keeps, Rose};
ghost use Rattle.query_check.specs.Leaves.{leaf_tree};
ghost use Rattle.range_bounds.specs.Ranges.{range_documents};
ghost use Rattle.range_bounds.specs.Tables.{AreAllCounts, AreCountsOf, IsTableOf, TellsRange};
ghost use Rattle.range_tables.specs.Asks.{AskFor};
ghost use Rattle.range_tables.specs.Gaps.{AreAbsentTo};

use crate::asked::asked_by;
use crate::sections::{all_most_begins, all_needed_places, least_length};
use crate::texts::{distinct_names, distinct_terms};
use query_check::LeafKind;
use range_bounds::{RangeCounts, RangeTable};
use range_masks::{TermMasks, next_query_range};
use ri_base::{Name, SegFault, Term};
use std::alloc::{AllocError, Global};

/// How many ids a range has.
const RANGE_IDS: u32 = 64;

/// The table of the part for these leaves.
pub fn table_of<P: TermMasks>(
    alloc: Global,
    part: &mut P,
    leaves: &[LeafKind],
) -> Result<RangeTable, SegFault>
    ensures keeps { Keeps P.documents P.faults P.sound P.intact P.quiet part.old part.new }
    ensures exact { P.sound part.old → IfOk result (IsTableOf (map leaf_tree leaves.now) (P.documents part.old)) }
    ensures honest { P.intact part.old → IfErr result IsOutside }
    ensures undamaged { OnOk result (P.damage part.new ≡ P.damage part.old) }
    ensures damaged { IfErr result (TellsDamage (P.damage part.old) (P.damage part.new)) }
    ensures store { result ≡ Err SegFault.Store → Rose (P.faults part.old) (P.faults part.new) }
{
    let asked = asked_by(alloc, leaves)?;
    let terms = distinct_terms(alloc, &asked.terms)?;
    let names = distinct_names(alloc, &asked.names)?;
    let ranges = all_counts(alloc, part, leaves, terms.as_slice(), names.as_slice())?;
    Ok(RangeTable::new(terms, names, ranges))
}

/// What is told of each range of the part for these leaves, by counts of these terms and names. No document is looked at of a
/// range in which no leaf may occur by the dictionary.
fn all_counts<P: TermMasks>(
    alloc: Global,
    part: &mut P,
    leaves: &[LeafKind],
    terms: &[Term],
    names: &[Name],
) -> Result<Vec<Option<RangeCounts>>, SegFault>
    requires { AskFor terms.now names.now (map leaf_tree leaves.now) }
    ensures keeps { Keeps P.documents P.faults P.sound P.intact P.quiet part.old part.new }
    ensures exact { P.sound part.old → IfOk result
        (λ ranges. AreAllCounts (map leaf_tree leaves.now) terms.now names.now (P.documents part.old) ranges.items) }
    ensures honest { P.intact part.old → IfErr result IsOutside }
    ensures undamaged { OnOk result (P.damage part.new ≡ P.damage part.old) }
    ensures damaged { IfErr result (TellsDamage (P.damage part.old) (P.damage part.new)) }
    ensures store { result ≡ Err SegFault.Store → Rose (P.faults part.old) (P.faults part.new) }
{
    let count = range_count(part.docs());
    let mut ranges = Vec::with_capacity(alloc, count as usize)?;
    let mut next = 0;
    for range in 0..count {
        next = next_occurrence(part, leaves, range, next);
        let told = told_of(alloc, part, leaves, terms, names, range, next)?;
        ranges.push(told).map_err(AllocError::from)?;
    }
    Ok(ranges)
}

/// A range before which no leaf has an extent in a range from this one on, by what is known already, or else by the dictionary.
/// No file is read.
fn next_occurrence<P: TermMasks>(part: &P, leaves: &[LeafKind], from: u32, known: u32) -> u32
    ensures { P.sound part.now → AreAbsentTo (map leaf_tree leaves.now) (P.documents part.now) from known
        → AreAbsentTo (map leaf_tree leaves.now) (P.documents part.now) from result }
{
    if from < known {
        return known;
    }
    next_query_range(&[], leaves, part, from).unwrap_or(u32::MAX)
}

/// What is told of a range of the part: its counts, or nothing where it lies before the next one in which some leaf may occur.
fn told_of<P: TermMasks>(
    alloc: Global,
    part: &mut P,
    leaves: &[LeafKind],
    terms: &[Term],
    names: &[Name],
    range: u32,
    next: u32,
) -> Result<Option<RangeCounts>, SegFault>
    requires asked { AskFor terms.now names.now (map leaf_tree leaves.now) }
    requires range { 64 * range < length (P.documents part.old) }
    ensures keeps { Keeps P.documents P.faults P.sound P.intact P.quiet part.old part.new }
    ensures exact { P.sound part.old → AreAbsentTo (map leaf_tree leaves.now) (P.documents part.old) range next → IfOk result
        (TellsRange (map leaf_tree leaves.now) terms.now names.now (range_documents (P.documents part.old) range)) }
    ensures honest { P.intact part.old → IfErr result IsOutside }
    ensures undamaged { OnOk result (P.damage part.new ≡ P.damage part.old) }
    ensures damaged { IfErr result (TellsDamage (P.damage part.old) (P.damage part.new)) }
    ensures store { result ≡ Err SegFault.Store → Rose (P.faults part.old) (P.faults part.new) }
{
    if range < next {
        return Ok(None);
    }
    let counts = range_counts(alloc, part, leaves, terms, names, range)?;
    Ok(Some(counts))
}

/// The counts of a range of the part for these leaves, of these terms and names.
fn range_counts<P: TermMasks>(
    alloc: Global,
    part: &mut P,
    leaves: &[LeafKind],
    terms: &[Term],
    names: &[Name],
    range: u32,
) -> Result<RangeCounts, SegFault>
    requires asked { AskFor terms.now names.now (map leaf_tree leaves.now) }
    requires range { 64 * range < length (P.documents part.old) }
    ensures keeps { Keeps P.documents P.faults P.sound P.intact P.quiet part.old part.new }
    ensures exact { P.sound part.old → IfOk result
        (AreCountsOf (map leaf_tree leaves.now) terms.now names.now (range_documents (P.documents part.old) range)) }
    ensures honest { P.intact part.old → IfErr result IsOutside }
    ensures undamaged { OnOk result (P.damage part.new ≡ P.damage part.old) }
    ensures damaged { IfErr result (TellsDamage (P.damage part.old) (P.damage part.new)) }
    ensures store { result ≡ Err SegFault.Store → Rose (P.faults part.old) (P.faults part.new) }
{
    let docs = part.docs();
    let first = RANGE_IDS * range;
    let end = first + (docs - first).min(RANGE_IDS);
    let least = least_length(part, first, end);
    let begins = all_most_begins(alloc, part, names, first, end)?;
    let places = all_needed_places(alloc, part, leaves, terms, range)?;
    Ok(RangeCounts::new(least, places, begins))
}

/// How many ranges so many documents have.
fn range_count(docs: u32) -> u32
    ensures some { 64 * result < docs + 64 }
    ensures all { docs ≤ 64 * result }
{
    docs.div_ceil(RANGE_IDS)
}
