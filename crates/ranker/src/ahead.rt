// What the postings of a part tell of the documents that come next.
ghost use Rattle.std.specs.Prelude.{◌≡◌, ◌<◌, ◌≤◌, ◌*◌, ◌%◌, ◌⊎◌, ℕ, None, true, false, is_some, length, map, Err, IfErr, IfOk, OnOk};
ghost use Rattle.ri_base.specs.Collection.{document_at};
ghost use Rattle.ri_base.specs.Faults.{IsOutside, TellsDamage};
ghost use Rattle.ri_base.specs.Keeps.{Keeps, Rose};
ghost use Rattle.ri_base.specs.Query.{filter_tree};
ghost use Rattle.belief_nodes.specs.Network.{network_tree};
ghost use Rattle.range_masks.specs.May.{query_may};
ghost use Rattle.ranker.specs.Passed.{IsAhead, IsSpan, is_clear};

use crate::place::Ahead;
use crate::ranges::{end_of, start_of};
use belief_nodes::Network;
use range_masks::{TermMasks, next_query_range, query_mask};
use ri_base::{Filter, SegFault};
use std::alloc::Global;

/// An id before which no document from a range on may have candidates: the first of a range, or the one behind the last. No file is
/// read.
fn bare_end<P: TermMasks>(filters: &[Filter], network: &Network, part: &P, range: u32) -> u32
    ensures inside { result ≤ length (P.documents part.now) }
    ensures whole { result < length (P.documents part.now) → result % 64 ≡ 0 }
    ensures bare { P.sound part.now → (id : ℕ) → 64 * range ≤ id → id < result
        → query_may (map filter_tree filters.now) (network_tree network.now).leaves (document_at (P.documents part.now) id) ≡ false }
{
    let docs = part.docs();
    match next_query_range(filters, network.leaves(), part, range) {
        Some(next) => start_of(next, docs),
        None => docs,
    }
}

/// Which documents from an id on may have candidates: none before the next range that may have some, where this is a later one, and
/// else it isn't known before the mask of the range of this id is read. No file is read.
fn look_ahead<P: TermMasks>(filters: &[Filter], network: &Network, part: &P, id: u32) -> Ahead
    requires id { id < length (P.documents part.now) }
    ensures ahead { P.sound part.now → IsAhead (map filter_tree filters.now) (network_tree network.now).leaves (P.documents part.now) id result }
    ensures some { id < result.end }
    ensures span { IsSpan (length (P.documents part.now)) id result }
    ensures unbound { result.bound ≡ None }
{
    let range = id / 64;
    let end = bare_end(filters, network, part, range);
    if id < end {
        return Ahead {
            end,
            mask: Some(0),
            bound: None,
        };
    }
    Ahead {
        end: end_of(range, part.docs()),
        mask: None,
        bound: None,
    }
}

/// The same where something is known of the id already: that is kept.
pub fn ahead_of<P: TermMasks>(
    filters: &[Filter],
    network: &Network,
    part: &P,
    id: u32,
    ahead: Ahead,
) -> Ahead
    requires id { id < length (P.documents part.now) }
    ensures ahead { P.sound part.now → IsAhead (map filter_tree filters.now) (network_tree network.now).leaves (P.documents part.now) id ahead
        → IsAhead (map filter_tree filters.now) (network_tree network.now).leaves (P.documents part.now) id result }
    ensures some { id < result.end }
    ensures span { IsSpan (length (P.documents part.now)) id ahead → IsSpan (length (P.documents part.now)) id result }
    ensures found { (result ≡ ahead) ⊎ ((ahead.end ≤ id) × (result.bound ≡ None)) }
{
    if id < ahead.end {
        return ahead;
    }
    look_ahead(filters, network, part, id)
}

/// What is known from an id on, with the mask of its range, which is read unless it was.
pub fn masked<P: TermMasks>(
    alloc: Global,
    filters: &[Filter],
    network: &Network,
    part: &mut P,
    id: u32,
    ahead: Ahead,
) -> Result<Ahead, SegFault>
    ensures keeps { Keeps P.documents P.faults P.sound P.intact P.quiet part.old part.new }
    ensures ahead { P.sound part.old → IsSpan (length (P.documents part.old)) id ahead → is_clear ahead.mask ≡ false
        → IsAhead (map filter_tree filters.now) (network_tree network.now).leaves (P.documents part.old) id ahead
        → IfOk result (IsAhead (map filter_tree filters.now) (network_tree network.now).leaves (P.documents part.old) id) }
    ensures end { IfOk result (λ to. to.end ≡ ahead.end) }
    ensures bound { IfOk result (λ to. to.bound ≡ ahead.bound) }
    ensures read { IfOk result (λ to. is_some to.mask ≡ true) }
    ensures honest { P.intact part.old → IfErr result IsOutside }
    ensures undamaged { OnOk result (P.damage part.new ≡ P.damage part.old) }
    ensures damaged { IfErr result (TellsDamage (P.damage part.old) (P.damage part.new)) }
    ensures store { result ≡ Err SegFault.Store → Rose (P.faults part.old) (P.faults part.new) }
{
    if ahead.mask.is_some() {
        return Ok(ahead);
    }
    let mask = query_mask(alloc, filters, network.leaves(), part, id / 64)?;
    Ok(Ahead {
        mask: Some(mask),
        ..ahead
    })
}
