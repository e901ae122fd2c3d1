// Which documents of a range may have something to show for a query.
ghost use Rattle.std.specs.Prelude.{◌≡◌, map, Err, IfErr, IfOk, OnOk};
ghost use Rattle.ri_base.specs.Faults.{IsOutside, TellsDamage};
ghost use Rattle.ri_base.specs.Keeps.{Keeps, Rose};
ghost use Rattle.ri_base.specs.Query.{filter_tree};
ghost use Rattle.query_check.specs.Leaves.{leaf_tree};
ghost use Rattle.range_masks.specs.Masks.{IsMask};
ghost use Rattle.range_masks.specs.May.{filter_may, filters_may, leaf_may, query_may, some_may};

use crate::{TermMasks, expression_mask};
use query_check::LeafKind;
use ri_base::{Filter, SegFault};
use std::alloc::Global;

/// Which documents of the range may have an extent of the leaf. A prior has none.
pub fn leaf_mask<P: TermMasks>(
    alloc: Global,
    leaf: &LeafKind,
    part: &mut P,
    range: u32,
) -> Result<u64, SegFault>
    ensures keeps { Keeps P.documents P.faults P.sound P.intact P.quiet part.old part.new }
    ensures exact { P.sound part.old → IfOk result (IsMask (leaf_may (leaf_tree leaf.now)) range (P.documents part.old)) }
    ensures honest { P.intact part.old → IfErr result IsOutside }
    ensures undamaged { OnOk result (P.damage part.new ≡ P.damage part.old) }
    ensures damaged { IfErr result (TellsDamage (P.damage part.old) (P.damage part.new)) }
    ensures store { result ≡ Err SegFault.Store → Rose (P.faults part.old) (P.faults part.new) }
{
    match leaf {
        LeafKind::Extents(expr, _) => expression_mask(alloc, expr, part, range),
        LeafKind::Prior(_) => Ok(0),
    }
}

/// Which documents of the range may have an extent of some leaf.
fn leaves_mask<P: TermMasks>(
    alloc: Global,
    leaves: &[LeafKind],
    part: &mut P,
    range: u32,
) -> Result<u64, SegFault>
    ensures keeps { Keeps P.documents P.faults P.sound P.intact P.quiet part.old part.new }
    ensures exact { P.sound part.old → IfOk result (IsMask (some_may (map leaf_tree leaves.now)) range (P.documents part.old)) }
    ensures honest { P.intact part.old → IfErr result IsOutside }
    ensures undamaged { OnOk result (P.damage part.new ≡ P.damage part.old) }
    ensures damaged { IfErr result (TellsDamage (P.damage part.old) (P.damage part.new)) }
    ensures store { result ≡ Err SegFault.Store → Rose (P.faults part.old) (P.faults part.new) }
{
    let mut mask = 0;
    for leaf in leaves {
        let found = leaf_mask(alloc, leaf, part, range)?;
        mask |= found;
    }
    Ok(mask)
}

/// Which documents of the range may pass the filter. Of one that rejects these are all.
fn filter_mask<P: TermMasks>(
    alloc: Global,
    filter: &Filter,
    part: &mut P,
    range: u32,
) -> Result<u64, SegFault>
    ensures keeps { Keeps P.documents P.faults P.sound P.intact P.quiet part.old part.new }
    ensures exact { P.sound part.old → IfOk result (IsMask (filter_may (filter_tree filter.now)) range (P.documents part.old)) }
    ensures honest { P.intact part.old → IfErr result IsOutside }
    ensures undamaged { OnOk result (P.damage part.new ≡ P.damage part.old) }
    ensures damaged { IfErr result (TellsDamage (P.damage part.old) (P.damage part.new)) }
    ensures store { result ≡ Err SegFault.Store → Rose (P.faults part.old) (P.faults part.new) }
{
    if filter.keep {
        expression_mask(alloc, &filter.expr, part, range)
    } else {
        Ok(u64::MAX)
    }
}

/// Which documents of the range may pass each filter.
fn filters_mask<P: TermMasks>(
    alloc: Global,
    filters: &[Filter],
    part: &mut P,
    range: u32,
) -> Result<u64, SegFault>
    ensures keeps { Keeps P.documents P.faults P.sound P.intact P.quiet part.old part.new }
    ensures exact { P.sound part.old → IfOk result (IsMask (filters_may (map filter_tree filters.now)) range (P.documents part.old)) }
    ensures honest { P.intact part.old → IfErr result IsOutside }
    ensures undamaged { OnOk result (P.damage part.new ≡ P.damage part.old) }
    ensures damaged { IfErr result (TellsDamage (P.damage part.old) (P.damage part.new)) }
    ensures store { result ≡ Err SegFault.Store → Rose (P.faults part.old) (P.faults part.new) }
{
    let mut mask = u64::MAX;
    for filter in filters {
        let found = filter_mask(alloc, filter, part, range)?;
        mask &= found;
    }
    Ok(mask)
}

/// Which documents of the range may have something to show: bit i is that of the document with the id `64 * range + i`.
/// Where no leaf may occur, the filters aren't looked at.
pub fn query_mask<P: TermMasks>(
    alloc: Global,
    filters: &[Filter],
    leaves: &[LeafKind],
    part: &mut P,
    range: u32,
) -> Result<u64, SegFault>
    ensures keeps { Keeps P.documents P.faults P.sound P.intact P.quiet part.old part.new }
    ensures exact { P.sound part.old → IfOk result
        (IsMask (query_may (map filter_tree filters.now) (map leaf_tree leaves.now)) range (P.documents part.old)) }
    ensures honest { P.intact part.old → IfErr result IsOutside }
    ensures undamaged { OnOk result (P.damage part.new ≡ P.damage part.old) }
    ensures damaged { IfErr result (TellsDamage (P.damage part.old) (P.damage part.new)) }
    ensures store { result ≡ Err SegFault.Store → Rose (P.faults part.old) (P.faults part.new) }
{
    let occurring = leaves_mask(alloc, leaves, part, range)?;
    if occurring == 0 {
        return Ok(0);
    }
    let passing = filters_mask(alloc, filters, part, range)?;
    Ok(occurring & passing)
}
