// Which documents of a range may have an extent of an expression.
ghost use Rattle.std.specs.Prelude.{◌≡◌, Err, IfErr, IfOk, OnOk};
ghost use Rattle.std.specs.List.{list_all, list_any};
ghost use Rattle.ri_base.specs.Expression.{expr_tree};
ghost use Rattle.ri_base.specs.Faults.{IsOutside, TellsDamage};
ghost use Rattle.ri_base.specs.Keeps.{Keeps, Rose};
ghost use Rattle.range_masks.specs.Masks.{HasEachDocument, IsMask};
ghost use Rattle.range_masks.specs.May.{may};

use crate::TermMasks;
use ri_base::{ExtentExpr, SegFault};
use std::alloc::Global;

/// Which documents of the range may have an extent of the expression, by their terms: bit i is that of the document with
/// the id `64 * range + i`. Each term is looked at once for each of its places in the expression, and none behind an
/// argument that no document of the range may have where each is needed.
pub fn expression_mask<P: TermMasks>(
    alloc: Global,
    expr: &ExtentExpr,
    part: &mut P,
    range: u32,
) -> Result<u64, SegFault>
    ensures keeps { Keeps P.documents P.faults P.sound P.intact P.quiet part.old part.new }
    ensures exact { P.sound part.old → IfOk result (IsMask (may (expr_tree expr.now)) range (P.documents part.old)) }
    ensures each { P.sound part.old → IfOk result (HasEachDocument (expr_tree expr.now) range (P.documents part.old)) }
    ensures honest { P.intact part.old → IfErr result IsOutside }
    ensures undamaged { OnOk result (P.damage part.new ≡ P.damage part.old) }
    ensures damaged { IfErr result (TellsDamage (P.damage part.old) (P.damage part.new)) }
    ensures store { result ≡ Err SegFault.Store → Rose (P.faults part.old) (P.faults part.new) }
{
    mask_of(alloc, expr, part, range)
}

#[cycle(masks)]
fn mask_of<P: TermMasks>(
    alloc: Global,
    expr: &ExtentExpr,
    part: &mut P,
    range: u32,
) -> Result<u64, SegFault>
    ensures keeps { Keeps P.documents P.faults P.sound P.intact P.quiet part.old part.new }
    ensures exact { P.sound part.old → IfOk result (IsMask (may (expr_tree expr.now)) range (P.documents part.old)) }
    ensures honest { P.intact part.old → IfErr result IsOutside }
    ensures undamaged { OnOk result (P.damage part.new ≡ P.damage part.old) }
    ensures damaged { IfErr result (TellsDamage (P.damage part.old) (P.damage part.new)) }
    ensures store { result ≡ Err SegFault.Store → Rose (P.faults part.old) (P.faults part.new) }
{
    match expr {
        ExtentExpr::Word(term) => part.term_mask(alloc, term, range),
        ExtentExpr::Ordered(_, all) => mask_of_each(alloc, all, part, range),
        ExtentExpr::Unordered(_, all) => mask_of_each(alloc, all, part, range),
        ExtentExpr::Syn(all) => mask_of_some(alloc, all, part, range),
        ExtentExpr::Any(_) => Ok(u64::MAX),
        ExtentExpr::Band(all) => mask_of_each(alloc, all, part, range),
        ExtentExpr::InField(x, _) => mask_of(alloc, x, part, range),
    }
}

/// Which documents of the range may have an extent of each expression.
#[cycle(masks)]
fn mask_of_each<P: TermMasks>(
    alloc: Global,
    all: &[ExtentExpr],
    part: &mut P,
    range: u32,
) -> Result<u64, SegFault>
    ensures keeps { Keeps P.documents P.faults P.sound P.intact P.quiet part.old part.new }
    ensures exact { P.sound part.old → IfOk result (IsMask (λ d. list_all (λ x. may (expr_tree x) d) all.now) range (P.documents part.old)) }
    ensures honest { P.intact part.old → IfErr result IsOutside }
    ensures undamaged { OnOk result (P.damage part.new ≡ P.damage part.old) }
    ensures damaged { IfErr result (TellsDamage (P.damage part.old) (P.damage part.new)) }
    ensures store { result ≡ Err SegFault.Store → Rose (P.faults part.old) (P.faults part.new) }
{
    let mut mask = u64::MAX;
    for x in all {
        let found = mask_of(alloc, x, part, range)?;
        mask &= found;
        if mask == 0 {
            return Ok(0);
        }
    }
    Ok(mask)
}

/// Which documents of the range may have an extent of some expression.
#[cycle(masks)]
fn mask_of_some<P: TermMasks>(
    alloc: Global,
    all: &[ExtentExpr],
    part: &mut P,
    range: u32,
) -> Result<u64, SegFault>
    ensures keeps { Keeps P.documents P.faults P.sound P.intact P.quiet part.old part.new }
    ensures exact { P.sound part.old → IfOk result (IsMask (λ d. list_any (λ x. may (expr_tree x) d) all.now) range (P.documents part.old)) }
    ensures honest { P.intact part.old → IfErr result IsOutside }
    ensures undamaged { OnOk result (P.damage part.new ≡ P.damage part.old) }
    ensures damaged { IfErr result (TellsDamage (P.damage part.old) (P.damage part.new)) }
    ensures store { result ≡ Err SegFault.Store → Rose (P.faults part.old) (P.faults part.new) }
{
    let mut mask = 0;
    for x in all {
        let found = mask_of(alloc, x, part, range)?;
        mask |= found;
    }
    Ok(mask)
}
