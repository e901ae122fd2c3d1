// The extents of an expression.
ghost use Rattle.std.specs.Prelude.{◌≡◌, ◌<◌, length, map, All, IfOk, IfErr, IsOkAnd, Err, OnOk};
ghost use Rattle.std.specs.List.{AllZip};
ghost use Rattle.ri_base.specs.Collection.{document_at};
ghost use Rattle.ri_base.specs.Expression.{EachWord, EachWordOf, expr_tree, expr_trees};
ghost use Rattle.ri_base.specs.Faults.{IsOutside, TellsDamage};
ghost use Rattle.ri_base.specs.Keeps.{Keeps, Rose};
ghost use Rattle.field_extents.specs.Extents.{AreInOrder};
ghost use Rattle.extent_lists.specs.Extents.{Ext};
ghost use Rattle.extent_lists.specs.Listing.{IsListing};
ghost use Rattle.extent_lists.specs.Rows.{IsAscending, Lists};

use crate::band::whole_if_each;
use crate::ordered::chains;
use crate::union::union_of;
use crate::unordered::windows;
use extent_lists::{of_fields, of_term};
use field_extents::inside;
use ri_base::{Extent, ExtentExpr, Extents, NoMemory, Postings, SegFault};
use std::alloc::{AllocError, Global};

/// The extents of the expression in the document, by begin and then end, each once.
pub fn extents<P: Postings>(
    alloc: Global,
    expr: &ExtentExpr,
    postings: &mut P,
    id: u32,
) -> Result<Extents, SegFault>
    requires { id < length (P.documents postings.old) }
    ensures keeps { Keeps P.documents P.faults P.sound P.intact P.quiet postings.old postings.new }
    ensures exact { P.sound postings.old → IfOk result
        (IsListing (Ext (expr_tree expr.now) (document_at (P.documents postings.old) id))) }
    ensures order { IfOk result AreInOrder }

    // Also of a part that isn't sound, each term's places were told, so no malformed block is passed by.
    ensures told { IfOk result (λ _. EachWord (λ t. P.told postings.old t id) (expr_tree expr.now)) }

    ensures honest { P.intact postings.old → IfErr result IsOutside }
    ensures undamaged { OnOk result (P.damage postings.new ≡ P.damage postings.old) }
    ensures damaged { IfErr result (TellsDamage (P.damage postings.old) (P.damage postings.new)) }
    ensures store { result ≡ Err SegFault.Store → Rose (P.faults postings.old) (P.faults postings.new) }
{
    evaluated(alloc, expr, postings, id)
}

#[cycle(evaluation)]
fn evaluated<P: Postings>(
    alloc: Global,
    expr: &ExtentExpr,
    postings: &mut P,
    id: u32,
) -> Result<Extents, SegFault>
    requires { id < length (P.documents postings.old) }
    ensures keeps { Keeps P.documents P.faults P.sound P.intact P.quiet postings.old postings.new }
    ensures exact { P.sound postings.old → IfOk result
        (Lists (Ext (expr_tree expr.now) (document_at (P.documents postings.old) id))) }
    ensures ascending { IfOk result IsAscending }
    ensures told { IfOk result (λ _. EachWord (λ t. P.told postings.old t id) (expr_tree expr.now)) }
    ensures honest { P.intact postings.old → IfErr result IsOutside }
    ensures undamaged { OnOk result (P.damage postings.new ≡ P.damage postings.old) }
    ensures damaged { IfErr result (TellsDamage (P.damage postings.old) (P.damage postings.new)) }
    ensures store { result ≡ Err SegFault.Store → Rose (P.faults postings.old) (P.faults postings.new) }
{
    match expr {
        ExtentExpr::Word(term) => of_term(alloc, term, postings, id),
        ExtentExpr::Ordered(n, all) => {
            let lists = all_evaluated(alloc, all, postings, id)?;
            listed(chains(alloc, *n, &lists))
        }
        ExtentExpr::Unordered(n, all) => {
            let lists = all_evaluated(alloc, all, postings, id)?;
            listed(windows(alloc, *n, &lists))
        }
        ExtentExpr::Syn(all) => {
            let lists = all_evaluated(alloc, all, postings, id)?;
            listed(union_of(alloc, &lists))
        }
        ExtentExpr::Any(name) => listed(of_fields(alloc, postings.spans(id), name)),
        ExtentExpr::Band(all) => {
            let lists = all_evaluated(alloc, all, postings, id)?;
            let length = postings.length(id);
            listed(whole_if_each(alloc, &lists, length))
        }
        ExtentExpr::InField(x, name) => {
            let found = evaluated(alloc, x, postings, id)?;
            Ok(inside(alloc, &found, postings.spans(id), name)?)
        }
    }
}

/// The extents that were found, or want of memory.
fn listed(found: Result<Vec<Extent>, NoMemory>) -> Result<Extents, SegFault>
    ensures some { IfOk result (λ xs. IsOkAnd found (λ v. v.items ≡ xs)) }
    ensures none { IfErr result (λ fault. fault ≡ SegFault.Memory) }
{
    Ok(Extents::of(found?))
}

/// The extents of each expression.
#[cycle(evaluation)]
fn all_evaluated<P: Postings>(
    alloc: Global,
    all: &[ExtentExpr],
    postings: &mut P,
    id: u32,
) -> Result<Vec<Extents>, SegFault>
    requires { id < length (P.documents postings.old) }
    ensures keeps { Keeps P.documents P.faults P.sound P.intact P.quiet postings.old postings.new }
    ensures exact { P.sound postings.old → IfOk result
        (λ v. AllZip (λ x xs. Lists (Ext x (document_at (P.documents postings.old) id)) xs) (map expr_tree all.now) v.items) }
    ensures ascending { IfOk result (λ v. All IsAscending v.items) }
    ensures told { IfOk result (λ _. EachWordOf (λ t. P.told postings.old t id) (expr_trees (map expr_tree all.now))) }
    ensures honest { P.intact postings.old → IfErr result IsOutside }
    ensures undamaged { OnOk result (P.damage postings.new ≡ P.damage postings.old) }
    ensures damaged { IfErr result (TellsDamage (P.damage postings.old) (P.damage postings.new)) }
    ensures store { result ≡ Err SegFault.Store → Rose (P.faults postings.old) (P.faults postings.new) }
{
    let mut lists = Vec::new(alloc);
    for x in all {
        let found = evaluated(alloc, x, postings, id)?;
        lists.push(found).map_err(AllocError::from)?;
    }
    Ok(lists)
}
