// The extents of an expression, one after the other.
ghost use Rattle.std.specs.Prelude.{◌≡◌, ◌<◌, length, map, drop, slice_get, IfOk, IfErr, Err, OnOk};
ghost use Rattle.ri_base.specs.Collection.{document_at};
ghost use Rattle.ri_base.specs.Expression.{EachWord, EachWordOf, expr_tree, expr_trees};
ghost use Rattle.ri_base.specs.Faults.{IsOutside, TellsDamage};
ghost use Rattle.ri_base.specs.Keeps.{Keeps, Rose};
ghost use Rattle.extent_lists.specs.Extents.{Ext};
ghost use Rattle.extent_lists.specs.Listing.{IsListing};
ghost use Rattle.extent_lists.specs.Plans.{GiveEach, Gives};
ghost use Rattle.extent_walks.specs.Walks.{AreKept, IsAheadKept, IsKept, plan, plans};

use crate::listed::Listed;
use crate::outermost::Outermost;
use crate::place::Place;
use crate::walk::{Ahead, Walk, chain_of};
use extent_lists::{of_fields, of_term};
use ri_base::{Extent, ExtentExpr, NoMemory, Postings, SegFault};
use std::alloc::{AllocError, Global};
use std::marker::Model;

/// What gives the extents of the expression.
#[cycle(building)]
#[tactic(auto, using(crate::proofs::WalkLaws::walk_laws))]
fn walk_of<P: Postings>(
    alloc: Global,
    expr: &ExtentExpr,
    postings: &mut P,
    id: u32,
) -> Result<Walk, SegFault>
    requires { id < length (P.documents postings.old) }
    ensures keeps { Keeps P.documents P.faults P.sound P.intact P.quiet postings.old postings.new }
    ensures exact { P.sound postings.old → IfOk result
        (λ w. Gives (plan w) (expr_tree expr.now) (document_at (P.documents postings.old) id)) }
    ensures kept { IfOk result IsKept }
    ensures told { IfOk result (λ _. EachWord (λ t. P.told postings.old t id) (expr_tree expr.now)) }
    ensures honest { P.intact postings.old → IfErr result IsOutside }
    ensures undamaged { OnOk result (P.damage postings.new ≡ P.damage postings.old) }
    ensures damaged { IfErr result (TellsDamage (P.damage postings.old) (P.damage postings.new)) }
    ensures store { result ≡ Err SegFault.Store → Rose (P.faults postings.old) (P.faults postings.new) }
{
    match expr {
        ExtentExpr::Word(term) => {
            let found = of_term(alloc, term, postings, id)?;
            Ok(Walk::Listed(Listed::new(found.into_vec())))
        }
        ExtentExpr::Ordered(n, all) => {
            let all = group_of(alloc, all, postings, id)?;
            Ok(chain_of(alloc, *n, all)?)
        }
        ExtentExpr::Unordered(n, all) => {
            let all = group_of(alloc, all, postings, id)?;
            Ok(Walk::Window(*n, all))
        }
        ExtentExpr::Syn(all) => {
            let all = group_of(alloc, all, postings, id)?;
            Ok(Walk::Union(all))
        }
        ExtentExpr::Any(name) => {
            let fields = of_fields(alloc, postings.spans(id), name)?;
            Ok(Walk::Listed(Listed::new(fields)))
        }
        ExtentExpr::Band(all) => {
            let all = group_of(alloc, all, postings, id)?;
            Ok(Walk::Whole(postings.length(id), all))
        }
        ExtentExpr::InField(x, name) => {
            let inner = walk_of(alloc, x, postings, id)?;
            let fields = of_fields(alloc, postings.spans(id), name)?;
            let outer = Outermost::of(alloc, &fields)?;
            Ok(Walk::Within(ahead(alloc, inner)?, outer))
        }
    }
}

/// What gives extents, in a box, before it is asked.
fn ahead(alloc: Global, walk: Walk) -> Result<Box<Ahead>, NoMemory>
    requires { IsKept walk }
    ensures walk { IfOk result (λ b. b.value.walk ≡ walk) }
    ensures kept { IfOk result (λ b. IsAheadKept b.value) }
{
    Ok(Box::new(alloc, Ahead::new(walk))?)
}

/// What gives the extents of each expression.
#[cycle(building)]
#[tactic(auto, using(crate::proofs::WalkLaws::walk_laws))]
fn group_of<P: Postings>(
    alloc: Global,
    all: &[ExtentExpr],
    postings: &mut P,
    id: u32,
) -> Result<Vec<Ahead>, SegFault>
    requires { id < length (P.documents postings.old) }
    ensures keeps { Keeps P.documents P.faults P.sound P.intact P.quiet postings.old postings.new }
    ensures exact { P.sound postings.old → IfOk result
        (λ v. GiveEach (plans v.items) (map expr_tree all.now) (document_at (P.documents postings.old) id)) }
    ensures kept { IfOk result (λ v. AreKept v.items) }
    ensures told { IfOk result (λ _. EachWordOf (λ t. P.told postings.old t id) (expr_trees (map expr_tree all.now))) }
    ensures honest { P.intact postings.old → IfErr result IsOutside }
    ensures undamaged { OnOk result (P.damage postings.new ≡ P.damage postings.old) }
    ensures damaged { IfErr result (TellsDamage (P.damage postings.old) (P.damage postings.new)) }
    ensures store { result ≡ Err SegFault.Store → Rose (P.faults postings.old) (P.faults postings.new) }
{
    let mut out = Vec::new(alloc);
    for x in all {
        let walk = walk_of(alloc, x, postings, id)?;
        out.push(Ahead::new(walk)).map_err(AllocError::from)?;
    }
    Ok(out)
}

/// The extents of an expression in a document, one after the other, seen as the list of those that are left.
#[derive(Drop)]
pub struct ExtentIter {
    ahead: Ahead,
    from: Place,
}

impl Model for ExtentIter {
    ghost use Rattle.std.specs.Prelude.{List};
    ghost use Rattle.ri_base.specs.Pair.{Pair};
    ghost use Rattle.extent_walks.specs.Left.{left};
    ghost use Rattle.extent_walks.specs.Walks.{IsAheadKept, plan};

    ghost Value = { List Pair };

    ghost view = { λ x. left (plan x.ahead.walk) x.from.begin x.from.end };

    ghost invariant = { λ x. IsAheadKept x.ahead };
}

impl ExtentIter {
    /// The extents of the expression in the document, by begin and then end, each once. The places of all its terms, and
    /// the fields that it names, are taken from the part here.
    pub fn new<P: Postings>(
        alloc: Global,
        expr: &ExtentExpr,
        postings: &mut P,
        id: u32,
    ) -> Result<ExtentIter, SegFault>
        requires { id < length (P.documents postings.old) }
        ensures keeps { Keeps P.documents P.faults P.sound P.intact P.quiet postings.old postings.new }
        ensures exact { P.sound postings.old → IfOk result
            (IsListing (Ext (expr_tree expr.now) (document_at (P.documents postings.old) id))) }

        // Also of a part that isn't sound, each term's places were told, so no malformed block is passed by.
        ensures told { IfOk result (λ _. EachWord (λ t. P.told postings.old t id) (expr_tree expr.now)) }

        ensures honest { P.intact postings.old → IfErr result IsOutside }
        ensures undamaged { OnOk result (P.damage postings.new ≡ P.damage postings.old) }
        ensures damaged { IfErr result (TellsDamage (P.damage postings.old) (P.damage postings.new)) }
        ensures store { result ≡ Err SegFault.Store → Rose (P.faults postings.old) (P.faults postings.new) }
    {
        let walk = walk_of(alloc, expr, postings, id)?;
        Ok(ExtentIter {
            ahead: Ahead::new(walk),
            from: Place::at(0),
        })
    }

    /// Takes the first extent that is left, if there is one. It takes no memory.
    pub fn next_extent(&mut self) -> Result<Option<Extent>, SegFault>
        ensures first { IfOk result (λ found. found ≡ slice_get self.old 0) }
        ensures others { self.new ≡ drop 1 self.old }
        ensures never_fails { IfErr result (λ _. ⊥) }
    {
        match self.ahead.next(self.from) {
            None => Ok(None),
            Some(x) => {
                self.from = Place::behind(x);
                Ok(Some(x))
            }
        }
    }
}
