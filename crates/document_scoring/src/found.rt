// What is found of the leaves of a query in a document.
ghost use Rattle.std.specs.Prelude.{◌≡◌, ◌<◌, ◌⊎◌, length, map, slice_index_or, take, All, Contains, Err, IfErr, IfOk, IfSome, OnOk};
ghost use Rattle.ri_base.specs.Collection.{document_at};
ghost use Rattle.ri_base.specs.Expression.{EachWord, expr_tree};
ghost use Rattle.ri_base.specs.Faults.{IsOutside, TellsDamage};
ghost use Rattle.ri_base.specs.Keeps.{Keeps, Rose};
ghost use Rattle.ri_base.specs.Pair.{Pair};
ghost use Rattle.field_extents.specs.Extents.{AreInOrder};
ghost use Rattle.query_check.specs.Leaves.{leaf_tree, prior};
ghost use Rattle.document_scoring.specs.Counters.{IsFewer, IsFound, found_count};
ghost use Rattle.document_scoring.specs.Counts.{count_in, counted};
ghost use Rattle.document_scoring.specs.Told.{IsLeafTold};

use belief_nodes::same_leaf;
use extent_evaluation::{extents, extents_have_one_list};
use field_extents::inside;
use query_check::LeafKind;
use ri_base::{ExtentExpr, Extents, Name, NoMemory, Postings, SegFault};
use std::alloc::{AllocError, Global};

/// The extents of a leaf in a document that count.
#[derive(Drop)]
pub enum LeafExtents<'a> {
    /// All of an expression.
    Plain(Extents),
    /// Those that lie in fields of a name.
    Inside(Extents, &'a Name),
    /// None, of a prior.
    Prior,
}

/// Equal extents.
fn copy_of(alloc: Global, extents: &Extents) -> Result<Extents, NoMemory>
    ensures { IfOk result (λ copy. copy ≡ extents.now) }
{
    Ok(Extents::of(extents.as_slice().to_vec(alloc)?))
}

impl<'a> LeafExtents<'a> {
    /// Equal extents of a leaf.
    fn clone_in(&self, alloc: Global) -> Result<LeafExtents<'a>, NoMemory>
        ensures { IfOk result (λ found. found ≡ self.now) }
    {
        match self {
            LeafExtents::Plain(found) => Ok(LeafExtents::Plain(copy_of(alloc, found)?)),
            LeafExtents::Inside(found, name) => Ok(LeafExtents::Inside(
                copy_of(alloc, found)?,
                name,
            )),
            LeafExtents::Prior => Ok(LeafExtents::Prior),
        }
    }
}

/// The extents of an expression that count: all, or with a context those in some field of that name.
pub fn counted<P: Postings>(
    alloc: Global,
    expr: &ExtentExpr,
    context: &Option<Name>,
    part: &mut P,
    id: u32,
) -> Result<Extents, SegFault>
    requires id { id < length (P.documents part.old) }
    ensures keeps { Keeps P.documents P.faults P.sound P.intact P.quiet part.old part.new }
    ensures exact { P.sound part.old → IfOk result
        (λ found. found ≡ counted (expr_tree expr.now) (document_at (P.documents part.old) id) context.now) }
    ensures order { IfOk result AreInOrder }
    // No more of them begin in a window than the fields of a context cover positions of it.
    ensures few { IfOk result (λ found. IfSome context.now (IsFewer found (document_at (P.documents part.old) id).fields)) }
    ensures told { IfOk result (λ _. EachWord (λ t. P.told part.old t id) (expr_tree expr.now)) }
    ensures honest { P.intact part.old → IfErr result IsOutside }
    ensures undamaged { OnOk result (P.damage part.new ≡ P.damage part.old) }
    ensures damaged { IfErr result (TellsDamage (P.damage part.old) (P.damage part.new)) }
    ensures store { result ≡ Err SegFault.Store → Rose (P.faults part.old) (P.faults part.new) }
{
    extents_have_one_list();
    let found = extents(alloc, expr, part, id)?;
    match context {
        Some(name) => Ok(inside(alloc, &found, part.spans(id), name)?),
        None => Ok(found),
    }
}

/// What is found of a leaf in a document.
pub fn found_of<'a, P: Postings>(
    alloc: Global,
    leaf: &'a LeafKind,
    part: &mut P,
    id: u32,
) -> Result<LeafExtents<'a>, SegFault>
    requires id { id < length (P.documents part.old) }
    ensures keeps { Keeps P.documents P.faults P.sound P.intact P.quiet part.old part.new }
    ensures exact { P.sound part.old → IfOk result
        (λ found. (w : Pair) → found_count (document_at (P.documents part.old) id).fields w found ≡ count_in (document_at (P.documents part.old) id) w (leaf_tree leaf.now)) }
    ensures found { IfOk result (IsFound (document_at (P.documents part.old) id).fields) }
    ensures told { IfOk result (λ _. IsLeafTold (λ t. P.told part.old t id) (leaf_tree leaf.now)) }
    ensures honest { P.intact part.old → IfErr result IsOutside }
    ensures undamaged { OnOk result (P.damage part.new ≡ P.damage part.old) }
    ensures damaged { IfErr result (TellsDamage (P.damage part.old) (P.damage part.new)) }
    ensures store { result ≡ Err SegFault.Store → Rose (P.faults part.old) (P.faults part.new) }
{
    let LeafKind::Extents(expr, context) = leaf else {
        return Ok(LeafExtents::Prior);
    };
    let found = counted(alloc, expr, context, part, id)?;
    match context {
        None => Ok(LeafExtents::Plain(found)),
        Some(name) => Ok(LeafExtents::Inside(found, name)),
    }
}

/// What is found of the leaf of a number in a document, by what was found of those before it: what was found of the first one, where
/// that is before it and the same, or what the part tells.
fn found_at<'a, P: Postings>(
    alloc: Global,
    leaves: &'a [LeafKind],
    number: usize,
    first: usize,
    before: &[LeafExtents<'a>],
    part: &mut P,
    id: u32,
) -> Result<LeafExtents<'a>, SegFault>
    requires id { id < length (P.documents part.old) }
    requires number { number < length leaves.now }
    requires each { length before.now ≡ number }
    requires before { All (IsFound (document_at (P.documents part.old) id).fields) before.now }
    ensures keeps { Keeps P.documents P.faults P.sound P.intact P.quiet part.old part.new }
    ensures exact { P.sound part.old
        → ((w : Pair) → map (found_count (document_at (P.documents part.old) id).fields w) before.now ≡ map (count_in (document_at (P.documents part.old) id) w) (take number (map leaf_tree leaves.now)))
        → IfOk result (λ found. (w : Pair) → found_count (document_at (P.documents part.old) id).fields w found ≡ count_in (document_at (P.documents part.old) id) w (slice_index_or (map leaf_tree leaves.now) number (prior 0))) }
    ensures found { IfOk result (IsFound (document_at (P.documents part.old) id).fields) }
    ensures told { IfOk result (λ _. IsLeafTold (λ t. P.told part.old t id) (slice_index_or (map leaf_tree leaves.now) number (prior 0))
        ⊎ Contains (take number (map leaf_tree leaves.now)) (slice_index_or (map leaf_tree leaves.now) number (prior 0))) }
    ensures honest { P.intact part.old → IfErr result IsOutside }
    ensures undamaged { OnOk result (P.damage part.new ≡ P.damage part.old) }
    ensures damaged { IfErr result (TellsDamage (P.damage part.old) (P.damage part.new)) }
    ensures store { result ≡ Err SegFault.Store → Rose (P.faults part.old) (P.faults part.new) }
{
    let leaf = &leaves[number];
    if first < number && same_leaf(&leaves[first], leaf) {
        return Ok(before[first].clone_in(alloc)?);
    }
    found_of(alloc, leaf, part, id)
}

/// What is found of all leaves in a document, of which `firsts` has the numbers of equal ones. A leaf that stands twice is looked up
/// once.
pub fn all_found<'a, P: Postings>(
    alloc: Global,
    leaves: &'a [LeafKind],
    firsts: &[usize],
    part: &mut P,
    id: u32,
) -> Result<Vec<LeafExtents<'a>>, SegFault>
    requires id { id < length (P.documents part.old) }
    requires firsts { length firsts.now ≡ length leaves.now }
    ensures keeps { Keeps P.documents P.faults P.sound P.intact P.quiet part.old part.new }
    ensures exact { P.sound part.old → IfOk result
        (λ v. (w : Pair) → map (found_count (document_at (P.documents part.old) id).fields w) v.items ≡ map (count_in (document_at (P.documents part.old) id) w) (map leaf_tree leaves.now)) }
    ensures each { IfOk result (λ v. length v.items ≡ length leaves.now) }
    ensures found { IfOk result (λ v. All (IsFound (document_at (P.documents part.old) id).fields) v.items) }
    ensures told { IfOk result (λ _. All (IsLeafTold (λ t. P.told part.old t id)) (map leaf_tree leaves.now)) }
    ensures honest { P.intact part.old → IfErr result IsOutside }
    ensures undamaged { OnOk result (P.damage part.new ≡ P.damage part.old) }
    ensures damaged { IfErr result (TellsDamage (P.damage part.old) (P.damage part.new)) }
    ensures store { result ≡ Err SegFault.Store → Rose (P.faults part.old) (P.faults part.new) }
{
    let mut all = Vec::with_capacity(alloc, leaves.len())?;
    for number in 0..leaves.len() {
        let found = found_at(alloc, leaves, number, firsts[number], &all, part, id)?;
        all.push(found).map_err(AllocError::from)?;
    }
    Ok(all)
}
