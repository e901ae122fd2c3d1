// What scores a document, or a part of one.
ghost use Rattle.std.specs.Prelude.{◌≡◌, IfOk, map};
ghost use Rattle.ri_base.specs.Query.{belief_tree, weighted_tree};

use crate::{ExtentExpr, Name, NoMemory};
use std::alloc::Global;

/// A belief: the score of a document, or of a part of one.
#[derive(Drop)]
pub enum Belief {
    /// The arguments, each with the same weight.
    Combine(Vec<Belief>),
    /// The arguments, each with its weight in billionths.
    Weight(Vec<(u64, Belief)>),
    /// The greatest of the arguments.
    Max(Vec<Belief>),
    /// The prior of this name.
    Prior(Name),
    /// An expression's extents, where there is a name within the fields of that name.
    Leaf(ExtentExpr, Option<Name>),
}

impl Belief {
    /// An equal belief.
    #[cycle(cloning)]
    #[tactic(auto, using(crate::proofs::QueryLemmas::belief_tree_laws))]
    pub fn clone_in(&self, alloc: Global) -> Result<Belief, NoMemory>
        ensures { IfOk result (λ x. belief_tree x ≡ belief_tree self.now) }
    {
        match self {
            Belief::Combine(all) => clone_all(alloc, all).map(Belief::Combine),
            Belief::Weight(all) => clone_weighted(alloc, all).map(Belief::Weight),
            Belief::Max(all) => clone_all(alloc, all).map(Belief::Max),
            Belief::Prior(name) => name.clone_in(alloc).map(Belief::Prior),
            Belief::Leaf(x, context) => {
                let x = x.clone_in(alloc)?;
                clone_context(alloc, context).map(|context| Belief::Leaf(x, context))
            }
        }
    }
}

#[cycle(cloning)]
fn clone_all(alloc: Global, all: &[Belief]) -> Result<Vec<Belief>, NoMemory>
    ensures { IfOk result (λ clones. map belief_tree clones.items ≡ map belief_tree all.now) }
{
    let mut clones = Vec::new(alloc);
    for x in all {
        clones.push(x.clone_in(alloc)?)?;
    }
    Ok(clones)
}

#[cycle(cloning)]
fn clone_weighted(alloc: Global, all: &[(u64, Belief)]) -> Result<Vec<(u64, Belief)>, NoMemory>
    ensures { IfOk result (λ clones. map weighted_tree clones.items ≡ map weighted_tree all.now) }
{
    let mut clones = Vec::new(alloc);
    for (weight, x) in all {
        clones.push((*weight, x.clone_in(alloc)?))?;
    }
    Ok(clones)
}

fn clone_context(alloc: Global, context: &Option<Name>) -> Result<Option<Name>, NoMemory>
    ensures { IfOk result (λ name. name ≡ context.now) }
{
    match context {
        None => Ok(None),
        Some(name) => name.clone_in(alloc).map(Some),
    }
}
