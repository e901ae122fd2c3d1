// An expression of the query language that names extents.
ghost use Rattle.std.specs.Prelude.{◌≡◌, IfOk, map};
ghost use Rattle.ri_base.specs.Expression.{expr_tree, in_field};

use crate::{Name, NoMemory, Term};
use std::alloc::Global;

/// An expression whose extents are asked for. A number is the width of a window in tokens.
#[derive(Drop)]
pub enum ExtentExpr {
    /// A term.
    Word(Term),
    /// The arguments in their order, each within so many tokens of the one before.
    Ordered(u32, Vec<ExtentExpr>),
    /// The arguments in any order, within so many tokens.
    Unordered(u32, Vec<ExtentExpr>),
    /// Any of the arguments.
    Syn(Vec<ExtentExpr>),
    /// A field of this name.
    Any(Name),
    /// All of the arguments, anywhere in the document.
    Band(Vec<ExtentExpr>),
    /// An expression inside a field of this name.
    InField(Box<ExtentExpr>, Name),
}

impl ExtentExpr {
    /// An equal expression.
    #[cycle(cloning)]
    #[tactic(auto, using(crate::proofs::ExpressionLemmas::expr_tree_laws))]
    pub fn clone_in(&self, alloc: Global) -> Result<ExtentExpr, NoMemory>
        ensures { IfOk result (λ x. expr_tree x ≡ expr_tree self.now) }
    {
        match self {
            ExtentExpr::Word(term) => term.clone_in(alloc).map(ExtentExpr::Word),
            ExtentExpr::Ordered(n, all) => {
                clone_all(alloc, all).map(|all| ExtentExpr::Ordered(*n, all))
            }
            ExtentExpr::Unordered(n, all) => {
                clone_all(alloc, all).map(|all| ExtentExpr::Unordered(*n, all))
            }
            ExtentExpr::Syn(all) => clone_all(alloc, all).map(ExtentExpr::Syn),
            ExtentExpr::Any(name) => name.clone_in(alloc).map(ExtentExpr::Any),
            ExtentExpr::Band(all) => clone_all(alloc, all).map(ExtentExpr::Band),
            ExtentExpr::InField(x, name) => in_field(alloc, x.clone_in(alloc)?, name),
        }
    }
}

/// The expression inside a field of an equal name.
#[tactic(auto, using(crate::proofs::ExpressionLemmas::expr_tree_laws))]
fn in_field(alloc: Global, x: ExtentExpr, name: &Name) -> Result<ExtentExpr, NoMemory>
    ensures { IfOk result (λ whole. expr_tree whole ≡ in_field (expr_tree x) name.now) }
{
    let name = name.clone_in(alloc)?;
    Ok(ExtentExpr::InField(Box::new(alloc, x)?, name))
}

#[cycle(cloning)]
fn clone_all(alloc: Global, all: &[ExtentExpr]) -> Result<Vec<ExtentExpr>, NoMemory>
    ensures { IfOk result (λ clones. map expr_tree clones.items ≡ map expr_tree all.now) }
{
    let mut clones = Vec::new(alloc);
    for x in all {
        clones.push(x.clone_in(alloc)?)?;
    }
    Ok(clones)
}
