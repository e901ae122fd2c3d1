// What is kept of a sum.
ghost use Rattle.std.specs.Prelude.{◌≡◌, IfOk, IfSome, option_copied};
ghost use Rattle.ri_base.specs.Expression.{expr_tree};

use ri_base::{ExtentExpr, LeafStats, Name, NoMemory};
use same_expressions::{same_expr, same_name};
use std::alloc::Global;

/// Where sums are kept: the generation of the documents, and a number that the expression and its context give.
#[derive(Clone, Copy, Debug, PartialEq, Eq, Hash)]
pub struct SumKey {
    pub generation: u64,
    pub fingerprint: u64,
}

/// An expression with its context, and its sums.
pub struct KeptSum {
    pub expr: ExtentExpr,
    pub context: Option<Name>,
    pub stats: LeafStats,
}

impl Drop for KeptSum {
    fn drop(self) {
        let KeptSum {
            expr,
            context,
            stats: _,
        } = self;
        drop(expr);
        drop(context);
    }
}

impl KeptSum {
    /// These sums with copies of the expression and its context.
    pub fn of(
        alloc: Global,
        expr: &ExtentExpr,
        context: Option<&Name>,
        stats: LeafStats,
    ) -> Result<KeptSum, NoMemory>
        ensures expr { IfOk result (λ k. expr_tree k.expr ≡ expr_tree expr.now) }
        ensures context { IfOk result (λ k. k.context ≡ option_copied context.entry) }
        ensures stats { IfOk result (λ k. k.stats ≡ stats) }
    {
        let context = copy_of(alloc, context)?;
        let expr = expr.clone_in(alloc)?;
        Ok(KeptSum {
            expr,
            context,
            stats,
        })
    }

    /// The sums, where they are those of this expression with this context.
    pub fn stats_of(&self, expr: &ExtentExpr, context: Option<&Name>) -> Option<LeafStats>
        ensures expr { IfSome result (λ s. expr_tree self.now.expr ≡ expr_tree expr.now) }
        ensures context { IfSome result (λ s. self.now.context ≡ option_copied context.entry) }
        ensures stats { IfSome result (λ s. self.now.stats ≡ s) }
    {
        if same_expr(&self.expr, expr) && same_name(self.context.as_ref(), context) {
            return Some(self.stats);
        }
        None
    }
}

/// A copy of the name, where there is one.
fn copy_of(alloc: Global, name: Option<&Name>) -> Result<Option<Name>, NoMemory>
    ensures { IfOk result (λ copy. copy ≡ option_copied name.entry) }
{
    match name {
        Some(name) => Ok(Some(name.clone_in(alloc)?)),
        None => Ok(None),
    }
}
