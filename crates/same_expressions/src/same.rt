// Whether two expressions are the same.
ghost use Rattle.std.specs.Prelude.{◌≡◌, IsTrue, map, option_copied};
ghost use Rattle.ri_base.specs.Expression.{expr_tree};

use ri_base::{ExtentExpr, Name};

/// True only where both have the same tree.
#[cycle(comparing)]
pub fn same_expr(a: &ExtentExpr, b: &ExtentExpr) -> bool
    ensures { IsTrue result → expr_tree a.now ≡ expr_tree b.now }
{
    match (a, b) {
        (ExtentExpr::Word(s), ExtentExpr::Word(t)) => s == t,
        (ExtentExpr::Ordered(m, xs), ExtentExpr::Ordered(n, ys)) => m == n && same_exprs(xs, ys),
        (ExtentExpr::Unordered(m, xs), ExtentExpr::Unordered(n, ys)) => m == n
            && same_exprs(xs, ys),
        (ExtentExpr::Syn(xs), ExtentExpr::Syn(ys)) => same_exprs(xs, ys),
        (ExtentExpr::Any(f), ExtentExpr::Any(g)) => f == g,
        (ExtentExpr::Band(xs), ExtentExpr::Band(ys)) => same_exprs(xs, ys),
        (ExtentExpr::InField(x, f), ExtentExpr::InField(y, g)) => f == g && same_expr(x, y),
        _ => false,
    }
}

/// True only where both have the same trees, in order.
#[cycle(comparing)]
fn same_exprs(all: &[ExtentExpr], others: &[ExtentExpr]) -> bool
    ensures { IsTrue result → map expr_tree all.now ≡ map expr_tree others.now }
{
    if all.len() != others.len() {
        return false;
    }
    for i in 0..all.len() {
        if !same_expr(&all[i], &others[i]) {
            return false;
        }
    }
    true
}

/// True only where both are the same name, or neither is there.
pub fn same_name(name: Option<&Name>, other: Option<&Name>) -> bool
    ensures { IsTrue result → option_copied name.entry ≡ option_copied other.entry }
{
    match (name, other) {
        (Some(a), Some(b)) => a == b,
        (None, None) => true,
        _ => false,
    }
}
