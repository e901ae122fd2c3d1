// Leaves that stand twice in a query.
ghost use Rattle.std.specs.Prelude.{◌≡◌, ◌<◌, length, IsTrue, IfOk};
ghost use Rattle.query_check.specs.Leaves.{leaf_tree};

use indexmap::IndexMap;
use query_check::LeafKind;
use ri_base::{Name, NoMemory};
use same_expressions::{fingerprint, same_expr, same_name};
use std::alloc::Global;

/// True only where both are the same name, or neither is there.
fn same_context(context: &Option<Name>, other: &Option<Name>) -> bool
    ensures { IsTrue result → context.now ≡ other.now }
{
    same_name(context.as_ref(), other.as_ref())
}

/// True only where both are the same leaf.
pub fn same_leaf(a: &LeafKind, b: &LeafKind) -> bool
    ensures { IsTrue result → leaf_tree a.now ≡ leaf_tree b.now }
{
    match (a, b) {
        (LeafKind::Extents(x, context), LeafKind::Extents(y, other)) => {
            same_expr(x, y) && same_context(context, other)
        }
        (LeafKind::Prior(m), LeafKind::Prior(n)) => m == n,
        _ => false,
    }
}

/// A number that is the same for the same leaf. Others seldom have it too.
fn number_of(leaf: &LeafKind) -> u64 {
    match leaf {
        LeafKind::Extents(expr, context) => fingerprint(expr, context.as_ref()),
        LeafKind::Prior(number) => u64::from(*number),
    }
}

/// The number that was looked up, where the leaf of it is the same and an earlier one, and else the leaf's own number.
fn first_of(leaves: &[LeafKind], number: usize, earlier: usize) -> usize
    requires { number < length leaves.now }
{
    if earlier < number && same_leaf(&leaves[earlier], &leaves[number]) {
        return earlier;
    }
    number
}

/// Of each leaf the number of an equal one: the first that the look-up has, or its own.
pub fn firsts_of(alloc: Global, leaves: &[LeafKind]) -> Result<Vec<usize>, NoMemory>
    ensures { IfOk result (λ firsts. length firsts.items ≡ length leaves.now) }
{
    let mut seen: IndexMap<u64, usize> = IndexMap::new(alloc);
    let mut firsts = Vec::with_capacity(alloc, leaves.len())?;
    for number in 0..leaves.len() {
        let key = number_of(&leaves[number]);
        let found = seen.get(&key).copied();
        if found.is_none() {
            seen.insert(key, number)?;
        }
        firsts.push(first_of(leaves, number, found.unwrap_or(number)))?;
    }
    Ok(firsts)
}
