// What the leaves of a query ask for.
ghost use Rattle.std.specs.Prelude.{◌≡◌, ◌++◌, map, IfOk, OnOk};
ghost use Rattle.query_check.specs.Leaves.{leaf_tree};
ghost use Rattle.range_tables.specs.Asks.{all_leaf_names, all_leaf_words, leaf_names, leaf_words};

use expression_words::{Asked, ask};
use query_check::LeafKind;
use ri_base::NoMemory;
use std::alloc::Global;

/// Puts what the leaf asks for behind what was asked for before. A prior asks for nothing.
fn ask_leaf(alloc: Global, leaf: &LeafKind, asked: &mut Asked) -> Result<(), NoMemory>
    ensures terms { OnOk result (asked.new.terms.items ≡ asked.old.terms.items ++ leaf_words (leaf_tree leaf.now)) }
    ensures names { OnOk result (asked.new.names.items ≡ asked.old.names.items ++ leaf_names (leaf_tree leaf.now)) }
{
    match leaf {
        LeafKind::Extents(expr, _) => ask(alloc, expr, asked),
        LeafKind::Prior(_) => Ok(()),
    }
}

/// What the leaves ask for.
pub(crate) fn asked_by(alloc: Global, leaves: &[LeafKind]) -> Result<Asked, NoMemory>
    ensures terms { IfOk result (λ asked. asked.terms.items ≡ all_leaf_words (map leaf_tree leaves.now)) }
    ensures names { IfOk result (λ asked. asked.names.items ≡ all_leaf_names (map leaf_tree leaves.now)) }
{
    let mut asked = Asked::new(alloc);
    for leaf in leaves {
        ask_leaf(alloc, leaf, &mut asked)?;
    }
    Ok(asked)
}
