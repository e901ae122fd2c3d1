// The terms of a query.
ghost use Rattle.std.specs.Prelude.{◌≡◌, ◌++◌, map, IfOk, OnOk};
ghost use Rattle.std.specs.List.{flat_map};
ghost use Rattle.ri_base.specs.Query.{filter_tree};
ghost use Rattle.query_check.specs.Leaves.{leaf_tree};
ghost use Rattle.expression_words.specs.Words.{AreDistinct};
ghost use Rattle.ranker.specs.Blocks.{filter_words, leaf_words, query_words};

use expression_words::{Asked, ask, distinct_words};
use query_check::LeafKind;
use ri_base::{Filter, NoMemory, Terms};
use std::alloc::Global;

/// Puts the terms of the filters behind what was asked for before.
fn ask_filters(alloc: Global, filters: &[Filter], asked: &mut Asked) -> Result<(), NoMemory>
    ensures { OnOk result (asked.new.terms.items ≡ asked.old.terms.items ++ flat_map filter_words (map filter_tree filters.now)) }
{
    for filter in filters {
        ask(alloc, &filter.expr, asked)?;
    }
    Ok(())
}

/// Puts the terms of the leaf behind what was asked for before.
fn ask_leaf(alloc: Global, leaf: &LeafKind, asked: &mut Asked) -> Result<(), NoMemory>
    ensures { OnOk result (asked.new.terms.items ≡ asked.old.terms.items ++ leaf_words (leaf_tree leaf.now)) }
{
    match leaf {
        LeafKind::Extents(expr, _) => ask(alloc, expr, asked),
        LeafKind::Prior(_) => Ok(()),
    }
}

/// Puts the terms of the leaves behind what was asked for before.
fn ask_leaves(alloc: Global, leaves: &[LeafKind], asked: &mut Asked) -> Result<(), NoMemory>
    ensures { OnOk result (asked.new.terms.items ≡ asked.old.terms.items ++ flat_map leaf_words (map leaf_tree leaves.now)) }
{
    for leaf in leaves {
        ask_leaf(alloc, leaf, asked)?;
    }
    Ok(())
}

/// The terms of a query, each once.
pub fn query_terms(
    alloc: Global,
    filters: &[Filter],
    leaves: &[LeafKind],
) -> Result<Terms, NoMemory>
    ensures { IfOk result (AreDistinct (query_words (map filter_tree filters.now) (map leaf_tree leaves.now))) }
{
    let mut asked = Asked::new(alloc);
    ask_filters(alloc, filters, &mut asked)?;
    ask_leaves(alloc, leaves, &mut asked)?;
    Ok(distinct_words(asked))
}
