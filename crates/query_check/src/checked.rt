// A query that was checked.
ghost use Rattle.std.specs.Prelude.{◌≡◌, map, IfOk};
ghost use Rattle.ri_base.specs.Query.{filter_tree};
ghost use Rattle.query_check.specs.Kept.{IsChecked};
ghost use Rattle.query_check.specs.Leaves.{leaf_tree};
ghost use Rattle.query_check.specs.Trees.{scaled_tree};

use crate::{LeafKind, Tree};
use ri_base::{Filter, NoMemory, Range};
use std::alloc::Global;

/// A query that was checked.
pub struct Checked {
    /// From the outermost inwards.
    pub filters: Vec<Filter>,
    pub range: Range,
    /// In reading order, without those of weight 0.
    pub leaves: Vec<LeafKind>,
    pub tree: Tree,
    /// The scale of the tree.
    pub scale: u64,
    pub ghost kept: { IsChecked (map filter_tree filters.items) range (map leaf_tree leaves.items) (scaled_tree tree) scale },
}

impl Drop for Checked {
    fn drop(self) {
        let Checked {
            filters,
            range,
            leaves,
            tree,
            scale: _,
        } = self;
        drop(filters);
        drop(range);
        drop(leaves);
        drop(tree);
    }
}

fn clone_filters(alloc: Global, all: &[Filter]) -> Result<Vec<Filter>, NoMemory>
    ensures { IfOk result (λ clones. map filter_tree clones.items ≡ map filter_tree all.now) }
{
    let mut clones = Vec::new(alloc);
    for filter in all {
        clones.push(filter.clone_in(alloc)?)?;
    }
    Ok(clones)
}

fn clone_leaves(alloc: Global, all: &[LeafKind]) -> Result<Vec<LeafKind>, NoMemory>
    ensures { IfOk result (λ clones. map leaf_tree clones.items ≡ map leaf_tree all.now) }
{
    let mut clones = Vec::new(alloc);
    for leaf in all {
        clones.push(leaf.clone_in(alloc)?)?;
    }
    Ok(clones)
}

impl Checked {
    ghost use Rattle.query_check.specs.Answers.{whole_checked};

    /// An equal checked query.
    pub fn clone_in(&self, alloc: Global) -> Result<Checked, NoMemory>
        ensures { IfOk result (λ checked. whole_checked checked ≡ whole_checked self.now) }
    {
        let filters = clone_filters(alloc, &self.filters)?;
        let range = self.range.clone_in(alloc)?;
        let leaves = clone_leaves(alloc, &self.leaves)?;
        let tree = self.tree.clone_in(alloc)?;
        Ok(Checked {
            filters,
            range,
            leaves,
            tree,
            scale: self.scale,
        })
    }
}
