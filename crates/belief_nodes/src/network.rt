ghost use Rattle.std.specs.Prelude.{◌≡◌, ◌<◌, length, map, IfOk};
ghost use Rattle.ri_base.specs.Ratio.{ratio_of};
ghost use Rattle.smoothing.specs.Fractions.{Computes};
ghost use Rattle.belief_nodes.specs.Fractions.{leaf_fraction};
ghost use Rattle.query_check.specs.Leaves.{leaf_tree};
ghost use Rattle.query_check.specs.Trees.{scaled_tree};
ghost use Rattle.belief_nodes.specs.Kept.{IsNetwork};
ghost use Rattle.belief_nodes.specs.Leaves.{AreLeafStats, HasPrior, IsLeafCount};
ghost use Rattle.belief_nodes.specs.Priors.{prior_at, prior_fraction};

use crate::firsts::firsts_of;
use crate::keys::key_of;
use crate::{BeliefNode, LeafCount};
use query_check::{Checked, LeafKind, Tree};
use ri_base::{Docno, Fraction, Fractions, LeafStats, NoMemory, Range};
use smoothing::Rule;
use std::alloc::Global;

/// The beliefs of a checked query, with what the collection has of each leaf.
pub struct Network {
    leaves: Vec<LeafKind>,
    firsts: Vec<usize>,
    range: Range,
    stats: Vec<LeafStats>,
    tree: Tree,
    ghost kept: { IsNetwork (map leaf_tree leaves.items) stats.items (scaled_tree tree) },
    ghost each: { length firsts.items ≡ length leaves.items },
}

impl Drop for Network {
    fn drop(self) {
        let Network {
            leaves,
            firsts,
            range,
            stats,
            tree,
        } = self;
        drop(leaves);
        drop(firsts);
        drop(range);
        drop(stats);
        drop(tree);
    }
}

impl Network {
    ghost use Rattle.std.specs.Prelude.{◌^◌, All};
    ghost use Rattle.belief_nodes.specs.Fractions.{leaf_fractions};
    ghost use Rattle.belief_nodes.specs.Keys.{key};
    ghost use Rattle.belief_nodes.specs.Network.{network_of, network_tree};

    /// The network of a checked query. `stats` has what the collection has of each leaf, in order of leaf numbers.
    pub fn new(alloc: Global, checked: &Checked, stats: &[LeafStats]) -> Result<Network, NoMemory>
        requires each { length stats.now ≡ length checked.now.leaves.items }
        requires counted { All (λ s. AreLeafStats s) stats.now }
        ensures { IfOk result (λ network. network_tree network ≡ network_of checked.now stats.now) }
    {
        let leaves = clone_leaves(alloc, &checked.leaves)?;
        let firsts = firsts_of(alloc, &leaves)?;
        let range = checked.range.clone_in(alloc)?;
        let tree = checked.tree.clone_in(alloc)?;
        let mut kept = Vec::with_capacity(alloc, stats.len())?;
        kept.extend_from_slice(stats)?;
        Ok(Network {
            leaves,
            firsts,
            range,
            stats: kept,
            tree,
        })
    }

    /// The leaves, in order of their numbers.
    pub fn leaves(&self) -> &[LeafKind]
        ensures { map leaf_tree result.now ≡ (network_tree self.now).leaves }
    {
        &self.leaves
    }

    /// Of each leaf the number of an equal one: of an earlier one, or its own. Who uses it compares the two.
    pub fn firsts(&self) -> &[usize]
        ensures { length result.now ≡ length (network_tree self.now).leaves }
    {
        &self.firsts
    }

    /// What is scored: documents, the fields of a name, or passages.
    pub fn range(&self) -> &Range
        ensures { result.now ≡ (network_tree self.now).range }
    {
        &self.range
    }

    /// What the collection has of each leaf, in order of leaf numbers.
    pub fn stats(&self) -> &[LeafStats]
        ensures { result.now ≡ (network_tree self.now).stats }
    {
        &self.stats
    }

    /// The beliefs of the leaves in one window, in order of their numbers, from their counts there. Those of priors are
    /// what `plugs`, by their numbers, settle for the docno of the document and its length in tokens.
    pub fn fractions<F: Fn(u32, u32, u64, u64) -> Fraction>(
        &self,
        alloc: Global,
        rule: &Rule<F>,
        counts: &[LeafCount],
        docno: &Docno,
        len: u32,
        plugs: &mut [Box<dyn BeliefNode>],
    ) -> Result<Fractions, NoMemory>
        requires rule { Computes F.pre F.post rule.now.kind rule.now.f }
        requires each { length counts.now ≡ length (network_tree self.now).leaves }
        requires counts { All (λ n. IsLeafCount n) counts.now }
        requires plugs { All (HasPrior (length plugs.old)) (network_tree self.now).leaves }
        ensures beliefs { IfOk result (λ fractions. map ratio_of fractions
            ≡ leaf_fractions rule.now.kind (map (λ plug. meaning plug) plugs.old) docno.now len
            (network_tree self.now).leaves counts.now (network_tree self.now).stats) }
        ensures stay { map (λ plug. meaning plug) plugs.new ≡ map (λ plug. meaning plug) plugs.old }
    {
        let mut fractions = Vec::with_capacity(alloc, counts.len())?;
        for (i, leaf) in self.leaves.iter().enumerate() {
            let count = counts[i];
            let stats = self.stats[i];
            fractions.push(fraction(rule, leaf, count, stats, docno, len, plugs))?;
        }
        Ok(Fractions::of(fractions))
    }

    /// The key of a window, from the digits of its leaves at one level, in order of leaf numbers.
    pub fn key(&self, digits: &[u128]) -> u128
        requires each { length digits.now ≡ length (network_tree self.now).leaves }
        requires small { All (λ c. c < 2 ^ 66) digits.now }
        ensures { result ≡ key digits.now (network_tree self.now).tree }
    {
        key_of(&self.tree, digits)
    }
}

/// The belief of one leaf.
fn fraction<F: Fn(u32, u32, u64, u64) -> Fraction>(
    rule: &Rule<F>,
    leaf: &LeafKind,
    count: LeafCount,
    stats: LeafStats,
    docno: &Docno,
    len: u32,
    plugs: &mut [Box<dyn BeliefNode>],
) -> Fraction
    requires rule { Computes F.pre F.post rule.now.kind rule.now.f }
    requires count { IsLeafCount count }
    requires stats { AreLeafStats stats }
    requires plugs { HasPrior (length plugs.old) (leaf_tree leaf.now) }
    ensures belief { ratio_of result
        ≡ leaf_fraction rule.now.kind (map (λ plug. meaning plug) plugs.old) docno.now len (leaf_tree leaf.now) count stats }
    ensures stay { map (λ plug. meaning plug) plugs.new ≡ map (λ plug. meaning plug) plugs.old }
{
    match leaf {
        LeafKind::Extents(..) => rule.belief(count.tf, count.len, stats.cf, stats.total),
        LeafKind::Prior(number) => settle_at(plugs, *number, docno, len),
    }
}

/// What the prior of that number gives to the document.
fn settle_at(plugs: &mut [Box<dyn BeliefNode>], number: u8, docno: &Docno, len: u32) -> Fraction
    requires { number < length plugs.old }
    ensures answer { ratio_of result ≡ prior_fraction (prior_at (map (λ plug. meaning plug) plugs.old) number) docno.now len }
    ensures stay { map (λ plug. meaning plug) plugs.new ≡ map (λ plug. meaning plug) plugs.old }
{
    settle(&mut plugs[number as usize], docno, len)
}

fn settle(plug: &mut Box<dyn BeliefNode>, docno: &Docno, len: u32) -> Fraction
    ensures answer { ratio_of result ≡ prior_fraction (meaning plug.old) docno.now len }
    ensures stays { meaning plug.new ≡ meaning plug.old }
{
    plug.settle(docno, len)
}

fn clone_leaves(alloc: Global, all: &[LeafKind]) -> Result<Vec<LeafKind>, NoMemory>
    ensures { IfOk result (λ clones. map leaf_tree clones.items ≡ map leaf_tree all.now) }
{
    let mut clones = Vec::new(alloc);
    for leaf in all {
        clones.push(leaf.clone_in(alloc)?)?;
    }
    Ok(clones)
}
