// The bounds of the leaves of a query.
ghost use Rattle.std.specs.Prelude.{◌≡◌, ◌<◌, ◌≤◌, ℕ, true, List, length, map, Contains, IfOk, OnOk};
ghost use Rattle.std.specs.List.{All};
ghost use Rattle.ri_base.specs.Documents.{Document};
ghost use Rattle.ri_base.specs.Pair.{Pair};
ghost use Rattle.ri_base.specs.Ratio.{IsBelief, ratio_of};
ghost use Rattle.ri_base.specs.declared.limits.TheConstants.{MAX_DOC_TOKENS};
ghost use Rattle.smoothing.specs.Fractions.{Computes};
ghost use Rattle.query_check.specs.Leaves.{leaf_tree};
ghost use Rattle.belief_nodes.specs.Keys.{key_at};
ghost use Rattle.belief_nodes.specs.Leaves.{AreLeafStats, HasPrior};
ghost use Rattle.belief_nodes.specs.Network.{network_tree};
ghost use Rattle.belief_nodes.specs.Priors.{IsGreatestOf, prior_at, prior_fractions};
ghost use Rattle.windows.specs.Windows.{windows};
ghost use Rattle.range_bounds.specs.Bounds.{AreBounds, AreCovered, IsToldBound, beliefs_in, least_scored};
ghost use Rattle.range_bounds.specs.Ranges.{range_documents};
ghost use Rattle.range_bounds.specs.Tables.{IsTableOf, has_counts};

use crate::beliefs::ask_rule;
use crate::most::most;
use crate::range_counts::RangeCounts;
use crate::table::RangeTable;
use belief_nodes::{BeliefNode, Network};
use query_check::LeafKind;
use ri_base::{Fraction, Fractions, LeafStats, Name, NoMemory, Range};
use smoothing::Rule;
use std::alloc::Global;

impl RangeTable {
    /// For each leaf, in order of their numbers, a fraction that its belief doesn't exceed in any window of any document of
    /// the range. The table was made for these leaves, and has the counts of the range.
    pub fn bound_fractions<F: Fn(u32, u32, u64, u64) -> Fraction>(
        &self,
        alloc: Global,
        network: &Network,
        rule: &Rule<F>,
        range: u32,
        plugs: &[Box<dyn BeliefNode>],
    ) -> Result<Fractions, NoMemory>
        requires rule { Computes F.pre F.post rule.now.kind rule.now.f }
        requires range { has_counts self.now range ≡ true }
        requires plugs { All (HasPrior (length plugs.now)) (network_tree network.now).leaves }
        ensures each { IfOk result (λ bounds. length bounds ≡ length (network_tree network.now).leaves) }
        ensures exact { (docs : List Document) → IsTableOf (network_tree network.now).leaves docs self.now → IfOk result
            (λ bounds. AreBounds rule.now.kind (map (λ plug. meaning plug) plugs.now) (network_tree network.now).range
            (range_documents docs range) (network_tree network.now).leaves (network_tree network.now).stats (map ratio_of bounds)) }
        ensures covers { (docs : List Document) (d : Document) (w : Pair) → IsTableOf (network_tree network.now).leaves docs self.now
            → Contains (range_documents docs range) d → Contains (windows (network_tree network.now).range (length d.tokens) d.fields) w
            → IfOk result (λ bounds. AreCovered rule.now.kind (map (λ plug. meaning plug) plugs.now) d w
            (network_tree network.now).leaves (network_tree network.now).stats (map ratio_of bounds)) }
        ensures beliefs { (docs : List Document) (d : Document) (w : Pair) → IsTableOf (network_tree network.now).leaves docs self.now
            → Contains (range_documents docs range) d → Contains (windows (network_tree network.now).range (length d.tokens) d.fields) w
            → OnOk result (All IsBelief (beliefs_in rule.now.kind (map (λ plug. meaning plug) plugs.now) d w
            (network_tree network.now).leaves (network_tree network.now).stats)) }
        ensures keys { (docs : List Document) (d : Document) (w : Pair) (k : ℕ) → IsTableOf (network_tree network.now).leaves docs self.now
            → Contains (range_documents docs range) d → Contains (windows (network_tree network.now).range (length d.tokens) d.fields) w
            → IfOk result (λ bounds. key_at k (map ratio_of bounds) (network_tree network.now).tree
            ≤ key_at k (beliefs_in rule.now.kind (map (λ plug. meaning plug) plugs.now) d w
            (network_tree network.now).leaves (network_tree network.now).stats) (network_tree network.now).tree) }
    {
        ask_rule(rule);
        let stats = network.stats();
        let counts = self.counts(range).unwrap();
        let mut bounds = Vec::with_capacity(alloc, stats.len())?;
        for (i, leaf) in network.leaves().iter().enumerate() {
            let stat = stats[i];
            let bound = leaf_bound(rule, leaf, stat, network.range(), self, counts, plugs);
            bounds.push(bound)?;
        }
        Ok(Fractions::of(bounds))
    }
}

/// The bound of one leaf.
fn leaf_bound<F: Fn(u32, u32, u64, u64) -> Fraction>(
    rule: &Rule<F>,
    leaf: &LeafKind,
    stats: LeafStats,
    range: &Range,
    table: &RangeTable,
    counts: &RangeCounts,
    plugs: &[Box<dyn BeliefNode>],
) -> Fraction
    requires rule { Computes F.pre F.post rule.now.kind rule.now.f }
    requires stats { AreLeafStats stats }
    requires plugs { HasPrior (length plugs.now) (leaf_tree leaf.now) }
    ensures { IsToldBound rule.now.kind (map (λ plug. meaning plug) plugs.now) range.now table.now counts.now
        (leaf_tree leaf.now) stats (ratio_of result) }
{
    match leaf {
        LeafKind::Extents(expr, context) => {
            let least = least_scored(range, context, counts);
            rule.bound(most(expr, table, counts), least, stats.cf, stats.total)
        }
        LeafKind::Prior(number) => greatest_at(plugs, *number),
    }
}

/// The least length in which a leaf with this context is scored.
fn least_scored(range: &Range, context: &Option<Name>, counts: &RangeCounts) -> u32
    ensures exact { result ≡ least_scored range.now context.now counts.now.least }
    ensures short { result ≤ MAX_DOC_TOKENS }
{
    if context.is_some() {
        return 0;
    }
    match range {
        Range::Whole => counts.least,
        Range::Field(_) | Range::Passages { .. } => 0,
    }
}

/// The greatest fraction of the prior of that number.
fn greatest_at(plugs: &[Box<dyn BeliefNode>], number: u8) -> Fraction
    requires { number < length plugs.now }
    ensures { IsGreatestOf (prior_fractions (prior_at (map (λ plug. meaning plug) plugs.now) number)) (ratio_of result) }
{
    greatest(&plugs[number as usize])
}

fn greatest(plug: &Box<dyn BeliefNode>) -> Fraction
    ensures { IsGreatestOf (prior_fractions (meaning plug.now)) (ratio_of result) }
{
    plug.greatest()
}
