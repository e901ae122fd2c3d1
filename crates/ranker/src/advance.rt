// A step of what a search holds.
ghost use Rattle.std.specs.Prelude.{◌≡◌, ◌<◌, ◌≤◌, ◌+◌, ◌*◌, Option, true, false, length, map, min, nat_lt, All, Err, IfErr, OnOk, ℕ, List, []};
ghost use Rattle.ri_base.specs.Documents.{Document};
ghost use Rattle.ri_base.specs.Faults.{IsOutside, TellsDamage};
ghost use Rattle.ri_base.specs.Keeps.{Rose};
ghost use Rattle.ri_base.specs.Query.{FilterTree, filter_tree, is_range};
ghost use Rattle.store_ends.specs.Files.{Files};
ghost use Rattle.smoothing.specs.Fractions.{Computes};
ghost use Rattle.smoothing.specs.declared.rule.RuleKind.{RuleKind};
ghost use Rattle.belief_nodes.specs.Leaves.{HasPrior};
ghost use Rattle.belief_nodes.specs.Network.{NetworkTree, network_tree};
ghost use Rattle.belief_nodes.specs.Priors.{Prior};
ghost use Rattle.disk_index.specs.Parts.{outlines_of};
ghost use Rattle.disk_index.specs.Snapshots.{AreBacked, IsFileAmong, IsSnapshot, live, AreIntact};
ghost use Rattle.range_masks.specs.Held.{FitDocuments};
ghost use Rattle.ranker.specs.Blocks.{AreReadAt};
ghost use Rattle.ranker.specs.First.{scale_of};
ghost use Rattle.ranker.specs.Going.{IsAheadBy, IsHeldBy, OpensAt, TakesAt, tally};
ghost use Rattle.ranker.specs.Held.{HoldsEntries, IsHeld, is_open};
ghost use Rattle.ranker.specs.Passed.{IsPlace, part_at, passed};
ghost use Rattle.ranker.specs.Reading.{OnlyReads};
ghost use Rattle.ranker.specs.Spent.{RiseAlike};
ghost use Rattle.ranker.specs.Unbeaten.{sought};
ghost use Rattle.ranker.specs.Windows.{HasWindows};

use crate::held::Held;
use crate::place::Place;
use crate::snapshots::pass_parts;
use crate::spent::Spent;
use belief_nodes::{BeliefNode, Network};
use bounded_keys::Contenders;
use disk_index::{BlockCache, MarkedPart};
use range_bounds::RangeTable;
use range_masks::RangeBlocks;
use ri_base::{Filter, Fraction, Hits, SegFault, Steps, Term};
use smoothing::Rule;
use std::alloc::Global;
use std::sync::ledger::Ledger;
use store_ends::Store;

/// Passes so many live documents of the parts, which have so many, or all that are left where these are fewer. Where none is left the
/// first of the candidates become the results.
#[inline(never)]
pub fn advance<T: Store, F: Fn(u32, u32, u64, u64) -> Fraction, L: Ledger, B: Ledger>(
    alloc: Global,
    docs: u64,
    count: u64,
    filters: &[Filter],
    network: &Network,
    rule: &Rule<F>,
    plugs: &mut [Box<dyn BeliefNode>],
    parts: &[MarkedPart],
    store: &mut T,
    cache: &mut BlockCache,
    read: &mut RangeBlocks,
    tables: &[RangeTable],
    at: &mut Place,
    terms: &[Term],
    held: &mut Held,
    squares: &mut Steps<L>,
    blocks: &mut Steps<B>,
    numbers: &mut Spent,
) -> Result<(), SegFault>
    requires rule { Computes F.pre F.post rule.now.kind rule.now.f }
    requires shown { is_range (network_tree network.now).range ≡ true }
    requires plugs { All (HasPrior (length plugs.old)) (network_tree network.now).leaves }
    requires few { IsSnapshot parts.now }
    requires place { IsPlace parts.now at.old }
    requires count { (told : Option Files) → count ≡ length (live told parts.now) }
    requires open { is_open held.old ≡ nat_lt at.old.credit count }
    requires entries { HoldsEntries (network_tree network.now) held.old }
    requires fits { FitDocuments (outlines_of (part_at parts.now at.old.part).source) read.old }
    ensures reads { OnlyReads T.files T.layers T.clock T.since T.longest T.held T.faults (IsFileAmong parts.now) (λ told. AreBacked told parts.now) (part_at parts.now at.old.part).source (part_at parts.now at.new.part).source store.old store.new cache.old cache.new read.old read.new }
    ensures takes { AreBacked (T.files store.old) parts.now → AreReadAt (T.files store.old) parts.now at.old cache.old read.old → (most : ℕ) →
        let s = sought rule.now.kind (map (λ plug. meaning plug) plugs.old) (map filter_tree filters.now) (network_tree network.now) tables.now most in
        IsAheadBy s (T.files store.old) parts.now at.old → IsHeldBy s (passed (T.files store.old) parts.now at.old) held.old
        → TakesAt s (length terms.now) (T.files store.old) parts.now at.old at.new held.old held.new (tally read.old.range squares.old blocks.old) (tally read.new.range squares.new blocks.new) result }
    ensures windows { OnOk result ((told : Option Files) (most : ℕ)
        → HasWindows (live told parts.now) (length (network_tree network.now).leaves) most held.old → HasWindows (live told parts.now) (length (network_tree network.now).leaves) most held.new) }
    ensures entries { OnOk result (HoldsEntries (network_tree network.now) held.new) }
    ensures open { OnOk result (is_open held.new ≡ nat_lt at.new.credit count) }
    ensures place { IsPlace parts.now at.new }
    ensures credit { OnOk result (at.new.credit ≡ min (at.old.credit + docs) count) }
    ensures squared { OnOk result (RiseAlike squares.old squares.new numbers.old.squared numbers.new.squared) }
    ensures counted { OnOk result (RiseAlike blocks.old blocks.new numbers.old.opened numbers.new.opened) }
    ensures stay { map (λ plug. meaning plug) plugs.new ≡ map (λ plug. meaning plug) plugs.old }
    ensures honest { AreIntact (T.files store.old) parts.now → AreReadAt (T.files store.old) parts.now at.old cache.old read.old → IfErr result IsOutside }
    ensures undamaged { OnOk result (cache.new.damage ≡ cache.old.damage) }
    ensures damaged { IfErr result (TellsDamage cache.old.damage cache.new.damage) }
    ensures store { result ≡ Err SegFault.Store → Rose (T.faults store.old) (T.faults store.new) }
    ensures blocks { OpensAt (length terms.now) parts.now at.old at.new read.old.range read.new.range blocks.old blocks.new (length terms.now * docs) result }
{
    let Held::Open(first) = held else {
        return Ok(());
    };
    pass_parts(
        alloc, filters, network, rule, plugs, parts, store, cache, read, tables, at, terms, docs,
        first, squares, blocks, numbers,
    )?;
    if at.credit < count {
        return Ok(());
    }
    held.end(alloc, network, squares, &mut numbers.squared)?;
    Ok(())
}

/// What is held before the first of so many live documents, whose candidates have keys of this scale.
pub fn first_held(alloc: Global, most: usize, scale: u64, count: u32) -> Held
    ensures open { is_open result ≡ nat_lt 0 count }
    ensures windows { (docs : List Document) (leaves : ℕ) → HasWindows docs leaves most result }
    ensures entries { (network : NetworkTree) → scale ≡ scale_of network → HoldsEntries network result }
    ensures held { (kind : RuleKind) (priors : List Prior) (filters : List FilterTree) (network : NetworkTree) → scale ≡ scale_of network → IsHeld kind priors filters network [] most result }
{
    if count == 0 {
        return Held::Ended(Hits::of(Vec::new(alloc)));
    }
    Held::Open(Contenders::new(alloc, most, scale))
}
