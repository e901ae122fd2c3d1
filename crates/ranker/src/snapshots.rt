// The parts of a snapshot, one behind the other.
ghost use Rattle.std.specs.Prelude.{◌≡◌, ◌<◌, ◌≤◌, ◌+◌, ◌*◌, ◌^◌, ℕ, List, Option, if◌then◌else◌, nat_lt, length, map, min, true, All, Err, IfErr, IfOk, OnErr, OnOk};
ghost use Rattle.ri_base.specs.Documents.{Document};
ghost use Rattle.ri_base.specs.Faults.{IsOutside, TellsDamage};
ghost use Rattle.ri_base.specs.Keeps.{Rose};
ghost use Rattle.ri_base.specs.Query.{filter_tree, is_range};
ghost use Rattle.store_ends.specs.Files.{Files};
ghost use Rattle.smoothing.specs.Fractions.{Computes};
ghost use Rattle.belief_nodes.specs.Leaves.{HasPrior};
ghost use Rattle.belief_nodes.specs.Network.{network_tree};
ghost use Rattle.disk_index.specs.Parts.{IsFileOf, IsPartBacked, Source, outlines_of, reads, size, IsPartIntact};
ghost use Rattle.disk_index.specs.Snapshots.{AreBacked, IsFileAmong, IsSnapshot, live, live_in, AreIntact};
ghost use Rattle.range_masks.specs.Held.{AreAnswersOf, FitDocuments};
ghost use Rattle.ranker.specs.Blocks.{AreReadAt, AreReadBy};
ghost use Rattle.ranker.specs.Going.{IsAheadBy, IsKnownIn, OpensAt, OpensIn, PassesAt, PassesIn, tally};
ghost use Rattle.ranker.specs.Passed.{IsPassed, IsPlace, behind, part_at};
ghost use Rattle.ranker.specs.Reading.{OnlyReads};
ghost use Rattle.ranker.specs.Spent.{RiseAlike};
ghost use Rattle.ranker.specs.Unbeaten.{sought, stretch};
ghost use Rattle.ranker.specs.Windows.{KeepsWindows};

use crate::parts::pass_part;
use crate::place::{Ahead, Passed, Place};
use crate::spent::Spent;
use crate::window::Window;
use belief_nodes::{BeliefNode, Network};
use bounded_keys::{Contenders, Entry};
use disk_index::{BlockCache, MarkedPart};
use range_bounds::RangeTable;
use range_masks::{OpeningReader, RangeBlocks};
use ri_base::{Filter, Fraction, SegFault, Steps, Term};
use smoothing::Rule;
use std::alloc::Global;
use std::sync::ledger::Ledger;
use store_ends::Store;

/// Passes the documents of a part from an id on, of which so much is known, at most so many live ones.
fn pass_marked<T: Store, F: Fn(u32, u32, u64, u64) -> Fraction, L: Ledger, B: Ledger>(
    alloc: Global,
    filters: &[Filter],
    network: &Network,
    rule: &Rule<F>,
    plugs: &mut [Box<dyn BeliefNode>],
    marked: &MarkedPart,
    store: &mut T,
    cache: &mut BlockCache,
    held: &mut RangeBlocks,
    tables: &[RangeTable],
    number: usize,
    id: u32,
    ahead: Ahead,
    terms: &[Term],
    most: u64,
    first: &mut Contenders<Entry<Window>>,
    squares: &mut Steps<L>,
    blocks: &mut Steps<B>,
    spent: &mut Spent,
) -> Result<Passed, SegFault>
    requires rule { Computes F.pre F.post rule.now.kind rule.now.f }
    requires id { id ≤ size marked.now.source }
    requires shown { is_range (network_tree network.now).range ≡ true }
    requires plugs { All (HasPrior (length plugs.old)) (network_tree network.now).leaves }
    requires fits { FitDocuments (outlines_of marked.now.source) held.old }
    ensures reads { OnlyReads T.files T.layers T.clock T.since T.longest T.held T.faults (IsFileOf marked.now.source) (λ told. IsPartBacked told marked.now.source) marked.now.source marked.now.source store.old store.new cache.old cache.new held.old held.new }
    ensures work { IsPartBacked (T.files store.old) marked.now.source → AreReadBy (T.files store.old) (reads (T.files store.old) marked.now.source) cache.old held.old → (before : List Document) (count : ℕ) →
        let s = sought rule.now.kind (map (λ plug. meaning plug) plugs.old) (map filter_tree filters.now) (network_tree network.now) tables.now count in let m = stretch number before (reads (T.files store.old) marked.now.source) marked.now.marks in
        IsKnownIn s m id ahead → PassesIn s (length terms.now) m id ahead first.old first.new (tally held.old.range squares.old blocks.old) (tally held.new.range squares.new blocks.new) result }
    ensures windows { OnOk result (KeepsWindows (network_tree network.now) (live_in (T.files store.old) marked.now) first.old first.new) }
    ensures passed { IfOk result (IsPassed marked.now.marks id most) }
    ensures end { IfOk result (λ to. to.docs < most → to.id ≡ size marked.now.source) }
    ensures whole { length marked.now.marks ≡ size marked.now.source }
    ensures squared { OnOk result (RiseAlike squares.old squares.new spent.old.squared spent.new.squared) }
    ensures counted { OnOk result (RiseAlike blocks.old blocks.new spent.old.opened spent.new.opened) }
    ensures stay { map (λ plug. meaning plug) plugs.new ≡ map (λ plug. meaning plug) plugs.old }
    ensures honest { IsPartIntact (T.files store.old) marked.now.source → AreReadBy (T.files store.old) (reads (T.files store.old) marked.now.source) cache.old held.old → IfErr result IsOutside }
    ensures undamaged { OnOk result (cache.new.damage ≡ cache.old.damage) }
    ensures damaged { IfErr result (TellsDamage cache.old.damage cache.new.damage) }
    ensures store { result ≡ Err SegFault.Store → Rose (T.faults store.old) (T.faults store.new) }
    ensures blocks { OpensIn (length terms.now) (size marked.now.source) id held.old.range held.new.range blocks.old blocks.new (length terms.now * most) result }
    ensures each { IfOk result (λ to. blocks.new ≤ blocks.old + length terms.now * to.docs) }
{
    let marks = marked.marks();
    let mut own = OpeningReader::new(marked.part(), held, store, cache);
    pass_part(
        alloc, filters, network, rule, plugs, &mut own, marks, tables, number, id, ahead, terms,
        most, first, squares, blocks, spent,
    )
}

/// The place behind these documents of its part. Where they are fewer than were asked for, no live one is left in the part, and the
/// next part begins.
fn place_behind(at: Place, to: Passed, most: u64) -> Place
    requires part { at.part + 1 < 2 ^ 64 }
    requires credit { at.credit + to.docs < 2 ^ 64 }
    ensures { result ≡ behind at to most }
{
    let credit = at.credit + to.docs;
    if to.docs < most {
        return Place {
            part: at.part + 1,
            id: 0,
            credit,
            ahead: Ahead::nothing(),
        };
    }
    Place {
        part: at.part,
        id: to.id,
        credit,
        ahead: to.ahead,
    }
}

/// What is held behind these documents of a part: nothing where the next part begins.
fn keep_blocks(alloc: Global, held: &mut RangeBlocks, to: Passed, most: u64)
    ensures same { most ≤ to.docs → held.new ≡ held.old }
    ensures fits { to.docs < most → (source : Source) → FitDocuments (outlines_of source) held.new }
    ensures answers { to.docs < most → (docs : List Document) → AreAnswersOf docs held.new }
{
    if to.docs < most {
        *held = RangeBlocks::nothing(alloc);
    }
}

/// Passes the documents of the part of a place from there on, at most so many live ones, and answers how many of these there were.
fn pass_next<T: Store, F: Fn(u32, u32, u64, u64) -> Fraction, L: Ledger, B: Ledger>(
    alloc: Global,
    filters: &[Filter],
    network: &Network,
    rule: &Rule<F>,
    plugs: &mut [Box<dyn BeliefNode>],
    parts: &[MarkedPart],
    store: &mut T,
    cache: &mut BlockCache,
    held: &mut RangeBlocks,
    tables: &[RangeTable],
    at: &mut Place,
    terms: &[Term],
    most: u64,
    first: &mut Contenders<Entry<Window>>,
    squares: &mut Steps<L>,
    blocks: &mut Steps<B>,
    spent: &mut Spent,
) -> Result<u64, SegFault>
    requires rule { Computes F.pre F.post rule.now.kind rule.now.f }
    requires shown { is_range (network_tree network.now).range ≡ true }
    requires plugs { All (HasPrior (length plugs.old)) (network_tree network.now).leaves }
    requires few { IsSnapshot parts.now }
    requires place { IsPlace parts.now at.old }
    requires some { at.old.part < length parts.now }
    requires fits { FitDocuments (outlines_of (part_at parts.now at.old.part).source) held.old }
    ensures reads { OnlyReads T.files T.layers T.clock T.since T.longest T.held T.faults (IsFileAmong parts.now) (λ told. AreBacked told parts.now) (part_at parts.now at.old.part).source (part_at parts.now at.new.part).source store.old store.new cache.old cache.new held.old held.new }
    ensures work { AreBacked (T.files store.old) parts.now → AreReadAt (T.files store.old) parts.now at.old cache.old held.old → (count : ℕ) →
        let s = sought rule.now.kind (map (λ plug. meaning plug) plugs.old) (map filter_tree filters.now) (network_tree network.now) tables.now count in
        IsAheadBy s (T.files store.old) parts.now at.old → PassesAt s (length terms.now) (T.files store.old) parts.now at.old at.new first.old first.new (tally held.old.range squares.old blocks.old) (tally held.new.range squares.new blocks.new) result }
    ensures windows { OnOk result (KeepsWindows (network_tree network.now) (live (T.files store.old) parts.now) first.old first.new) }
    ensures place { IsPlace parts.now at.new }
    ensures docs { IfOk result (λ docs. (at.new.credit ≡ at.old.credit + docs) × (docs ≤ most)) }
    ensures next { IfOk result (λ docs. at.new.part ≡ (if nat_lt docs most then at.old.part + 1 else at.old.part)) }
    ensures squared { OnOk result (RiseAlike squares.old squares.new spent.old.squared spent.new.squared) }
    ensures counted { OnOk result (RiseAlike blocks.old blocks.new spent.old.opened spent.new.opened) }
    ensures stay { map (λ plug. meaning plug) plugs.new ≡ map (λ plug. meaning plug) plugs.old }
    ensures honest { AreIntact (T.files store.old) parts.now → AreReadAt (T.files store.old) parts.now at.old cache.old held.old → IfErr result IsOutside }
    ensures undamaged { OnOk result (cache.new.damage ≡ cache.old.damage) }
    ensures damaged { IfErr result (TellsDamage cache.old.damage cache.new.damage) }
    ensures store { result ≡ Err SegFault.Store → Rose (T.faults store.old) (T.faults store.new) }
    ensures blocks { OpensAt (length terms.now) parts.now at.old at.new held.old.range held.new.range blocks.old blocks.new (length terms.now * most) result }
    ensures each { IfOk result (λ docs. blocks.new ≤ blocks.old + length terms.now * docs) }
{
    let marked = &parts[at.part];
    let to = pass_marked(
        alloc, filters, network, rule, plugs, marked, store, cache, held, tables, at.part, at.id,
        at.ahead, terms, most, first, squares, blocks, spent,
    )?;
    keep_blocks(alloc, held, to, most);
    *at = place_behind(*at, to, most);
    Ok(to.docs)
}

/// Passes the documents of the parts from a place on, so many live ones, or all that are left where these are fewer.
pub fn pass_parts<T: Store, F: Fn(u32, u32, u64, u64) -> Fraction, L: Ledger, B: Ledger>(
    alloc: Global,
    filters: &[Filter],
    network: &Network,
    rule: &Rule<F>,
    plugs: &mut [Box<dyn BeliefNode>],
    parts: &[MarkedPart],
    store: &mut T,
    cache: &mut BlockCache,
    held: &mut RangeBlocks,
    tables: &[RangeTable],
    at: &mut Place,
    terms: &[Term],
    docs: u64,
    first: &mut Contenders<Entry<Window>>,
    squares: &mut Steps<L>,
    blocks: &mut Steps<B>,
    spent: &mut Spent,
) -> Result<(), SegFault>
    requires rule { Computes F.pre F.post rule.now.kind rule.now.f }
    requires shown { is_range (network_tree network.now).range ≡ true }
    requires plugs { All (HasPrior (length plugs.old)) (network_tree network.now).leaves }
    requires few { IsSnapshot parts.now }
    requires place { IsPlace parts.now at.old }
    requires fits { FitDocuments (outlines_of (part_at parts.now at.old.part).source) held.old }
    ensures reads { OnlyReads T.files T.layers T.clock T.since T.longest T.held T.faults (IsFileAmong parts.now) (λ told. AreBacked told parts.now) (part_at parts.now at.old.part).source (part_at parts.now at.new.part).source store.old store.new cache.old cache.new held.old held.new }
    ensures work { AreBacked (T.files store.old) parts.now → AreReadAt (T.files store.old) parts.now at.old cache.old held.old → (count : ℕ) →
        let s = sought rule.now.kind (map (λ plug. meaning plug) plugs.old) (map filter_tree filters.now) (network_tree network.now) tables.now count in
        IsAheadBy s (T.files store.old) parts.now at.old → PassesAt s (length terms.now) (T.files store.old) parts.now at.old at.new first.old first.new (tally held.old.range squares.old blocks.old) (tally held.new.range squares.new blocks.new) result }
    ensures windows { OnOk result (KeepsWindows (network_tree network.now) (live (T.files store.old) parts.now) first.old first.new) }
    ensures place { IsPlace parts.now at.new }
    ensures credit { OnOk result ((told : Option Files) → at.new.credit ≡ min (at.old.credit + docs) (length (live told parts.now))) }
    ensures squared { OnOk result (RiseAlike squares.old squares.new spent.old.squared spent.new.squared) }
    ensures counted { OnOk result (RiseAlike blocks.old blocks.new spent.old.opened spent.new.opened) }
    ensures stay { map (λ plug. meaning plug) plugs.new ≡ map (λ plug. meaning plug) plugs.old }
    ensures honest { AreIntact (T.files store.old) parts.now → AreReadAt (T.files store.old) parts.now at.old cache.old held.old → IfErr result IsOutside }
    ensures undamaged { OnOk result (cache.new.damage ≡ cache.old.damage) }
    ensures damaged { IfErr result (TellsDamage cache.old.damage cache.new.damage) }
    ensures store { result ≡ Err SegFault.Store → Rose (T.faults store.old) (T.faults store.new) }
    ensures blocks { OpensAt (length terms.now) parts.now at.old at.new held.old.range held.new.range blocks.old blocks.new (length terms.now * docs) result }
{
    let mut left = docs;
    while left > 0 && at.part < parts.len() {
        let passed = pass_next(
            alloc, filters, network, rule, plugs, parts, store, cache, held, tables, at, terms,
            left, first, squares, blocks, spent,
        )?;
        left -= passed;
    }
    Ok(())
}
