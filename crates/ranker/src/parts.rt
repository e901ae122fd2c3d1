// Parts with their marks, one stretch of documents behind the other.
ghost use Rattle.std.specs.Prelude.{◌≡◌, ◌<◌, ◌≤◌, ◌+◌, ◌*◌, ◌/◌, ℕ, true, false, List, length, map, take, All, Err, IfErr, IfOk, OnOk};
ghost use Rattle.ri_base.specs.Documents.{Document};
ghost use Rattle.ri_base.specs.Faults.{IsOutside, TellsDamage};
ghost use Rattle.ri_base.specs.Keeps.{Keeps, Rose};
ghost use Rattle.ri_base.specs.Query.{filter_tree, is_range};
ghost use Rattle.smoothing.specs.Fractions.{Computes};
ghost use Rattle.belief_nodes.specs.Leaves.{HasPrior};
ghost use Rattle.belief_nodes.specs.Network.{network_tree};
ghost use Rattle.disk_index.specs.Snapshots.{unmarked};
ghost use Rattle.ranker.specs.First.{Advances, SpendsWithin, counted};
ghost use Rattle.ranker.specs.Going.{IsKnownIn, OpensIn, PassesIn, ScoresIn, tally};
ghost use Rattle.ranker.specs.Passed.{IsAhead, IsPassed, is_clear};
ghost use Rattle.ranker.specs.Spent.{RiseAlike};
ghost use Rattle.ranker.specs.Unbeaten.{sought, stretch};
ghost use Rattle.ranker.specs.Windows.{KeepsWindows};

use crate::ahead::{ahead_of, masked};
use crate::bound::{bounded, is_absent, is_beaten};
use crate::documents::pass_document;
use crate::place::{Ahead, Passed};
use crate::spent::{Spent, count_more};
use crate::unseen::{pass_dead, pass_unseen};
use crate::window::Window;
use belief_nodes::{BeliefNode, Network};
use bounded_keys::{Contenders, Entry};
use deletion_list::DelList;
use range_bounds::RangeTable;
use range_masks::{OpensRanges, TermMasks};
use ri_base::{Filter, Fraction, SegFault, Steps, Term};
use smoothing::Rule;
use std::alloc::Global;
use std::sync::ledger::Ledger;

/// Passes the documents from an id on up to the end of what is known, at most so many live ones. Those are looked at that are live and
/// may have candidates.
fn pass_masked<P: TermMasks, F: Fn(u32, u32, u64, u64) -> Fraction, L: Ledger>(
    alloc: Global,
    filters: &[Filter],
    network: &Network,
    rule: &Rule<F>,
    plugs: &mut [Box<dyn BeliefNode>],
    part: &mut P,
    marks: &DelList,
    id: u32,
    ahead: Ahead,
    most: u64,
    first: &mut Contenders<Entry<Window>>,
    squares: &mut Steps<L>,
    squared: &mut u64,
) -> Result<Passed, SegFault>
    requires rule { Computes F.pre F.post rule.now.kind rule.now.f }
    requires id { id < length (P.documents part.old) }
    requires marks { length marks.now ≡ length (P.documents part.old) }
    requires shown { is_range (network_tree network.now).range ≡ true }
    requires plugs { All (HasPrior (length plugs.old)) (network_tree network.now).leaves }
    requires end { id < ahead.end }
    ensures keeps { Keeps P.documents P.faults P.sound P.intact P.quiet part.old part.new }
    ensures first { P.sound part.old → IsAhead (map filter_tree filters.now) (network_tree network.now).leaves (P.documents part.old) id ahead → IfOk result (λ to.
        Advances rule.now.kind (map (λ plug. meaning plug) plugs.old) (map filter_tree filters.now) (network_tree network.now) (unmarked (take id (P.documents part.old)) marks.now) (unmarked (take to.id (P.documents part.old)) marks.now) (counted first.old squares.old 0) (counted first.new squares.new 0)) }
    ensures within { P.sound part.old → IsAhead (map filter_tree filters.now) (network_tree network.now).leaves (P.documents part.old) id ahead
        → SpendsWithin rule.now.kind (map (λ plug. meaning plug) plugs.old) (map filter_tree filters.now) (network_tree network.now) (unmarked (take id (P.documents part.old)) marks.now) (unmarked (take ahead.end (P.documents part.old)) marks.now) 0 0 squares.old squares.new }
    ensures windows { OnOk result (KeepsWindows (network_tree network.now) (unmarked (P.documents part.old) marks.now) first.old first.new) }
    ensures ahead { P.sound part.old → IsAhead (map filter_tree filters.now) (network_tree network.now).leaves (P.documents part.old) id ahead → IfOk result (λ to.
        IsAhead (map filter_tree filters.now) (network_tree network.now).leaves (P.documents part.old) to.id to.ahead) }
    ensures passed { IfOk result (IsPassed marks.now id most) }
    ensures forward { IfOk result (λ to. 0 < most → id < to.id) }
    ensures back { IfOk result (λ to. id ≤ to.id) }
    ensures inside { IfOk result (λ to. to.id ≤ ahead.end) }
    ensures same { IfOk result (λ to. to.ahead ≡ ahead) }
    ensures squared { OnOk result (RiseAlike squares.old squares.new squared.old squared.new) }
    ensures stay { map (λ plug. meaning plug) plugs.new ≡ map (λ plug. meaning plug) plugs.old }
    ensures honest { P.intact part.old → IfErr result IsOutside }
    ensures undamaged { OnOk result (P.damage part.new ≡ P.damage part.old) }
    ensures damaged { IfErr result (TellsDamage (P.damage part.old) (P.damage part.new)) }
    ensures store { result ≡ Err SegFault.Store → Rose (P.faults part.old) (P.faults part.new) }
{
    let end = ahead.end.min(part.docs());
    let mut at = id;
    let mut docs = 0;
    while at < end && docs < most {
        let may = ahead.may_have(at);
        let passed = pass_document(
            alloc, filters, network, rule, plugs, part, marks, may, at, first, squares, squared,
        )?;
        docs += passed;
        at += 1;
    }
    Ok(Passed {
        id: at,
        docs,
        ahead,
    })
}

/// The same where the mask of the range may not be read yet: it is read then. Where no bit is set no document is looked at.
fn pass_open<P: TermMasks, F: Fn(u32, u32, u64, u64) -> Fraction, L: Ledger>(
    alloc: Global,
    filters: &[Filter],
    network: &Network,
    rule: &Rule<F>,
    plugs: &mut [Box<dyn BeliefNode>],
    part: &mut P,
    marks: &DelList,
    tables: &[RangeTable],
    number: usize,
    id: u32,
    ahead: Ahead,
    most: u64,
    first: &mut Contenders<Entry<Window>>,
    squares: &mut Steps<L>,
    squared: &mut u64,
) -> Result<Passed, SegFault>
    requires rule { Computes F.pre F.post rule.now.kind rule.now.f }
    requires id { id < length (P.documents part.old) }
    requires marks { length marks.now ≡ length (P.documents part.old) }
    requires shown { is_range (network_tree network.now).range ≡ true }
    requires plugs { All (HasPrior (length plugs.old)) (network_tree network.now).leaves }
    requires some { id < ahead.end }
    requires open { is_clear ahead.mask ≡ false }
    ensures keeps { Keeps P.documents P.faults P.sound P.intact P.quiet part.old part.new }
    ensures work { P.sound part.old → (before : List Document) (count : ℕ) →
        let s = sought rule.now.kind (map (λ plug. meaning plug) plugs.old) (map filter_tree filters.now) (network_tree network.now) tables.now count in let m = stretch number before (P.documents part.old) marks.now in
        IsKnownIn s m id ahead → ScoresIn s m id ahead first.old first.new squares.old squares.new result }
    ensures windows { OnOk result (KeepsWindows (network_tree network.now) (unmarked (P.documents part.old) marks.now) first.old first.new) }
    ensures passed { IfOk result (IsPassed marks.now id most) }
    ensures forward { IfOk result (λ to. 0 < most → id < to.id) }
    ensures back { IfOk result (λ to. id ≤ to.id) }
    ensures inside { IfOk result (λ to. to.id ≤ ahead.end) }
    ensures squared { OnOk result (RiseAlike squares.old squares.new squared.old squared.new) }
    ensures stay { map (λ plug. meaning plug) plugs.new ≡ map (λ plug. meaning plug) plugs.old }
    ensures honest { P.intact part.old → IfErr result IsOutside }
    ensures undamaged { OnOk result (P.damage part.new ≡ P.damage part.old) }
    ensures damaged { IfErr result (TellsDamage (P.damage part.old) (P.damage part.new)) }
    ensures store { result ≡ Err SegFault.Store → Rose (P.faults part.old) (P.faults part.new) }
{
    let open = masked(alloc, filters, network, part, id, ahead)?;
    if open.is_clear() {
        return Ok(pass_unseen(marks, open, id, most));
    }
    pass_masked(
        alloc, filters, network, rule, plugs, part, marks, id, open, most, first, squares, squared,
    )
}

/// The same behind the opening of the blocks of the range, of each of these terms, unless they are held.
fn pass_opened<P: OpensRanges, F: Fn(u32, u32, u64, u64) -> Fraction, L: Ledger, B: Ledger>(
    alloc: Global,
    filters: &[Filter],
    network: &Network,
    rule: &Rule<F>,
    plugs: &mut [Box<dyn BeliefNode>],
    part: &mut P,
    marks: &DelList,
    tables: &[RangeTable],
    number: usize,
    id: u32,
    ahead: Ahead,
    terms: &[Term],
    most: u64,
    first: &mut Contenders<Entry<Window>>,
    squares: &mut Steps<L>,
    blocks: &mut Steps<B>,
    spent: &mut Spent,
) -> Result<Passed, SegFault>
    requires rule { Computes F.pre F.post rule.now.kind rule.now.f }
    requires id { id < length (P.documents part.old) }
    requires marks { length marks.now ≡ length (P.documents part.old) }
    requires shown { is_range (network_tree network.now).range ≡ true }
    requires plugs { All (HasPrior (length plugs.old)) (network_tree network.now).leaves }
    requires some { id < ahead.end }
    requires open { is_clear ahead.mask ≡ false }
    ensures keeps { Keeps P.documents P.faults P.sound P.intact P.calm part.old part.new }
    ensures work { P.sound part.old → (before : List Document) (count : ℕ) →
        let s = sought rule.now.kind (map (λ plug. meaning plug) plugs.old) (map filter_tree filters.now) (network_tree network.now) tables.now count in let m = stretch number before (P.documents part.old) marks.now in
        IsKnownIn s m id ahead → ScoresIn s m id ahead first.old first.new squares.old squares.new result }
    ensures windows { OnOk result (KeepsWindows (network_tree network.now) (unmarked (P.documents part.old) marks.now) first.old first.new) }
    ensures passed { IfOk result (IsPassed marks.now id most) }
    ensures forward { IfOk result (λ to. 0 < most → id < to.id) }
    ensures back { IfOk result (λ to. id ≤ to.id) }
    ensures inside { IfOk result (λ to. to.id ≤ ahead.end) }
    ensures squared { OnOk result (RiseAlike squares.old squares.new spent.old.squared spent.new.squared) }
    ensures counted { OnOk result (RiseAlike blocks.old blocks.new spent.old.opened spent.new.opened) }
    ensures stay { map (λ plug. meaning plug) plugs.new ≡ map (λ plug. meaning plug) plugs.old }
    ensures honest { P.intact part.old → IfErr result IsOutside }
    ensures undamaged { OnOk result (P.damage part.new ≡ P.damage part.old) }
    ensures damaged { IfErr result (TellsDamage (P.damage part.old) (P.damage part.new)) }
    ensures store { result ≡ Err SegFault.Store → Rose (P.faults part.old) (P.faults part.new) }
    ensures present { OnOk result (P.present part.new ≡ id / 64) }
    ensures none { P.present part.old ≡ id / 64 → blocks.new ≡ blocks.old }
    ensures cost { blocks.new ≤ blocks.old + length terms.now }
{
    let count = part.open_range(alloc, terms, id / 64, blocks)?;
    count_more(&mut spent.opened, count as u64);
    let squared = &mut spent.squared;
    pass_open(
        alloc, filters, network, rule, plugs, part, marks, tables, number, id, ahead, most, first,
        squares, squared,
    )
}

/// Passes documents from an id on, at most so many live ones: up to the end of what is known of the id, or, where nothing is, of what
/// is found out. None is looked at where none may have candidates, and where those of the range can't be among the first: then its
/// mask isn't read. Else its blocks are opened before a live document is looked at.
fn pass_on<P: OpensRanges, F: Fn(u32, u32, u64, u64) -> Fraction, L: Ledger, B: Ledger>(
    alloc: Global,
    filters: &[Filter],
    network: &Network,
    rule: &Rule<F>,
    plugs: &mut [Box<dyn BeliefNode>],
    part: &mut P,
    marks: &DelList,
    tables: &[RangeTable],
    number: usize,
    id: u32,
    ahead: Ahead,
    terms: &[Term],
    most: u64,
    first: &mut Contenders<Entry<Window>>,
    squares: &mut Steps<L>,
    blocks: &mut Steps<B>,
    spent: &mut Spent,
) -> Result<Passed, SegFault>
    requires rule { Computes F.pre F.post rule.now.kind rule.now.f }
    requires id { id < length (P.documents part.old) }
    requires marks { length marks.now ≡ length (P.documents part.old) }
    requires shown { is_range (network_tree network.now).range ≡ true }
    requires plugs { All (HasPrior (length plugs.old)) (network_tree network.now).leaves }
    ensures keeps { Keeps P.documents P.faults P.sound P.intact P.calm part.old part.new }
    ensures work { P.sound part.old → (before : List Document) (count : ℕ) →
        let s = sought rule.now.kind (map (λ plug. meaning plug) plugs.old) (map filter_tree filters.now) (network_tree network.now) tables.now count in let m = stretch number before (P.documents part.old) marks.now in
        IsKnownIn s m id ahead → PassesIn s (length terms.now) m id ahead first.old first.new (tally (P.present part.old) squares.old blocks.old) (tally (P.present part.new) squares.new blocks.new) result }
    ensures windows { OnOk result (KeepsWindows (network_tree network.now) (unmarked (P.documents part.old) marks.now) first.old first.new) }
    ensures passed { IfOk result (IsPassed marks.now id most) }
    ensures forward { IfOk result (λ to. 0 < most → id < to.id) }
    ensures squared { OnOk result (RiseAlike squares.old squares.new spent.old.squared spent.new.squared) }
    ensures counted { OnOk result (RiseAlike blocks.old blocks.new spent.old.opened spent.new.opened) }
    ensures stay { map (λ plug. meaning plug) plugs.new ≡ map (λ plug. meaning plug) plugs.old }
    ensures honest { P.intact part.old → IfErr result IsOutside }
    ensures undamaged { OnOk result (P.damage part.new ≡ P.damage part.old) }
    ensures damaged { IfErr result (TellsDamage (P.damage part.old) (P.damage part.new)) }
    ensures store { result ≡ Err SegFault.Store → Rose (P.faults part.old) (P.faults part.new) }
    ensures blocks { OpensIn (length terms.now) (length marks.now) id (P.present part.old) (P.present part.new) blocks.old blocks.new (length terms.now) result }
    ensures each { IfOk result (λ to. 0 < most → blocks.new ≤ blocks.old + length terms.now * to.docs) }
{
    let found = ahead_of(filters, network, part, id, ahead);
    if found.is_clear() || is_absent(tables, number, id / 64) {
        return Ok(pass_unseen(marks, found, id, most));
    }
    if marks.is_marked(id) {
        return Ok(pass_dead(marks, found, id));
    }
    let squared = &mut spent.squared;
    let known = bounded(
        alloc, network, rule, plugs, part, tables, number, id, found, first, squares, squared,
    )?;
    if is_beaten(first, known.bound) {
        count_more(&mut spent.passed, u64::from(found.bound.is_none()));
        return Ok(pass_unseen(marks, known, id, most));
    }
    pass_opened(
        alloc, filters, network, rule, plugs, part, marks, tables, number, id, known, terms, most,
        first, squares, blocks, spent,
    )
}

/// Passes the documents of a part from an id on, at most so many live ones.
pub fn pass_part<P: OpensRanges, F: Fn(u32, u32, u64, u64) -> Fraction, L: Ledger, B: Ledger>(
    alloc: Global,
    filters: &[Filter],
    network: &Network,
    rule: &Rule<F>,
    plugs: &mut [Box<dyn BeliefNode>],
    part: &mut P,
    marks: &DelList,
    tables: &[RangeTable],
    number: usize,
    id: u32,
    ahead: Ahead,
    terms: &[Term],
    most: u64,
    first: &mut Contenders<Entry<Window>>,
    squares: &mut Steps<L>,
    blocks: &mut Steps<B>,
    spent: &mut Spent,
) -> Result<Passed, SegFault>
    requires rule { Computes F.pre F.post rule.now.kind rule.now.f }
    requires id { id ≤ length (P.documents part.old) }
    requires marks { length marks.now ≡ length (P.documents part.old) }
    requires shown { is_range (network_tree network.now).range ≡ true }
    requires plugs { All (HasPrior (length plugs.old)) (network_tree network.now).leaves }
    ensures keeps { Keeps P.documents P.faults P.sound P.intact P.calm part.old part.new }
    ensures work { P.sound part.old → (before : List Document) (count : ℕ) →
        let s = sought rule.now.kind (map (λ plug. meaning plug) plugs.old) (map filter_tree filters.now) (network_tree network.now) tables.now count in let m = stretch number before (P.documents part.old) marks.now in
        IsKnownIn s m id ahead → PassesIn s (length terms.now) m id ahead first.old first.new (tally (P.present part.old) squares.old blocks.old) (tally (P.present part.new) squares.new blocks.new) result }
    ensures windows { OnOk result (KeepsWindows (network_tree network.now) (unmarked (P.documents part.old) marks.now) first.old first.new) }
    ensures passed { IfOk result (IsPassed marks.now id most) }
    ensures end { IfOk result (λ to. to.docs < most → to.id ≡ length marks.now) }
    ensures squared { OnOk result (RiseAlike squares.old squares.new spent.old.squared spent.new.squared) }
    ensures counted { OnOk result (RiseAlike blocks.old blocks.new spent.old.opened spent.new.opened) }
    ensures stay { map (λ plug. meaning plug) plugs.new ≡ map (λ plug. meaning plug) plugs.old }
    ensures honest { P.intact part.old → IfErr result IsOutside }
    ensures undamaged { OnOk result (P.damage part.new ≡ P.damage part.old) }
    ensures damaged { IfErr result (TellsDamage (P.damage part.old) (P.damage part.new)) }
    ensures store { result ≡ Err SegFault.Store → Rose (P.faults part.old) (P.faults part.new) }
    ensures blocks { OpensIn (length terms.now) (length marks.now) id (P.present part.old) (P.present part.new) blocks.old blocks.new (length terms.now * most) result }
    ensures each { IfOk result (λ to. blocks.new ≤ blocks.old + length terms.now * to.docs) }
{
    let size = part.docs();
    let mut at = id;
    let mut docs = 0;
    let mut known = ahead;
    while at < size && docs < most {
        let left = most - docs;
        let to = pass_on(
            alloc, filters, network, rule, plugs, part, marks, tables, number, at, known, terms,
            left, first, squares, blocks, spent,
        )?;
        docs += to.docs;
        at = to.id;
        known = to.ahead;
    }
    Ok(Passed {
        id: at,
        docs,
        ahead: known,
    })
}
