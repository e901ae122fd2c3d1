// Ranges whose candidates can't be among the first.
ghost use Rattle.std.specs.Prelude.{ℕ, ◌≡◌, ◌≤◌, ◌<◌, ◌+◌, ◌*◌, ◌/◌, ◌++◌, ◌⊎◌, true, false, is_some, List, None, Some, All, Contains, length, map, IfErr, IfOk, IfSome, OnOk};
ghost use Rattle.ri_base.specs.Documents.{Document};
ghost use Rattle.ri_base.specs.Query.{FilterTree};
ghost use Rattle.smoothing.specs.Fractions.{Computes};
ghost use Rattle.belief_nodes.specs.Leaves.{HasPrior};
ghost use Rattle.belief_nodes.specs.Network.{NetworkTree, network_tree};
ghost use Rattle.bounded_keys.specs.Kept.{is_beaten_by};
ghost use Rattle.range_bounds.specs.Ranges.{range_documents};
ghost use Rattle.range_bounds.specs.Tables.{AreAbsent, IsTableOf, has_counts};
ghost use Rattle.ranker.specs.First.{WereOffered, early_cost};
ghost use Rattle.ranker.specs.Least.{AreFrom};
ghost use Rattle.ranker.specs.Passed.{IsKnown, IsTold, is_clear};
ghost use Rattle.ranker.specs.RangeKeys.{has_table, is_told, range_key};
ghost use Rattle.ranker.specs.Spent.{RiseAlike};

use crate::keys::NetworkKeys;
use crate::place::Ahead;
use crate::spent::count_early;
use crate::window::Window;
use belief_nodes::{BeliefNode, Network};
use bounded_keys::{Contenders, Entry, leading_key};
use range_bounds::RangeTable;
use ri_base::{Fraction, NoMemory, Postings, Steps};
use smoothing::Rule;
use std::alloc::Global;
use std::sync::ledger::Ledger;

/// A number that the keys at the first level of the candidates of a range aren't below.
fn least_key<F: Fn(u32, u32, u64, u64) -> Fraction, L: Ledger>(
    alloc: Global,
    network: &Network,
    rule: &Rule<F>,
    plugs: &[Box<dyn BeliefNode>],
    table: &RangeTable,
    range: u32,
    squares: &mut Steps<L>,
) -> Result<u128, NoMemory>
    requires rule { Computes F.pre F.post rule.now.kind rule.now.f }
    requires plugs { All (HasPrior (length plugs.now)) (network_tree network.now).leaves }
    requires range { has_counts table.now range ≡ true }
    ensures least { (docs : List Document) (d : Document) → IsTableOf (network_tree network.now).leaves docs table.now → Contains (range_documents docs range) d
        → IfOk result (λ least. AreFrom rule.now.kind (map (λ plug. meaning plug) plugs.now) (network_tree network.now) least d) }
    ensures key { (docs : List Document) → IsTableOf (network_tree network.now).leaves docs table.now → IfOk result (λ least. least ≡ range_key rule.now.kind (map (λ plug. meaning plug) plugs.now) (network_tree network.now) docs range) }
    ensures cost { squares.new ≤ squares.old + early_cost (network_tree network.now) 1 }
    ensures exact { OnOk result (squares.new ≡ squares.old + early_cost (network_tree network.now) 1) }
{
    let bounds = table.bound_fractions(alloc, network, rule, range, plugs)?;
    leading_key(alloc, &NetworkKeys { network }, bounds.as_slice(), squares)
}

/// The same of a range of a part, where its table has it.
fn bound_of<F: Fn(u32, u32, u64, u64) -> Fraction, L: Ledger>(
    alloc: Global,
    network: &Network,
    rule: &Rule<F>,
    plugs: &[Box<dyn BeliefNode>],
    tables: &[RangeTable],
    number: usize,
    range: u32,
    squares: &mut Steps<L>,
    squared: &mut u64,
) -> Result<Option<u128>, NoMemory>
    requires rule { Computes F.pre F.post rule.now.kind rule.now.f }
    requires plugs { All (HasPrior (length plugs.now)) (network_tree network.now).leaves }
    ensures bound { (docs : List Document) (d : Document) → IsTold (network_tree network.now) tables.now number docs → Contains (range_documents docs range) d
        → IfOk result (λ bound. IfSome bound (λ least. AreFrom rule.now.kind (map (λ plug. meaning plug) plugs.now) (network_tree network.now) least d)) }
    ensures key { (docs : List Document) → IsTold (network_tree network.now) tables.now number docs
        → IfOk result (λ bound. IfSome bound (λ least. least ≡ range_key rule.now.kind (map (λ plug. meaning plug) plugs.now) (network_tree network.now) docs range)) }
    ensures told { IfOk result (λ bound. bound ≡ None → is_told tables.now number range ≡ false) }
    ensures none { IfOk result (λ bound. bound ≡ None → squares.new ≡ squares.old) }
    ensures cost { squares.new ≤ squares.old + early_cost (network_tree network.now) 1 }
    ensures squared { OnOk result (RiseAlike squares.old squares.new squared.old squared.new) }
{
    if number >= tables.len() {
        return Ok(None);
    }
    let table = &tables[number];
    if !table.has(range) {
        return Ok(None);
    }
    let least = least_key(alloc, network, rule, plugs, table, range, squares)?;
    count_early(network, 1, squared);
    Ok(Some(least))
}

/// Whether the table of the part tells that no leaf has an extent in a range: it has no counts of the range.
pub fn is_absent(tables: &[RangeTable], number: usize, range: u32) -> bool
    ensures absent { result ≡ true → (network : NetworkTree) (docs : List Document) → 64 * range < length docs → IsTold network tables.now number docs → AreAbsent network.leaves (range_documents docs range) }
    ensures told { result ≡ false → is_told tables.now number range ≡ false → has_table tables.now number ≡ false }
{
    if number >= tables.len() {
        return false;
    }
    !tables[number].has(range)
}

/// What is known from an id of a range on, with the bound of the range, where the table of the part tells it. It is asked for once, and
/// not before so many candidates are held that some number is beaten.
pub fn bounded<P: Postings, F: Fn(u32, u32, u64, u64) -> Fraction, L: Ledger>(
    alloc: Global,
    network: &Network,
    rule: &Rule<F>,
    plugs: &[Box<dyn BeliefNode>],
    part: &P,
    tables: &[RangeTable],
    number: usize,
    id: u32,
    ahead: Ahead,
    first: &Contenders<Entry<Window>>,
    squares: &mut Steps<L>,
    squared: &mut u64,
) -> Result<Ahead, NoMemory>
    requires rule { Computes F.pre F.post rule.now.kind rule.now.f }
    requires plugs { All (HasPrior (length plugs.now)) (network_tree network.now).leaves }
    requires some { id < ahead.end }
    requires open { is_clear ahead.mask ≡ false }
    ensures known { (filters : List FilterTree) → IsKnown rule.now.kind (map (λ plug. meaning plug) plugs.now) filters (network_tree network.now) tables.now number (P.documents part.now) id ahead
        → IfOk result (IsKnown rule.now.kind (map (λ plug. meaning plug) plugs.now) filters (network_tree network.now) tables.now number (P.documents part.now) id) }
    ensures end { IfOk result (λ to. to.end ≡ ahead.end) }
    ensures mask { IfOk result (λ to. to.mask ≡ ahead.mask) }
    ensures asked { IfOk result (λ to. ((to.bound ≡ ahead.bound) × (squares.new ≡ squares.old)) ⊎ ((ahead.bound ≡ None) × (is_some to.bound ≡ true))) }
    ensures unbound { IfOk result (λ to. to.bound ≡ None → (is_told tables.now number (id / 64) ≡ false) ⊎ ((all : List (Entry Window)) → WereOffered all first.now → (n : ℕ) → is_beaten_by (λ x. x.leading) first.now.scale first.now.most all n ≡ false)) }
    ensures unasked { IfErr result (λ e. ahead.bound ≡ None) }
    ensures cost { squares.new ≤ squares.old + early_cost (network_tree network.now) 1 }
    ensures squared { OnOk result (RiseAlike squares.old squares.new squared.old squared.new) }
{
    if ahead.bound.is_some() || !first.beats_some() {
        return Ok(ahead);
    }
    let range = id / 64;
    let bound = bound_of(
        alloc, network, rule, plugs, tables, number, range, squares, squared,
    )?;
    Ok(Ahead { bound, ..ahead })
}

/// Whether candidates whose keys at the first level aren't below a number can't be among the first.
pub fn is_beaten(first: &Contenders<Entry<Window>>, bound: Option<u128>) -> bool
    ensures beaten { result ≡ true → (least : ℕ) × (bound ≡ Some least)
        × ((all more : List (Entry Window)) → WereOffered all first.now → All (λ x. least ≤ x.leading) more → WereOffered (more ++ all) first.now) }
    ensures unbeaten { result ≡ false → IfSome bound (λ least. (all : List (Entry Window)) → WereOffered all first.now → is_beaten_by (λ x. x.leading) first.now.scale first.now.most all least ≡ false) }
{
    match bound {
        Some(least) => first.is_beaten(least),
        None => false,
    }
}
