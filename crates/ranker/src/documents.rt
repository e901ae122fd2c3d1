// Documents of a part, one by one.
ghost use Rattle.std.specs.Prelude.{◌≡◌, ◌<◌, ◌≤◌, ◌+◌, ◌++◌, ◌∷◌, [], ℕ, true, false, List, length, map, take, All, Err, IfErr, IfOk, OnOk};
ghost use Rattle.ri_base.specs.Collection.{document_at};
ghost use Rattle.ri_base.specs.Documents.{Document};
ghost use Rattle.ri_base.specs.Faults.{IsOutside, TellsDamage};
ghost use Rattle.ri_base.specs.Keeps.{Keeps, Rose};
ghost use Rattle.ri_base.specs.Query.{filter_tree, is_range};
ghost use Rattle.smoothing.specs.Fractions.{Computes};
ghost use Rattle.belief_nodes.specs.Leaves.{HasPrior};
ghost use Rattle.belief_nodes.specs.Network.{network_tree};
ghost use Rattle.disk_index.specs.Snapshots.{unmarked};
ghost use Rattle.range_masks.specs.May.{query_may};
ghost use Rattle.document_scoring.specs.Candidates.{candidates};
ghost use Rattle.ranker.specs.First.{Advances, HoldsFirst, SpendsWithin, counted, early_cost};
ghost use Rattle.ranker.specs.Passed.{live_ids};
ghost use Rattle.ranker.specs.Spent.{RiseAlike};
ghost use Rattle.ranker.specs.Windows.{KeepsWindows};

use crate::entries::offer_rows;
use crate::spent::count_early;
use crate::window::Window;
use belief_nodes::{BeliefNode, Network};
use bounded_keys::{Contenders, Entry};
use deletion_list::DelList;
use document_scoring::score_document;
use ri_base::{Filter, Fraction, Postings, SegFault, Steps};
use smoothing::Rule;
use std::alloc::Global;
use std::sync::ledger::Ledger;

/// Offers the candidates of a document.
fn offer_document<P: Postings, F: Fn(u32, u32, u64, u64) -> Fraction, L: Ledger>(
    alloc: Global,
    filters: &[Filter],
    network: &Network,
    rule: &Rule<F>,
    plugs: &mut [Box<dyn BeliefNode>],
    part: &mut P,
    id: u32,
    first: &mut Contenders<Entry<Window>>,
    squares: &mut Steps<L>,
    squared: &mut u64,
) -> Result<(), SegFault>
    requires rule { Computes F.pre F.post rule.now.kind rule.now.f }
    requires id { id < length (P.documents part.old) }
    requires shown { is_range (network_tree network.now).range ≡ true }
    requires plugs { All (HasPrior (length plugs.old)) (network_tree network.now).leaves }
    ensures keeps { Keeps P.documents P.faults P.sound P.intact P.quiet part.old part.new }
    ensures first { P.sound part.old → OnOk result ((docs : List Document) (most : ℕ)
        → HoldsFirst rule.now.kind (map (λ plug. meaning plug) plugs.old) (map filter_tree filters.now) (network_tree network.now) docs most first.old
        → HoldsFirst rule.now.kind (map (λ plug. meaning plug) plugs.old) (map filter_tree filters.now) (network_tree network.now) (docs ++ document_at (P.documents part.old) id ∷ []) most first.new) }
    ensures windows { OnOk result (KeepsWindows (network_tree network.now) (document_at (P.documents part.old) id ∷ []) first.old first.new) }
    ensures cost { P.sound part.old → squares.new ≤ squares.old + early_cost (network_tree network.now) (length (candidates rule.now.kind (map (λ plug. meaning plug) plugs.old) (map filter_tree filters.now) (network_tree network.now) (document_at (P.documents part.old) id ∷ []))) }
    ensures squared { OnOk result (RiseAlike squares.old squares.new squared.old squared.new) }
    ensures stay { map (λ plug. meaning plug) plugs.new ≡ map (λ plug. meaning plug) plugs.old }
    ensures honest { P.intact part.old → IfErr result IsOutside }
    ensures undamaged { OnOk result (P.damage part.new ≡ P.damage part.old) }
    ensures damaged { IfErr result (TellsDamage (P.damage part.old) (P.damage part.new)) }
    ensures store { result ≡ Err SegFault.Store → Rose (P.faults part.old) (P.faults part.new) }
{
    let mut rows = Vec::new(alloc);
    score_document(alloc, filters, network, rule, plugs, part, id, &mut rows)?;
    let count = rows.len();
    offer_rows(alloc, network, rows, first, squares)?;
    count_early(network, count, squared);
    Ok(())
}

/// Passes a document of a part with these marks, and answers how many live ones it is: one or none. It is looked at where it is live
/// and may have candidates.
pub fn pass_document<P: Postings, F: Fn(u32, u32, u64, u64) -> Fraction, L: Ledger>(
    alloc: Global,
    filters: &[Filter],
    network: &Network,
    rule: &Rule<F>,
    plugs: &mut [Box<dyn BeliefNode>],
    part: &mut P,
    marks: &DelList,
    may_have: bool,
    id: u32,
    first: &mut Contenders<Entry<Window>>,
    squares: &mut Steps<L>,
    squared: &mut u64,
) -> Result<u64, SegFault>
    requires rule { Computes F.pre F.post rule.now.kind rule.now.f }
    requires id { id < length (P.documents part.old) }
    requires marks { length marks.now ≡ length (P.documents part.old) }
    requires shown { is_range (network_tree network.now).range ≡ true }
    requires plugs { All (HasPrior (length plugs.old)) (network_tree network.now).leaves }
    ensures keeps { Keeps P.documents P.faults P.sound P.intact P.quiet part.old part.new }
    ensures first { P.sound part.old
        → (may_have ≡ false → query_may (map filter_tree filters.now) (network_tree network.now).leaves (document_at (P.documents part.old) id) ≡ false)
        → OnOk result (Advances rule.now.kind (map (λ plug. meaning plug) plugs.old) (map filter_tree filters.now) (network_tree network.now) (unmarked (take id (P.documents part.old)) marks.now) (unmarked (take (id + 1) (P.documents part.old)) marks.now) (counted first.old squares.old 0) (counted first.new squares.new 0)) }
    ensures windows { OnOk result (KeepsWindows (network_tree network.now) (unmarked (P.documents part.old) marks.now) first.old first.new) }
    ensures within { P.sound part.old
        → (may_have ≡ false → query_may (map filter_tree filters.now) (network_tree network.now).leaves (document_at (P.documents part.old) id) ≡ false)
        → SpendsWithin rule.now.kind (map (λ plug. meaning plug) plugs.old) (map filter_tree filters.now) (network_tree network.now) (unmarked (take id (P.documents part.old)) marks.now) (unmarked (take (id + 1) (P.documents part.old)) marks.now) 0 0 squares.old squares.new }
    ensures docs { IfOk result (λ docs. live_ids marks.now (id + 1) ≡ live_ids marks.now id + docs) }
    ensures one { IfOk result (λ docs. docs ≤ 1) }
    ensures squared { OnOk result (RiseAlike squares.old squares.new squared.old squared.new) }
    ensures stay { map (λ plug. meaning plug) plugs.new ≡ map (λ plug. meaning plug) plugs.old }
    ensures honest { P.intact part.old → IfErr result IsOutside }
    ensures undamaged { OnOk result (P.damage part.new ≡ P.damage part.old) }
    ensures damaged { IfErr result (TellsDamage (P.damage part.old) (P.damage part.new)) }
    ensures store { result ≡ Err SegFault.Store → Rose (P.faults part.old) (P.faults part.new) }
{
    if marks.is_marked(id) {
        return Ok(0);
    }
    if !may_have {
        return Ok(1);
    }
    offer_document(
        alloc, filters, network, rule, plugs, part, id, first, squares, squared,
    )?;
    Ok(1)
}
