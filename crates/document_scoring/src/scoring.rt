// The windows of a document as candidates.
ghost use Rattle.std.specs.Prelude.{◌≡◌, ◌<◌, ◌≤◌, true, length, map, [], ◌∷◌, All, Err, IfErr, IfOk, OnOk};
ghost use Rattle.ri_base.specs.Collection.{document_at};
ghost use Rattle.ri_base.specs.Documents.{AreFields};
ghost use Rattle.ri_base.specs.Faults.{IsOutside, TellsDamage};
ghost use Rattle.ri_base.specs.Keeps.{Keeps, Rose};
ghost use Rattle.ri_base.specs.Pair.{Pair};
ghost use Rattle.ri_base.specs.Query.{filter_tree, is_range};
ghost use Rattle.ri_base.specs.declared.limits.TheConstants.{MAX_DOC_TOKENS};
ghost use Rattle.smoothing.specs.Fractions.{Computes};
ghost use Rattle.belief_nodes.specs.Leaves.{HasPrior, IsLeafCount};
ghost use Rattle.belief_nodes.specs.Network.{network_tree};
ghost use Rattle.windows.specs.Windows.{windows};
ghost use Rattle.document_scoring.specs.Counters.{IsFound, IsReady, counter_count, found_count};
ghost use Rattle.document_scoring.specs.Rows.{Adds, AddsRows, AddsWindows, row_candidate, window_candidate};
ghost use Rattle.document_scoring.specs.Told.{IsDocumentTold};

use crate::counters::{Counter, count_all, counters_of};
use crate::counts::some_occurs;
use crate::filters::all_pass;
use crate::found::{LeafExtents, all_found};
use belief_nodes::{BeliefNode, LeafCount, Network};
use ri_base::{
    Docno, Extent, FieldSpan, Filter, Fraction, Fractions, NoMemory, Postings, SegFault,
};
use smoothing::Rule;
use std::alloc::Global;
use windows::Contexts;

/// A candidate: a window of a document, with the beliefs of the query's leaves in it.
#[derive(Debug, Drop)]
pub struct Row {
    pub docno: Docno,
    pub begin: u32,
    pub end: u32,
    pub fractions: Fractions,
}

/// A window with the beliefs of these counts, in a document of this docno and so many tokens.
fn scored<F: Fn(u32, u32, u64, u64) -> Fraction>(
    alloc: Global,
    network: &Network,
    rule: &Rule<F>,
    plugs: &mut [Box<dyn BeliefNode>],
    docno: &Docno,
    tokens: u32,
    counts: &[LeafCount],
    window: Extent,
) -> Result<Row, NoMemory>
    requires rule { Computes F.pre F.post rule.now.kind rule.now.f }
    requires plugs { All (HasPrior (length plugs.old)) (network_tree network.now).leaves }
    requires each { length counts.now ≡ length (network_tree network.now).leaves }
    requires counts { All (λ n. IsLeafCount n) counts.now }
    ensures row { IfOk result (λ row. row_candidate row
        ≡ window_candidate rule.now.kind (map (λ plug. meaning plug) plugs.old) (network_tree network.now) docno.now tokens counts.now window) }
    ensures stay { map (λ plug. meaning plug) plugs.new ≡ map (λ plug. meaning plug) plugs.old }
{
    let docno = docno.clone_in(alloc)?;
    let fractions = network.fractions(alloc, rule, counts, &docno, tokens, plugs)?;
    Ok(Row {
        docno,
        begin: window.begin(),
        end: window.end(),
        fractions,
    })
}

/// Adds the candidate of one window, where some leaf occurs in it. No window may begin before an earlier one.
fn score_window<F: Fn(u32, u32, u64, u64) -> Fraction>(
    alloc: Global,
    network: &Network,
    rule: &Rule<F>,
    plugs: &mut [Box<dyn BeliefNode>],
    docno: &Docno,
    tokens: u32,
    counters: &mut [Counter<'_>],
    window: Extent,
    rows: &mut Vec<Row>,
) -> Result<(), NoMemory>
    requires rule { Computes F.pre F.post rule.now.kind rule.now.f }
    requires plugs { All (HasPrior (length plugs.old)) (network_tree network.now).leaves }
    requires each { length counters.old ≡ length (network_tree network.now).leaves }
    requires ready { All (IsReady window.begin) counters.old }
    requires within { window.end ≤ MAX_DOC_TOKENS }
    ensures adds { OnOk result
        (AddsWindows rule.now.kind (map (λ plug. meaning plug) plugs.old) (network_tree network.now) docno.now tokens (λ w. map (counter_count w) counters.old) (window ∷ []) rows.old.items rows.new.items) }
    ensures same { (w : Pair) → map (counter_count w) counters.new ≡ map (counter_count w) counters.old }
    ensures ready { All (IsReady window.begin) counters.new }
    ensures stay { map (λ plug. meaning plug) plugs.new ≡ map (λ plug. meaning plug) plugs.old }
{
    let counts = count_all(alloc, counters, window)?;
    if !some_occurs(&counts) {
        return Ok(());
    }
    let row = scored(alloc, network, rule, plugs, docno, tokens, &counts, window)?;
    rows.push(row)?;
    Ok(())
}

/// Adds the candidates of a document of this docno, so many tokens and these fields, by what is found of the leaves in it.
fn score_found<F: Fn(u32, u32, u64, u64) -> Fraction>(
    alloc: Global,
    network: &Network,
    rule: &Rule<F>,
    plugs: &mut [Box<dyn BeliefNode>],
    docno: &Docno,
    tokens: u32,
    spans: &[FieldSpan],
    found: &[LeafExtents<'_>],
    rows: &mut Vec<Row>,
) -> Result<(), NoMemory>
    requires rule { Computes F.pre F.post rule.now.kind rule.now.f }
    requires plugs { All (HasPrior (length plugs.old)) (network_tree network.now).leaves }
    requires range { is_range (network_tree network.now).range ≡ true }
    requires tokens { tokens ≤ MAX_DOC_TOKENS }
    requires fields { AreFields tokens spans.now }
    requires each { length found.now ≡ length (network_tree network.now).leaves }
    requires found { All (IsFound spans.now) found.now }
    ensures adds { OnOk result
        (AddsWindows rule.now.kind (map (λ plug. meaning plug) plugs.old) (network_tree network.now) docno.now tokens (λ w. map (found_count spans.now w) found.now) (windows (network_tree network.now).range tokens spans.now) rows.old.items rows.new.items) }
    ensures stay { map (λ plug. meaning plug) plugs.new ≡ map (λ plug. meaning plug) plugs.old }
{
    let mut all = counters_of(alloc, found, spans)?;
    let counters = all.as_mut_slice();
    for window in Contexts::new(network.range(), tokens, spans) {
        score_window(
            alloc, network, rule, plugs, docno, tokens, counters, window, rows,
        )?;
    }
    Ok(())
}

/// Adds the candidates of a document, with their beliefs: each window of the query's range in which some leaf
/// occurs, where the document passes all filters; a prior doesn't occur. Of a document that doesn't pass nothing is counted.
/// The extents of each leaf are looked up once, and the windows are counted one behind the other. `plugs` settle the
/// priors by their numbers.
pub fn score_document<P: Postings, F: Fn(u32, u32, u64, u64) -> Fraction>(
    alloc: Global,
    filters: &[Filter],
    network: &Network,
    rule: &Rule<F>,
    plugs: &mut [Box<dyn BeliefNode>],
    part: &mut P,
    id: u32,
    rows: &mut Vec<Row>,
) -> Result<(), SegFault>
    requires rule { Computes F.pre F.post rule.now.kind rule.now.f }
    requires id { id < length (P.documents part.old) }
    requires range { is_range (network_tree network.now).range ≡ true }
    requires plugs { All (HasPrior (length plugs.old)) (network_tree network.now).leaves }
    ensures keeps { Keeps P.documents P.faults P.sound P.intact P.quiet part.old part.new }
    ensures exact { P.sound part.old → OnOk result
        (Adds rule.now.kind (map (λ plug. meaning plug) plugs.old) (map filter_tree filters.now) (network_tree network.now) (document_at (P.documents part.old) id) rows.old.items rows.new.items) }

    // Also of a part that isn't sound, what is added are windows of that document.
    ensures shape { OnOk result (AddsRows (document_at (P.documents part.old) id) (length (network_tree network.now).leaves) rows.old.items rows.new.items) }

    // And no malformed block is passed by.
    ensures told { OnOk result (IsDocumentTold (λ t. P.told part.old t id) (map filter_tree filters.now) (network_tree network.now).leaves rows.old.items rows.new.items) }

    ensures stay { map (λ plug. meaning plug) plugs.new ≡ map (λ plug. meaning plug) plugs.old }
    ensures honest { P.intact part.old → IfErr result IsOutside }
    ensures undamaged { OnOk result (P.damage part.new ≡ P.damage part.old) }
    ensures damaged { IfErr result (TellsDamage (P.damage part.old) (P.damage part.new)) }
    ensures store { result ≡ Err SegFault.Store → Rose (P.faults part.old) (P.faults part.new) }
{
    if !all_pass(alloc, filters, part, id)? {
        return Ok(());
    }
    let found = all_found(alloc, network.leaves(), network.firsts(), part, id)?;
    score_found(
        alloc,
        network,
        rule,
        plugs,
        part.docno(id),
        part.length(id),
        part.spans(id),
        &found,
        rows,
    )?;
    Ok(())
}
