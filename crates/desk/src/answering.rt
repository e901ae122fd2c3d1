// The answer of a query over the documents of a snapshot.
ghost use Rattle.std.specs.Prelude.{◌≡◌, ◌≤◌, [], List, Option, Some, true, length, map, Err, IfErr, IfOk, OnOk};
ghost use Rattle.std.specs.Option.{option_map};
ghost use Rattle.ri_base.specs.Faults.{IsOutside, TellsDamage};
ghost use Rattle.ri_base.specs.Keeps.{Rose};
ghost use Rattle.store_ends.specs.Files.{Files, IsQuiet};
ghost use Rattle.command_words.specs.Asked.{told_labels};
ghost use Rattle.command_words.specs.declared.words.TheConstants.{MAX_RESULTS};
ghost use Rattle.smoothing.specs.declared.rule.RuleKind.{RuleKind};
ghost use Rattle.query_check.specs.Answers.{whole_checked};
ghost use Rattle.belief_nodes.specs.Network.{network_tree};
ghost use Rattle.belief_nodes.specs.Priors.{Prior};
ghost use Rattle.disk_index.specs.Cache.{IsCacheBacked};
ghost use Rattle.disk_index.specs.Snapshots.{AreBacked, AreIntact, IsFileAmong};
ghost use Rattle.disk_index.specs.Snapshots as snapshots;
ghost use Rattle.document_scoring.specs.Counts.{stats_of};
ghost use Rattle.counts.specs.Reading.{OnlyReads};
ghost use Rattle.ranker.specs.Searches.{IsTaken, searched};
ghost use Rattle.desk.specs.Answer.{IsAnswerText, IsRule};
ghost use Rattle.desk.specs.Searching.{HasNetwork, IsShowable, wanted};
ghost use Rattle.desk.specs.Shown.{explanation, results, told_shown};

use crate::explained::{explain_hit, hit_of_rank};
use crate::laws::ranking_is_true;
use crate::leaves::all_stats;
use crate::results::result_lines;
use crate::search::{results_of, search_all};
use crate::shown::Shown;
use belief_nodes::BeliefNode;
use counts::Counts;
use disk_index::{BlockCache, Snapshot};
use query_check::Checked;
use ranked_output::explain_lines;
use ranker::Search;
use ri_base::{Name, NoMemory, SegFault};
use smoothing::RuleKind;
use std::alloc::Global;
use std::num::NonZeroUsize;
use store_ends::Store;

/// How many sums of leaves are kept.
const COUNT_SLOTS: usize = 256;

/// How many results are searched for.
fn wanted(shown: &Shown) -> u32
    ensures { result ≡ wanted (told_shown shown.now) }
{
    match shown {
        Shown::Results { count, .. } => *count,
        Shown::Explanation { rank } => *rank,
    }
}

/// The lines of the results of a search.
fn results_text(
    alloc: Global,
    labels: &Option<(String, String)>,
    search: &Search,
) -> Result<Vec<u8>, NoMemory>
    requires usable { search.now.usable ≡ true }
    requires all { (told : Option Files) → search.now.at.credit ≡ length (searched told search.now) }
    requires network { HasNetwork search.now }
    requires most { search.now.most ≤ MAX_RESULTS }
    ensures { (kind : RuleKind) (priors : List Prior) (told : Option Files) → IsTaken kind priors told search.now
        → (network_tree search.now.network).stats ≡ map (stats_of (searched told search.now)) (whole_checked search.now.checked).leaves
        → IfOk result (λ text. IsAnswerText kind priors [] (results search.now.most (told_labels labels.now)) (whole_checked search.now.checked) (searched told search.now) (Some text.items)) }
{
    ranking_is_true();
    result_lines(alloc, labels, search.checked().scale, results_of(search))
}

/// What explains the result of that rank of a search, or none where there are fewer results.
fn explanation<T: Store>(
    alloc: Global,
    names: &[Name],
    rank: u32,
    search: &Search,
    store: &mut T,
    cache: &mut BlockCache,
) -> Result<Option<Vec<u8>>, SegFault>
    requires usable { search.now.usable ≡ true }
    requires all { (told : Option Files) → search.now.at.credit ≡ length (searched told search.now) }
    requires network { HasNetwork search.now }
    requires rank { 1 ≤ rank }
    requires most { search.now.most ≡ rank }
    ensures exact { (kind : RuleKind) (priors : List Prior) → AreBacked (T.files store.old) search.now.snapshot → IsCacheBacked (T.files store.old) cache.old
        → IsTaken kind priors (T.files store.old) search.now
        → (network_tree search.now.network).stats ≡ map (stats_of (searched (T.files store.old) search.now)) (whole_checked search.now.checked).leaves
        → IfOk result (λ text. IsAnswerText kind priors names.now (explanation rank) (whole_checked search.now.checked) (searched (T.files store.old) search.now) (option_map (λ t. t.items) text)) }
    ensures honest { AreIntact (T.files store.old) search.now.snapshot → IsCacheBacked (T.files store.old) cache.old → IfErr result IsOutside }
    ensures undamaged { OnOk result (cache.new.damage ≡ cache.old.damage) }
    ensures damaged { IfErr result (TellsDamage cache.old.damage cache.new.damage) }
    ensures reads { OnlyReads T.files T.layers T.clock T.since T.longest T.held T.faults (IsFileAmong search.now.snapshot) store.old store.new cache.old cache.new }
    ensures store { result ≡ Err SegFault.Store → Rose (T.faults store.old) (T.faults store.new) }
{
    let Some(hit) = hit_of_rank(alloc, results_of(search), rank)? else {
        return Ok(None);
    };
    let parts = search.snapshot().parts();
    let explained = explain_hit(
        alloc,
        names,
        search.checked(),
        search.stats(),
        parts,
        rank,
        hit,
        store,
        cache,
    )?;
    let text = explain_lines(alloc, &explained)?;
    Ok(Some(text.into_vec()))
}

/// What is shown of the results of a search.
fn show<T: Store>(
    alloc: Global,
    shown: &Shown,
    names: &[Name],
    search: &Search,
    store: &mut T,
    cache: &mut BlockCache,
) -> Result<Option<Vec<u8>>, SegFault>
    requires usable { search.now.usable ≡ true }
    requires all { (told : Option Files) → search.now.at.credit ≡ length (searched told search.now) }
    requires network { HasNetwork search.now }
    requires shown { IsShowable (told_shown shown.now) }
    requires most { search.now.most ≡ wanted (told_shown shown.now) }
    ensures exact { (kind : RuleKind) (priors : List Prior) → AreBacked (T.files store.old) search.now.snapshot → IsCacheBacked (T.files store.old) cache.old
        → IsTaken kind priors (T.files store.old) search.now
        → (network_tree search.now.network).stats ≡ map (stats_of (searched (T.files store.old) search.now)) (whole_checked search.now.checked).leaves
        → IfOk result (λ text. IsAnswerText kind priors names.now (told_shown shown.now) (whole_checked search.now.checked) (searched (T.files store.old) search.now) (option_map (λ t. t.items) text)) }
    ensures honest { AreIntact (T.files store.old) search.now.snapshot → IsCacheBacked (T.files store.old) cache.old → IfErr result IsOutside }
    ensures undamaged { OnOk result (cache.new.damage ≡ cache.old.damage) }
    ensures damaged { IfErr result (TellsDamage cache.old.damage cache.new.damage) }
    ensures reads { OnlyReads T.files T.layers T.clock T.since T.longest T.held T.faults (IsFileAmong search.now.snapshot) store.old store.new cache.old cache.new }
    ensures store { result ≡ Err SegFault.Store → Rose (T.faults store.old) (T.faults store.new) }
{
    match shown {
        Shown::Results { labels, .. } => Ok(Some(results_text(alloc, labels, search)?)),
        Shown::Explanation { rank } => explanation(alloc, names, *rank, search, store, cache),
    }
}

/// The text of what is shown of a ranking of the documents of a snapshot, or none where a rank is above the number of results.
/// The names are those of the priors, which the plugs tell by their numbers.
pub fn answer<T: Store>(
    alloc: Global,
    kind: RuleKind,
    shown: &Shown,
    checked: Checked,
    names: &[Name],
    plugs: &mut [Box<dyn BeliefNode>],
    snapshot: Snapshot,
    generation: u64,
    store: &mut T,
    cache: &mut BlockCache,
) -> Result<Option<Vec<u8>>, SegFault>
    requires rule { IsRule kind }
    requires shown { IsShowable (told_shown shown.now) }
    requires nine { length plugs.old ≡ 9 }
    ensures exact { AreBacked (T.files store.old) snapshot → IsCacheBacked (T.files store.old) cache.old
        → IfOk result (λ text. IsAnswerText kind (map (λ plug. meaning plug) plugs.old) names.now (told_shown shown.now) (whole_checked checked) (snapshots.live (T.files store.old) snapshot) (option_map (λ t. t.items) text)) }
    ensures honest { AreIntact (T.files store.old) snapshot → IsCacheBacked (T.files store.old) cache.old → IfErr result IsOutside }
    ensures undamaged { OnOk result (cache.new.damage ≡ cache.old.damage) }
    ensures damaged { IfErr result (TellsDamage cache.old.damage cache.new.damage) }
    ensures stay { map (λ plug. meaning plug) plugs.new ≡ map (λ plug. meaning plug) plugs.old }
    ensures quiet { IsQuiet T.files T.layers T.clock T.since T.longest T.held store.old store.new }
    ensures later { T.faults store.old ≤ T.faults store.new }
    ensures store { result ≡ Err SegFault.Store → Rose (T.faults store.old) (T.faults store.new) }
{
    let mut counts = Counts::new(alloc, slots(COUNT_SLOTS))?;
    let stats = all_stats(
        alloc,
        &checked.leaves,
        &snapshot,
        generation,
        &mut counts,
        store,
        cache,
    )?;
    let most = wanted(shown);
    let search = search_all(
        alloc, kind, checked, &stats, plugs, snapshot, most, store, cache,
    )?;
    show(alloc, shown, names, &search, store, cache)
}

/// So many slots of a cache, and one where there is to be none.
fn slots(count: usize) -> NonZeroUsize {
    NonZeroUsize::new(count).unwrap_or(NonZeroUsize::MIN)
}
