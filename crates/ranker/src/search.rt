// A search in steps.
ghost use Rattle.std.specs.Prelude.{◌≡◌, Option, true, length, nat_lt};
ghost use Rattle.std.proofs.Props.{props};
ghost use Rattle.ri_base.specs.Query.{is_range};
ghost use Rattle.store_ends.specs.Files.{Files};
ghost use Rattle.belief_nodes.specs.Network.{network_tree};
ghost use Rattle.disk_index.specs.Parts.{outlines_of};
ghost use Rattle.disk_index.specs.Snapshots.{live, AreIntact};
ghost use Rattle.range_masks.specs.Held.{FitDocuments};
ghost use Rattle.ranker.specs.Held.{HoldsEntries, is_open};
ghost use Rattle.ranker.specs.Passed.{IsBareTo, IsPlace, part_at};
ghost use Rattle.ranker.specs.Windows.{HasWindows};

use crate::advance::{advance, first_held};
use crate::bare::bare_to;
use crate::held::Held;
use crate::place::{Ahead, Place};
use crate::spent::Spent;
use crate::terms::query_terms;
use belief_nodes::{BeliefNode, Network};
use disk_index::{BlockCache, Snapshot};
use query_check::Checked;
use range_bounds::RangeTable;
use range_masks::RangeBlocks;
use ri_base::{Fraction, Hits, LeafStats, NoMemory, SegFault, Steps, Term, Terms};
use smoothing::Rule;
use std::alloc::Global;
use std::marker::Brand;
use std::sync::ledger::{Blank, Ledger};
use store_ends::Store;

/// A search for the first candidates of the documents of a snapshot. It advances by so many documents as it is asked for. Its credit
/// is how many live documents it has passed, of so many that there are. It knows up to which credit those that come next have nothing
/// to show. It keeps the blocks of the query's terms in the range that it opened last.
pub struct Search {
    snapshot: Snapshot,
    checked: Checked,
    network: Network,
    tables: Vec<RangeTable>,
    terms: Terms,
    blocks: RangeBlocks,
    most: usize,
    live_count: u64,
    at: Place,
    bare_to: u64,
    held: Held,
    spent: Spent,
    usable: bool,
    ghost shown: { is_range (network_tree network).range ≡ true },
    ghost fits: { FitDocuments (outlines_of (part_at snapshot at.part).source) blocks } by { Prim.hlevel props },
    ghost count: { (told : Option Files) → live_count ≡ length (live told snapshot) },
    ghost place: { IsPlace snapshot at },
    ghost next: { usable ≡ true → IsBareTo snapshot at live_count bare_to },
    ghost open: { usable ≡ true → (told : Option Files) → is_open held ≡ nat_lt at.credit (length (live told snapshot)) },
    ghost entries: { usable ≡ true → HoldsEntries (network_tree network) held },
    ghost windows: { usable ≡ true → (told : Option Files) → ∥ HasWindows (live told snapshot) (length (network_tree network).leaves) most held ∥₁ },
}

impl Drop for Search {
    fn drop(self) {
        let Search {
            snapshot,
            checked,
            network,
            tables,
            terms,
            blocks,
            held,
            most: _,
            live_count: _,
            at: _,
            bare_to: _,
            spent: _,
            usable: _,
        } = self;
        drop(snapshot);
        drop(checked);
        drop(network);
        drop(tables);
        drop(terms);
        drop(blocks);
        drop(held);
    }
}

impl Search {
    ghost use Rattle.std.specs.Prelude.{◌<◌, ◌≤◌, ◌+◌, ◌*◌, ◌==◌, map, min, is_ok, is_some, All, Err, IfErr, IfOk, IfSome, OnOk, ℕ, List};
    ghost use Rattle.ri_base.specs.Documents.{Document};
    ghost use Rattle.ri_base.specs.Faults.{IsOutside, TellsDamage};
    ghost use Rattle.ri_base.specs.Keeps.{Rose};
    ghost use Rattle.store_ends.specs.Files.{IsQuiet};
    ghost use Rattle.smoothing.specs.Fractions.{Computes};
    ghost use Rattle.smoothing.specs.declared.rule.RuleKind.{RuleKind};
    ghost use Rattle.belief_nodes.specs.Leaves.{AreLeafStats, HasPrior};
    ghost use Rattle.belief_nodes.specs.Network.{network_of};
    ghost use Rattle.belief_nodes.specs.Priors.{Prior};
    ghost use Rattle.disk_index.specs.Cache.{CacheKeeps, IsCacheBacked};
    ghost use Rattle.disk_index.specs.Snapshots.{AreBacked, IsFileAmong};
    ghost use Rattle.disk_index.specs.Parts.{reads};
    ghost use Rattle.expression_words.specs.Words.{AreDistinct};
    ghost use Rattle.range_masks.specs.Held.{AreAnswersOf};
    ghost use Rattle.ranker.specs.Blocks.{OpensWithin, query_words};
    ghost use Rattle.ranker.specs.Passed.{ranges_in};
    ghost use Rattle.ranker.specs.Searches.{AreTold, IsAnswerOf, IsSameSearch, IsTaken, MeetsAtMost, MeetsTo, SpendsAtMost, SpendsTo, StaysSpent, StaysTaken, StaysWithin, filters_of, opened_by, searched, told_by};
    ghost use Rattle.ranker.specs.Spent.{RiseAlike};
    ghost use Rattle.ranker.specs.Windows.{AreWindows};

    /// A search over the documents of a snapshot that has passed none yet, for at most so many results. The statistics are those of
    /// the query's leaves, in order of their numbers. There may be a table of the ranges of each part, by the numbers of the parts: ranges
    /// of a part that has one are passed without a look where their candidates can't be among the first.
    pub fn new(
        alloc: Global,
        snapshot: Snapshot,
        checked: Checked,
        stats: &[LeafStats],
        tables: Vec<RangeTable>,
        most: u32,
    ) -> Result<Search, NoMemory>
        requires each { length stats.now ≡ length checked.leaves.items }
        requires counted { All (λ s. AreLeafStats s) stats.now }
        ensures snapshot { IfOk result (λ s. s.snapshot ≡ snapshot) }
        ensures checked { IfOk result (λ s. s.checked ≡ checked) }
        ensures network { IfOk result (λ s. network_tree s.network ≡ network_of checked stats.now) }
        ensures most { IfOk result (λ s. s.most ≡ most) }
        ensures credit { IfOk result (λ s. s.at.credit ≡ 0) }
        ensures usable { IfOk result (λ s. s.usable ≡ true) }
        ensures spent { IfOk result (λ s. (kind : RuleKind) (priors : List Prior) (told : Option Files) → StaysWithin kind priors told s) }
        ensures tables { IfOk result (λ s. s.tables.items ≡ tables.items) }
        ensures terms { IfOk result (λ s. AreDistinct (query_words (filters_of s) (network_tree s.network).leaves) s.terms) }
        ensures blocks { IfOk result (λ s. (docs : List Document) → AreAnswersOf docs s.blocks) }
        ensures taken { IfOk result (λ s. (kind : RuleKind) (priors : List Prior) (told : Option Files) → AreTold told s → IsTaken kind priors told s) }
    {
        let network = Network::new(alloc, &checked, stats)?;
        let terms = query_terms(alloc, &checked.filters, network.leaves())?;
        let live_count = snapshot.live_count();
        let held = first_held(alloc, most as usize, checked.scale, live_count);
        Ok(Search {
            snapshot,
            checked,
            network,
            tables,
            terms,
            blocks: RangeBlocks::nothing(alloc),
            most: most as usize,
            live_count: u64::from(live_count),
            at: Place {
                part: 0,
                id: 0,
                credit: 0,
                ahead: Ahead::nothing(),
            },
            bare_to: 0,
            held,
            spent: Spent::nothing(),
            usable: true,
        })
    }

    /// Whether the next so many live documents have nothing to show, and some are left behind them.
    #[inline]
    fn passes_bare(&self, docs: u64) -> bool
        requires usable { self.now.usable ≡ true }
        ensures { result ≡ true → self.now.at.credit + docs < self.now.bare_to }
    {
        docs < self.bare_to - self.at.credit
    }

    /// Passes so many live documents, or all that are left where these are fewer, and answers whether all are passed. After an `Err`
    /// the search isn't usable. The squarings and the blocks
    /// that it opens are counted.
    #[inline(never)]
    pub fn counted_step<T: Store, F: Fn(u32, u32, u64, u64) -> Fraction, L: Ledger, B: Ledger>(
        &mut self,
        alloc: Global,
        docs: u64,
        rule: &Rule<F>,
        plugs: &mut [Box<dyn BeliefNode>],
        store: &mut T,
        cache: &mut BlockCache,
        squares: &mut Steps<L>,
        blocks: &mut Steps<B>,
    ) -> Result<bool, SegFault>
        requires usable { self.old.usable ≡ true }
        requires rule { Computes F.pre F.post rule.now.kind rule.now.f }
        requires plugs { All (HasPrior (length plugs.old)) (network_tree self.old.network).leaves }
        ensures taken { AreBacked (T.files store.old) self.old.snapshot → IsCacheBacked (T.files store.old) cache.old → OnOk result (StaysTaken rule.now.kind (map (λ plug. meaning plug) plugs.old) (T.files store.old) self.old self.new) }
        ensures spent { AreBacked (T.files store.old) self.old.snapshot → IsCacheBacked (T.files store.old) cache.old → OnOk result (StaysSpent rule.now.kind (map (λ plug. meaning plug) plugs.old) (T.files store.old) self.old self.new) }
        ensures credit { OnOk result ((told : Option Files) → self.new.at.credit ≡ min (self.old.at.credit + docs) (length (searched told self.old))) }
        ensures done { IfOk result (λ done. (told : Option Files) → done ≡ (self.new.at.credit == length (searched told self.old))) }
        ensures same { IsSameSearch self.old self.new }
        ensures usable { self.new.usable ≡ is_ok result }
        ensures stay { map (λ plug. meaning plug) plugs.new ≡ map (λ plug. meaning plug) plugs.old }
        ensures honest { AreIntact (T.files store.old) self.old.snapshot → IsCacheBacked (T.files store.old) cache.old → told_by (T.files store.old) self.old → IfErr result IsOutside }
        ensures cache { CacheKeeps (T.files store.old) (IsFileAmong self.old.snapshot) cache.old cache.new }
        ensures undamaged { OnOk result (cache.new.damage ≡ cache.old.damage) }
        ensures damaged { IfErr result (TellsDamage cache.old.damage cache.new.damage) }
        ensures quiet { IsQuiet T.files T.layers T.clock T.since T.longest T.held store.old store.new }
        ensures later { T.faults store.old ≤ T.faults store.new }
        ensures store { result ≡ Err SegFault.Store → Rose (T.faults store.old) (T.faults store.new) }
        ensures squares { AreBacked (T.files store.old) self.old.snapshot → IsCacheBacked (T.files store.old) cache.old → OnOk result (SpendsTo rule.now.kind (map (λ plug. meaning plug) plugs.old) (T.files store.old) self.old self.new squares.old squares.new) }

        // Also where it answers an error.
        ensures within { AreBacked (T.files store.old) self.old.snapshot → IsCacheBacked (T.files store.old) cache.old → SpendsAtMost rule.now.kind (map (λ plug. meaning plug) plugs.old) (T.files store.old) self.old squares.old squares.new }
        ensures terms { self.new.terms ≡ self.old.terms }
        ensures met { AreBacked (T.files store.old) self.old.snapshot → IsCacheBacked (T.files store.old) cache.old → OnOk result (MeetsTo rule.now.kind (map (λ plug. meaning plug) plugs.old) (T.files store.old) self.old self.new blocks.old blocks.new) }

        // Also where it answers an error.
        ensures meets { AreBacked (T.files store.old) self.old.snapshot → IsCacheBacked (T.files store.old) cache.old → MeetsAtMost rule.now.kind (map (λ plug. meaning plug) plugs.old) (T.files store.old) self.old blocks.old blocks.new }
        ensures opened { OnOk result (OpensWithin (length self.old.terms) (opened_by self.old) (opened_by self.new) blocks.old blocks.new) }

        // Also where it answers an error.
        ensures opens { OpensWithin (length self.old.terms) (opened_by self.old) (ranges_in self.old.snapshot) blocks.old blocks.new }
        ensures few { blocks.new ≤ blocks.old + length self.old.terms * docs }

        // The numbers that it keeps rise by as much as the counters.
        ensures squared { OnOk result (RiseAlike squares.old squares.new self.old.spent.squared self.new.spent.squared) }
        ensures counted { OnOk result (RiseAlike blocks.old blocks.new self.old.spent.opened self.new.spent.opened) }
    {
        self.usable = false;
        advance(
            alloc,
            docs,
            self.live_count,
            &self.checked.filters,
            &self.network,
            rule,
            plugs,
            self.snapshot.parts(),
            store,
            cache,
            &mut self.blocks,
            &self.tables,
            &mut self.at,
            self.terms.as_slice(),
            &mut self.held,
            squares,
            blocks,
            &mut self.spent,
        )?;
        self.bare_to = bare_to(self.snapshot.parts(), &self.at, self.live_count);
        self.usable = true;
        Ok(self.at.credit == self.live_count)
    }

    /// The same, with counters of its own. The blanks say which ones.
    fn uncounted_step<T: Store, F: Fn(u32, u32, u64, u64) -> Fraction, L: Ledger, B: Ledger>(
        &mut self,
        alloc: Global,
        docs: u64,
        rule: &Rule<F>,
        plugs: &mut [Box<dyn BeliefNode>],
        store: &mut T,
        cache: &mut BlockCache,
        blank: Blank,
        other: Blank,
    ) -> Result<bool, SegFault>
        requires name { blank.name ≡ L.name }
        requires parts { blank.parts ≡ L.parts }
        requires some { 0 < blank.parts }
        requires other_name { other.name ≡ B.name }
        requires other_parts { other.parts ≡ B.parts }
        requires other_some { 0 < other.parts }
        requires usable { self.old.usable ≡ true }
        requires rule { Computes F.pre F.post rule.now.kind rule.now.f }
        requires plugs { All (HasPrior (length plugs.old)) (network_tree self.old.network).leaves }
        ensures taken { AreBacked (T.files store.old) self.old.snapshot → IsCacheBacked (T.files store.old) cache.old → OnOk result (StaysTaken rule.now.kind (map (λ plug. meaning plug) plugs.old) (T.files store.old) self.old self.new) }
        ensures spent { AreBacked (T.files store.old) self.old.snapshot → IsCacheBacked (T.files store.old) cache.old → OnOk result (StaysSpent rule.now.kind (map (λ plug. meaning plug) plugs.old) (T.files store.old) self.old self.new) }
        ensures credit { OnOk result ((told : Option Files) → self.new.at.credit ≡ min (self.old.at.credit + docs) (length (searched told self.old))) }
        ensures done { IfOk result (λ done. (told : Option Files) → done ≡ (self.new.at.credit == length (searched told self.old))) }
        ensures same { IsSameSearch self.old self.new }
        ensures usable { self.new.usable ≡ is_ok result }
        ensures stay { map (λ plug. meaning plug) plugs.new ≡ map (λ plug. meaning plug) plugs.old }
        ensures honest { AreIntact (T.files store.old) self.old.snapshot → IsCacheBacked (T.files store.old) cache.old → told_by (T.files store.old) self.old → IfErr result IsOutside }
        ensures cache { CacheKeeps (T.files store.old) (IsFileAmong self.old.snapshot) cache.old cache.new }
        ensures undamaged { OnOk result (cache.new.damage ≡ cache.old.damage) }
        ensures damaged { IfErr result (TellsDamage cache.old.damage cache.new.damage) }
        ensures quiet { IsQuiet T.files T.layers T.clock T.since T.longest T.held store.old store.new }
        ensures later { T.faults store.old ≤ T.faults store.new }
        ensures store { result ≡ Err SegFault.Store → Rose (T.faults store.old) (T.faults store.new) }
    {
        let mut squares = Steps::<L>::new(blank);
        let mut blocks = Steps::<B>::new(other);
        self.counted_step(
            alloc,
            docs,
            rule,
            plugs,
            store,
            cache,
            &mut squares,
            &mut blocks,
        )
    }

    /// Passes so many live documents, or all that are left where these are fewer, and answers whether all are passed. After an `Err`
    /// the search isn't usable.
    #[inline]
    pub fn step<T: Store, F: Fn(u32, u32, u64, u64) -> Fraction>(
        &mut self,
        alloc: Global,
        docs: u64,
        rule: &Rule<F>,
        plugs: &mut [Box<dyn BeliefNode>],
        store: &mut T,
        cache: &mut BlockCache,
    ) -> Result<bool, SegFault>
        requires usable { self.old.usable ≡ true }
        requires rule { Computes F.pre F.post rule.now.kind rule.now.f }
        requires plugs { All (HasPrior (length plugs.old)) (network_tree self.old.network).leaves }
        ensures taken { AreBacked (T.files store.old) self.old.snapshot → IsCacheBacked (T.files store.old) cache.old → OnOk result (StaysTaken rule.now.kind (map (λ plug. meaning plug) plugs.old) (T.files store.old) self.old self.new) }
        ensures spent { AreBacked (T.files store.old) self.old.snapshot → IsCacheBacked (T.files store.old) cache.old → OnOk result (StaysSpent rule.now.kind (map (λ plug. meaning plug) plugs.old) (T.files store.old) self.old self.new) }
        ensures credit { OnOk result ((told : Option Files) → self.new.at.credit ≡ min (self.old.at.credit + docs) (length (searched told self.old))) }
        ensures done { IfOk result (λ done. (told : Option Files) → done ≡ (self.new.at.credit == length (searched told self.old))) }
        ensures same { IsSameSearch self.old self.new }
        ensures usable { self.new.usable ≡ is_ok result }
        ensures stay { map (λ plug. meaning plug) plugs.new ≡ map (λ plug. meaning plug) plugs.old }
        ensures honest { AreIntact (T.files store.old) self.old.snapshot → IsCacheBacked (T.files store.old) cache.old → told_by (T.files store.old) self.old → IfErr result IsOutside }
        ensures cache { CacheKeeps (T.files store.old) (IsFileAmong self.old.snapshot) cache.old cache.new }
        ensures undamaged { OnOk result (cache.new.damage ≡ cache.old.damage) }
        ensures damaged { IfErr result (TellsDamage cache.old.damage cache.new.damage) }
        ensures quiet { IsQuiet T.files T.layers T.clock T.since T.longest T.held store.old store.new }
        ensures later { T.faults store.old ≤ T.faults store.new }
        ensures store { result ≡ Err SegFault.Store → Rose (T.faults store.old) (T.faults store.new) }
    {
        if self.passes_bare(docs) {
            self.at.id += docs as u32;
            self.at.credit += docs;
            return Ok(false);
        }
        let squares = Blank::new(1);
        let blocks = Blank::new(1);
        self.uncounted_step::<T, F, Brand, Brand>(
            alloc, docs, rule, plugs, store, cache, squares, blocks,
        )
    }

    /// The first candidates of all documents in their order, once all are passed.
    pub fn results(&self) -> Option<&Hits>
        requires usable { self.now.usable ≡ true }
        ensures some { (told : Option Files) → is_some result ≡ (self.now.at.credit == length (searched told self.now)) }
        ensures answer { (kind : RuleKind) (priors : List Prior) (told : Option Files) → IsTaken kind priors told self.now
            → IfSome result (λ hits. IsAnswerOf kind priors self.now (searched told self.now) hits.now) }

        // Whatever the files tell, the results are windows of live documents.
        ensures windows { (told : Option Files) → IfSome result (λ hits. ∥ AreWindows (searched told self.now) (length (network_tree self.now.network).leaves) self.now.most hits.now ∥₁) }
    {
        match &self.held {
            Held::Open(_) => None,
            Held::Ended(hits) => Some(hits),
        }
    }

    /// Whether it may be used: not after an `Err` of a step.
    pub fn usable(&self) -> bool
        ensures { result ≡ self.now.usable }
    {
        self.usable
    }

    /// How many live documents it has passed.
    pub fn credit(&self) -> u64
        ensures { result ≡ self.now.at.credit }
    {
        self.at.credit
    }

    /// How many squarings it has done.
    pub fn squared(&self) -> u64
        ensures { result ≡ self.now.spent.squared }
    {
        self.spent.squared
    }

    /// How many blocks it has opened.
    pub fn opened(&self) -> u64
        ensures { result ≡ self.now.spent.opened }
    {
        self.spent.opened
    }

    /// How many ranges it has passed over since their bounds were beaten.
    pub fn passed(&self) -> u64
        ensures { result ≡ self.now.spent.passed }
    {
        self.spent.passed
    }

    /// The snapshot that is searched.
    pub fn snapshot(&self) -> &Snapshot
        ensures { result.now ≡ self.now.snapshot }
    {
        &self.snapshot
    }

    /// The query that is searched for.
    pub fn checked(&self) -> &Checked
        ensures { result.now ≡ self.now.checked }
    {
        &self.checked
    }

    /// The terms that it asks for, each once.
    pub fn terms(&self) -> &[Term]
        ensures { result.now ≡ self.now.terms }
    {
        self.terms.as_slice()
    }

    /// The statistics of its leaves.
    pub fn stats(&self) -> &[LeafStats]
        ensures { result.now ≡ (network_tree self.now.network).stats }
    {
        self.network.stats()
    }
}
