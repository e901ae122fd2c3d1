// An open query.
ghost use Rattle.std.specs.Prelude.{◌≡◌, ◌≤◌, ◌<◌, All, Err, Option, is_ok, length, map, true, IfErr, IfOk, OnOk};
ghost use Rattle.ri_base.specs.Faults.{IsOutside, TellsDamage};
ghost use Rattle.ri_base.specs.Keeps.{Rose};
ghost use Rattle.store_ends.specs.Files.{Files, IsQuiet};
ghost use Rattle.smoothing.specs.Fractions.{Computes};
ghost use Rattle.belief_nodes.specs.Leaves.{HasPrior};
ghost use Rattle.belief_nodes.specs.Network.{network_tree};
ghost use Rattle.disk_index.specs.Cache.{CacheKeeps, IsCacheBacked};
ghost use Rattle.disk_index.specs.Snapshots.{AreIntact, IsFileAmong};
ghost use Rattle.ranker.specs.Searches.{IsSameSearch, searched};
ghost use Rattle.repository.specs.States.{State};
ghost use Rattle.desk.specs.Queries.{IsQueryBacked, priors_in, query_of};
ghost use Rattle.desk.specs.Keeping.{AsksFor};
ghost use Rattle.desk.specs.Plugs.{ArePlugs};
ghost use Rattle.desk.specs.State.{advanced};

use belief_nodes::BeliefNode;
use disk_index::BlockCache;
use ranker::Search;
use ri_base::{Fraction, Name, SegFault};
use smoothing::Rule;
use std::alloc::Global;
use store_ends::Store;

/// As many queries may be open.
pub const MAX_QUERIES: usize = 16;

/// An open query: its name and its search, which keeps the snapshot of its opening.
pub struct OpenQuery {
    pub name: Name,
    pub search: Search,
}

impl Drop for OpenQuery {
    fn drop(self) {
        let OpenQuery { name, search } = self;
        drop(name);
        drop(search);
    }
}

impl OpenQuery {
    /// Gives the search more credit, and answers what it has, and how many documents were live at the opening.
    pub(crate) fn advance<T: Store, F: Fn(u32, u32, u64, u64) -> Fraction>(
        &mut self,
        alloc: Global,
        docs: u64,
        rule: &Rule<F>,
        plugs: &mut [Box<dyn BeliefNode>],
        store: &mut T,
        cache: &mut BlockCache,
    ) -> Result<(u64, u64), SegFault>
        requires usable { self.old.search.usable ≡ true }
        requires rule { Computes F.pre F.post rule.now.kind rule.now.f }
        requires plugs { All (HasPrior (length plugs.old)) (network_tree self.old.search.network).leaves }
        ensures credit { IfOk result (λ r. (told : Option Files) → r.0 ≡ (advanced docs (query_of told self.old)).credit) }
        ensures live { IfOk result (λ r. (told : Option Files) → r.1 ≡ length (searched told self.old.search)) }
        ensures query { OnOk result ((told : Option Files) → query_of told self.new ≡ advanced docs (query_of told self.old)) }
        ensures backed { OnOk result ((s : State) → length s.priors ≤ 8 → All (AsksFor (length s.priors)) (network_tree self.old.search.network).leaves
            → ArePlugs (priors_in (T.files store.old) s.priors) (map (λ plug. meaning plug) plugs.old)
            → IsCacheBacked (T.files store.old) cache.old → IsQueryBacked (T.files store.old) s rule.now.kind self.old → IsQueryBacked (T.files store.new) s rule.now.kind self.new) }
        ensures same { IsSameSearch self.old.search self.new.search }
        ensures usable { self.new.search.usable ≡ is_ok result }
        ensures stay { map (λ plug. meaning plug) plugs.new ≡ map (λ plug. meaning plug) plugs.old }
        ensures honest { (s : State) → IsQueryBacked (T.files store.old) s rule.now.kind self.old → AreIntact (T.files store.old) self.old.search.snapshot → IsCacheBacked (T.files store.old) cache.old → IfErr result IsOutside }
        ensures cache { CacheKeeps (T.files store.old) (IsFileAmong self.old.search.snapshot) cache.old cache.new }
        ensures undamaged { OnOk result (cache.new.damage ≡ cache.old.damage) }
        ensures damaged { IfErr result (TellsDamage cache.old.damage cache.new.damage) }
        ensures quiet { IsQuiet T.files T.layers T.clock T.since T.longest T.held store.old store.new }
        ensures later { T.faults store.old ≤ T.faults store.new }
        ensures store { result ≡ Err SegFault.Store → Rose (T.faults store.old) (T.faults store.new) }
    {
        self.search.step(alloc, docs, rule, plugs, store, cache)?;
        Ok((
            self.search.credit(),
            u64::from(self.search.snapshot().live_count()),
        ))
    }
}
