// What a search holds.
ghost use Rattle.std.specs.Prelude.{◌≡◌, ◌≤◌, ◌+◌, ℕ, true, List, IfOk, OnOk};
ghost use Rattle.ri_base.specs.Documents.{Document};
ghost use Rattle.ri_base.specs.Query.{FilterTree};
ghost use Rattle.smoothing.specs.declared.rule.RuleKind.{RuleKind};
ghost use Rattle.belief_nodes.specs.Network.{network_tree};
ghost use Rattle.belief_nodes.specs.Priors.{Prior};

use crate::hits::hits_of;
use crate::keys::NetworkKeys;
use crate::spent::count_late;
use crate::window::Window;
use belief_nodes::Network;
use bounded_keys::{Contenders, Entry};
use ri_base::{Hits, NoMemory, Steps};
use std::alloc::Global;
use std::mem;
use std::sync::ledger::Ledger;

/// What a search holds of the documents that it passed: those of their candidates that may be among the first, as long as some
/// documents are left, and the results once none is.
#[derive(Drop)]
pub enum Held {
    Open(Contenders<Entry<Window>>),
    Ended(Hits),
}

impl Held {
    ghost use Rattle.std.specs.Prelude.{false};
    ghost use Rattle.ranker.specs.Held.{HoldsEntries, IsHeld, is_open};
    ghost use Rattle.document_scoring.specs.Candidates.{candidates};
    ghost use Rattle.ranker.specs.Squares.{late_cost};
    ghost use Rattle.ranker.specs.Spent.{RiseAlike};
    ghost use Rattle.ranker.specs.Windows.{HasWindows};

    /// The first of the candidates become the results. Further digits are taken of those alone that may be among them.
    pub fn end<L: Ledger>(
        &mut self,
        alloc: Global,
        network: &Network,
        squares: &mut Steps<L>,
        squared: &mut u64,
    ) -> Result<(), NoMemory>
        requires { HoldsEntries (network_tree network.now) self.old }
        ensures ended { OnOk result (is_open self.new ≡ false) }
        ensures held { OnOk result ((kind : RuleKind) (priors : List Prior) (filters : List FilterTree) (docs : List Document) (most : ℕ)
            → IsHeld kind priors filters (network_tree network.now) docs most self.old → IsHeld kind priors filters (network_tree network.now) docs most self.new) }
        ensures cost { (kind : RuleKind) (priors : List Prior) (filters : List FilterTree) (docs : List Document) (most : ℕ)
            → is_open self.old ≡ true → IsHeld kind priors filters (network_tree network.now) docs most self.old
            → squares.new ≤ squares.old + late_cost (network_tree network.now) most (candidates kind priors filters (network_tree network.now) docs) }
        ensures squared { OnOk result (RiseAlike squares.old squares.new squared.old squared.new) }
        ensures windows { OnOk result ((docs : List Document) (leaves most : ℕ) → HasWindows docs leaves most self.old → HasWindows docs leaves most self.new) }
    {
        match mem::replace(self, Held::Ended(Hits::of(Vec::new(alloc)))) {
            Held::Open(kept) => {
                let (first, settled) = kept.into_first(alloc, &NetworkKeys { network }, squares)?;
                count_late(network, settled, squared);
                let hits = hits_of(alloc, first)?;
                *self = Held::Ended(hits);
            }
            Held::Ended(hits) => *self = Held::Ended(hits),
        }
        Ok(())
    }
}
