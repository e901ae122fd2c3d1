// Candidates with their keys at the first level.
ghost use Rattle.std.specs.Prelude.{◌≡◌, ◌≤◌, ◌+◌, ◌++◌, List, length, map, All, IfOk, OnOk};
ghost use Rattle.belief_nodes.specs.Network.{network_tree};
ghost use Rattle.bounded_keys.specs.Kept.{AreAmong};
ghost use Rattle.ranker.specs.First.{WereOffered, early_cost, early_of};

use crate::keys::NetworkKeys;
use crate::window::Window;
use belief_nodes::Network;
use bounded_keys::{Contenders, Entry};
use document_scoring::Row;
use ri_base::{NoMemory, Steps};
use std::alloc::Global;
use std::sync::ledger::Ledger;

/// A row with the digits of its beliefs at the first level, and with their key there.
fn early_of<L: Ledger>(
    alloc: Global,
    network: &Network,
    row: Row,
    squares: &mut Steps<L>,
) -> Result<Entry<Window>, NoMemory>
    requires { length row.fractions ≡ length (network_tree network.now).leaves }
    ensures entry { IfOk result (λ x. x ≡ early_of (network_tree network.now) row) }
    ensures cost { squares.new ≤ squares.old + early_cost (network_tree network.now) 1 }
    ensures exact { OnOk result (squares.new ≡ squares.old + early_cost (network_tree network.now) 1) }
{
    let Row {
        docno,
        begin,
        end,
        fractions,
    } = row;
    let window = Window { docno, begin, end };
    Entry::new(
        alloc,
        &NetworkKeys { network },
        fractions.as_slice(),
        window,
        squares,
    )
}

/// Offers the candidates of rows.
pub fn offer_rows<L: Ledger>(
    alloc: Global,
    network: &Network,
    mut rows: Vec<Row>,
    first: &mut Contenders<Entry<Window>>,
    squares: &mut Steps<L>,
) -> Result<(), NoMemory>
    requires { All (λ row. length row.fractions ≡ length (network_tree network.now).leaves) rows.items }
    ensures most { first.new.most ≡ first.old.most }
    ensures scale { first.new.scale ≡ first.old.scale }
    ensures cost { squares.new ≤ squares.old + early_cost (network_tree network.now) (length rows.items) }
    ensures exact { OnOk result (squares.new ≡ squares.old + early_cost (network_tree network.now) (length rows.items)) }
    ensures offered { OnOk result ((all : List (Entry Window)) → WereOffered all first.old → WereOffered (map (early_of (network_tree network.now)) rows.items ++ all) first.new) }
    ensures among { OnOk result (AreAmong (first.new.held ++ first.new.near) (map (early_of (network_tree network.now)) rows.items ++ (first.old.held ++ first.old.near))) }
{
    while let Some(row) = rows.pop() {
        let entry = early_of(alloc, network, row, squares)?;
        first.offer(entry)?;
    }
    Ok(())
}
