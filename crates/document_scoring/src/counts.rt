// How often the leaves of a query occur.
ghost use Rattle.std.specs.Prelude.{◌≡◌, ◌<◌, length, Err, IfErr, IfOk, OnOk};
ghost use Rattle.ri_base.specs.Collection.{document_at};
ghost use Rattle.ri_base.specs.Faults.{IsOutside, TellsDamage};
ghost use Rattle.ri_base.specs.Keeps.{Keeps, Rose};
ghost use Rattle.query_check.specs.Leaves.{leaf_tree};
ghost use Rattle.belief_nodes.specs.Leaves.{IsLeafCount};
ghost use Rattle.document_scoring.specs.Candidates.{some_occurs};
ghost use Rattle.document_scoring.specs.Counts.{count_of};
ghost use Rattle.document_scoring.specs.Told.{IsLeafTold};

use crate::counters::whole_count;
use crate::found::found_of;
use belief_nodes::LeafCount;
use query_check::LeafKind;
use ri_base::{Postings, SegFault};
use std::alloc::Global;

/// The counts of a leaf in a document as a whole.
pub fn count_of<P: Postings>(
    alloc: Global,
    leaf: &LeafKind,
    part: &mut P,
    id: u32,
) -> Result<LeafCount, SegFault>
    requires { id < length (P.documents part.old) }
    ensures keeps { Keeps P.documents P.faults P.sound P.intact P.quiet part.old part.new }
    ensures exact { P.sound part.old → IfOk result
        (λ n. n ≡ count_of (document_at (P.documents part.old) id) (leaf_tree leaf.now)) }
    ensures range { IfOk result (λ n. IsLeafCount n) }

    // Also of a part that isn't sound, no malformed block is passed by.
    ensures told { IfOk result (λ _. IsLeafTold (λ t. P.told part.old t id) (leaf_tree leaf.now)) }

    ensures honest { P.intact part.old → IfErr result IsOutside }
    ensures undamaged { OnOk result (P.damage part.new ≡ P.damage part.old) }
    ensures damaged { IfErr result (TellsDamage (P.damage part.old) (P.damage part.new)) }
    ensures store { result ≡ Err SegFault.Store → Rose (P.faults part.old) (P.faults part.new) }
{
    let found = found_of(alloc, leaf, part, id)?;
    Ok(whole_count(&found, part.spans(id), part.length(id)))
}

/// Whether some leaf occurs.
pub fn some_occurs(counts: &[LeafCount]) -> bool
    ensures { result ≡ some_occurs counts.now }
{
    counts.iter().any(|count| count.tf > 0)
}
