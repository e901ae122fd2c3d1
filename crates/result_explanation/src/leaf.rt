// What is told of a leaf.
ghost use Rattle.std.specs.Prelude.{◌≡◌, ◌<◌, length, Err, IfErr, IfOk, OnOk};
ghost use Rattle.ri_base.specs.Collection.{document_at};
ghost use Rattle.ri_base.specs.Faults.{IsOutside, TellsDamage};
ghost use Rattle.ri_base.specs.Keeps.{Keeps, Rose};
ghost use Rattle.query_check.specs.Leaves.{leaf_tree};
ghost use Rattle.document_scoring.specs.Told.{IsLeafTold};
ghost use Rattle.result_explanation.specs.Explanation.{leaf_told, prior_name, told_leaf};

use crate::counted::{count_in, within};
use document_scoring::counted;
use query_check::LeafKind;
use ranked_output::LeafShown;
use ri_base::{Extent, Fraction, LeafStats, Name, NoMemory, Postings, SegFault};
use std::alloc::Global;

/// The name of a prior by its number: its place among the names, and behind them that of `length`.
fn prior_name(alloc: Global, names: &[Name], number: u8) -> Result<Name, NoMemory>
    ensures { IfOk result (λ name. name ≡ prior_name names.now number) }
{
    if let Some(name) = names.get(number as usize) {
        return name.clone_in(alloc);
    }
    match Name::of_lower(alloc, b"length")? {
        Some(name) => Ok(name),
        None => unreachable!(),
    }
}

/// A leaf in a window of a document, with what the collection has of it and its belief.
pub fn leaf_shown<P: Postings>(
    alloc: Global,
    names: &[Name],
    leaf: &LeafKind,
    stats: LeafStats,
    belief: Fraction,
    part: &mut P,
    id: u32,
    window: Extent,
) -> Result<LeafShown, SegFault>
    requires id { id < length (P.documents part.old) }
    ensures keeps { Keeps P.documents P.faults P.sound P.intact P.quiet part.old part.new }
    ensures exact { P.sound part.old → IfOk result
        (λ shown. told_leaf shown ≡ leaf_told names.now (document_at (P.documents part.old) id) window (leaf_tree leaf.now) stats belief) }
    ensures told { IfOk result (λ _. IsLeafTold (λ t. P.told part.old t id) (leaf_tree leaf.now)) }
    ensures honest { P.intact part.old → IfErr result IsOutside }
    ensures undamaged { OnOk result (P.damage part.new ≡ P.damage part.old) }
    ensures damaged { IfErr result (TellsDamage (P.damage part.old) (P.damage part.new)) }
    ensures store { result ≡ Err SegFault.Store → Rose (P.faults part.old) (P.faults part.new) }
{
    match leaf.clone_in(alloc)? {
        LeafKind::Extents(expr, context) => {
            let found = counted(alloc, &expr, &context, part, id)?;
            let count = count_in(&found, &context, part, id, window);
            let extents = within(alloc, &found, window)?;
            Ok(LeafShown::Extents {
                expr,
                context,
                count,
                stats,
                extents,
                belief,
            })
        }
        LeafKind::Prior(number) => {
            let name = prior_name(alloc, names, number)?;
            Ok(LeafShown::Prior { name, belief })
        }
    }
}
