// Why a hit has its score.
ghost use Rattle.std.specs.Prelude.{◌≡◌, ◌<◌, length, map, All, Err, IfErr, IfOk, OnOk};
ghost use Rattle.ri_base.specs.Collection.{document_at};
ghost use Rattle.ri_base.specs.Faults.{IsOutside, TellsDamage};
ghost use Rattle.ri_base.specs.Keeps.{Keeps, Rose};
ghost use Rattle.query_check.specs.Answers.{whole_checked};
ghost use Rattle.query_check.specs.Leaves.{leaf_tree};
ghost use Rattle.document_scoring.specs.Told.{IsLeafTold};
ghost use Rattle.result_explanation.specs.Explanation.{IsExplanation, leaves_told, told_leaf};

use crate::leaf::leaf_shown;
use query_check::{Checked, LeafKind};
use ranked_output::{Explained, LeafShown};
use ri_base::{Extent, Fraction, Hit, LeafStats, List, Name, Postings, SegFault};
use std::alloc::Global;

/// All leaves in a window of a document, in order of their numbers.
fn leaves_shown<P: Postings>(
    alloc: Global,
    names: &[Name],
    leaves: &[LeafKind],
    stats: &[LeafStats],
    beliefs: &[Fraction],
    part: &mut P,
    id: u32,
    window: Extent,
) -> Result<List<LeafShown>, SegFault>
    requires id { id < length (P.documents part.old) }
    requires stats { length stats.now ≡ length leaves.now }
    requires beliefs { length beliefs.now ≡ length leaves.now }
    ensures keeps { Keeps P.documents P.faults P.sound P.intact P.quiet part.old part.new }
    ensures exact { P.sound part.old → IfOk result
        (λ shown. map told_leaf shown ≡ leaves_told names.now (document_at (P.documents part.old) id) window (map leaf_tree leaves.now) stats.now beliefs.now) }
    ensures told { IfOk result (λ _. All (IsLeafTold (λ t. P.told part.old t id)) (map leaf_tree leaves.now)) }
    ensures honest { P.intact part.old → IfErr result IsOutside }
    ensures undamaged { OnOk result (P.damage part.new ≡ P.damage part.old) }
    ensures damaged { IfErr result (TellsDamage (P.damage part.old) (P.damage part.new)) }
    ensures store { result ≡ Err SegFault.Store → Rose (P.faults part.old) (P.faults part.new) }
{
    let mut shown = List::with_capacity(alloc, leaves.len())?;
    for (i, leaf) in leaves.iter().enumerate() {
        let leaf = leaf_shown(alloc, names, leaf, stats[i], beliefs[i], part, id, window)?;
        shown.push(leaf)?;
    }
    Ok(shown)
}

/// Explains a hit of that rank for a checked query. The document with that id is the hit's. `stats` has what the collection
/// has of each leaf, in order of leaf numbers, as the hit has their beliefs; `names` are those of the priors.
pub fn explain<P: Postings>(
    alloc: Global,
    names: &[Name],
    checked: &Checked,
    stats: &[LeafStats],
    part: &mut P,
    id: u32,
    rank: u32,
    hit: Hit,
) -> Result<Explained, SegFault>
    requires id { id < length (P.documents part.old) }
    requires window { hit.begin < hit.end }
    requires stats { length stats.now ≡ length checked.now.leaves.items }
    requires beliefs { length hit.fractions ≡ length checked.now.leaves.items }
    ensures keeps { Keeps P.documents P.faults P.sound P.intact P.quiet part.old part.new }
    ensures exact { P.sound part.old → IfOk result
        (IsExplanation names.now (whole_checked checked.now) stats.now (document_at (P.documents part.old) id) rank hit) }

    // Also of a part that isn't sound, no malformed block is passed by.
    ensures told { IfOk result (λ _. All (IsLeafTold (λ t. P.told part.old t id)) (map leaf_tree checked.now.leaves.items)) }

    ensures scale { IfOk result (λ explained. explained.scale ≡ checked.now.scale) }
    ensures honest { P.intact part.old → IfErr result IsOutside }
    ensures undamaged { OnOk result (P.damage part.new ≡ P.damage part.old) }
    ensures damaged { IfErr result (TellsDamage (P.damage part.old) (P.damage part.new)) }
    ensures store { result ≡ Err SegFault.Store → Rose (P.faults part.old) (P.faults part.new) }
{
    let window = Extent::new(hit.begin, hit.end);
    let beliefs = hit.fractions.as_slice();
    let leaves = leaves_shown(
        alloc,
        names,
        &checked.leaves,
        stats,
        beliefs,
        part,
        id,
        window,
    )?;
    Ok(Explained {
        rank,
        hit,
        scale: checked.scale,
        leaves,
    })
}
