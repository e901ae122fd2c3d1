// What a snapshot has of the leaves of a query.
ghost use Rattle.std.specs.Prelude.{◌≡◌, length, All, IfSome};
ghost use Rattle.belief_nodes.specs.Leaves.{AreLeafStats};

use crate::opened::Opened;
use counts::Counts;
use query_check::LeafKind;
use ri_base::{ExtentExpr, LeafStats, Name};
use std::alloc::Global;
use std::num::NonZeroUsize;

/// The sums of a leaf, where they are in their range.
fn bounded(stats: LeafStats) -> Option<LeafStats>
    ensures { IfSome result (λ s. AreLeafStats s) }
{
    if stats.cf > stats.total || stats.total > 1 << 29 {
        return None;
    }
    Some(stats)
}

/// The sums of an expression; nothing where they can't be read.
pub fn sums_of(
    alloc: Global,
    expr: &ExtentExpr,
    context: Option<&Name>,
    generation: u64,
    opened: &mut Opened,
    counts: &mut Counts,
) -> Option<LeafStats> {
    let stats = counts.leaf(
        alloc,
        expr,
        context,
        &opened.snapshot,
        generation,
        &mut opened.store,
        &mut opened.cache,
    );
    stats.ok()
}

fn stats_of(
    alloc: Global,
    leaf: &LeafKind,
    opened: &mut Opened,
    counts: &mut Counts,
) -> Option<LeafStats>
    ensures { IfSome result (λ s. AreLeafStats s) }
{
    match leaf {
        LeafKind::Extents(expr, context) => {
            bounded(sums_of(alloc, expr, context.as_ref(), 0, opened, counts)?)
        }
        LeafKind::Prior(_) => None,
    }
}

/// No sums, with room for two.
pub fn counts_of(alloc: Global) -> Option<Counts> {
    Counts::new(alloc, NonZeroUsize::new(2)?).ok()
}

/// The sums of all leaves over the live documents.
pub fn all_stats(alloc: Global, leaves: &[LeafKind], opened: &mut Opened) -> Option<Vec<LeafStats>>
    ensures each { IfSome result (λ v. length v.items ≡ length leaves.now) }
    ensures range { IfSome result (λ v. All (λ s. AreLeafStats s) v.items) }
{
    let mut counts = counts_of(alloc)?;
    let mut all = Vec::new(alloc);
    for leaf in leaves {
        all.push(stats_of(alloc, leaf, opened, &mut counts)?).ok()?;
    }
    Some(all)
}
