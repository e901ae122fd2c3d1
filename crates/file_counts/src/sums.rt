// How often the leaves of a query occur.
ghost use Rattle.std.specs.Prelude.{◌≡◌, length, All, IfSome};
ghost use Rattle.belief_nodes.specs.Leaves.{AreLeafStats};

use crate::parts::Counted;
use query_check::LeafKind;
use ri_base::LeafStats;
use std::alloc::Global;
use store_ends::Store;

/// The sums of a leaf, where they are in their range.
fn bounded(stats: LeafStats) -> Option<LeafStats>
    ensures { IfSome result (λ s. AreLeafStats s) }
{
    if stats.cf > stats.total || stats.total > 1 << 29 {
        return None;
    }
    Some(stats)
}

fn stats_of<T: Store>(
    alloc: Global,
    counted: &mut Counted,
    leaf: &LeafKind,
    store: &mut T,
) -> Option<LeafStats>
    ensures { IfSome result (λ s. AreLeafStats s) }
{
    match leaf {
        LeafKind::Extents(expr, context) => {
            bounded(counted.leaf(alloc, store, expr, context.as_ref())?)
        }
        LeafKind::Prior(_) => bounded(LeafStats { cf: 0, total: 0 }),
    }
}

/// The sums of all leaves.
pub fn all_stats<T: Store>(
    alloc: Global,
    counted: &mut Counted,
    leaves: &[LeafKind],
    store: &mut T,
) -> Option<Vec<LeafStats>>
    ensures each { IfSome result (λ v. length v.items ≡ length leaves.now) }
    ensures range { IfSome result (λ v. All (λ s. AreLeafStats s) v.items) }
{
    let mut all = Vec::with_capacity(alloc, leaves.len()).ok()?;
    for leaf in leaves {
        let stats = stats_of(alloc, counted, leaf, store)?;
        all.push(stats).ok()?;
    }
    Some(all)
}
