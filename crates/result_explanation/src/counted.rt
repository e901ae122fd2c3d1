// What is counted in a window of the extents of an expression that count, and those that lie in it.
ghost use Rattle.std.specs.Prelude.{◌≡◌, ◌<◌, length, filter, IfOk};
ghost use Rattle.ri_base.specs.Collection.{document_at};
ghost use Rattle.field_extents.specs.Extents.{AreInOrder, begin_count, is_inside};
ghost use Rattle.document_scoring.specs.Counts.{len};

use belief_nodes::LeafCount;
use field_extents::{covered, distinct_begins};
use ri_base::{Extent, Extents, Name, NoMemory, Postings};
use std::alloc::Global;

/// What is counted in a window: at how many tokens one of these extents begins, and how many tokens the window has, with a
/// context those that some field of that name covers.
pub fn count_in<P: Postings>(
    found: &Extents,
    context: &Option<Name>,
    part: &P,
    id: u32,
    window: Extent,
) -> LeafCount
    requires id { id < length (P.documents part.now) }
    requires order { AreInOrder found.now }
    ensures tf { result.tf ≡ begin_count found.now window }
    ensures len { result.len ≡ len (document_at (P.documents part.now) id) window context.now }
{
    let len = match context {
        Some(name) => covered(part.spans(id), name, window),
        None => window.end() - window.begin(),
    };
    LeafCount {
        tf: distinct_begins(found, window),
        len,
    }
}

/// Those extents that lie inside a window.
pub fn within(alloc: Global, found: &Extents, window: Extent) -> Result<Extents, NoMemory>
    ensures { IfOk result (λ kept. kept ≡ filter (is_inside window) found.now) }
{
    let mut kept = Extents::new(alloc);
    for x in found.as_slice() {
        if window.begin() <= x.begin() && x.end() <= window.end() {
            kept.push(*x)?;
        }
    }
    Ok(kept)
}
