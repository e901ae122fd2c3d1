// The part that is being filled becomes a part in memory.
ghost use Rattle.std.specs.Prelude.{◌≡◌, ◌++◌, ◌∷◌, [], length, OnOk, OnErr, MatchResult};
ghost use Rattle.holdings.specs.MarkedParts.{filled};

use deletion_list::DelList;
use disk_index::{MarkedPart, Part};
use memory_index::MemIndex;
use ri_base::{NoMemory, Sealed};
use std::alloc::{AllocError, Global};
use std::mem;
use std::rc::Rc;

/// Puts the part that is being filled behind the closed ones, and begins another with these documents and marks.
pub fn close(
    alloc: Global,
    closed: &mut Vec<MarkedPart>,
    filling: &mut MemIndex,
    marks: &mut DelList,
    fresh: MemIndex,
    fresh_marks: DelList,
) -> Result<(), NoMemory>
    requires whole { length marks.old ≡ length filling.old.documents }
    ensures closed { OnOk result (closed.new.items ≡ closed.old.items ++ filled filling.old.documents marks.old ∷ []) }
    ensures filling { OnOk result (filling.new ≡ fresh) }
    ensures marks { OnOk result (marks.new ≡ fresh_marks) }
    ensures same_closed { OnErr result (closed.new.items ≡ closed.old.items) }
    ensures same_filling { OnErr result (filling.new ≡ filling.old) }
    ensures same_marks { OnErr result (marks.new ≡ marks.old) }
{
    closed.reserve(1)?;
    let full = mem::replace(filling, fresh);
    match shared(alloc, full) {
        Ok(sealed) => {
            let part = Part::Memory(sealed);
            let marks = mem::replace(marks, fresh_marks);
            closed.push_reserved(MarkedPart::new(part, marks));
            Ok(())
        }
        Err((full, e)) => {
            *filling = full;
            Err(e)
        }
    }
}

/// The inversion of no documents.
fn vacant(alloc: Global) -> Result<Rc<Sealed>, NoMemory> {
    let index = MemIndex::new(alloc, 1)?;
    match index.seal(alloc) {
        Ok(sealed) => Ok(Rc::new(alloc, sealed).map_err(AllocError::from)?),
        Err((_, e)) => Err(e),
    }
}

/// The inversion of the documents, to be shared. Where memory is wanting, the index comes back as it was: the room that is
/// shared is made before the index is inverted.
fn shared(alloc: Global, index: MemIndex) -> Result<Rc<Sealed>, (MemIndex, NoMemory)>
    ensures { MatchResult result (λ rc. rc.value ≡ index.documents) (λ e. e.0 ≡ index) }
{
    let Ok(mut room) = vacant(alloc) else {
        return Err((index, AllocError));
    };
    match Rc::get_mut(&mut room) {
        None => return Err((index, AllocError)),
        Some(slot) => match index.seal(alloc) {
            Ok(sealed) => *slot = sealed,
            Err(back) => return Err(back),
        },
    }
    Ok(room)
}
