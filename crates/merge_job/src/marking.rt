// The marks of now go to the new parts.
ghost use Rattle.std.specs.Prelude.{◌≡◌, ◌<◌, ◌≤◌, ◌+◌, ◌^◌, ◌∷◌, [], true, None, length, set, slice_index_or};
ghost use Rattle.std.specs.List.{AllZip};
ghost use Rattle.disk_index.specs.Parts.{size};
ghost use Rattle.disk_index.specs.Snapshots.{live};
ghost use Rattle.merge_job.specs.Marking.{IsPlace, before, lengths, marked_from, together};
ghost use Rattle.merge_job.specs.Marks.{all_mapped, mapped};
ghost use Rattle.merge_job.specs.NewParts.{docs_in, marks_in};

use crate::MergedPart;
use crate::copying::Place;
use deletion_list::DelList;
use disk_index::MarkedPart;

/// Goes to the next part at the end of one.
fn go_on(parts: &[MergedPart], place: &mut Place)
    requires place { IsPlace (marks_in parts.now) place.old.part place.old.id }
    requires some { before (marks_in parts.now) place.old.part place.old.id < length (together (marks_in parts.now)) }
    ensures within { place.new.id < length (slice_index_or (marks_in parts.now) place.new.part []) }
    ensures small { place.new.id + 1 < 2 ^ 32 }
    ensures same { before (marks_in parts.now) place.new.part place.new.id ≡ before (marks_in parts.now) place.old.part place.old.id }
{
    if place.id == parts[place.part].marks.len() {
        place.part += 1;
        place.id = 0;
    }
}

/// Marks the document at that place.
fn mark_at(parts: &mut [MergedPart], part: usize, id: u32)
    requires { id < length (slice_index_or (marks_in parts.old) part []) }
    ensures marks { marks_in parts.new ≡ set (marks_in parts.old) part (set (slice_index_or (marks_in parts.old) part []) id true) }
    ensures docs { docs_in parts.new ≡ docs_in parts.old }
{
    let part = &mut parts[part];
    let _ = part.marks.mark(id);
}

/// Marks the document that stands behind the place where this is told, and goes behind it.
fn mark_next(parts: &mut [MergedPart], place: &mut Place, marked: bool)
    requires place { IsPlace (marks_in parts.old) place.old.part place.old.id }
    requires some { before (marks_in parts.old) place.old.part place.old.id < length (together (marks_in parts.old)) }
    ensures marks { together (marks_in parts.new)
        ≡ marked_from (together (marks_in parts.old)) (before (marks_in parts.old) place.old.part place.old.id) (marked ∷ []) }
    ensures behind { before (marks_in parts.new) place.new.part place.new.id ≡ before (marks_in parts.old) place.old.part place.old.id + 1 }
    ensures place { IsPlace (marks_in parts.new) place.new.part place.new.id }
    ensures docs { docs_in parts.new ≡ docs_in parts.old }
    ensures lengths { lengths (marks_in parts.new) ≡ lengths (marks_in parts.old) }
{
    go_on(parts, place);
    if marked {
        mark_at(parts, place.part, place.id);
    }
    place.id += 1;
}

/// Marks the documents of a part that are marked now and weren't before: of those that weren't, the new part has one behind the
/// other.
fn mark_part(parts: &mut [MergedPart], place: &mut Place, old: &DelList, now: &DelList)
    requires same { length now.now ≡ length old.now }
    requires place { IsPlace (marks_in parts.old) place.old.part place.old.id }
    requires room { before (marks_in parts.old) place.old.part place.old.id + length (mapped old.now now.now)
        ≤ length (together (marks_in parts.old)) }
    ensures marks { together (marks_in parts.new)
        ≡ marked_from (together (marks_in parts.old)) (before (marks_in parts.old) place.old.part place.old.id) (mapped old.now now.now) }
    ensures behind { before (marks_in parts.new) place.new.part place.new.id
        ≡ before (marks_in parts.old) place.old.part place.old.id + length (mapped old.now now.now) }
    ensures place { IsPlace (marks_in parts.new) place.new.part place.new.id }
    ensures docs { docs_in parts.new ≡ docs_in parts.old }
    ensures lengths { lengths (marks_in parts.new) ≡ lengths (marks_in parts.old) }
{
    for id in 0..old.len() {
        if !old.is_marked(id) {
            mark_next(parts, place, now.is_marked(id));
        }
    }
}

/// The same of the documents of all parts.
pub(crate) fn mark_all(parts: &mut [MergedPart], old: &[MarkedPart], now: &[DelList])
    requires same { AllZip (λ m marks. length marks ≡ size m.source) old.now now.now }
    requires place { IsPlace (marks_in parts.old) 0 0 }
    requires room { length (live None old.now) ≤ length (together (marks_in parts.old)) }
    ensures marks { together (marks_in parts.new) ≡ marked_from (together (marks_in parts.old)) 0 (all_mapped old.now now.now) }
    ensures counted { length (all_mapped old.now now.now) ≡ length (live None old.now) }
    ensures docs { docs_in parts.new ≡ docs_in parts.old }
    ensures lengths { lengths (marks_in parts.new) ≡ lengths (marks_in parts.old) }
{
    let mut place = Place { part: 0, id: 0 };
    for number in 0..old.len() {
        mark_part(parts, &mut place, old[number].marks(), &now[number]);
    }
}
