// Where the live document with a docno is.
ghost use Rattle.std.specs.Prelude.{◌≡◌, ◌<◌, Option, IfSome};
ghost use Rattle.std.specs.Option.{option_map};
ghost use Rattle.ri_base.specs.Collection.{document_at};
ghost use Rattle.store_ends.specs.Files.{Files};
ghost use Rattle.disk_index.specs.Parts.{reads, size};
ghost use Rattle.disk_index.specs.Snapshots.{live, live_in};
ghost use Rattle.desk.specs.Answer.{document_with};
ghost use Rattle.desk.specs.Places.{IsPlaceIn, document_in};

use disk_index::MarkedPart;
use ri_base::Docno;

/// The id of the live document of a part with this docno.
fn id_in(marked: &MarkedPart, docno: &Docno) -> Option<u32>
    ensures id { IfSome result (λ id. id < size marked.now.source) }
    ensures document { (told : Option Files) → document_with docno.now (live_in told marked.now) ≡ option_map (document_at (reads told marked.now.source)) result }
{
    let part = marked.part();
    for id in 0..part.docs() {
        if !marked.is_marked(id) && docno.as_bytes() == part.docno(id).as_bytes() {
            return Some(id);
        }
    }
    None
}

/// The number of the part and the id there of the live document with this docno. The docnos of all parts are gone over once.
pub fn place_of(parts: &[MarkedPart], docno: &Docno) -> Option<(usize, u32)>
    ensures place { IfSome result (IsPlaceIn parts.now) }
    ensures document { (told : Option Files) → document_with docno.now (live told parts.now) ≡ option_map (document_in told parts.now) result }
{
    for number in 0..parts.len() {
        if let Some(id) = id_in(&parts[number], docno) {
            return Some((number, id));
        }
    }
    None
}
