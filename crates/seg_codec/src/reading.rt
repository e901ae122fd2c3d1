// The call that reads a whole file.
ghost use Rattle.std.specs.Prelude.{◌≡◌, List, Ok, Err, length, IfOk, IfErr};
ghost use Rattle.ri_base.specs.Documents.{Document};
ghost use Rattle.seg_codec.specs.Held.{AreRead};
ghost use Rattle.seg_codec.specs.Part.{IsPart};
ghost use Rattle.seg_codec.specs.Segment.{segment};
ghost use Rattle.seg_codec.specs.Twice.{IsAcross};
ghost use Rattle.seg_codec.specs.Whole.{Fault, IsFaultOf, grammar};
ghost use Rattle.seg_codec.specs.declared.whole.Whole.{Whole};

use crate::held::{documents_held, ranks_held};
use crate::twice::place_told_twice;
use crate::whole::whole_of;
use ri_base::{Doc, FileName, List, PartName, SegFault};
use std::alloc::Global;

/// The documents whose segment these bytes are.
pub fn read_segment(alloc: Global, bytes: &[u8], file: FileName) -> Result<List<Doc>, SegFault>
    // What is read is some documents, and the bytes are their segment.
    ensures found { IfOk result (λ docs. (bytes.now ≡ segment docs) × IsPart docs) }
    // The segment of documents is read as these documents, unless memory runs out.
    ensures only { (docs : List Document) → IsPart docs → bytes.now ≡ segment docs → AreRead result docs }
    // Where a part breaks its grammar, the fault is the first one from the left, at its place.
    ensures first { (fault : Fault) → grammar bytes.now ≡ Err fault → IsFaultOf result file fault }
    // Where none does, the fault is the first posting that stands a second time, else the end of the file.
    ensures across { (w : Whole) → grammar bytes.now ≡ Ok w → IfErr result (IsAcross file (length bytes.now) w) }
{
    let whole = whole_of(alloc, bytes, file)?;
    match ranks_held(alloc, &whole)? {
        Some(ranks) => Ok(documents_held(alloc, whole, &ranks)?),
        None => Err(SegFault::Malformed {
            file,
            part: PartName::Block,
            place: place_told_twice(alloc, &whole)?.unwrap_or(bytes.len() as u64),
        }),
    }
}
