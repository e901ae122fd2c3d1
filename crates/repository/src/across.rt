// The faults of parts that can't be held together, told of the segments that they were opened of.
ghost use Rattle.std.specs.Prelude.{◌≡◌, ◌≤◌, ◌<◌, ◌⊎◌, ◌≢◌, List, Some, length};
ghost use Rattle.std.specs.List.{AllZip};
ghost use Rattle.ri_base.specs.Faults.{IsOutside};
ghost use Rattle.ri_base.specs.Keeps.{Rose};
ghost use Rattle.ri_base.specs.declared.seg_fault.FileName.TheVariants as names;
ghost use Rattle.ri_base.specs.declared.seg_fault.PartName.TheVariants as parts;
ghost use Rattle.ri_base.specs.declared.seg_fault.SegFault.TheVariants as faults;
ghost use Rattle.store_ends.specs.Files.{Files, IsQuiet};
ghost use Rattle.disk_index.specs.Parts.{outlines_of};
ghost use Rattle.disk_index.specs.Snapshots.{Marked};
ghost use Rattle.repository.specs.Opening.{IsEntryOpened, IsPartOf, TellsAcross};
ghost use Rattle.repository.specs.Places.{document_place};

use crate::docno_place::docno_place;
use holdings::PartsFault;
use manifest::SegEntry;
use ri_base::{FileName, PartName, SegFault};
use std::alloc::Global;
use store_ends::Store;

/// Where a header tells the number of documents, and that of tokens.
const DOCS_PLACE: u64 = 12;

const TOKENS_PLACE: u64 = 16;

/// The header of this entry's segment tells too many, at this place.
fn header_fault(entry: &SegEntry, place: u64) -> SegFault
    ensures { result ≡ faults.Malformed (names.Segment entry.now.number) parts.Header place }
{
    SegFault::Malformed {
        file: FileName::Segment(entry.number),
        part: PartName::Header,
        place,
    }
}

/// The docno of a document of this entry is there already. The documents are read once more for its place.
fn docno_fault<T: Store>(alloc: Global, store: &mut T, entry: &SegEntry, id: u32) -> SegFault
    ensures tells { (f : Files) (m : Marked) → T.files store.old ≡ Some f → IsEntryOpened (Some f) entry.now m
        → (result ≡ faults.Malformed (names.Segment entry.now.number) parts.Documents (document_place (outlines_of m.source) id)) ⊎ IsOutside result }
    ensures quiet { IsQuiet T.files T.layers T.clock T.since T.longest T.held store.old store.new }
    ensures later { T.faults store.old ≤ T.faults store.new }
    ensures store { result ≡ SegFault.Store → Rose (T.faults store.old) (T.faults store.new) }
    ensures none { result ≢ SegFault.Store → T.faults store.new ≡ T.faults store.old }
{
    match docno_place(alloc, store, entry, id) {
        Ok(place) => SegFault::Malformed {
            file: FileName::Segment(entry.number),
            part: PartName::Documents,
            place,
        },
        Err(fault) => fault,
    }
}

/// Why the parts of these entries, which were opened, can't be held together, told of the entry of the part.
pub fn across<T: Store>(
    alloc: Global,
    store: &mut T,
    entries: &[SegEntry],
    fault: PartsFault,
) -> SegFault
    requires { IsPartOf (length entries.now) fault }
    ensures tells { (f : Files) (ms : List Marked) → T.files store.old ≡ Some f → AllZip (IsEntryOpened (Some f)) entries.now ms → TellsAcross entries.now ms fault result ⊎ IsOutside result }
    ensures memory { fault ≡ PartsFault.Memory → IsOutside result }
    ensures quiet { IsQuiet T.files T.layers T.clock T.since T.longest T.held store.old store.new }
    ensures later { T.faults store.old ≤ T.faults store.new }
    ensures store { result ≡ SegFault.Store → Rose (T.faults store.old) (T.faults store.new) }
    ensures none { result ≢ SegFault.Store → T.faults store.new ≡ T.faults store.old }
{
    match fault {
        PartsFault::TooManyDocs { part } => header_fault(&entries[part], DOCS_PLACE),
        PartsFault::TooManyTokens { part } => header_fault(&entries[part], TOKENS_PLACE),
        PartsFault::Repeated { part, id } => docno_fault(alloc, store, &entries[part], id),
        PartsFault::Memory => SegFault::Memory,
    }
}
