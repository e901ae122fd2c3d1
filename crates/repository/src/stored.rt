// Whether documents are in files.
ghost use Rattle.std.specs.Prelude.{IsTrue};
ghost use Rattle.std.specs.List.{All};
ghost use Rattle.repository.specs.Entries.{IsOnDisk};

use disk_index::{MarkedPart, Part};

fn is_on_disk(part: &MarkedPart) -> bool
    ensures yes { IsTrue result → IsOnDisk part.now.source }
    ensures no { IsOnDisk part.now.source → IsTrue result }
{
    match part.part() {
        Part::Memory(_) => false,
        Part::Disk(_) => true,
    }
}

/// Whether each of these parts is in a file.
pub fn are_on_disk(parts: &[MarkedPart]) -> bool
    ensures yes { IsTrue result → All (λ m. IsOnDisk m.source) parts.now }
    ensures no { All (λ m. IsOnDisk m.source) parts.now → IsTrue result }
{
    for part in parts {
        if !is_on_disk(part) {
            return false;
        }
    }
    true
}
