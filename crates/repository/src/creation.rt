// The beginning of a repository.
ghost use Rattle.std.specs.Prelude.{◌≡◌, ◌≤◌, ◌≢◌, Err, Some, false, is_some, not, IsTrue, IfOk, IfErr};
ghost use Rattle.std.specs.Option.{option_map};
ghost use Rattle.ri_base.specs.Faults.{IsOutside};
ghost use Rattle.ri_base.specs.Keeps.{Rose};
ghost use Rattle.store_ends.specs.Files.{Files, GoesOn, IsQuiet, Leaves, OldOrNew, with_file};
ghost use Rattle.manifest.specs.Spelling.{manifest_text};
ghost use Rattle.holdings.specs.declared.limits.Limits.{Limits};
ghost use Rattle.repository.specs.Names.{manifest_name};
ghost use Rattle.repository.specs.Stands.{IsStarted, Stands, empty_collection, empty_manifest};

use crate::files::{has_manifest, replace_manifest};
use manifest::{Manifest, manifest_bytes};
use ri_base::{Bytes, List, NoMemory, SegFault};
use std::alloc::Global;
use store_ends::Store;

/// The bytes of the manifest of a repository in which nothing is.
fn empty_bytes(alloc: Global) -> Result<Bytes, NoMemory>
    ensures { IfOk result (λ bytes. bytes ≡ manifest_text empty_manifest) }
{
    let manifest = Manifest {
        version: 1,
        next: 1,
        segments: List::new(alloc),
        stale: List::new(alloc),
        priors: List::new(alloc),
    };
    manifest_bytes(alloc, &manifest)
}

/// Makes a repository in which nothing is, and answers true. Where there is one already nothing changes, and the answer is false.
pub fn create<T: Store>(alloc: Global, store: &mut T) -> Result<bool, SegFault>
    ensures found { (f : Files) → T.files store.old ≡ Some f → IfOk result (λ made. made ≡ not (is_some (f manifest_name).read)) }
    ensures made { IfOk result (λ made. IsTrue made
        → T.files store.new ≡ option_map (with_file manifest_name (Some (manifest_text empty_manifest))) (T.files store.old)) }
    ensures kept { IfOk result (λ made. made ≡ false → IsQuiet T.files T.layers T.clock T.since T.longest T.held store.old store.new) }

    // Where there is one, nothing changes, whatever the answer.
    ensures there { (f : Files) → T.files store.old ≡ Some f → IsTrue (is_some (f manifest_name).read)
        → IsQuiet T.files T.layers T.clock T.since T.longest T.held store.old store.new }

    // A stop leaves the files as they were, or with the manifest that lists nothing.
    ensures stops { Leaves (T.since store.old) (T.since store.new) (OldOrNew manifest_name (Some (manifest_text empty_manifest)) (T.files store.old)) }
    ensures changed { OldOrNew manifest_name (Some (manifest_text empty_manifest)) (T.files store.old) (T.files store.new) }

    // Files with that manifest stand for a collection in which nothing is, within any limits.
    ensures stands { (f : Files) (limits : Limits) → T.files store.old ≡ Some f → IfOk result (λ made. IsTrue made → Stands limits (T.files store.new) empty_collection) }
    ensures started { (limits : Limits) → Leaves (T.since store.old) (T.since store.new) (IsStarted limits (T.files store.old)) }

    ensures goes_on { GoesOn T.layers T.clock T.longest T.held store.old store.new }
    ensures outside { IfErr result IsOutside }
    ensures later { T.faults store.old ≤ T.faults store.new }
    ensures store { result ≡ Err SegFault.Store → Rose (T.faults store.old) (T.faults store.new) }
    ensures none { result ≢ Err SegFault.Store → T.faults store.new ≡ T.faults store.old }
{
    if has_manifest(store)? {
        return Ok(false);
    }
    let bytes = empty_bytes(alloc)?;
    replace_manifest(store, bytes.as_slice())?;
    Ok(true)
}
