// A repository of the files of a store.
ghost use Rattle.std.specs.Prelude.{◌≡◌, ◌≤◌, ◌⊎◌, ◌≢◌, List, Some, Err, is_some, IfOk, IfErr, IfSome};
ghost use Rattle.std.specs.List.{AllZip};
ghost use Rattle.ri_base.specs.Documents.{Document};
ghost use Rattle.ri_base.specs.Faults.{IsOutside};
ghost use Rattle.ri_base.specs.Keeps.{Rose};
ghost use Rattle.store_ends.specs.Files.{Files, IsQuiet};
ghost use Rattle.manifest.specs.Fits.{IsManifest};
ghost use Rattle.manifest.specs.declared.manifest.Manifest.{Manifest};
ghost use Rattle.repository.specs.Names.{manifest_name};
ghost use Rattle.repository.specs.Opening.{IsManifestFault};
ghost use Rattle.repository.specs.Stands.{IsManifestRead};

use crate::files::manifest_file;
use manifest::{Manifest, read_manifest};
use ri_base::SegFault;
use std::alloc::Global;
use store_ends::Store;

/// The manifest, or `None` where there is none.
pub fn find_manifest<T: Store>(alloc: Global, store: &mut T) -> Result<Option<Manifest>, SegFault>
    ensures there { (f : Files) → T.files store.old ≡ Some f → IfOk result (λ found. is_some found ≡ is_some (f manifest_name).read) }
    ensures found { (f : Files) → T.files store.old ≡ Some f → IfOk result (λ found. IfSome found (IsManifestRead (T.files store.old))) }
    ensures form { IfOk result (λ found. IfSome found IsManifest) }
    ensures honest { (list : Manifest) → IsManifestRead (T.files store.old) list → IfErr result IsOutside }
    ensures fault { (f : Files) → T.files store.old ≡ Some f → IfErr result (λ fault. IsOutside fault ⊎ IsManifestFault f fault) }
    ensures quiet { IsQuiet T.files T.layers T.clock T.since T.longest T.held store.old store.new }
    ensures later { T.faults store.old ≤ T.faults store.new }
    ensures store { result ≡ Err SegFault.Store → Rose (T.faults store.old) (T.faults store.new) }
    ensures none { result ≢ Err SegFault.Store → T.faults store.new ≡ T.faults store.old }
{
    match manifest_file(alloc, store)? {
        None => Ok(None),
        Some(bytes) => Ok(Some(read_manifest(alloc, &bytes)?)),
    }
}
