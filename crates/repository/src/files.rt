// Reading and changing files.
ghost use Rattle.std.specs.Prelude.{◌≡◌, ◌≤◌, ◌≢◌, Err, Some, None, length, is_some, IsAscii, IfOk, IfErr, IfSome, OnOk};
ghost use Rattle.std.specs.Option.{option_map};
ghost use Rattle.ri_base.specs.Faults.{IsOutside};
ghost use Rattle.ri_base.specs.Keeps.{Rose};
ghost use Rattle.store_ends.specs.Causes.{HasOutCause};
ghost use Rattle.store_ends.specs.Files.{AnyState, Files, GoesOn, IsQuiet, Leaves, OldOrNew, with_file};
ghost use Rattle.repository.specs.Names.{manifest_name, prior_name};

use crate::names::prior_name;
use disk_index::{as_text, store_fault};
use ri_base::SegFault;
use ri_ends::OutFault;
use std::alloc::Global;
use store_ends::Store;

/// Whether there is a manifest.
pub fn has_manifest<T: Store>(store: &mut T) -> Result<bool, SegFault>
    ensures found { (f : Files) → T.files store.old ≡ Some f → IfOk result (λ there. there ≡ is_some (f manifest_name).read) }
    ensures outside { IfErr result IsOutside }
    ensures quiet { IsQuiet T.files T.layers T.clock T.since T.longest T.held store.old store.new }
    ensures later { T.faults store.old ≤ T.faults store.new }
    ensures store { result ≡ Err SegFault.Store → Rose (T.faults store.old) (T.faults store.new) }
    ensures none { result ≢ Err SegFault.Store → T.faults store.new ≡ T.faults store.old }
{
    match store.len("manifest") {
        Ok(length) => Ok(length.is_some()),
        Err(fault) => Err(store_fault(fault)),
    }
}

/// The bytes that are read of a file, or `None` where there is no such file.
fn read_file<T: Store>(
    alloc: Global,
    store: &mut T,
    name: &str,
) -> Result<Option<Vec<u8>>, OutFault>
    requires { length name.now ≤ T.longest store.old }
    ensures bytes { IfOk result (λ found. IfSome (T.files store.old) (λ f. option_map (λ bytes. bytes.items) found ≡ (f name.now).read)) }
    ensures quiet { IsQuiet T.files T.layers T.clock T.since T.longest T.held store.old store.new }
    ensures cause { HasOutCause (T.faults store.old) (T.faults store.new) result }
    ensures none { result ≢ Err OutFault.Failed → T.faults store.new ≡ T.faults store.old }
{
    let Some(length) = store.len(name)? else {
        return Ok(None);
    };
    let mut bytes = vec![in alloc; 0u8; length as usize]?;
    let count = store.read_at(name, 0, &mut bytes)?;
    bytes.truncate(count);
    Ok(Some(bytes))
}

/// The bytes that are read of the manifest, or `None` where there is none.
pub fn manifest_file<T: Store>(alloc: Global, store: &mut T) -> Result<Option<Vec<u8>>, SegFault>
    ensures bytes { (f : Files) → T.files store.old ≡ Some f → IfOk result (λ found. option_map (λ bytes. bytes.items) found ≡ (f manifest_name).read) }
    ensures outside { IfErr result IsOutside }
    ensures quiet { IsQuiet T.files T.layers T.clock T.since T.longest T.held store.old store.new }
    ensures later { T.faults store.old ≤ T.faults store.new }
    ensures store { result ≡ Err SegFault.Store → Rose (T.faults store.old) (T.faults store.new) }
    ensures none { result ≢ Err SegFault.Store → T.faults store.new ≡ T.faults store.old }
{
    match read_file(alloc, store, "manifest") {
        Ok(found) => Ok(found),
        Err(fault) => Err(store_fault(fault)),
    }
}

/// The bytes that are read of the file of the prior with this number, or `None` where there is none.
pub fn prior_file<T: Store>(
    alloc: Global,
    store: &mut T,
    number: u64,
) -> Result<Option<Vec<u8>>, SegFault>
    ensures bytes { (f : Files) → T.files store.old ≡ Some f → IfOk result (λ found. option_map (λ bytes. bytes.items) found ≡ (f (prior_name number)).read) }
    ensures outside { IfErr result IsOutside }
    ensures quiet { IsQuiet T.files T.layers T.clock T.since T.longest T.held store.old store.new }
    ensures later { T.faults store.old ≤ T.faults store.new }
    ensures store { result ≡ Err SegFault.Store → Rose (T.faults store.old) (T.faults store.new) }
    ensures none { result ≢ Err SegFault.Store → T.faults store.new ≡ T.faults store.old }
{
    let name = prior_name(number);
    match read_file(alloc, store, as_text(&name)) {
        Ok(found) => Ok(found),
        Err(fault) => Err(store_fault(fault)),
    }
}

/// Replaces the manifest.
#[tactic(auto, unfolding(crate::specs::Names::manifest_name))]
pub fn replace_manifest<T: Store>(store: &mut T, manifest: &[u8]) -> Result<(), SegFault>
    ensures done { OnOk result (T.files store.new ≡ option_map (with_file manifest_name (Some manifest.now)) (T.files store.old)) }
    ensures changed { OldOrNew manifest_name (Some manifest.now) (T.files store.old) (T.files store.new) }
    ensures stops { Leaves (T.since store.old) (T.since store.new) (OldOrNew manifest_name (Some manifest.now) (T.files store.old)) }
    ensures goes_on { GoesOn T.layers T.clock T.longest T.held store.old store.new }
    ensures outside { IfErr result IsOutside }
    ensures later { T.faults store.old ≤ T.faults store.new }
    ensures store { result ≡ Err SegFault.Store → Rose (T.faults store.old) (T.faults store.new) }
    ensures none { result ≢ Err SegFault.Store → T.faults store.new ≡ T.faults store.old }
{
    match store.replace("manifest", manifest) {
        Ok(()) => Ok(()),
        Err(fault) => Err(store_fault(fault)),
    }
}

/// Makes the file of this name hold these bytes. A stop within it leaves any bytes, or no such file.
pub fn put_file<T: Store>(store: &mut T, name: &[u8], bytes: &[u8]) -> Result<(), SegFault>
    requires ascii { IsAscii name.now }
    requires short { length name.now ≤ 30 }
    ensures done { OnOk result (T.files store.new ≡ option_map (with_file name.now (Some bytes.now)) (T.files store.old)) }
    ensures changed { AnyState name.now (T.files store.old) (T.files store.new) }
    ensures stops { Leaves (T.since store.old) (T.since store.new) (AnyState name.now (T.files store.old)) }
    ensures goes_on { GoesOn T.layers T.clock T.longest T.held store.old store.new }
    ensures outside { IfErr result IsOutside }
    ensures later { T.faults store.old ≤ T.faults store.new }
    ensures store { result ≡ Err SegFault.Store → Rose (T.faults store.old) (T.faults store.new) }
    ensures none { result ≢ Err SegFault.Store → T.faults store.new ≡ T.faults store.old }
{
    match store.put(as_text(name), bytes) {
        Ok(()) => Ok(()),
        Err(fault) => Err(store_fault(fault)),
    }
}

/// Leaves no file of this name.
pub fn remove_file<T: Store>(store: &mut T, name: &[u8]) -> Result<(), SegFault>
    requires ascii { IsAscii name.now }
    requires short { length name.now ≤ 30 }
    ensures done { OnOk result (T.files store.new ≡ option_map (with_file name.now None) (T.files store.old)) }
    ensures changed { OldOrNew name.now None (T.files store.old) (T.files store.new) }
    ensures stops { Leaves (T.since store.old) (T.since store.new) (OldOrNew name.now None (T.files store.old)) }
    ensures goes_on { GoesOn T.layers T.clock T.longest T.held store.old store.new }
    ensures outside { IfErr result IsOutside }
    ensures later { T.faults store.old ≤ T.faults store.new }
    ensures store { result ≡ Err SegFault.Store → Rose (T.faults store.old) (T.faults store.new) }
    ensures none { result ≢ Err SegFault.Store → T.faults store.new ≡ T.faults store.old }
{
    match store.remove(as_text(name)) {
        Ok(()) => Ok(()),
        Err(fault) => Err(store_fault(fault)),
    }
}
