// The record of what a store in memory did, and the files that come of it.
ghost use Rattle.std.specs.Prelude.{◌≡◌, OnErr, OnOk, IfOk};
ghost use Rattle.std.specs.Option.{option_map};
ghost use Rattle.store_ends.specs.Files.{whole};
ghost use Rattle.store_ends.specs.Past.{first_files, after, state_of, Records};

use std::alloc::{AllocError, Global};

/// A call that changed a file or was to change it.
#[derive(Drop)]
pub(crate) struct Change {
    pub name: Vec<u8>,
    // what it makes of the file
    pub state: Option<Vec<u8>>,
    pub done: bool,
    // A stop within it leaves any bytes or no file.
    pub torn: bool,
}

/// What was first under a name.
fn first_of<'a>(first: &'a [(Vec<u8>, Vec<u8>)], name: &str) -> Option<&'a [u8]>
    ensures { whole (option_map (λ bytes. bytes.now) result) ≡ first_files first.now name.now }
{
    for (other, bytes) in first {
        if name.as_bytes() == other.as_slice() {
            return Some(bytes);
        }
    }
    None
}

/// What is under a name after these calls.
pub(crate) fn bytes_of<'a>(
    first: &'a [(Vec<u8>, Vec<u8>)],
    changes: &'a [Change],
    name: &str,
) -> Option<&'a [u8]>
    ensures { whole (option_map (λ bytes. bytes.now) result) ≡ after (first_files first.now) changes.now name.now }
{
    let mut bytes = first_of(first, name);
    for change in changes {
        if change.done && name.as_bytes() == change.name.as_slice() {
            bytes = change.state.as_deref();
        }
    }
    bytes
}

fn copy(alloc: Global, state: Option<&[u8]>) -> Result<Option<Vec<u8>>, AllocError>
    ensures { IfOk result (λ copied. state_of copied ≡ option_map (λ bytes. bytes.now) state.entry) }
{
    match state {
        Some(bytes) => Ok(Some(bytes.to_vec(alloc)?)),
        None => Ok(None),
    }
}

/// Records a call on the file of this name.
pub(crate) fn record(
    alloc: Global,
    changes: &mut Vec<Change>,
    name: &str,
    state: Option<&[u8]>,
    done: bool,
    torn: bool,
) -> Result<(), AllocError>
    ensures ok { OnOk result (Records changes.old.items changes.new.items name.now (option_map (λ bytes. bytes.now) state.entry) done torn) }
    ensures err { OnErr result (changes.new.items ≡ changes.old.items) }
{
    let state = copy(alloc, state)?;
    let name = name.as_bytes().to_vec(alloc)?;
    changes.push(Change {
        name,
        state,
        done,
        torn,
    })?;
    Ok(())
}
