// The store in a folder.
use crate::calls::{Answer, CALLS, Call, FAILED, Row, answered, failing_calls};
use std::fs;
use store_ends::FolderStore;

/// Whether the folder is there by now.
fn makes(rt: &HostRuntime, folder: &str) -> bool {
    fs::create_dir(rt, folder).is_ok()
}

/// Whether the folder is gone by now, which is empty before.
fn removes(rt: &HostRuntime, folder: &str) -> bool {
    fs::remove_dir(rt, folder).is_ok()
}

/// Whether a new store over the folder answers these calls so.
fn answers_in(rt: &HostRuntime, folder: &str, calls: &[Row<'_>]) -> bool {
    match FolderStore::new(rt, folder) {
        Ok(mut store) => answered(&mut store, calls) == calls.len(),
        Err(_) => false,
    }
}

/// Whether a call of each kind on the file of this name fails over the folder.
fn all_fail_in(rt: &HostRuntime, folder: &str, name: &str) -> bool {
    answers_in(rt, folder, &failing_calls(name))
}

// The folder is empty behind them, so nothing else was left in it.
#[test]
fn calls_in_a_folder(rt: HostRuntime) {
    assert!(rt; makes(&rt, "calls"));
    assert!(rt; answers_in(&rt, "calls", &CALLS));
    assert!(rt; removes(&rt, "calls"));
}

/// Calls of which a second store on the same folder sees what the first one did.
static KEPT: [Row<'static>; 2] = [
    ("a", Call::Put(b"abc"), Answer::Done),
    ("b", Call::Replace(b"de"), Answer::Done),
];

static SEEN: [Row<'static>; 4] = [
    ("a", Call::Read(0, 8), Answer::Bytes(b"abc")),
    ("b", Call::Read(0, 8), Answer::Bytes(b"de")),
    ("a", Call::Remove, Answer::Done),
    ("b", Call::Remove, Answer::Done),
];

#[test]
fn a_folder_keeps_its_files(rt: HostRuntime) {
    assert!(rt; makes(&rt, "kept"));
    assert!(rt; answers_in(&rt, "kept", &KEPT));
    assert!(rt; answers_in(&rt, "kept", &SEEN));
    assert!(rt; removes(&rt, "kept"));
}

/// A folder that isn't there has no files and takes none, nor does one that nobody may write.
static MISSING: [Row<'static>; 5] = [
    ("a", Call::Len, Answer::Length(None)),
    ("a", Call::Read(0, 8), Answer::Bytes(b"")),
    ("a", Call::Remove, Answer::Done),
    ("a", Call::Put(b"new"), FAILED),
    ("a", Call::Replace(b"new"), FAILED),
];

// Linux lets nobody make a file in its folder of processes.
#[test]
fn no_folder_to_write(rt: HostRuntime) {
    for folder in &["missing", "/proc"] {
        assert!(rt; answers_in(&rt, folder, &MISSING), "{folder}");
    }
    assert!(rt; all_fail_in(&rt, "", "a"));
}

/// Whether there is a folder with a folder and a file in it by now.
fn makes_places(rt: &HostRuntime) -> bool {
    makes(rt, "taken") && makes(rt, "taken/folder") && fs::write(rt, "taken/file", "text").is_ok()
}

// A file stands where the folder is to be, and a folder where a file is to be.
#[test]
fn places_that_are_taken(rt: HostRuntime) {
    assert!(rt; makes_places(&rt));
    assert!(rt; all_fail_in(&rt, "taken/file", "a"));
    assert!(rt; all_fail_in(&rt, "taken", "folder"));
}

/// Names that lie outside a folder or are no names of files.
static OUTSIDE: [&str; 8] = [
    "",
    ".",
    "..",
    "../outside",
    "sub/a",
    "/outside",
    ".new",
    "a\0",
];

#[test]
fn names_outside_a_folder(rt: HostRuntime) {
    assert!(rt; makes(&rt, "inside") && makes(&rt, "inside/sub"));
    for name in &OUTSIDE {
        assert!(rt; all_fail_in(&rt, "inside", name), "{name}");
    }
    assert!(rt; removes(&rt, "inside/sub") && removes(&rt, "inside"));
}
