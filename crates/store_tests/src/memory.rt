// The store in memory, and how its calls fail.
use crate::calls::{Answer, CALLS, Call, FAILED, answered};
use std::alloc::Global;
use store_ends::{Left, MemStore, StoreFail};

/// How many calls of the table a store without files answers so.
fn answered_by_new(alloc: Global) -> usize {
    let mut store = MemStore::new(alloc, Vec::new(alloc), Vec::new(alloc));
    answered(&mut store, &CALLS)
}

#[test]
fn calls_in_memory(rt: HostRuntime) {
    assert_eq!(rt; answered_by_new(rt.alloc()), CALLS.len());
}

/// What a call that fails is to leave.
#[derive(Clone, Copy)]
enum Leaves {
    Old,
    New,
    Torn,
}

/// A call on a file that holds `old`, what it is to leave (`torn` where it is torn), and what the file then holds.
static FAILING: [(Call, Leaves, Answer<'static>); 11] = [
    (Call::Put(b"new"), Leaves::Old, Answer::Bytes(b"old")),
    (Call::Put(b"new"), Leaves::New, Answer::Bytes(b"new")),
    (Call::Put(b"new"), Leaves::Torn, Answer::Bytes(b"torn")),
    (Call::Replace(b"new"), Leaves::Old, Answer::Bytes(b"old")),
    (Call::Replace(b"new"), Leaves::New, Answer::Bytes(b"new")),
    (Call::Replace(b"new"), Leaves::Torn, Answer::Bytes(b"old")),
    (Call::Remove, Leaves::Old, Answer::Bytes(b"old")),
    (Call::Remove, Leaves::New, Answer::Bytes(b"")),
    (Call::Remove, Leaves::Torn, Answer::Bytes(b"old")),
    (Call::Len, Leaves::New, Answer::Bytes(b"old")),
    (Call::Read(0, 8), Leaves::Torn, Answer::Bytes(b"old")),
];

fn left_by(alloc: Global, leaves: Leaves) -> Option<Left> {
    match leaves {
        Leaves::Old => Some(Left::Old),
        Leaves::New => Some(Left::New),
        Leaves::Torn => Some(Left::Torn(b"torn".to_vec(alloc).ok()?)),
    }
}

/// The second call is to fail.
fn fails_of(alloc: Global, leaves: Leaves) -> Option<Vec<StoreFail>> {
    let left = left_by(alloc, leaves)?;
    let mut fails = Vec::new(alloc);
    fails.push(StoreFail { call: 2, left }).ok()?;
    Some(fails)
}

/// The one file.
fn files(alloc: Global) -> Option<Vec<(Vec<u8>, Vec<u8>)>> {
    let name = b"f".to_vec(alloc).ok()?;
    let bytes = b"old".to_vec(alloc).ok()?;
    let mut files = Vec::new(alloc);
    files.push((name, bytes)).ok()?;
    Some(files)
}

/// A store with the file, whose second call is to fail.
fn failing(alloc: Global, leaves: Leaves) -> Option<MemStore> {
    let files = files(alloc)?;
    let fails = fails_of(alloc, leaves)?;
    Some(MemStore::new(alloc, files, fails))
}

/// Whether the call fails and leaves this, where the file is looked at before.
fn leaves_so(alloc: Global, call: Call, leaves: Leaves, left: Answer<'_>) -> bool {
    let calls = [
        ("f", Call::Len, Answer::Length(Some(3))),
        ("f", call, FAILED),
        ("f", Call::Read(0, 8), left),
    ];
    match failing(alloc, leaves) {
        Some(mut store) => answered(&mut store, &calls) == calls.len(),
        None => false,
    }
}

#[test]
fn calls_that_fail(rt: HostRuntime) {
    for (call, leaves, left) in &FAILING {
        assert!(rt; leaves_so(rt.alloc(), *call, *leaves, *left));
    }
}
