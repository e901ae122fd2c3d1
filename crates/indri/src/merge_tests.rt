// Runs of `merge` over a store in memory.
use crate::run_words;
use crate::store_tests::{
    ADD_TWO, CREATE, D1, Step, are_ended, first_wrong, is_ended, is_run, source_of, words_of,
    writes,
};
use crate::tests::USAGE;
use indri_app::Status;
use ri_ends::{MemSink, SinkFail};
use std::alloc::Global;
use store_ends::{Left, MemStore, Store, StoreFail};

/// What is told before a merge and behind it. It reads no input, and answers a query as before.
static MERGES: [Step; 17] = [
    (&["merge"], "", Status::NoRepository, "norepository\n"),
    CREATE,
    (&["merge"], "x", Status::Done, "merged 0\n"),
    ADD_TWO,
    (&["merge", "a"], "", Status::Usage, USAGE),
    (&["merge", "--k", "1"], "", Status::Usage, USAGE),
    (&["merge"], "x", Status::Done, "merged 2\n"),
    (
        &["query", "--mu", "1", "a"],
        "",
        Status::Done,
        "1 - -0.263034 d2 0 1\n2 > -0.847996 d1 0 2\n",
    ),
    (
        &["add"],
        D1,
        Status::SomeRefused,
        "refused Repeated d1\nflushed 2\n",
    ),
    (&["delete"], "d1\n", Status::Done, "deleted d1\nflushed 1\n"),
    (&["merge"], "", Status::Done, "merged 1\n"),
    (
        &["delete"],
        "d1\n",
        Status::SomeRefused,
        "refused NoSuchDoc d1\nflushed 1\n",
    ),
    (
        &["query", "--mu", "1", "a"],
        "",
        Status::Done,
        "1 - -0.000000 d2 0 1\n",
    ),
    (&["delete"], "d2\n", Status::Done, "deleted d2\nflushed 0\n"),
    (&["merge"], "", Status::Done, "merged 0\n"),
    (&["query", "a"], "", Status::Done, ""),
    (&["add"], D1, Status::Done, "added d1 2\nflushed 1\n"),
];

/// A document that was deleted is added again, and a prior is set.
static CHANGED: [Step; 9] = [
    CREATE,
    ADD_TWO,
    (
        &["prior", "home"],
        "d1 1/2\n* 1/4\n",
        Status::Done,
        "prior home 1\n",
    ),
    (&["delete"], "d1\n", Status::Done, "deleted d1\nflushed 1\n"),
    (
        &["add"],
        "<DOC><DOCNO>d1</DOCNO>a</DOC>",
        Status::Done,
        "added d1 1\nflushed 2\n",
    ),
    (&["merge"], "", Status::Done, "merged 2\n"),
    (
        &["query", "--mu", "1", "a"],
        "",
        Status::Done,
        "1 - -0.000000 d1 0 1\n2 = -0.000000 d2 0 1\n",
    ),
    (
        &["query", "--mu", "1", "a #prior(home)"],
        "",
        Status::Done,
        "1 - -0.500000 d1 0 1\n2 > -1.000000 d2 0 1\n",
    ),
    (&["merge"], "", Status::Done, "merged 2\n"),
];

#[test]
fn merges(rt: HostRuntime) {
    assert!(rt; are_ended(rt.alloc(), &MERGES));
    assert!(rt; are_ended(rt.alloc(), &CHANGED));
}

const FIRST: &str = "seg-0000000000000001";

/// A store of the documents d1 and d2, which stand in the segment 1 of 155 bytes.
fn two_documents(alloc: Global) -> Option<MemStore> {
    let mut store = MemStore::new(alloc, Vec::new(alloc), Vec::new(alloc));
    match first_wrong(alloc, &mut store, &[CREATE, ADD_TWO]) {
        None => Some(store),
        Some(_) => None,
    }
}

/// The bytes of segment 1.
fn segment(store: &mut MemStore, name: &str) -> Option<[u8; 155]> {
    if name.len() > 30 {
        return None;
    }
    let mut bytes = [0; 155];
    let count = store.read_at(name, 0, &mut bytes).ok()?;
    if count == 155 { Some(bytes) } else { None }
}

/// Whether the file has these bytes by now.
fn is_put(store: &mut MemStore, name: &str, bytes: &[u8]) -> bool {
    name.len() <= 30 && store.replace(name, bytes).is_ok()
}

/// The same store, but that its last position is 0, which stands in the file before.
fn hurt(alloc: Global) -> Option<MemStore> {
    let mut store = two_documents(alloc)?;
    let mut bytes = segment(&mut store, FIRST)?;
    bytes[151] = 0;
    if is_put(&mut store, FIRST, &bytes) {
        Some(store)
    } else {
        None
    }
}

/// Segments 1 and 2 of two documents each.
static BOTH: [u8; 65] =
    *b"indriman\x01\0\0\0\x03\0\0\0\0\0\0\0\x02\0\0\0\x01\0\0\0\0\0\0\0\x02\0\0\0\0\0\0\0\x02\0\0\0\0\0\0\0\x02\0\0\0\0\0\0\0\0\0\0\0\0\0\0\0\0";

/// Segment 1 of two documents, two times.
static AGAIN: [u8; 65] =
    *b"indriman\x01\0\0\0\x03\0\0\0\0\0\0\0\x02\0\0\0\x01\0\0\0\0\0\0\0\x02\0\0\0\0\0\0\0\x01\0\0\0\0\0\0\0\x02\0\0\0\0\0\0\0\0\0\0\0\0\0\0\0\0";

/// The same store with this manifest, and with the same documents in segment 2.
fn listed(alloc: Global, manifest: &[u8]) -> Option<MemStore> {
    let mut store = two_documents(alloc)?;
    let bytes = segment(&mut store, FIRST)?;
    if is_put(&mut store, "seg-0000000000000002", &bytes)
        && is_put(&mut store, "manifest", manifest)
    {
        Some(store)
    } else {
        None
    }
}

/// Whether a merge ends with this line and status 7.
fn is_damage(alloc: Global, store: Option<MemStore>, line: &'static str) -> bool {
    let step: Step = (&["merge"], "", Status::Malformed, line);
    match store {
        Some(mut store) => is_ended(alloc, &mut store, &step),
        None => false,
    }
}

#[test]
fn damage(rt: HostRuntime) {
    let place = "malformed seg-0000000000000001 Block 151\n";
    assert!(rt; is_damage(rt.alloc(), hurt(rt.alloc()), place));
    let docno = "malformed seg-0000000000000002 Documents 64\n";
    assert!(rt; is_damage(rt.alloc(), listed(rt.alloc(), &BOTH), docno));
    let number = "malformed manifest Manifest 40\n";
    assert!(rt; is_damage(rt.alloc(), listed(rt.alloc(), &AGAIN), number));
}

/// Of two documents one is deleted.
static BEGUN: [Step; 3] = [
    CREATE,
    ADD_TWO,
    (&["delete"], "d1\n", Status::Done, "deleted d1\nflushed 1\n"),
];

/// The store behind that. Its call of this number fails, if it comes to it.
fn begun(alloc: Global, call: u64, left: Left) -> Option<MemStore> {
    let mut fails = Vec::new(alloc);
    fails.push(StoreFail { call, left }).ok()?;
    let mut store = MemStore::new(alloc, Vec::new(alloc), fails);
    match first_wrong(alloc, &mut store, &BEGUN) {
        None => Some(store),
        Some(_) => None,
    }
}

/// Whether a query has the document that is left.
fn stands(alloc: Global, store: &mut MemStore) -> bool {
    writes(
        alloc,
        store,
        &["query", "--mu", "1", "a"],
        "1 - -0.000000 d2 0 1\n",
    )
}

/// Whether a merge of it ends so.
fn ends(alloc: Global, store: Option<MemStore>, status: Status) -> bool {
    match store {
        Some(mut store) => is_run(alloc, &mut store, &["merge"], "", status),
        None => false,
    }
}

/// Whether a merge ends with a fault of its store where this call fails, and a query answers as before.
fn leaves_all(alloc: Global, call: u64, left: Left) -> bool {
    match begun(alloc, call, left) {
        Some(mut store) => {
            is_run(alloc, &mut store, &["merge"], "", Status::StoreFault)
                && stands(alloc, &mut store)
        }
        None => false,
    }
}

// The calls 16 to 28 are those of the merge.
#[test]
fn each_call_of_the_store_fails(rt: HostRuntime) {
    for call in 16..29 {
        assert!(rt; leaves_all(rt.alloc(), call, Left::Old));
        assert!(rt; leaves_all(rt.alloc(), call, Left::New));
        assert!(rt; leaves_all(rt.alloc(), call, Left::Torn(Vec::new(rt.alloc()))));
    }
    assert!(rt; ends(rt.alloc(), begun(rt.alloc(), 29, Left::Old), Status::Done));
}

/// How a merge ends over a sink that fails at once, having taken so many bytes.
fn status_of(alloc: Global, store: &mut MemStore, taken: usize) -> Option<Status> {
    let words = words_of(alloc, &["merge"])?;
    let mut source = source_of(alloc, "")?;
    let mut fails = Vec::new(alloc);
    fails.push(SinkFail { call: 1, taken }).ok()?;
    let mut sink = MemSink::new(alloc, fails);
    run_words(alloc, &words, &mut source, &mut sink, store).ok()
}

/// Whether it ends with status 5 then, and a query answers as before.
fn is_unheard(alloc: Global, taken: usize) -> bool {
    match begun(alloc, 0, Left::Old) {
        Some(mut store) => {
            status_of(alloc, &mut store, taken) == Some(Status::WriteFault)
                && stands(alloc, &mut store)
        }
        None => false,
    }
}

#[test]
fn the_line_is_not_written(rt: HostRuntime) {
    for taken in [0, 1, 99] {
        assert!(rt; is_unheard(rt.alloc(), taken));
    }
}
