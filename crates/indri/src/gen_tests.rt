// Runs of `gen` over a store in memory.
use crate::store_tests::{CREATE, Step, are_ended, is_ended, stands};
use crate::tests::USAGE;
use indri_app::Status;
use std::alloc::Global;
use store_ends::{Left, MemStore, StoreFail};

/// The query of a generated collection.
pub const ASKED: &[&str] = &["query", "w0 #1(w1 w2)"];

/// What it answers of three documents of which the second is deleted.
pub const KEPT: &str = "1 - -2.585251 g0 0 2\n2 > -2.586403 g2 0 4\n";

pub const GENERATED: Step = (
    &["gen", "3"],
    "",
    Status::Done,
    "gen 3 live 2 tokens 6\n1 - -2.585251 g0 0 2\n2 > -2.586403 g2 0 4\n",
);

/// A collection is made, and stays for the commands behind it.
static MADE: [Step; 4] = [
    GENERATED,
    (ASKED, "", Status::Done, KEPT),
    (&["gen", "3"], "", Status::Exists, "exists\n"),
    (
        &["session"],
        "delete g1\ndelete g2\nend\n",
        Status::SomeRefused,
        "refused NoSuchDoc g1\ndeleted g2\nended 1\n",
    ),
];

/// Of one document nothing is deleted. No input is read.
static ONE: [Step; 1] = [(
    &["gen", "1"],
    "x",
    Status::Done,
    "gen 1 live 1 tokens 2\n1 - -1.500576 g0 0 2\n",
)];

static SEVEN: [Step; 1] = [(
    &["gen", "7"],
    "",
    Status::Done,
    "gen 7 live 5 tokens 14\n1 - -2.513817 g5 0 4\n2 > -2.514010 g6 0 2\n3 > -2.514682 g0 0 2\n4 > -2.515834 g2 0 4\n",
)];

/// The greatest collection: the first of its results but one have the same words.
static LARGEST: [Step; 1] = [(
    &["gen", "100000"],
    "",
    Status::Done,
    "gen 100000 live 66667 tokens 200000\n1 - -2.613113 g10004 0 4\n2 = -2.613113 g10010 0 4\n3 = -2.613113 g10019 0 4\n4 = -2.613113 g10025 0 4\n5 = -2.613113 g10034 0 4\n6 = -2.613113 g1004 0 4\n7 = -2.613113 g10040 0 4\n8 = -2.613113 g10049 0 4\n9 = -2.613113 g10055 0 4\n10 = -2.613113 g10064 0 4\n",
)];

/// There is a repository already, and words that are no command.
static NONE: [Step; 6] = [
    (&["gen"], "", Status::Usage, USAGE),
    (&["gen", "0"], "", Status::Usage, USAGE),
    (&["gen", "100001"], "", Status::Usage, USAGE),
    (&["gen", "3", "--mu", "1"], "", Status::Usage, USAGE),
    CREATE,
    (&["gen", "3"], "", Status::Exists, "exists\n"),
];

#[test]
fn generated(rt: HostRuntime) {
    assert!(rt; are_ended(rt.alloc(), &MADE));
    assert!(rt; are_ended(rt.alloc(), &ONE));
    assert!(rt; are_ended(rt.alloc(), &SEVEN));
    assert!(rt; are_ended(rt.alloc(), &LARGEST));
    assert!(rt; are_ended(rt.alloc(), &NONE));
}

/// What the query answers before the first flush, between the two, and behind the last.
static ANSWERS: [&str; 3] = [
    "",
    "1 - -2.669063 g1 0 3\n2 > -2.669781 g0 0 2\n3 > -2.670934 g2 0 4\n",
    KEPT,
];

const BROKEN: Step = (&["gen", "3"], "", Status::StoreFault, "fault store\n");

/// How many calls of the store it makes.
const CALLS: u64 = 16;

/// A store whose call of that number fails, and leaves the file so.
fn store_of(alloc: Global, call: u64, left: Left) -> Option<MemStore> {
    let mut fails = Vec::new(alloc);
    fails.push(StoreFail { call, left }).ok()?;
    Some(MemStore::new(alloc, Vec::new(alloc), fails))
}

/// Whether nothing is written but the last line, and the files stand for nothing yet or for the documents at one of the flushes.
fn breaks(alloc: Global, call: u64, left: Left) -> bool {
    match store_of(alloc, call, left) {
        Some(mut store) => {
            is_ended(alloc, &mut store, &BROKEN) && stands(alloc, &mut store, ASKED, &ANSWERS)
        }
        None => false,
    }
}

#[test]
fn each_call_of_the_store_fails(rt: HostRuntime) {
    for call in 1..=CALLS {
        assert!(rt; breaks(rt.alloc(), call, Left::Old), "{call}");
        assert!(rt; breaks(rt.alloc(), call, Left::New), "{call}");
        assert!(rt;
            breaks(rt.alloc(), call, Left::Torn(Vec::new(rt.alloc()))),
            "{call}"
        );
    }
}

/// Whether it is done whole where a call behind its last one is to fail.
fn is_whole(alloc: Global) -> bool {
    match store_of(alloc, CALLS.saturating_add(1), Left::Old) {
        Some(mut store) => is_ended(alloc, &mut store, &GENERATED),
        None => false,
    }
}

#[test]
fn no_call_fails(rt: HostRuntime) {
    assert!(rt; is_whole(rt.alloc()));
}
