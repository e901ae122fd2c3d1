// A store that fails once, at each call in turn.
use crate::opened::{Documents, open};
use crate::searches::{Row, Wanted, is_order};
use std::alloc::Global;
use store_ends::{Left, StoreFail};

static DOCUMENTS: Documents = Documents {
    part: 9,
    first: 0,
    in_files: 9,
    all: 9,
};

static ROW: Row = ("a b", "d998 d1000 d992 d997 d995");

/// The calls before the search: they make a repository, open it, and flush its documents.
const BEFORE: u64 = 6;

/// The calls of the search: a block of each word for the sums, and then, since one block is kept, both again where the search opens
/// the range.
const CALLS: u64 = 4;

fn failing_at(alloc: Global, call: u64) -> Option<Vec<StoreFail>> {
    let left = Left::Old;
    let mut fails = Vec::new(alloc);
    fails.push(StoreFail { call, left }).ok()?;
    Some(fails)
}

/// Whether a search is right where this call fails, and whether the next one is; nothing where it fails.
fn searches(alloc: Global, call: u64, skips: bool) -> Option<(Option<bool>, Option<bool>)> {
    let fails = failing_at(alloc, call)?;
    let mut opened = open(alloc, DOCUMENTS, fails)?;
    let wanted = Wanted {
        most: 10,
        docs: 2,
        skips,
    };
    let first = is_order(alloc, &mut opened, &ROW, wanted);
    Some((first, is_order(alloc, &mut opened, &ROW, wanted)))
}

/// How many calls a search makes, where each of these ends it if it fails, and the next search is right; nothing where one doesn't.
fn calls(alloc: Global, skips: bool) -> Option<u64> {
    for call in 0..100 {
        match searches(alloc, BEFORE + 1 + call, skips)? {
            (None, Some(true)) => {}
            // this is a call of the next search
            (Some(true), _) => return Some(call),
            _ => return None,
        }
    }
    None
}

#[test]
fn at_each_call(rt: HostRuntime) {
    assert!(rt; calls(rt.alloc(), false) == Some(CALLS));
    // the tables are read too
    assert!(rt; calls(rt.alloc(), true).is_some_and(|calls| calls > CALLS));
}
