// Runs of the program's words one behind the other over a store in memory.
use crate::run_words;
use indri_app::Status;
use ri_base::ArgList;
use ri_ends::{MemSink, MemSource};
use std::alloc::Global;
use store_ends::{Left, MemStore, Store, StoreFail};

pub const D1: &str = "<DOC><DOCNO>d1</DOCNO>a b</DOC>";

pub const TWO: &str = "<DOC><DOCNO>d1</DOCNO>a b</DOC><DOC><DOCNO>d2</DOCNO>a</DOC>";

/// A run: the words behind the folder, the input, the status, and what is written.
pub type Step = (&'static [&'static str], &'static str, Status, &'static str);

pub fn words_of(alloc: Global, texts: &[&str]) -> Option<ArgList> {
    let mut words = ArgList::new(alloc);
    words.push(".").ok()?;
    for text in texts {
        words.push(text).ok()?;
    }
    Some(words)
}

pub fn source_of(alloc: Global, input: &str) -> Option<MemSource> {
    let bytes = input.as_bytes().to_vec(alloc).ok()?;
    Some(MemSource::new(bytes, 7, Vec::new(alloc)))
}

/// Whether the run ends and writes so.
pub fn is_ended<T: Store>(alloc: Global, store: &mut T, step: &Step) -> bool {
    let (texts, input, status, text) = step;
    let Some(words) = words_of(alloc, texts) else {
        return false;
    };
    let Some(mut source) = source_of(alloc, input) else {
        return false;
    };
    let mut sink = MemSink::new(alloc, Vec::new(alloc));
    match run_words(alloc, &words, &mut source, &mut sink, store) {
        Ok(answer) => answer == *status && sink.bytes() == text.as_bytes(),
        Err(_) => false,
    }
}

/// The first of these runs that ends otherwise, if one does.
pub fn first_wrong<T: Store>(alloc: Global, store: &mut T, steps: &[Step]) -> Option<usize> {
    for (place, step) in steps.iter().enumerate() {
        if !is_ended(alloc, store, step) {
            return Some(place);
        }
    }
    None
}

/// Whether all runs end so over a store that has no file at first.
pub fn are_ended(alloc: Global, steps: &[Step]) -> bool {
    let mut store = MemStore::new(alloc, Vec::new(alloc), Vec::new(alloc));
    first_wrong(alloc, &mut store, steps).is_none()
}

pub const CREATE: Step = (&["create"], "", Status::Done, "created\n");

pub const ADD_TWO: Step = (
    &["add"],
    TWO,
    Status::Done,
    "added d1 2\nadded d2 1\nflushed 2\n",
);

/// What becomes of documents that are added and deleted.
static CHANGED: [Step; 11] = [
    CREATE,
    (&["create"], "", Status::Exists, "exists\n"),
    ADD_TWO,
    (
        &["add"],
        D1,
        Status::SomeRefused,
        "refused Repeated d1\nflushed 2\n",
    ),
    (
        &["query", "--mu", "1", "#combine(a)"],
        "",
        Status::Done,
        "1 - -0.263034 d2 0 1\n2 > -0.847996 d1 0 2\n",
    ),
    (&["delete"], "d1\n", Status::Done, "deleted d1\nflushed 1\n"),
    (
        &["query", "--mu", "1", "a"],
        "",
        Status::Done,
        "1 - -0.000000 d2 0 1\n",
    ),
    (
        &["delete"],
        "d1\nd 1\n\nd2",
        Status::SomeRefused,
        "refused NoSuchDoc d1\nrefused BadEvent 3\ndeleted d2\nflushed 0\n",
    ),
    (&["query", "a"], "", Status::Done, ""),
    (
        &["add"],
        "<DOC><DOCNO>d1</DOCNO>c</DOC>x",
        Status::SomeRefused,
        "added d1 1\nrefused NotADoc 29\nflushed 1\n",
    ),
    (
        &["query", "--mu", "1", "a c"],
        "",
        Status::Done,
        "1 - -1.000000 d1 0 1\n",
    ),
];

/// Rows of priors, and what a query makes of them.
static PRIORS: [Step; 9] = [
    CREATE,
    ADD_TWO,
    (
        &["prior", "home"],
        "d1 1/2\n* 1/4\n",
        Status::Done,
        "prior home 1\n",
    ),
    (
        &["query", "--mu", "1", "a #prior(home)"],
        "",
        Status::Done,
        "1 - -0.923998 d1 0 2\n2 > -1.131517 d2 0 1\n",
    ),
    (
        &["query", "--mu", "1", "a #prior(away)"],
        "",
        Status::QueryRefused,
        "refused Check UnknownPrior away\n",
    ),
    (
        &["prior", "LENGTH"],
        "d1 1/2\n",
        Status::SomeRefused,
        "refused Fixed length\n",
    ),
    (
        &["prior", "away"],
        "d1 1/2\nd1 1/3\n* 1/2\n* 1/3\nd2\n",
        Status::SomeRefused,
        "refused RepeatedRow d1\nrefused RepeatedRow *\nrefused BadRow 26\nprior away 1\n",
    ),
    (
        &["explain", "--mu=1", "1", "a #prior(away)"],
        "",
        Status::Done,
        "result 1 d2 0 1\nscale 2\nleaf 1 \"a\" tf 1 len 1 cf 2 total 3 belief 10/12\nat 0 1\nprior 2 away belief 1/2\nscore -0.631517\n",
    ),
    (&["prior", "home"], "", Status::Done, "prior home 0\n"),
];

/// Explanations of results.
static EXPLAINED: [Step; 6] = [
    CREATE,
    ADD_TWO,
    (
        &["explain", "1", "--mu=1", "a"],
        "",
        Status::Done,
        "result 1 d2 0 1\nscale 1\nleaf 1 \"a\" tf 1 len 1 cf 2 total 3 belief 10/12\nat 0 1\nscore -0.263034\n",
    ),
    (
        &["explain", "2", "--mu=1", "a"],
        "",
        Status::Done,
        "result 2 d1 0 2\nscale 1\nleaf 1 \"a\" tf 1 len 2 cf 2 total 3 belief 10/18\nat 0 1\nscore -0.847996\n",
    ),
    (
        &["explain", "3", "a"],
        "",
        Status::SomeRefused,
        "refused NoSuchRank q\n",
    ),
    (
        &["query", "--topic", "301", "--mu", "1", "--run", "mine", "a"],
        "",
        Status::Done,
        "301 Q0 d2 1 -0.263034 mine\n301 Q0 d1 2 -0.847996 mine\n",
    ),
];

/// Where there is no repository that is told, whatever the text is.
static ABSENT: [Step; 6] = [
    (
        &["query", "#1(a"],
        "",
        Status::NoRepository,
        "norepository\n",
    ),
    (
        &["explain", "1", "a"],
        "",
        Status::NoRepository,
        "norepository\n",
    ),
    (&["add"], D1, Status::NoRepository, "norepository\n"),
    (&["delete"], "d1\n", Status::NoRepository, "norepository\n"),
    (
        &["prior", "length"],
        "",
        Status::NoRepository,
        "norepository\n",
    ),
    (&["scan", "a"], D1, Status::Done, "d1 0 1\n"),
];

/// Texts of queries that are refused over a repository.
static FAULTS: [Step; 8] = [
    CREATE,
    (
        &["query", "--mu", "1", "#weight(0 a 0 b)"],
        "",
        Status::QueryRefused,
        "refused Check NoWeight\n",
    ),
    (
        &[
            "query",
            "#weight(1.073741823 #weight(1.073741823 a 0.000000001 b) 0.000000001 c)",
        ],
        "",
        Status::QueryRefused,
        "refused Check ScaleTooLarge\n",
    ),
    (
        &["query", "#combine(a #filreq(b c))"],
        "",
        Status::QueryRefused,
        "refused Query FilterInside 11\n",
    ),
    (
        &["query", "#weight(1234567 a)"],
        "",
        Status::QueryRefused,
        "refused Query WeightTooLong 8\n",
    ),
    (
        &["query", "#prior(length)"],
        "",
        Status::QueryRefused,
        "refused Check NoLeaf\n",
    ),
    (
        &["query", "a #prior(x)"],
        "",
        Status::QueryRefused,
        "refused Check UnknownPrior x\n",
    ),
    (
        &["explain", "1", "#1(a"],
        "",
        Status::QueryRefused,
        "refused Query Expected 4\n",
    ),
];

#[test]
fn commands(rt: HostRuntime) {
    assert!(rt; are_ended(rt.alloc(), &CHANGED));
    assert!(rt; are_ended(rt.alloc(), &PRIORS));
    assert!(rt; are_ended(rt.alloc(), &EXPLAINED));
    assert!(rt; are_ended(rt.alloc(), &ABSENT));
    assert!(rt; are_ended(rt.alloc(), &FAULTS));
}

/// The documents of a query with a mu of 1, its text, and its results.
type Row = (&'static str, &'static str, &'static str);

static QUERIES: [Row; 17] = [
    (
        TWO,
        "#combine(a)",
        "1 - -0.263034 d2 0 1\n2 > -0.847996 d1 0 2\n",
    ),
    (
        TWO,
        "#max(a b)",
        "1 - -0.263034 d2 0 1\n2 > -0.847996 d1 0 2\n",
    ),
    (TWO, "a z", "1 - -1.923998 d2 0 1\n2 > -2.508960 d1 0 2\n"),
    (TWO, "b", "1 - -1.169925 d1 0 2\n"),
    (TWO, "#filreq(b a)", "1 - -0.847996 d1 0 2\n"),
    (TWO, "#filrej(b a)", "1 - -0.263034 d2 0 1\n"),
    (TWO, "#filreq(a #filrej(b a))", "1 - -0.263034 d2 0 1\n"),
    (TWO, "#filreq(#uw5(a b) a)", "1 - -0.847996 d1 0 2\n"),
    (
        "<DOC><DOCNO>d1</DOCNO><t>a b</t><t>a</t></DOC>",
        "#combine[t](a)",
        "1 - -0.263034 d1 2 3\n2 > -0.847996 d1 0 2\n",
    ),
    (
        "<DOC><DOCNO>d1</DOCNO>a c a c a</DOC><DOC><DOCNO>d2</DOCNO>a b</DOC>",
        "#filrej(#band(a b) #combine[passage4:2](a))",
        "1 - -0.347923 d1 4 5\n2 > -0.637429 d1 2 5\n3 > -0.959358 d1 0 4\n",
    ),
    (
        TWO,
        "a dog.(title)",
        "1 - -0.631517 d2 0 1\n2 > -0.923998 d1 0 2\n",
    ),
    (TWO, "z", ""),
    ("", "a", ""),
    (
        "<DOC><DOCNO>d2</DOCNO>a b</DOC><DOC><DOCNO>d1</DOCNO>a b</DOC>",
        "a",
        "1 - -1.000000 d1 0 2\n2 = -1.000000 d2 0 2\n",
    ),
    (
        "<DOC><DOCNO>d1</DOCNO>a a b</DOC><DOC><DOCNO>d2</DOCNO>a b b</DOC>",
        "a b",
        "1 - -1.046554 d1 0 3\n2 ~ -1.046554 d2 0 3\n",
    ),
    (
        "<DOC><DOCNO>d1</DOCNO>a b c</DOC>",
        "#weight(0.8 #combine(a b c) 0.1 #combine(#1(a b) #1(b c)) 0.1 #combine(#uw8(a b) #uw8(b c)))",
        "1 - -1.584962 d1 0 3\n",
    ),
    (
        "<DOC><DOCNO>d1</DOCNO>a b</DOC><DOC><DOCNO>d2</DOCNO>a c</DOC>",
        "#weight(1 a 0.0000001 #weight(1 a 0.0000001 b))",
        "1 - -1.000000 d1 0 2\n2 ~ -1.000000 d2 0 2\n",
    ),
];

/// Whether the query has these results over a store that holds these documents alone.
fn has_results(alloc: Global, row: &Row) -> bool {
    let (documents, query, results) = *row;
    let mut store = MemStore::new(alloc, Vec::new(alloc), Vec::new(alloc));
    let asked = ["query", "--mu", "1", query];
    is_ended(alloc, &mut store, &CREATE)
        && is_run(alloc, &mut store, &["add"], documents, Status::Done)
        && writes(alloc, &mut store, &asked, results)
}

/// Whether the run ends so, whatever it writes.
pub fn is_run(
    alloc: Global,
    store: &mut MemStore,
    texts: &[&str],
    input: &str,
    status: Status,
) -> bool {
    let Some(words) = words_of(alloc, texts) else {
        return false;
    };
    let Some(mut source) = source_of(alloc, input) else {
        return false;
    };
    let mut sink = MemSink::new(alloc, Vec::new(alloc));
    match run_words(alloc, &words, &mut source, &mut sink, store) {
        Ok(answer) => answer == status,
        Err(_) => false,
    }
}

/// Whether a run without input is done and writes this.
pub fn writes(alloc: Global, store: &mut MemStore, texts: &[&str], text: &str) -> bool {
    let Some(words) = words_of(alloc, texts) else {
        return false;
    };
    let mut source = MemSource::new(Vec::new(alloc), 1, Vec::new(alloc));
    let mut sink = MemSink::new(alloc, Vec::new(alloc));
    match run_words(alloc, &words, &mut source, &mut sink, store) {
        Ok(answer) => answer == Status::Done && sink.bytes() == text.as_bytes(),
        Err(_) => false,
    }
}

#[test]
fn queries(rt: HostRuntime) {
    for row in &QUERIES {
        assert!(rt; has_results(rt.alloc(), row));
    }
}

/// The first 32 bytes of the manifest that lists nothing.
const CUT: &[u8] = b"indriman\x01\0\0\0\x01\0\0\0\0\0\0\0\0\0\0\0\0\0\0\0\0\0\0\0";

/// The manifest of one segment of two documents.
const ONE: &[u8] =
    b"indriman\x01\0\0\0\x02\0\0\0\0\0\0\0\x01\0\0\0\x01\0\0\0\0\0\0\0\x02\0\0\0\0\0\0\0\0\0\0\0\0\0\0\0\0";

/// A store that has this manifest alone.
fn store_of(alloc: Global, manifest: &[u8]) -> Option<MemStore> {
    let name = b"manifest".to_vec(alloc).ok()?;
    let bytes = manifest.to_vec(alloc).ok()?;
    let mut held = Vec::new(alloc);
    held.push((name, bytes)).ok()?;
    Some(MemStore::new(alloc, held, Vec::new(alloc)))
}

/// Whether a query over this manifest alone ends with this line and status 7.
fn is_damage(alloc: Global, manifest: &[u8], line: &'static str) -> bool {
    let step: Step = (&["query", "a"], "", Status::Malformed, line);
    match store_of(alloc, manifest) {
        Some(mut store) => is_ended(alloc, &mut store, &step),
        None => false,
    }
}

#[test]
fn damage(rt: HostRuntime) {
    assert!(rt; is_damage(rt.alloc(), CUT, "malformed manifest Manifest 32\n"));
    assert!(rt; is_damage(rt.alloc(), ONE, "missing seg-0000000000000001\n"));
}

/// What a query for `a` answers behind runs of which one was broken off.
static ANSWERS: [&str; 3] = [
    "",
    "1 - -1.000000 d1 0 2\n",
    "1 - -0.263034 d2 0 1\n2 > -0.847996 d1 0 2\n",
];

/// Whether a query has one of these answers, or there is no collection yet.
pub fn stands(
    alloc: Global,
    store: &mut MemStore,
    texts: &[&str],
    answers: &[&'static str],
) -> bool {
    if is_run(alloc, store, texts, "", Status::NoRepository) {
        return true;
    }
    for answer in answers {
        if writes(alloc, store, texts, answer) {
            return true;
        }
    }
    false
}

const ASKED: &[&str] = &["query", "--mu", "1", "a"];

/// Whether a store whose call of that number fails, and leaves the file so, stands for one of these collections: behind `create`, `add` of
/// one document and then of another, `delete` of that, `merge`, and a session that does all of these.
fn stands_behind(alloc: Global, call: u64, left: Left) -> bool {
    let mut fails = Vec::new(alloc);
    if fails.push(StoreFail { call, left }).is_err() {
        return false;
    }
    let mut store = MemStore::new(alloc, Vec::new(alloc), fails);
    let second = "<DOC><DOCNO>d2</DOCNO>a</DOC>";
    for (texts, input) in [
        ("create", ""),
        ("add", D1),
        ("add", second),
        ("delete", "d2"),
        ("merge", ""),
        (
            "session",
            "add 29\n<DOC><DOCNO>d2</DOCNO>a</DOC>\nflush\ndelete d2\nmerge\nturn 9\nend\n",
        ),
    ] {
        let Some(words) = words_of(alloc, &[texts]) else {
            return false;
        };
        let Some(mut source) = source_of(alloc, input) else {
            return false;
        };
        let mut sink = MemSink::new(alloc, Vec::new(alloc));
        match run_words(alloc, &words, &mut source, &mut sink, &mut store) {
            Ok(Status::Done | Status::NoRepository) => {}
            Ok(Status::StoreFault) => return sink.bytes().ends_with(b"fault store\n")
                && stands(alloc, &mut store, ASKED, &ANSWERS),
            _ => return false,
        }
    }
    stands(alloc, &mut store, ASKED, &ANSWERS)
}

#[test]
fn each_call_of_the_store_fails(rt: HostRuntime) {
    for call in 1..70 {
        assert!(rt; stands_behind(rt.alloc(), call, Left::Old));
        assert!(rt; stands_behind(rt.alloc(), call, Left::New));
        assert!(rt; stands_behind(rt.alloc(), call, Left::Torn(Vec::new(rt.alloc()))));
    }
}
