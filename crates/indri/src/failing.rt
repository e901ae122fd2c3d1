// Commands over a store in memory, where each read of their input fails, and each write.
use crate::gen_tests::{ASKED, KEPT};
use crate::run_words;
use crate::store_tests::{ADD_TWO, CREATE, Step, TWO, first_wrong, is_ended, words_of};
use indri_app::Status;
use ri_ends::{MemSink, MemSource, SinkFail};
use std::alloc::Global;
use store_ends::MemStore;

/// A command: the runs before it, its words, its input, which is given by pieces of seven bytes, how many reads and writes it makes, its
/// status, and its text. A query tells the collection of before and behind it: its words, and its status and text for each.
struct Case {
    before: &'static [Step],
    texts: &'static [&'static str],
    input: &'static str,
    reads: u64,
    writes: u64,
    status: Status,
    text: &'static str,
    query: &'static [&'static str],
    old: (Status, &'static str),
    new: (Status, &'static str),
}

const BOTH_LINES: &str = "1 - -0.263034 d2 0 1\n2 > -0.847996 d1 0 2\n";

const BOTH: (Status, &str) = (Status::Done, BOTH_LINES);

static CASES: [Case; 10] = [
    Case {
        before: &[],
        texts: &["create"],
        input: "",
        reads: 0,
        writes: 1,
        status: Status::Done,
        text: "created\n",
        query: &["query", "a"],
        old: (Status::NoRepository, "norepository\n"),
        new: (Status::Done, ""),
    },
    Case {
        before: &[],
        texts: &["gen", "3"],
        input: "",
        reads: 0,
        writes: 1,
        status: Status::Done,
        text: "gen 3 live 2 tokens 6\n1 - -2.585251 g0 0 2\n2 > -2.586403 g2 0 4\n",
        query: ASKED,
        old: (Status::NoRepository, "norepository\n"),
        new: (Status::Done, KEPT),
    },
    Case {
        before: &[CREATE, ADD_TWO],
        texts: &["add"],
        input: "<DOC><DOCNO>d3</DOCNO>b</DOC><DOC><DOCNO>d1</DOCNO>c</DOC><DOC><DOCNO>d4</DOCNO>a c</DOC>",
        reads: 15,
        writes: 4,
        status: Status::SomeRefused,
        text: "added d3 1\nrefused Repeated d1\nadded d4 2\nflushed 4\n",
        query: &["query", "--mu", "1", "b"],
        old: (Status::Done, "1 - -1.169925 d1 0 2\n"),
        new: (Status::Done, "1 - -0.584962 d3 0 1\n2 > -1.169925 d1 0 2\n"),
    },
    Case {
        before: &[CREATE, ADD_TWO],
        texts: &["delete"],
        input: "d1\nd3\nd2\n",
        reads: 3,
        writes: 4,
        status: Status::SomeRefused,
        text: "deleted d1\nrefused NoSuchDoc d3\ndeleted d2\nflushed 0\n",
        query: &["query", "--mu", "1", "a"],
        old: BOTH,
        new: (Status::Done, ""),
    },
    Case {
        before: &[CREATE, ADD_TWO],
        texts: &["prior", "home"],
        input: "d1 1/2\nd1 1/3\n* 1/4\n",
        reads: 4,
        writes: 2,
        status: Status::SomeRefused,
        text: "refused RepeatedRow d1\nprior home 1\n",
        query: &["query", "--mu", "1", "a #prior(home)"],
        old: (Status::QueryRefused, "refused Check UnknownPrior home\n"),
        new: (Status::Done, "1 - -0.923998 d1 0 2\n2 > -1.131517 d2 0 1\n"),
    },
    Case {
        before: &[CREATE, ADD_TWO],
        texts: &["merge"],
        input: "",
        reads: 0,
        writes: 1,
        status: Status::Done,
        text: "merged 2\n",
        query: &["query", "--mu", "1", "a"],
        old: BOTH,
        new: BOTH,
    },
    Case {
        before: &[CREATE, ADD_TWO],
        texts: &["session", "--mu", "1"],
        input: "add 29\n<DOC><DOCNO>d3</DOCNO>b</DOC>\ndelete d1\nopen q 5 b\nstep q 9\nshow q\nend\n",
        reads: 12,
        writes: 6,
        status: Status::Done,
        text: "added d3 1\ndeleted d1\nopened q 2\nstepped q 2 of 2\nresults q 1\n1 - -0.415037 d3 0 1\nended 2\n",
        query: &["query", "--mu", "1", "b"],
        old: (Status::Done, "1 - -1.169925 d1 0 2\n"),
        new: (Status::Done, "1 - -0.415037 d3 0 1\n"),
    },
    Case {
        before: &[CREATE, ADD_TWO],
        texts: &["scan", "a"],
        input: TWO,
        reads: 11,
        writes: 2,
        status: Status::Done,
        text: "d1 0 1\nd2 0 1\n",
        query: &["query", "--mu", "1", "a"],
        old: BOTH,
        new: BOTH,
    },
    Case {
        before: &[CREATE, ADD_TWO],
        texts: &["query", "--mu", "1", "a"],
        input: "",
        reads: 0,
        writes: 1,
        status: Status::Done,
        text: BOTH_LINES,
        query: &["query", "--mu", "1", "a"],
        old: BOTH,
        new: BOTH,
    },
    Case {
        before: &[CREATE, ADD_TWO],
        texts: &["explain", "1", "--mu=1", "a"],
        input: "",
        reads: 0,
        writes: 1,
        status: Status::Done,
        text: "result 1 d2 0 1\nscale 1\nleaf 1 \"a\" tf 1 len 1 cf 2 total 3 belief 10/12\nat 0 1\nscore -0.263034\n",
        query: &["query", "--mu", "1", "a"],
        old: BOTH,
        new: BOTH,
    },
];

/// The store behind the runs before the command.
fn store_before(alloc: Global, case: &Case) -> Option<MemStore> {
    let mut store = MemStore::new(alloc, Vec::new(alloc), Vec::new(alloc));
    match first_wrong(alloc, &mut store, case.before) {
        None => Some(store),
        Some(_) => None,
    }
}

/// The input, where the read of this number fails.
fn source_of(alloc: Global, case: &Case, read: u64) -> Option<MemSource> {
    let bytes = case.input.as_bytes().to_vec(alloc).ok()?;
    let mut fails = Vec::new(alloc);
    fails.push(read).ok()?;
    Some(MemSource::new(bytes, 7, fails))
}

/// A sink, where the write of this number fails, and has taken so many bytes.
fn sink_of(alloc: Global, write: u64, taken: usize) -> Option<MemSink> {
    let mut fails = Vec::new(alloc);
    fails.push(SinkFail { call: write, taken }).ok()?;
    Some(MemSink::new(alloc, fails))
}

/// How the command ends.
fn ran(
    alloc: Global,
    store: &mut MemStore,
    case: &Case,
    source: &mut MemSource,
    sink: &mut MemSink,
) -> Option<Status> {
    let words = words_of(alloc, case.texts)?;
    run_words(alloc, &words, source, sink, store).ok()
}

/// Whether the query tells so.
fn tells(alloc: Global, store: &mut MemStore, case: &Case, told: (Status, &'static str)) -> bool {
    let (status, text) = told;
    is_ended(alloc, store, &(case.query, "", status, text))
}

/// Whole lines of the text, and behind them that of the read.
fn is_front(written: &[u8], text: &str) -> bool {
    match written.strip_suffix(b"fault read\n") {
        Some(front) => {
            text.as_bytes().starts_with(front) && (front.is_empty() || front.ends_with(b"\n"))
        }
        None => false,
    }
}

/// Whether the command ends so where the read of this number fails: it is broken off with whole lines of its text, and the collection is
/// as before.
fn breaks_at_read(alloc: Global, case: &Case, read: u64) -> Option<bool> {
    let mut store = store_before(alloc, case)?;
    let mut source = source_of(alloc, case, read)?;
    let mut sink = sink_of(alloc, 0, 0)?;
    let status = ran(alloc, &mut store, case, &mut source, &mut sink)?;
    let told = tells(alloc, &mut store, case, case.old);
    Some(status == Status::ReadFault && is_front(sink.bytes(), case.text) && told)
}

/// Whether the command ends so where the write of this number fails: it has written a front of its text, and the collection is as before,
/// but behind it where that was the last write.
fn breaks_at_write(alloc: Global, case: &Case, write: u64, taken: usize) -> Option<bool> {
    let mut store = store_before(alloc, case)?;
    let mut source = source_of(alloc, case, 0)?;
    let mut sink = sink_of(alloc, write, taken)?;
    let status = ran(alloc, &mut store, case, &mut source, &mut sink)?;
    let told = if write == case.writes {
        case.new
    } else {
        case.old
    };
    let told = tells(alloc, &mut store, case, told);
    Some(status == Status::WriteFault && case.text.as_bytes().starts_with(sink.bytes()) && told)
}

/// Whether the command is done whole where the read and the write behind the last ones were to fail.
fn is_whole(alloc: Global, case: &Case) -> Option<bool> {
    let mut store = store_before(alloc, case)?;
    let mut source = source_of(alloc, case, case.reads.saturating_add(1))?;
    let mut sink = sink_of(alloc, case.writes.saturating_add(1), 0)?;
    let status = ran(alloc, &mut store, case, &mut source, &mut sink)?;
    let told = tells(alloc, &mut store, case, case.new);
    Some(status == case.status && sink.bytes() == case.text.as_bytes() && told)
}

#[test]
fn no_call_fails(rt: HostRuntime) {
    for case in &CASES {
        assert!(rt; is_whole(rt.alloc(), case) == Some(true), "{}", case.text);
    }
}

#[test]
fn each_read_fails(rt: HostRuntime) {
    for case in &CASES {
        for read in 1..=case.reads {
            assert!(rt;
                breaks_at_read(rt.alloc(), case, read) == Some(true),
                "{read} {}",
                case.text
            );
        }
    }
}

#[test]
fn each_write_fails(rt: HostRuntime) {
    for case in &CASES {
        for write in 1..=case.writes {
            for taken in [0, 1, 99] {
                assert!(rt;
                    breaks_at_write(rt.alloc(), case, write, taken) == Some(true),
                    "{write} {taken} {}",
                    case.text
                );
            }
        }
    }
}
