// Words of the command line, and what they ask for.
use command_words::{Words, read_words};
use ri_base::ArgList;
use std::alloc::Global;

/// The words behind a folder with a `|` between two of them, and what they ask for.
static ASKED: [(&str, &str); 43] = [
    ("scan|a", "Some(Scan(\"a\"))"),
    ("scan|", "Some(Scan(\"\"))"),
    ("scan|-", "Some(Scan(\"-\"))"),
    ("scan|--|--mu", "Some(Scan(\"--mu\"))"),
    ("scan|--|a", "Some(Scan(\"a\"))"),
    ("scan|a|--", "Some(Scan(\"a\"))"),
    (
        "query|a",
        "Some(Query(Asked { text: \"a\", k: 10, mu: 2500, trec: None }))",
    ),
    (
        "query|--k|3|a",
        "Some(Query(Asked { text: \"a\", k: 3, mu: 2500, trec: None }))",
    ),
    (
        "query|--k=3|a",
        "Some(Query(Asked { text: \"a\", k: 3, mu: 2500, trec: None }))",
    ),
    (
        "query|a|--k|3",
        "Some(Query(Asked { text: \"a\", k: 3, mu: 2500, trec: None }))",
    ),
    (
        "query|--k|1|a",
        "Some(Query(Asked { text: \"a\", k: 1, mu: 2500, trec: None }))",
    ),
    (
        "query|--k|1000|a",
        "Some(Query(Asked { text: \"a\", k: 1000, mu: 2500, trec: None }))",
    ),
    (
        "query|--mu|1|a",
        "Some(Query(Asked { text: \"a\", k: 10, mu: 1, trec: None }))",
    ),
    (
        "query|--mu=1000000|a",
        "Some(Query(Asked { text: \"a\", k: 10, mu: 1000000, trec: None }))",
    ),
    (
        "query|--|--k",
        "Some(Query(Asked { text: \"--k\", k: 10, mu: 2500, trec: None }))",
    ),
    (
        "query|--k|3|--|-a",
        "Some(Query(Asked { text: \"-a\", k: 3, mu: 2500, trec: None }))",
    ),
    (
        "query|-",
        "Some(Query(Asked { text: \"-\", k: 10, mu: 2500, trec: None }))",
    ),
    (
        "query|",
        "Some(Query(Asked { text: \"\", k: 10, mu: 2500, trec: None }))",
    ),
    (
        "query|--topic|t|--run|r|a",
        "Some(Query(Asked { text: \"a\", k: 10, mu: 2500, trec: Some((\"t\", \"r\")) }))",
    ),
    (
        "query|a|--run=-5|--topic=!~",
        "Some(Query(Asked { text: \"a\", k: 10, mu: 2500, trec: Some((\"!~\", \"-5\")) }))",
    ),
    (
        "query|--topic|-|--run|=|a",
        "Some(Query(Asked { text: \"a\", k: 10, mu: 2500, trec: Some((\"-\", \"=\")) }))",
    ),
    (
        "query|--topic|wwwwwwwwwwwwwwwwwwwwwwwwwwwwwwwwwwwwwwwwwwwwwwwwwwwwwwwwwwwwwwww|--run|wwwwwwwwwwwwwwwwwwwwwwwwwwwwwwwwwwwwwwwwwwwwwwwwwwwwwwwwwwwwwwww|--k|1000|a",
        "Some(Query(Asked { text: \"a\", k: 1000, mu: 2500, trec: Some((\"wwwwwwwwwwwwwwwwwwwwwwwwwwwwwwwwwwwwwwwwwwwwwwwwwwwwwwwwwwwwwwww\", \"wwwwwwwwwwwwwwwwwwwwwwwwwwwwwwwwwwwwwwwwwwwwwwwwwwwwwwwwwwwwwwww\")) }))",
    ),
    (
        "explain|1|a",
        "Some(Explain(1, Asked { text: \"a\", k: 1, mu: 2500, trec: None }))",
    ),
    (
        "explain|1000|a",
        "Some(Explain(1000, Asked { text: \"a\", k: 1000, mu: 2500, trec: None }))",
    ),
    (
        "explain|--mu|3|2|a",
        "Some(Explain(2, Asked { text: \"a\", k: 2, mu: 3, trec: None }))",
    ),
    (
        "explain|2|--mu=3|a",
        "Some(Explain(2, Asked { text: \"a\", k: 2, mu: 3, trec: None }))",
    ),
    (
        "explain|2|a|--mu|3",
        "Some(Explain(2, Asked { text: \"a\", k: 2, mu: 3, trec: None }))",
    ),
    (
        "explain|--|2|-a",
        "Some(Explain(2, Asked { text: \"-a\", k: 2, mu: 2500, trec: None }))",
    ),
    (
        "explain|2|-",
        "Some(Explain(2, Asked { text: \"-\", k: 2, mu: 2500, trec: None }))",
    ),
    ("create", "Some(Create)"),
    ("add", "Some(Add)"),
    ("delete", "Some(Delete)"),
    ("delete|--", "Some(Delete)"),
    ("merge", "Some(Merge)"),
    ("session", "Some(Session(2500))"),
    ("session|--mu|1", "Some(Session(1))"),
    ("session|--mu=1000000", "Some(Session(1000000))"),
    ("session|--mu|3|--", "Some(Session(3))"),
    ("gen|3", "Some(Gen(3))"),
    ("gen|1", "Some(Gen(1))"),
    ("gen|100000", "Some(Gen(100000))"),
    ("gen|--|5", "Some(Gen(5))"),
    ("gen|5|--", "Some(Gen(5))"),
];

/// Words behind a folder that are in no row of the table of commands.
static REFUSED: [&str; 111] = [
    "sing|a",
    "merge|a",
    "session|a",
    "session|",
    "session|--|a",
    "session|--k|3",
    "session|--topic|t|--run|r",
    "session|--mu|0",
    "session|--mu|1000001",
    "session|--mu|01",
    "session|--mu|1|--mu|1",
    "session|--mu",
    "gen",
    "gen|",
    "gen|a",
    "gen|0",
    "gen|100001",
    "gen|03",
    "gen|+3",
    "gen|-3",
    "gen|3|4",
    "gen|--mu|3|3",
    "create|a",
    "create|",
    "create|--k|3",
    "add|a|b",
    "add|--mu|3",
    "delete|a",
    "delete|--topic|t|--run|r",
    "prior",
    "prior|a|b",
    "prior|",
    "prior|1a",
    "prior|a-b",
    "prior|--k|3|a",
    "prior|aaaaaaaaaaaaaaaaaaaaaaaaaaaaaaaaa",
    "scan",
    "scan|a|b",
    "scan|-a",
    "scan|--help",
    "scan|-h",
    "scan|--version",
    "scan|--mu|1|a",
    "scan|--k=1|a",
    "scan|--topic|t|--run|r|a",
    "scan|--|a|--",
    "query",
    "query|a|b",
    "query|-a",
    "query|--k|3|--k|3|a",
    "query|--k=3|--k=3|a",
    "query|--k=3|--k|3|a",
    "query|a|--k",
    "query|--k=|a",
    "query|--k||a",
    "query|--k|--|a",
    "query|--k|--mu=1|a",
    "query|--k|0|a",
    "query|--k|1001|a",
    "query|--k|03|a",
    "query|--k|+3|a",
    "query|--k|-3|a",
    "query|--k=-3|a",
    "query|--k=+3|a",
    "query|--k=3 |a",
    "query|--k=4294967297|a",
    "query|--mu|0|a",
    "query|--mu|1000001|a",
    "query|--mu|01|a",
    "query|--mu|1|--mu|1|a",
    "query|a|--mu",
    "query|--mu=|a",
    "query|-k|3|a",
    "query|-k3|a",
    "query|--K|3|a",
    "query|--ke|3|a",
    "query|--help",
    "query|-h",
    "query|--version|a",
    "query|--|a|--k|3",
    "query|--topic|t|a",
    "query|--run|r|a",
    "query|--topic=|--run=r|a",
    "query|--topic=t|--run=|a",
    "query|--topic||--run|r|a",
    "query|--topic|wwwwwwwwwwwwwwwwwwwwwwwwwwwwwwwwwwwwwwwwwwwwwwwwwwwwwwwwwwwwwwwww|--run|r|a",
    "query|--topic|t|--run|wwwwwwwwwwwwwwwwwwwwwwwwwwwwwwwwwwwwwwwwwwwwwwwwwwwwwwwwwwwwwwwww|a",
    "query|--topic|t u|--run|r|a",
    "query|--topic|t|--run|\u{e9}|a",
    "query|--topic|-5|--run|r|a",
    "query|--topic|t|--topic|t|--run|r|a",
    "query|--topic|t|--run|r|--run=r|a",
    "query|--topic|t|a|--run",
    "explain",
    "explain|1",
    "explain|1|a|b",
    "explain|0|a",
    "explain|1001|a",
    "explain|01|a",
    "explain|+1|a",
    "explain|-1|a",
    "explain|--|-1|a",
    "explain|a|1",
    "explain||a",
    "explain|1|-a",
    "explain|--k|3|1|a",
    "explain|--topic|t|--run|r|1|a",
    "explain|--mu|1|--mu|1|1|a",
    "explain|1|a|--mu",
    "explain|--mu=|1|a",
    "explain|--help",
];

/// The words behind a folder; nothing where memory is short.
fn words_of(alloc: Global, line: &str) -> Option<ArgList> {
    let mut words = ArgList::new(alloc);
    words.push(".").ok()?;
    for word in line.split('|') {
        words.push(word).ok()?;
    }
    Some(words)
}

/// What these words behind a folder ask for; nothing where memory is short.
fn asked(alloc: Global, line: &str) -> Option<Option<Words>> {
    let words = words_of(alloc, line)?;
    read_words(alloc, &words).ok()
}

/// Whether this is the text of what is asked for.
fn is_shown(alloc: Global, found: &Option<Words>, wanted: &str) -> bool {
    match format!(in alloc; "{:?}", found) {
        Ok(text) => text.as_str() == wanted,
        Err(_) => false,
    }
}

/// Whether these words behind a folder ask for this.
fn asks_for(alloc: Global, line: &str, wanted: &str) -> bool {
    match asked(alloc, line) {
        Some(found) => is_shown(alloc, &found, wanted),
        None => false,
    }
}

#[test]
fn what_words_ask_for(rt: HostRuntime) {
    for (line, wanted) in &ASKED {
        assert!(rt; asks_for(rt.alloc(), line, wanted), "{line}");
    }
}

/// Whether these words behind a folder ask for the prior `home`.
fn asks_for_home(alloc: Global, line: &str) -> bool {
    match asked(alloc, line) {
        Some(Some(Words::Prior(name))) => name.as_bytes() == b"home".as_slice(),
        _ => false,
    }
}

#[test]
fn priors_by_their_names(rt: HostRuntime) {
    for line in &["prior|home", "prior|HoMe", "prior|--|home"] {
        assert!(rt; asks_for_home(rt.alloc(), line), "{line}");
    }
}

/// Whether these words behind a folder are no command.
fn is_refused(alloc: Global, line: &str) -> bool {
    match asked(alloc, line) {
        Some(found) => found.is_none(),
        None => false,
    }
}

#[test]
fn words_that_are_refused(rt: HostRuntime) {
    for line in &REFUSED {
        assert!(rt; is_refused(rt.alloc(), line), "{line}");
    }
}
