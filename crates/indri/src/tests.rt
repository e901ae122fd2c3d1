// Whole runs of the program's words over sources and sinks in memory.
use crate::run_words;
use indri_app::Status;
use ri_base::ArgList;
use ri_ends::{MemSink, MemSource, Source};
use std::alloc::Global;
use store_ends::MemStore;

const TWO: &[u8] = b"<DOC><DOCNO>d1</DOCNO>a b</DOC><DOC><DOCNO>d2</DOCNO>a</DOC>";

pub const USAGE: &str =
    "usage: indri DIR scan|create|add|delete|merge|prior|query|explain|session|gen\n";

fn words_of(alloc: Global, texts: &[&str]) -> Option<ArgList> {
    let mut words = ArgList::new(alloc);
    for text in texts {
        words.push(text).ok()?;
    }
    Some(words)
}

/// An input that comes in pieces of so many bytes.
fn source_of(alloc: Global, input: &[u8], piece: usize) -> Option<MemSource> {
    let input = input.to_vec(alloc).ok()?;
    Some(MemSource::new(input, piece.max(1), Vec::new(alloc)))
}

/// Whether the words end so over a source and a store without a file.
fn ends(
    alloc: Global,
    words: &ArgList,
    source: &mut MemSource,
    status: Status,
    text: &[u8],
) -> bool {
    let mut sink = MemSink::new(alloc, Vec::new(alloc));
    let mut store = MemStore::new(alloc, Vec::new(alloc), Vec::new(alloc));
    match run_words(alloc, words, source, &mut sink, &mut store) {
        Ok(answer) => answer == status && sink.bytes() == text,
        Err(_) => false,
    }
}

const NEWSWIRE: &[u8] = b"<DOC>
<DOCNO> AP880212-0001 </DOCNO>
<FILEID>AP-NR-02-12-88 2344EST</FILEID>
<HEAD>Rain Delays Launch</HEAD>
<TEXT>
   Rain delayed the launch. The launch is now set for Monday.
</TEXT>
</DOC>
";

const CAFE: &[u8] =
    b"<doc id=7><DocNo> X-1 </DocNo><Title lang=\"en\">Caf&eacute; au Lait</title></b><Text>one &amp; two</DOC>";

/// The text of a command, its input, its status, and what it writes.
type Row = (&'static str, &'static [u8], Status, &'static [u8]);

/// Scans: first a word over various inputs, then texts that read as one word, and then expressions.
static SCANS: [Row; 38] = [
    ("a", TWO, Status::Done, b"d1 0 1\nd2 0 1\n"),
    ("a", b"", Status::Done, b""),
    ("a", b"x", Status::SomeRefused, b"refused NotADoc 0\n"),
    (
        "a",
        b"<DOC><DOCNO>d1</DOCNO>a b</DOC>\n<DOC><DOCNO>d2</DOCNO><TEXT>a",
        Status::SomeRefused,
        b"d1 0 1\nrefused DocOpen 32\n",
    ),
    ("a", b"<DOC>a", Status::SomeRefused, b"refused NoDocno 5\n"),
    (
        "a",
        b"<DOC><DOCNO></DOCNO>a</DOC>",
        Status::SomeRefused,
        b"refused DocnoEmpty 12\n",
    ),
    (
        "a",
        b"<DOC><DOCNO>d 1</DOCNO>a</DOC>",
        Status::SomeRefused,
        b"refused DocnoBad 13\n",
    ),
    (
        "a",
        b"<DOC>\n<DOCNO> x-1 </DOCNO><B c=d>A&amp;a</b> b<!-- a -->a</doc >\n",
        Status::Done,
        b"x-1 0 1\nx-1 1 2\nx-1 3 4\n",
    ),
    (
        "a",
        b"<doc id=7><DocNo> X-1 </DocNo><Title lang=\"en\">A&eacute; au</Title></b><Text>A &amp; a</DOC>",
        Status::Done,
        b"X-1 0 1\nX-1 2 3\nX-1 3 4\n",
    ),
    (
        "a",
        b"<DOC><DOCNO>d1</DOCNO>b\xffa</DOC>",
        Status::Done,
        b"d1 1 2\n",
    ),
    ("A", TWO, Status::Done, b"d1 0 1\nd2 0 1\n"),
    (" a ", TWO, Status::Done, b"d1 0 1\nd2 0 1\n"),
    ("\"a\"", TWO, Status::Done, b"d1 0 1\nd2 0 1\n"),
    ("caf", CAFE, Status::Done, b"X-1 0 1\n"),
    ("Lait", CAFE, Status::Done, b"X-1 2 3\n"),
    ("two", CAFE, Status::Done, b"X-1 4 5\n"),
    ("#any:title", CAFE, Status::Done, b"X-1 0 3\n"),
    ("#any:text", CAFE, Status::Done, b"X-1 3 5\n"),
    ("#any:b", CAFE, Status::Done, b""),
    ("au.title", CAFE, Status::Done, b"X-1 1 2\n"),
    ("one.title", CAFE, Status::Done, b""),
    (
        "launch",
        NEWSWIRE,
        Status::Done,
        b"AP880212-0001 8 9\nAP880212-0001 12 13\nAP880212-0001 14 15\n",
    ),
    ("monday", NEWSWIRE, Status::Done, b"AP880212-0001 19 20\n"),
    (
        "launch.head",
        NEWSWIRE,
        Status::Done,
        b"AP880212-0001 8 9\n",
    ),
    (
        "#uw3(the launch)",
        NEWSWIRE,
        Status::Done,
        b"AP880212-0001 11 13\nAP880212-0001 12 14\nAP880212-0001 13 15\n",
    ),
    (
        "#1(rain delays)",
        NEWSWIRE,
        Status::Done,
        b"AP880212-0001 6 8\n",
    ),
    ("#1(rain delays).text", NEWSWIRE, Status::Done, b""),
    (
        "#2(launch launch)",
        NEWSWIRE,
        Status::Done,
        b"AP880212-0001 12 15\n",
    ),
    (
        "#1(#any:head rain)",
        NEWSWIRE,
        Status::Done,
        b"AP880212-0001 6 10\n",
    ),
    (
        "#syn(monday delays)",
        NEWSWIRE,
        Status::Done,
        b"AP880212-0001 7 8\nAP880212-0001 19 20\n",
    ),
    (
        "#band(rain launch)",
        NEWSWIRE,
        Status::Done,
        b"AP880212-0001 0 20\n",
    ),
    ("#band(rain sun)", NEWSWIRE, Status::Done, b""),
    ("AP-NR", NEWSWIRE, Status::Done, b"AP880212-0001 0 2\n"),
    (
        "#1(a b)",
        b"<DOC><DOCNO>d1</DOCNO>a a b b</DOC>",
        Status::Done,
        b"d1 1 3\n",
    ),
    (
        "#2(a b)",
        b"<DOC><DOCNO>d1</DOCNO>a a b b</DOC>",
        Status::Done,
        b"d1 0 3\nd1 1 3\n",
    ),
    (
        "#uw1(a b)",
        b"<DOC><DOCNO>d1</DOCNO>a a b b</DOC>",
        Status::Done,
        b"",
    ),
    (
        "#uw3(a b)",
        b"<DOC><DOCNO>d1</DOCNO>b a a b</DOC>",
        Status::Done,
        b"d1 0 2\nd1 1 4\nd1 2 4\n",
    ),
    (
        "b",
        b"<DOC><DOCNO>d1</DOCNO>a\xffb</DOC>",
        Status::Done,
        b"d1 1 2\n",
    ),
];

/// Whether a scan for the text of a row ends so, where its input comes in pieces of so many bytes.
fn is_scanned(alloc: Global, row: &Row, piece: usize) -> bool {
    let (text, input, status, lines) = row;
    let Some(words) = words_of(alloc, &[".", "scan", *text]) else {
        return false;
    };
    match source_of(alloc, input, piece) {
        Some(mut source) => ends(alloc, &words, &mut source, *status, lines),
        None => false,
    }
}

/// The same whatever the pieces are.
fn is_scanned_so(alloc: Global, row: &Row) -> bool {
    for piece in [1, 2, 3, 7, 100] {
        if !is_scanned(alloc, row, piece) {
            return false;
        }
    }
    true
}

/// The first of these scans that ends otherwise, if one does.
fn first_wrong_scan(alloc: Global) -> Option<usize> {
    for (place, row) in SCANS.iter().enumerate() {
        if !is_scanned_so(alloc, row) {
            return Some(place);
        }
    }
    None
}

#[test]
fn scans(rt: HostRuntime) {
    assert_eq!(rt; first_wrong_scan(rt.alloc()), None);
}

/// Words that are no command, and texts that are refused: the words, the status, and what is written.
static REFUSED: [(&[&str], Status, &str); 26] = [
    (&[], Status::Usage, USAGE),
    (&[".", "query", "--run", "mine", "a"], Status::Usage, USAGE),
    (&[".", "explain", "0", "a"], Status::Usage, USAGE),
    (
        &[".", "explain", "--k", "1", "1", "a"],
        Status::Usage,
        USAGE,
    ),
    (&[".", "query", "--mu", "0", "a"], Status::Usage, USAGE),
    (&[".", "query", "--mu", "01", "a"], Status::Usage, USAGE),
    (
        &[".", "query", "--mu", "1000001", "a"],
        Status::Usage,
        USAGE,
    ),
    (&[".", "query", "--nu", "1", "a"], Status::Usage, USAGE),
    (&["."], Status::Usage, USAGE),
    (&[".", "scan"], Status::Usage, USAGE),
    (&[".", "sing", "a"], Status::Usage, USAGE),
    (&[".", "scan", "a", "b"], Status::Usage, USAGE),
    (
        &[".", "scan", ""],
        Status::QueryRefused,
        "refused Query Expected 0\n",
    ),
    (
        &[".", "scan", "#1(a"],
        Status::QueryRefused,
        "refused Query Expected 4\n",
    ),
    (
        &[".", "scan", "a b"],
        Status::QueryRefused,
        "refused Query Expected 2\n",
    ),
    (
        &[".", "scan", "#or(a b)"],
        Status::QueryRefused,
        "refused Query UnknownOperator 0\n",
    ),
    (
        &[".", "scan", "#1()"],
        Status::QueryRefused,
        "refused Query EmptyOperator 0\n",
    ),
    (
        &[".", "scan", "#0(a b)"],
        Status::QueryRefused,
        "refused Query BadNumber 1\n",
    ),
    (
        &[".", "scan", "!"],
        Status::QueryRefused,
        "refused Query EmptyTerm 0\n",
    ),
    (
        &[".", "scan", "#1(a.(t) b)"],
        Status::QueryRefused,
        "refused Query ContextInside 4\n",
    ),
    (
        &[".", "scan", "a.9"],
        Status::QueryRefused,
        "refused Query BadField 2\n",
    ),
    (
        &[".", "scan", "#combine(a #filreq(b c))"],
        Status::QueryRefused,
        "refused Query Expected 0\n",
    ),
    (
        &[".", "scan", "#max(a #combine[t](b))"],
        Status::QueryRefused,
        "refused Query Expected 0\n",
    ),
    (
        &[".", "scan", "#weight(1234567 a)"],
        Status::QueryRefused,
        "refused Query Expected 0\n",
    ),
    (
        &[".", "scan", "#less(a 5)"],
        Status::QueryRefused,
        "refused Query NotYetBuilt 0\n",
    ),
    (
        &[".", "scan", "car*"],
        Status::QueryRefused,
        "refused Query NotYetBuilt 0\n",
    ),
];

/// Whether these words end so, and read nothing.
fn is_refused(alloc: Global, texts: &[&str], status: Status, line: &str) -> bool {
    let Some(words) = words_of(alloc, texts) else {
        return false;
    };
    match source_of(alloc, TWO, 100) {
        Some(mut source) => {
            ends(alloc, &words, &mut source, status, line.as_bytes()) && is_whole(&mut source)
        }
        None => false,
    }
}

/// Whether all bytes of the input are left.
fn is_whole(source: &mut MemSource) -> bool {
    let mut rest = [0; 100];
    match source.read(&mut rest) {
        Ok(count) => &rest[..count] == TWO,
        Err(_) => false,
    }
}

/// The first of these rows that ends otherwise, if one does.
fn first_wrong_refusal(alloc: Global) -> Option<usize> {
    for (place, (texts, status, line)) in REFUSED.iter().enumerate() {
        if !is_refused(alloc, texts, *status, line) {
            return Some(place);
        }
    }
    None
}

#[test]
fn refused(rt: HostRuntime) {
    assert_eq!(rt; first_wrong_refusal(rt.alloc()), None);
}

/// A document with this text so many times, and behind it one of the word `a`.
fn repeated(alloc: Global, text: &str, count: usize) -> Option<Vec<u8>> {
    let mut input = b"<DOC><DOCNO>d1</DOCNO>".to_vec(alloc).ok()?;
    for _ in 0..count {
        input.extend_from_slice(text.as_bytes()).ok()?;
    }
    input
        .extend_from_slice(b"</DOC><DOC><DOCNO>d2</DOCNO>a</DOC>")
        .ok()?;
    Some(input)
}

/// A text, how often it stands in a document, the status, and what a scan for `a` writes.
static LIMITS: [(&str, usize, Status, &str); 4] = [
    ("b ", 1_048_576, Status::Done, "d2 0 1\n"),
    (
        "b ",
        1_048_577,
        Status::SomeRefused,
        "refused TooManyTokens d1\nd2 0 1\n",
    ),
    ("<f>x</f>", 65_535, Status::Done, "d2 0 1\n"),
    (
        "<f>x</f>",
        65_536,
        Status::SomeRefused,
        "refused TooManyFields d1\nd2 0 1\n",
    ),
];

/// Whether a scan for `a` ends so over the documents of such a text.
fn is_limited(alloc: Global, text: &str, count: usize, status: Status, lines: &str) -> bool {
    let Some(input) = repeated(alloc, text, count) else {
        return false;
    };
    let Some(words) = words_of(alloc, &[".", "scan", "a"]) else {
        return false;
    };
    let mut source = MemSource::new(input, 65_536, Vec::new(alloc));
    ends(alloc, &words, &mut source, status, lines.as_bytes())
}

/// The first of these limits that is another one, if one is.
fn first_wrong_limit(alloc: Global) -> Option<usize> {
    for (place, (text, count, status, lines)) in LIMITS.iter().enumerate() {
        if !is_limited(alloc, text, *count, *status, lines) {
            return Some(place);
        }
    }
    None
}

#[test]
fn documents_with_too_much(rt: HostRuntime) {
    assert_eq!(rt; first_wrong_limit(rt.alloc()), None);
}
