// Runs of `session` over a store in memory.
use crate::store_tests::{CREATE, Step, are_ended};
use crate::tests::USAGE;
use indri_app::Status;

/// An open query is asked about what was live when it was opened, and the answer is that of a new collection.
static ANSWERED: [Step; 4] = [
    (
        &["session"],
        "sing\n",
        Status::NoRepository,
        "norepository\n",
    ),
    CREATE,
    (
        &["session", "--mu", "1"],
        "add 31\n<DOC><DOCNO>d1</DOCNO>a b</DOC>\nflush\ndelete d1\nadd 29\n<DOC><DOCNO>d1</DOCNO>c</DOC>\nopen q 5 a c\nstep q 1\nshow q\nend\n",
        Status::Done,
        "added d1 2\nflushed 1\ndeleted d1\nadded d1 1\nopened q 1\nstepped q 1 of 1\nresults q 1\n1 - -1.000000 d1 0 1\nended 1\n",
    ),
    (
        &["query", "--mu", "1", "a c"],
        "",
        Status::Done,
        "1 - -1.000000 d1 0 1\n",
    ),
];

/// Documents are deleted and added while a merge is open.
static MERGED: [Step; 3] = [
    CREATE,
    (
        &["session", "--mu", "1"],
        "add 60\n<DOC><DOCNO>d1</DOCNO>a b</DOC><DOC><DOCNO>d2</DOCNO>a</DOC>\nmerge\nturn 1\ndelete d1\nadd 29\n<DOC><DOCNO>d1</DOCNO>a</DOC>\nturn 1\nopen q 5 a\nstep q 2\nshow q\nend\n",
        Status::Done,
        "added d1 2\nadded d2 1\nmerging 2\nturned 1 of 2\ndeleted d1\nadded d1 1\nmerged 2\nopened q 2\nstepped q 2 of 2\nresults q 2\n1 - -0.000000 d1 0 1\n2 = -0.000000 d2 0 1\nended 2\n",
    ),
    (
        &["query", "--mu", "1", "a"],
        "",
        Status::Done,
        "1 - -0.000000 d1 0 1\n2 = -0.000000 d2 0 1\n",
    ),
];

/// Two queries are open while documents come and go.
static OPENED: [Step; 2] = [
    CREATE,
    (
        &["session", "--mu", "1"],
        "add 31\n<DOC><DOCNO>d1</DOCNO>a b</DOC>\nopen p 5 a\nadd 29\n<DOC><DOCNO>d2</DOCNO>a</DOC>\nopen q 5 a\ndelete d1\nshow p\nstep p 1\nshow p\nstep q 9\nshow q\nclose p\nend\n",
        Status::SomeRefused,
        "added d1 2\nopened p 1\nadded d2 1\nopened q 2\ndeleted d1\nrefused NotYet p\nstepped p 1 of 1\nresults p 1\n1 - -1.000000 d1 0 2\nstepped q 2 of 2\nresults q 2\n1 - -0.263034 d2 0 1\n2 > -0.847996 d1 0 2\nclosed p\nended 1\n",
    ),
];

/// What is refused, and that a session goes on behind it. Its end may be that of its input.
static REFUSED: [Step; 5] = [
    CREATE,
    (&["session", "a"], "", Status::Usage, USAGE),
    (
        &["session"],
        "delete x\nadd 62\n<DOC><DOCNO>d1</DOCNO>a b</DOC><DOC><DOCNO>d1</DOCNO>a b</DOC>\nopen q 5 a\nopen q 5 a\nstep z 1\nturn 1\nsing\nend\nadd 1\n",
        Status::SomeRefused,
        "refused NoSuchDoc x\nadded d1 2\nrefused Repeated d1\nopened q 1\nrefused NameTaken q\nrefused NoSuchName z\nrefused NoMerge\nrefused BadEvent 117\nended 1\n",
    ),
    (
        &["session"],
        "open q 1 #1(a\nopen q 1 a #prior(x)\nadd 30\n<DOC><DOCNO>d2</DOCNO>a</DOC>x\nadd 40\n<DOC><DOCNO>d3</DOCNO>a</DOC>",
        Status::SomeRefused,
        "refused Query Expected 4\nrefused Check UnknownPrior x\nadded d2 1\nrefused NotADoc 29\nadded d3 1\nrefused ShortAdd 73\nended 3\n",
    ),
    (&["session"], "", Status::Done, "ended 3\n"),
];

#[test]
fn sessions(rt: HostRuntime) {
    assert!(rt; are_ended(rt.alloc(), &ANSWERED));
    assert!(rt; are_ended(rt.alloc(), &MERGED));
    assert!(rt; are_ended(rt.alloc(), &OPENED));
    assert!(rt; are_ended(rt.alloc(), &REFUSED));
}
