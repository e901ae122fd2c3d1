// Calls of a store, and what they answer in memory and in a folder.
ghost use Rattle.std.specs.Prelude.{◌≡◌};
ghost use Rattle.store_ends.specs.declared.limits.TheConstants.{LONGEST_NAME};

use ri_ends::OutFault;
use store_ends::{LONGEST_NAME, Store};

/// A call on one file.
#[derive(Clone, Copy)]
pub enum Call {
    Len,
    /// from which byte on, and how many bytes, at most eight
    Read(u64, usize),
    Put(&'static [u8]),
    Replace(&'static [u8]),
    Remove,
}

#[derive(Clone, Copy, PartialEq, Eq)]
pub enum Answer<'a> {
    Length(Option<u64>),
    Bytes(&'a [u8]),
    Done,
    Fault(OutFault),
}

/// What a call answers on the file of this name.
pub fn answer_of<'a, T: Store>(
    store: &mut T,
    name: &str,
    call: Call,
    room: &'a mut [u8; 8],
) -> Answer<'a>
    requires { T.longest store.old ≡ LONGEST_NAME }
    ensures { T.longest store.new ≡ LONGEST_NAME }
{
    if name.len() > LONGEST_NAME {
        return Answer::Length(None);
    }
    match call {
        Call::Len => match store.len(name) {
            Ok(length) => Answer::Length(length),
            Err(fault) => Answer::Fault(fault),
        },
        Call::Read(at, count) => match store.read_at(name, at, &mut room[..count.min(8)]) {
            Ok(count) => Answer::Bytes(&room[..count]),
            Err(fault) => Answer::Fault(fault),
        },
        Call::Put(bytes) => done(store.put(name, bytes)),
        Call::Replace(bytes) => done(store.replace(name, bytes)),
        Call::Remove => done(store.remove(name)),
    }
}

fn done<'a>(answer: Result<(), OutFault>) -> Answer<'a> {
    match answer {
        Ok(()) => Answer::Done,
        Err(fault) => Answer::Fault(fault),
    }
}

/// The name of a file, a call on it, and what it is to answer.
pub type Row<'a> = (&'a str, Call, Answer<'a>);

/// How many of these calls answer so, one behind the other.
pub fn answered<T: Store>(store: &mut T, calls: &[Row<'_>]) -> usize
    requires { T.longest store.old ≡ LONGEST_NAME }
    ensures { T.longest store.new ≡ LONGEST_NAME }
{
    let mut room = [0; 8];
    for (i, (name, call, wanted)) in calls.iter().enumerate() {
        if answer_of(store, name, *call, &mut room) != *wanted {
            return i;
        }
    }
    calls.len()
}

pub const FAILED: Answer<'static> = Answer::Fault(OutFault::Failed);

/// A call of each kind on the file of this name, which fails.
pub fn failing_calls(name: &str) -> [Row<'_>; 5] {
    [
        (name, Call::Len, FAILED),
        (name, Call::Read(0, 8), FAILED),
        (name, Call::Put(b"new"), FAILED),
        (name, Call::Replace(b"new"), FAILED),
        (name, Call::Remove, FAILED),
    ]
}

/// A name of exactly as many bytes as one may have.
pub const LONG: &str = "a-name-of-64-bytes-is-the-longest-that-a-store-must-be-able-to-a";

/// Calls on a store without files.
pub static CALLS: [Row<'static>; 40] = [
    // no file yet
    ("a", Call::Len, Answer::Length(None)),
    ("a", Call::Read(0, 8), Answer::Bytes(b"")),
    ("a", Call::Remove, Answer::Done),
    // a file that wasn't there is replaced
    ("a", Call::Replace(b"abcdefghij"), Answer::Done),
    ("a", Call::Len, Answer::Length(Some(10))),
    ("a", Call::Read(0, 8), Answer::Bytes(b"abcdefgh")),
    // in pieces
    ("a", Call::Read(0, 4), Answer::Bytes(b"abcd")),
    ("a", Call::Read(4, 4), Answer::Bytes(b"efgh")),
    ("a", Call::Read(8, 4), Answer::Bytes(b"ij")),
    ("a", Call::Read(10, 4), Answer::Bytes(b"")),
    // before, at and past the end, and without room
    ("a", Call::Read(9, 1), Answer::Bytes(b"j")),
    ("a", Call::Read(9, 8), Answer::Bytes(b"j")),
    ("a", Call::Read(11, 8), Answer::Bytes(b"")),
    (
        "a",
        Call::Read(9_223_372_036_854_775_808, 8),
        Answer::Bytes(b""),
    ),
    ("a", Call::Read(u64::MAX, 8), Answer::Bytes(b"")),
    ("a", Call::Read(3, 0), Answer::Bytes(b"")),
    // a shorter file in place of a longer one
    ("a", Call::Put(b"xy\0"), Answer::Done),
    ("a", Call::Len, Answer::Length(Some(3))),
    ("a", Call::Read(0, 8), Answer::Bytes(b"xy\0")),
    ("a", Call::Replace(b"z"), Answer::Done),
    ("a", Call::Len, Answer::Length(Some(1))),
    ("a", Call::Read(0, 8), Answer::Bytes(b"z")),
    // an empty file
    ("b", Call::Put(b""), Answer::Done),
    ("b", Call::Len, Answer::Length(Some(0))),
    ("b", Call::Read(0, 8), Answer::Bytes(b"")),
    ("b", Call::Replace(b""), Answer::Done),
    ("b", Call::Len, Answer::Length(Some(0))),
    // the longest name
    (LONG, Call::Len, Answer::Length(None)),
    (LONG, Call::Put(b"1"), Answer::Done),
    (LONG, Call::Replace(b"23"), Answer::Done),
    (LONG, Call::Len, Answer::Length(Some(2))),
    (LONG, Call::Read(0, 8), Answer::Bytes(b"23")),
    // none of these changed another file
    ("a", Call::Read(0, 8), Answer::Bytes(b"z")),
    ("b", Call::Len, Answer::Length(Some(0))),
    // all files are removed, each once more than needed
    (LONG, Call::Remove, Answer::Done),
    (LONG, Call::Remove, Answer::Done),
    ("a", Call::Remove, Answer::Done),
    ("a", Call::Len, Answer::Length(None)),
    ("b", Call::Remove, Answer::Done),
    ("b", Call::Len, Answer::Length(None)),
];
