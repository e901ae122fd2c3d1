// Documents between the lines of a script.
ghost use Rattle.std.specs.Prelude.{◌≡◌, true, IfSome, OnSome};

use crate::pieces::{Reading, first_wrong};
use ri_ends::MemSource;
use script_reader::ScriptReader;
use std::alloc::{AllocError, Global};

/// Scripts with the bytes of an `add`, and their items. The bytes are cut by a refusal, by the end of the input, or not.
static ROWS: [(&[u8], &str); 27] = [
    (b"add 3\nabcflush\n", "NotADoc { at: 0 }; flush; end"),
    (
        b"add 9\n\nflush\nx\nmerge\n",
        "NotADoc { at: 1 }; merge; end",
    ),
    (
        b"add 31\n<DOC><DOCNO>d1</DOCNO>a b</DOC>end\nflush\n",
        "doc d1 2; end",
    ),
    (
        b"add 60\n<DOC><DOCNO>d1</DOCNO>a b</DOC><DOC><DOCNO>d2</DOCNO>a</DOC>flush\n",
        "doc d1 2; doc d2 1; flush; end",
    ),
    (
        b"add 58\n<DOC><DOCNO>d1</DOCNO>a b</DOC><DOC><DOCNO>d2</DOCNO>a</DOC>flush\n",
        "doc d1 2; DocOpen { at: 31 }; BadEvent 65; end",
    ),
    (
        b"add 30\n<DOC><DOCNO>d1</DOCNO>a b</DOC>\nmerge",
        "DocOpen { at: 0 }; BadEvent 37; merge; end",
    ),
    (
        b"add 39\n<DOC><DOCNO>d1</DOCNO>a b</DOC>x\nadd 9\nend\nshow q\n",
        "doc d1 2; NotADoc { at: 31 }; end",
    ),
    (
        b"add 100\n<DOC><DOCNO>d1</DOCNO>a b</DOC>\n",
        "doc d1 2; ShortAdd 0; end",
    ),
    (
        b"\nadd 100\n<DOC><DOCNO>d1</DOCNO>a b</DOC>x\nend\n",
        "doc d1 2; NotADoc { at: 31 }; ShortAdd 1; end",
    ),
    (
        b"merge\r\nadd 40\r\n<DOC><DOCNO>d1</DOCNO>a b</DOC><DOC>",
        "merge; doc d1 2; DocOpen { at: 31 }; ShortAdd 7; end",
    ),
    (
        b"add 36\n<DOC><DOCNO>d1</DOCNO>a b</DOC><DOC>merge\n",
        "doc d1 2; DocOpen { at: 31 }; merge; end",
    ),
    (
        b"add 32\n<doc><docno>x</docno>1 2 3</doc>add 31\n<DOC><DOCNO>y</DOCNO>a b </DOC>end",
        "doc x 3; doc y 2; end",
    ),
    (
        b"add 25\n<DOC><DOCNO> </DOCNO></DOC>end\n",
        "DocnoEmpty { at: 13 }; BadEvent 32; end",
    ),
    (
        b"add 1\n\nadd 2\n\r\nadd 5\nx\nendend\nflush",
        "NotADoc { at: 0 }; end",
    ),
    (b"add 0\nflush\n", "BadEvent 0; flush; end"),
    (b"add 0\nend\nflush\n", "BadEvent 0; end"),
    (
        b"add 0\n<DOC><DOCNO>d1</DOCNO>a b</DOC>\nend\n",
        "BadEvent 0; BadEvent 6; end",
    ),
    (b"add 1\n flush\nend\nmerge\n", "flush; end"),
    (b"add 1\r\n\nend\nflush\n", "end"),
    (b"add 1\nxend\nflush\n", "NotADoc { at: 0 }; end"),
    (b"add 3\nabcend\nflush\n", "NotADoc { at: 0 }; end"),
    (
        b"add 36\n<DOC><DOCNO>d1</DOCNO>a b</DOC><DOC>end\nmerge\n",
        "doc d1 2; DocOpen { at: 31 }; end",
    ),
    (
        b"add 31\n<DOC><DOCNO>d1</DOCNO>a b</DOC>end",
        "doc d1 2; end",
    ),
    (
        b"add 32\n<DOC><DOCNO>d1</DOCNO>a b</DOC>\nend\r\nflush\n",
        "doc d1 2; end",
    ),
    (b"add 10\n\n \n", "ShortAdd 0; end"),
    (
        b"add 1073741824\n<DOC><DOCNO>d1</DOCNO>a b</DOC>end\n",
        "doc d1 2; NotADoc { at: 31 }; ShortAdd 0; end",
    ),
    (
        b"add 1073741825\nend\n<DOC><DOCNO>d1</DOCNO>a b</DOC>",
        "BadEvent 0; end",
    ),
];

#[test]
fn documents_of_adds(rt: HostRuntime) {
    assert_eq!(rt; first_wrong(rt.alloc(), Reading::Script, &ROWS), None);
}

/// A source in pieces of ten bytes, whose read of this number fails.
fn failing(alloc: Global, read: u64) -> Result<MemSource, AllocError> {
    let mut fails = Vec::new(alloc);
    fails.push(read)?;
    let script = b"flush\nadd 31\n<DOC><DOCNO>d1</DOCNO>a b</DOC>merge\n".to_vec(alloc)?;
    Ok(MemSource::new(script, 10, fails))
}

fn reader_of(alloc: Global, source: MemSource) -> Option<ScriptReader<MemSource>>
    ensures { IfSome result (λ r. r.is_usable ≡ true) }
{
    ScriptReader::new(alloc, source).ok()
}

/// Whether there is a further item; nothing where it can't be read.
fn has_next(reader: &mut ScriptReader<MemSource>) -> Option<bool>
    requires { reader.old.is_usable ≡ true }
    ensures { OnSome result (reader.new.is_usable ≡ true) }
{
    match reader.next_item() {
        Ok(item) => Some(item.is_some()),
        Err(_) => None,
    }
}

/// How many items are read before the end or a fault, ten at most, and whether there is a fault.
fn read_items(reader: &mut ScriptReader<MemSource>) -> (usize, bool)
    requires { reader.old.is_usable ≡ true }
{
    'items: for count in 0..10 {
        match has_next(reader) {
            Some(true) => {}
            Some(false) => return (count, false),
            None => return (count, true),
        }
    }
    (10, false)
}

/// The same where the read of this number fails.
fn items_before(alloc: Global, read: u64) -> Option<(usize, bool)> {
    let mut reader = reader_of(alloc, failing(alloc, read).ok()?)?;
    Some(read_items(&mut reader))
}

/// A read that is to fail, how many items stand before it, and whether it is made: seven are, of which the last finds the end.
static READS: [(u64, usize, bool); 8] = [
    (1, 0, true),
    (2, 1, true),
    (3, 1, true),
    (4, 1, true),
    (5, 1, true),
    (6, 2, true),
    (7, 3, true),
    (8, 4, false),
];

/// The first of these reads before which there are other items, if there is one.
fn first_wrong_read(alloc: Global) -> Option<u64> {
    for (read, count, fails) in &READS {
        if items_before(alloc, *read) != Some((*count, *fails)) {
            return Some(*read);
        }
    }
    None
}

#[test]
fn reads_that_fail(rt: HostRuntime) {
    assert_eq!(rt; first_wrong_read(rt.alloc()), None);
}
