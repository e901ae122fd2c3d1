// Documents as a reader gives them, and the refusals that end them.
use ri_ends::{Lent, MemSource, Source};
use std::alloc::Global;
use trec_reader::{TrecReader, TrecRefusal};

const TWO: &[u8] = b"<DOC><DOCNO>d1</DOCNO>a b</DOC><DOC><DOCNO>d2</DOCNO>a</DOC>";

/// How many documents are read, and the refusal that ends them, if one does.
type Ending = (usize, Option<TrecRefusal>);

/// How a reader ends, of a thousand documents at most.
fn ending_of(reader: &mut TrecReader<impl Source>) -> Option<Ending> {
    for count in 0..1000 {
        match reader.next_doc() {
            Ok(Some(_)) => {}
            Ok(None) => return Some((count, None)),
            Err(refusal) => return Some((count, Some(refusal))),
        }
    }
    None
}

/// How the reading of an input in such pieces ends.
fn ending(alloc: Global, input: &[u8], piece: usize) -> Option<Ending> {
    let bytes = input.to_vec(alloc).ok()?;
    let source = MemSource::new(bytes, piece.max(1), Vec::new(alloc));
    let mut reader = TrecReader::new(alloc, source).ok()?;
    ending_of(&mut reader)
}

/// Whether the input is read so, whatever the pieces of the source.
fn ends_so(alloc: Global, input: &[u8], wanted: Ending) -> bool {
    for piece in [1, 2, 3, 7, 100] {
        if ending(alloc, input, piece) != Some(wanted) {
            return false;
        }
    }
    true
}

/// Inputs, how many documents are read of each, and the refusal that ends them.
static ROWS: [(&[u8], usize, Option<TrecRefusal>); 22] = [
    (b"", 0, None),
    (b" \n\t\x0c\r", 0, None),
    (TWO, 2, None),
    (b"x", 0, Some(TrecRefusal::NotADoc { at: 0 })),
    (b" <do", 0, Some(TrecRefusal::NotADoc { at: 1 })),
    (b"</doc>", 0, Some(TrecRefusal::NotADoc { at: 0 })),
    (b"<doc <doc>", 0, Some(TrecRefusal::NotADoc { at: 0 })),
    (b"<docs>", 0, Some(TrecRefusal::NotADoc { at: 0 })),
    (
        b" <doc>\n<docno>x</docno/>a</Doc x=/ ><DOC",
        1,
        Some(TrecRefusal::NotADoc { at: 36 }),
    ),
    (b"<doc/> <x>", 0, Some(TrecRefusal::NoDocno { at: 7 })),
    (b"<DOC>a", 0, Some(TrecRefusal::NoDocno { at: 5 })),
    (b"<DOC></DOCNO>", 0, Some(TrecRefusal::NoDocno { at: 5 })),
    (
        b"<DOC><DOCNO> <b>",
        0,
        Some(TrecRefusal::DocnoEmpty { at: 13 }),
    ),
    (
        b"<DOC><DOCNO></docno>",
        0,
        Some(TrecRefusal::DocnoEmpty { at: 12 }),
    ),
    (b"<DOC><DOCNO><1", 0, Some(TrecRefusal::DocnoBad { at: 12 })),
    (
        b"<DOC><DOCNO>d 1",
        0,
        Some(TrecRefusal::DocnoBad { at: 13 }),
    ),
    (
        b"<DOC><DOCNO>d\x7f",
        0,
        Some(TrecRefusal::DocnoBad { at: 13 }),
    ),
    (
        b"<DOC><DOCNO>d1 <b>",
        0,
        Some(TrecRefusal::DocnoBad { at: 15 }),
    ),
    (b"<DOC>", 0, Some(TrecRefusal::DocOpen { at: 0 })),
    (b"<DOC><x", 0, Some(TrecRefusal::DocOpen { at: 0 })),
    (b"<DOC><DOCNO>d ", 0, Some(TrecRefusal::DocOpen { at: 0 })),
    (
        b"<DOC><DOCNO>d1</DOCNO>a</DO",
        0,
        Some(TrecRefusal::DocOpen { at: 0 }),
    ),
];

#[test]
fn inputs(rt: HostRuntime) {
    for (input, count, refusal) in &ROWS {
        assert!(rt; ends_so(rt.alloc(), input, (*count, *refusal)), "{input:?}");
    }
}

/// A document with a docno of so many bytes.
fn with_docno(alloc: Global, length: usize) -> Option<Vec<u8>> {
    let mut input = b"<DOC><DOCNO>".to_vec(alloc).ok()?;
    input.resize(length.saturating_add(12), b'x').ok()?;
    input.extend_from_slice(b" </DOCNO></DOC>").ok()?;
    Some(input)
}

fn ending_with_docno(alloc: Global, length: usize) -> Option<Ending> {
    let input = with_docno(alloc, length)?;
    ending(alloc, &input, 100)
}

#[test]
fn long_docnos(rt: HostRuntime) {
    assert!(rt; ending_with_docno(rt.alloc(), 255) == Some((1, None)));
    let refusal = TrecRefusal::DocnoLong { at: 12 };
    assert!(rt; ending_with_docno(rt.alloc(), 256) == Some((0, Some(refusal))));
}

/// How the front of so many bytes of the two documents ends.
fn ending_of_front(length: usize) -> Ending {
    match length {
        0 => (0, None),
        1..5 => (0, Some(TrecRefusal::NotADoc { at: 0 })),
        5..31 => (0, Some(TrecRefusal::DocOpen { at: 0 })),
        31 => (1, None),
        32..36 => (1, Some(TrecRefusal::NotADoc { at: 31 })),
        _ => (1, Some(TrecRefusal::DocOpen { at: 31 })),
    }
}

#[test]
fn every_front_of_two_documents(rt: HostRuntime) {
    for length in 0..TWO.len() {
        let found = ending(rt.alloc(), &TWO[..length], 7);
        assert!(rt; found == Some(ending_of_front(length)), "{length}");
    }
}

/// Whether the next document has this docno, stands at this offset, and has one piece.
fn is_next(reader: &mut TrecReader<impl Source>, docno: &[u8], offset: u64) -> bool {
    match reader.next_doc() {
        Ok(Some(raw)) => {
            raw.docno.as_bytes() == docno && raw.offset == offset && raw.pieces.len() == 1
        }
        _ => false,
    }
}

fn is_refused(reader: &mut TrecReader<impl Source>, refusal: TrecRefusal) -> bool {
    match reader.next_doc() {
        Ok(_) => false,
        Err(found) => found == refusal,
    }
}

const REFUSED: &[u8] = b" <DOC><DOCNO>d1</DOCNO>a b</DOC><DOC><DOCNO>d2</DOCNO>a</DOC>x";

/// Whether a reader gives both documents, then the refusal, and then that it has ended.
fn are_next(reader: &mut TrecReader<impl Source>) -> bool {
    is_next(reader, b"d1", 1)
        && is_next(reader, b"d2", 32)
        && is_refused(reader, TrecRefusal::NotADoc { at: 61 })
        && is_refused(reader, TrecRefusal::Ended)
}

/// Whether one does so over a source that is lent to it.
fn are_read(alloc: Global, source: &mut MemSource) -> Option<bool> {
    let mut reader = TrecReader::new(alloc, Lent::new(source)).ok()?;
    Some(are_next(&mut reader))
}

fn are_read_in_turn(alloc: Global) -> Option<bool> {
    let input = REFUSED.to_vec(alloc).ok()?;
    let mut source = MemSource::new(input, 9, Vec::new(alloc));
    are_read(alloc, &mut source)
}

#[test]
fn one_reader(rt: HostRuntime) {
    assert!(rt; are_read_in_turn(rt.alloc()) == Some(true));
}
