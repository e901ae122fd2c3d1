// A source over a reader, and a sink over a writer, that fail. Those in memory are used by the tests of whole runs.
use ri_ends::{Failed, OutFault, Sink, Source, StdSink, StdSource};
use std::io::{self, Read, Write};

/// Gives `abc`, then an error, then `d`, then the end.
#[derive(Drop)]
struct Stumbling {
    calls: u32,
}

impl Read for Stumbling {
    fn read(&mut self, buf: &mut [u8]) -> io::Result<usize> {
        self.calls = self.calls.saturating_add(1);
        let piece: &[u8] = match self.calls {
            1 => b"abc",
            2 => return Err(io::Error::from(io::ErrorKind::BrokenPipe)),
            3 => b"d",
            _ => b"",
        };
        let count = piece.len().min(buf.len());
        buf[..count].copy_from_slice(&piece[..count]);
        Ok(count)
    }
}

/// What each call answers, and what stands in the buffer behind it.
static READINGS: [(Result<usize, Failed>, [u8; 4]); 4] = [
    (Ok(3), *b"abc\0"),
    (Err(Failed), *b"abc\0"),
    (Ok(1), *b"dbc\0"),
    (Ok(0), *b"dbc\0"),
];

/// The first call that reads otherwise, if one does.
fn first_wrong() -> Option<usize> {
    let mut source = StdSource::new(Stumbling { calls: 0 });
    let mut buf = [0; 4];
    for (i, (answer, held)) in READINGS.iter().enumerate() {
        if source.read(&mut buf) != *answer || buf != *held {
            return Some(i);
        }
    }
    None
}

#[test]
fn a_reader_as_a_source(rt: HostRuntime) {
    assert!(rt; first_wrong().is_none());
}

/// Takes one byte a call, and none from the fifth on.
#[derive(Drop)]
struct Narrow<'a> {
    taken: &'a mut Vec<u8>,
}

impl Write for Narrow<'_> {
    fn write(&mut self, buf: &[u8]) -> io::Result<usize> {
        match buf {
            [first, ..] if self.taken.len() < 4 => {
                self.taken.push(*first)?;
                Ok(1)
            }
            _ => Ok(0),
        }
    }

    fn flush(&mut self) -> io::Result<()> {
        Ok(())
    }
}

/// What two writes answer, the second of which finds no room for its last byte.
fn written(taken: &mut Vec<u8>) -> (Result<(), OutFault>, Result<(), OutFault>) {
    let mut sink = StdSink::new(Narrow { taken });
    let first = sink.write_all(b"abc");
    let second = sink.write_all(b"de");
    (first, second)
}

#[test]
fn a_writer_as_a_sink(rt: HostRuntime) {
    let mut taken = Vec::new(rt.alloc());
    assert!(rt; written(&mut taken) == (Ok(()), Err(OutFault::Failed)));
    assert!(rt; taken.as_slice() == b"abcd".as_slice());
}
