// The front of a source in memory.
use ri_ends::{Failed, Front, MemSource, Source};
use std::alloc::Global;

fn second_fails(alloc: Global) -> Option<Vec<u64>> {
    let mut fails = Vec::new(alloc);
    fails.push(2).ok()?;
    Some(fails)
}

/// `abcdef`, at most four bytes a read. The second read fails.
fn letters(alloc: Global) -> Option<MemSource> {
    let bytes = b"abcdef".to_vec(alloc).ok()?;
    let fails = second_fails(alloc)?;
    Some(MemSource::new(bytes, 4, fails))
}

type Reads = (
    Result<usize, Failed>,
    Result<usize, Failed>,
    Result<usize, Failed>,
);

/// What the next three reads answer.
fn reads(source: &mut impl Source) -> Reads {
    let mut buf = [0; 8];
    let first = source.read(&mut buf);
    let second = source.read(&mut buf);
    let third = source.read(&mut buf);
    (first, second, third)
}

/// How many bytes the front has, what its first three reads answer, and how many bytes are missing then.
static FRONTS: [(u64, Reads, u64); 5] = [
    (0, (Ok(0), Ok(0), Ok(0)), 0),
    (4, (Ok(4), Ok(0), Ok(0)), 0),
    (5, (Ok(4), Err(Failed), Ok(1)), 0),
    (6, (Ok(4), Err(Failed), Ok(2)), 0),
    (9, (Ok(4), Err(Failed), Ok(2)), 3),
];

/// What the first three reads of a front of so many bytes answer, and how many bytes are missing then.
fn reads_of_front(alloc: Global, n: u64) -> Option<(Reads, u64)> {
    let source = letters(alloc)?;
    let mut front = Front::new(source, n);
    let found = reads(&mut front);
    Some((found, front.missing()))
}

#[test]
fn fronts_of_a_source(rt: HostRuntime) {
    for (n, reads, missing) in &FRONTS {
        assert!(rt;
            reads_of_front(rt.alloc(), *n) == Some((*reads, *missing)),
            "{n}"
        );
    }
}

/// What the reads behind a front of two bytes answer.
fn reads_behind(alloc: Global) -> Option<Reads> {
    let source = letters(alloc)?;
    let mut front = Front::new(source, 2);
    let _front = reads(&mut front);
    let mut source = front.into_source();
    Some(reads(&mut source))
}

#[test]
fn what_stands_behind_a_front(rt: HostRuntime) {
    assert!(rt; reads_behind(rt.alloc()) == Some((Err(Failed), Ok(4), Ok(0))));
}
