// Manifests that were written out by hand.
use crate::faults::{Kind, Row, first_wrong, first_wrong_front, refused_raised};

/// No file, and the next number is 1. A byte stands behind it.
static EMPTY: [u8; 34] = [
    0x69, 0x6e, 0x64, 0x72, 0x69, 0x6d, 0x61, 0x6e, 1, 0, 0, 0, 1, 0, 0, 0, 0, 0, 0, 0, 0, 0, 0, 0,
    0, 0, 0, 0, 0, 0, 0, 0, 0, 0,
];

static EMPTY_BEGINS: [usize; 7] = [0, 8, 12, 20, 24, 32, 33];

/// The next number is 2, and the segment 1 has two documents, none of them dead.
static ONE: [u8; 49] = [
    0x69, 0x6e, 0x64, 0x72, 0x69, 0x6d, 0x61, 0x6e, 1, 0, 0, 0, 2, 0, 0, 0, 0, 0, 0, 0, 1, 0, 0, 0,
    1, 0, 0, 0, 0, 0, 0, 0, 2, 0, 0, 0, 0, 0, 0, 0, 0, 0, 0, 0, 0, 0, 0, 0, 0,
];

static ONE_BEGINS: [usize; 10] = [0, 8, 12, 20, 24, 32, 36, 40, 48, 49];

/// The next number is 9. Segment 3 has three documents, the first and the last of them dead. The files 4 and 5 are stale.
/// The prior `ab` has the file 8.
static ALL: [u8; 84] = [
    0x69, 0x6e, 0x64, 0x72, 0x69, 0x6d, 0x61, 0x6e, 1, 0, 0, 0, 9, 0, 0, 0, 0, 0, 0, 0, 1, 0, 0, 0,
    3, 0, 0, 0, 0, 0, 0, 0, 3, 0, 0, 0, 2, 0, 0, 0, 0, 0, 0, 0, 2, 0, 0, 0, 2, 0, 0, 0, 0, 0, 0, 0,
    4, 0, 0, 0, 0, 0, 0, 0, 5, 0, 0, 0, 0, 0, 0, 0, 1, 2, 0x61, 0x62, 8, 0, 0, 0, 0, 0, 0, 0,
];

static ALL_BEGINS: [usize; 17] = [
    0, 8, 12, 20, 24, 32, 36, 40, 44, 48, 56, 64, 72, 73, 74, 76, 84,
];

#[test]
fn fronts(rt: HostRuntime) {
    assert!(rt; first_wrong_front(rt.alloc(), Kind::Manifest, &EMPTY, &EMPTY_BEGINS).is_none());
    assert!(rt; first_wrong_front(rt.alloc(), Kind::Manifest, &ONE, &ONE_BEGINS).is_none());
    assert!(rt; first_wrong_front(rt.alloc(), Kind::Manifest, &ALL, &ALL_BEGINS).is_none());
}

/// Changes of the last one.
static CHANGED: [Row; 16] = [
    (&[(7, &[0x67])], Some(0)),
    (&[(8, &[2])], Some(8)),
    (&[(12, &[0])], Some(12)),
    (&[(24, &[0])], Some(24)),
    (&[(24, &[9])], Some(24)),
    (&[(24, &[5])], Some(64)),
    (&[(32, &[0])], Some(32)),
    (&[(40, &[2])], Some(44)),
    (&[(44, &[3])], Some(44)),
    (&[(56, &[3])], Some(56)),
    (&[(56, &[5])], Some(64)),
    (&[(72, &[9])], Some(72)),
    (&[(73, &[0])], Some(73)),
    (&[(74, &[0x41])], Some(74)),
    (&[(76, &[5])], Some(76)),
    (&[(76, &[7])], None),
];

#[test]
fn changed_bytes(rt: HostRuntime) {
    assert!(rt; first_wrong(rt.alloc(), Kind::Manifest, &ALL, &CHANGED).is_none());
}

/// Very many segments; numbers of files that are just not too great, and one too great; as many documents as there may be, one more,
/// and none; eight priors, which aren't there, and nine.
static LIMITS: [Row; 8] = [
    (&[(20, &[0xff, 0xff, 0xff, 0xff])], Some(40)),
    (
        &[
            (12, &[0xff, 0xff, 0xff, 0xff, 0xff, 0xff, 0xff, 0xff]),
            (24, &[0xfe, 0xff, 0xff, 0xff, 0xff, 0xff, 0xff, 0xff]),
        ],
        None,
    ),
    (
        &[
            (12, &[0xff, 0xff, 0xff, 0xff, 0xff, 0xff, 0xff, 0xff]),
            (24, &[0xff, 0xff, 0xff, 0xff, 0xff, 0xff, 0xff, 0xff]),
        ],
        Some(24),
    ),
    (&[(32, &[0, 0, 0x10, 0])], None),
    (&[(32, &[1, 0, 0x10, 0])], Some(32)),
    (&[(32, &[0, 0, 0, 0])], Some(32)),
    (&[(48, &[8])], Some(49)),
    (&[(48, &[9])], Some(48)),
];

#[test]
fn numbers_at_their_limits(rt: HostRuntime) {
    assert!(rt; first_wrong(rt.alloc(), Kind::Manifest, &ONE, &LIMITS).is_none());
}

// Each byte of the next number may be greater, and of the number of documents the first three.
#[test]
fn raised_bytes(rt: HostRuntime) {
    assert!(rt; refused_raised(rt.alloc(), Kind::Manifest, &EMPTY[..33]) == Some(33 - 8));
    assert!(rt; refused_raised(rt.alloc(), Kind::Manifest, &ONE) == Some(49 - 11));
}
