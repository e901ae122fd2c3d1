// The file of a prior that was written out by hand.
use crate::faults::{Kind, Row, first_wrong, first_wrong_front, refused_raised};

/// Documents without a row have 1 / 2, `a` has 1 / 3, and `b` has 2 / 2.
static BYTES: [u8; 65] = [
    0x69, 0x6e, 0x64, 0x72, 0x69, 0x70, 0x72, 0x69, 1, 1, 0, 0, 0, 0, 0, 0, 0, 2, 0, 0, 0, 0, 0, 0,
    0, 2, 0, 0, 0, 1, 0x61, 1, 0, 0, 0, 0, 0, 0, 0, 3, 0, 0, 0, 0, 0, 0, 0, 1, 0x62, 2, 0, 0, 0, 0,
    0, 0, 0, 2, 0, 0, 0, 0, 0, 0, 0,
];

static BEGINS: [usize; 14] = [0, 8, 9, 17, 25, 29, 30, 31, 39, 47, 48, 49, 57, 65];

#[test]
fn fronts(rt: HostRuntime) {
    assert!(rt; first_wrong_front(rt.alloc(), Kind::Prior, &BYTES, &BEGINS).is_none());
}

/// Changes of a byte, and then p and q that are one too great or just not, as many rows as there may be, which aren't there, and one
/// more.
static CHANGED: [Row; 16] = [
    (&[(4, &[0])], Some(0)),
    (&[(8, &[2])], Some(8)),
    (&[(9, &[0])], Some(9)),
    (&[(9, &[3])], Some(17)),
    (&[(25, &[1])], Some(47)),
    (&[(29, &[0])], Some(29)),
    (&[(30, &[0x62])], Some(48)),
    (&[(48, &[0x61])], Some(48)),
    (&[(57, &[1])], Some(57)),
    (&[(57, &[9])], None),
    (&[(9, &[0, 0, 0x64, 0xa7, 0xb3, 0xb6, 0xe0, 0x0d])], Some(9)),
    (
        &[(17, &[0, 0, 0x64, 0xa7, 0xb3, 0xb6, 0xe0, 0x0d])],
        Some(17),
    ),
    (
        &[(17, &[0xff, 0xff, 0x63, 0xa7, 0xb3, 0xb6, 0xe0, 0x0d])],
        None,
    ),
    (
        &[
            (9, &[0xff, 0xff, 0x63, 0xa7, 0xb3, 0xb6, 0xe0, 0x0d]),
            (17, &[0xff, 0xff, 0x63, 0xa7, 0xb3, 0xb6, 0xe0, 0x0d]),
        ],
        None,
    ),
    (&[(25, &[0, 0, 0x10, 0])], Some(65)),
    (&[(25, &[1, 0, 0x10, 0])], Some(25)),
];

#[test]
fn changed_bytes(rt: HostRuntime) {
    assert!(rt; first_wrong(rt.alloc(), Kind::Prior, &BYTES, &CHANGED).is_none());
}

// Each byte of a q may be greater, the first one of a p that is less than its q, and the docno of the last row.
#[test]
fn raised_bytes(rt: HostRuntime) {
    assert!(rt; refused_raised(rt.alloc(), Kind::Prior, &BYTES) == Some(65 - 27));
}
