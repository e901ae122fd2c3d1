// A segment that was written out by hand.
use crate::faults::{Kind, Row, first_wrong, first_wrong_front, refused_raised};

/// `d1` has the tokens `a b`, and `d2` the token `a`.
static BYTES: [u8; 155] = [
    0x69, 0x6e, 0x64, 0x72, 0x69, 0x73, 0x65, 0x67, 1, 0, 0, 0, 2, 0, 0, 0, 3, 0, 0, 0, 0, 0, 0, 0,
    2, 0, 0, 0, 0, 0, 0, 0, 0x40, 0, 0, 0, 0, 0, 0, 0, 0x52, 0, 0, 0, 0, 0, 0, 0, 0x7e, 0, 0, 0, 0,
    0, 0, 0, 0x9b, 0, 0, 0, 0, 0, 0, 0, 2, 0x64, 0x31, 2, 0, 0, 0, 0, 0, 2, 0x64, 0x32, 1, 0, 0, 0,
    0, 0, 1, 0x61, 1, 0, 0, 0, 0, 0, 0, 0, 0x7e, 0, 0, 0, 0, 0, 0, 0, 0x13, 0, 0, 0, 1, 0x62, 1, 0,
    0, 0, 0, 0, 0, 0, 0x91, 0, 0, 0, 0, 0, 0, 0, 0x0a, 0, 0, 0, 2, 0, 1, 0, 0, 0, 0, 0, 0, 0, 1, 1,
    0, 0, 0, 0, 0, 0, 0, 1, 0, 1, 0, 0, 0, 1, 0, 0, 0,
];

/// The fields of the header begin here, of which the last is the length of the file.
static BEGINS: [usize; 11] = [0, 8, 12, 16, 24, 28, 32, 40, 48, 56, 155];

#[test]
fn fronts(rt: HostRuntime) {
    assert!(rt; first_wrong_front(rt.alloc(), Kind::Segment, &BYTES, &BEGINS).is_none());
}

/// Changes of the header, of the other parts, and of numbers that are one too great or just not. The number of documents and that of
/// tokens are also told by the documents, which end at 82.
static CHANGED: [Row; 29] = [
    (&[(7, &[0])], Some(0)),
    (&[(8, &[2])], Some(8)),
    (&[(12, &[3])], Some(82)),
    (&[(32, &[65])], Some(32)),
    (&[(48, &[0x51])], Some(48)),
    (&[(56, &[0x9c])], Some(56)),
    (&[(64, &[0])], Some(64)),
    (&[(67, &[3])], Some(82)),
    (&[(83, &[0x63])], Some(105)),
    (&[(92, &[0x7f])], Some(92)),
    (&[(126, &[0])], Some(126)),
    (&[(126, &[3])], Some(145)),
    (&[(126, &[65])], Some(126)),
    (&[(127, &[2])], Some(127)),
    (&[(127, &[64])], Some(127)),
    (&[(127, &[1])], Some(136)),
    (&[(128, &[0])], Some(128)),
    (&[(132, &[2])], Some(132)),
    (&[(136, &[2])], Some(136)),
    (&[(65, &[0x65])], None),
    (&[(12, &[0, 0, 0x10, 0])], Some(82)),
    (&[(12, &[1, 0, 0x10, 0])], Some(12)),
    (&[(16, &[0, 0, 0, 4])], Some(82)),
    (&[(16, &[1, 0, 0, 4])], Some(16)),
    (&[(28, &[1, 0, 1, 0])], Some(28)),
    (&[(67, &[0, 0, 0x10, 0])], Some(82)),
    (&[(67, &[1, 0, 0x10, 0])], Some(67)),
    (&[(82, &[0])], Some(82)),
    (&[(82, &[129])], Some(82)),
];

#[test]
fn changed_bytes(rt: HostRuntime) {
    assert!(rt; first_wrong(rt.alloc(), Kind::Segment, &BYTES, &CHANGED).is_none());
}

/// The first two rows tell a place twice. In the next two a place is told of no term. The file of the last two tells of very many
/// tokens.
static ACROSS: [Row; 6] = [
    (&[(151, &[0])], Some(151)),
    (&[(132, &[1])], Some(151)),
    (&[(67, &[3]), (16, &[4])], Some(155)),
    (&[(76, &[2]), (16, &[4])], Some(155)),
    (
        &[(16, &[1]), (18, &[16]), (67, &[0]), (69, &[16])],
        Some(155),
    ),
    (
        &[
            (16, &[1]),
            (18, &[16]),
            (67, &[0]),
            (69, &[16]),
            (151, &[0]),
        ],
        Some(151),
    ),
];

#[test]
fn places_across_blocks(rt: HostRuntime) {
    assert!(rt; first_wrong(rt.alloc(), Kind::Segment, &BYTES, &ACROSS).is_none());
}

// The bytes of the docnos may be others, and that of the last term.
#[test]
fn raised_bytes(rt: HostRuntime) {
    assert!(rt; refused_raised(rt.alloc(), Kind::Segment, &BYTES) == Some(155 - 5));
}
