// Scores that were worked out by hand. A key is that of the beliefs' logarithms in 40 binary places.
use ranked_output::score_text;
use std::alloc::Global;

/// Keys, scales and the texts of their scores.
static SCORES: [(u128, u64, &str); 5] = [
    (0, 7, "0.000000"),
    (104_561_081_947_860, 60, "1.584962"),
    (u128::MAX, 1, "309485009821345068724781055.999999"),
    (u128::MAX, (1 << 60) - 1, "268435456.000000"),
    ((((1 << 60) - 1) << 40) - 1, (1 << 60) - 1, "0.999999"),
];

/// Whether this is the text of a score.
fn is_text(alloc: Global, key: u128, scale: u64, wanted: &str) -> bool {
    if scale == 0 || scale >= 1 << 60 {
        return false;
    }
    match score_text(alloc, key, scale) {
        Ok(text) => text.as_slice() == wanted.as_bytes(),
        Err(_) => false,
    }
}

#[test]
fn scores(rt: HostRuntime) {
    for (key, scale, text) in &SCORES {
        assert!(rt; is_text(rt.alloc(), *key, *scale, text), "{text}");
    }
}
