// Passages that were worked out by hand.
use ri_base::Range;
use ri_base::limits::MAX_WIDTH;
use windows::Contexts;

/// The two numbers of passages, and the begins and ends of those of a document of five words.
type Passages = (u32, u32, &'static [(u32, u32)]);

static PASSAGES: [Passages; 5] = [
    (4, 2, &[(0, 4), (2, 5), (4, 5)]),
    (2, 2, &[(0, 2), (2, 4), (4, 5)]),
    (1, 3, &[(0, 1), (3, 4)]),
    (5, 5, &[(0, 5)]),
    (1_048_576, 1_048_576, &[(0, 5)]),
];

/// Whether a document of five words has these passages, and no others.
fn are_passages(width: u32, every: u32, wanted: &[(u32, u32)]) -> bool {
    if width < 1 || width > MAX_WIDTH || every < 1 || every > MAX_WIDTH {
        return false;
    }
    let range = Range::Passages { width, every };
    let mut wanted = wanted.iter();
    for window in Contexts::new(&range, 5, &[]) {
        match wanted.next() {
            Some((begin, end)) if *begin == window.begin() && *end == window.end() => {}
            _ => return false,
        }
    }
    wanted.next().is_none()
}

#[test]
fn passages(rt: HostRuntime) {
    for (width, every, wanted) in &PASSAGES {
        assert!(rt; are_passages(*width, *every, wanted), "{width} {every}");
    }
}
