// Lines of which some words don't matter.

/// Whether a line has these words, where `*` stands for any.
fn is_line(found: &str, wanted: &str) -> bool {
    let mut words = found.split(' ');
    for word in wanted.split(' ') {
        match words.next() {
            Some(found) if word == "*" || found == word => {}
            _ => return false,
        }
    }
    words.next().is_none()
}

/// The same of each line.
pub fn are_lines(found: &str, wanted: &str) -> bool {
    let mut lines = found.lines();
    for line in wanted.lines() {
        match lines.next() {
            Some(found) if is_line(found, line) => {}
            _ => return false,
        }
    }
    lines.next().is_none()
}
