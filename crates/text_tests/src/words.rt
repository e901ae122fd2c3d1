// Words worked out by the rules of UAX #29 and by Unicode's full case folding.
use crate::documents::are_tokens;
use std::alloc::Global;
use tokens::terms_of;

/// Texts and their terms.
static ROWS: [(&str, &[&str]); 50] = [
    // apostrophes, numbers and punctuation
    (
        "The quick (\"brown\") fox can't jump 32.3 feet, right?",
        &[
            "the", "quick", "brown", "fox", "can't", "jump", "32.3", "feet", "right",
        ],
    ),
    ("", &[]),
    (" \t\n...!", &[]),
    ("can\u{2019}t", &["can\u{2019}t"]),
    ("o'clock's", &["o'clock's"]),
    ("'tis", &["tis"]),
    ("dogs'", &["dogs"]),
    ("a''b", &["a", "b"]),
    ("l'\u{152}uvre", &["l'\u{153}uvre"]),
    ("3.14", &["3.14"]),
    ("1,234.56", &["1,234.56"]),
    ("1;2", &["1;2"]),
    ("12:30", &["12", "30"]),
    ("$3.50 100%", &["3.50", "100"]),
    ("3.a", &["3", "a"]),
    ("a.b", &["a.b"]),
    ("a,b", &["a", "b"]),
    ("U.S.A.", &["u.s.a"]),
    ("a1.2b", &["a1.2b"]),
    ("R2D2 1x", &["r2d2", "1x"]),
    ("foo_bar", &["foo_bar"]),
    ("_a_", &["_a_"]),
    ("__", &[]),
    ("state-of-the-art", &["state", "of", "the", "art"]),
    // marks and breaks
    ("a\r\nb", &["a", "b"]),
    ("a\u{a0}b", &["a", "b"]),
    ("cafe\u{301}s", &["cafe\u{301}s"]),
    ("a\u{301}.b", &["a\u{301}.b"]),
    ("a\u{ad}b", &["a\u{ad}b"]),
    ("a\u{200b}b", &["a", "b"]),
    ("a\u{200d}b", &["a\u{200d}b"]),
    ("a\u{2060}b", &["a\u{2060}b"]),
    ("a\u{b7}b", &["a\u{b7}b"]),
    ("a\u{1f44d}b", &["a", "b"]),
    ("\u{1f469}\u{200d}\u{1f52c} ok", &["ok"]),
    // scripts
    // Hebrew: a double quote between two letters, a single quote behind one
    ("\u{5e6}\u{5d4}\"\u{5dc}", &["\u{5e6}\u{5d4}\"\u{5dc}"]),
    ("\u{5d2}' a\"b", &["\u{5d2}'", "a", "b"]),
    // Katakana stands together, Hiragana and Han don't
    (
        "\u{30ab}\u{30bf}\u{30ab}\u{30ca}",
        &["\u{30ab}\u{30bf}\u{30ab}\u{30ca}"],
    ),
    ("\u{30e9}\u{30fc}\u{30e1}", &["\u{30e9}\u{30fc}\u{30e1}"]),
    ("\u{30ab}_a", &["\u{30ab}_a"]),
    ("\u{3072}\u{3089}", &["\u{3072}", "\u{3089}"]),
    ("\u{6f22}\u{5b57}", &["\u{6f22}", "\u{5b57}"]),
    // Thai without a dictionary: a letter and the marks above it
    ("\u{e01}\u{e34}\u{e19}", &["\u{e01}\u{e34}", "\u{e19}"]),
    ("\u{d55c}\u{ad6d}", &["\u{d55c}\u{ad6d}"]),
    (
        "\u{639}\u{631}\u{628} \u{663}\u{664}",
        &["\u{639}\u{631}\u{628}", "\u{663}\u{664}"],
    ),
    (
        "\u{39b}\u{3cc}\u{3b3}\u{3bf}\u{3c2}",
        &["\u{3bb}\u{3cc}\u{3b3}\u{3bf}\u{3c3}"],
    ),
    ("STRASSE Stra\u{df}e", &["strasse", "strasse"]),
    ("\u{130}", &["i\u{307}"]),
    ("\u{fb01}n", &["fin"]),
    // a word of 128 bytes, and one of 129, which is left out
    (
        "AAAAAAAAAAAAAAAAAAAAAAAAAAAAAAAAAAAAAAAAAAAAAAAAAAAAAAAAAAAAAAAAAAAAAAAAAAAAAAAAAAAAAAAAAAAAAAAAAAAAAAAAAAAAAAAAAAAAAAAAAAAAAAAA AAAAAAAAAAAAAAAAAAAAAAAAAAAAAAAAAAAAAAAAAAAAAAAAAAAAAAAAAAAAAAAAAAAAAAAAAAAAAAAAAAAAAAAAAAAAAAAAAAAAAAAAAAAAAAAAAAAAAAAAAAAAAAAAA b",
        &[
            "aaaaaaaaaaaaaaaaaaaaaaaaaaaaaaaaaaaaaaaaaaaaaaaaaaaaaaaaaaaaaaaaaaaaaaaaaaaaaaaaaaaaaaaaaaaaaaaaaaaaaaaaaaaaaaaaaaaaaaaaaaaaaaaa",
            "b",
        ],
    ),
];

/// Whether these are the terms of a text.
fn are_terms(alloc: Global, text: &str, want: &[&str]) -> bool {
    match terms_of(alloc, text) {
        Ok(terms) => are_tokens(terms.as_slice(), want),
        Err(_) => false,
    }
}

#[test]
fn terms_of_texts(rt: HostRuntime) {
    for (text, want) in &ROWS {
        assert!(rt; are_terms(rt.alloc(), text, want), "{text}");
    }
}
