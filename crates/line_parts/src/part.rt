// Parts of a text.
ghost use Rattle.std.specs.Prelude.{◌≡◌, option_map};
ghost use Rattle.line_parts.specs.Parts.{split};

use memchr::memchr;

/// What stands before the first such byte and what stands behind it, where there is one.
pub fn split<'a>(byte: u8, text: &'a [u8]) -> Option<(&'a [u8], &'a [u8])>
    ensures { option_map (λ x. (x.0.now, x.1.now)) result ≡ split byte text.now }
{
    match memchr(byte, text) {
        Some(at) => Some((&text[..at], &text[at + 1..])),
        None => None,
    }
}
