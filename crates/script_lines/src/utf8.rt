// Texts in UTF-8.
ghost use Rattle.std.specs.Prelude.{◌≡◌};
ghost use Rattle.std.specs.Str.{is_utf8};

/// Whether these bytes are UTF-8.
#[tactic(auto, using(crate::proofs::TextLemmas::is_text, crate::proofs::TextLemmas::is_no_text))]
pub fn is_utf8(text: &[u8]) -> bool
    ensures { result ≡ is_utf8 text.now }
{
    std::str::from_utf8(text).is_ok()
}
