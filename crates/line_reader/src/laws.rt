// What a line is, in the words of its form.
ghost use Rattle.std.specs.Prelude.{◌≡◌, ◌<◌, ℕ, List, length};
ghost use Rattle.line_reader.specs.Form.{IsLine};
ghost use Rattle.line_reader.specs.Lines.{behind_line, line};

/// The line at the front of some bytes, and what stands behind it, are those that the form of lines names.
pub fn line_is_form()
    ensures only { (bytes : List ℕ) → 0 < length bytes → IsLine (line bytes) bytes (behind_line bytes) }
    ensures every { (text bytes rest : List ℕ) → IsLine text bytes rest → (text ≡ line bytes) × (rest ≡ behind_line bytes) }
{}
