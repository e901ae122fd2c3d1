//! Classes of bytes of ASCII.
ghost use Rattle.std.specs.Prelude.{◌≡◌};
ghost use Rattle.ri_base.specs.Ascii.{is_space, is_lower, is_digit, is_letter, is_letter_or_digit, lower};

/// Tab, line feed, form feed, carriage return or space.
pub fn is_space(byte: u8) -> bool
    ensures { result ≡ is_space byte }
{
    byte.is_ascii_whitespace()
}

/// A letter in lower case, from `a` to `z`.
pub fn is_lower(byte: u8) -> bool
    ensures { result ≡ is_lower byte }
{
    byte.is_ascii_lowercase()
}

/// A digit, from `0` to `9`.
pub fn is_digit(byte: u8) -> bool
    ensures { result ≡ is_digit byte }
{
    byte.is_ascii_digit()
}

/// A letter in either case.
pub fn is_letter(byte: u8) -> bool
    ensures { result ≡ is_letter byte }
{
    byte.is_ascii_alphabetic()
}

/// A letter in either case, or a digit.
pub fn is_letter_or_digit(byte: u8) -> bool
    ensures { result ≡ is_letter_or_digit byte }
{
    byte.is_ascii_alphanumeric()
}

/// A letter in lower case, and any other byte as it is.
pub fn lower(byte: u8) -> u8
    ensures { result ≡ lower byte }
{
    byte.to_ascii_lowercase()
}
