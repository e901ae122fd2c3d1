// Numbers in decimal digits.
ghost use Rattle.std.specs.Prelude.{◌≡◌, ◌<◌, ◌≤◌, ◌^◌, IfSome, MatchOption};
ghost use Rattle.std.specs.List.{list_all};
ghost use Rattle.ri_base.specs.Ascii.{is_digit};
ghost use Rattle.line_parts.specs.Digits.{has_number_form, number_to, starts_with_zero, value_from};

use ri_base::ascii::is_digit;

/// Whether each byte is a digit.
pub fn are_digits(text: &[u8]) -> bool
    ensures { result ≡ list_all is_digit text.now }
{
    text.iter().all(|byte| is_digit(*byte))
}

fn starts_with_zero(text: &[u8]) -> bool
    ensures { result ≡ starts_with_zero text.now }
{
    match text {
        [b'0', ..] => true,
        _ => false,
    }
}

/// Whether these are digits without a leading zero, at least one.
fn has_number_form(text: &[u8]) -> bool
    ensures { result ≡ has_number_form text.now }
{
    !text.is_empty() && are_digits(text) && !starts_with_zero(text)
}

/// The value of digits, where it is at most `most`.
#[tactic(auto, using(crate::proofs::DigitLemmas::out_of_range))]
pub fn value_within(digits: &[u8], most: u64) -> Option<u64>
    requires { most < 2 ^ 60 }
    ensures { MatchOption result (most < value_from 0 digits.now) (λ n. (n ≡ value_from 0 digits.now) × (n ≤ most)) }
{
    let mut n: u64 = 0;
    for digit in digits {
        n = n * 10 + u64::from(digit.saturating_sub(b'0'));
        if n > most {
            return None;
        }
    }
    Some(n)
}

/// The number that stands here without a leading zero, where it is one from 1 to `most`.
#[tactic(auto, using(crate::proofs::DigitLemmas::least))]
pub fn number_to(most: u64, text: &[u8]) -> Option<u64>
    requires { most < 2 ^ 60 }
    ensures number { result ≡ number_to most text.now }
    ensures range { IfSome result (λ n. (1 ≤ n) × (n ≤ most)) }
{
    if has_number_form(text) {
        value_within(text, most)
    } else {
        None
    }
}
