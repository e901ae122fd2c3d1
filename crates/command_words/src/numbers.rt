// Numbers of the command line.
ghost use Rattle.std.specs.Prelude.{◌≡◌, ◌≤◌, IfSome, option_map};
ghost use Rattle.line_parts.specs.Digits.{number_to};
ghost use Rattle.command_words.specs.Numbers.{number_or};

/// The number of a text, where it is one from 1 to `most` without a leading zero.
#[tactic(auto, using(line_parts::proofs::DigitLemmas::number_in))]
pub fn number_to(most: u32, text: &str) -> Option<u32>
    ensures number { result ≡ number_to most text.now }
    ensures range { IfSome result (λ n. (1 ≤ n) × (n ≤ most)) }
{
    let number = line_parts::number_to(u64::from(most), text.as_bytes())?;
    Some(number as u32)
}

/// The number of an option, which is `default` where the option is left out.
pub fn number_or(default: u32, most: u32, text: Option<&str>) -> Option<u32>
    requires least { 1 ≤ default }
    requires greatest { default ≤ most }
    ensures number { result ≡ number_or default most (option_map (λ s. s.now) text.entry) }
    ensures range { IfSome result (λ n. (1 ≤ n) × (n ≤ most)) }
{
    match text {
        Some(text) => number_to(most, text),
        None => Some(default),
    }
}
