// The numbers of a row.
ghost use Rattle.std.specs.Prelude.{◌≡◌, ◌<◌, IfSome};
ghost use Rattle.ri_base.specs.declared.limits.TheConstants.{PRIOR_LIMIT};
ghost use Rattle.prior_lines.specs.Numbers.{is_number, number};

use line_parts::{are_digits, value_within};
use ri_base::limits::PRIOR_LIMIT;

/// The most digits of a number. One of so many is below the limit of a prior's numbers.
const MAX_DIGITS: usize = 18;

/// Whether these are 1 to 18 digits.
fn is_number(text: &[u8]) -> bool
    ensures { result ≡ is_number text.now }
{
    !text.is_empty() && text.len() <= MAX_DIGITS && are_digits(text)
}

/// The number that stands here, where it has 1 to 18 digits.
#[tactic(auto, using(crate::proofs::NumberLemmas::number_small))]
pub fn number(text: &[u8]) -> Option<u64>
    ensures value { result ≡ number text.now }
    ensures small { IfSome result (λ n. n < PRIOR_LIMIT) }
{
    if is_number(text) {
        value_within(text, PRIOR_LIMIT - 1)
    } else {
        None
    }
}
