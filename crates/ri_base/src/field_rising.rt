// Numbers that rise.
ghost use Rattle.std.specs.Prelude.{◌+◌};
ghost use Rattle.ri_base.specs.FieldAnswers.{Gives};
ghost use Rattle.ri_base.specs.Fields.{number_between, rising_numbers};

use crate::broken::Broken;
use crate::field_bytes::kept;
use crate::field_numbers::u32_at;
use std::alloc::Global;

#[tactic(auto, unfolding(crate::specs::Fields::ruled))]
fn number_between_at(top: u32, low: u64, bytes: &[u8]) -> Result<(u32, &[u8]), Broken>
    ensures { Gives (λ x. (x.0, x.1.now)) result (number_between top low bytes.now) }
{
    let (number, rest) = u32_at(bytes)?;
    kept(
        low <= u64::from(number) && number < top,
        number,
        rest,
        bytes,
    )
}

/// So many numbers below `top`, each above the one before it.
pub fn rising_numbers_at(
    alloc: Global,
    top: u32,
    count: u32,
    bytes: &[u8],
) -> Result<(Vec<u32>, &[u8]), Broken>
    ensures { Gives (λ x. (x.0.items, x.1.now)) result (rising_numbers top count bytes.now) }
{
    let mut numbers = Vec::with_capacity(alloc, (count as usize).min(bytes.len() / 4))?;
    let mut low = 0u64;
    let mut rest = bytes;
    for _ in 0..count {
        let (number, after) = number_between_at(top, low, rest)?;
        numbers.push(number)?;
        low = u64::from(number) + 1;
        rest = after;
    }
    Ok((numbers, rest))
}
