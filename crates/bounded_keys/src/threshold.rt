// Which numbers are beaten.
ghost use Rattle.std.specs.Prelude.{◌≡◌, ◌*◌, ◌-◌, ◌/◌, ◌^◌};
ghost use Rattle.bounded_keys.specs.Kept.{beats, slack};

use log_chain::{FIRST, LAST};

/// By how many levels the digits of a key go on behind those of its leading number.
const FURTHER: u32 = LAST - FIRST;

/// Which numbers are beaten: none, since fewer are held than may be; those that are greater than one by more than a slack; or all, since
/// none may be held.
#[derive(Clone, Copy)]
pub enum Threshold {
    Nothing,
    Above { number: u128, slack: u128 },
    Everything,
}

/// How far the upper bound of a key goes beyond its leading number, in such numbers, under this scale.
fn slack_of(scale: u64) -> u128
    ensures { result ≡ slack scale }
{
    let scale = u128::from(scale);
    ((scale << FURTHER) - scale) >> FURTHER
}

impl Threshold {
    /// The numbers whose lower bound is above the upper bound of this one.
    pub fn behind(number: u128, scale: u64) -> Threshold
        ensures { result ≡ Threshold.Above number (slack scale) }
    {
        Threshold::Above {
            number,
            slack: slack_of(scale),
        }
    }

    /// Whether it beats a number.
    pub fn beats(self, number: u128) -> bool
        ensures { result ≡ beats self number }
    {
        match self {
            Threshold::Nothing => false,
            Threshold::Above {
                number: greatest,
                slack,
            } => number.saturating_sub(greatest) > slack,
            Threshold::Everything => true,
        }
    }
}
