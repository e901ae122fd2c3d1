// Bytes at the front of others, and rules of fields.
ghost use Rattle.std.specs.Prelude.{◌≡◌, ℕ, Result, Ok, length};
ghost use Rattle.std.specs.Bool.{nat_eq};
ghost use Rattle.std.specs.Cmp.Lexicographic.{pointwise};
ghost use Rattle.ri_base.specs.FieldAnswers.{Gives};
ghost use Rattle.ri_base.specs.Fields.{byte, front, ruled_front};
ghost use Rattle.ri_base.specs.Reading.{kept};

use crate::broken::Broken;

/// The value where its rule holds; else the bytes, which begin with its field, are broken there.
pub fn kept<'a, T: Copy>(
    rule: bool,
    value: T,
    rest: &'a [u8],
    bytes: &[u8],
) -> Result<(T, &'a [u8]), Broken>
    ensures { Gives (λ x. (x.0, x.1.now)) result (kept rule (value, rest.now) bytes.now) }
{
    if rule {
        Ok((value, rest))
    } else {
        Err(Broken::At(bytes.len()))
    }
}

pub fn byte_at(bytes: &[u8]) -> Result<(u8, &[u8]), Broken>
    ensures { Gives (λ x. (x.0, x.1.now)) result (byte bytes.now) }
{
    match bytes {
        [] => Err(Broken::At(0)),
        [first, rest @ ..] => Ok((*first, rest)),
    }
}

/// The first bytes, so many.
pub fn front_at(count: usize, bytes: &[u8]) -> Result<(&[u8], &[u8]), Broken>
    ensures { Gives (λ x. (x.0.now, x.1.now)) result (front count bytes.now) }
{
    if bytes.len() < count {
        return Err(Broken::At(bytes.len()));
    }
    Ok(bytes.split_at(count))
}

/// The eight bytes at the front, which are to be these.
#[tactic(auto, unfolding(crate::specs::Fields::ruled_front))]
pub fn magic_at<'a>(magic: &[u8], bytes: &'a [u8]) -> Result<(&'a [u8], &'a [u8]), Broken>
    ensures { Gives (λ x. (x.0.now, x.1.now)) result (ruled_front 8 (λ x. pointwise nat_eq x magic.now) bytes.now) }
{
    let (front, rest) = front_at(8, bytes)?;
    if front == magic {
        Ok((front, rest))
    } else {
        Err(Broken::At(bytes.len()))
    }
}
