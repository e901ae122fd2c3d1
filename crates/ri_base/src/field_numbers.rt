// Numbers, the least byte first.
ghost use Rattle.std.specs.Int.{w16, w32, w64};
ghost use Rattle.ri_base.specs.FieldAnswers.{Gives};
ghost use Rattle.ri_base.specs.Fields.{number};

use crate::broken::Broken;

pub fn u16_at(bytes: &[u8]) -> Result<(u16, &[u8]), Broken>
    ensures { Gives (λ x. (x.0, x.1.now)) result (number w16 bytes.now) }
{
    if bytes.len() < 2 {
        return Err(Broken::At(bytes.len()));
    }
    let (front, rest) = bytes.split_at(2);
    let number = u16::from_le_bytes([front[0], front[1]]);
    Ok((number, rest))
}

pub fn u32_at(bytes: &[u8]) -> Result<(u32, &[u8]), Broken>
    ensures { Gives (λ x. (x.0, x.1.now)) result (number w32 bytes.now) }
{
    if bytes.len() < 4 {
        return Err(Broken::At(bytes.len()));
    }
    let (front, rest) = bytes.split_at(4);
    let number = u32::from_le_bytes([front[0], front[1], front[2], front[3]]);
    Ok((number, rest))
}

pub fn u64_at(bytes: &[u8]) -> Result<(u64, &[u8]), Broken>
    ensures { Gives (λ x. (x.0, x.1.now)) result (number w64 bytes.now) }
{
    if bytes.len() < 8 {
        return Err(Broken::At(bytes.len()));
    }
    let (front, rest) = bytes.split_at(8);
    let number = u64::from_le_bytes([
        front[0], front[1], front[2], front[3], front[4], front[5], front[6], front[7],
    ]);
    Ok((number, rest))
}
