ghost use Rattle.std.specs.Prelude.{◌≡◌, List};
ghost use Rattle.std.specs.Int.{w32, w64};
ghost use Rattle.rignolda_agent.specs.Reading.{byte_at, number_at, text_at};
ghost use Rattle.rignolda_agent.specs.Seen.{Reads};

use crate::fault::Fault;

/// The byte in front, and those after it.
pub(crate) fn byte_at(bytes: &[u8]) -> Result<(u8, &[u8]), Fault>
    ensures { Reads (λ x. (x.0, x.1.now)) result (byte_at bytes.now) }
{
    match bytes {
        [] => Err(Fault::Short),
        [byte, rest @ ..] => Ok((*byte, rest)),
    }
}

/// The number of four bytes in front.
pub(crate) fn u32_at(bytes: &[u8]) -> Result<(u32, &[u8]), Fault>
    ensures { Reads (λ x. (x.0, x.1.now)) result (number_at w32 bytes.now) }
{
    if bytes.len() < 4 {
        return Err(Fault::Short);
    }
    let (front, rest) = bytes.split_at(4);
    let number = u32::from_be_bytes([front[0], front[1], front[2], front[3]]);
    Ok((number, rest))
}

/// The number of eight bytes in front.
pub(crate) fn u64_at(bytes: &[u8]) -> Result<(u64, &[u8]), Fault>
    ensures { Reads (λ x. (x.0, x.1.now)) result (number_at w64 bytes.now) }
{
    if bytes.len() < 8 {
        return Err(Fault::Short);
    }
    let (front, rest) = bytes.split_at(8);
    let number = u64::from_be_bytes([
        front[0], front[1], front[2], front[3], front[4], front[5], front[6], front[7],
    ]);
    Ok((number, rest))
}

/// So many bytes in front.
pub(crate) fn text_at(len: usize, bytes: &[u8]) -> Result<(&[u8], &[u8]), Fault>
    ensures { Reads (λ x. (x.0.now, x.1.now)) result (text_at len bytes.now) }
{
    if bytes.len() < len {
        return Err(Fault::Short);
    }
    Ok(bytes.split_at(len))
}
