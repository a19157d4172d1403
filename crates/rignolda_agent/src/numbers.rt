//! Numbers of bodies. They go round: see [`is_newer`].

ghost use Rattle.std.specs.Prelude.{◌≡◌, List};
ghost use Rattle.rignolda_agent.specs.Numbers.{ahead as ahead_of, further as further_of};
ghost use Rattle.rignolda_agent.specs.Numbers.{is_newer as newer, lead as lead_of};
ghost use Rattle.rignolda_agent.specs.Numbers.{next as after_number, quarter_on};
ghost use Rattle.rignolda_agent.specs.Numbers.{towards as towards_of};

/// Half of all numbers.
const HALF: u64 = 1 << 63;
/// Half of that again.
const QUARTER: u64 = 1 << 62;

/// How far the second number is ahead of the first.
fn ahead(from: u64, number: u64) -> u64
    ensures { result ≡ ahead_of from number }
{
    number.wrapping_sub(from)
}

/// Whether the second number is newer than the first: it is ahead of it by less than half of all
/// numbers, or the first is 0, which is no number.
pub fn is_newer(than: u64, number: u64) -> bool
    ensures { result ≡ newer than number }
{
    let by = ahead(than, number);
    number != 0 && (than == 0 || 0 < by && by < HALF)
}

/// The number after this one. It is not 0.
pub fn next(number: u64) -> u64
    ensures { result ≡ after_number number }
{
    if number == u64::MAX { 1 } else { number + 1 }
}

/// The number that is a quarter of all ahead of this one, or one more past 0, which is none.
fn quarter_on(number: u64) -> u64
    ensures { result ≡ quarter_on number }
{
    match number.checked_add(QUARTER) {
        Some(further) => further,
        None => number.wrapping_add(QUARTER + 1),
    }
}

/// Towards the second number, which is ahead of the first, but by a quarter of all at most.
pub fn towards(from: u64, number: u64) -> u64
    ensures { result ≡ towards_of from number }
{
    if ahead(from, number) <= QUARTER {
        number
    } else {
        quarter_on(from)
    }
}

fn lead(from: u64, number: u64) -> u64
    ensures { result ≡ lead_of from number }
{
    if is_newer(from, number) {
        ahead(from, number)
    } else {
        0
    }
}

/// Of two numbers the one that is further ahead of the first; where neither is, the second.
pub fn further(from: u64, number: u64, other: u64) -> u64
    ensures { result ≡ further_of from number other }
{
    if lead(from, number) < lead(from, other) {
        other
    } else {
        number
    }
}
