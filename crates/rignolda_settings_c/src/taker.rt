ghost use Rattle.std.specs.Prelude.{◌≡◌, None};
ghost use Rattle.rignolda_agent.specs.Numbers.{further as further_of, is_newer as newer};
ghost use Rattle.rignolda_agent.specs.Numbers.{next as after_number};
ghost use Rattle.rignolda_agent.specs.Structs.{taker_of};
ghost use Rattle.rignolda_agent.specs.Markers.{may_mark as may};
ghost use Rattle.rignolda_agent.specs.Takers.{Taker as TakerState, missing, restarted};
ghost use Rattle.rignolda_settings_c.specs.Calls.{kind_named};
ghost use Rattle.rignolda_settings_c.specs.Heard.{after_read, told};

use crate::bodies::kind_named;
use rignolda_agent::{Taker, further, is_newer, may_mark, next};

/// What is to be done about a body that came: 1 for yes and 0 for no, in each.
#[repr(C)]
#[derive(Clone, Copy)]
pub struct TakerHeard {
    /// It is taken: what it says waits. Else nothing changes.
    pub taken: u8,
    /// What waited before it is dropped.
    pub drops: u8,
    /// What waits is applied now.
    pub applied: u8,
    /// It is a table that makes up for what was left out before it.
    pub fills: u8,
    /// It is a table with which all files are looked at.
    pub looks: u8,
}

/// Makes what an agent remembers at the start of its process, whose files have this number, or 0
/// where that is not known.
#[unsafe(no_mangle)]
pub extern "C" fn rignolda_taker_init(taker: &mut Taker, floor: u64)
    ensures { (before : TakerState) → before.floor ≡ floor
        → taker_of taker.new ≡ restarted before }
{
    *taker = Taker::restarted(floor);
}

/// A body came that begins with this byte and has this number. What begins with another byte than
/// that of a kind changes nothing.
#[unsafe(no_mangle)]
pub extern "C" fn rignolda_taker_hears(
    taker: &mut Taker,
    kind: u8,
    number: u64,
    heard: &mut TakerHeard,
)
    ensures after { taker_of taker.new ≡ after_read (taker_of taker.old) (kind_named kind) number }
    ensures heard { heard.new ≡ told (taker_of taker.old) (kind_named kind) number }
    ensures refused { kind_named kind ≡ None → taker.new ≡ taker.old }
{
    *heard = TakerHeard {
        taken: 0,
        drops: 0,
        applied: 0,
        fills: 0,
        looks: 0,
    };
    if let Some(kind) = kind_named(kind) {
        let it = taker.hears(kind, number);
        *heard = TakerHeard {
            taken: u8::from(it.taken),
            drops: u8::from(it.drops),
            applied: u8::from(it.applied),
            fills: u8::from(it.fills),
            looks: u8::from(it.looks),
        };
    }
}

/// What it was told was left out, for want of room: a whole table makes up for it.
#[unsafe(no_mangle)]
pub extern "C" fn rignolda_taker_misses(taker: &mut Taker)
    ensures { taker_of taker.new ≡ missing (taker_of taker.old) }
{
    taker.misses();
}

/// Whether a folder whose marker has this number, or 0 if it has none, may be marked with that one,
/// before files are put in it. Else its files are from a later body.
#[unsafe(no_mangle)]
pub extern "C" fn rignolda_may_mark(marker: u64, number: u64) -> bool
    ensures { result ≡ may marker number }
{
    may_mark(marker, number)
}

/// Whether the second number is newer than the first.
#[unsafe(no_mangle)]
pub extern "C" fn rignolda_number_is_newer(than: u64, number: u64) -> bool
    ensures { result ≡ newer than number }
{
    is_newer(than, number)
}

/// The number after this one.
#[unsafe(no_mangle)]
pub extern "C" fn rignolda_number_next(number: u64) -> u64
    ensures { result ≡ after_number number }
{
    next(number)
}

/// Of two numbers the one that is further ahead of the first; where neither is, the second.
#[unsafe(no_mangle)]
pub extern "C" fn rignolda_number_further(from: u64, number: u64, other: u64) -> u64
    ensures { result ≡ further_of from number other }
{
    further(from, number, other)
}
