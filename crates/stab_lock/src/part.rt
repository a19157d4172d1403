ghost use Rattle.std.specs.Prelude.{◌≡◌, ◌+◌, ◌<◌, ◌≤◌, length};
ghost use Rattle.stab_lock.specs.CodesInside.{part_of, value_at, numbers_of, run_at};
ghost use Rattle.stab_lock.specs.CodesInside.{small_count};

use crate::kind::Kind;
use crate::numbers::{WIDE, wide};
use crate::run::Run;
use stab_core::Event;

/// How many counts a code tells apart: 0, where the numbers have the count, and 1 to 11.
pub(crate) const COUNTS: u8 = 12;

/// What a code says of a run: the kind of its event, and its count where that is at most 11. What
/// it leaves out is in a list of numbers: the item or the place, where the event has one, and then
/// a larger count.
#[derive(Clone, Copy, Debug)]
pub(crate) struct Part {
    pub(crate) kind: Kind,
    /// The count, 0 where the numbers have it.
    pub(crate) count: u8,
}

impl Part {
    /// What a code says of this run.
    pub(crate) fn of(run: Run) -> Part
        ensures kind { result ≡ part_of run }
        ensures within { result.count < 12 }
    {
        Part {
            kind: Kind::of(run.event),
            count: small_count(run.count),
        }
    }

    /// How many numbers it takes.
    pub(crate) fn numbers(self) -> usize
        ensures numbers { result ≡ numbers_of self }
        ensures within { result ≤ 6 }
    {
        if self.count == 0 {
            self.kind.numbers() + 4
        } else {
            self.kind.numbers()
        }
    }

    /// The event that the run repeats, where its numbers begin at this place.
    pub(crate) fn event(self, numbers: &[u16], first: usize) -> Event
        requires { first + numbers_of self ≤ length numbers.now }
        ensures { result ≡ (run_at numbers.now first self).event }
    {
        self.kind.event(self.value(numbers, first))
    }

    /// Its item or its place, where it has one.
    fn value(self, numbers: &[u16], first: usize) -> u32
        requires { first + numbers_of self ≤ length numbers.now }
        ensures { result ≡ value_at numbers.now first self.kind }
    {
        match self.kind.numbers() {
            0 => 0,
            1 => u32::from(numbers[first]),
            _ => wide(numbers, first),
        }
    }

    /// How often the run repeats it.
    pub(crate) fn events(self, numbers: &[u16], first: usize) -> u64
        requires { first + numbers_of self ≤ length numbers.now }
        ensures { result ≡ (run_at numbers.now first self).count }
    {
        if self.count > 0 {
            return u64::from(self.count);
        }
        let low = first + self.kind.numbers();
        u64::from(wide(numbers, low)) + u64::from(wide(numbers, low + 2)) * WIDE
    }
}

/// The count as a code has it: 0 where it is larger than that.
fn small_count(count: u64) -> u8
    ensures within { result < 12 }
    ensures count { result ≡ small_count count }
{
    if count / u64::from(COUNTS) == 0 {
        count as u8
    } else {
        0
    }
}
