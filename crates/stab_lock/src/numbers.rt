//! The numbers that codes leave out. Each has 16 bits, in which all places and most items fit.

ghost use Rattle.std.specs.Prelude.{◌≡◌, ◌+◌, ◌≤◌, ◌++◌, length, vec_len, vec_capacity};
ghost use Rattle.stab_lock.specs.CodesInside.{event_left, event_of, count_left, kind_of};
ghost use Rattle.stab_lock.specs.CodesInside.{value_at, wide_at, wide_left};

use crate::part::COUNTS;
use stab_core::Event;

/// How many values a number has: an item below this takes one, and another takes two.
pub(crate) const NARROW: u32 = 65_536;

/// How many values two numbers have.
pub(crate) const WIDE: u64 = 4_294_967_296;

/// The `u32` of two numbers, the lower half first.
pub(crate) fn wide(numbers: &[u16], first: usize) -> u32
    requires { first + 2 ≤ length numbers.now }
    ensures { result ≡ wide_at numbers.now first }
{
    u32::from(numbers[first]) + u32::from(numbers[first + 1]) * NARROW
}

/// Adds a `u32` as two numbers, the lower half first.
fn add_wide(numbers: &mut Vec<u16>, value: u32)
    requires { vec_len numbers.old + 2 ≤ vec_capacity numbers.old }
    ensures items { numbers.new.items ≡ numbers.old.items ++ wide_left value }
    ensures len { vec_len numbers.new ≡ vec_len numbers.old + 2 }
    ensures capacity { vec_capacity numbers.new ≡ vec_capacity numbers.old }
{
    numbers.push_reserved((value % NARROW) as u16);
    numbers.push_reserved((value / NARROW) as u16);
}

/// Adds the item or the place of an event, where it has one.
pub(crate) fn add_event(numbers: &mut Vec<u16>, event: Event)
    requires { vec_len numbers.old + 2 ≤ vec_capacity numbers.old }
    ensures items { numbers.new.items ≡ numbers.old.items ++ event_left event }
    ensures found { event_of (kind_of event)
        (value_at numbers.new.items (length numbers.old.items) (kind_of event)) ≡ event }
    ensures len { vec_len numbers.new ≤ vec_len numbers.old + 2 }
    ensures capacity { vec_capacity numbers.new ≡ vec_capacity numbers.old }
{
    match event {
        Event::Offer(item) if item < NARROW => numbers.push_reserved(item as u16),
        Event::Offer(item) => add_wide(numbers, item),
        Event::LoseFrame(place) | Event::LoseAck(place) => numbers.push_reserved(place),
        _ => {}
    }
}

/// Adds a count, where its code leaves it out: its lower half and its upper half.
pub(crate) fn add_count(numbers: &mut Vec<u16>, count: u64)
    requires { vec_len numbers.old + 4 ≤ vec_capacity numbers.old }
    ensures items { numbers.new.items ≡ numbers.old.items ++ count_left count }
    ensures len { vec_len numbers.new ≤ vec_len numbers.old + 4 }
    ensures capacity { vec_capacity numbers.new ≡ vec_capacity numbers.old }
{
    if count / u64::from(COUNTS) > 0 {
        add_wide(numbers, (count % WIDE) as u32);
        add_wide(numbers, (count / WIDE) as u32);
    }
}
