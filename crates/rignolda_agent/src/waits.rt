ghost use Rattle.std.specs.Prelude.{◌≡◌, ℕ, if◌then◌else◌, Option, Some, None};
ghost use Rattle.rignolda_agent.specs.Waiting.{left_out, merged, waits_with};
ghost use Rattle.rignolda_agent.specs.Waiting.{older};

use crate::numbers::is_newer;

/// The older one of two numbers; 0, no number, is older than all.
fn older(one: u64, other: u64) -> u64
    ensures { result ≡ older one other }
{
    if one == 0 || is_newer(one, other) {
        one
    } else {
        other
    }
}

/// What waits beside a key to be applied. Its value is kept by the caller.
#[repr(C)]
#[derive(Clone, Copy)]
pub struct Waits {
    /// The number of the first change that waits for this one, and its own.
    pub first: u64,
    pub last: u64,
    /// Not 0 where something waits.
    pub is_there: u8,
}

impl Waits {
    /// A change of the key comes: whether its value takes the place of the one that waits.
    pub fn on_change(&mut self, first: u64, last: u64) -> bool
        ensures { (before came : Option ℕ)
            → waits_with self.new (if result then came else before)
            ≡ Some (merged (waits_with self.old before)
            (record { value = came; first = first; last = last })) }
    {
        self.first = if self.is_there == 0 {
            first
        } else {
            older(first, self.first)
        };
        self.last = last;
        self.is_there = 1;
        true
    }

    /// A whole table leaves the key out: whether it is to be unset, since nothing waits beside it.
    pub fn on_left_out(&mut self, first: u64, last: u64) -> bool
        ensures { (before : Option ℕ)
            → waits_with self.new (if result then None else before)
            ≡ Some (left_out (waits_with self.old before) first last) }
    {
        self.is_there == 0 && self.on_change(first, last)
    }
}
