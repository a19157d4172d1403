ghost use Rattle.std.specs.Prelude.{◌≡◌, ℕ, if◌then◌else◌, Option, Some, None};
ghost use Rattle.rignolda_agent.specs.Waiting.{left_out, merged, waits_with};

use rignolda_agent::Waits;

/// A change of a key comes: whether its value takes the place of the one that waits.
#[unsafe(no_mangle)]
pub extern "C" fn rignolda_waits_on_change(waits: &mut Waits, first: u64, last: u64) -> bool
    ensures { (before came : Option ℕ)
        → waits_with waits.new (if result then came else before)
        ≡ Some (merged (waits_with waits.old before)
        (record { value = came; first = first; last = last })) }
{
    waits.on_change(first, last)
}

/// A whole table leaves the key out: whether it is to be unset, since nothing waits beside it.
#[unsafe(no_mangle)]
pub extern "C" fn rignolda_waits_on_left_out(waits: &mut Waits, first: u64, last: u64) -> bool
    ensures { (before : Option ℕ)
        → waits_with waits.new (if result then None else before)
        ≡ Some (left_out (waits_with waits.old before) first last) }
{
    waits.on_left_out(first, last)
}
