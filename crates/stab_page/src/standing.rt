//! Where a link stands between the bounds of its law.

ghost use Rattle.std.specs.Prelude.{◌≡◌};
ghost use Rattle.stab_page.specs.Standing.{is_stray, strays_in, comes_from, was_delivered};
ghost use Rattle.stab_page.specs.Standing.{missing_of};

use crate::entry::OriginEntry;
use stab_core::Origin;

/// How many strays there are among these origins.
pub fn strays_in(origins: &[OriginEntry]) -> u64
    ensures { result ≡ strays_in origins.now }
{
    let mut count = 0;
    for entry in origins {
        if is_stray(*entry) {
            count += 1;
        }
    }
    count
}

/// How many of the first `acked` offered items are not among these origins.
pub fn missing_of(acked: usize, origins: &[OriginEntry]) -> u64
    ensures { result ≡ missing_of acked origins.now }
{
    let mut count = 0;
    for place in 0..acked {
        if !was_delivered(place as u64, origins) {
            count += 1;
        }
    }
    count
}

/// Whether this is a stray.
fn is_stray(entry: OriginEntry) -> bool
    ensures { result ≡ is_stray entry }
{
    matches!(entry.origin, Origin::Stray(_))
}

/// Whether the offered item at this place is among these origins.
fn was_delivered(place: u64, origins: &[OriginEntry]) -> bool
    ensures { result ≡ was_delivered place origins.now }
{
    for entry in origins {
        if comes_from(place, *entry) {
            return true;
        }
    }
    false
}

/// Whether this is the offered item at this place.
fn comes_from(place: u64, entry: OriginEntry) -> bool
    ensures { result ≡ comes_from place entry }
{
    match entry.origin {
        Origin::Stray(_) => false,
        Origin::Sent(sent) => sent == place,
    }
}
