ghost use Rattle.std.specs.Prelude.{◌≡◌};
ghost use Rattle.rignolda_wire.specs.Seen.{greeted};
ghost use Rattle.rignolda_wire.specs.Versions.{range_of, versions_of};

use crate::said::Greeting;

/// What says in the place of a label which versions an end speaks, from its oldest to its newest.
pub fn range(oldest: u8, newest: u8) -> u16
    ensures { result ≡ range_of oldest newest }
{
    u16::from(oldest) * 256 + u16::from(newest)
}

/// The oldest and the newest version that an end speaks which says this in a look, or as the parent
/// that begins. Else it says one alone.
pub fn versions(greeting: &Greeting<'_>) -> (u8, u8)
    ensures { (result.0, result.1) ≡ versions_of (greeted greeting.now) }
{
    let (oldest, newest) = ((greeting.label / 256) as u8, (greeting.label % 256) as u8);
    if oldest >= 1 && oldest <= newest && greeting.version >= 2 {
        (oldest, newest)
    } else {
        (greeting.version, greeting.version)
    }
}
