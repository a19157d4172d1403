ghost use Rattle.std.specs.Prelude.{◌≡◌};
ghost use Rattle.rignolda_agent.specs.Rooms.{changed, fits};

use rignolda_agent::Room;

/// A setting is set or unset: its entry had so many bytes, and has so many now. One that is not
/// there has none.
#[unsafe(no_mangle)]
pub extern "C" fn rignolda_room_change(room: &mut Room, had: u64, has: u64)
    ensures { room.new ≡ changed room.old had has }
{
    room.change(had, has);
}

/// Whether all these settings are one whole table.
#[unsafe(no_mangle)]
pub extern "C" fn rignolda_room_fits(room: &Room) -> bool
    ensures { result ≡ fits room.now }
{
    room.fits()
}
