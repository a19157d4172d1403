ghost use Rattle.std.specs.Prelude.{◌≡◌};
ghost use Rattle.rignolda_agent.specs.Markers.{may_mark as may};

use crate::numbers::is_newer;

/// Whether a folder whose marker has this number, or 0 if it has none, may be marked with that one,
/// so that files are put as they are by it. Else they are from a later body.
pub fn may_mark(marker: u64, number: u64) -> bool
    ensures { result ≡ may marker number }
{
    !is_newer(number, marker)
}
