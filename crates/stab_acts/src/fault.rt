ghost use Rattle.stab_acts.specs.declared.fault.ScriptFault.TheVariants.{Memory};

use std::alloc::AllocError;
use thiserror::Error;

/// Why acts are no script, in the order of the checks.
#[derive(Clone, Copy, Debug, PartialEq, Eq, Hash, Error)]
pub enum ScriptFault {
    /// A list has more than 100,000 acts.
    #[error("job: script too long")]
    TooLong,
    /// A rate is over 1000 in a thousand.
    #[error("job: rate out of range")]
    RateOutOfRange,
    /// Memory was refused.
    #[error("out of memory")]
    Memory,
}

impl From<AllocError> for ScriptFault {
    ghost use Rattle.std.specs.Prelude.{◌≡◌};

    ghost from_gives = { λ _ fault. fault ≡ Memory };

    fn from(_refused: AllocError) -> ScriptFault {
        ScriptFault::Memory
    }
}
