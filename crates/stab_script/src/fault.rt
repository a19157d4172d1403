use stab_acts::ScriptFault;
use std::alloc::AllocError;
use thiserror::Error;

/// Why a part of a job cannot be read, in the order of the checks.
#[derive(Clone, Copy, Debug, PartialEq, Eq, Hash, Error)]
pub enum PartFault {
    /// The value has another shape.
    #[error("job: wrong shape")]
    Shape,
    /// The acts are no script: too long, or a rate out of range.
    #[error("{0}")]
    Script(ScriptFault),
    /// Memory was refused.
    #[error("out of memory")]
    Memory,
}

impl From<AllocError> for PartFault {
    ghost use Rattle.std.specs.Prelude.{◌≡◌};
    ghost use Rattle.stab_script.specs.declared.fault.PartFault.TheVariants.{Memory};

    ghost from_gives = { λ _ fault. fault ≡ Memory };

    fn from(_refused: AllocError) -> PartFault {
        PartFault::Memory
    }
}
