use stab_core::StartFault;
use std::alloc::AllocError;
use thiserror::Error;

/// Why a link of two words cannot begin, in the order of the checks.
#[derive(Clone, Copy, Debug, PartialEq, Eq, Hash, Error)]
pub enum WordFault {
    /// The capacity is not one.
    #[error("run: capacity is not one")]
    CapacityNotOne,
    /// The start has too many frames or too many acknowledgements.
    #[error("{0}")]
    Start(StartFault),
    /// Memory was refused.
    #[error("out of memory")]
    Memory,
}

impl From<AllocError> for WordFault {
    ghost use Rattle.std.specs.Prelude.{◌≡◌};
    ghost use Rattle.stab_word.specs.declared.fault.WordFault.TheVariants.{Memory};

    ghost from_gives = { λ _ fault. fault ≡ Memory };

    fn from(_refused: AllocError) -> WordFault {
        WordFault::Memory
    }
}
