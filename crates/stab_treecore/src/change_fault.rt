use crate::fault::{RestartFault, StrikeFault, TreeStartFault, TreeStepFault};
use std::alloc::AllocError;
use thiserror::Error;

/// Why a tree cannot begin, or why a change cannot be made.
#[derive(Clone, Copy, Debug, PartialEq, Eq, Error)]
pub enum ChangeFault {
    /// The tree cannot begin.
    #[error("{0}")]
    Begin(TreeStartFault),
    /// An act was refused.
    #[error("{0}")]
    Act(TreeStepFault),
    /// A fault cannot strike a link.
    #[error("{0}")]
    Strike(StrikeFault),
    /// A node cannot restart.
    #[error("{0}")]
    Restart(RestartFault),
    /// Memory was refused to items that are published.
    #[error("out of memory")]
    Memory,
}

impl From<AllocError> for ChangeFault {
    ghost use Rattle.std.specs.Prelude.{◌≡◌};
    ghost use Rattle.stab_treecore.specs.declared.change_fault.ChangeFault.TheVariants.{Memory};

    ghost from_gives = { λ _ fault. fault ≡ Memory };

    fn from(_error: AllocError) -> ChangeFault {
        ChangeFault::Memory
    }
}

impl From<TreeStartFault> for ChangeFault {
    ghost use Rattle.std.specs.Prelude.{◌≡◌};
    ghost use Rattle.stab_treecore.specs.declared.change_fault.ChangeFault.TheVariants.{Begin};

    ghost from_gives = { λ refused fault. fault ≡ Begin refused };

    fn from(fault: TreeStartFault) -> ChangeFault {
        ChangeFault::Begin(fault)
    }
}

impl From<TreeStepFault> for ChangeFault {
    ghost use Rattle.std.specs.Prelude.{◌≡◌};
    ghost use Rattle.stab_treecore.specs.declared.change_fault.ChangeFault.TheVariants.{Act};

    ghost from_gives = { λ refused fault. fault ≡ Act refused };

    fn from(fault: TreeStepFault) -> ChangeFault {
        ChangeFault::Act(fault)
    }
}

impl From<StrikeFault> for ChangeFault {
    ghost use Rattle.std.specs.Prelude.{◌≡◌};
    ghost use Rattle.stab_treecore.specs.declared.change_fault.ChangeFault.TheVariants.{Strike};

    ghost from_gives = { λ refused fault. fault ≡ Strike refused };

    fn from(fault: StrikeFault) -> ChangeFault {
        ChangeFault::Strike(fault)
    }
}

impl From<RestartFault> for ChangeFault {
    ghost use Rattle.std.specs.Prelude.{◌≡◌};
    ghost use Rattle.stab_treecore.specs.declared.change_fault.ChangeFault.TheVariants.{Restart};

    ghost from_gives = { λ refused fault. fault ≡ Restart refused };

    fn from(fault: RestartFault) -> ChangeFault {
        ChangeFault::Restart(fault)
    }
}
