use stab_core::StartFault;
use std::alloc::AllocError;
use thiserror::Error;

/// Why an event of a schedule is refused, in the order of the checks.
#[derive(Clone, Copy, Debug, PartialEq, Eq, Error)]
pub enum TreeStepFault {
    /// The event names the root or no node.
    #[error("step: no such link")]
    NoSuchLink,
    /// Memory was refused.
    #[error("out of memory")]
    Memory,
}

/// Why a fault cannot strike a link of a tree, in the order of the checks.
#[derive(Clone, Copy, Debug, PartialEq, Eq, Error)]
pub enum StrikeFault {
    /// The fault names the root or no node.
    #[error("strike: no such link")]
    NoSuchLink,
    /// What is to be in the link does not fit it; it is never memory.
    #[error("{0}")]
    Start(StartFault),
}

/// Why a node of a tree cannot restart, in the order of the checks.
#[derive(Clone, Copy, Debug, PartialEq, Eq, Error)]
pub enum RestartFault {
    /// There is no such node.
    #[error("restart: no such node")]
    NoSuchNode,
    /// Memory was refused.
    #[error("out of memory")]
    Memory,
}

/// Why a whole tree cannot begin, or cannot be run to the end of a schedule, in the order of the
/// checks.
#[derive(Clone, Copy, Debug, PartialEq, Eq, Error)]
pub enum TreeStartFault {
    /// There is not one start for each link.
    #[error("start: wrong number of starts")]
    StartCount,
    /// No link can begin from this start, the first such one in file order; or memory was refused,
    /// where a link can begin from each start.
    #[error("{0}")]
    Start(StartFault),
    /// An event of the schedule was refused.
    #[error("{0}")]
    Step(TreeStepFault),
}

impl From<StartFault> for StrikeFault {
    ghost use Rattle.std.specs.Prelude.{◌≡◌};
    ghost use Rattle.stab_treecore.specs.declared.fault.StrikeFault.TheVariants.{Start};

    ghost from_gives = { λ refused fault. fault ≡ Start refused };

    fn from(fault: StartFault) -> StrikeFault {
        StrikeFault::Start(fault)
    }
}

impl From<AllocError> for RestartFault {
    ghost use Rattle.std.specs.Prelude.{◌≡◌};
    ghost use Rattle.stab_treecore.specs.declared.fault.RestartFault.TheVariants.{Memory};

    ghost from_gives = { λ _ fault. fault ≡ Memory };

    fn from(_error: AllocError) -> RestartFault {
        RestartFault::Memory
    }
}

impl From<AllocError> for TreeStepFault {
    ghost use Rattle.std.specs.Prelude.{◌≡◌};
    ghost use Rattle.stab_treecore.specs.declared.fault.TreeStepFault.TheVariants.{Memory};

    ghost from_gives = { λ _ fault. fault ≡ Memory };

    fn from(_error: AllocError) -> TreeStepFault {
        TreeStepFault::Memory
    }
}

impl From<AllocError> for TreeStartFault {
    ghost use Rattle.std.specs.Prelude.{◌≡◌};
    ghost use Rattle.stab_core.specs.declared.start.StartFault.TheVariants.{Memory};
    ghost use Rattle.stab_treecore.specs.declared.fault.TreeStartFault.TheVariants.{Start};

    ghost from_gives = { λ _ fault. fault ≡ Start Memory };

    fn from(_error: AllocError) -> TreeStartFault {
        TreeStartFault::Start(StartFault::Memory)
    }
}

impl From<StartFault> for TreeStartFault {
    ghost use Rattle.std.specs.Prelude.{◌≡◌};
    ghost use Rattle.stab_treecore.specs.declared.fault.TreeStartFault.TheVariants.{Start};

    ghost from_gives = { λ refused fault. fault ≡ Start refused };

    fn from(fault: StartFault) -> TreeStartFault {
        TreeStartFault::Start(fault)
    }
}

impl From<TreeStepFault> for TreeStartFault {
    ghost use Rattle.std.specs.Prelude.{◌≡◌};
    ghost use Rattle.stab_treecore.specs.declared.fault.TreeStartFault.TheVariants.{Step};

    ghost from_gives = { λ refused fault. fault ≡ Step refused };

    fn from(fault: TreeStepFault) -> TreeStartFault {
        TreeStartFault::Step(fault)
    }
}
