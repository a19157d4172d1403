use stab_core::StartFault;
use stab_job::JobFault;
use stab_treecore::{ChangeFault, RestartFault, TreeStartFault, TreeStepFault};
use std::alloc::AllocError;
use thiserror::Error;

/// Why a value is no step, in the order of the checks.
#[derive(Clone, Copy, Debug, PartialEq, Eq, Error)]
pub enum StepFault {
    /// It has another shape.
    #[error("wrong shape")]
    Shape,
    /// It names a node that the tree does not have.
    #[error("unknown node")]
    UnknownNode,
    /// It names the link into the root, and there is none.
    #[error("no link into the root")]
    Root,
    /// A strike leaves more frames than the capacity of its link.
    #[error("too many frames")]
    TooManyFrames,
    /// A strike leaves more acknowledgements than the capacity of its link.
    #[error("too many acknowledgements")]
    TooManyAcks,
    /// Memory was refused.
    #[error("out of memory")]
    Memory,
}

/// Why bytes are no scenario, in the order of the checks, or why it cannot be run.
/// [`Memory`](ScenarioFault::Memory) alone reports refused memory, and may come in place of a later
/// check's fault.
#[derive(Clone, Copy, Debug, PartialEq, Eq, Error)]
pub enum ScenarioFault {
    /// They are no job of a tree.
    #[error(transparent)]
    Job(JobFault),
    /// There is no list of steps.
    #[error("scenario: no list of steps")]
    Steps,
    /// This step, counted from 1, is none of the tree.
    #[error("scenario: step {0}: {1}")]
    Step(u64, StepFault),
    /// The steps are more than 1,000,000 changes of the tree, each act of a round counted.
    #[error("scenario: too many events")]
    TooManyEvents,
    /// The tree cannot begin, or a change cannot be made.
    #[error("{0}")]
    Run(ChangeFault),
    /// Memory was refused.
    #[error("out of memory")]
    Memory,
}

impl From<AllocError> for StepFault {
    ghost use Rattle.std.specs.Prelude.{◌≡◌};
    ghost use Rattle.rignolda_scenario.specs.declared.fault.StepFault.TheVariants.{Memory};

    ghost from_gives = { λ _ fault. fault ≡ Memory };

    fn from(_refused: AllocError) -> StepFault {
        StepFault::Memory
    }
}

impl From<AllocError> for ScenarioFault {
    ghost use Rattle.std.specs.Prelude.{◌≡◌};
    ghost use Rattle.rignolda_scenario.specs.declared.fault.ScenarioFault.TheVariants.{Memory};

    ghost from_gives = { λ _ fault. fault ≡ Memory };

    fn from(_refused: AllocError) -> ScenarioFault {
        ScenarioFault::Memory
    }
}

impl From<JobFault> for ScenarioFault {
    ghost use Rattle.std.specs.Prelude.{◌≡◌};
    ghost use Rattle.rignolda_scenario.specs.Refusals.{job_refused};

    ghost from_gives = { λ refusal fault. fault ≡ job_refused refusal };

    fn from(refusal: JobFault) -> ScenarioFault {
        match refusal {
            JobFault::Memory => ScenarioFault::Memory,
            _ => ScenarioFault::Job(refusal),
        }
    }
}

impl From<ChangeFault> for ScenarioFault {
    ghost use Rattle.std.specs.Prelude.{◌≡◌};
    ghost use Rattle.rignolda_scenario.specs.Refusals.{change_refused};

    ghost from_gives = { λ refusal fault. fault ≡ change_refused refusal };

    fn from(refusal: ChangeFault) -> ScenarioFault {
        match refusal {
            ChangeFault::Memory
            | ChangeFault::Act(TreeStepFault::Memory)
            | ChangeFault::Restart(RestartFault::Memory)
            | ChangeFault::Begin(TreeStartFault::Start(StartFault::Memory)) => {
                ScenarioFault::Memory
            }
            _ => ScenarioFault::Run(refusal),
        }
    }
}
