ghost use Rattle.std.specs.Prelude.{◌≡◌};

use stab_frames::ParamsFault;
use stab_script::ScriptFault;
use stab_tree::{NodeId, TreeFault};
use stab_treecore::OpeningFault;
use std::alloc::AllocError;
use thiserror::Error;

/// Why bytes are no job, in the order of the checks. [`Memory`](JobFault::Memory) alone reports
/// refused memory, and may come in place of a later check's fault.
#[derive(Clone, Copy, Debug, PartialEq, Eq, Error)]
pub enum JobFault {
    /// The bytes are no JSON.
    #[error("job: not JSON")]
    Json,
    /// The version is neither the whole number 1 nor the whole number 2.
    #[error("job: unknown version")]
    Version,
    /// Something has another shape; the content of the tree and the entries of the schedule are
    /// not looked at.
    #[error("job: wrong shape")]
    Shape,
    /// The job's own capacity and number of labels are no parameters of a link.
    #[error(transparent)]
    Params(ParamsFault),
    /// The value of the member `tree` is no tree.
    #[error(transparent)]
    Tree(TreeFault),
    /// There are more than 10,000 items.
    #[error("job: too many items")]
    TooManyItems,
    /// There are more than 1,000,000 entries in the schedule.
    #[error("job: too many events")]
    TooManyEvents,
    /// There is not one start for each link.
    #[error("job: wrong number of starts")]
    StartCount,
    /// There is not one script for each link.
    #[error("job: wrong number of scripts")]
    ScriptCount,
    /// An entry of the scripts makes no script; of several such entries the first is named.
    #[error(transparent)]
    Script(ScriptFault),
    /// The number of turns is 0 or over 1,000,000.
    #[error("job: turns out of range")]
    TurnsOutOfRange,
    /// An entry of the schedule is no act on a link.
    #[error("job: bad event")]
    Event,
    /// An entry of the schedule names a node that the tree does not have.
    #[error("job: unknown node")]
    UnknownNode,
    /// There is not one entry of the links for each link.
    #[error("job: wrong number of links")]
    LinkCount,
    /// The numbers of a link's own entry are no parameters of a link; of several such links the
    /// first is named, by its child.
    #[error("{1}")]
    LinkParams(NodeId, ParamsFault),
    /// The openings are none of this tree.
    #[error(transparent)]
    Opening(OpeningFault),
    /// Memory was refused.
    #[error("out of memory")]
    Memory,
}

impl From<AllocError> for JobFault {
    ghost use Rattle.std.specs.Prelude.{◌≡◌};
    ghost use Rattle.stab_job.specs.declared.fault.JobFault.TheVariants.{Memory};

    ghost from_gives = { λ _ fault. fault ≡ Memory };

    fn from(_refused: AllocError) -> JobFault {
        JobFault::Memory
    }
}

impl From<ParamsFault> for JobFault {
    ghost use Rattle.std.specs.Prelude.{◌≡◌};
    ghost use Rattle.stab_job.specs.declared.fault.JobFault.TheVariants.{Params};

    ghost from_gives = { λ refusal fault. fault ≡ Params refusal };

    fn from(refusal: ParamsFault) -> JobFault {
        JobFault::Params(refusal)
    }
}

impl From<TreeFault> for JobFault {
    ghost use Rattle.std.specs.Prelude.{◌≡◌};
    ghost use Rattle.stab_job.specs.Refusals.{tree_refused};

    ghost from_gives = { λ refusal fault. fault ≡ tree_refused refusal };

    fn from(refusal: TreeFault) -> JobFault {
        match refusal {
            TreeFault::Memory => JobFault::Memory,
            _ => JobFault::Tree(refusal),
        }
    }
}

impl From<ScriptFault> for JobFault {
    ghost use Rattle.std.specs.Prelude.{◌≡◌};
    ghost use Rattle.stab_job.specs.Refusals.{script_refused};

    ghost from_gives = { λ refusal fault. fault ≡ script_refused refusal };

    fn from(refusal: ScriptFault) -> JobFault {
        match refusal {
            ScriptFault::Memory => JobFault::Memory,
            _ => JobFault::Script(refusal),
        }
    }
}

impl From<OpeningFault> for JobFault {
    ghost use Rattle.std.specs.Prelude.{◌≡◌};
    ghost use Rattle.stab_job.specs.declared.fault.JobFault.TheVariants.{Opening};

    ghost from_gives = { λ refusal fault. fault ≡ Opening refusal };

    fn from(refusal: OpeningFault) -> JobFault {
        JobFault::Opening(refusal)
    }
}
