use crate::file::LoadFault;
use stab_core::StartFault;
use stab_run::{JobFault, RunFault};
use stab_script::{LinkJobFault, ScriptFault};
use stab_tree::TreeFault;
use stab_treecore::TreeStartFault;
use std::alloc::{AllocError, AllocFailed};
use thiserror::Error;

/// Why the program cannot do its task. It prints the prefix `stab: ` and then this fault's text.
#[derive(Clone, Copy, Debug, PartialEq, Eq, Error)]
pub enum CliFault {
    /// The command line names no task; a request for help is one of these.
    #[error("command line refused")]
    CommandLine,
    /// There is no such file, or it may not be opened.
    #[error("file: cannot be opened")]
    Open,
    /// Reading failed, or was interrupted too often.
    #[error("file: cannot be read")]
    Read,
    /// There are more than 16,777,216 bytes.
    #[error("file: too long")]
    TooLong,
    /// The bytes are no link job.
    #[error(transparent)]
    LinkJob(LinkJobFault),
    /// The bytes are no job.
    #[error(transparent)]
    Job(JobFault),
    /// The start of a link job is refused.
    #[error(transparent)]
    Start(StartFault),
    /// A start or an event of a job's schedule is refused.
    #[error(transparent)]
    Tree(TreeStartFault),
    /// The run of a job's workers is refused.
    #[error(transparent)]
    Run(RunFault),
    /// Writing failed; a part of the text may be written.
    #[error("output: cannot be written")]
    Write,
    /// Memory was refused.
    #[error("out of memory")]
    Memory,
}

impl CliFault {
    ghost use Rattle.std.specs.Prelude.{◌≡◌};
    ghost use Rattle.stab_task.specs.Statuses.{status_of};

    /// The status that the program ends with: 1 for a file or job that is refused, 2 for a command
    /// line that is refused, 3 for a start, a step, a run or a write that fails, and for memory
    /// that is refused anywhere.
    pub fn status(&self) -> u8
        ensures { result ≡ status_of self.now }
    {
        match self {
            CliFault::CommandLine => 2,
            CliFault::LinkJob(LinkJobFault::Memory)
            | CliFault::Job(
                JobFault::Memory
                | JobFault::Tree(TreeFault::Memory)
                | JobFault::Script(ScriptFault::Memory),
            )
            | CliFault::Start(_)
            | CliFault::Tree(_)
            | CliFault::Run(_)
            | CliFault::Write
            | CliFault::Memory => 3,
            CliFault::Open
            | CliFault::Read
            | CliFault::TooLong
            | CliFault::LinkJob(_)
            | CliFault::Job(_) => 1,
        }
    }
}

impl From<AllocError> for CliFault {
    ghost use Rattle.std.specs.Prelude.{◌≡◌};
    ghost use Rattle.stab_task.specs.declared.fault.CliFault.TheVariants.{Memory};

    ghost from_gives = { λ _ fault. fault ≡ Memory };

    fn from(_refused: AllocError) -> CliFault {
        CliFault::Memory
    }
}

impl<T: Drop> From<AllocFailed<T>> for CliFault {
    ghost use Rattle.std.specs.Prelude.{◌≡◌};
    ghost use Rattle.stab_task.specs.declared.fault.CliFault.TheVariants.{Memory};

    ghost from_gives = { λ _ fault. fault ≡ Memory };

    fn from(_refused: AllocFailed<T>) -> CliFault {
        CliFault::Memory
    }
}

impl From<LoadFault> for CliFault {
    ghost use Rattle.std.specs.Prelude.{◌≡◌};
    ghost use Rattle.stab_task.specs.Loading.{fault_of_load};

    ghost from_gives = { λ refusal fault. fault ≡ fault_of_load refusal };

    fn from(refusal: LoadFault) -> CliFault {
        match refusal {
            LoadFault::Read => CliFault::Read,
            LoadFault::TooLong => CliFault::TooLong,
            LoadFault::Memory => CliFault::Memory,
        }
    }
}

impl From<LinkJobFault> for CliFault {
    ghost use Rattle.std.specs.Prelude.{◌≡◌};
    ghost use Rattle.stab_task.specs.declared.fault.CliFault.TheVariants.{LinkJob};

    ghost from_gives = { λ refusal fault. fault ≡ LinkJob refusal };

    fn from(refusal: LinkJobFault) -> CliFault {
        CliFault::LinkJob(refusal)
    }
}

impl From<StartFault> for CliFault {
    ghost use Rattle.std.specs.Prelude.{◌≡◌};
    ghost use Rattle.stab_task.specs.declared.fault.CliFault.TheVariants.{Start};

    ghost from_gives = { λ refusal fault. fault ≡ Start refusal };

    fn from(refusal: StartFault) -> CliFault {
        CliFault::Start(refusal)
    }
}

impl From<JobFault> for CliFault {
    ghost use Rattle.std.specs.Prelude.{◌≡◌};
    ghost use Rattle.stab_task.specs.declared.fault.CliFault.TheVariants.{Job};

    ghost from_gives = { λ refusal fault. fault ≡ Job refusal };

    fn from(refusal: JobFault) -> CliFault {
        CliFault::Job(refusal)
    }
}

impl From<TreeStartFault> for CliFault {
    ghost use Rattle.std.specs.Prelude.{◌≡◌};
    ghost use Rattle.stab_task.specs.declared.fault.CliFault.TheVariants.{Tree};

    ghost from_gives = { λ refusal fault. fault ≡ Tree refusal };

    fn from(refusal: TreeStartFault) -> CliFault {
        CliFault::Tree(refusal)
    }
}

impl From<RunFault> for CliFault {
    ghost use Rattle.std.specs.Prelude.{◌≡◌};
    ghost use Rattle.stab_task.specs.declared.fault.CliFault.TheVariants.{Run};

    ghost from_gives = { λ refusal fault. fault ≡ Run refusal };

    fn from(refusal: RunFault) -> CliFault {
        CliFault::Run(refusal)
    }
}
