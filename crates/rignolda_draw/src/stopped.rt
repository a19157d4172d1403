//! Why a run is not drawn to its end.

ghost use Rattle.std.specs.Prelude.{◌≡◌};
ghost use Rattle.stab_job.specs.JobValues.{network};
ghost use Rattle.stab_job.specs.Replays.{IsReplayReason};
ghost use Rattle.stab_treecore.specs.Network.{IsNetwork};
ghost use Rattle.stab_treecore.specs.Refusals.{IsStepReason};
ghost use Rattle.stab_treecore.specs.TreeReplay.{initial_tree};

use stab_core::StartFault;
use stab_job::Job;
use stab_treecore::{TreeStartFault, TreeStepFault};

/// The fault of a job whose run stopped for this one: a step names no link, or memory was refused,
/// which is said of the start.
#[tactic(auto, using(crate::proofs::Going::no_such_link, crate::proofs::Going::out_of_memory))]
pub(crate) fn stopped(job: &Job, fault: TreeStepFault) -> TreeStartFault
    requires begins { IsNetwork (network job.now) }
    requires reached { fault ≡ TreeStepFault.NoSuchLink
        → IsStepReason (initial_tree (network job.now)) job.now.schedule TreeStepFault.NoSuchLink }
    ensures { IsReplayReason job.now result }
{
    let _its_job = job.tree();
    match fault {
        TreeStepFault::NoSuchLink => TreeStartFault::Step(TreeStepFault::NoSuchLink),
        TreeStepFault::Memory => TreeStartFault::Start(StartFault::Memory),
    }
}
