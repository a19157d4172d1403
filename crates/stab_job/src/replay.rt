//! The whole tree of a job: at the starts of its links, and after the schedule.

ghost use Rattle.std.specs.Prelude.{◌≡◌, All, IfErr, IfOk, OnOk};
ghost use Rattle.stab_job.specs.JobValues.{IsJob, network};
ghost use Rattle.stab_job.specs.Replays.{IsReplayReason};
ghost use Rattle.stab_treecore.specs.Network.{IsNetwork};
ghost use Rattle.stab_treecore.specs.Refusals.{IsScheduleReason, IsStartReason, NamesLink};
ghost use Rattle.stab_treecore.specs.TreeReplay.{initial_tree, tree_replay};

use crate::job::Job;
use stab_treecore::{TreeEvent, TreeStartFault, TreeState, run_schedule};
use std::alloc::Global;

impl Job {
    /// The whole tree with each link at its start. It is refused where a link cannot begin, and so
    /// is every schedule of the job then.
    #[tactic(auto, using(crate::proofs::ForCallers::reason_without_events))]
    pub fn initial_tree(&self, alloc: Global) -> Result<TreeState, TreeStartFault>
        ensures initial { IfOk result (λ state. state ≡ initial_tree (network self.now)) }
        ensures same_tree { IfOk result (λ state. state.parents ≡ self.now.tree.parents) }
        ensures job { IsJob self.now }
        ensures network { OnOk result (IsNetwork (network self.now)) }
        ensures refused { IfErr result
            (IsStartReason self.now.params self.now.tree.parents self.now.starts) }
    {
        let state = self.after(alloc, &[])?;
        Ok(state)
    }

    /// The whole tree after the schedule. Where it is refused, no state is handed out.
    pub fn replay(&self, alloc: Global) -> Result<TreeState, TreeStartFault>
        ensures replay { IfOk result (λ state.
            state ≡ tree_replay (initial_tree (network self.now)) self.now.schedule) }
        ensures same_tree { IfOk result (λ state. state.parents ≡ self.now.tree.parents) }
        ensures job { IsJob self.now }
        ensures network { OnOk result (IsNetwork (network self.now)) }
        ensures named { OnOk result (All (NamesLink self.now.tree.parents) self.now.schedule) }
        ensures refused { IfErr result (IsReplayReason self.now) }
    {
        self.after(alloc, self.schedule())
    }

    /// The whole tree after these events.
    fn after(&self, alloc: Global, events: &[TreeEvent]) -> Result<TreeState, TreeStartFault>
        ensures replay { IfOk result (λ state.
            state ≡ tree_replay (initial_tree (network self.now)) events.now) }
        ensures same_tree { IfOk result (λ state. state.parents ≡ self.now.tree.parents) }
        ensures job { IsJob self.now }
        ensures network { OnOk result (IsNetwork (network self.now)) }
        ensures named { OnOk result (All (NamesLink self.now.tree.parents) events.now) }
        ensures refused { IfErr result (IsScheduleReason self.now.params self.now.starts
            (network self.now) events.now) }
    {
        run_schedule(
            alloc,
            self.params(),
            self.tree(),
            self.items(),
            self.starts(),
            self.openings(),
            events,
        )
    }
}
