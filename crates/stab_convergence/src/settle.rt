ghost use Rattle.std.specs.Prelude.{◌≡◌, ◌<◌, ◌≤◌, ◌⊎◌, ℕ, List, ◌++◌, IfOk, IfErr, length};
ghost use Rattle.stab_convergence.specs.Converged.{HasConverged};
ghost use Rattle.stab_convergence.specs.PathRounds.{rounds_since};
ghost use Rattle.stab_treecore.specs.Changes.{changes_replay};
ghost use Rattle.stab_treecore.specs.Hits.{Spare};
ghost use Rattle.stab_treecore.specs.ChangeRefusals.{IsChangeReason};
ghost use Rattle.stab_treecore.specs.Since.{capacity_at, moment};
ghost use Rattle.stab_rounds.specs.TreePlayed.{play_reads};
ghost use Rattle.stab_rounds.specs.TreeRounds.{IsOpen};
ghost use Rattle.stab_tree.specs.NodeOpenings.{FitTree};
ghost use Rattle.stab_treecore.specs.Network.{network_of};
ghost use Rattle.stab_treecore.specs.TreeReplay.{initial_tree, tree_replay};

use crate::laws;
use stab_core::Start;
use stab_frames::{Item, Params};
use stab_tree::{Openings, Tree};
use stab_treecore::{Change, ChangeFault, TreeState, TreeStepFault};
use std::alloc::Global;

/// The whole tree after these changes, and then after `rounds` reading rounds of every link, each
/// of which takes `capacity` messages before it sends. Where the rounds are enough, no link has a
/// larger capacity and no link was closed, every node has come back: counted from any moment after
/// which no fault hits it, it has all that was published since, but for some of the first items.
pub fn run_and_settle(
    alloc: Global,
    params: &[Params],
    tree: &Tree,
    published: &[Item],
    starts: &[Start],
    openings: &Openings,
    changes: &[Change],
    capacity: u16,
    rounds: u32,
) -> Result<TreeState, ChangeFault>
    requires fit { FitTree tree.now.parents openings.now }
    ensures replay { IfOk result (λ state.
        state ≡ tree_replay (changes_replay (initial_tree
        (network_of params.now tree.now published.now starts.now openings.now)) changes.now)
        (play_reads capacity tree.now.parents rounds)) }
    ensures same_tree { IfOk result (λ state. state.parents ≡ tree.now.parents) }
    ensures refused { IfErr result (λ fault.
        IsChangeReason params.now starts.now
        (network_of params.now tree.now published.now starts.now openings.now) changes.now fault
        ⊎ (fault ≡ ChangeFault.Act TreeStepFault.Memory)) }
    ensures converged { IfOk result (λ state.
        (before after : List Change) (node : ℕ) → changes.now ≡ before ++ after
        → let s = changes_replay (initial_tree
        (network_of params.now tree.now published.now starts.now openings.now)) before in
        let m = changes_replay s after in
        node < length s.parents → Spare s.parents node after
        → IsOpen m → ((w : ℕ) → capacity_at m w ≤ capacity)
        → rounds_since 1 (moment m) node ≤ rounds
        → HasConverged s state node) }
{
    let mut state = stab_treecore::run_changes(
        alloc, params, tree, published, starts, openings, changes,
    )?;
    stab_rounds::apply_reading_rounds(alloc, tree, &mut state, capacity, rounds)?;
    laws::every_schedule_converges();
    Ok(state)
}
