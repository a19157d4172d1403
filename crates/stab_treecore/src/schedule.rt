ghost use Rattle.std.specs.Prelude.{◌≡◌, All, IfOk, IfErr, OnOk};
ghost use Rattle.stab_core.specs.LinkSetup.{CanBegin, setups};
ghost use Rattle.stab_treecore.specs.Network.{IsNetwork, network_of};
ghost use Rattle.stab_treecore.specs.NodeLaws.{HalfTreeLawAtNodes, TreeLawAtNodes};
ghost use Rattle.stab_tree.specs.NodeOpenings.{FitTree};
ghost use Rattle.stab_treecore.specs.Refusals.{OnePerLink, NamesLink, IsScheduleReason};
ghost use Rattle.stab_treecore.specs.TreeReplay.{initial_tree, tree_replay};
ghost use Rattle.stab_treecore.specs.WholeTree.{received};

use crate::event::TreeEvent;
use crate::fault::TreeStartFault;
use crate::laws;
use crate::state::TreeState;
use stab_core::Start;
use stab_frames::{Item, Params};
use stab_tree::{Openings, Tree};
use std::alloc::Global;

/// The whole tree after a schedule, from the starts of its links; each link has parameters of its
/// own. Where it refuses, no state is handed out.
///
/// Whatever the links and the inner nodes hold at the start and whatever the schedule: with C the
/// sum of the capacities c of the links on a node's path to the root, M the sum of their 2c + 1,
/// and E as many items as an opening may have for each inner node on the path, itself among them,
/// the node received at most C + E strays, then published items in their order, each at most once,
/// none missing before its last one except among the first M.
pub fn run_schedule(
    alloc: Global,
    params: &[Params],
    tree: &Tree,
    published: &[Item],
    starts: &[Start],
    openings: &Openings,
    events: &[TreeEvent],
) -> Result<TreeState, TreeStartFault>
    requires fit { FitTree tree.now.parents openings.now }
    ensures replay { IfOk result (λ state.
        state ≡ tree_replay (initial_tree
        (network_of params.now tree.now published.now starts.now openings.now)) events.now) }
    ensures same_tree { IfOk result (λ state. state.parents ≡ tree.now.parents) }
    ensures params_per_link { OnOk result (OnePerLink tree.now.parents params.now) }
    ensures one_per_link { OnOk result (OnePerLink tree.now.parents starts.now) }
    ensures network { OnOk result (IsNetwork
        (network_of params.now tree.now published.now starts.now openings.now)) }
    ensures named { OnOk result (All (NamesLink tree.now.parents) events.now) }
    ensures refused { IfErr result
        (IsScheduleReason params.now starts.now
        (network_of params.now tree.now published.now starts.now openings.now) events.now) }

    // The laws of every node.
    ensures half_tree_law { IfOk result (λ state.
        HalfTreeLawAtNodes
        (network_of params.now tree.now published.now starts.now openings.now)
        (received state)) }
    ensures tree_law { IfOk result (λ state.
        TreeLawAtNodes (network_of params.now tree.now published.now starts.now openings.now)
        (received state)) }
{
    let state = replayed(alloc, params, tree, published, starts, openings, events)?;
    let _tree = tree.root();
    laws::every_schedule_obeys_the_tree_law();
    laws::half_tree_law_at_every_node();
    Ok(state)
}

/// The replay of a schedule.
fn replayed(
    alloc: Global,
    params: &[Params],
    tree: &Tree,
    published: &[Item],
    starts: &[Start],
    openings: &Openings,
    events: &[TreeEvent],
) -> Result<TreeState, TreeStartFault>
    requires fit { FitTree tree.now.parents openings.now }
    ensures replay { IfOk result (λ state.
        state ≡ tree_replay (initial_tree
        (network_of params.now tree.now published.now starts.now openings.now)) events.now) }
    ensures same_tree { IfOk result (λ state. state.parents ≡ tree.now.parents) }
    ensures params_per_link { OnOk result (OnePerLink tree.now.parents params.now) }
    ensures one_per_link { OnOk result (OnePerLink tree.now.parents starts.now) }
    ensures lawful { OnOk result (All CanBegin (setups params.now starts.now)) }
    ensures named { OnOk result (All (NamesLink tree.now.parents) events.now) }
    ensures refused { IfErr result
        (IsScheduleReason params.now starts.now
        (network_of params.now tree.now published.now starts.now openings.now) events.now) }
{
    let mut state = TreeState::new(alloc, params, tree, published, starts, openings)?;
    for event in events {
        state.apply(*event)?;
    }
    Ok(state)
}
