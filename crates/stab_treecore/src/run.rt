ghost use Rattle.std.specs.Prelude.{◌≡◌, ◌<◌, ℕ, List, ◌++◌, IfOk, IfErr, OnOk, length};
ghost use Rattle.stab_treecore.specs.Changes.{change_step, changes_replay};
ghost use Rattle.stab_treecore.specs.Hits.{Spare};
ghost use Rattle.stab_treecore.specs.Moment.{LawSince, SharperLawSince};
ghost use Rattle.stab_treecore.specs.ChangeRefusals.{AllCanBeMade, CanBeMade, IsChangeReason};
ghost use Rattle.stab_treecore.specs.ChangeRefusals.{IsReasonAt, ReachesChange};
ghost use Rattle.stab_treecore.specs.Since.{gained, moment};
ghost use Rattle.stab_tree.specs.NodeOpenings.{FitTree};
ghost use Rattle.stab_treecore.specs.Faults.{restarted_tree};
ghost use Rattle.stab_treecore.specs.Network.{IsNetwork, network_of};
ghost use Rattle.stab_treecore.specs.Refusals.{IsRestartReason};
ghost use Rattle.stab_treecore.specs.TreeReplay.{initial_tree};

use crate::change::Change;
use crate::change_fault::ChangeFault;
use crate::change_laws;
use crate::fault::RestartFault;
use crate::state::TreeState;
use stab_core::Start;
use stab_frames::{Item, Params};
use stab_tree::{NodeId, Openings, Tree};
use std::alloc::Global;

/// The whole tree after these changes, from the starts of its links; each link has parameters of
/// its own. Where the tree cannot begin it is refused, and then the first change that cannot be
/// made; no state is handed out.
///
/// Whatever the changes, at each node the tree law holds, counted from any moment after which no
/// fault hits the node, such as its last fault: it received at most as many strays since as the
/// capacities on its path and the backlogs of the inner nodes above it for the next one on the
/// path, and then items that were published since, or were not acknowledged to the root, in their
/// order, none missing before the last but for some among the first 2c + 1 for each link of the
/// path.
pub fn run_changes(
    alloc: Global,
    params: &[Params],
    tree: &Tree,
    published: &[Item],
    starts: &[Start],
    openings: &Openings,
    changes: &[Change],
) -> Result<TreeState, ChangeFault>
    requires fit { FitTree tree.now.parents openings.now }
    ensures replay { IfOk result (λ state.
        state ≡ changes_replay (initial_tree
        (network_of params.now tree.now published.now starts.now openings.now)) changes.now) }
    ensures same_tree { IfOk result (λ state. state.parents ≡ tree.now.parents) }
    ensures network { OnOk result (IsNetwork
        (network_of params.now tree.now published.now starts.now openings.now)) }
    ensures made { OnOk result (AllCanBeMade (initial_tree
        (network_of params.now tree.now published.now starts.now openings.now)) changes.now) }
    ensures refused { IfErr result (IsChangeReason params.now starts.now
        (network_of params.now tree.now published.now starts.now openings.now) changes.now) }

    // The laws of every node.
    ensures tree_law { IfOk result (λ state.
        (before after : List Change) (node : ℕ) → changes.now ≡ before ++ after
        → let s = changes_replay (initial_tree
        (network_of params.now tree.now published.now starts.now openings.now)) before in
        node < length s.parents → Spare s.parents node after
        → LawSince (moment s) (gained s state) node) }
    ensures sharper_tree_law { IfOk result (λ state.
        (before after : List Change) (node : ℕ) → changes.now ≡ before ++ after
        → let s = changes_replay (initial_tree
        (network_of params.now tree.now published.now starts.now openings.now)) before in
        node < length s.parents → Spare s.parents node after
        → SharperLawSince (moment s) (gained s state) node) }
{
    let state = replayed(alloc, params, tree, published, starts, openings, changes)?;
    change_laws::every_schedule_with_faults_obeys_the_tree_law();
    Ok(state)
}

/// The replay of the changes.
fn replayed(
    alloc: Global,
    params: &[Params],
    tree: &Tree,
    published: &[Item],
    starts: &[Start],
    openings: &Openings,
    changes: &[Change],
) -> Result<TreeState, ChangeFault>
    requires fit { FitTree tree.now.parents openings.now }
    ensures replay { IfOk result (λ state.
        state ≡ changes_replay (initial_tree
        (network_of params.now tree.now published.now starts.now openings.now)) changes.now) }
    ensures same_tree { IfOk result (λ state. state.parents ≡ tree.now.parents) }
    ensures network { OnOk result (IsNetwork
        (network_of params.now tree.now published.now starts.now openings.now)) }
    ensures made { OnOk result (AllCanBeMade (initial_tree
        (network_of params.now tree.now published.now starts.now openings.now)) changes.now) }
    ensures refused { IfErr result (IsChangeReason params.now starts.now
        (network_of params.now tree.now published.now starts.now openings.now) changes.now) }
{
    let mut state = TreeState::new(alloc, params, tree, published, starts, openings)?;
    let _root = tree.root();
    make_changes(alloc, tree, &mut state, changes)?;
    Ok(state)
}

/// Makes these changes of a state of this tree, one by one. The first that cannot be made is
/// refused, and then those before it are made.
pub fn make_changes(
    alloc: Global,
    tree: &Tree,
    state: &mut TreeState,
    changes: &[Change],
) -> Result<(), ChangeFault>
    requires { state.old.parents ≡ tree.now.parents }
    ensures replay { OnOk result (state.new ≡ changes_replay state.old changes.now) }
    ensures made { OnOk result (AllCanBeMade state.old changes.now) }
    ensures refused { IfErr result (λ fault.
        ReachesChange (IsReasonAt fault) state.old changes.now) }
{
    for change in changes {
        make(alloc, tree, state, change)?;
    }
    Ok(())
}

/// Makes one change of a state of this tree.
fn make(
    alloc: Global,
    tree: &Tree,
    state: &mut TreeState,
    change: &Change,
) -> Result<(), ChangeFault>
    requires { state.old.parents ≡ tree.now.parents }
    ensures made { OnOk result (state.new ≡ change_step state.old change.now) }
    ensures can { OnOk result (CanBeMade state.old change.now) }
    ensures refused { IfErr result (λ fault. IsReasonAt fault state.old change.now) }
{
    match change {
        Change::Act(event) => {
            state.apply(*event)?;
        }
        Change::Publish(items) => state.publish(items.as_slice())?,
        Change::Strike(child, start) => state.strike(*child, start)?,
        Change::Restart(node, list) => restart(alloc, tree, state, *node, list.as_slice())?,
    }
    Ok(())
}

/// Restarts a node of a state of this tree, where there is such a node.
fn restart(
    alloc: Global,
    tree: &Tree,
    state: &mut TreeState,
    node: NodeId,
    list: &[Item],
) -> Result<(), RestartFault>
    requires { state.old.parents ≡ tree.now.parents }
    ensures restarted { OnOk result (state.new ≡ restarted_tree state.old node list.now) }
    ensures is_node { OnOk result (node < length state.old.parents) }
    ensures refused { IfErr result (IsRestartReason state.old.parents node) }
{
    if node.index() >= usize::from(tree.len()) {
        return Err(RestartFault::NoSuchNode);
    }
    state.restart(alloc, node, list)
}
