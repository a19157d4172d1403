ghost use Rattle.std.specs.Prelude.{◌≡◌, ℕ, ◌≤◌, ◌++◌, [], length, Some, All, IfOk, IfErr};
ghost use Rattle.stab_rounds.specs.Refused.{IsRoundsReason};
ghost use Rattle.stab_rounds.specs.TreePlayed.{play, round_from, round_on};
ghost use Rattle.stab_rounds.specs.TreeRounds.{IsHandedOn, rounds_below};
ghost use Rattle.stab_tree.specs.NodeOpenings.{FitTree};
ghost use Rattle.stab_tree.specs.Nodes.{parent_at};
ghost use Rattle.stab_treecore.specs.Network.{network_of};
ghost use Rattle.stab_treecore.specs.Refusals.{NamesLink};
ghost use Rattle.stab_treecore.specs.NodeLaws.{most_missing, most_strays, path_garbage};
ghost use Rattle.stab_treecore.specs.TreeLaw.{CompleteLaw};
ghost use Rattle.stab_treecore.specs.TreeReplay.{initial_tree, tree_replay};
ghost use Rattle.stab_treecore.specs.WholeTree.{received};

use crate::laws;
use stab_core::{LinkAct, Start};
use stab_frames::{Item, Params};
use stab_tree::{NodeId, Openings, Tree};
use stab_treecore::{TreeEvent, TreeStartFault, TreeState, TreeStepFault};
use std::alloc::{AllocError, Global};

/// Adds a round of the link into this node.
fn push_round(events: &mut Vec<TreeEvent>, child: NodeId) -> Result<(), AllocError>
    ensures { IfOk result (λ _. events.new.items ≡ events.old.items ++ round_on child []) }
{
    events.push(TreeEvent {
        child,
        act: LinkAct::Offer,
    })?;
    events.push(TreeEvent {
        child,
        act: LinkAct::SendFrame,
    })?;
    events.push(TreeEvent {
        child,
        act: LinkAct::RecvFrame { keep: false },
    })?;
    events.push(TreeEvent {
        child,
        act: LinkAct::SendAck,
    })?;
    events.push(TreeEvent {
        child,
        act: LinkAct::RecvAck { keep: false },
    })?;
    Ok(())
}

/// One round of every link, in file order.
pub fn round_of_all(alloc: Global, tree: &Tree) -> Result<Vec<TreeEvent>, AllocError>
    ensures { IfOk result (λ events. events.items ≡ round_from 0 tree.now.parents) }
{
    let mut events = Vec::new(alloc);
    'nodes: for node in 0..tree.len() {
        if tree.parent(NodeId::new(node)).is_some() {
            push_round(&mut events, NodeId::new(node))?;
        }
    }
    Ok(events)
}

/// All these events, one after the other. Where each of them names a link, only memory can be
/// refused, and the events before that one were made.
pub(crate) fn apply_all(state: &mut TreeState, events: &[TreeEvent]) -> Result<(), TreeStepFault>
    ensures replay { IfOk result (λ _. state.new ≡ tree_replay state.old events.now) }
    ensures same_tree { state.new.parents ≡ state.old.parents }
    ensures memory { All (NamesLink state.old.parents) events.now
        → IfErr result (λ fault. fault ≡ TreeStepFault.Memory) }
{
    for event in events {
        state.apply(*event)?;
    }
    Ok(())
}

/// Applies `rounds` rounds of every link.
fn apply_rounds(
    alloc: Global,
    state: &mut TreeState,
    tree: &Tree,
    rounds: u32,
) -> Result<(), TreeStepFault>
    requires own { state.old.parents ≡ tree.now.parents }
    ensures replay { IfOk result (λ _.
        state.new ≡ tree_replay state.old (play tree.now.parents rounds)) }
    ensures same_tree { state.new.parents ≡ state.old.parents }
    ensures memory { IfErr result (λ fault. fault ≡ TreeStepFault.Memory) }
{
    let round = round_of_all(alloc, tree)?;
    'rounds: for _done in 0..rounds {
        apply_all(state, &round)?;
    }
    Ok(())
}

/// The whole tree after `rounds` rounds of every link, from the starts of its links. Where the
/// rounds are enough, every node has all that its parent has, and misses nothing but among the
/// first items. It is refused where the tree cannot begin, and else for memory alone; then no state
/// is handed out.
pub fn run_rounds(
    alloc: Global,
    params: &[Params],
    tree: &Tree,
    published: &[Item],
    starts: &[Start],
    openings: &Openings,
    rounds: u32,
) -> Result<TreeState, TreeStartFault>
    requires fit { FitTree tree.now.parents openings.now }
    ensures replay { IfOk result (λ state.
        state ≡ tree_replay (initial_tree
        (network_of params.now tree.now published.now starts.now openings.now))
        (play tree.now.parents rounds)) }
    ensures same_tree { IfOk result (λ state. state.parents ≡ tree.now.parents) }
    ensures refused { IfErr result (IsRoundsReason params.now starts.now
        (network_of params.now tree.now published.now starts.now openings.now)) }
    ensures handed_on { IfOk result (λ state. (capacity child parent : ℕ)
        → let net = network_of params.now tree.now published.now starts.now openings.now in
        All (λ link. link.params.capacity ≤ capacity) net.links
        → parent_at tree.now.parents child ≡ Some parent
        → rounds_below net capacity parent ≤ rounds
        → IsHandedOn state child parent) }
    ensures complete { IfOk result (λ state. (capacity child parent : ℕ)
        → let net = network_of params.now tree.now published.now starts.now openings.now in
        All (λ link. link.params.capacity ≤ capacity) net.links
        → parent_at tree.now.parents child ≡ Some parent
        → rounds_below net capacity parent ≤ rounds
        → CompleteLaw (most_strays net child) (most_missing net child) (path_garbage net child)
        net.published (received state child)) }
{
    let mut state = stab_treecore::run_schedule(
        alloc,
        params,
        tree,
        published,
        starts,
        openings,
        &[],
    )?;
    apply_rounds(alloc, &mut state, tree, rounds)?;
    laws::rounds_bring_everything();
    Ok(state)
}
