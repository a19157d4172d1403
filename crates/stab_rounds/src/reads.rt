ghost use Rattle.std.specs.Prelude.{◌≡◌, ℕ, ◌≤◌, ◌++◌, [], ◌∷◌, length, replicate, Some, All, IfOk};
ghost use Rattle.std.specs.Prelude.{IfErr};
ghost use Rattle.stab_rounds.specs.Refused.{IsRoundsReason};
ghost use Rattle.stab_frames.specs.Parameters.{Parameters};
ghost use Rattle.stab_rounds.specs.TreePlayed.{act_on, play_reads, reading_round_from};
ghost use Rattle.stab_rounds.specs.TreePlayed.{reading_round_on};
ghost use Rattle.stab_rounds.specs.TreeReadingRounds.{reading_rounds_below};
ghost use Rattle.stab_rounds.specs.TreeRounds.{IsHandedOn};
ghost use Rattle.stab_tree.specs.NodeOpenings.{FitTree};
ghost use Rattle.stab_tree.specs.Nodes.{parent_at};
ghost use Rattle.stab_treecore.specs.Network.{network_of};
ghost use Rattle.stab_treecore.specs.NodeLaws.{most_missing, most_strays, path_garbage};
ghost use Rattle.stab_treecore.specs.TreeLaw.{CompleteLaw};
ghost use Rattle.stab_treecore.specs.TreeReplay.{initial_tree, tree_replay};
ghost use Rattle.stab_treecore.specs.WholeTree.{received};

use crate::laws;
use crate::play::apply_all;
use stab_core::{LinkAct, Start};
use stab_frames::{Item, Params};
use stab_tree::{NodeId, Openings, Tree};
use stab_treecore::{TreeEvent, TreeStartFault, TreeState, TreeStepFault};
use std::alloc::{AllocError, Global};

/// Adds an act on the link into this node.
fn push_act(events: &mut Vec<TreeEvent>, child: NodeId, act: LinkAct) -> Result<(), AllocError>
    ensures { IfOk result (λ _. events.new.items ≡ events.old.items ++ act_on child act ∷ []) }
{
    events.push(TreeEvent { child, act })?;
    Ok(())
}

/// Adds this act on the link into this node `times` times.
fn push_times(
    events: &mut Vec<TreeEvent>,
    child: NodeId,
    act: LinkAct,
    times: u16,
) -> Result<(), AllocError>
    ensures { IfOk result (λ _. events.new.items
        ≡ events.old.items ++ replicate times (act_on child act)) }
{
    'times: for _done in 0..times {
        push_act(events, child, act)?;
    }
    Ok(())
}

/// Adds a reading round of the link into this node, which takes `capacity` messages before it
/// sends.
#[tactic(auto, using(crate::proofs::PlaysReads::in_parts))]
pub fn push_reading_round(
    events: &mut Vec<TreeEvent>,
    child: NodeId,
    capacity: u16,
) -> Result<(), AllocError>
    ensures { IfOk result (λ _. events.new.items
        ≡ events.old.items ++ reading_round_on capacity child []) }
{
    let take = LinkAct::RecvFrame { keep: false };
    let hear = LinkAct::RecvAck { keep: false };
    push_act(events, child, LinkAct::Offer)?;
    push_times(events, child, take, capacity)?;
    push_act(events, child, LinkAct::SendFrame)?;
    push_act(events, child, take)?;
    push_times(events, child, hear, capacity)?;
    push_act(events, child, LinkAct::SendAck)?;
    push_act(events, child, hear)?;
    Ok(())
}

/// One reading round of every link, in file order; each takes `capacity` messages before it sends.
#[tactic(auto, using(crate::proofs::PlaysReads::one_added))]
pub fn reading_round_of_all(
    alloc: Global,
    tree: &Tree,
    capacity: u16,
) -> Result<Vec<TreeEvent>, AllocError>
    ensures { IfOk result (λ events.
        events.items ≡ reading_round_from capacity 0 tree.now.parents) }
{
    let mut events = Vec::new(alloc);
    'nodes: for node in 0..tree.len() {
        if tree.parent(NodeId::new(node)).is_some() {
            push_reading_round(&mut events, NodeId::new(node), capacity)?;
        }
    }
    Ok(events)
}

/// Applies `rounds` reading rounds of every link, from any state of a tree; each takes `capacity`
/// messages before it sends. Where memory is refused, some of the acts were made, and the others
/// were not.
pub fn apply_reading_rounds(
    alloc: Global,
    tree: &Tree,
    state: &mut TreeState,
    capacity: u16,
    rounds: u32,
) -> Result<(), TreeStepFault>
    ensures replay { IfOk result (λ _. state.new
        ≡ tree_replay state.old (play_reads capacity tree.now.parents rounds)) }
    ensures same_tree { state.new.parents ≡ state.old.parents }
    ensures memory { state.old.parents ≡ tree.now.parents
        → IfErr result (λ fault. fault ≡ TreeStepFault.Memory) }
{
    let round = reading_round_of_all(alloc, tree, capacity)?;
    'rounds: for _done in 0..rounds {
        apply_all(state, &round)?;
    }
    Ok(())
}

/// The whole tree after `rounds` reading rounds of every link, from the starts of its links; each
/// takes `capacity` messages before it sends. Where the rounds are enough, and no link has a larger
/// capacity, every node has all that its parent has, and misses nothing but among the first items.
/// It is refused where the tree cannot begin, and else for memory alone; then no state is handed
/// out.
pub fn run_reading_rounds(
    alloc: Global,
    params: &[Params],
    tree: &Tree,
    published: &[Item],
    starts: &[Start],
    openings: &Openings,
    capacity: u16,
    rounds: u32,
) -> Result<TreeState, TreeStartFault>
    requires fit { FitTree tree.now.parents openings.now }
    ensures replay { IfOk result (λ state.
        state ≡ tree_replay (initial_tree
        (network_of params.now tree.now published.now starts.now openings.now))
        (play_reads capacity tree.now.parents rounds)) }
    ensures same_tree { IfOk result (λ state. state.parents ≡ tree.now.parents) }
    ensures refused { IfErr result (IsRoundsReason params.now starts.now
        (network_of params.now tree.now published.now starts.now openings.now)) }
    ensures handed_on { IfOk result (λ state. (child parent : ℕ)
        → let net = network_of params.now tree.now published.now starts.now openings.now in
        All (λ link. link.params.capacity ≤ capacity) net.links
        → parent_at tree.now.parents child ≡ Some parent
        → reading_rounds_below net parent ≤ rounds
        → IsHandedOn state child parent) }
    ensures complete { IfOk result (λ state. (child parent : ℕ)
        → let net = network_of params.now tree.now published.now starts.now openings.now in
        All (λ link. link.params.capacity ≤ capacity) net.links
        → parent_at tree.now.parents child ≡ Some parent
        → reading_rounds_below net parent ≤ rounds
        → CompleteLaw (most_strays net child) (most_missing net child) (path_garbage net child)
        net.published (received state child)) }
{
    let mut state = stab_treecore::run_schedule(
        alloc,
        params,
        tree,
        published,
        starts,
        openings,
        &[],
    )?;
    apply_reading_rounds(alloc, tree, &mut state, capacity, rounds)?;
    laws::reading_rounds_bring_everything();
    Ok(state)
}
