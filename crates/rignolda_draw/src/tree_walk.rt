//! The run of a schedule, step by step.

ghost use Rattle.std.specs.Prelude.{◌≡◌, ◌↔◌, All, option_map, option_to_list};
ghost use Rattle.std.specs.Prelude.{IfErr, IsErrOf, OnOk};
ghost use Rattle.stab_job.specs.JobValues.{network};
ghost use Rattle.stab_job.specs.Replays.{IsReplayReason};
ghost use Rattle.stab_treecore.specs.Network.{IsNetwork};
ghost use Rattle.stab_treecore.specs.Refusals.{IsStepReason, NamesLink, NamesNoLink};
ghost use Rattle.stab_treecore.specs.TreeReplay.{initial_tree, tree_replay};
ghost use Rattle.stab_treecore.specs.TreeStep.{tree_step};
ghost use Rattle.stab_treecore.specs.WholeTree.{link_into};
ghost use Rattle.rignolda_draw.specs.Rows.{row_of, step_row, tree_rows_from};
ghost use Rattle.rignolda_draw.specs.Takes.{TakesNone, TakesOn};

use crate::next::event_on;
use crate::row::row_of;
use crate::stopped::stopped;
use crate::taker::TakesRows;
use stab_core::{Effect, Event};
use stab_job::Job;
use stab_tree::{NodeId, Tree};
use stab_treecore::{TreeEvent, TreeStartFault, TreeState, TreeStepFault};
use std::alloc::{AllocError, Global};

/// Replays the schedule of a job, and gives away each link at its start, and a row for each event.
/// It refuses what [`Job::replay`] refuses; where a row is not taken, that is said of memory.
#[tactic(auto, using(stab_job::proofs::ForCallers::start_reason))]
pub(crate) fn take_schedule_run<T: TakesRows>(
    alloc: Global,
    job: &Job,
    to: &mut T,
) -> Result<(), TreeStartFault>
    ensures rows { OnOk result (TakesOn T.HasTaken to.old
        (tree_rows_from (initial_tree (network job.now)) job.now.schedule) to.new) }
    ensures network { OnOk result (IsNetwork (network job.now)) }
    ensures named { OnOk result (All (NamesLink job.now.tree.parents) job.now.schedule) }
    ensures refused { IfErr result (IsReplayReason job.now) }
{
    let mut state = job.initial_tree(alloc)?;
    match take_all(job.tree(), &mut state, job.schedule(), to) {
        Ok(()) => Ok(()),
        Err(fault) => Err(stopped(job, fault)),
    }
}

/// Gives away each link at its start, and a row for each of these events.
fn take_all<T: TakesRows>(
    tree: &Tree,
    state: &mut TreeState,
    events: &[TreeEvent],
    to: &mut T,
) -> Result<(), TreeStepFault>
    requires same_tree { state.old.parents ≡ tree.now.parents }
    ensures rows { OnOk result (TakesOn T.HasTaken to.old
        (tree_rows_from state.old events.now) to.new) }
    ensures named { OnOk result (All (NamesLink state.old.parents) events.now) }
    ensures stops { IsErrOf result TreeStepFault.NoSuchLink
        → IsStepReason state.old events.now TreeStepFault.NoSuchLink }
{
    take_starts(tree, state, to)?;
    take_acts(tree, state, events, to)?;
    Ok(())
}

/// Gives away each link as it is, in the file order of their children.
pub(crate) fn take_starts<T: TakesRows>(
    tree: &Tree,
    state: &TreeState,
    to: &mut T,
) -> Result<(), AllocError>
    ensures { OnOk result (TakesNone T.HasTaken to.old to.new) }
{
    for place in 0..tree.len() {
        let node = NodeId::new(place);
        to.start(node, state.link(node))?;
    }
    Ok(())
}

/// Takes these steps, and gives away a row for each.
#[tactic(auto, using(crate::proofs::Going::begins, crate::proofs::Going::stops_here, crate::proofs::Going::all_named))]
pub(crate) fn take_acts<T: TakesRows>(
    tree: &Tree,
    state: &mut TreeState,
    events: &[TreeEvent],
    to: &mut T,
) -> Result<(), TreeStepFault>
    requires same_tree { state.old.parents ≡ tree.now.parents }
    ensures rows { OnOk result (TakesOn T.HasTaken to.old
        (tree_rows_from state.old events.now) to.new) }
    ensures after { OnOk result (state.new ≡ tree_replay state.old events.now) }
    ensures same_tree { OnOk result (state.new.parents ≡ tree.now.parents) }
    ensures named { OnOk result (All (NamesLink state.old.parents) events.now) }
    ensures stops { IsErrOf result TreeStepFault.NoSuchLink
        → IsStepReason state.old events.now TreeStepFault.NoSuchLink }
{
    for event in events {
        take_act(tree, state, *event, to)?;
    }
    Ok(())
}

/// Takes a step, and gives away its row.
pub(crate) fn take_act<T: TakesRows>(
    tree: &Tree,
    state: &mut TreeState,
    event: TreeEvent,
    to: &mut T,
) -> Result<(), TreeStepFault>
    requires same_tree { state.old.parents ≡ tree.now.parents }
    ensures row { OnOk result (TakesOn T.HasTaken to.old
        (option_to_list (step_row state.old event)) to.new) }
    ensures steps { OnOk result (state.new ≡ tree_step state.old event) }
    ensures named { OnOk result (NamesLink state.old.parents event) }
    ensures no_such_link { IsErrOf result TreeStepFault.NoSuchLink
        ↔ NamesNoLink state.old.parents event }
{
    let child = event.child;
    let its_event = event_on(tree, state, &event);
    let effect = state.apply(event)?;
    take_row_of(child, its_event, effect, state, to)?;
    Ok(())
}

/// Gives away the row of an event that had this effect on the link into a node, where one leads
/// into it.
fn take_row_of<T: TakesRows>(
    child: NodeId,
    event: Option<Event>,
    effect: Effect,
    state: &TreeState,
    to: &mut T,
) -> Result<(), AllocError>
    ensures { OnOk result (TakesOn T.HasTaken to.old (option_to_list
        (option_map (row_of child event effect) (link_into state.now child))) to.new) }
{
    match state.link(child) {
        None => Ok(()),
        Some(link) => to.take(row_of(child, event, effect, link), link),
    }
}
