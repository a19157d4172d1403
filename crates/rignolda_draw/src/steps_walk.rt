//! The run of a scenario, step by step.

ghost use Rattle.std.specs.Prelude.{◌≡◌, ◌≤◌, length, IfErr, OnOk};
ghost use Rattle.stab_job.specs.JobValues.{network};
ghost use Rattle.stab_treecore.specs.Changes.{change_step, changes_replay};
ghost use Rattle.stab_treecore.specs.TreeReplay.{initial_tree};
ghost use Rattle.rignolda_scenario.specs.Counts.{IsUnrun};
ghost use Rattle.rignolda_scenario.specs.Played.{changes_in, changes_of, most_changes, repeated};
ghost use Rattle.rignolda_draw.specs.ScenarioRows.{change_row, change_rows, scenario_rows};
ghost use Rattle.rignolda_draw.specs.Takes.{TakesOn};

use crate::taker::TakesSteps;
use crate::tree_walk::{take_act, take_acts, take_starts};
use rignolda_scenario::{
    Scenario, ScenarioFault, Step, are_few, reading_round_of_all, state_after,
};
use stab_job::Job;
use stab_rounds::round_of_all;
use stab_tree::Tree;
use stab_treecore::{Change, ChangeFault, TreeEvent, TreeState, TreeStepFault};
use std::alloc::Global;

/// Makes the steps of a scenario, and gives away each link at its start, a row for each act, and
/// what happens between them. It refuses what `scenario_text` refuses.
pub(crate) fn take_scenario_run<T: TakesSteps>(
    alloc: Global,
    scenario: &Scenario,
    to: &mut T,
) -> Result<(), ScenarioFault>
    ensures rows { OnOk result (TakesOn T.HasTaken to.old (scenario_rows scenario.now) to.new) }
    ensures few { OnOk result (length (changes_of scenario.now.job.tree.parents
        scenario.now.job.params scenario.now.steps) ≤ most_changes) }
    ensures refused { IfErr result (IsUnrun scenario.now.job scenario.now.steps) }
{
    if !are_few(&scenario.job, scenario.steps.as_slice()) {
        return Err(ScenarioFault::TooManyEvents);
    }
    match take_played(alloc, scenario, to) {
        Ok(()) => Ok(()),
        Err(_) => Err(why_undrawn(alloc, scenario)),
    }
}

/// Why the run of a scenario was not drawn: what keeps it from being run, or else memory.
fn why_undrawn(alloc: Global, scenario: &Scenario) -> ScenarioFault
    ensures { IsUnrun scenario.now.job scenario.now.steps result }
{
    match state_after(alloc, &scenario.job, scenario.steps.as_slice()) {
        Ok(end) => {
            drop(end);
            ScenarioFault::Memory
        }
        Err(fault) => fault,
    }
}

/// The same of a scenario whose steps are few enough.
fn take_played<T: TakesSteps>(
    alloc: Global,
    scenario: &Scenario,
    to: &mut T,
) -> Result<(), ChangeFault>
    ensures { OnOk result (TakesOn T.HasTaken to.old (scenario_rows scenario.now) to.new) }
{
    let job = &scenario.job;
    let mut state = job.initial_tree(alloc)?;
    take_starts(job.tree(), &state, to)?;
    take_steps(alloc, job, &mut state, scenario.steps.as_slice(), to)?;
    Ok(())
}

/// Makes these steps of a job, and gives away what happens.
fn take_steps<T: TakesSteps>(
    alloc: Global,
    job: &Job,
    state: &mut TreeState,
    steps: &[Step],
    to: &mut T,
) -> Result<(), ChangeFault>
    requires same_tree { state.old.parents ≡ job.now.tree.parents }
    ensures { OnOk result (TakesOn T.HasTaken to.old (change_rows state.old
        (changes_of job.now.tree.parents job.now.params steps.now)) to.new) }
{
    let mut number = 0u64;
    for step in steps {
        number = number.saturating_add(1);
        to.begin_step(number);
        take_step(alloc, job, state, step, to)?;
    }
    Ok(())
}

/// Makes a step of a job, and gives away what happens.
fn take_step<T: TakesSteps>(
    alloc: Global,
    job: &Job,
    state: &mut TreeState,
    step: &Step,
    to: &mut T,
) -> Result<(), ChangeFault>
    requires same_tree { state.old.parents ≡ job.now.tree.parents }
    ensures rows { OnOk result (TakesOn T.HasTaken to.old (change_rows state.old
        (changes_in job.now.tree.parents job.now.params step.now)) to.new) }
    ensures after { OnOk result (state.new
        ≡ changes_replay state.old (changes_in job.now.tree.parents job.now.params step.now)) }
    ensures same_tree { OnOk result (state.new.parents ≡ job.now.tree.parents) }
{
    let tree = job.tree();
    match step {
        Step::One(change) => take_change(alloc, tree, state, change, to)?,
        Step::Rounds(count) => {
            let round = round_of_all(alloc, tree)?;
            take_rounds(tree, state, "round", &round, *count, to)?;
        }
        Step::ReadingRounds(count) => {
            let round = reading_round_of_all(alloc, job)?;
            take_rounds(tree, state, "reading round", &round, *count, to)?;
        }
    }
    Ok(())
}

/// Makes `count` rounds of these acts, and gives away what happens.
fn take_rounds<T: TakesSteps>(
    tree: &Tree,
    state: &mut TreeState,
    word: &str,
    round: &[TreeEvent],
    count: u16,
    to: &mut T,
) -> Result<(), TreeStepFault>
    requires same_tree { state.old.parents ≡ tree.now.parents }
    ensures rows { OnOk result (TakesOn T.HasTaken to.old
        (change_rows state.old (repeated count round.now)) to.new) }
    ensures after { OnOk result (state.new ≡ changes_replay state.old (repeated count round.now)) }
    ensures same_tree { OnOk result (state.new.parents ≡ tree.now.parents) }
{
    'rounds: for done in 0..count {
        to.round(word, u64::from(done) + 1, count)?;
        take_acts(tree, state, round, to)?;
    }
    Ok(())
}

/// Makes a change, and gives away what happens.
fn take_change<T: TakesSteps>(
    alloc: Global,
    tree: &Tree,
    state: &mut TreeState,
    change: &Change,
    to: &mut T,
) -> Result<(), ChangeFault>
    requires same_tree { state.old.parents ≡ tree.now.parents }
    ensures rows { OnOk result
        (TakesOn T.HasTaken to.old (change_row state.old change.now) to.new) }
    ensures made { OnOk result (state.new ≡ change_step state.old change.now) }
    ensures same_tree { OnOk result (state.new.parents ≡ tree.now.parents) }
{
    match change {
        Change::Act(event) => take_act(tree, state, *event, to)?,
        Change::Publish(items) => {
            state.publish(items.as_slice())?;
            to.changed(change, tree, state)?;
        }
        Change::Strike(child, start) => {
            state.strike(*child, start)?;
            to.changed(change, tree, state)?;
        }
        Change::Restart(node, list) => {
            state.restart(alloc, *node, list.as_slice())?;
            to.changed(change, tree, state)?;
        }
    }
    Ok(())
}
