//! Steps that are made one by one in a state of the tree of their job, without a list of their
//! changes.

ghost use Rattle.std.specs.Prelude.{◌≡◌, [], ℕ, List, IfErr, IfOk, OnOk, length};
ghost use Rattle.stab_job.specs.JobValues.{network};
ghost use Rattle.stab_rounds.specs.TreePlayed.{round_from};
ghost use Rattle.stab_tree.specs.Links.{links_of};
ghost use Rattle.stab_treecore.specs.ChangeRefusals.{IsChangeReason, IsReasonAt, ReachesChange};
ghost use Rattle.stab_treecore.specs.Network.{IsNetwork};
ghost use Rattle.stab_treecore.specs.NodeLaws.{capacity_into};
ghost use Rattle.stab_treecore.specs.Since.{capacity_at};
ghost use Rattle.stab_treecore.specs.TreeReplay.{initial_tree};
ghost use Rattle.stab_treecore.specs.declared.event.TreeEvent.{TreeEvent};
ghost use Rattle.rignolda_scenario.specs.Counts.{CanBePlayed, IsUnrun, state_after};
ghost use Rattle.rignolda_scenario.specs.Marks.{AreMarks};
ghost use Rattle.rignolda_scenario.specs.Played.{Makes, acts, changes_in, changes_of};
ghost use Rattle.rignolda_scenario.specs.Played.{reading_round_of, repeated};

use crate::changes::{push_acts, reading_round_of_all};
use crate::fault::ScenarioFault;
use crate::few::are_few;
use crate::mark::{Mark, first_marks, mark_hit};
use crate::step::Step;
use stab_job::Job;
use stab_judge::Judge;
use stab_rounds::round_of_all;
use stab_tree::Tree;
use stab_treecore::{Change, ChangeFault, TreeEvent, TreeState, make_changes, run_changes};
use std::alloc::{AllocError, Global};
use std::slice;

/// The tree of a job after steps, and where the count of each node begins.
#[derive(Drop)]
pub(crate) struct Played {
    pub(crate) end: TreeState,
    pub(crate) marks: Vec<Mark>,
}

/// One round and one reading round of all links of a job, as changes.
#[derive(Drop)]
struct Rounds {
    round: Vec<Change>,
    reading_round: Vec<Change>,
}

/// These events as changes.
fn acts_of(alloc: Global, events: &[TreeEvent]) -> Result<Vec<Change>, AllocError>
    ensures { IfOk result (λ changes. changes.items ≡ acts events.now) }
{
    let mut changes = Vec::new(alloc);
    push_acts(&mut changes, events)?;
    Ok(changes)
}

impl Rounds {
    /// Those of a job.
    fn of(alloc: Global, job: &Job) -> Result<Rounds, AllocError>
        ensures round { IfOk result (λ rounds.
            rounds.round.items ≡ acts (round_from 0 job.now.tree.parents)) }
        ensures reading_round { IfOk result (λ rounds. rounds.reading_round.items
            ≡ acts (reading_round_of (links_of job.now.tree.parents) job.now.params)) }
    {
        let round = round_of_all(alloc, job.tree())?;
        let reading_round = reading_round_of_all(alloc, job)?;
        Ok(Rounds {
            round: acts_of(alloc, &round)?,
            reading_round: acts_of(alloc, &reading_round)?,
        })
    }
}

/// The judge of the network of a job.
fn judge_of<'j>(alloc: Global, job: &'j Job) -> Result<Judge<'j>, AllocError>
    ensures { IfOk result (λ judge. judge ≡ network job.now) }
{
    Judge::new(
        alloc,
        job.tree(),
        job.openings(),
        job.params(),
        job.starts(),
        job.items(),
    )
}

/// The tree of a job at its start.
fn begun(alloc: Global, job: &Job) -> Result<TreeState, ChangeFault>
    ensures initial { IfOk result (λ state. state ≡ initial_tree (network job.now)) }
    ensures network { OnOk result (IsNetwork (network job.now)) }
    ensures refused { IfErr result (IsChangeReason job.now.params job.now.starts
        (network job.now) []) }
{
    let state = run_changes(
        alloc,
        job.params(),
        job.tree(),
        job.items(),
        job.starts(),
        job.openings(),
        &[],
    )?;
    Ok(state)
}

/// Makes these acts `times` times over.
fn make_times(
    alloc: Global,
    tree: &Tree,
    state: &mut TreeState,
    changes: &[Change],
    times: u16,
) -> Result<(), ChangeFault>
    requires { state.old.parents ≡ tree.now.parents }
    ensures made { OnOk result ((events : List TreeEvent) → changes.now ≡ acts events
        → Makes state.old (repeated times events) state.new) }
    ensures refused { IfErr result (λ fault. (events : List TreeEvent) → changes.now ≡ acts events
        → ReachesChange (IsReasonAt fault) state.old (repeated times events)) }
{
    'times: for _done in 0..times {
        make_changes(alloc, tree, state, changes)?;
    }
    Ok(())
}

/// Makes a step of a job.
fn make_step(
    alloc: Global,
    job: &Job,
    rounds: &Rounds,
    state: &mut TreeState,
    step: &Step,
) -> Result<(), ChangeFault>
    requires same_tree { state.old.parents ≡ job.now.tree.parents }
    requires round { rounds.now.round.items ≡ acts (round_from 0 job.now.tree.parents) }
    requires reading_round { rounds.now.reading_round.items
        ≡ acts (reading_round_of (links_of job.now.tree.parents) job.now.params) }
    ensures made { OnOk result (Makes state.old
        (changes_in job.now.tree.parents job.now.params step.now) state.new) }
    ensures refused { IfErr result (λ fault. ReachesChange (IsReasonAt fault) state.old
        (changes_in job.now.tree.parents job.now.params step.now)) }
{
    let tree = job.tree();
    match step {
        Step::One(change) => make_changes(alloc, tree, state, slice::from_ref(change)),
        Step::Rounds(count) => make_times(alloc, tree, state, &rounds.round, *count),
        Step::ReadingRounds(count) => make_times(alloc, tree, state, &rounds.reading_round, *count),
    }
}

/// The tree of a job after these steps, and where the count of each node begins. The steps are
/// refused where they are too many changes, or one of these cannot be made.
#[tactic(auto, using(crate::proofs::Playing::unrun_at_start))]
pub(crate) fn play_steps(alloc: Global, job: &Job, steps: &[Step]) -> Result<Played, ScenarioFault>
    ensures after { IfOk result (λ played. played.end ≡ state_after job.now steps.now) }
    ensures each { IfOk result (λ played.
        length played.marks.items ≡ length job.now.tree.parents) }
    ensures marks { IfOk result (λ played. AreMarks job.now steps.now played.marks.items) }
    ensures able { OnOk result (CanBePlayed job.now steps.now) }
    ensures refused { IfErr result (IsUnrun job.now steps.now) }
{
    if !are_few(job, steps) {
        return Err(ScenarioFault::TooManyEvents);
    }
    let _tree = job.tree();
    let rounds = Rounds::of(alloc, job)?;
    let judge = judge_of(alloc, job)?;
    let mut end = begun(alloc, job)?;
    let mut marks = first_marks(alloc, &judge, job, &end)?;
    let mut number = 0;
    for step in steps {
        make_step(alloc, job, &rounds, &mut end, step)?;
        number += 1;
        mark_hit(alloc, &judge, job, &end, number, step, &mut marks)?;
    }
    Ok(Played { end, marks })
}

/// The whole tree of a job after these steps. They are refused where they are too many changes, or
/// one of these cannot be made.
pub fn state_after(alloc: Global, job: &Job, steps: &[Step]) -> Result<TreeState, ScenarioFault>
    ensures after { IfOk result (λ state. state ≡ state_after job.now steps.now) }
    ensures same_tree { IfOk result (λ state. state.parents ≡ job.now.tree.parents) }
    ensures same_capacities { IfOk result (λ state. (w : ℕ)
        → capacity_at state w ≡ capacity_into (network job.now) w) }
    ensures refused { IfErr result (IsUnrun job.now steps.now) }
{
    let Played { end, marks: _ } = play_steps(alloc, job, steps)?;
    Ok(end)
}
