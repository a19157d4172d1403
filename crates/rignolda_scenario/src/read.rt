ghost use Rattle.std.specs.Prelude.{◌≡◌, ◌≢◌, MatchResult, Ok, Err, IfOk, IfSome, option_map};
ghost use Rattle.serde_json.specs.View.{view, items_view};
ghost use Rattle.stab_job.specs.Jobs.{job};
ghost use Rattle.stab_job.specs.Unscheduled.{IsUnscheduled};
ghost use Rattle.rignolda_scenario.specs.Scenarios.{listed_steps, numbered, scenario, steps_after};
ghost use Rattle.rignolda_scenario.specs.Scenarios.{scenario_of_data, steps_of, steps_of_bytes};
ghost use Rattle.rignolda_scenario.specs.Scenarios.{with_steps_of};

use crate::entry::read_step;
use crate::fault::{ScenarioFault, StepFault};
use crate::finder::NodeFinder;
use crate::step::Step;
use crate::stream::StepList;
use serde_json::Value;
use stab_frames::{Params, Sequence};
use stab_job::{
    Job, JobFault, read_plain_job_beside, read_unscheduled_job, unscheduled_job_of_value,
};
use std::alloc::{AllocError, Global};

/// A job of a tree, and the steps that happen to it.
#[derive(Debug)]
pub struct Scenario {
    /// The job, whose scripts no step looks at. No step looks at its schedule either, so where
    /// bytes are read it is empty.
    pub job: Job,
    /// The steps, in their order.
    pub steps: Sequence<Step>,
}

impl Drop for Scenario {
    fn drop(self) {
        let Scenario { job: _, steps: _ } = self;
    }
}

impl Scenario {
    /// Its job and its steps.
    pub(crate) fn into_parts(self) -> (Job, Sequence<Step>)
        ensures job { result.0 ≡ self.job }
        ensures steps { result.1 ≡ self.steps }
    {
        let Scenario { job, steps } = self;
        (job, steps)
    }
}

/// The scenario that these bytes mean, or the first check that they fail; memory may be refused
/// before a later check.
pub fn read_scenario(alloc: Global, bytes: &[u8]) -> Result<Scenario, ScenarioFault>
    ensures scenario { MatchResult result
        (λ its_scenario. scenario bytes.now ≡ Ok its_scenario)
        (λ fault. fault ≢ ScenarioFault.Memory → scenario bytes.now ≡ Err fault) }
{
    match read_plain_scenario(alloc, bytes) {
        Ok(Some(scenario)) => Ok(scenario),
        Ok(None) => read_scenario_by_value(alloc, bytes),
        Err(_) => Err(ScenarioFault::Memory),
    }
}

/// The scenario that these bytes mean, where they have the plain form and pass each check; nothing
/// is said of them where there is none.
fn read_plain_scenario(alloc: Global, bytes: &[u8]) -> Result<Option<Scenario>, AllocError>
    ensures { IfOk result (λ found. IfSome found (λ its_scenario.
        scenario bytes.now ≡ Ok its_scenario)) }
{
    let Some((job, _, steps)) = read_plain_job_beside::<StepList>(alloc, bytes, false)? else {
        return Ok(None);
    };
    let Some(steps) = steps else {
        return Ok(None);
    };
    let Some(steps) = steps.into_steps(alloc, job.tree(), job.params())? else {
        return Ok(None);
    };
    Ok(Some(Scenario { job, steps }))
}

/// The same, read by the value of the steps.
#[tactic(auto, using(crate::proofs::Unscheduled::by_its_steps))]
fn read_scenario_by_value(alloc: Global, bytes: &[u8]) -> Result<Scenario, ScenarioFault>
    ensures scenario { MatchResult result
        (λ its_scenario. scenario bytes.now ≡ Ok its_scenario)
        (λ fault. fault ≢ ScenarioFault.Memory → scenario bytes.now ≡ Err fault) }
{
    let (job, members) = read_members(alloc, bytes)?;
    scenario_of_steps(alloc, job, &members)
}

/// The scenario that this value means, or the first check that it fails; memory may be refused
/// before a later check.
#[tactic(auto, using(crate::proofs::Unscheduled::value_by_its_steps))]
pub fn scenario_of_value(alloc: Global, value: &Value) -> Result<Scenario, ScenarioFault>
    ensures scenario { MatchResult result
        (λ its_scenario. scenario_of_data (view value.now) ≡ Ok its_scenario)
        (λ fault. fault ≢ ScenarioFault.Memory
        → scenario_of_data (view value.now) ≡ Err fault) }
{
    let job = unscheduled_job_of_value(alloc, value)?;
    scenario_of_steps(alloc, job, value)
}

/// The scenario of this job with the steps of a value, or the first check that they fail; memory
/// may be refused before a later check.
pub fn scenario_of_steps(alloc: Global, job: Job, value: &Value) -> Result<Scenario, ScenarioFault>
    ensures scenario { MatchResult result
        (λ its_scenario. with_steps_of job (view value.now) ≡ Ok its_scenario)
        (λ fault. fault ≢ ScenarioFault.Memory
        → with_steps_of job (view value.now) ≡ Err fault) }
{
    let steps = steps_of_value(alloc, &job, value)?;
    Ok(Scenario { job, steps })
}

/// The job that these bytes mean, without its schedule, or the first check that they fail; and a
/// value that has their steps.
fn read_members(alloc: Global, bytes: &[u8]) -> Result<(Job, Value), JobFault>
    ensures job { MatchResult result
        (λ read. IsUnscheduled (job bytes.now) read.0)
        (λ fault. fault ≢ JobFault.Memory → job bytes.now ≡ Err fault) }
    ensures steps { IfOk result (λ read.
        steps_of_bytes read.0 bytes.now ≡ steps_of read.0 (view read.1)) }
{
    let read = read_unscheduled_job(alloc, bytes)?;
    Ok(read)
}

/// The list of steps of a value.
fn listed_steps<'v>(value: &'v Value) -> Option<&'v [Value]>
    ensures { option_map (λ list. items_view list.now) result ≡ listed_steps (view value.now) }
{
    Some(value.get("steps")?.as_array()?.as_slice())
}

/// The steps of a value, for a job.
fn steps_of_value(alloc: Global, job: &Job, value: &Value) -> Result<Sequence<Step>, ScenarioFault>
    ensures { MatchResult result
        (λ steps. steps_of job.now (view value.now) ≡ Ok steps)
        (λ fault. fault ≢ ScenarioFault.Memory → steps_of job.now (view value.now) ≡ Err fault) }
{
    match listed_steps(value) {
        Some(values) => {
            let finder = NodeFinder::new(job.tree());
            steps_of_values(alloc, &finder, job.params(), values)
        }
        None => Err(ScenarioFault::Steps),
    }
}

/// The step of this number that a value means, of a tree whose links have these parameters.
fn numbered_step(
    alloc: Global,
    finder: &NodeFinder<'_>,
    params: &[Params],
    number: u64,
    value: &Value,
) -> Result<Step, ScenarioFault>
    ensures { MatchResult result
        (λ step. numbered finder.now params.now number (view value.now) ≡ Ok step)
        (λ fault. fault ≢ ScenarioFault.Memory
        → numbered finder.now params.now number (view value.now) ≡ Err fault) }
{
    match read_step(alloc, finder, params, value) {
        Ok(step) => Ok(step),
        Err(StepFault::Memory) => Err(ScenarioFault::Memory),
        Err(fault) => Err(ScenarioFault::Step(number, fault)),
    }
}

/// The steps that these values mean of a tree whose links have these parameters, or the fault of
/// the first that means none.
#[tactic(auto, using(crate::proofs::Stepwise::none_before, crate::proofs::Stepwise::no_step_there))]
fn steps_of_values(
    alloc: Global,
    finder: &NodeFinder<'_>,
    params: &[Params],
    values: &[Value],
) -> Result<Sequence<Step>, ScenarioFault>
    ensures { MatchResult result
        (λ steps. steps_after finder.now params.now 0 (items_view values.now) ≡ Ok steps)
        (λ fault. fault ≢ ScenarioFault.Memory
        → steps_after finder.now params.now 0 (items_view values.now) ≡ Err fault) }
{
    let mut steps = Sequence::new(alloc);
    let _total = values.len();
    for value in values {
        let number = steps.len() as u64 + 1;
        let step = numbered_step(alloc, finder, params, number, value)?;
        steps.push(step)?;
    }
    Ok(steps)
}
