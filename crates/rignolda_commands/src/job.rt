//! The job that some bytes are, by their value, and whether its links can begin.

ghost use Rattle.std.specs.Prelude.{◌≡◌, ◌≢◌, List, Ok, Err, IfErr, IfOk, OnOk, None, Some};
ghost use Rattle.std.specs.Prelude.{false, option_map, MatchResult};
ghost use Rattle.rignolda_commands.specs.Begun.{IsBegunLink, IsBegunUnscheduled};
ghost use Rattle.serde_json.specs.Data.{Data};
ghost use Rattle.serde_json.specs.View.{view};
ghost use Rattle.rignolda_scenario.specs.Scenarios.{scenario};
ghost use Rattle.stab_job.specs.JobValues.{network};
ghost use Rattle.stab_job.specs.Jobs.{job};
ghost use Rattle.stab_job.specs.Parts.{SameMembers};
ghost use Rattle.stab_job.specs.Unscheduled.{IsUnscheduled};
ghost use Rattle.stab_json.specs.Values.{value_of};
ghost use Rattle.stab_script.specs.LinkJobs.{link_job};
ghost use Rattle.rignolda_commands.specs.Unanswered.{IsUnanswered};
ghost use Rattle.stab_treecore.specs.Network.{IsNetwork};
ghost use Rattle.stab_treecore.specs.Refusals.{IsScheduleReason};
ghost use Rattle.stab_treecore.specs.declared.event.TreeEvent.{TreeEvent};

use rignolda_scenario::{Scenario, ScenarioFault, scenario_of_steps, scenario_of_value};
use serde_json::Value;
use stab_core::StartFault;
use stab_job::{Job, JobFault, job_of_value, unscheduled_job_of_value};
use stab_script::{LinkJob, LinkJobFault, link_job_of_value};
use stab_task::{CliFault, Task};
use stab_treecore::{TreeStartFault, check_starts};
use std::alloc::Global;

/// Sees that each link of the job that these bytes are can begin. Otherwise the fault is that of
/// `stab tree`. It takes no memory.
#[tactic(auto, using(crate::proofs::Unscheduled::begun_unscheduled, crate::proofs::Unscheduled::unbegun))]
pub(crate) fn begin_job(its_job: &Job, bytes: &[u8]) -> Result<(), CliFault>
    requires { IsUnscheduled (job bytes.now) its_job.now }
    ensures begun { OnOk result (IsBegunUnscheduled bytes.now its_job.now) }
    ensures fault { IfErr result (IsUnanswered Task.Tree bytes.now) }
{
    begin(its_job)?;
    Ok(())
}

/// Sees that each link of a job can begin, whatever its schedule is. It takes no memory.
#[tactic(auto, using(stab_job::proofs::ForCallers::start_reason))]
fn begin(job: &Job) -> Result<(), TreeStartFault>
    ensures network { OnOk result (IsNetwork (network job.now)) }
    ensures refused { IfErr result (λ fault. (events : List TreeEvent)
        → IsScheduleReason job.now.params job.now.starts (network job.now) events fault) }
    ensures no_memory { IfErr result (λ fault. fault ≢ TreeStartFault.Start StartFault.Memory) }
{
    check_starts(job.params(), job.tree(), job.starts())?;
    Ok(())
}

/// The job that these bytes are, which have this value, with an empty schedule.
#[tactic(auto, using(crate::proofs::Values::unscheduled_of_value, crate::proofs::Values::no_job))]
pub(crate) fn unscheduled_job_of(
    alloc: Global,
    value: Option<&Value>,
    bytes: &[u8],
) -> Result<Job, JobFault>
    requires { option_map (λ lent. view lent.now) value ≡ value_of bytes.now }
    ensures job { MatchResult result
        (λ its_job. IsUnscheduled (job bytes.now) its_job)
        (λ fault. fault ≢ JobFault.Memory → job bytes.now ≡ Err fault) }
{
    match value {
        Some(value) => unscheduled_job_of_value(alloc, value),
        None => Err(JobFault::Json),
    }
}

/// The job that these bytes are, which have this value, with its schedule.
#[tactic(auto, using(crate::proofs::Values::job_of_their_value, crate::proofs::Values::no_job))]
pub(crate) fn job_of(alloc: Global, value: Option<&Value>, bytes: &[u8]) -> Result<Job, JobFault>
    requires { option_map (λ lent. view lent.now) value ≡ value_of bytes.now }
    ensures job { MatchResult result
        (λ its_job. job bytes.now ≡ Ok its_job)
        (λ fault. fault ≢ JobFault.Memory → job bytes.now ≡ Err fault) }
{
    match value {
        Some(value) => job_of_value(alloc, value),
        None => Err(JobFault::Json),
    }
}

/// Sees that the link of the link job that these bytes are can begin. Otherwise the fault is that of
/// `stab link`. It takes no memory.
pub(crate) fn begin_link_job(its_job: &LinkJob, bytes: &[u8]) -> Result<(), CliFault>
    requires { link_job bytes.now ≡ Ok its_job.now }
    ensures begun { OnOk result (IsBegunLink bytes.now its_job.now) }
    ensures fault { IfErr result (IsUnanswered (Task.Link false) bytes.now) }
{
    its_job.start.check(its_job.params)?;
    Ok(())
}

/// The link job that these bytes mean, which have this value, or the first check that they fail;
/// memory may be refused before a later check. The bytes are not read again.
#[tactic(auto, using(crate::proofs::Values::same_link_job, crate::proofs::Values::no_link_job))]
pub(crate) fn link_job_of(
    alloc: Global,
    value: Option<Value>,
    bytes: &[u8],
) -> Result<LinkJob, LinkJobFault>
    requires { option_map view value ≡ value_of bytes.now }
    ensures job { MatchResult result
        (λ job. link_job bytes.now ≡ Ok job)
        (λ fault. fault ≢ LinkJobFault.Memory → link_job bytes.now ≡ Err fault) }
{
    match value {
        Some(value) => link_job_of_value(alloc, value),
        None => Err(LinkJobFault::Json),
    }
}

/// The scenario that these bytes are, which have this value, or the first check that they fail;
/// memory may be refused before a later check.
#[tactic(auto, using(crate::proofs::Values::same_scenario, crate::proofs::Values::no_scenario))]
pub(crate) fn scenario_of(
    alloc: Global,
    value: Option<&Value>,
    bytes: &[u8],
) -> Result<Scenario, ScenarioFault>
    requires { option_map (λ lent. view lent.now) value ≡ value_of bytes.now }
    ensures scenario { MatchResult result
        (λ its_scenario. scenario bytes.now ≡ Ok its_scenario)
        (λ fault. fault ≢ ScenarioFault.Memory → scenario bytes.now ≡ Err fault) }
{
    match value {
        Some(value) => scenario_of_value(alloc, value),
        None => Err(ScenarioFault::Job(JobFault::Json)),
    }
}

/// The scenario that these bytes are, by the job that was read of them beside these members.
#[tactic(auto, using(crate::proofs::Values::scenario_by_steps))]
pub(crate) fn scenario_beside(
    alloc: Global,
    bytes: &[u8],
    its_job: Job,
    members: &Value,
) -> Result<Scenario, ScenarioFault>
    requires job { IsUnscheduled (job bytes.now) its_job }
    requires members { (d : Data) × (value_of bytes.now ≡ Some d) × SameMembers d (view members.now) }
    ensures scenario { MatchResult result
        (λ its_scenario. scenario bytes.now ≡ Ok its_scenario)
        (λ fault. fault ≢ ScenarioFault.Memory → scenario bytes.now ≡ Err fault) }
{
    scenario_of_steps(alloc, its_job, members)
}
