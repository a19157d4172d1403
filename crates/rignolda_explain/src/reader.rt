ghost use Rattle.std.specs.Prelude.{◌≡◌, ◌≢◌, ◌↔◌, ℕ, All, List, Some, None, is_some};
ghost use Rattle.std.specs.Prelude.{option_map, IfOk, IsTrue, MatchOption};
ghost use Rattle.serde_json.specs.View.{view};
ghost use Rattle.stab_core.specs.LinkSetup.{CanBegin};
ghost use Rattle.stab_job.specs.JobValues.{network};
ghost use Rattle.stab_job.specs.Jobs.{job_of_data};
ghost use Rattle.stab_json.specs.Values.{value_of};
ghost use Rattle.stab_script.specs.LinkJobs.{link_job_of_data};
ghost use Rattle.stab_treecore.specs.Refusals.{IsFirstFault, NamesLink};
ghost use Rattle.rignolda_explain.specs.Kinds.{chosen, kind_of};
ghost use Rattle.rignolda_explain.specs.Refusals.{refusal_of, refused};
ghost use Rattle.rignolda_explain.specs.Stops.{IsStopOf, StopsAnswer, StopsJob, StopsLinkJob};

use crate::stop::Stop;
use rignolda_findings::{Kind, Refusal};
use serde_json::Value;
use stab_core::StartFault;
use stab_job::{Job, JobFault, job_of_value};
use stab_script::{LinkJob, LinkJobFault, link_job_of_value};
use stab_treecore::{TreeStartFault, check_starts};
use std::alloc::{AllocError, Global};

/// The kind that is given, or the one that the value looks like: an object with a member `tree` is
/// a job of a tree, and everything else a link job.
pub(crate) fn chosen(given: Option<Kind>, value: Option<&Value>) -> Kind
    ensures { result ≡ chosen given (option_map (λ lent. view lent.now) value.entry) }
{
    match given {
        Some(kind) => kind,
        None => kind_of(value),
    }
}

/// The kind that a value looks like, or that bytes without a value have.
pub fn kind_of(value: Option<&Value>) -> Kind
    ensures { result ≡ kind_of (option_map (λ lent. view lent.now) value.entry) }
{
    match value {
        Some(value) if value.get("tree").is_some() => Kind::Job,
        _ => Kind::LinkJob,
    }
}

/// What the reader of a kind answers: its fault, where it refuses; and where it accepts, why the
/// job does not come to its end, if it does not.
#[derive(Clone, Copy)]
pub(crate) struct Answer {
    pub(crate) refusal: Option<Refusal>,
    pub(crate) stop: Option<Stop>,
}

/// What the reader of that kind answers to bytes of this value, or to bytes that have none; only
/// memory can be refused. The bytes are not read again.
pub(crate) fn answer_of(
    alloc: Global,
    kind: Kind,
    value: Option<Value>,
) -> Result<Answer, AllocError>
    ensures refusal { IfOk result (λ answer. (bytes : List ℕ)
        → option_map view value ≡ value_of bytes → answer.refusal ≡ refusal_of kind bytes) }
    ensures stop { IfOk result (λ answer. (bytes : List ℕ)
        → option_map view value ≡ value_of bytes → IsStopOf kind bytes answer.stop) }
{
    match (value, kind) {
        (None, _) => Ok(refused(not_json(kind))),
        (Some(value), Kind::LinkJob) => link_job_answer(alloc, value),
        (Some(value), Kind::Job) => job_answer(alloc, &value),
    }
}

/// The answer of a reader that refuses.
fn refused(refusal: Refusal) -> Answer
    ensures refusal { result.refusal ≡ Some refusal }
    ensures stop { result.stop ≡ None }
{
    Answer {
        refusal: Some(refusal),
        stop: None,
    }
}

/// The answer of a reader that accepts a job, which stops for this.
fn accepted(stop: Option<Stop>) -> Answer
    ensures refusal { result.refusal ≡ None }
    ensures stop { result.stop ≡ stop }
{
    Answer {
        refusal: None,
        stop,
    }
}

/// The fault of bytes that are no JSON.
fn not_json(kind: Kind) -> Refusal
    ensures refusal { (bytes : List ℕ) → value_of bytes ≡ None
        → refusal_of kind bytes ≡ Some result }
    ensures stop { (bytes : List ℕ) → value_of bytes ≡ None → IsStopOf kind bytes None }
{
    match kind {
        Kind::LinkJob => Refusal::LinkJob(LinkJobFault::Json),
        Kind::Job => Refusal::Job(JobFault::Json),
    }
}

/// What `read_link_job` answers to bytes of this value.
fn link_job_answer(alloc: Global, value: Value) -> Result<Answer, AllocError>
    ensures refusal { IfOk result (λ answer. answer.refusal
        ≡ refused Refusal.LinkJob (link_job_of_data (view value))) }
    ensures stop { IfOk result (λ answer.
        StopsAnswer StopsLinkJob (link_job_of_data (view value)) answer.stop) }
{
    match link_job_of_value(alloc, value) {
        Ok(job) => Ok(accepted(stop_of_link_job(&job))),
        Err(LinkJobFault::Memory) => Err(AllocError),
        Err(fault) => Ok(refused(Refusal::LinkJob(fault))),
    }
}

/// Why this link job stops, if it does.
pub(crate) fn stop_of_link_job(job: &LinkJob) -> Option<Stop>
    ensures { StopsLinkJob job.now result }
{
    match job.start.check(job.params) {
        Ok(()) => None,
        Err(fault) => Some(Stop::Start(fault)),
    }
}

/// What `read_job` answers to bytes of this value.
fn job_answer(alloc: Global, value: &Value) -> Result<Answer, AllocError>
    ensures refusal { IfOk result (λ answer. answer.refusal
        ≡ refused Refusal.Job (job_of_data (view value.now))) }
    ensures stop { IfOk result (λ answer.
        StopsAnswer StopsJob (job_of_data (view value.now)) answer.stop) }
{
    match job_of_value(alloc, value) {
        Ok(job) => Ok(accepted(stop_of_job(&job))),
        Err(JobFault::Memory) => Err(AllocError),
        Err(fault) => Ok(refused(Refusal::Job(fault))),
    }
}

/// Why this job of a tree stops, if it does.
pub(crate) fn stop_of_job(job: &Job) -> Option<Stop>
    ensures { StopsJob job.now result }
{
    if let Some(fault) = fault_of_starts(job) {
        Some(Stop::Start(fault))
    } else if are_on_links(job) {
        None
    } else {
        Some(Stop::Step)
    }
}

/// The fault of the first link of a job that cannot begin, if there is one.
fn fault_of_starts(job: &Job) -> Option<StartFault>
    ensures { MatchOption result
        (All CanBegin (network job.now).links)
        (λ fault. IsFirstFault (network job.now).links fault × (fault ≢ StartFault.Memory)) }
{
    match check_starts(job.params(), job.tree(), job.starts()) {
        Ok(()) => None,
        Err(TreeStartFault::Start(fault)) => Some(fault),
        Err(TreeStartFault::StartCount | TreeStartFault::Step(_)) => unreachable!(),
    }
}

/// Whether each step of a job's schedule is on a link.
fn are_on_links(job: &Job) -> bool
    ensures { IsTrue result ↔ All (NamesLink job.now.tree.parents) job.now.schedule }
{
    let tree = job.tree();
    job.schedule()
        .iter()
        .all(|step| tree.link_place(step.child).is_some())
}
