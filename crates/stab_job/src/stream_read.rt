ghost use Rattle.std.specs.Prelude.{◌≡◌, ◌≢◌, ◌<◌, Bool, true, length, Some, None, Ok, Err};
ghost use Rattle.std.specs.Prelude.{MatchResult, IfErr, IfOk, IfSome, OnErr};
ghost use Rattle.serde_json.specs.Data.{Data, Members, object};
ghost use Rattle.serde_json.specs.View.{view, members_view};
ghost use Rattle.stab_json.specs.Values.{value_of};
ghost use Rattle.stab_job.specs.Jobs.{job, job_of_data};
ghost use Rattle.stab_job.specs.Refusals.{is_of_value};
ghost use Rattle.stab_job.specs.Parts.{HasJobParts, SameBeside, SameMembers};
ghost use Rattle.stab_job.specs.Unscheduled.{IsKeptOf, IsUnscheduled, unscheduled};

use crate::beside::{Beside, Nothing};
use crate::fault::JobFault;
use crate::job::Job;
use crate::read::job_of_value;
use crate::stream_members::{JobParts, read_text};
use crate::stream_schedule::Schedule;
use serde_json::{Map, Value};
use stab_frames::Sequence;
use stab_json::read_value;
use stab_script::ScriptFault;
use stab_tree::TreeFault;
use std::alloc::{AllocError, Global};

/// The job that these bytes mean, or the first check that they fail; memory may be refused before a
/// later check.
pub fn read_job(alloc: Global, bytes: &[u8]) -> Result<Job, JobFault>
    ensures job { MatchResult result
        (λ its_job. job bytes.now ≡ Ok its_job)
        (λ fault. fault ≢ JobFault.Memory → job bytes.now ≡ Err fault) }
    // `Json` comes only where the bytes have no value.
    ensures json { result ≡ Err JobFault.Json → value_of bytes.now ≡ None }

    // Refused memory is reported as that alone, and only where there is at least one byte.
    ensures memory { result ≡ Err JobFault.Memory → 0 < length bytes.now }
    ensures tree_memory { result ≢ Err (JobFault.Tree TreeFault.Memory) }
    ensures script_memory { result ≢ Err (JobFault.Script ScriptFault.Memory) }
{
    match read_plain_job(alloc, bytes, true) {
        Ok(Some((job, _))) => Ok(job),
        Ok(None) => crate::read::read_job_by_value(alloc, bytes),
        Err(_) => Err(JobFault::Memory),
    }
}

/// The job that these bytes mean, but for the steps of its schedule, and a value with the members
/// that they have, where that of the name `schedule` may be missing; or the first check that they
/// fail. Each step is looked at, and none is kept. So the job has an empty schedule, and there is
/// one only where the bytes are a job with the schedule that they have. Memory may be refused before
/// a later check.
pub fn read_unscheduled_job(alloc: Global, bytes: &[u8]) -> Result<(Job, Value), JobFault>
    ensures job { MatchResult result
        (λ read. IsUnscheduled (job bytes.now) read.0)
        (λ fault. fault ≢ JobFault.Memory → job bytes.now ≡ Err fault) }
    ensures members { IfOk result (λ read. (d : Data)
        × (value_of bytes.now ≡ Some d) × SameMembers d (view read.1)) }
    // `Json` comes only where the bytes have no value.
    ensures json { result ≡ Err JobFault.Json → value_of bytes.now ≡ None }

    // Refused memory is reported as that alone, and only where there is at least one byte.
    ensures memory { result ≡ Err JobFault.Memory → 0 < length bytes.now }
    ensures tree_memory { result ≢ Err (JobFault.Tree TreeFault.Memory) }
    ensures script_memory { result ≢ Err (JobFault.Script ScriptFault.Memory) }
{
    match read_plain_job(alloc, bytes, false) {
        Ok(Some(read)) => Ok(read),
        Ok(None) => unscheduled_by_value(alloc, bytes),
        Err(_) => Err(JobFault::Memory),
    }
}

/// The same, and what was read of the member that the caller reads, where the text is plain and has
/// it; where nothing was, the value has it.
pub fn read_unscheduled_job_beside<M: Beside>(
    alloc: Global,
    bytes: &[u8],
) -> Result<(Job, Value, Option<M::Read>), JobFault>
    ensures job { MatchResult result
        (λ read. IsUnscheduled (job bytes.now) read.0)
        (λ fault. fault ≢ JobFault.Memory → job bytes.now ≡ Err fault) }
    ensures members { IfOk result (λ read. (d : Data)
        × (value_of bytes.now ≡ Some d)
        × SameBeside M.its_name M.meaning d (view read.1) read.2) }
    ensures json { result ≡ Err JobFault.Json → value_of bytes.now ≡ None }
    ensures memory { result ≡ Err JobFault.Memory → 0 < length bytes.now }
    ensures tree_memory { result ≢ Err (JobFault.Tree TreeFault.Memory) }
    ensures script_memory { result ≢ Err (JobFault.Script ScriptFault.Memory) }
{
    match read_plain_job_beside::<M>(alloc, bytes, false) {
        Ok(Some(read)) => Ok(read),
        Ok(None) => {
            let (job, members) = unscheduled_by_value(alloc, bytes)?;
            Ok((job, members, None))
        }
        Err(_) => Err(JobFault::Memory),
    }
}

/// The same, read as one value.
#[tactic(auto, using(stab_json::proofs::ForCallers::some_bytes, crate::proofs::ForCallers::unscheduled_by_value))]
fn unscheduled_by_value(alloc: Global, bytes: &[u8]) -> Result<(Job, Value), JobFault>
    ensures job { MatchResult result
        (λ read. IsUnscheduled (job bytes.now) read.0)
        (λ fault. fault ≢ JobFault.Memory → job bytes.now ≡ Err fault) }
    ensures members { IfOk result (λ read. (d : Data)
        × (value_of bytes.now ≡ Some d) × SameMembers d (view read.1)) }
    // `Json` comes only where the bytes have no value.
    ensures json { result ≡ Err JobFault.Json → value_of bytes.now ≡ None }

    // Refused memory is reported as that alone, and only where there is at least one byte.
    ensures memory { result ≡ Err JobFault.Memory → 0 < length bytes.now }
    ensures tree_memory { result ≢ Err (JobFault.Tree TreeFault.Memory) }
    ensures script_memory { result ≢ Err (JobFault.Script ScriptFault.Memory) }
{
    let Some(value) = read_value(alloc, bytes)? else {
        return Err(JobFault::Json);
    };
    let job = unscheduled_job_of_value(alloc, &value)?;
    Ok((job, value))
}

/// The job that this value means, with an empty schedule, or the first check that it fails; memory
/// may be refused before a later check. There is one only where the value is a job with the
/// schedule that it has.
pub fn unscheduled_job_of_value(alloc: Global, value: &Value) -> Result<Job, JobFault>
    ensures job { MatchResult result
        (λ its_job. IsUnscheduled (job_of_data (view value.now)) its_job)
        (λ fault. fault ≢ JobFault.Memory → job_of_data (view value.now) ≡ Err fault) }
    ensures reported { IfErr result (λ fault. is_of_value fault ≡ true) }
{
    let job = job_of_value(alloc, value)?;
    Ok(unscheduled(alloc, job))
}

/// The job with an empty schedule.
fn unscheduled(alloc: Global, job: Job) -> Job
    ensures { result ≡ unscheduled job }
{
    job.with_schedule(Sequence::new(alloc))
}

/// The job as it is, where steps are kept, and else with an empty schedule.
#[tactic(auto, using(crate::proofs::Kept::kept_as_it_is, crate::proofs::Kept::kept_without_steps))]
fn kept_job(alloc: Global, keeps: bool, job: Job) -> Job
    ensures { IsKeptOf keeps (Ok job) result }
{
    if keeps { job } else { unscheduled(alloc, job) }
}

/// The job that these bytes mean, and its members but the schedule, where they have the plain form
/// and pass each check; nothing is said of them where there is none. The steps of the schedule are
/// kept, or only counted, and then the job has an empty schedule.
pub fn read_plain_job(
    alloc: Global,
    bytes: &[u8],
    keeps: bool,
) -> Result<Option<(Job, Value)>, AllocError>
    ensures job { IfOk result (λ found. IfSome found (λ read.
        IsKeptOf keeps (job bytes.now) read.0)) }
    ensures members { IfOk result (λ found. IfSome found (λ read. (d : Data)
        × (value_of bytes.now ≡ Some d) × SameMembers d (view read.1))) }
    ensures memory { OnErr result (0 < length bytes.now) }
{
    match read_plain_job_beside::<Nothing>(alloc, bytes, keeps)? {
        Some((job, members, _)) => Ok(Some((job, members))),
        None => Ok(None),
    }
}

/// The same, and what was read of the member that the caller reads, where the text has it.
pub fn read_plain_job_beside<M: Beside>(
    alloc: Global,
    bytes: &[u8],
    keeps: bool,
) -> Result<Option<(Job, Value, Option<M::Read>)>, AllocError>
    ensures job { IfOk result (λ found. IfSome found (λ read.
        IsKeptOf keeps (job bytes.now) read.0)) }
    ensures members { IfOk result (λ found. IfSome found (λ read. (d : Data)
        × (value_of bytes.now ≡ Some d)
        × SameBeside M.its_name M.meaning d (view read.1) read.2)) }
    ensures memory { OnErr result (0 < length bytes.now) }
{
    let Ok(text) = std::str::from_utf8(bytes) else {
        return Ok(None);
    };
    let Some(parts) = read_text::<M>(alloc, text, keeps)? else {
        return Ok(None);
    };
    let JobParts {
        others,
        steps,
        beside,
    } = parts;
    let Some((job, members)) = whole_job(alloc, keeps, others, steps)? else {
        return Ok(None);
    };
    Ok(Some((job, members, beside)))
}

/// The job of these members and steps, which are kept or not, where they pass each check, and the
/// members as a value.
fn whole_job(
    alloc: Global,
    keeps: bool,
    others: Map<String, Value>,
    steps: Option<Schedule>,
) -> Result<Option<(Job, Value)>, AllocError>
    ensures job { IfOk result (λ found. IfSome found (λ read. (ms : Members)
        → HasJobParts keeps (members_view others.entries) steps ms
        → IsKeptOf keeps (job_of_data (object ms)) read.0)) }
    ensures members { IfOk result (λ found. IfSome found (λ read.
        view read.1 ≡ object (members_view others.entries))) }
{
    let members = Value::Object(others);
    let Some(job) = job_of_others(alloc, &members)? else {
        return Ok(None);
    };
    let Some(steps) = steps else {
        return Ok(Some((kept_job(alloc, keeps, job), members)));
    };
    let Some(job) = with_steps(alloc, job, steps)? else {
        return Ok(None);
    };
    Ok(Some((job, members)))
}

/// The job of the members but the schedule, where they pass each check.
fn job_of_others(alloc: Global, others: &Value) -> Result<Option<Job>, AllocError>
    ensures { IfOk result (λ found. IfSome found (λ job.
        job_of_data (view others.now) ≡ Ok job)) }
{
    match job_of_value(alloc, others) {
        Ok(job) => Ok(Some(job)),
        Err(JobFault::Memory) => Err(AllocError),
        Err(_) => Ok(None),
    }
}

/// The job of the members with their schedule, where it passes each check, by that without one. It
/// has the steps that were kept.
fn with_steps(alloc: Global, job: Job, steps: Schedule) -> Result<Option<Job>, AllocError>
    ensures { IfOk result (λ found. IfSome found (λ kept. (keeps : Bool) (others ms : Members)
        → HasJobParts keeps others (Some steps) ms → job_of_data (object others) ≡ Ok job
        → IsKeptOf keeps (job_of_data (object ms)) kept)) }
{
    let Some(events) = steps.into_events(alloc, job.tree())? else {
        return Ok(None);
    };
    Ok(Some(job.with_schedule(events)))
}
