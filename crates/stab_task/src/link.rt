ghost use Rattle.std.specs.Prelude.{◌≡◌, ◌≢◌, ◌<◌, ◌++◌, true, false, string_bytes, length};
ghost use Rattle.std.specs.Prelude.{IfSome, IfOk, IfErr, OnOk, MatchResult, Ok, Err, None};
ghost use Rattle.stab_json.specs.Values.{value_of};
ghost use Rattle.stab_script.specs.LinkJobs.{link_job};
ghost use Rattle.stab_core.specs.Link.{IsReason, link_at};
ghost use Rattle.stab_core.specs.Replay.{IsLawful, initial, replay};
ghost use Rattle.stab_core.specs.Texts.{link_text, origins_text};
ghost use Rattle.stab_task.specs.Answers.{IsLinkAnswer, IsFault, link_answer};

use crate::command::Task;
use crate::fault::CliFault;
use stab_core::{
    Link, Origin, StartFault, Tracer, link_text, push_origins_text, run_link, run_traced,
};
use stab_script::{LinkJob, LinkJobFault, replay_plain_link_job};
use std::alloc::{AllocError, Global};

/// The text of a link job, with the origins of what it delivers where they are asked for.
///
/// The events of a job in the plain form happen as they are read, and no list of them is kept; if
/// one of its entries is no event, that is its fault. Any other job is read first: by its value at
/// once where its events had begun to happen.
pub(crate) fn answer_link(alloc: Global, with_trace: bool, bytes: &[u8]) -> Result<String, CliFault>
    ensures answer { IfOk result (λ text. IsLinkAnswer with_trace bytes.now (string_bytes text)) }
    ensures fault { IfErr result (IsFault (Task.Link with_trace) bytes.now) }
{
    let mut has_begun = false;
    let text = if with_trace {
        traced_as_read(alloc, bytes, &mut has_begun)?
    } else {
        replayed_as_read(alloc, bytes, &mut has_begun)?
    };
    match text {
        Some(text) => Ok(text),
        None => answer_read(alloc, with_trace, bytes, has_begun),
    }
}

/// The text of a link job in the plain form.
fn replayed_as_read(
    alloc: Global,
    bytes: &[u8],
    has_begun: &mut bool,
) -> Result<Option<String>, CliFault>
    ensures answer { IfOk result (λ found. IfSome found (λ text.
        IsLinkAnswer false bytes.now (string_bytes text))) }
    ensures fault { IfErr result (IsFault (Task.Link false) bytes.now) }
{
    let Some(link) = replay_plain_link_job::<Link>(alloc, bytes, has_begun)? else {
        return Ok(None);
    };
    let text = link_text(alloc, &link)?;
    Ok(Some(text))
}

/// The text of a link job in the plain form, with the origins of what it delivers.
fn traced_as_read(
    alloc: Global,
    bytes: &[u8],
    has_begun: &mut bool,
) -> Result<Option<String>, CliFault>
    ensures answer { IfOk result (λ found. IfSome found (λ text.
        IsLinkAnswer true bytes.now (string_bytes text))) }
    ensures fault { IfErr result (IsFault (Task.Link true) bytes.now) }
{
    let Some(tracer) = replay_plain_link_job::<Tracer>(alloc, bytes, has_begun)? else {
        return Ok(None);
    };
    let (link, origins) = tracer.into_parts();
    let text = text_with_origins(alloc, &link, &origins)?;
    stab_core::laws::every_replay_is_explained();
    Ok(Some(text))
}

/// The text of a link, and of the origins of what it delivered.
fn text_with_origins(alloc: Global, link: &Link, origins: &[Origin]) -> Result<String, AllocError>
    ensures { IfOk result (λ text.
        string_bytes text ≡ link_text link.now.state ++ origins_text origins.now) }
{
    let mut text = link_text(alloc, link)?;
    push_origins_text(&mut text, origins)?;
    Ok(text)
}

/// The text of a link job that is read first, with the origins where they are asked for.
fn answer_read(
    alloc: Global,
    with_trace: bool,
    bytes: &[u8],
    by_value: bool,
) -> Result<String, CliFault>
    ensures answer { IfOk result (λ text. IsLinkAnswer with_trace bytes.now (string_bytes text)) }
    ensures fault { IfErr result (IsFault (Task.Link with_trace) bytes.now) }
{
    match read_job(alloc, bytes, by_value) {
        Ok(job) => job_answer(alloc, with_trace, &job),
        Err(fault) => Err(CliFault::LinkJob(fault)),
    }
}

/// The link job that these bytes mean, or its fault: read by its value, or off the text where that
/// has the plain form. Both ways answer the same.
fn read_job(alloc: Global, bytes: &[u8], by_value: bool) -> Result<LinkJob, LinkJobFault>
    ensures job { MatchResult result
        (λ job. link_job bytes.now ≡ Ok job)
        (λ fault. fault ≢ LinkJobFault.Memory → link_job bytes.now ≡ Err fault) }
    ensures json { result ≡ Err LinkJobFault.Json → value_of bytes.now ≡ None }
    ensures memory { result ≡ Err LinkJobFault.Memory → 0 < length bytes.now }
{
    if by_value {
        stab_script::read_link_job_by_value(alloc, bytes)
    } else {
        stab_script::read_link_job(alloc, bytes)
    }
}

/// The text of a link job that was read, or the fault of its start.
fn job_answer(alloc: Global, with_trace: bool, job: &LinkJob) -> Result<String, CliFault>
    ensures text { IfOk result (λ text. string_bytes text ≡ link_answer with_trace job.now) }
    ensures lawful { OnOk result (IsLawful job.now.params job.now.start) }
    ensures refused { IfErr result (λ fault. (why : StartFault) × (fault ≡ CliFault.Start why)
        × IsReason job.now.params job.now.start why) }
{
    Ok(job_text(alloc, with_trace, job)?)
}

/// The text of a link job that was read.
fn job_text(alloc: Global, with_trace: bool, job: &LinkJob) -> Result<String, StartFault>
    ensures text { IfOk result (λ text. string_bytes text ≡ link_answer with_trace job.now) }
    ensures lawful { OnOk result (IsLawful job.now.params job.now.start) }
    ensures refused { IfErr result (IsReason job.now.params job.now.start) }
{
    if with_trace {
        return traced_text(alloc, job);
    }
    let link = replay_link(alloc, job)?;
    Ok(link_text(alloc, &link)?)
}

/// The text of a link job that was read, with the origins of what it delivers.
fn traced_text(alloc: Global, job: &LinkJob) -> Result<String, StartFault>
    ensures text { IfOk result (λ text. string_bytes text ≡ link_answer true job.now) }
    ensures lawful { OnOk result (IsLawful job.now.params job.now.start) }
    ensures refused { IfErr result (IsReason job.now.params job.now.start) }
{
    let (link, origins) = run_traced(alloc, job.params, &job.start, job.events.as_slice())?;
    Ok(text_with_origins(alloc, &link, &origins)?)
}

/// The link of a job after its events.
fn replay_link(alloc: Global, job: &LinkJob) -> Result<Link, StartFault>
    ensures replay { IfOk result (λ link. link ≡ link_at job.now.params
        (replay job.now.params (initial job.now.start) job.now.events)) }
    ensures lawful { OnOk result (IsLawful job.now.params job.now.start) }
    ensures refused { IfErr result (IsReason job.now.params job.now.start) }
{
    run_link(alloc, job.params, &job.start, job.events.as_slice())
}
