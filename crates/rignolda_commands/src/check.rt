//! The command `check`: whether a report, or the text of a link, obeys the laws of its job.

ghost use Rattle.std.specs.Prelude.{◌≡◌, ◌≢◌, ℕ, List, string_bytes, Err, IfErr, IfOk, IfSome};
ghost use Rattle.std.specs.Prelude.{Some, Ok, codes, option_map};
ghost use Rattle.serde_json.specs.Find.{get};
ghost use Rattle.serde_json.specs.View.{view};
ghost use Rattle.stab_job.specs.Jobs.{job};
ghost use Rattle.stab_job.specs.Unscheduled.{IsUnscheduled};
ghost use Rattle.stab_json.specs.Values.{value_of};
ghost use Rattle.stab_script.specs.LinkJobs.{link_job};
ghost use Rattle.std.specs.Io.KnownBytes.{Appends, Keeps};
ghost use Rattle.rignolda_commands.specs.Commands.{IsFaultOf, Check};
ghost use Rattle.rignolda_commands.specs.Checked.{IsChecked, IsCheckedAs, IsCheckedLink};
ghost use Rattle.rignolda_commands.specs.Checked.{IsCheckedTree, IsUnchecked, IsUncheckedAs};
ghost use Rattle.rignolda_commands.specs.Checked.{IsUncheckedLink, IsUncheckedTree, IsUnloadedReport};
ghost use Rattle.rignolda_commands.specs.Checked.{given_backlogs};

use crate::fault::CommandFault;
use crate::job::{begin_job, begin_link_job, link_job_of, unscheduled_job_of};
use crate::report::{check_job, check_link_text};
use rignolda_explain::kind_of;
use rignolda_findings::{Kind, seems_a_link_job};
use serde_json::Value;
use stab_job::{Job, JobFault, read_plain_job};
use stab_json::read_value;
use stab_script::{LinkJob, read_plain_link_job};
use stab_task::{CliFault, load, write_text};
use std::alloc::Global;
use std::io::{Read, Write};

/// Reads a job and then a report, and writes whether the report obeys the laws of the network of
/// the job, or which part of it is broken first. Of a link job it does the same of the text of a
/// link. It answers true exactly where the report, or the link, obeys. Where there is no verdict,
/// nothing is written unless the fault is `Write`.
pub fn act_check<J: Read, R: Read, W: Write>(
    alloc: Global,
    job: &mut J,
    report: &mut R,
    writer: &mut W,
) -> Result<bool, CommandFault>
    ensures verdict { IfOk result (λ obeys. IfSome (J.remaining job.old) (λ input.
        IfSome (R.remaining report.old) (λ text. (answer : List ℕ)
        × IsChecked input text obeys answer
        × Appends (W.contents writer.old) (W.contents writer.new) answer))) }
    ensures fault { IfErr result (λ fault. fault ≢ CommandFault.Job CliFault.Write
        → IfSome (J.remaining job.old) (λ input.
        IsUnchecked input (R.remaining report.old) fault)) }
    ensures among { IfErr result (IsFaultOf Check) }
    ensures unloaded { (fault : CliFault) → result ≡ Err (CommandFault.Unloaded fault)
        → IsUnloadedReport (R.remaining report.old) fault }
    ensures nothing { IfErr result (λ fault. fault ≢ CommandFault.Job CliFault.Write
        → Keeps (W.contents writer.old) (W.contents writer.new)) }
{
    let (text, obeys) = check_input(alloc, job, report)?;
    write_text(writer, &text)?;
    Ok(obeys)
}

/// What is said of the report that the second reader gives, and whether it obeys.
#[tactic(auto, using(crate::proofs::Unread::whatever_is_read, crate::proofs::Unread::memory_is_refused, crate::proofs::Unread::unloaded_as_told, crate::proofs::Among::of_check))]
fn check_input<J: Read, R: Read>(
    alloc: Global,
    job: &mut J,
    report: &mut R,
) -> Result<(String, bool), CommandFault>
    ensures checked { IfOk result (λ said. IfSome (J.remaining job.old) (λ input.
        IfSome (R.remaining report.old) (λ text.
        IsChecked input text said.1 (string_bytes said.0)))) }
    ensures fault { IfErr result (λ fault. IfSome (J.remaining job.old) (λ input.
        IsUnchecked input (R.remaining report.old) fault)) }
    ensures among { IfErr result (IsFaultOf Check) }
    ensures unloaded { (fault : CliFault) → result ≡ Err (CommandFault.Unloaded fault)
        → IsUnloadedReport (R.remaining report.old) fault }
{
    let input = load(alloc, job)?;
    let text = match load(alloc, report) {
        Ok(text) => text,
        Err(CliFault::Memory) => return Err(CommandFault::Job(CliFault::Memory)),
        Err(fault) => return Err(CommandFault::Unloaded(fault)),
    };
    let said = check_bytes(alloc, &input, &text)?;
    Ok(said)
}

/// What is said of the report or the link that this text is, of the job that these bytes are. The job
/// is read off the text, as one of the kind that it seems to be; and where that fails, all that is
/// said comes from its value.
fn check_bytes(alloc: Global, bytes: &[u8], text: &[u8]) -> Result<(String, bool), CommandFault>
    ensures checked { IfOk result (λ said.
        IsChecked bytes.now text.now said.1 (string_bytes said.0)) }
    ensures fault { IfErr result (IsUnchecked bytes.now (Some text.now)) }
{
    if seems_a_link_job(bytes) {
        check_link_first(alloc, bytes, text)
    } else {
        check_tree_first(alloc, bytes, text)
    }
}

/// The same, where the bytes are read as a link job first, which has no other members.
#[tactic(auto, using(crate::proofs::ReadAs::checked_as_a_link, crate::proofs::ReadAs::unchecked_as_a_link))]
fn check_link_first(
    alloc: Global,
    bytes: &[u8],
    text: &[u8],
) -> Result<(String, bool), CommandFault>
    ensures checked { IfOk result (λ said.
        IsChecked bytes.now text.now said.1 (string_bytes said.0)) }
    ensures fault { IfErr result (IsUnchecked bytes.now (Some text.now)) }
{
    match read_plain_link_job(alloc, bytes)? {
        Some(job) => Ok(check_link_job(alloc, &job, bytes, text)?),
        None => check_by_value(alloc, bytes, text),
    }
}

/// The same, where the bytes are read as a job of a tree first, beside its other members.
#[tactic(auto, using(crate::proofs::ReadAs::checked_as_a_tree, crate::proofs::ReadAs::unchecked_as_a_tree, crate::proofs::Unscheduled::backlogs_beside))]
fn check_tree_first(
    alloc: Global,
    bytes: &[u8],
    text: &[u8],
) -> Result<(String, bool), CommandFault>
    ensures checked { IfOk result (λ said.
        IsChecked bytes.now text.now said.1 (string_bytes said.0)) }
    ensures fault { IfErr result (IsUnchecked bytes.now (Some text.now)) }
{
    match read_plain_job(alloc, bytes, false)? {
        Some((job, members)) => Ok(check_tree_job(alloc, &job, &members, bytes, text)?),
        None => check_by_value(alloc, bytes, text),
    }
}

/// The same, by the value of the bytes.
fn check_by_value(alloc: Global, bytes: &[u8], text: &[u8]) -> Result<(String, bool), CommandFault>
    ensures checked { IfOk result (λ said.
        IsChecked bytes.now text.now said.1 (string_bytes said.0)) }
    ensures fault { IfErr result (IsUnchecked bytes.now (Some text.now)) }
{
    let value = read_value(alloc, bytes)?;
    let kind = kind_of(value.as_ref());
    let said = check_kind(alloc, kind, value, bytes, text)?;
    Ok(said)
}

/// The same of the job of this kind that these bytes are, which have this value.
fn check_kind(
    alloc: Global,
    kind: Kind,
    value: Option<Value>,
    bytes: &[u8],
    text: &[u8],
) -> Result<(String, bool), CommandFault>
    requires { option_map view value ≡ value_of bytes.now }
    ensures checked { IfOk result (λ said.
        IsCheckedAs kind bytes.now text.now said.1 (string_bytes said.0)) }
    ensures fault { IfErr result (IsUncheckedAs kind bytes.now (Some text.now)) }
{
    match kind {
        Kind::LinkJob => check_link(alloc, value, bytes, text),
        Kind::Job => check_tree(alloc, value, bytes, text),
    }
}

/// What is said of the link that this text is, of the link job that these bytes are, which have
/// this value.
fn check_link(
    alloc: Global,
    value: Option<Value>,
    bytes: &[u8],
    text: &[u8],
) -> Result<(String, bool), CommandFault>
    requires { option_map view value ≡ value_of bytes.now }
    ensures checked { IfOk result (λ said.
        IsCheckedLink bytes.now text.now said.1 (string_bytes said.0)) }
    ensures fault { IfErr result (IsUncheckedLink bytes.now (Some text.now)) }
{
    let job = link_job_of(alloc, value, bytes).map_err(CliFault::LinkJob)?;
    let said = check_link_job(alloc, &job, bytes, text)?;
    Ok(said)
}

/// The same of the link job that these bytes are.
fn check_link_job(
    alloc: Global,
    job: &LinkJob,
    bytes: &[u8],
    text: &[u8],
) -> Result<(String, bool), CommandFault>
    requires { link_job bytes.now ≡ Ok job.now }
    ensures checked { IfOk result (λ said.
        IsCheckedLink bytes.now text.now said.1 (string_bytes said.0)) }
    ensures fault { IfErr result (IsUncheckedLink bytes.now (Some text.now)) }
{
    begin_link_job(job, bytes)?;
    let said = check_link_text(alloc, job, text)?;
    Ok(said)
}

/// What is said of the report that this text is, of the job of a tree that these bytes are, which
/// have this value.
#[tactic(auto, using(crate::proofs::Values::no_job))]
fn check_tree(
    alloc: Global,
    value: Option<Value>,
    bytes: &[u8],
    text: &[u8],
) -> Result<(String, bool), CommandFault>
    requires { option_map view value ≡ value_of bytes.now }
    ensures checked { IfOk result (λ said.
        IsCheckedTree bytes.now text.now said.1 (string_bytes said.0)) }
    ensures fault { IfErr result (IsUncheckedTree bytes.now (Some text.now)) }
{
    let Some(value) = value else {
        return Err(CommandFault::Job(CliFault::Job(JobFault::Json)));
    };
    let said = check_value(alloc, &value, bytes, text)?;
    Ok(said)
}

/// The same by the value of the bytes.
fn check_value(
    alloc: Global,
    value: &Value,
    bytes: &[u8],
    text: &[u8],
) -> Result<(String, bool), CommandFault>
    requires { Some (view value.now) ≡ value_of bytes.now }
    ensures checked { IfOk result (λ said.
        IsCheckedTree bytes.now text.now said.1 (string_bytes said.0)) }
    ensures fault { IfErr result (IsUncheckedTree bytes.now (Some text.now)) }
{
    match unscheduled_job_of(alloc, Some(value), bytes) {
        Ok(job) => check_tree_job(alloc, &job, value, bytes, text),
        Err(fault) => Err(CommandFault::Job(CliFault::Job(fault))),
    }
}

/// What is said of the report that this text is, of the job of a tree that these bytes are, whose
/// backlogs are among these members.
#[tactic(auto, using(crate::proofs::Unscheduled::checked_by_whole))]
fn check_tree_job(
    alloc: Global,
    its_job: &Job,
    members: &Value,
    bytes: &[u8],
    text: &[u8],
) -> Result<(String, bool), CommandFault>
    requires job { IsUnscheduled (job bytes.now) its_job.now }
    requires backlogs { given_backlogs (value_of bytes.now)
        ≡ get (codes "backlogs") (view members.now) }
    ensures checked { IfOk result (λ said.
        IsCheckedTree bytes.now text.now said.1 (string_bytes said.0)) }
    ensures fault { IfErr result (IsUncheckedTree bytes.now (Some text.now)) }
{
    begin_job(its_job, bytes)?;
    let said = check_job(alloc, its_job, members, bytes, text)?;
    Ok(said)
}
