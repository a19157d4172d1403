//! What the command `check` says of a text, once there is a job.

ghost use Rattle.std.specs.Prelude.{◌≡◌, ◌≢◌, ℕ, List, string_bytes, Err, IfErr, IfOk};
ghost use Rattle.std.specs.Prelude.{Option, Some, Ok, codes, length};
ghost use Rattle.serde_json.specs.Find.{get};
ghost use Rattle.serde_json.specs.View.{view};
ghost use Rattle.stab_json.specs.Values.{value_of};
ghost use Rattle.rignolda_commands.specs.Begun.{IsBegunLink, IsBegunUnscheduled};
ghost use Rattle.rignolda_commands.specs.Checked.{IsJudged, IsJudgedBy, IsJudgedLink};
ghost use Rattle.rignolda_commands.specs.Checked.{IsJudgedSince, IsUncheckedLink, IsUncheckedTree};
ghost use Rattle.rignolda_commands.specs.Checked.{given_backlogs};
ghost use Rattle.rignolda_since.specs.Backlogs.{backlogs};

use crate::fault::{CommandFault, unread, unread_link};
use rignolda_since::{BacklogFault, read_backlogs, verdict_since};
use rignolda_verdict::{link_verdict, read_link_report, verdict};
use serde_json::Value;
use stab_frames::{Item, Sequence};
use stab_job::Job;
use stab_report::read_text;
use stab_script::LinkJob;
use stab_task::CliFault;
use std::alloc::Global;

/// What is said of the link that this text is.
pub(crate) fn check_link_text(
    alloc: Global,
    job: &LinkJob,
    text: &[u8],
) -> Result<(String, bool), CommandFault>
    ensures checked { IfOk result (λ said.
        IsJudgedLink job.now text.now said.1 (string_bytes said.0)) }
    ensures fault { IfErr result (λ fault. (input : List ℕ) → IsBegunLink input job.now
        → IsUncheckedLink input (Some text.now) fault) }
{
    let report = match read_link_report(alloc, text) {
        Ok(report) => report,
        Err(fault) => return Err(unread_link(fault)),
    };
    let said = link_verdict(alloc, job, &report)?;
    Ok(said)
}

/// What is said of the report that this text is, of the job that these bytes are: by the backlogs
/// that are among its members, or as of a whole run.
pub(crate) fn check_job(
    alloc: Global,
    job: &Job,
    members: &Value,
    bytes: &[u8],
    text: &[u8],
) -> Result<(String, bool), CommandFault>
    requires begun { IsBegunUnscheduled bytes.now job.now }
    requires backlogs { given_backlogs (value_of bytes.now)
        ≡ get (codes "backlogs") (view members.now) }
    ensures checked { IfOk result (λ said. IsJudgedBy (given_backlogs (value_of bytes.now)) job.now
        text.now said.1 (string_bytes said.0)) }
    ensures fault { IfErr result (IsUncheckedTree bytes.now (Some text.now)) }
{
    match members.get("backlogs") {
        None => check_text(alloc, job, text),
        Some(given) => check_since(alloc, job, bytes, given, text),
    }
}

/// What is said of the report that this text is, by the backlogs that this value means.
fn check_since(
    alloc: Global,
    job: &Job,
    bytes: &[u8],
    given: &Value,
    text: &[u8],
) -> Result<(String, bool), CommandFault>
    requires begun { IsBegunUnscheduled bytes.now job.now }
    requires given { given_backlogs (value_of bytes.now) ≡ Some (view given.now) }
    ensures checked { IfOk result (λ said. IsJudgedBy (Some (view given.now)) job.now
        text.now said.1 (string_bytes said.0)) }
    ensures fault { IfErr result (IsUncheckedTree bytes.now (Some text.now)) }
{
    let lists = backlogs_of(alloc, job, bytes, given)?;
    let said = check_text_since(alloc, job, lists.as_slice(), text)?;
    Ok(said)
}

/// The backlogs of the job that these bytes are, which this value means.
#[tactic(auto, using(crate::proofs::Unscheduled::refused_backlogs))]
fn backlogs_of(
    alloc: Global,
    job: &Job,
    bytes: &[u8],
    given: &Value,
) -> Result<Sequence<Sequence<Item>>, CommandFault>
    requires begun { IsBegunUnscheduled bytes.now job.now }
    requires given { given_backlogs (value_of bytes.now) ≡ Some (view given.now) }
    ensures read { IfOk result (λ lists. backlogs job.now.tree (view given.now) ≡ Ok lists) }
    ensures per_node { IfOk result (λ lists. length lists ≡ length job.now.tree.parents) }
    ensures fault { IfErr result (λ fault. (had : Option (List ℕ))
        → IsUncheckedTree bytes.now had fault) }
{
    match read_backlogs(alloc, job.tree(), given) {
        Ok(lists) => Ok(lists),
        Err(BacklogFault::Memory) => Err(CommandFault::Job(CliFault::Memory)),
        Err(fault) => Err(CommandFault::Backlogs(fault)),
    }
}

/// What is said of the report that this text is, by these backlogs.
fn check_text_since(
    alloc: Global,
    job: &Job,
    lists: &[Sequence<Item>],
    text: &[u8],
) -> Result<(String, bool), CommandFault>
    requires per_node { length lists.now ≡ length job.now.tree.parents }
    ensures checked { IfOk result (λ said. IsJudgedSince job.now lists.now
        text.now said.1 (string_bytes said.0)) }
    ensures fault { IfErr result (λ fault. (input : List ℕ) → IsBegunUnscheduled input job.now
        → IsUncheckedTree input (Some text.now) fault) }
{
    let report = match read_text(alloc, job.tree(), text) {
        Ok(report) => report,
        Err(fault) => return Err(unread(fault)),
    };
    let said = verdict_since(alloc, job, lists, &report)?;
    Ok(said)
}

/// What is said of the report that this text is.
fn check_text(alloc: Global, job: &Job, text: &[u8]) -> Result<(String, bool), CommandFault>
    ensures checked { IfOk result (λ said. IsJudged job.now text.now said.1 (string_bytes said.0)) }
    ensures fault { IfErr result (λ fault. (input : List ℕ) → IsBegunUnscheduled input job.now
        → IsUncheckedTree input (Some text.now) fault) }
{
    let report = match read_text(alloc, job.tree(), text) {
        Ok(report) => report,
        Err(fault) => return Err(unread(fault)),
    };
    let said = verdict(alloc, job, &report)?;
    Ok(said)
}
