//! The command `judge`: whether logs obey the laws since a moment of which nobody knows more.

ghost use Rattle.std.specs.Prelude.{◌≡◌, ◌≢◌, ℕ, List, string_bytes, Ok, IfErr, IfOk, IfSome, OnOk};
ghost use Rattle.std.specs.Prelude.{Some, length};
ghost use Rattle.std.specs.Io.KnownBytes.{Appends, Keeps};
ghost use Rattle.rignolda_commands.specs.Commands.{IsFaultOf, Judge};
ghost use Rattle.rignolda_commands.specs.Judged.{IsJudged, IsUnjudged, IsUnscheduledJob, logs_in};
ghost use Rattle.serde_json.specs.Data.{Data};
ghost use Rattle.serde_json.specs.View.{view};
ghost use Rattle.stab_json.specs.Values.{value_of};
ghost use Rattle.rignolda_since.specs.Logs.{HasLogs};
ghost use Rattle.rignolda_commands.specs.Unanswered.{IsUnanswered};
ghost use Rattle.stab_task.specs.declared.command.Task.{Task};

use crate::fault::CommandFault;
use rignolda_since::{Logs, LogsFault, Received, read_logs, verdict_of_logs};
use serde_json::Value;
use stab_frames::{Item, Sequence};
use stab_job::{Job, read_unscheduled_job_beside};
use stab_task::{CliFault, load, write_text};
use std::alloc::Global;
use std::io::{Read, Write};

/// Reads a job with logs, and writes whether they obey the laws since a moment, or which part of
/// them is broken first. It answers true exactly where they obey. Where there is no verdict,
/// nothing is written unless the fault is `Write`.
pub fn act_judge<R: Read, W: Write>(
    alloc: Global,
    reader: &mut R,
    writer: &mut W,
) -> Result<bool, CommandFault>
    ensures verdict { IfOk result (λ obeys. IfSome (R.remaining reader.old) (λ input.
        (answer : List ℕ) × IsJudged input obeys answer
        × Appends (W.contents writer.old) (W.contents writer.new) answer)) }
    ensures fault { IfErr result (λ fault. fault ≢ CommandFault.Job CliFault.Write
        → IfSome (R.remaining reader.old) (λ input. IsUnjudged input fault)) }
    ensures among { IfErr result (IsFaultOf Judge) }
    ensures nothing { IfErr result (λ fault. fault ≢ CommandFault.Job CliFault.Write
        → Keeps (W.contents writer.old) (W.contents writer.new)) }
{
    let (text, obeys) = judge_input(alloc, reader)?;
    write_text(writer, &text)?;
    Ok(obeys)
}

/// What is said of the logs of the job that the reader gives, and whether they obey.
#[tactic(auto, using(crate::proofs::Among::of_judge))]
fn judge_input<R: Read>(alloc: Global, reader: &mut R) -> Result<(String, bool), CommandFault>
    ensures judged { IfOk result (λ said. IfSome (R.remaining reader.old) (λ input.
        IsJudged input said.1 (string_bytes said.0))) }
    ensures fault { IfErr result (λ fault.
        IfSome (R.remaining reader.old) (λ input. IsUnjudged input fault)) }
    ensures among { IfErr result (IsFaultOf Judge) }
{
    let bytes = load(alloc, reader)?;
    let said = judge_bytes(alloc, &bytes)?;
    Ok(said)
}

/// The same of the job that these bytes are.
#[tactic(auto, using(crate::proofs::UnscheduledLogs::judged_by_whole))]
fn judge_bytes(alloc: Global, bytes: &[u8]) -> Result<(String, bool), CommandFault>
    ensures judged { IfOk result (λ said. IsJudged bytes.now said.1 (string_bytes said.0)) }
    ensures fault { IfErr result (IsUnjudged bytes.now) }
{
    let (job, members, received) = job_of(alloc, bytes)?;
    let logs = logs_of(alloc, &job, &members, received)?;
    let said = verdict_of_logs(alloc, &job, &logs)?;
    Ok(said)
}

/// The job that these bytes are, with an empty schedule, a value that has their other members, and
/// the lists of their logs where they were read.
fn job_of(
    alloc: Global,
    bytes: &[u8],
) -> Result<(Job, Value, Option<Sequence<Sequence<Item>>>), CliFault>
    ensures read { IfOk result (λ read. IsUnscheduledJob bytes.now read.0) }
    ensures logs { IfOk result (λ read. (d : Data)
        × (value_of bytes.now ≡ Some d) × HasLogs d (view read.1) read.2) }
    ensures fault { IfErr result (IsUnanswered Task.Tree bytes.now) }
{
    let read = read_unscheduled_job_beside::<Received>(alloc, bytes)?;
    Ok(read)
}

/// The logs of the nodes of a job.
#[tactic(auto, using(crate::proofs::UnscheduledLogs::refused_logs))]
fn logs_of(
    alloc: Global,
    job: &Job,
    members: &Value,
    received: Option<Sequence<Sequence<Item>>>,
) -> Result<Logs, CommandFault>
    ensures has { IfOk result (λ its. (d : Data) → HasLogs d (view members.now) received
        → logs_in job.now (Some d) ≡ Ok its) }
    ensures per_node { IfOk result (λ its. length its.received ≡ length job.now.tree.parents) }
    ensures fault { IfErr result (λ fault. (input : List ℕ) (d : Data)
        → IsUnscheduledJob input job.now → value_of input ≡ Some d
        → HasLogs d (view members.now) received → IsUnjudged input fault) }
{
    match read_logs(alloc, job.tree(), job.items(), members, received) {
        Ok(logs) => Ok(logs),
        Err(LogsFault::Memory) => Err(CommandFault::Job(CliFault::Memory)),
        Err(fault) => Err(CommandFault::Logs(fault)),
    }
}
