//! The command `bounds`: what the laws allow each node of a job, and what faults cost it.

ghost use Rattle.std.specs.Prelude.{◌≡◌, ◌≢◌, ◌⊎◌, ℕ, List, string_bytes, Err, IfErr, IfOk, IfSome};
ghost use Rattle.std.specs.Prelude.{OnOk, option_map};
ghost use Rattle.std.specs.Io.KnownBytes.{Appends, Keeps};
ghost use Rattle.rignolda_commands.specs.Begun.{AreBounds, HasNoBounds};
ghost use Rattle.rignolda_commands.specs.Commands.{IsFaultOf, Bounds};
ghost use Rattle.serde_json.specs.View.{view};
ghost use Rattle.stab_job.specs.Jobs.{job};
ghost use Rattle.stab_job.specs.Unscheduled.{IsUnscheduled};
ghost use Rattle.stab_json.specs.Values.{value_of};

use crate::fault::CommandFault;
use crate::job::{begin_job, link_job_of, unscheduled_job_of};
use rignolda_explain::kind_of;
use rignolda_findings::{Kind, seems_a_link_job};
use rignolda_verdict::bounds_text;
use serde_json::Value;
use stab_job::{Job, JobFault, read_plain_job};
use stab_json::read_value;
use stab_script::LinkJobFault;
use stab_task::{CliFault, load, write_text};
use std::alloc::Global;
use std::io::{Read, Write};

/// Reads a job, and writes the bounds of its nodes: the sums of the law, after how many reading
/// rounds all has arrived, and what faults cost. Where there is no such job, the fault is that of
/// `stab tree`, or says that it is a link job; and nothing is written unless it is `Write`.
pub fn act_bounds<R: Read, W: Write>(
    alloc: Global,
    reader: &mut R,
    writer: &mut W,
) -> Result<(), CommandFault>
    ensures written { OnOk result (IfSome (R.remaining reader.old) (λ input.
        (text : List ℕ) × AreBounds input text
        × Appends (W.contents writer.old) (W.contents writer.new) text)) }
    ensures fault { IfErr result (λ fault. fault ≢ CommandFault.Job CliFault.Write
        → IfSome (R.remaining reader.old) (λ input. HasNoBounds input fault)) }
    ensures among { IfErr result (IsFaultOf Bounds) }
    ensures nothing { IfErr result (λ fault. fault ≢ CommandFault.Job CliFault.Write
        → Keeps (W.contents writer.old) (W.contents writer.new)) }
{
    let text = bounds_of_input(alloc, reader)?;
    write_text(writer, &text)?;
    Ok(())
}

/// The bounds of the job that the reader gives.
#[tactic(auto, using(crate::proofs::Among::of_bounds))]
fn bounds_of_input<R: Read>(alloc: Global, reader: &mut R) -> Result<String, CommandFault>
    ensures bounds { IfOk result (λ text.
        IfSome (R.remaining reader.old) (λ input. AreBounds input (string_bytes text))) }
    ensures fault { IfErr result (λ fault.
        IfSome (R.remaining reader.old) (λ input. HasNoBounds input fault)) }
    ensures among { IfErr result (IsFaultOf Bounds) }
{
    let bytes = load(alloc, reader)?;
    let text = bounds_of_bytes(alloc, &bytes)?;
    Ok(text)
}

/// The bounds of the job that these bytes are. It is read off the text, and where that fails, or the
/// bytes seem to be a link job, all that is said comes from their value.
fn bounds_of_bytes(alloc: Global, bytes: &[u8]) -> Result<String, CommandFault>
    ensures bounds { IfOk result (λ text. AreBounds bytes.now (string_bytes text)) }
    ensures fault { IfErr result (HasNoBounds bytes.now) }
{
    if seems_a_link_job(bytes) {
        return bounds_by_value(alloc, bytes);
    }
    match read_plain_job(alloc, bytes, false)? {
        Some((job, _)) => bounds_of_job(alloc, &job, bytes),
        None => bounds_by_value(alloc, bytes),
    }
}

/// The same by the value of the bytes.
fn bounds_by_value(alloc: Global, bytes: &[u8]) -> Result<String, CommandFault>
    ensures bounds { IfOk result (λ text. AreBounds bytes.now (string_bytes text)) }
    ensures fault { IfErr result (HasNoBounds bytes.now) }
{
    let value = read_value(alloc, bytes)?;
    let text = bounds_of_value(alloc, value, bytes)?;
    Ok(text)
}

/// The bounds of the job that these bytes are, which have this value.
fn bounds_of_value(
    alloc: Global,
    value: Option<Value>,
    bytes: &[u8],
) -> Result<String, CommandFault>
    requires { option_map view value ≡ value_of bytes.now }
    ensures bounds { IfOk result (λ text. AreBounds bytes.now (string_bytes text)) }
    ensures fault { IfErr result (HasNoBounds bytes.now) }
{
    match unscheduled_job_of(alloc, value.as_ref(), bytes) {
        Ok(job) => bounds_of_job(alloc, &job, bytes),
        Err(JobFault::Shape) => Err(refused(alloc, JobFault::Shape, value, bytes)),
        Err(JobFault::Version) => Err(refused(alloc, JobFault::Version, value, bytes)),
        Err(fault) => Err(CommandFault::Job(CliFault::Job(fault))),
    }
}

/// The bounds of the job that these bytes are, where each of its links can begin.
#[tactic(auto, using(crate::proofs::Unscheduled::bounds_of_whole, crate::proofs::Unscheduled::no_bounds))]
fn bounds_of_job(alloc: Global, its_job: &Job, bytes: &[u8]) -> Result<String, CommandFault>
    requires { IsUnscheduled (job bytes.now) its_job.now }
    ensures bounds { IfOk result (λ text. AreBounds bytes.now (string_bytes text)) }
    ensures fault { IfErr result (HasNoBounds bytes.now) }
{
    begin_job(its_job, bytes)?;
    let text = bounds_text(alloc, its_job)?;
    Ok(text)
}

/// The fault of bytes that have not the shape or the version of a job of a tree, and have this
/// value: they may be a link job.
fn refused(alloc: Global, fault: JobFault, value: Option<Value>, bytes: &[u8]) -> CommandFault
    requires value { option_map view value ≡ value_of bytes.now }
    requires fault { (fault ≡ JobFault.Shape) ⊎ (fault ≡ JobFault.Version) }
    ensures fault { job bytes.now ≡ Err fault → HasNoBounds bytes.now result }
{
    let refusal = CommandFault::Job(CliFault::Job(fault));
    match kind_of(value.as_ref()) {
        Kind::Job => refusal,
        Kind::LinkJob => match link_job_of(alloc, value, bytes) {
            Err(LinkJobFault::Memory) => CommandFault::Job(CliFault::Memory),
            Err(LinkJobFault::Json | LinkJobFault::Shape) => refusal,
            _ => CommandFault::LinkJob,
        },
    }
}
