ghost use Rattle.std.specs.Prelude.{◌≡◌, ◌≢◌, false, Some, None, Ok};
ghost use Rattle.std.specs.Prelude.{IfErr, IfOk, IfSome, OnOk, option_map};
ghost use Rattle.std.specs.Io.KnownBytes.{Keeps};
ghost use Rattle.serde_json.specs.Data.{Data};
ghost use Rattle.serde_json.specs.View.{view};
ghost use Rattle.rignolda_commands.specs.Commands.{IsFaultOf, Steps};
ghost use Rattle.rignolda_commands.specs.Drawn.{IsDrawn, IsDrawnAs, IsDrawnBy, IsDrawnLink};
ghost use Rattle.rignolda_commands.specs.Drawn.{IsDrawnScenario, IsDrawnTree, IsUndrawn, IsUndrawnBy};
ghost use Rattle.rignolda_commands.specs.Drawn.{IsReplayed, IsWritten, has_steps, task_of};
ghost use Rattle.rignolda_commands.specs.Told.{IsUntold};
ghost use Rattle.rignolda_commands.specs.declared.run.Drawing.{Drawing};
ghost use Rattle.rignolda_explain.specs.Kinds.{chosen};
ghost use Rattle.stab_job.specs.Jobs.{job};
ghost use Rattle.stab_job.specs.Parts.{SameMembers};
ghost use Rattle.stab_job.specs.Unscheduled.{IsUnscheduled};
ghost use Rattle.stab_json.specs.Values.{value_of};
ghost use Rattle.stab_script.specs.LinkJobs.{link_job};
ghost use Rattle.rignolda_commands.specs.Unanswered.{IsUnanswered};
ghost use Rattle.stab_task.specs.declared.command.Task.TheVariants.{Link, Tree};

use crate::fault::CommandFault;
use crate::job::{job_of, link_job_of, scenario_beside, scenario_of};
use crate::kind::has_steps;
use crate::run::{Drawing, link_run, scenario_run, tree_run, write_drawing};
use rignolda_explain::kind_of;
use rignolda_findings::{Kind, seems_a_link_job, seems_to_have_steps};
use serde_json::Value;
use stab_job::{Job, read_plain_job};
use stab_json::read_value;
use stab_script::{LinkJob, read_plain_link_job};
use stab_task::{CliFault, load};
use std::alloc::Global;
use std::io::{Read, Write};

/// Reads a job, and writes its run step by step, as text or as a picture: that of the link of a
/// link job, that of the schedule of a job of a tree, and that of the steps of such a job where it
/// has some. Where there is none, the fault is that of `stab link`, of `stab tree`, or of
/// [`act_scenario`](crate::act_scenario).
///
/// A run is replayed before the first byte of it is written, so nothing is written unless the fault
/// is `Write`, or memory is refused while it is drawn: then the beginning of the text is written.
#[tactic(auto, using(crate::proofs::Drawn::unwritten, crate::proofs::Drawn::nothing_else, crate::proofs::Drawn::written, crate::proofs::Drawn::kept_bytes))]
pub fn act_draw<R: Read, W: Write>(
    alloc: Global,
    is_picture: bool,
    reader: &mut R,
    writer: &mut W,
) -> Result<(), CommandFault>
    ensures written { OnOk result (IfSome (R.remaining reader.old) (λ input.
        (drawing : Drawing) × IsDrawn is_picture input drawing
        × IsWritten drawing (W.contents writer.old) (W.contents writer.new))) }
    ensures fault { IfErr result (λ fault. fault ≢ CommandFault.Job CliFault.Write
        → IfSome (R.remaining reader.old) (λ input. IsUndrawn input fault)) }
    ensures among { IfErr result (IsFaultOf Steps) }
    ensures nothing { IfErr result (λ fault. fault ≢ CommandFault.Job CliFault.Write
        → fault ≢ CommandFault.Job CliFault.Memory
        → Keeps (W.contents writer.old) (W.contents writer.new)) }
{
    let drawing = draw_input(alloc, is_picture, reader)?;
    write_drawing(alloc, writer, drawing)?;
    Ok(())
}

/// The run of the job that the reader gives.
#[tactic(auto, using(crate::proofs::Drawn::unloaded, crate::proofs::Among::of_draw))]
fn draw_input<R: Read>(
    alloc: Global,
    is_picture: bool,
    reader: &mut R,
) -> Result<Drawing, CommandFault>
    ensures drawn { IfOk result (λ drawing. IfSome (R.remaining reader.old)
        (λ input. IsDrawn is_picture input drawing)) }
    ensures replayed { IfOk result IsReplayed }
    ensures fault { IfErr result (λ fault.
        IfSome (R.remaining reader.old) (λ input. IsUndrawn input fault)) }
    ensures among { IfErr result (IsFaultOf Steps) }
{
    let bytes = load(alloc, reader)?;
    let drawing = draw_bytes(alloc, is_picture, &bytes)?;
    Ok(drawing)
}

/// The run of the job that these bytes are, or of its steps. The job is read off the text, as one of
/// the kind that it seems to be; and where that fails, all that is said comes from its value.
fn draw_bytes(alloc: Global, is_picture: bool, bytes: &[u8]) -> Result<Drawing, CommandFault>
    ensures drawn { IfOk result (IsDrawn is_picture bytes.now) }
    ensures replayed { IfOk result IsReplayed }
    ensures fault { IfErr result (IsUndrawn bytes.now) }
{
    if seems_a_link_job(bytes) {
        draw_link_first(alloc, is_picture, bytes)
    } else if seems_to_have_steps(bytes) {
        draw_steps_first(alloc, is_picture, bytes)
    } else {
        draw_schedule_first(alloc, is_picture, bytes)
    }
}

/// The same, where the bytes are read as a link job first, which has no other members.
#[tactic(auto, using(crate::proofs::Drawn::memory_is_refused, crate::proofs::ReadAs::drawn_as_a_link, crate::proofs::ReadAs::undrawn_as_a_link))]
fn draw_link_first(alloc: Global, is_picture: bool, bytes: &[u8]) -> Result<Drawing, CommandFault>
    ensures drawn { IfOk result (IsDrawn is_picture bytes.now) }
    ensures replayed { IfOk result IsReplayed }
    ensures fault { IfErr result (IsUndrawn bytes.now) }
{
    match read_plain_link_job(alloc, bytes)? {
        Some(job) => Ok(draw_link_job(alloc, is_picture, bytes, job)?),
        None => draw_by_value(alloc, is_picture, bytes),
    }
}

/// The same, where the bytes are read as a scenario first.
#[tactic(auto, using(crate::proofs::Drawn::memory_is_refused))]
fn draw_steps_first(alloc: Global, is_picture: bool, bytes: &[u8]) -> Result<Drawing, CommandFault>
    ensures drawn { IfOk result (IsDrawn is_picture bytes.now) }
    ensures replayed { IfOk result IsReplayed }
    ensures fault { IfErr result (IsUndrawn bytes.now) }
{
    match read_plain_job(alloc, bytes, false)? {
        Some((job, members)) => draw_plain_steps(alloc, is_picture, bytes, job, &members),
        None => draw_by_value(alloc, is_picture, bytes),
    }
}

/// The run of the steps of the job that these bytes are, where there are some among the members that
/// were read beside it. Otherwise its schedule is drawn, which was not kept.
#[tactic(auto, using(crate::proofs::ReadAs::with_their_steps, crate::proofs::ReadAs::undrawn_unread, crate::proofs::ReadAs::drawn_with_steps, crate::proofs::ReadAs::undrawn_with_steps))]
fn draw_plain_steps(
    alloc: Global,
    is_picture: bool,
    bytes: &[u8],
    its_job: Job,
    members: &Value,
) -> Result<Drawing, CommandFault>
    requires job { IsUnscheduled (job bytes.now) its_job }
    requires members { (d : Data) × (value_of bytes.now ≡ Some d) × SameMembers d (view members.now) }
    ensures drawn { IfOk result (IsDrawn is_picture bytes.now) }
    ensures replayed { IfOk result IsReplayed }
    ensures fault { IfErr result (IsUndrawn bytes.now) }
{
    if !has_steps(Some(members)) {
        return draw_by_value(alloc, is_picture, bytes);
    }
    let scenario = scenario_beside(alloc, bytes, its_job, members)?;
    let drawing = scenario_run(alloc, is_picture, &scenario)?;
    Ok(drawing)
}

/// The same, where the bytes are read as a job with its schedule first.
#[tactic(auto, using(crate::proofs::Drawn::memory_is_refused))]
fn draw_schedule_first(
    alloc: Global,
    is_picture: bool,
    bytes: &[u8],
) -> Result<Drawing, CommandFault>
    ensures drawn { IfOk result (IsDrawn is_picture bytes.now) }
    ensures replayed { IfOk result IsReplayed }
    ensures fault { IfErr result (IsUndrawn bytes.now) }
{
    match read_plain_job(alloc, bytes, true)? {
        Some((job, members)) => draw_job(alloc, is_picture, bytes, job, &members),
        None => draw_by_value(alloc, is_picture, bytes),
    }
}

/// The run of the job that these bytes are, or of its steps, where there are some among the members
/// of this value.
#[tactic(auto, using(crate::proofs::ReadAs::with_their_steps))]
fn draw_job(
    alloc: Global,
    is_picture: bool,
    bytes: &[u8],
    its_job: Job,
    members: &Value,
) -> Result<Drawing, CommandFault>
    requires job { job bytes.now ≡ Ok its_job }
    requires members { (d : Data) × (value_of bytes.now ≡ Some d) × SameMembers d (view members.now) }
    ensures drawn { IfOk result (IsDrawn is_picture bytes.now) }
    ensures replayed { IfOk result IsReplayed }
    ensures fault { IfErr result (IsUndrawn bytes.now) }
{
    if has_steps(Some(members)) {
        draw_by_value(alloc, is_picture, bytes)
    } else {
        let drawing = draw_schedule(alloc, is_picture, bytes, its_job)?;
        Ok(drawing)
    }
}

/// The run of the schedule of the job that these bytes are, which have no steps.
#[tactic(auto, using(crate::proofs::ReadAs::drawn_without_steps, crate::proofs::ReadAs::undrawn_without_steps))]
fn draw_schedule(
    alloc: Global,
    is_picture: bool,
    bytes: &[u8],
    its_job: Job,
) -> Result<Drawing, CliFault>
    requires job { job bytes.now ≡ Ok its_job }
    requires steps { has_steps (value_of bytes.now) ≡ false }
    ensures drawn { IfOk result (IsDrawn is_picture bytes.now) }
    ensures replayed { IfOk result IsReplayed }
    ensures fault { IfErr result (λ fault. IsUndrawn bytes.now (CommandFault.Job fault)) }
{
    let drawing = tree_run(alloc, is_picture, its_job)?;
    Ok(drawing)
}

/// The run of the job that these bytes are, or of its steps, by their value.
#[tactic(auto, using(crate::proofs::Drawn::memory_is_refused))]
fn draw_by_value(alloc: Global, is_picture: bool, bytes: &[u8]) -> Result<Drawing, CommandFault>
    ensures drawn { IfOk result (IsDrawn is_picture bytes.now) }
    ensures replayed { IfOk result IsReplayed }
    ensures fault { IfErr result (IsUndrawn bytes.now) }
{
    let value = read_value(alloc, bytes)?;
    let kind = kind_of(value.as_ref());
    let is_scenario = has_steps(value.as_ref());
    let drawing = draw_by(alloc, is_scenario, kind, value, is_picture, bytes)?;
    Ok(drawing)
}

/// The run of bytes that have steps, or of others of this kind, which have this value.
fn draw_by(
    alloc: Global,
    is_scenario: bool,
    kind: Kind,
    value: Option<Value>,
    is_picture: bool,
    bytes: &[u8],
) -> Result<Drawing, CommandFault>
    requires kind { kind ≡ chosen None (value_of bytes.now) }
    requires value { option_map view value ≡ value_of bytes.now }
    ensures drawn { IfOk result (IsDrawnBy is_scenario is_picture bytes.now) }
    ensures replayed { IfOk result IsReplayed }
    ensures fault { IfErr result (IsUndrawnBy is_scenario bytes.now) }
{
    if is_scenario {
        draw_scenario(alloc, value, is_picture, bytes)
    } else {
        let drawing = draw_kind(alloc, kind, value, is_picture, bytes)?;
        Ok(drawing)
    }
}

/// The run of the scenario that these bytes are, which have this value.
#[tactic(auto, using(crate::proofs::Told::unread, crate::proofs::Told::unrun))]
fn draw_scenario(
    alloc: Global,
    value: Option<Value>,
    is_picture: bool,
    bytes: &[u8],
) -> Result<Drawing, CommandFault>
    requires { option_map view value ≡ value_of bytes.now }
    ensures drawn { OnOk result (IsDrawnScenario is_picture bytes.now) }
    ensures replayed { IfOk result IsReplayed }
    ensures fault { IfErr result (λ fault. IsUntold bytes.now fault) }
{
    let scenario = scenario_of(alloc, value.as_ref(), bytes)?;
    let drawing = scenario_run(alloc, is_picture, &scenario)?;
    Ok(drawing)
}

/// The run of the job of this kind that these bytes are, which have this value.
fn draw_kind(
    alloc: Global,
    kind: Kind,
    value: Option<Value>,
    is_picture: bool,
    bytes: &[u8],
) -> Result<Drawing, CliFault>
    requires { option_map view value ≡ value_of bytes.now }
    ensures drawn { IfOk result (IsDrawnAs kind is_picture bytes.now) }
    ensures replayed { IfOk result IsReplayed }
    ensures fault { IfErr result (IsUnanswered (task_of kind) bytes.now) }
{
    match kind {
        Kind::LinkJob => draw_link(alloc, value, is_picture, bytes),
        Kind::Job => draw_tree(alloc, value, is_picture, bytes),
    }
}

/// The run of the link job that these bytes are, which have this value.
fn draw_link(
    alloc: Global,
    value: Option<Value>,
    is_picture: bool,
    bytes: &[u8],
) -> Result<Drawing, CliFault>
    requires { option_map view value ≡ value_of bytes.now }
    ensures drawn { IfOk result (IsDrawnLink is_picture bytes.now) }
    ensures replayed { IfOk result IsReplayed }
    ensures fault { IfErr result (IsUnanswered (Link false) bytes.now) }
{
    let job = link_job_of(alloc, value, bytes)?;
    draw_link_job(alloc, is_picture, bytes, job)
}

/// The run of the link job that these bytes are.
fn draw_link_job(
    alloc: Global,
    is_picture: bool,
    bytes: &[u8],
    job: LinkJob,
) -> Result<Drawing, CliFault>
    requires { link_job bytes.now ≡ Ok job }
    ensures drawn { IfOk result (IsDrawnLink is_picture bytes.now) }
    ensures replayed { IfOk result IsReplayed }
    ensures fault { IfErr result (IsUnanswered (Link false) bytes.now) }
{
    let drawing = link_run(alloc, is_picture, job)?;
    Ok(drawing)
}

/// The run of the schedule of the job that these bytes are, which have this value.
fn draw_tree(
    alloc: Global,
    value: Option<Value>,
    is_picture: bool,
    bytes: &[u8],
) -> Result<Drawing, CliFault>
    requires { option_map view value ≡ value_of bytes.now }
    ensures drawn { IfOk result (IsDrawnTree is_picture bytes.now) }
    ensures replayed { IfOk result IsReplayed }
    ensures fault { IfErr result (IsUnanswered Tree bytes.now) }
{
    let job = job_of(alloc, value.as_ref(), bytes)?;
    let drawing = tree_run(alloc, is_picture, job)?;
    Ok(drawing)
}
