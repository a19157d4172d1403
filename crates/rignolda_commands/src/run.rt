//! The run of a job that was read: it is replayed, and then drawn, as text or as a picture.

ghost use Rattle.std.specs.Prelude.{◌≡◌, ◌≢◌, ◌≤◌, false, length, string_bytes};
ghost use Rattle.std.specs.Prelude.{All, IfErr, IfOk, OnOk};
ghost use Rattle.std.specs.Io.KnownBytes.{Appends};
ghost use Rattle.stab_core.specs.Link.{IsReason};
ghost use Rattle.stab_core.specs.Replay.{IsLawful};
ghost use Rattle.rignolda_commands.specs.Drawn.{IsReplayed, IsWritten};
ghost use Rattle.rignolda_commands.specs.declared.run.Drawing.TheVariants.{Link, Schedule};
ghost use Rattle.stab_job.specs.JobValues.{network};
ghost use Rattle.stab_job.specs.Replays.{IsReplayReason};
ghost use Rattle.rignolda_scenario.specs.Counts.{IsUnrun};
ghost use Rattle.rignolda_scenario.specs.Played.{changes_of, most_changes};
ghost use Rattle.stab_treecore.specs.Network.{IsNetwork};
ghost use Rattle.stab_treecore.specs.Refusals.{NamesLink};

use rignolda_draw::{OutputFault, scenario_run_text, write_run, write_schedule_run};
use rignolda_picture::{link_picture, scenario_picture, schedule_picture};
use rignolda_scenario::{Scenario, ScenarioFault};
use stab_core::{StartFault, run_link};
use stab_job::Job;
use stab_script::LinkJob;
use stab_task::{CliFault, write_text};
use stab_treecore::TreeStartFault;
use std::alloc::Global;
use std::io::Write;

/// A run that was replayed to its end, and is still to be drawn; or a whole drawing.
#[derive(Debug, Drop)]
pub enum Drawing {
    /// The run of a link job.
    Link(LinkJob),
    /// The run of a job's schedule.
    Schedule(Job),
    /// A picture, or the text of a scenario's run.
    Whole(String),
}

/// The run of a scenario that was read.
pub(crate) fn scenario_run(
    alloc: Global,
    is_picture: bool,
    scenario: &Scenario,
) -> Result<Drawing, ScenarioFault>
    ensures few { OnOk result (is_picture ≡ false → length (changes_of
        scenario.now.job.tree.parents scenario.now.job.params scenario.now.steps) ≤ most_changes) }
    ensures replayed { IfOk result IsReplayed }
    ensures refused { IfErr result (IsUnrun scenario.now.job scenario.now.steps) }
{
    if is_picture {
        let text = scenario_picture(alloc, scenario)?;
        Ok(Drawing::Whole(text))
    } else {
        let text = scenario_run_text(alloc, scenario)?;
        Ok(Drawing::Whole(text))
    }
}

/// The run of a link job that was read.
pub(crate) fn link_run(alloc: Global, is_picture: bool, job: LinkJob) -> Result<Drawing, StartFault>
    ensures run { IfOk result (λ drawing. is_picture ≡ false → drawing ≡ Link job) }
    ensures replayed { IfOk result IsReplayed }
    ensures lawful { OnOk result (IsLawful job.params job.start) }
    ensures refused { IfErr result (IsReason job.params job.start) }
{
    if is_picture {
        let text = link_picture(alloc, &job)?;
        return Ok(Drawing::Whole(text));
    }
    let end = run_link(alloc, job.params, &job.start, job.events.as_slice())?;
    drop(end);
    Ok(Drawing::Link(job))
}

/// The run of the schedule of a job that was read.
pub(crate) fn tree_run(alloc: Global, is_picture: bool, job: Job) -> Result<Drawing, TreeStartFault>
    ensures run { IfOk result (λ drawing. is_picture ≡ false → drawing ≡ Schedule job) }
    ensures replayed { IfOk result IsReplayed }
    ensures network { OnOk result (IsNetwork (network job)) }
    ensures named { OnOk result (All (NamesLink job.tree.parents) job.schedule) }
    ensures refused { IfErr result (IsReplayReason job) }
{
    if is_picture {
        let text = schedule_picture(alloc, &job)?;
        return Ok(Drawing::Whole(text));
    }
    let end = job.replay(alloc)?;
    drop(end);
    Ok(Drawing::Schedule(job))
}

/// Draws a run, and writes it in blocks; a whole drawing is written at once.
pub(crate) fn write_drawing<W: Write>(
    alloc: Global,
    writer: &mut W,
    drawing: Drawing,
) -> Result<(), CliFault>
    requires replayed { IsReplayed drawing }
    ensures written { OnOk result
        (IsWritten drawing (W.contents writer.old) (W.contents writer.new)) }
    ensures fault { IfErr result (λ fault. fault ≢ CliFault.Write → fault ≡ CliFault.Memory) }
{
    match drawing {
        Drawing::Link(job) => {
            let last = write_run(alloc, writer, &job);
            write_last(writer, last)
        }
        Drawing::Schedule(job) => {
            let last = write_schedule_run(alloc, writer, &job);
            write_last(writer, last)
        }
        Drawing::Whole(text) => write_text(writer, &text),
    }
}

/// Writes the last of what was drawn, all before which is written.
fn write_last<W: Write>(writer: &mut W, drawn: Result<String, OutputFault>) -> Result<(), CliFault>
    ensures written { OnOk result (IfOk drawn (λ last.
        Appends (W.contents writer.old) (W.contents writer.new) (string_bytes last))) }
    ensures fault { IfErr result (λ fault. fault ≢ CliFault.Write → fault ≡ CliFault.Memory) }
{
    match drawn {
        Ok(last) => write_text(writer, &last),
        Err(OutputFault::Memory) => Err(CliFault::Memory),
        Err(OutputFault::Write) => Err(CliFault::Write),
    }
}
