ghost use Rattle.std.specs.Prelude.{◌≡◌, ◌≢◌, ◌++◌, List, ℕ, true, string_bytes};
ghost use Rattle.std.specs.Prelude.{All, Err, IfSome, IfOk, IfErr, IsErrAnd, MatchResult, OnOk};
ghost use Rattle.std.specs.Io.KnownBytes.{Appends, Keeps};
ghost use Rattle.stab_job.specs.JobValues.{network};
ghost use Rattle.stab_job.specs.Jobs.{job};
ghost use Rattle.stab_job.specs.Replays.{IsReplayReason};
ghost use Rattle.stab_job.specs.Unscheduled.{IsUnscheduled};
ghost use Rattle.stab_run.specs.Runs.{IsReport};
ghost use Rattle.stab_treecore.specs.Network.{IsNetwork};
ghost use Rattle.stab_treecore.specs.Refusals.{NamesLink};
ghost use Rattle.stab_task.specs.Answers.{IsTreeAnswer, IsRunAnswer};
ghost use Rattle.stab_task.specs.Answers.{IsAnswer, IsFault, IsFreeRunReason, IsRunText};
ghost use Rattle.stab_task.specs.Answers.{IsTaskAnswer, IsTaskFault};
ghost use Rattle.stab_task.specs.Answers.{tree_answer};
ghost use Rattle.stab_task.specs.Refusals.{IsOfBytes, IsRefused};

use crate::command::Task;
use crate::fault::CliFault;
use crate::file::load;
use crate::link::answer_link;
use stab_job::{JobFault, read_job, read_unscheduled_job};
use stab_node::Free;
use stab_run::{Job, Links, Report, RunFault, report_text, run_locked, run_mixed, run_words};
use stab_treecore::{TreeStartFault, schedule_text};
use std::alloc::Global;
use std::io::{self, Read, Write};
use std::sync::Wait;
use std::thread::Threads;
use std::time::Clock;

/// Reads a job, does the task, and writes the whole text; or writes nothing where the fault is
/// another than `Write`.
///
/// A run waits for its workers. The functions of the other tasks are not handed the runtime.
pub fn act<T: Threads + Wait + Clock + Send + Sync, R: Read, W: Write>(
    rt: &T,
    alloc: Global,
    task: Task,
    reader: &mut R,
    writer: &mut W,
) -> Result<(), CliFault>
    ensures answer { OnOk result (IfSome (R.remaining reader.old) (λ input.
        (text : List ℕ) × IsAnswer task input text
        × Appends (W.contents writer.old) (W.contents writer.new) text)) }
    ensures fault { IfErr result (λ fault.
        IfSome (R.remaining reader.old) (λ input. IsFault task input fault)) }
    ensures nothing { IfErr result (λ fault.
        fault ≢ CliFault.Write → Keeps (W.contents writer.old) (W.contents writer.new)) }
    ensures opened { IfErr result (λ fault. fault ≢ CliFault.Open) }
    ensures named { IfErr result (λ fault. fault ≢ CliFault.CommandLine) }

    // The same of every reader, also of one that does not tell its bytes; they are not too many.
    ensures whole_answer { OnOk result ((text : List ℕ)
        × IsTaskAnswer task (R.remaining reader.old) text
        × Appends (W.contents writer.old) (W.contents writer.new) text) }
    ensures whole_fault { IfErr result (IsTaskFault task (R.remaining reader.old)) }

    // What the bytes are refused for is the fault, unless it is one that bytes do not decide.
    ensures refused { IfSome (R.remaining reader.old) (λ input. (refusal : CliFault)
        → IsRefused task input refusal
        → IsErrAnd result (λ fault. IsOfBytes fault → fault ≡ refusal)) }
{
    let text = text_of(rt, alloc, task, reader)?;
    write_text(writer, &text)?;
    Ok(())
}

/// The text of a task for what the reader gives.
fn text_of<T: Threads + Wait + Clock + Send + Sync, R: Read>(
    rt: &T,
    alloc: Global,
    task: Task,
    reader: &mut R,
) -> Result<String, CliFault>
    ensures answer { IfOk result (λ text.
        IfSome (R.remaining reader.old) (λ input. IsAnswer task input (string_bytes text))) }
    ensures fault { IfErr result (λ fault.
        IfSome (R.remaining reader.old) (λ input. IsFault task input fault)) }
    ensures whole_answer { IfOk result (λ text.
        IsTaskAnswer task (R.remaining reader.old) (string_bytes text)) }
    ensures whole_fault { IfErr result (IsTaskFault task (R.remaining reader.old)) }
    ensures opened { IfErr result (λ fault. fault ≢ CliFault.Open) }
    ensures named { IfErr result (λ fault. fault ≢ CliFault.CommandLine) }
{
    let bytes = load(alloc, reader)?;
    answer_bytes(rt, alloc, task, &bytes)
}

/// The text of a task for these bytes. A run alone is handed the runtime.
fn answer_bytes<T: Threads + Wait + Clock + Send + Sync>(
    rt: &T,
    alloc: Global,
    task: Task,
    bytes: &[u8],
) -> Result<String, CliFault>
    ensures answer { IfOk result (λ text. IsAnswer task bytes.now (string_bytes text)) }
    ensures fault { IfErr result (IsFault task bytes.now) }
{
    match task {
        Task::Link { trace } => answer_link(alloc, trace, bytes),
        Task::Tree => answer_tree(alloc, bytes),
        Task::Run { links } => answer_run(rt, alloc, links, bytes),
    }
}

/// The text of a whole tree after its schedule.
fn answer_tree(alloc: Global, bytes: &[u8]) -> Result<String, CliFault>
    ensures answer { IfOk result (λ text. IsTreeAnswer bytes.now (string_bytes text)) }
    ensures fault { IfErr result (IsFault Task.Tree bytes.now) }
{
    match read_job(alloc, bytes) {
        Ok(job) => schedule_answer(alloc, &job),
        Err(fault) => Err(CliFault::Job(fault)),
    }
}

/// The text of the whole tree of a job after its schedule, or the fault of a start or an event.
fn schedule_answer(alloc: Global, job: &Job) -> Result<String, CliFault>
    ensures text { IfOk result (λ text. string_bytes text ≡ tree_answer job.now) }
    ensures network { OnOk result (IsNetwork (network job.now)) }
    ensures named { OnOk result (All (NamesLink job.now.tree.parents) job.now.schedule) }
    ensures refused { IfErr result (λ fault. (why : TreeStartFault) × (fault ≡ CliFault.Tree why)
        × IsReplayReason job.now why) }
{
    Ok(tree_text(alloc, job)?)
}

/// The text of the whole tree of a job after its schedule.
fn tree_text(alloc: Global, job: &Job) -> Result<String, TreeStartFault>
    ensures text { IfOk result (λ text. string_bytes text ≡ tree_answer job.now) }
    ensures network { OnOk result (IsNetwork (network job.now)) }
    ensures named { OnOk result (All (NamesLink job.now.tree.parents) job.now.schedule) }
    ensures refused { IfErr result (IsReplayReason job.now) }
{
    let state = job.replay(alloc)?;
    Ok(schedule_text(alloc, job.tree(), &state)?)
}

/// The text of the report of a run, by one worker per node. A run does not look at the schedule, so
/// no step of it is kept.
#[tactic(auto, using(crate::proofs::Unscheduled::run_answered))]
fn answer_run<T: Threads + Wait + Clock + Send + Sync>(
    rt: &T,
    alloc: Global,
    links: Links,
    bytes: &[u8],
) -> Result<String, CliFault>
    ensures answer { IfOk result (λ text. IsRunAnswer links bytes.now (string_bytes text)) }
    ensures fault { IfErr result (IsFault (Task.Run links) bytes.now) }
{
    match read_unscheduled(alloc, bytes) {
        Ok(job) => run_answer(rt, alloc, links, &job),
        Err(fault) => Err(CliFault::Job(fault)),
    }
}

/// The job that these bytes mean, with an empty schedule.
fn read_unscheduled(alloc: Global, bytes: &[u8]) -> Result<Job, JobFault>
    ensures job { MatchResult result
        (λ its_job. IsUnscheduled (job bytes.now) its_job)
        (λ fault. fault ≢ JobFault.Memory → job bytes.now ≡ Err fault) }
{
    let (job, _) = read_unscheduled_job(alloc, bytes)?;
    Ok(job)
}

/// The text of the report of a run of a job that was read, or the fault of the run.
fn run_answer<T: Threads + Wait + Clock + Send + Sync>(
    rt: &T,
    alloc: Global,
    links: Links,
    job: &Job,
) -> Result<String, CliFault>
    ensures text { IfOk result (λ text. IsRunText links job.now (string_bytes text)) }
    ensures reason { IfErr result (λ fault. (why : RunFault) × (fault ≡ CliFault.Run why)
        × IsFreeRunReason links job.now why) }
{
    Ok(run_text(rt, alloc, links, job)?)
}

/// The text of the report of a run of a job that was read.
fn run_text<T: Threads + Wait + Clock + Send + Sync>(
    rt: &T,
    alloc: Global,
    links: Links,
    job: &Job,
) -> Result<String, RunFault>
    ensures text { IfOk result (λ text. IsRunText links job.now (string_bytes text)) }
    ensures reason { IfErr result (IsFreeRunReason links job.now) }
{
    let report = run_job(rt, alloc, links, job)?;
    Ok(report_text(alloc, job.tree(), &report)?)
}

/// The report of a run of a job, under a gate that refuses no turn.
fn run_job<T: Threads + Wait + Clock + Send + Sync>(
    rt: &T,
    alloc: Global,
    links: Links,
    job: &Job,
) -> Result<Report, RunFault>
    ensures report { IfOk result (IsReport links job.now) }
    ensures reason { IfErr result (IsFreeRunReason links job.now) }
{
    let gate = Free::for_tree(rt, job.tree());
    match links {
        Links::Locked => run_locked(rt, alloc, job, &gate),
        Links::Words => run_words(rt, alloc, job, &gate),
        Links::Mixed => run_mixed(rt, alloc, job, &gate),
    }
}

/// Writes a whole text, and asks the writer for a flush.
pub fn write_text<W: Write>(writer: &mut W, text: &str) -> Result<(), CliFault>
    ensures written { OnOk result
        (Appends (W.contents writer.old) (W.contents writer.new) text.now) }
    ensures fault { IfErr result (λ fault. fault ≡ CliFault.Write) }
{
    match written(writer, text) {
        Ok(()) => Ok(()),
        Err(_) => Err(CliFault::Write),
    }
}

/// Writes a whole text, and asks the writer for a flush; or the error of the writer.
fn written<W: Write>(writer: &mut W, text: &str) -> io::Result<()>
    ensures { OnOk result (Appends (W.contents writer.old) (W.contents writer.new) text.now) }
{
    writer.write_all(text.as_bytes())?;
    writer.flush()
}
