//! The verdict of logs.

ghost use Rattle.std.specs.Prelude.{◌≡◌, ◌↔◌, length, string_bytes, IfOk, IsTrue};
ghost use Rattle.stab_job.specs.JobValues.{network};
ghost use Rattle.rignolda_since.specs.LogTexts.{SaysLogs};
ghost use Rattle.rignolda_since.specs.ObeysLogs.{ObeysLogs};

use crate::judged_logs::first_broken;
use crate::log_text::push_broken;
use crate::logs::Logs;
use rignolda_verdict::judge_of;
use stab_job::Job;
use stab_judge::Judge;
use std::alloc::{AllocError, Global};

/// What is said of the logs of the nodes of a job, and whether they obey: the job's starts and
/// openings do not count, since nobody knows what was in the links and nodes at the moment, but for
/// how much they may hold. Where the logs do not obey, the first part is named that is broken.
pub fn verdict_of_logs(alloc: Global, job: &Job, logs: &Logs) -> Result<(String, bool), AllocError>
    requires per_node { length logs.now.received ≡ length job.now.tree.parents }
    ensures exactly { IfOk result (λ said. IsTrue said.1 ↔ ObeysLogs (network job.now) logs.now) }
    ensures says { IfOk result (λ said.
        SaysLogs (network job.now) logs.now said.1 (string_bytes said.0)) }
{
    let judge = judge_of(alloc, job)?;
    verdict_by(alloc, &judge, job, logs)
}

/// What the judge of a job says of logs.
fn verdict_by(
    alloc: Global,
    judge: &Judge<'_>,
    job: &Job,
    logs: &Logs,
) -> Result<(String, bool), AllocError>
    requires its_judge { judge.now ≡ network job.now }
    requires per_node { length logs.now.received ≡ length job.now.tree.parents }
    ensures exactly { IfOk result (λ said. IsTrue said.1 ↔ ObeysLogs judge.now logs.now) }
    ensures says { IfOk result (λ said.
        SaysLogs judge.now logs.now said.1 (string_bytes said.0)) }
{
    match first_broken(alloc, judge, job, logs)? {
        None => Ok((String::from_str(alloc, "obeys\n")?, true)),
        Some(part) => {
            let mut text = String::new(alloc);
            push_broken(&mut text, judge, job, logs, part)?;
            Ok((text, false))
        }
    }
}
