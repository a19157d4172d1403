//! The one body of the runs: the starts are looked at, the links are made and split, the workers
//! run over their ends, the links are settled, and the report is made of what the workers left.

ghost use Rattle.std.specs.List.{AllZip};
ghost use Rattle.std.specs.Prelude.{◌≡◌, All, IfErr, IfOk, length, map};
ghost use Rattle.stab_core.specs.LinkSetup.{CanBegin};
ghost use Rattle.stab_job.specs.JobValues.{network};
ghost use Rattle.stab_run.specs.AnyLinks.{IsOneOf, IsScriptOf, given_to, kind_of};
ghost use Rattle.stab_run.specs.AnyLinks.{received_by, sent_by};
ghost use Rattle.stab_run.specs.LinkKinds.{HaveOnePlace, kind_for};
ghost use Rattle.stab_node.specs.Runs.{HaveAsked};
ghost use Rattle.stab_run.specs.LinkRuns.{IsJobRun};
ghost use Rattle.stab_run.specs.RunFaults.{IsRunReason, IsSettlingReason};
ghost use Rattle.stab_run.specs.Runs.{IsReport};

use crate::any_link::AnyLink;
use crate::ends::run_links;
use crate::kept_links::KeptLinks;
use crate::laws;
use crate::links::Links;
use crate::report::Report;
use crate::room::room_of;
use crate::run_fault::RunFault;
use crate::scripted_recv::ScriptedRecvDone;
use crate::scripted_send::ScriptedSendDone;
use crate::settle::settle_all;
use crate::starts::{check_starts, make_links};
use stab_job::Job;
use stab_node::{Gate, Gathered};
use std::alloc::Global;
use std::snapshot::Snapshot;
use std::sync::Wait;
use std::thread::Threads;

/// Runs a job over these links, which have the capacities that they ask for.
///
/// Every start is looked at before any worker is started; every worker that was started has ended
/// when this call returns. Where a link has a lock, its two ends have agreed with its own history.
pub(crate) fn run<R: Threads + Wait + Send + Sync, G: Gate + Sync>(
    rt: &R,
    alloc: Global,
    which: Links,
    job: &Job,
    gate: &G,
) -> Result<Report, RunFault>
    requires { HaveOnePlace which job.now.params }
    ensures report { IfOk result (IsReport which job.now) }
    ensures turns { IfOk result (λ report. HaveAsked (G.has_passed gate.now) (G.is_done gate.now)
        (length job.now.tree.parents) job.now.turns report.ended) }
    ensures refused { IfErr result (IsRunReason which job.now
        (G.has_passed gate.now) (G.may_refuse gate.now) (G.is_done gate.now)) }
{
    check_starts(job.params(), job.tree(), job.starts())?;
    let room = room_of(job);
    let (links, openings) = make_links(
        alloc,
        which,
        job.params(),
        job.starts(),
        job.scripts(),
        room,
    )?;
    let gathered = run_links(rt, alloc, job, &links, openings, room, gate)?;
    let report = report_of(alloc, which, job, links, gathered)?;
    Ok(report)
}

/// The report of what the workers left, once the links are settled.
fn report_of(
    alloc: Global,
    which: Links,
    job: &Job,
    links: Vec<AnyLink>,
    gathered: Gathered<ScriptedRecvDone<'_>, ScriptedSendDone<'_>>,
) -> Result<Report, RunFault>
    requires one_place { HaveOnePlace which job.now.params }
    requires given { map given_to links.items ≡ (network job.now).links }
    requires scripts { AllZip IsScriptOf job.now.scripts links.items }
    requires lawful { All CanBegin (network job.now).links }
    requires one_of { All (IsOneOf which) links.items }
    requires kinds { map kind_of links.items ≡ map (kind_for which) job.now.params }
    requires run { IsJobRun job.now links.items
        gathered.received.items gathered.ended.items gathered.recvs.items gathered.sends.items }
    ensures report { IfOk result (IsReport which job.now) }
    ensures ended { IfOk result (λ report. report.ended ≡ gathered.entry.ended.items) }
    ensures refused { IfErr result (IsSettlingReason which job.now.tree.parents
        (network job.now).links (map sent_by gathered.entry.sends.items)
        (map received_by gathered.entry.recvs.items)) }
{
    let tree = job.tree();
    let Gathered {
        received,
        ended,
        sends,
        recvs,
    } = gathered;
    let kept = KeptLinks::Kept(Snapshot::of(&links));
    let acked = settle_all(alloc, which, tree, links, sends, recvs)?;
    let _root = tree.root();
    laws::explained_reports_obey_the_tree_law();
    laws::nothing_is_missing_below_ended_nodes();
    Ok(Report {
        received,
        acked,
        ended,
        links: kept,
    })
}
