//! The runs of a job by one worker per node: over links behind locks, over links of two words, and
//! over links of both kinds. All three are one run, and differ in what their links are.

ghost use Rattle.std.specs.Prelude.{◌≡◌, ◌≢◌, ◌↔◌, ℕ, All, IfOk, IfErr, IsErrAnd, IsTrue, length};
ghost use Rattle.stab_job.specs.JobValues.{network};
ghost use Rattle.stab_lock.specs.declared.settle.SettleFault.{SettleFault};
ghost use Rattle.stab_run.specs.LinkKinds.{IsLarge};
ghost use Rattle.stab_run.specs.LinkRuns.{HoldsInto};
ghost use Rattle.stab_run.specs.RunFaults.{IsRunReason};
ghost use Rattle.stab_run.specs.Runs.{IsReport, TreeLawByDepth};
ghost use Rattle.stab_node.specs.ByNode.{received_at};
ghost use Rattle.stab_node.specs.Runs.{HaveAsked};

use crate::laws;
use crate::links::Links;
use crate::report::Report;
use crate::run::run;
use crate::run_fault::RunFault;
use stab_frames::Params;
use stab_job::Job;
use stab_lock::SettleFault;
use stab_node::Gate;
use std::alloc::Global;
use std::sync::Wait;
use std::thread::Threads;

/// Runs a job: one worker per node, each on a thread of its own, over links behind locks.
///
/// Every start is looked at before any worker is started; every worker that was started has ended
/// when this call returns. It answers what each node received, and the two ends of each link have
/// agreed with the link's own history.
///
/// Whatever the links and the inner nodes hold at the start, whatever is lost or repeated and
/// however the workers' steps interleave: with C the sum of the capacities c of the links on a
/// node's path to the root, M the sum of their 2c + 1, and E as many items as an opening may have
/// for each inner node on the path, itself among them, the node received at most C + E strays, then
/// published items in their order, each at most once, none missing before its last one except among
/// the first M. Where the worker of each node above it ended with its upstream, none is missing at
/// all except among these.
pub fn run_locked<R: Threads + Wait + Send + Sync, G: Gate + Sync>(
    rt: &R,
    alloc: Global,
    job: &Job,
    gate: &G,
) -> Result<Report, RunFault>
    ensures report { IfOk result (IsReport Links.Locked job.now) }
    ensures turns { IfOk result (λ report. HaveAsked (G.has_passed gate.now) (G.is_done gate.now)
        (length job.now.tree.parents) job.now.turns report.ended) }
    ensures refused { IfErr result (IsRunReason Links.Locked job.now
        (G.has_passed gate.now) (G.may_refuse gate.now) (G.is_done gate.now)) }
{
    run(rt, alloc, Links::Locked, job, gate)
}

/// Whether each link has room for one entry in each direction.
fn all_have_one_place(params: &[Params]) -> bool
    ensures { IsTrue result ↔ All (λ p. p.capacity ≡ 1) params.now }
{
    params.iter().all(|its_params| its_params.capacity() == 1)
}

/// Runs a job whose links all have the capacity one: one worker per node, each on a thread of its
/// own, over links of two words, which have no lock.
///
/// The capacities are looked at before anything else; then all is as `crate::run_locked` says. The
/// two words of each link keep that some events explain what its ends have done, so nothing is
/// compared in the end, and no call of an end waits: this call waits for the workers alone.
///
/// Each node received what `crate::run_locked` promises of it, with C = d and M = 3d at depth d.
pub fn run_words<R: Threads + Wait + Send + Sync, G: Gate + Sync>(
    rt: &R,
    alloc: Global,
    job: &Job,
    gate: &G,
) -> Result<Report, RunFault>
    ensures report { IfOk result (IsReport Links.Words job.now) }
    ensures tree_law_by_depth { IfOk result (λ report.
        TreeLawByDepth (network job.now) (received_at report.received)) }
    ensures turns { IfOk result (λ report. HaveAsked (G.has_passed gate.now) (G.is_done gate.now)
        (length job.now.tree.parents) job.now.turns report.ended) }
    ensures refused { IfErr result (IsRunReason Links.Words job.now
        (G.has_passed gate.now) (G.may_refuse gate.now) (G.is_done gate.now)) }
    ensures not_one { ¬ All (λ p. p.capacity ≡ 1) job.now.params
        → IsErrAnd result (λ fault. fault ≡ RunFault.CapacityNotOne) }
    ensures never_differ { IfErr result (λ fault. (child : ℕ) (why : SettleFault)
        → fault ≢ RunFault.Settle child why) }
{
    if !all_have_one_place(job.params()) {
        return Err(RunFault::CapacityNotOne);
    }
    let report = run(rt, alloc, Links::Words, job, gate)?;
    laws::tree_law_of_one_place();
    Ok(report)
}

/// Runs a job: one worker per node, each on a thread of its own, over links of two words where the
/// capacity is one, and over links with locks elsewhere.
///
/// All is as `crate::run_locked` says, but that nothing of a link of two words is compared in the
/// end, as in `crate::run_words`, and no call of its ends waits.
pub fn run_mixed<R: Threads + Wait + Send + Sync, G: Gate + Sync>(
    rt: &R,
    alloc: Global,
    job: &Job,
    gate: &G,
) -> Result<Report, RunFault>
    ensures report { IfOk result (IsReport Links.Mixed job.now) }
    ensures turns { IfOk result (λ report. HaveAsked (G.has_passed gate.now) (G.is_done gate.now)
        (length job.now.tree.parents) job.now.turns report.ended) }
    ensures refused { IfErr result (IsRunReason Links.Mixed job.now
        (G.has_passed gate.now) (G.may_refuse gate.now) (G.is_done gate.now)) }
    ensures only_large { IfErr result (λ fault. (child : ℕ) (why : SettleFault)
        → fault ≡ RunFault.Settle child why
        → HoldsInto IsLarge job.now.tree.parents (network job.now).links child) }
{
    run(rt, alloc, Links::Mixed, job, gate)
}
