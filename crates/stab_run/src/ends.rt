//! The two ends of each link of a run, and the workers that take them.

ghost use Rattle.std.specs.List.{AllZip};
ghost use Rattle.std.specs.Prelude.{◌≡◌, ◌∷◌, ◌<◌, All, IfErr, IfOk, length, map};
ghost use Rattle.stab_ends.specs.Accounts.{new_receiver, new_sender};
ghost use Rattle.stab_run.specs.AnyLinks.{IsOpenedBy, Receives, Sends};
ghost use Rattle.stab_run.specs.Scripted.{plan};
ghost use Rattle.stab_node.specs.Runs.{HaveAsked, IsWorkersReason};
ghost use Rattle.stab_run.specs.LinkRuns.{IsJobRun};
ghost use Rattle.stab_tree.specs.Links.{links_of};

use crate::any_link::{AnyLink, AnyOpening};
use crate::scripted_recv::{ScriptedRecv, ScriptedRecvDone};
use crate::scripted_send::{ScriptedSend, ScriptedSendDone};
use stab_acts::Script;
use stab_job::Job;
use stab_node::{Gate, Gathered, WorkersFault, run_workers};
use std::alloc::{AllocError, Global};
use std::collections::VecDeque;
use std::sync::Wait;
use std::thread::Threads;

/// Takes the first opening.
fn take_first(openings: &mut VecDeque<AnyOpening>) -> AnyOpening
    requires { 0 < length openings.old.items }
    ensures { openings.old.items ≡ result ∷ openings.new.items }
{
    openings.pop_front().unwrap()
}

/// The two ends of each link, which have made no call and follow the link's script, for `turns`
/// turns, with room for `room` items.
fn split_all<'a, 's, R>(
    alloc: Global,
    links: &'a [AnyLink],
    openings: Vec<AnyOpening>,
    scripts: &'s [Script],
    turns: u32,
    room: usize,
) -> Result<(Vec<ScriptedSend<'a, 's, R>>, Vec<ScriptedRecv<'a, 's, R>>), AllocError>
    requires scripts { length scripts.now ≡ length links.now }
    requires openings { AllZip IsOpenedBy links.now openings.items }
    ensures senders { IfOk result (λ ends.
        AllZip (λ link end. Sends link end) links.now ends.0.items) }
    ensures receivers { IfOk result (λ ends.
        AllZip (λ link end. Receives link end) links.now ends.1.items) }
    ensures send_plans { IfOk result (λ ends.
        map (λ end. end.link.plan) ends.0.items ≡ map (plan turns) scripts.now) }
    ensures recv_plans { IfOk result (λ ends.
        map (λ end. end.link.plan) ends.1.items ≡ map (plan turns) scripts.now) }
    ensures new_senders { IfOk result (λ ends.
        All (λ end. end.account ≡ new_sender) ends.0.items) }
    ensures new_receivers { IfOk result (λ ends.
        All (λ end. end.account ≡ new_receiver) ends.1.items) }
{
    let mut sends = Vec::with_capacity(alloc, links.len())?;
    let mut recvs = Vec::with_capacity(alloc, links.len())?;
    let mut openings = VecDeque::from(openings);
    'links: for place in 0..links.len() {
        let opening = take_first(&mut openings);
        let (send, recv) = links[place].split(alloc, opening, &scripts[place], turns, room)?;
        sends.push_reserved(send);
        recvs.push_reserved(recv);
    }
    Ok((sends, recvs))
}

/// Splits the links of a job and runs its workers over their ends, which follow its scripts and
/// have room for `room` items.
pub(crate) fn run_links<'j, R: Threads + Wait + Send + Sync, G: Gate + Sync>(
    rt: &R,
    alloc: Global,
    job: &'j Job,
    links: &[AnyLink],
    openings: Vec<AnyOpening>,
    room: usize,
    gate: &G,
) -> Result<Gathered<ScriptedRecvDone<'j>, ScriptedSendDone<'j>>, WorkersFault>
    requires links { length links.now ≡ length (links_of job.now.tree.parents) }
    requires openings { AllZip IsOpenedBy links.now openings.items }
    ensures run { IfOk result (λ g. IsJobRun job.now links.now
        g.received.items g.ended.items g.recvs.items g.sends.items) }
    ensures turns { IfOk result (λ g. HaveAsked (G.has_passed gate.now) (G.is_done gate.now)
        (length job.now.tree.parents) job.now.turns g.ended.items) }
    ensures refused { IfErr result (IsWorkersReason
        (G.has_passed gate.now) (G.may_refuse gate.now) (G.is_done gate.now)
        (length job.now.tree.parents) job.now.turns) }
{
    let turns = job.turns();
    let (sends, recvs) = split_all::<R>(alloc, links, openings, job.scripts(), turns, room)?;
    let gathered = run_workers(
        rt,
        rt,
        alloc,
        job.tree(),
        sends,
        recvs,
        job.items(),
        job.openings(),
        turns,
        gate,
    )?;
    Ok(gathered)
}
