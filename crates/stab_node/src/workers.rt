ghost use Rattle.std.specs.List.{AllZip};
ghost use Rattle.std.specs.Thread.{IsSend, IsSync};
ghost use Rattle.std.specs.Prelude.{◌≡◌, ◌≤◌, ◌<◌, ◌+◌, [], ◌∷◌, All, Err, IfErr, IfOk};
ghost use Rattle.std.specs.Prelude.{MatchResult, length, map};
ghost use Rattle.std.specs.VecDeque.{deque_capacity, deque_len};
ghost use Rattle.stab_node.specs.Turns.{IsRefused};
ghost use Rattle.stab_node.specs.Answers.{HasWorked, node_ends};
ghost use Rattle.stab_node.specs.FirstFault.{IsReasonAmong, first_of};
ghost use Rattle.stab_node.specs.InitialItems.{initial_at};

use crate::account::NodeAccount;
use crate::fault::NodeFault;
use crate::first::first_items;
use crate::gate::Gate;
use crate::worker::work;
use crate::worker_ends::WorkerEnds;
use crate::workers_fault::WorkersFault;
use stab_ends::{RecvSide, SendSide};
use stab_frames::Item;
use stab_tree::Openings;
use std::alloc::Global;
use std::collections::VecDeque;
use std::snapshot::Snapshot;
use std::sync::Wait;
use std::thread;
use std::thread::{Promise, Threads};

/// What a worker answers.
type Answer<U, D> = Result<NodeAccount<<U as RecvSide>::Done, <D as SendSide>::Done>, NodeFault>;

/// The promise of a worker: it answers for the ends that it took what `work` answers.
#[derive(Drop)]
struct WorkPromise<'e, U: RecvSide, D: SendSide, G: Gate> {
    ends: Snapshot<WorkerEnds<U, D>>,
    first: &'e [Item],
    turns: u32,
    gate: &'e G,
}

impl<'e, U: RecvSide, D: SendSide, G: Gate> Promise<
    Result<NodeAccount<U::Done, D::Done>, NodeFault>,
> for WorkPromise<'e, U, D, G> {
    ghost use Rattle.std.specs.Prelude.{◌≡◌, MatchResult};
    ghost use Rattle.stab_node.specs.Turns.{IsRefused};
    ghost use Rattle.stab_node.specs.declared.fault.NodeFault.TheVariants.{Gate as Refused};
    ghost use Rattle.stab_node.specs.Answers.{HasWorked, node_ends};

    ghost kept_by = { λ p r. MatchResult r
        (λ a. HasWorked (G.has_passed p.gate.now p.ends.value.node) D.may_refuse_offer
        p.turns p.first.now
        (node_ends U.received U.link D.sent D.link p.ends.value.up p.ends.value.downs.items)
        (node_ends U.done_received U.done_link D.done_sent D.done_link a.up a.downs.items)
        a.received.items a.ended)
        (λ fault. fault ≡ Refused → IsRefused (G.has_passed p.gate.now p.ends.value.node)
        (G.may_refuse p.gate.now p.ends.value.node) p.turns)
        × G.is_done p.gate.now p.ends.value.node };
}

/// Starts a worker for each of these, in their order, waits for all, and answers their accounts. An
/// error is the first node whose worker could not be started, after which none is, or else the
/// first one whose worker gave up. The list that is given has room for the accounts.
pub(crate) fn run_each<'e, R: Threads + Wait + Sync, P: Sync, U, D, G>(
    rt: &'e R,
    pass: &'e P,
    alloc: Global,
    mut workers: VecDeque<WorkerEnds<U, D>>,
    root: u16,
    published: &'e [Item],
    openings: &'e Openings,
    turns: u32,
    gate: &'e G,
    accounts: VecDeque<NodeAccount<U::Done, D::Done>>,
) -> Result<VecDeque<NodeAccount<U::Done, D::Done>>, WorkersFault>
where
    U: RecvSide<Pass = P> + Send,
    D: SendSide<Pass = P> + Send,
    G: Gate + Sync,
    U::Done: Send,
    D::Done: Send,
    requires turns { 1 ≤ turns }
    requires known { All (λ node. node < length openings.now.lists)
        (map (λ s. s.node) workers.items) }
    requires none { accounts.items ≡ [] }
    requires room { deque_len workers ≤ deque_capacity accounts }
    requires kinds { IsSync R.row × IsSync P.row × IsSend U.row × IsSend D.row × IsSync G.row
        × IsSend U.Done.row × IsSend D.Done.row }
    ensures accounts { IfOk result (λ accounts. AllZip (λ s a.
        HasWorked (G.has_passed gate.now s.node) D.may_refuse_offer turns
        (initial_at root published.now openings.now.lists s.node)
        (node_ends U.received U.link D.sent D.link s.up s.downs.items)
        (node_ends U.done_received U.done_link D.done_sent D.done_link a.up a.downs.items)
        a.received.items a.ended
        × G.is_done gate.now s.node) workers.items accounts.items) }
    ensures len { IfOk result (λ accounts. deque_len accounts ≡ deque_len workers) }
    ensures room { IfOk result (λ new. deque_capacity new ≡ deque_capacity accounts) }
    ensures refused { IfErr result (IsReasonAmong
        (G.has_passed gate.now) (G.may_refuse gate.now) (G.is_done gate.now) turns
        (map (λ s. s.node) workers.items)) }
{
    let Some(ends) = workers.pop_front() else {
        return Ok(accounts);
    };
    thread::scope(
        thread::scope_env(),
        rt,
        move |scope| -> Result<VecDeque<NodeAccount<U::Done, D::Done>>, WorkersFault>
            requires turns { 1 ≤ turns }
            requires node { ends.node < length openings.now.lists }
            requires known { All (λ node. node < length openings.now.lists)
                (map (λ s. s.node) workers.items) }
            requires none { accounts.items ≡ [] }
            requires room { deque_len workers + 1 ≤ deque_capacity accounts }
            requires kinds { IsSync R.row × IsSync P.row × IsSend U.row × IsSend D.row
                × IsSync G.row × IsSend U.Done.row × IsSend D.Done.row }
            ensures accounts { IfOk result (λ accounts. AllZip (λ s a.
                HasWorked (G.has_passed gate.entry.now s.node) D.may_refuse_offer turns
                (initial_at root published.entry.now openings.entry.now.lists s.node)
                (node_ends U.received U.link D.sent D.link s.up s.downs.items)
                (node_ends U.done_received U.done_link D.done_sent D.done_link
                a.up a.downs.items)
                a.received.items a.ended
                × G.is_done gate.entry.now s.node) (ends ∷ workers.items) accounts.items) }
            ensures len { IfOk result (λ accounts. deque_len accounts ≡ deque_len workers + 1) }
            ensures room { IfOk result (λ new. deque_capacity new ≡ deque_capacity accounts) }
            ensures refused { IfErr result (IsReasonAmong (G.has_passed gate.entry.now)
                (G.may_refuse gate.entry.now) (G.is_done gate.entry.now) turns
                (ends.node ∷ map (λ s. s.node) workers.items)) }
        {
            let node = ends.node;
            let first = first_items(root, published, openings, node);
            let promise = WorkPromise {
                ends: Snapshot::of(&ends),
                first,
                turns,
                gate,
            };
            let worker = match scope.spawn_with(
                promise,
                move || -> Answer<U, D>
                    requires turns { 1 ≤ turns }
                    ensures work { MatchResult result
                        (λ a. HasWorked (G.has_passed gate.entry.now ends.node) D.may_refuse_offer
                        turns first.entry.now
                        (node_ends U.received U.link D.sent D.link ends.up ends.downs.items)
                        (node_ends U.done_received U.done_link D.done_sent D.done_link
                        a.up a.downs.items)
                        a.received.items a.ended)
                        (λ fault. fault ≡ NodeFault.Gate
                        → IsRefused (G.has_passed gate.entry.now ends.node)
                        (G.may_refuse gate.entry.now ends.node) turns) }
                    ensures done { G.is_done gate.entry.now ends.node }
                {
                    let WorkerEnds { node, up, downs } = ends;
                    work(pass, alloc, node, up, downs, first, turns, gate)
                },
            ) {
                Ok(worker) => worker,
                Err(_) => {
                    gate.done(node);
                    leave_out(gate, workers);
                    return Err(WorkersFault::Thread(node));
                }
            };
            let rest = run_each(
                rt, pass, alloc, workers, root, published, openings, turns, gate, accounts,
            );
            put_first(node, worker.join(rt), rest)
        },
    )
}

/// Tells the gate that none of these makes a turn, so nobody waits for them.
fn leave_out<U: Drop, D: Drop, G: Gate>(gate: &G, mut workers: VecDeque<WorkerEnds<U, D>>)
    ensures { All (λ node. G.is_done gate.now node) (map (λ s. s.node) workers.items) }
{
    if let Some(worker) = workers.pop_front() {
        gate.done(worker.node);
        leave_out(gate, workers);
    }
}

/// What a worker answered, put before what those of the nodes after it came to. Its own fault goes
/// before those of other nodes, but not before that of a worker that could not be started.
fn put_first<A: Drop, B: Drop>(
    node: u16,
    answer: Result<NodeAccount<A, B>, NodeFault>,
    rest: Result<VecDeque<NodeAccount<A, B>>, WorkersFault>,
) -> Result<VecDeque<NodeAccount<A, B>>, WorkersFault>
    requires room { IfOk rest (λ others. deque_len others < deque_capacity others) }
    ensures accounts { IfOk result (λ accounts. MatchResult answer
        (λ account. MatchResult rest
        (λ others. (accounts.items ≡ account ∷ others.items)
        × (deque_len accounts ≡ deque_len others + 1)
        × (deque_capacity accounts ≡ deque_capacity others))
        (λ _. ⊥))
        (λ _. ⊥)) }
    ensures fault { IfErr result (λ fault. MatchResult answer
        (λ _. rest ≡ Err fault)
        (λ why. MatchResult rest
        (λ _. fault ≡ WorkersFault.Node node why)
        (λ later. fault ≡ first_of (WorkersFault.Node node why) later))) }
{
    match (answer, rest) {
        (Ok(account), Ok(mut accounts)) => {
            accounts.push_front_reserved(account);
            Ok(accounts)
        }
        (Err(fault), Ok(_) | Err(WorkersFault::Node(_, _))) => {
            Err(WorkersFault::Node(node, fault))
        }
        (_, Err(fault)) => Err(fault),
    }
}
