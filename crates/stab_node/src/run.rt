ghost use Rattle.std.specs.Prelude.{◌≡◌, ◌≤◌, IfOk, IfErr, All, length, map};
ghost use Rattle.stab_ends.specs.Accounts.{new_sender, new_receiver};
ghost use Rattle.stab_node.specs.Runs.{HaveAsked, IsRun, IsWorkersReason};
ghost use Rattle.stab_tree.specs.Links.{links_of};
ghost use Rattle.stab_tree.specs.NodeOpenings.{FitTree};

use crate::gate::Gate;
use crate::gathered::{Gathered, gather_accounts};
use crate::scatter::scatter;
use crate::workers::run_each;
use crate::workers_fault::WorkersFault;
use stab_ends::{RecvSide, SendSide};
use stab_frames::Item;
use stab_tree::{Openings, Tree};
use std::alloc::Global;
use std::collections::VecDeque;
use std::sync::Wait;
use std::thread::Threads;

/// Runs one worker per node of a tree, each on a thread of its own, over the ends of its links.
///
/// There are two new ends per link, in file order of the children. What a node's worker does is the
/// contract of [`work`]. It begins with the published items at the root, and with the
/// node's opening elsewhere. Every worker that was started has ended when this call returns.
/// Where a worker cannot be started, those of the nodes after it are not started either.
pub fn run_workers<'e, R: Threads + Wait + Sync, P: Sync, U, D, G>(
    rt: &'e R,
    pass: &'e P,
    alloc: Global,
    tree: &Tree,
    sends: Vec<D>,
    recvs: Vec<U>,
    published: &'e [Item],
    openings: &'e Openings,
    turns: u32,
    gate: &'e G,
) -> Result<Gathered<U::Done, D::Done>, WorkersFault>
where
    U: RecvSide<Pass = P> + Send,
    D: SendSide<Pass = P> + Send,
    G: Gate + Sync,
    U::Done: Send,
    D::Done: Send,
    requires turns { 1 ≤ turns }
    requires fits { FitTree tree.now.parents openings.now }
    requires senders { length sends.items ≡ length (links_of tree.now.parents) }
    requires receivers { length recvs.items ≡ length (links_of tree.now.parents) }
    requires new_senders { All (λ d. D.sent d ≡ new_sender) sends.items }
    requires new_receivers { All (λ u. U.received u ≡ new_receiver) recvs.items }
    // Each node received the published items or its opening, and then what the finished receiver's
    // end of the link into it delivered; the finished sender's end of each link offered a prefix of
    // what the parent received, or all of it, as `work` says of one node.
    ensures run { IfOk result (λ g. IsRun U.done_received D.done_sent
        (λ done. D.may_refuse_offer (D.done_link done))
        tree.now.parents openings.now.lists published.now
        g.received.items g.ended.items g.recvs.items g.sends.items) }
    // The finished ends are of the links of those that were given, in the order of the links.
    ensures sender_links { IfOk result (λ g.
        map D.done_link g.sends.items ≡ map D.link sends.items) }
    ensures receiver_links { IfOk result (λ g.
        map U.done_link g.recvs.items ≡ map U.link recvs.items) }
    // The gate let each turn begin that a worker made, and was told by each node that it is done.
    ensures turns { IfOk result (λ g. HaveAsked (G.has_passed gate.now) (G.is_done gate.now)
        (length tree.now.parents) turns g.ended.items) }
    // Where a worker could not be started, all nodes are done. Where a worker gave up, they are as
    // well, and the turns of every node before it are over; that its gate refused is answered only
    // for a turn that it may refuse, after it let every turn before that one begin.
    ensures refused { IfErr result (IsWorkersReason
        (G.has_passed gate.now) (G.may_refuse gate.now) (G.is_done gate.now)
        (length tree.now.parents) turns) }
{
    let _count = tree.len();
    let root = tree.root().place();
    let workers = scatter(alloc, tree, sends, recvs)?;
    let room = VecDeque::with_capacity(alloc, workers.len())?;
    let workers = VecDeque::from(workers);
    let answered = run_each(
        rt, pass, alloc, workers, root, published, openings, turns, gate, room,
    )?;
    let accounts = Vec::from(answered);
    let gathered = gather_accounts(alloc, tree, accounts)?;
    Ok(gathered)
}
