//! The links of a run, settled: one list of events explains what both finished ends of each say.

ghost use Rattle.std.specs.List.{AllZip};
ghost use Rattle.std.specs.Prelude.{◌≡◌, ◌<◌, ◌∷◌, All, IfErr, IfOk, OnOk, length, map};
ghost use Rattle.stab_run.specs.AnyLinks.{HasReceived, HasSent, IsFollowed, IsOneOf, MayDiffer};
ghost use Rattle.stab_run.specs.AnyLinks.{given_to, received_by, sent_by};
ghost use Rattle.stab_run.specs.LinkRuns.{AllOfEach, AreSettled, HoldsOfFirst, IsFirstSettled};
ghost use Rattle.stab_run.specs.LinkRuns.{acked_of};
ghost use Rattle.stab_run.specs.RunFaults.{IsSettlingReason};
ghost use Rattle.stab_tree.specs.Links.{links_of};
ghost use Rattle.stab_tree.specs.ByChild.{by_child};

use crate::any_link::AnyLink;
use crate::links::Links;
use crate::run_fault::RunFault;
use crate::scripted_recv::ScriptedRecvDone;
use crate::scripted_send::ScriptedSendDone;
use stab_ends::Settled;
use stab_lock::SettleFault;
use stab_tree::{NodeId, Tree};
use std::alloc::Global;
use std::collections::VecDeque;

/// Settles the first link with the first finished end of each side.
fn settle_first(
    links: &mut VecDeque<AnyLink>,
    sends: &mut VecDeque<ScriptedSendDone<'_>>,
    recvs: &mut VecDeque<ScriptedRecvDone<'_>>,
    which: Links,
) -> Result<Settled, SettleFault>
    requires links { 0 < length links.old.items }
    requires one_of { All (IsOneOf which) links.old.items }
    requires sends { AllZip HasSent links.old.items sends.old.items }
    requires recvs { AllZip HasReceived links.old.items recvs.old.items }
    ensures one_of { All (IsOneOf which) links.new.items }
    ensures senders { AllZip HasSent links.new.items sends.new.items }
    ensures receivers { AllZip HasReceived links.new.items recvs.new.items }
    ensures settled { IfOk result (λ settled. IsFirstSettled settled.send.acked
        (map given_to links.old.items) (map sent_by sends.old.items)
        (map received_by recvs.old.items)
        (map given_to links.new.items) (map sent_by sends.new.items)
        (map received_by recvs.new.items)) }
    ensures followed { OnOk result (
        AllOfEach IsFollowed links.new.items sends.new.items recvs.new.items
        → AllOfEach IsFollowed links.old.items sends.old.items recvs.old.items) }
    ensures refused { IfErr result (HoldsOfFirst (MayDiffer which) (map given_to links.old.items)
        (map sent_by sends.old.items) (map received_by recvs.old.items)) }
{
    let link = links.pop_front().unwrap();
    let send = sends.pop_front().unwrap();
    let recv = recvs.pop_front().unwrap();
    link.settle(which, send, recv)
}

/// How many items are acknowledged by the account of the sender's end.
fn acked_by(settled: &Settled) -> u64
    ensures { result ≡ settled.now.send.acked }
{
    settled.send.acked
}

/// Settles each link with its two finished ends, in file order of the children, and answers by node
/// how many items are acknowledged on the link into it.
pub(crate) fn settle_all(
    alloc: Global,
    which: Links,
    tree: &Tree,
    links: Vec<AnyLink>,
    sends: Vec<ScriptedSendDone<'_>>,
    recvs: Vec<ScriptedRecvDone<'_>>,
) -> Result<Vec<Option<u64>>, RunFault>
    requires links { length links.items ≡ length (links_of tree.now.parents) }
    requires one_of { All (IsOneOf which) links.items }
    requires sends { AllZip HasSent links.items sends.items }
    requires recvs { AllZip HasReceived links.items recvs.items }
    ensures acked { IfOk result (λ acked.
        acked.items ≡ by_child tree.now.parents (map acked_of (map sent_by sends.entry.items))) }
    ensures settled { OnOk result (AreSettled (map given_to links.items)
        (map sent_by sends.entry.items) (map received_by recvs.entry.items)) }
    ensures followed { OnOk result (
        AllOfEach IsFollowed links.items sends.entry.items recvs.entry.items) }
    ensures refused { IfErr result (IsSettlingReason which tree.now.parents
        (map given_to links.items) (map sent_by sends.entry.items)
        (map received_by recvs.entry.items)) }
{
    let mut acked = Vec::with_capacity(alloc, usize::from(tree.len()))?;
    let mut links = VecDeque::from(links);
    let mut sends = VecDeque::from(sends);
    let mut recvs = VecDeque::from(recvs);
    'nodes: for place in 0..tree.len() {
        let node = NodeId::new(place);
        match tree.parent(node) {
            None => acked.push_reserved(None),
            Some(_) => match settle_first(&mut links, &mut sends, &mut recvs, which) {
                Ok(settled) => acked.push_reserved(Some(acked_by(&settled))),
                Err(fault) => return Err(RunFault::Settle(node, fault)),
            },
        }
    }
    Ok(acked)
}
