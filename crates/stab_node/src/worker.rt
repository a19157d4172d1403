ghost use Rattle.std.specs.List.{AllZip};
ghost use Rattle.std.specs.Prelude.{◌≡◌, ◌≤◌, ℕ, List, [], true, false, IfOk, IfErr, OnOk, All};
ghost use Rattle.std.specs.Prelude.{map};
ghost use Rattle.std.specs.Prelude.{length, option_map, vec_capacity};
ghost use Rattle.stab_node.specs.Work.{AreNew, IsWork, OffersUnlessRefused};
ghost use Rattle.stab_node.specs.UnderWay.{IsUnderWay, HasEnded, IsAllAcked, IsInUse};
ghost use Rattle.stab_node.specs.Turns.{IsOver, IsRefused};

use crate::account::{Ended, NodeAccount};
use crate::downs::{all_served, close_all, finish_all, serve_downs};
use crate::fault::NodeFault;
use crate::gate::Gate;
use crate::upstream::{finish_upper, serve_upstream};
use stab_ends::{RecvSide, SendSide};
use stab_frames::Item;
use std::alloc::{AllocError, Global};

/// The whole work of a node, over its upper end and its lower ends.
///
/// A turn asks the gate, takes what the upper end has, and then serves each lower end in its order:
/// it looks for an acknowledgement, offers the next item where the end is idle, and sends. The
/// worker makes no further turn once its upstream has ended and each lower end has all that the
/// node received acknowledged, or once it has made `turns` turns. Then it closes each lower end,
/// tells the gate that it is done, and finishes its ends. A root has no upper end, and its upstream
/// counts as ended.
///
/// `first` is what the node has before its first turn: the items that it publishes at the root, and
/// at any other node items that nobody published. They come before what the upper end delivers, and
/// are handed on as that is.
///
/// It is refused with Gate where the gate refuses a turn, and with Memory where memory is refused,
/// to the worker itself or to a call of an end. Then it tells the gate that it is done and makes no
/// further call on its ends, which are given up: what their earlier calls did stays in the links.
///
/// Where the calls of the ends and of the gate return, so does this one, since its turns are
/// counted. Over ends whose `Pass` is `()`, no call of an end waits.
pub fn work<P, U, D, G>(
    pass: &P,
    alloc: Global,
    node: u16,
    up: Option<U>,
    downs: Vec<D>,
    initial: &[Item],
    turns: u32,
    gate: &G,
) -> Result<NodeAccount<U::Done, D::Done>, NodeFault>
where
    U: RecvSide<Pass = P>,
    D: SendSide<Pass = P>,
    G: Gate,
    requires turns { 1 ≤ turns }
    // Where the ends had made no call before: the node received what it began with, followed by
    // what its finished upper end delivered, where it has one. Each finished lower end offered a
    // prefix of that, and is closed. Ended as Upstream, the upper end was shown the close, and each
    // lower end offered all of it and has all of it acknowledged.
    ensures work { IfOk result (λ a. AreNew (option_map U.received up) (map D.sent downs.items)
        → IsWork initial.now a.received.items
        (option_map U.done_received a.up) (map D.done_sent a.downs.items) a.ended) }
    // In every case each lower end offered all that the node received, or the last item that it
    // offered waits for its acknowledgement, unless it is an end that may refuse an offer.
    ensures offers { IfOk result (λ a. AreNew (option_map U.received up) (map D.sent downs.items)
        → AllZip (OffersUnlessRefused D.may_refuse_offer a.received.items)
        (map D.done_link a.downs.items) (map D.done_sent a.downs.items)) }
    // There is a finished upper end where one was given, of the same link, and the finished lower
    // ends are of the links of those that were given, in their order.
    ensures upper_link { IfOk result (λ a. option_map U.done_link a.up ≡ option_map U.link up) }
    ensures lower_links { IfOk result (λ a.
        map D.done_link a.downs.items ≡ map D.link downs.items) }
    // Ended as Turns, the gate let every turn begin; ended as Upstream, every turn up to some turn,
    // at least the first.
    ensures turns { IfOk result (λ a. IsOver (G.has_passed gate.now node) turns a.ended) }
    // That the gate refused is answered only for a turn that it may refuse, after it let every turn
    // before that one begin.
    ensures refused { IfErr result (λ fault. fault ≡ NodeFault.Gate
        → IsRefused (G.has_passed gate.now node) (G.may_refuse gate.now node) turns) }
    // In every case, also after a fault, the gate was told that the node is done.
    ensures done { G.is_done gate.now node }
{
    let mut up = up;
    let mut downs = downs;
    let served = serve(pass, alloc, node, &mut up, &mut downs, initial, turns, gate);
    gate.done(node);
    let served = served?;
    Ok(NodeAccount {
        received: served.received,
        up: finish_upper(up),
        downs: finish_all(downs, served.room),
        ended: served.ended,
    })
}

/// What the turns of a node leave beside its ends.
#[derive(Drop)]
struct Served<B> {
    received: Vec<Item>,
    ended: Ended,
    /// A list with room for the finished lower ends.
    room: Vec<B>,
}

/// Makes the turns of a node, and closes its lower ends.
fn serve<P, U, D, G>(
    pass: &P,
    alloc: Global,
    node: u16,
    up: &mut Option<U>,
    downs: &mut [D],
    initial: &[Item],
    turns: u32,
    gate: &G,
) -> Result<Served<D::Done>, NodeFault>
where
    U: RecvSide<Pass = P>,
    D: SendSide<Pass = P>,
    G: Gate,
    requires turns { 1 ≤ turns }
    ensures work { IfOk result (λ served.
        AreNew (option_map U.received up.old) (map D.sent downs.old)
        → IsWork initial.now served.received.items
        (option_map U.received up.new) (map D.sent downs.new) served.ended) }
    ensures offers { IfOk result (λ served.
        AreNew (option_map U.received up.old) (map D.sent downs.old)
        → All (λ d. OffersUnlessRefused D.may_refuse_offer served.received.items
        (D.link d) (D.sent d)) downs.new) }
    ensures upper_link { option_map U.link up.new ≡ option_map U.link up.old }
    ensures lower_links { map D.link downs.new ≡ map D.link downs.old }
    ensures empty { IfOk result (λ served. served.room.items ≡ []) }
    ensures room { IfOk result (λ served. length downs.new ≤ vec_capacity served.room) }
    ensures turns { IfOk result (λ served. IsOver (G.has_passed gate.now node) turns served.ended) }
    ensures refused { IfErr result (λ fault. fault ≡ NodeFault.Gate
        → IsRefused (G.has_passed gate.now node) (G.may_refuse gate.now node) turns) }
{
    let room = Vec::with_capacity(alloc, downs.len())?;
    let mut received = begun(alloc, initial, up)?;
    let ended = take_turns(pass, node, up, downs, &mut received, turns, gate)?;
    close_all(pass, downs)?;
    Ok(Served {
        received,
        ended,
        room,
    })
}

/// The list of a node before its first turn. It has room for as many more items as the account of
/// the upper end, as far as memory is there: the node adds what that one adds.
fn begun<U: RecvSide>(
    alloc: Global,
    initial: &[Item],
    up: &Option<U>,
) -> Result<Vec<Item>, AllocError>
    ensures items { IfOk result (λ list. list.items ≡ initial.now) }
{
    let mut list = Vec::from_slice(alloc, initial)?;
    if let Some(end) = up {
        let _room = list.reserve_exact(end.account().delivered.capacity());
    }
    Ok(list)
}

/// Makes turns until the worker has handed everything on or its turns are over.
fn take_turns<P, U, D, G>(
    pass: &P,
    node: u16,
    up: &mut Option<U>,
    downs: &mut [D],
    received: &mut Vec<Item>,
    turns: u32,
    gate: &G,
) -> Result<Ended, NodeFault>
where
    U: RecvSide<Pass = P>,
    D: SendSide<Pass = P>,
    G: Gate,
    requires turns { 1 ≤ turns }
    ensures under_way { (initial : List ℕ)
        → IsUnderWay initial received.old.items false (option_map U.received up.old)
        (map D.sent downs.old)
        → IfOk result (λ ended.
        HasEnded initial received.new.items (option_map U.received up.new)
        (map D.sent downs.new) ended) }
    ensures offers { IfOk result (λ ended. (initial : List ℕ)
        → IsUnderWay initial received.old.items false (option_map U.received up.old)
        (map D.sent downs.old)
        → All IsInUse (map D.sent downs.old)
        → All (λ d. OffersUnlessRefused D.may_refuse_offer received.new.items
        (D.link d) (D.sent d)) downs.new) }
    ensures upper_link { option_map U.link up.new ≡ option_map U.link up.old }
    ensures lower_links { map D.link downs.new ≡ map D.link downs.old }
    ensures turns { IfOk result (λ ended. IsOver (G.has_passed gate.now node) turns ended) }
    ensures refused { IfErr result (λ fault. fault ≡ NodeFault.Gate
        → IsRefused (G.has_passed gate.now node) (G.may_refuse gate.now node) turns) }
{
    let mut upstream_ended = false;
    'turns: for turn in 1..=turns {
        if !gate.pass(node, turn) {
            return Err(NodeFault::Gate);
        }
        if make_turn(pass, up, &mut upstream_ended, downs, received)? {
            return Ok(Ended::Upstream);
        }
    }
    Ok(Ended::Turns)
}

/// Makes one turn, and answers whether the upstream has ended and everything is handed on.
fn make_turn<P, U, D>(
    pass: &P,
    up: &mut Option<U>,
    upstream_ended: &mut bool,
    downs: &mut [D],
    received: &mut Vec<Item>,
) -> Result<bool, AllocError>
where
    U: RecvSide<Pass = P>,
    D: SendSide<Pass = P>,
    ensures under_way { (initial : List ℕ)
        → IsUnderWay initial received.old.items upstream_ended.old (option_map U.received up.old)
        (map D.sent downs.old)
        → IsUnderWay initial received.new.items upstream_ended.new (option_map U.received up.new)
        (map D.sent downs.new) }
    ensures in_use { All IsInUse (map D.sent downs.old) → All IsInUse (map D.sent downs.new) }
    ensures offers { OnOk result ((initial : List ℕ)
        → IsUnderWay initial received.old.items upstream_ended.old (option_map U.received up.old)
        (map D.sent downs.old)
        → All IsInUse (map D.sent downs.old)
        → All (λ d. OffersUnlessRefused D.may_refuse_offer received.new.items
        (D.link d) (D.sent d)) downs.new) }
    ensures handed_on { IfOk result (λ all. all ≡ true → (upstream_ended.new ≡ true)
        × All (IsAllAcked (length received.new.items)) (map D.sent downs.new)) }
    ensures upper_link { option_map U.link up.new ≡ option_map U.link up.old }
    ensures lower_links { map D.link downs.new ≡ map D.link downs.old }
{
    serve_upstream(pass, up, upstream_ended, received)?;
    serve_downs(pass, downs, received)?;
    Ok(*upstream_ended && all_served(downs, received))
}
