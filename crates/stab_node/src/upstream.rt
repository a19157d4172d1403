//! A node's upper end: what a turn takes from it.

ghost use Rattle.std.specs.Prelude.{◌≡◌, ◌<◌, ℕ, List, ◌++◌, true, IfOk, option_map, vec_len};
ghost use Rattle.std.specs.Prelude.{vec_capacity};
ghost use Rattle.stab_ends.specs.Accounts.{SenderAccount};
ghost use Rattle.stab_node.specs.Work.{received_by};
ghost use Rattle.stab_node.specs.UnderWay.{EndedIsClosed, IsUnderWay, OffersPrefix};
ghost use Rattle.stab_node.specs.UnderWay.{with_seen};

use stab_ends::{FrameSeen, RecvSide};
use stab_frames::Item;
use std::alloc::AllocError;

/// Takes what the upper end has, where the upstream has not ended, and keeps whether it has ended
/// now. At the root, which has no upper end, it has.
#[tactic(auto, using(crate::proofs::UnderWay::upper_served))]
pub(crate) fn serve_upstream<U: RecvSide>(
    pass: &U::Pass,
    up: &mut Option<U>,
    ended: &mut bool,
    received: &mut Vec<Item>,
) -> Result<(), AllocError>
    ensures under_way { (initial : List ℕ) (downs : List SenderAccount)
        → IsUnderWay initial received.old.items ended.old (option_map U.received up.old) downs
        → IsUnderWay initial received.new.items ended.new (option_map U.received up.new) downs }
    ensures link { option_map U.link up.new ≡ option_map U.link up.old }
{
    if !*ended {
        *ended = take_from(pass, up, received)?;
    }
    Ok(())
}

/// Takes what the upper end has, where there is one, and answers whether the upstream has ended.
fn take_from<U: RecvSide>(
    pass: &U::Pass,
    up: &mut Option<U>,
    received: &mut Vec<Item>,
) -> Result<bool, AllocError>
    ensures received { (initial : List ℕ)
        → received.old.items ≡ received_by (option_map U.received up.old) initial
        → received.new.items ≡ received_by (option_map U.received up.new) initial }
    ensures prefixes { (down : SenderAccount)
        → OffersPrefix received.old.items down → OffersPrefix received.new.items down }
    ensures ended { IfOk result (λ ended. EndedIsClosed ended (option_map U.received up.new)) }
    ensures link { option_map U.link up.new ≡ option_map U.link up.old }
{
    match up {
        None => Ok(true),
        Some(end) => look(pass, end, received),
    }
}

/// Looks for a frame once: a fresh item is added to what the node received, and is acknowledged, as
/// an old one is. True where the end was shown the close.
///
/// The place of an item is reserved before the end looks, so that no item that it takes is lost.
fn look<U: RecvSide>(
    pass: &U::Pass,
    up: &mut U,
    received: &mut Vec<Item>,
) -> Result<bool, AllocError>
    ensures received { (initial : List ℕ)
        → received.old.items ≡ initial ++ (U.received up.old).delivered
        → received.new.items ≡ initial ++ (U.received up.new).delivered }
    ensures prefixes { (down : SenderAccount)
        → OffersPrefix received.old.items down → OffersPrefix received.new.items down }
    ensures ended { IfOk result (λ ended. ended ≡ true → (U.received up.new).closed ≡ true) }
    ensures link { U.link up.new ≡ U.link up.old }
{
    if see(pass, up, received)? {
        return Ok(true);
    }
    up.send_ack(pass)?;
    Ok(false)
}

/// Looks for a frame once, and adds a fresh item to what the node received. True where the end was
/// shown the close.
#[tactic(auto, using(crate::proofs::UnderWay::prefix_with_seen))]
fn see<U: RecvSide>(
    pass: &U::Pass,
    up: &mut U,
    received: &mut Vec<Item>,
) -> Result<bool, AllocError>
    ensures received { (initial : List ℕ)
        → received.old.items ≡ initial ++ (U.received up.old).delivered
        → received.new.items ≡ initial ++ (U.received up.new).delivered }
    ensures prefixes { (down : SenderAccount)
        → OffersPrefix received.old.items down → OffersPrefix received.new.items down }
    ensures ended { IfOk result (λ ended. ended ≡ true → (U.received up.new).closed ≡ true) }
    ensures link { U.link up.new ≡ U.link up.old }
{
    received.reserve(1)?;
    let seen = up.poll_frame(pass)?;
    add_seen(received, seen);
    Ok(seen == FrameSeen::Closed)
}

/// Adds what was seen, where it is a fresh item.
fn add_seen(received: &mut Vec<Item>, seen: FrameSeen)
    requires room { vec_len received.old < vec_capacity received.old }
    ensures { received.new.items ≡ with_seen received.old.items seen }
{
    if let FrameSeen::Fresh(item) = seen {
        received.push_reserved(item);
    }
}

/// Finishes the upper end, where there is one.
pub(crate) fn finish_upper<U: RecvSide>(up: Option<U>) -> Option<U::Done>
    ensures account { option_map U.done_received result ≡ option_map U.received up }
    ensures link { option_map U.done_link result ≡ option_map U.link up }
{
    match up {
        None => None,
        Some(end) => Some(end.finish()),
    }
}
