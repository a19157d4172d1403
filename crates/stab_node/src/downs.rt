//! A node's lower ends: what a turn does on each, and how they are closed and finished.

ghost use Rattle.std.specs.Prelude.{◌≡◌, ◌⊎◌, ◌≤◌, ◌<◌, [], true, Some, IsTrue, IfNone, IfSome};
ghost use Rattle.std.specs.Prelude.{OnOk};
ghost use Rattle.std.specs.Prelude.{All, map};
ghost use Rattle.std.specs.Prelude.{length};
ghost use Rattle.std.specs.Prelude.{slice_get, vec_capacity};
ghost use Rattle.stab_node.specs.UnderWay.{IsAllAcked, IsInUse, OffersPrefix};
ghost use Rattle.stab_node.specs.UnderWay.{but_for_the_close};
ghost use Rattle.stab_node.specs.Work.{OffersUnlessRefused};

use stab_ends::{SendAccount, SendSide};
use stab_frames::Item;
use std::alloc::AllocError;

/// Looks for an acknowledgement, offers the next item where the end is idle and there is one, and
/// sends.
#[tactic(auto, using(crate::proofs::Prefixes::offers_no_more, crate::proofs::Offers::in_use_after_poll),)]
pub(crate) fn serve_down<D: SendSide>(
    pass: &D::Pass,
    down: &mut D,
    received: &[Item],
) -> Result<(), AllocError>
    ensures offered { OffersPrefix received.now (D.sent down.old)
        → OffersPrefix received.now (D.sent down.new) }
    ensures in_use { IsInUse (D.sent down.old) → IsInUse (D.sent down.new) }
    ensures all { OnOk result (IsInUse (D.sent down.old)
        → OffersPrefix received.now (D.sent down.old)
        → OffersUnlessRefused D.may_refuse_offer received.now (D.link down.new)
        (D.sent down.new)) }
    ensures link { D.link down.new ≡ D.link down.old }
{
    down.poll_ack(pass)?;
    offer_next(pass, down, received)?;
    down.send(pass)?;
    Ok(())
}

/// Offers the next item, where the end is idle and there is one.
#[tactic(auto, using(crate::proofs::Prefixes::offers_more, crate::proofs::Offers::in_use_after_offer),)]
fn offer_next<D: SendSide>(
    pass: &D::Pass,
    down: &mut D,
    received: &[Item],
) -> Result<(), AllocError>
    ensures offered { OffersPrefix received.now (D.sent down.old)
        → OffersPrefix received.now (D.sent down.new) }
    ensures in_use { IsInUse (D.sent down.old) → IsInUse (D.sent down.new) }
    ensures all { OnOk result (IsInUse (D.sent down.old)
        → OffersPrefix received.now (D.sent down.old)
        → OffersUnlessRefused D.may_refuse_offer received.now (D.link down.old)
        (D.sent down.new)) }
    ensures link { D.link down.new ≡ D.link down.old }
{
    if let Some(item) = next_item(down.account(), received) {
        down.offer(pass, item)?;
    }
    Ok(())
}

/// The item that an end offers next: where it is idle, the first of those received that it has not
/// offered.
fn next_item(account: &SendAccount, received: &[Item]) -> Option<Item>
    ensures next { IfSome result (λ item.
        slice_get received.now (length account.now.offered) ≡ Some item) }
    ensures none { IfNone result ((length account.now.offered ≡ account.now.acked → ⊥)
        ⊎ (length received.now ≤ length account.now.offered)) }
{
    if account.is_idle() {
        received.get(account.offered.len()).copied()
    } else {
        None
    }
}

/// Serves each lower end once, in their order.
pub(crate) fn serve_downs<D: SendSide>(
    pass: &D::Pass,
    downs: &mut [D],
    received: &[Item],
) -> Result<(), AllocError>
    ensures offered { All (OffersPrefix received.now) (map D.sent downs.old)
        → All (OffersPrefix received.now) (map D.sent downs.new) }
    ensures in_use { All IsInUse (map D.sent downs.old) → All IsInUse (map D.sent downs.new) }
    ensures all { OnOk result (All IsInUse (map D.sent downs.old)
        → All (OffersPrefix received.now) (map D.sent downs.old)
        → All (λ d. OffersUnlessRefused D.may_refuse_offer received.now (D.link d) (D.sent d))
        downs.new) }
    ensures links { map D.link downs.new ≡ map D.link downs.old }
{
    'each: for down in downs.iter_mut() {
        serve_down(pass, down, received)?;
    }
    Ok(())
}

/// Whether each lower end has offered all that the node received, and all of it is acknowledged.
pub(crate) fn all_served<D: SendSide>(downs: &[D], received: &[Item]) -> bool
    ensures { IsTrue result → All (IsAllAcked (length received.now)) (map D.sent downs.now) }
{
    'each: for down in downs {
        let account = down.account();
        if !account.is_idle() || account.offered.len() != received.len() {
            return false;
        }
    }
    true
}

/// Closes each lower end, in their order.
pub(crate) fn close_all<D: SendSide>(pass: &D::Pass, downs: &mut [D]) -> Result<(), AllocError>
    ensures closed { OnOk result (All (λ s. s.closed ≡ true) (map D.sent downs.new)) }
    ensures accounts { map (λ d. but_for_the_close (D.sent d)) downs.new
        ≡ map (λ d. but_for_the_close (D.sent d)) downs.old }
    ensures links { map D.link downs.new ≡ map D.link downs.old }
{
    'each: for down in downs.iter_mut() {
        close_down(pass, down)?;
    }
    Ok(())
}

/// Closes a lower end.
#[tactic(auto, using(crate::proofs::Prefixes::closes_only))]
fn close_down<D: SendSide>(pass: &D::Pass, down: &mut D) -> Result<(), AllocError>
    ensures closed { OnOk result ((D.sent down.new).closed ≡ true) }
    ensures account { but_for_the_close (D.sent down.new) ≡ but_for_the_close (D.sent down.old) }
    ensures link { D.link down.new ≡ D.link down.old }
{
    down.close(pass)?;
    Ok(())
}

/// Finishes each lower end, in their order, into a list that has room for them.
pub(crate) fn finish_all<D: SendSide>(downs: Vec<D>, room: Vec<D::Done>) -> Vec<D::Done>
    requires empty { room.items ≡ [] }
    requires room { length downs.items ≤ vec_capacity room }
    ensures accounts { map D.done_sent result.items ≡ map D.sent downs.items }
    ensures links { map D.done_link result.items ≡ map D.link downs.items }
{
    let mut dones = room;
    'each: for down in downs {
        dones.push_reserved(down.finish());
    }
    dones
}
