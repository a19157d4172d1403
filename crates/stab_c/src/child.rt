ghost use Rattle.std.specs.Prelude.{◌≡◌, ◌&&◌, not, true, false, is_none, is_some, length, List};
ghost use Rattle.std.specs.Prelude.{ℕ, ◌+◌, ◌<◌, IfSome, if◌then◌else◌};
ghost use Rattle.stab_frames.specs.Parameters.{fault_of};
ghost use Rattle.stab_line.specs.Acts.{IsAckReceived, IsFrameSent, IsPolled, answered};
ghost use Rattle.stab_line.specs.Ends.{acknowledges, after_ack, frame_to_send, new_sender};
ghost use Rattle.stab_c.specs.Meaning.{frame_of, parameters_of, sender_end, written_frame};
ghost use Rattle.stab_c.specs.NodeList.{IsList, counted, is_left_behind, item_kept, offered_next};
ghost use Rattle.stab_c.specs.NodeList.{takes_next};

use crate::line::{LineFrame, LinkParams};
use crate::node::{Node, count_one, slot};
use crate::sender::{
    SenderHalf, hold, rignolda_sender_frame, rignolda_sender_init, rignolda_sender_on_ack,
    would_take,
};

/// A child of a node, as C sees it: the sender of the link to it, and counts.
#[repr(C)]
#[derive(Clone, Copy)]
pub struct Child {
    /// The sender of the link to the child.
    pub sender: SenderHalf,
    /// How many items of the list, from its front, the sender was offered, or were before the place
    /// at which the child began.
    pub offered: u64,
    /// How many of them were acknowledged; it stops at the highest count.
    pub acknowledged: u64,
    /// How many acknowledgements changed nothing; it stops at the highest count.
    pub ignored: u64,
}

/// Makes a child that was offered nothing, with an idle and open sender of this label.
#[unsafe(no_mangle)]
pub extern "C" fn rignolda_child_init(child: &mut Child, label: u16)
    ensures sender { sender_end child.new.sender ≡ new_sender label }
    ensures offered { child.new.offered ≡ 0 }
    ensures acknowledged { child.new.acknowledged ≡ 0 }
    ensures ignored { child.new.ignored ≡ 0 }
{
    rignolda_sender_init(&mut child.sender, label);
    child.offered = 0;
    child.acknowledged = 0;
    child.ignored = 0;
}

/// Offers the sender of the child the next item of the node's list, where the node keeps it and the
/// sender is open and idle.
fn offer_next(node: &Node, child: &mut Child, list: &[u32])
    ensures sender { sender_end child.new.sender ≡ offered_next (sender_end child.old.sender)
        (item_kept node.now list.now child.old.offered) }
    ensures offered { child.new.offered ≡
        (if takes_next (sender_end child.old.sender)
        (item_kept node.now list.now child.old.offered)
        then child.old.offered + 1 else child.old.offered) }
    ensures acknowledged { child.new.acknowledged ≡ child.old.acknowledged }
    ensures ignored { child.new.ignored ≡ child.old.ignored }
    ensures left { is_left_behind node.now child.old (length list.now) ≡ true →
        child.new ≡ child.old }
{
    if !would_take(&child.sender) {
        return;
    }
    let Some(item) = item_at(node, child.offered, list) else {
        return;
    };
    hold(&mut child.sender, item);
    child.offered += 1;
}

/// The item at a place of the node's list, if the node keeps it.
fn item_at(node: &Node, place: u64, list: &[u32]) -> Option<u32>
    ensures item { result ≡ item_kept node.now list.now place }
    ensures below { IfSome result (λ _. place < node.now.length) }
{
    let size = list.len() as u64;
    // (as `first_kept`, without a maximum to work out)
    if place < node.forgotten || place >= node.length || node.length - place > size {
        return None;
    }
    Some(list[slot(place, list.len())])
}

/// Offers the child its next item, where there is one and its sender is open and idle. Then it
/// writes the frame to send to the child now, and returns true; or returns false where there is
/// none. A child that is left behind is offered nothing.
#[unsafe(no_mangle)]
pub extern "C" fn rignolda_node_poll(
    node: &Node,
    child: &mut Child,
    list: &[u32],
    frame: &mut LineFrame,
) -> bool
    ensures sender { sender_end child.new.sender ≡ offered_next (sender_end child.old.sender)
        (item_kept node.now list.now child.old.offered) }
    ensures offered { child.new.offered ≡
        (if takes_next (sender_end child.old.sender)
        (item_kept node.now list.now child.old.offered)
        then child.old.offered + 1 else child.old.offered) }
    ensures acknowledged { child.new.acknowledged ≡ child.old.acknowledged }
    ensures ignored { child.new.ignored ≡ child.old.ignored }
    ensures some { result ≡ is_some (frame_to_send (sender_end child.new.sender)) }
    ensures written { frame.new ≡
        written_frame frame.old (frame_to_send (sender_end child.new.sender)) }
    ensures act { (items : List ℕ) → IsList node.now list.now items
        → is_left_behind node.now child.old (length list.now) ≡ false
        → IsPolled items child.old.offered (sender_end child.old.sender) child.new.offered
        (sender_end child.new.sender) (answered result (frame_of frame.new)) }
    ensures left { is_left_behind node.now child.old (length list.now) ≡ true →
        (child.new ≡ child.old)
        × IsFrameSent (sender_end child.old.sender) (answered result (frame_of frame.new)) }
{
    offer_next(node, child, list);
    rignolda_sender_frame(&child.sender, frame)
}

/// Gives the sender of a child an acknowledgement, as `rignolda_sender_on_ack` does, and counts it.
#[unsafe(no_mangle)]
pub extern "C" fn rignolda_child_on_ack(child: &mut Child, params: &LinkParams, label: u16) -> bool
    ensures waited { result ≡ (is_none (fault_of params.now.capacity params.now.labels)
        && acknowledges (sender_end child.old.sender) label) }
    ensures step { is_none (fault_of params.now.capacity params.now.labels) ≡ true →
        sender_end child.new.sender ≡
        after_ack (parameters_of params.now) (sender_end child.old.sender) label }
    ensures refused { result ≡ false → child.new.sender ≡ child.old.sender }
    ensures act { is_none (fault_of params.now.capacity params.now.labels) ≡ true →
        IsAckReceived (parameters_of params.now) (sender_end child.old.sender) label result
        (sender_end child.new.sender) }
    ensures offered { child.new.offered ≡ child.old.offered }
    ensures acknowledged { child.new.acknowledged ≡ counted result child.old.acknowledged }
    ensures ignored { child.new.ignored ≡ counted (not result) child.old.ignored }
{
    let acknowledged = rignolda_sender_on_ack(&mut child.sender, params, label);
    if acknowledged {
        count_one(&mut child.acknowledged);
    } else {
        count_one(&mut child.ignored);
    }
    acknowledged
}
