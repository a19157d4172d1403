ghost use Rattle.std.specs.Prelude.{◌≡◌, ◌&&◌, not, true, false, if◌then◌else◌, is_none, is_some};
ghost use Rattle.std.specs.Prelude.{ℕ, ◌+◌, ◌%◌, List, length, set};
ghost use Rattle.stab_frames.specs.Parameters.{fault_of};
ghost use Rattle.stab_line.specs.Acts.{IsPolled, answered};
ghost use Rattle.stab_line.specs.Ends.{acknowledges, after_frame, frame_to_send};
ghost use Rattle.stab_line.specs.Line.{with_taken};
ghost use Rattle.stab_c.specs.Meaning.{frame_of, parameters_of, receiver_end, sender_end};
ghost use Rattle.stab_c.specs.Meaning.{written_frame};
ghost use Rattle.stab_c.specs.NodeList.{IsList, counted, is_left_behind, is_old, item_kept};
ghost use Rattle.stab_c.specs.NodeList.{loses_frame, offered_next, takes_frame};
ghost use Rattle.stab_line.specs.Session.{after_message, has, may_send, sent_now, turn_after};
ghost use Rattle.stab_line.specs.SessionActs.{IsAckHandled, IsFrameHandled, IsFrameSentInTurn};
ghost use Rattle.stab_c.specs.SessionMeaning.{session_of};

use crate::child::{Child, rignolda_child_on_ack, rignolda_node_poll};
use crate::line::{LineFrame, LinkParams};
use crate::node::{Node, rignolda_node_on_frame};
use crate::receiver::rignolda_receiver_is_fresh;
use crate::session::{Session, handles, is_in_turn, rignolda_session_has};

/// Where the end may send on its connection: offers the child its next item, writes the frame to
/// send to the child there now, gives the turn away, and returns true. Returns false where there is
/// none; where the end may not send, the child is offered nothing.
#[unsafe(no_mangle)]
pub extern "C" fn rignolda_session_poll(
    node: &Node,
    child: &mut Child,
    session: &mut Session,
    list: &[u32],
    frame: &mut LineFrame,
) -> bool
    ensures some { result ≡ is_some (sent_now (session_of session.old)
        (frame_to_send (offered_next (sender_end child.old.sender)
        (item_kept node.now list.now child.old.offered)))) }
    ensures written { frame.new ≡ written_frame frame.old (sent_now (session_of session.old)
        (frame_to_send (offered_next (sender_end child.old.sender)
        (item_kept node.now list.now child.old.offered)))) }
    ensures session { session_of session.new ≡ turn_after (session_of session.old)
        (answered result (frame_of frame.new)) }
    ensures number { session.new.number ≡ session.old.number }
    ensures refused { result ≡ false → session.new ≡ session.old }
    ensures waits { may_send (session_of session.old) ≡ false → child.new ≡ child.old }
    ensures act { may_send (session_of session.old) ≡ true → (items : List ℕ)
        → IsList node.now list.now items
        → is_left_behind node.now child.old (length list.now) ≡ false
        → IsPolled items child.old.offered (sender_end child.old.sender) child.new.offered
        (sender_end child.new.sender) (answered result (frame_of frame.new)) }
    ensures left { is_left_behind node.now child.old (length list.now) ≡ true →
        (child.new ≡ child.old)
        × IsFrameSentInTurn (sender_end child.old.sender) (session_of session.old)
        (answered result (frame_of frame.new)) (session_of session.new) }
{
    if !is_in_turn(session) || !rignolda_node_poll(node, child, list, frame) {
        return false;
    }
    session.turn = 0;
    true
}

/// Gives the sender of a child an acknowledgement that comes by this connection, if the end has it,
/// and counts it. Returns true if it is the one that the sender waits for.
#[unsafe(no_mangle)]
pub extern "C" fn rignolda_session_child_on_ack(
    child: &mut Child,
    session: &mut Session,
    params: &LinkParams,
    number: u64,
    label: u16,
) -> bool
    ensures waited { result ≡ (has (session_of session.old) number
        && (is_none (fault_of params.now.capacity params.now.labels)
        && acknowledges (sender_end child.old.sender) label)) }
    ensures refused { result ≡ false → child.new.sender ≡ child.old.sender }
    ensures session { session_of session.new ≡ after_message (session_of session.old) number }
    ensures number { session.new.number ≡ session.old.number }
    ensures dropped { has (session_of session.old) number ≡ false →
        (session.new ≡ session.old) × (child.new ≡ child.old) }
    ensures act { is_none (fault_of params.now.capacity params.now.labels) ≡ true →
        IsAckHandled (parameters_of params.now) (sender_end child.old.sender)
        (session_of session.old) number label result (sender_end child.new.sender)
        (session_of session.new) }
    ensures offered { child.new.offered ≡ child.old.offered }
    ensures acknowledged { child.new.acknowledged ≡ counted result child.old.acknowledged }
    ensures ignored { child.new.ignored ≡
        counted (has (session_of session.old) number && not result) child.old.ignored }
{
    handles(session, number) && rignolda_child_on_ack(child, params, label)
}

/// Gives the node a frame that comes by this connection, if the end has it, and returns true if the
/// node takes it. A fresh frame without a place in the list is lost, and is not to be acknowledged:
/// it gives the end no turn.
#[unsafe(no_mangle)]
pub extern "C" fn rignolda_session_node_on_frame(
    node: &mut Node,
    session: &mut Session,
    number: u64,
    list: &mut [u32],
    frame: &LineFrame,
) -> bool
    ensures taken { result ≡ (has (session_of session.old) number
        && takes_frame node.old list.old (frame_of frame.now)) }
    ensures written { list.new ≡
        (if result then set list.old (node.old.length % length list.old) frame.now.item
        else list.old) }
    ensures list { (items : List ℕ) → IsList node.old list.old items
        → IsList node.new list.new (with_taken result items frame.now.item) }
    ensures length { node.new.length ≡
        (if result then node.old.length + 1 else node.old.length) }
    ensures forgotten { node.new.forgotten ≡ node.old.forgotten }
    ensures receiver { receiver_end node.new.above ≡
        (if result then after_frame (receiver_end node.old.above) (frame_of frame.now)
        else receiver_end node.old.above) }
    ensures count { node.new.old_frames ≡
        counted (has (session_of session.old) number
        && is_old (receiver_end node.old.above) (frame_of frame.now)) node.old.old_frames }
    ensures refused { result ≡ false → node.new.above ≡ node.old.above }
    ensures session { session_of session.new ≡
        (if loses_frame node.old list.old (frame_of frame.now) then session_of session.old
        else after_message (session_of session.old) number) }
    ensures number { session.new.number ≡ session.old.number }
    ensures dropped { has (session_of session.old) number ≡ false →
        (session.new ≡ session.old) × (node.new ≡ node.old) }
    ensures act { loses_frame node.old list.old (frame_of frame.now) ≡ false →
        IsFrameHandled (receiver_end node.old.above) (session_of session.old)
        number (frame_of frame.now) result (receiver_end node.new.above) (session_of session.new) }
{
    if !rignolda_session_has(session, number) {
        return false;
    }
    let taken = rignolda_node_on_frame(node, list, frame);
    // (a frame that is not taken leaves the receiver as it was)
    if taken || !rignolda_receiver_is_fresh(&node.above, frame) {
        session.turn = 1;
    }
    taken
}
