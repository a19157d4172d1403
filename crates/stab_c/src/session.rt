ghost use Rattle.std.specs.Prelude.{◌≡◌, ◌≢◌, ◌&&◌, true, false, is_none, is_some, if◌then◌else◌};
ghost use Rattle.stab_frames.specs.Parameters.{fault_of};
ghost use Rattle.stab_line.specs.Acts.{answered};
ghost use Rattle.stab_line.specs.Ends.{ack_to_send, acknowledges, after_ack, after_frame, delivers};
ghost use Rattle.stab_line.specs.Ends.{frame_to_send};
ghost use Rattle.stab_c.specs.Meaning.{frame_of, is_set, parameters_of, receiver_end, sender_end};
ghost use Rattle.stab_c.specs.Meaning.{written, written_frame};
ghost use Rattle.stab_line.specs.Session.{after_end, after_message, has, may_send, next_number};
ghost use Rattle.stab_line.specs.Session.{no_session, sent_now, session_next, turn_after};
ghost use Rattle.stab_line.specs.SessionActs.{IsAccepted, IsAckHandled, IsAckSentInTurn};
ghost use Rattle.stab_line.specs.SessionActs.{IsFrameHandled, IsFrameSentInTurn, IsLeft, IsMade};
ghost use Rattle.stab_c.specs.SessionMeaning.{session_of};

use crate::line::{LineFrame, LinkParams};
use crate::receiver::{ReceiverHalf, rignolda_receiver_ack, rignolda_receiver_on_frame};
use crate::sender::{SenderHalf, rignolda_sender_frame, rignolda_sender_on_ack};

/// What one end of a link remembers of its connections, as C sees it.
#[repr(C)]
#[derive(Clone, Copy)]
pub struct Session {
    /// The number of its newest connection; the first has 1.
    pub number: u64,
    /// Not 0 while the end has that connection.
    pub there: u32,
    /// Not 0 while the end may send there.
    pub turn: u32,
}

/// Makes a session that never had a connection.
#[unsafe(no_mangle)]
pub extern "C" fn rignolda_session_init(session: &mut Session)
    ensures step { session_of session.new ≡ no_session }
    ensures number { session.new.number ≡ 0 }
{
    *session = Session {
        number: 0,
        there: 0,
        turn: 0,
    };
}

/// Leaves the connection that there was, and numbers the next one.
fn begin(session: &mut Session, turn: u32) -> u64
    ensures number { result ≡ next_number session.old.number }
    ensures step { session_of session.new ≡ session_next session.old.number (is_set turn) }
    ensures newest { result ≢ 0 → session.new.number ≡ result }
    ensures exhausted { result ≡ 0 → session.new.number ≡ session.old.number }
{
    session.there = 0;
    session.turn = 0;
    if session.number == u64::MAX {
        return 0;
    }
    session.number += 1;
    session.there = 1;
    session.turn = turn;
    session.number
}

/// The end begins to make a connection, and leaves the one that it had. Returns the number of the
/// new one, or 0 where no number is left.
#[unsafe(no_mangle)]
pub extern "C" fn rignolda_session_made(session: &mut Session) -> u64
    ensures number { result ≡ next_number session.old.number }
    ensures step { session_of session.new ≡ session_next session.old.number false }
    ensures newest { result ≢ 0 → session.new.number ≡ result }
    ensures exhausted { result ≡ 0 → session.new.number ≡ session.old.number }
    ensures act { result ≢ 0 → IsMade (session_of session.old) result (session_of session.new) }
{
    begin(session, 0)
}

/// The end accepted a connection, and leaves the one that it had; the first turn is its own.
/// Returns the number of the new one, or 0 where no number is left.
#[unsafe(no_mangle)]
pub extern "C" fn rignolda_session_accepted(session: &mut Session) -> u64
    ensures number { result ≡ next_number session.old.number }
    ensures step { session_of session.new ≡ session_next session.old.number true }
    ensures newest { result ≢ 0 → session.new.number ≡ result }
    ensures exhausted { result ≡ 0 → session.new.number ≡ session.old.number }
    ensures act { result ≢ 0 →
        IsAccepted (session_of session.old) result (session_of session.new) }
{
    begin(session, 1)
}

/// Whether the end has this connection.
#[unsafe(no_mangle)]
pub extern "C" fn rignolda_session_has(session: &Session, number: u64) -> bool
    ensures { result ≡ has (session_of session.now) number }
{
    session.there != 0 && number == session.number
}

/// A connection ended, for whatever reason. Returns true if it is the one that the end had.
#[unsafe(no_mangle)]
pub extern "C" fn rignolda_session_ended(session: &mut Session, number: u64) -> bool
    ensures had { result ≡ has (session_of session.old) number }
    ensures step { session_of session.new ≡ after_end (session_of session.old) number }
    ensures number { session.new.number ≡ session.old.number }
    ensures refused { result ≡ false → session.new ≡ session.old }
    ensures act { IsLeft (session_of session.old) number (session_of session.new) }
{
    if !rignolda_session_has(session, number) {
        return false;
    }
    session.there = 0;
    session.turn = 0;
    true
}

/// A message of a connection comes: whether it is to be handled. Then the turn is the end's own.
pub(crate) fn handles(session: &mut Session, number: u64) -> bool
    ensures handled { result ≡ has (session_of session.old) number }
    ensures step { session_of session.new ≡ after_message (session_of session.old) number }
    ensures number { session.new.number ≡ session.old.number }
    ensures refused { result ≡ false → session.new ≡ session.old }
{
    if !rignolda_session_has(session, number) {
        return false;
    }
    session.turn = 1;
    true
}

/// Whether the end may send now.
pub(crate) fn is_in_turn(session: &Session) -> bool
    ensures { result ≡ may_send (session_of session.now) }
{
    session.there != 0 && session.turn != 0
}

/// Writes the frame to send now on the connection that there is, gives the turn away, and returns
/// true; or returns false where there is none.
#[unsafe(no_mangle)]
pub extern "C" fn rignolda_session_send(
    sender: &SenderHalf,
    session: &mut Session,
    frame: &mut LineFrame,
) -> bool
    ensures some { result ≡
        is_some (sent_now (session_of session.old) (frame_to_send (sender_end sender.now))) }
    ensures written { frame.new ≡ written_frame frame.old
        (sent_now (session_of session.old) (frame_to_send (sender_end sender.now))) }
    ensures step { session_of session.new ≡ turn_after (session_of session.old)
        (sent_now (session_of session.old) (frame_to_send (sender_end sender.now))) }
    ensures number { session.new.number ≡ session.old.number }
    ensures refused { result ≡ false → session.new ≡ session.old }
    ensures act { IsFrameSentInTurn (sender_end sender.now) (session_of session.old)
        (answered result (frame_of frame.new)) (session_of session.new) }
{
    if !is_in_turn(session) || !rignolda_sender_frame(sender, frame) {
        return false;
    }
    session.turn = 0;
    true
}

/// An acknowledgement comes by this connection: the sender is given it, if the end has the
/// connection. Returns true if it is the one that the sender waits for.
#[unsafe(no_mangle)]
pub extern "C" fn rignolda_session_on_ack(
    sender: &mut SenderHalf,
    session: &mut Session,
    params: &LinkParams,
    number: u64,
    label: u16,
) -> bool
    ensures waited { result ≡ (has (session_of session.old) number
        && (is_none (fault_of params.now.capacity params.now.labels)
        && acknowledges (sender_end sender.old) label)) }
    ensures step { result ≡ true →
        sender_end sender.new ≡ after_ack (parameters_of params.now) (sender_end sender.old) label }
    ensures refused { result ≡ false → sender.new ≡ sender.old }
    ensures session { session_of session.new ≡ after_message (session_of session.old) number }
    ensures number { session.new.number ≡ session.old.number }
    ensures dropped { has (session_of session.old) number ≡ false → session.new ≡ session.old }
    ensures act { is_none (fault_of params.now.capacity params.now.labels) ≡ true →
        IsAckHandled (parameters_of params.now) (sender_end sender.old) (session_of session.old)
        number label result (sender_end sender.new) (session_of session.new) }
{
    handles(session, number) && rignolda_sender_on_ack(sender, params, label)
}

/// A frame comes by this connection: the receiver is given it, if the end has the connection. If it
/// is fresh, then the call writes its item and returns true.
#[unsafe(no_mangle)]
pub extern "C" fn rignolda_session_on_frame(
    receiver: &mut ReceiverHalf,
    session: &mut Session,
    number: u64,
    frame: &LineFrame,
    item: &mut u32,
) -> bool
    ensures delivered { result ≡ (has (session_of session.old) number
        && delivers (receiver_end receiver.old) (frame_of frame.now)) }
    ensures written { item.new ≡ (if result then frame.now.item else item.old) }
    ensures step { receiver_end receiver.new ≡
        (if result then after_frame (receiver_end receiver.old) (frame_of frame.now)
        else receiver_end receiver.old) }
    ensures refused { result ≡ false → receiver.new ≡ receiver.old }
    ensures session { session_of session.new ≡ after_message (session_of session.old) number }
    ensures number { session.new.number ≡ session.old.number }
    ensures dropped { has (session_of session.old) number ≡ false → session.new ≡ session.old }
    ensures act { IsFrameHandled (receiver_end receiver.old) (session_of session.old)
        number (frame_of frame.now) result (receiver_end receiver.new) (session_of session.new) }
{
    handles(session, number) && rignolda_receiver_on_frame(receiver, frame, item)
}

/// Writes the label to acknowledge now on the connection that there is, gives the turn away, and
/// returns true; or returns false where there is none.
#[unsafe(no_mangle)]
pub extern "C" fn rignolda_session_ack(
    receiver: &ReceiverHalf,
    session: &mut Session,
    label: &mut u16,
) -> bool
    ensures some { result ≡
        is_some (sent_now (session_of session.old) (ack_to_send (receiver_end receiver.now))) }
    ensures written { label.new ≡ written label.old
        (sent_now (session_of session.old) (ack_to_send (receiver_end receiver.now))) }
    ensures step { session_of session.new ≡ turn_after (session_of session.old)
        (sent_now (session_of session.old) (ack_to_send (receiver_end receiver.now))) }
    ensures number { session.new.number ≡ session.old.number }
    ensures refused { result ≡ false → session.new ≡ session.old }
    ensures act { IsAckSentInTurn (receiver_end receiver.now) (session_of session.old)
        (answered result label.new) (session_of session.new) }
{
    if !is_in_turn(session) || !rignolda_receiver_ack(receiver, label) {
        return false;
    }
    session.turn = 0;
    true
}
