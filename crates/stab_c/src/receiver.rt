ghost use Rattle.std.specs.Prelude.{◌≡◌, is_some, false, if◌then◌else◌};
ghost use Rattle.stab_line.specs.Acts.{IsAckSent, IsFrameReceived, IsReceiverClosed, answered};
ghost use Rattle.stab_line.specs.Ends.{ack_to_send, after_frame, closed_receiver, delivers};
ghost use Rattle.stab_line.specs.Ends.{new_receiver};
ghost use Rattle.stab_c.specs.Meaning.{frame_of, receiver_end, written};

use crate::line::LineFrame;
use stab_core::Receiver;
use stab_frames::Frame;

/// The receiver's half of a link, as C sees it.
#[repr(C)]
#[derive(Clone, Copy)]
pub struct ReceiverHalf {
    /// The label that it took last, which may be any number.
    pub label: u16,
    /// Not 0 once it is closed.
    pub closed: u16,
}

/// The frame that the struct means.
fn frame_meant(frame: &LineFrame) -> Frame
    ensures { result ≡ frame_of frame.now }
{
    Frame {
        label: frame.label,
        item: frame.item,
    }
}

/// Makes an open receiver that remembers this label.
#[unsafe(no_mangle)]
pub extern "C" fn rignolda_receiver_init(receiver: &mut ReceiverHalf, label: u16)
    ensures { receiver_end receiver.new ≡ new_receiver label }
{
    *receiver = ReceiverHalf { label, closed: 0 };
}

/// Whether the receiver would deliver the item of this frame.
#[unsafe(no_mangle)]
pub extern "C" fn rignolda_receiver_is_fresh(receiver: &ReceiverHalf, frame: &LineFrame) -> bool
    ensures { result ≡ delivers (receiver_end receiver.now) (frame_of frame.now) }
{
    let fresh = Receiver::new(receiver.label).is_fresh(frame_meant(frame));
    receiver.closed == 0 && fresh
}

/// Gives the receiver a frame. If it is open and the frame is fresh, then it writes the frame's
/// item and returns true.
#[unsafe(no_mangle)]
pub extern "C" fn rignolda_receiver_on_frame(
    receiver: &mut ReceiverHalf,
    frame: &LineFrame,
    item: &mut u32,
) -> bool
    ensures delivered { result ≡ delivers (receiver_end receiver.old) (frame_of frame.now) }
    ensures written { item.new ≡ (if delivers (receiver_end receiver.old) (frame_of frame.now)
        then frame.now.item else item.old) }
    ensures step { receiver_end receiver.new ≡
        after_frame (receiver_end receiver.old) (frame_of frame.now) }
    ensures refused { result ≡ false → receiver.new ≡ receiver.old }
    ensures act { IsFrameReceived (receiver_end receiver.old) (frame_of frame.now) result
        (receiver_end receiver.new) }
{
    if receiver.closed != 0 {
        return false;
    }
    let mut open = Receiver::new(receiver.label);
    match open.on_frame(frame_meant(frame)) {
        None => false,
        Some(delivered) => {
            *item = delivered;
            receiver.label = open.ack();
            true
        }
    }
}

/// Writes the label to acknowledge now, and returns true; or returns false where the receiver is
/// closed.
#[unsafe(no_mangle)]
pub extern "C" fn rignolda_receiver_ack(receiver: &ReceiverHalf, label: &mut u16) -> bool
    ensures some { result ≡ is_some (ack_to_send (receiver_end receiver.now)) }
    ensures written { label.new ≡ written label.old (ack_to_send (receiver_end receiver.now)) }
    ensures act { IsAckSent (receiver_end receiver.now) (answered result label.new) }
{
    if receiver.closed != 0 {
        return false;
    }
    *label = Receiver::new(receiver.label).ack();
    true
}

/// Closes the receiver for good: it takes no frame any more, and sends no acknowledgement.
#[unsafe(no_mangle)]
pub extern "C" fn rignolda_receiver_close(receiver: &mut ReceiverHalf)
    ensures step { receiver_end receiver.new ≡ closed_receiver (receiver_end receiver.old) }
    ensures act { IsReceiverClosed (receiver_end receiver.old) (receiver_end receiver.new) }
{
    receiver.closed = 1;
}
