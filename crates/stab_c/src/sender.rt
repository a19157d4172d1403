ghost use Rattle.std.specs.Prelude.{◌≡◌, ◌&&◌, is_none, is_some, true, false};
ghost use Rattle.stab_frames.specs.Parameters.{fault_of};
ghost use Rattle.stab_line.specs.Acts.{IsAckReceived, IsFrameSent, IsOffer, IsSenderClosed};
ghost use Rattle.stab_line.specs.Acts.{answered};
ghost use Rattle.stab_line.specs.Ends.{accepts, acknowledges, after_ack, closed_sender};
ghost use Rattle.stab_line.specs.Ends.{frame_to_send, new_sender, offered_to};
ghost use Rattle.stab_c.specs.Meaning.{frame_of, parameters_of, sender_end, written_frame};

use crate::line::{LineFrame, LinkParams};
use stab_core::Sender;
use stab_frames::{Item, Label, Params};

/// The sender's half of a link, as C sees it.
#[repr(C)]
#[derive(Clone, Copy)]
pub struct SenderHalf {
    /// The item that it sends until it is acknowledged; it counts only while `holding`.
    pub item: u32,
    /// Its label, which may be any number.
    pub label: u16,
    /// Not 0 while it holds an item.
    pub holding: u8,
    /// Not 0 once it is closed.
    pub closed: u8,
}

/// The sender that the struct means, closed or not.
fn meant(half: &SenderHalf) -> Sender
    ensures { result ≡ (sender_end half.now).state }
{
    let mut sender = Sender::new(half.label);
    if half.holding != 0 {
        sender.hold(half.item);
    }
    sender
}

/// Whether the sender would take an offer: it is open and idle.
pub(crate) fn would_take(sender: &SenderHalf) -> bool
    ensures { result ≡ accepts (sender_end sender.now) }
{
    sender.closed == 0 && meant(sender).is_idle()
}

/// Gives the sender this item, whatever it held.
pub(crate) fn hold(sender: &mut SenderHalf, item: u32)
    ensures { sender.new ≡ record sender.old { item = item; holding = 1 } }
{
    sender.item = item;
    sender.holding = 1;
}

/// Makes an idle and open sender with this label.
#[unsafe(no_mangle)]
pub extern "C" fn rignolda_sender_init(sender: &mut SenderHalf, label: u16)
    ensures { sender_end sender.new ≡ new_sender label }
{
    *sender = SenderHalf {
        item: 0,
        label,
        holding: 0,
        closed: 0,
    };
}

/// Offers the sender an item, and returns true if it takes it: it is open and idle.
#[unsafe(no_mangle)]
pub extern "C" fn rignolda_sender_offer(sender: &mut SenderHalf, item: u32) -> bool
    ensures taken { result ≡ accepts (sender_end sender.old) }
    ensures step { sender_end sender.new ≡ offered_to (sender_end sender.old) item }
    ensures refused { result ≡ false → sender.new ≡ sender.old }
    ensures act { IsOffer (sender_end sender.old) item result (sender_end sender.new) }
{
    if !would_take(sender) {
        return false;
    }
    hold(sender, item);
    true
}

/// Writes the frame to send now, and returns true; or returns false where there is none.
#[unsafe(no_mangle)]
pub extern "C" fn rignolda_sender_frame(sender: &SenderHalf, frame: &mut LineFrame) -> bool
    ensures some { result ≡ is_some (frame_to_send (sender_end sender.now)) }
    ensures written { frame.new ≡
        written_frame frame.old (frame_to_send (sender_end sender.now)) }
    ensures act { IsFrameSent (sender_end sender.now) (answered result (frame_of frame.new)) }
{
    if sender.closed != 0 {
        return false;
    }
    match meant(sender).frame() {
        None => false,
        Some(held) => {
            *frame = LineFrame {
                item: held.item,
                label: held.label,
                unused: 0,
            };
            true
        }
    }
}

/// Gives the sender an acknowledgement, and returns true if it is the one that it waits for: then
/// the sender is idle with the next label. Parameters that are not lawful are refused.
#[unsafe(no_mangle)]
pub extern "C" fn rignolda_sender_on_ack(
    sender: &mut SenderHalf,
    params: &LinkParams,
    label: u16,
) -> bool
    ensures waited { result ≡ (is_none (fault_of params.now.capacity params.now.labels)
        && acknowledges (sender_end sender.old) label) }
    ensures step { is_none (fault_of params.now.capacity params.now.labels) ≡ true →
        sender_end sender.new ≡ after_ack (parameters_of params.now) (sender_end sender.old) label }
    ensures refused { result ≡ false → sender.new ≡ sender.old }
    ensures act { is_none (fault_of params.now.capacity params.now.labels) ≡ true →
        IsAckReceived (parameters_of params.now) (sender_end sender.old) label result
        (sender_end sender.new) }
{
    let Ok(lawful) = Params::new(params.capacity, params.labels) else {
        return false;
    };
    let mut waiting = meant(sender);
    if sender.closed != 0 || !waiting.on_ack(lawful, label) {
        return false;
    }
    sender.label = waiting.label();
    sender.holding = 0;
    true
}

/// Closes the sender for good: it takes no offer and no acknowledgement any more, and it sends
/// nothing.
#[unsafe(no_mangle)]
pub extern "C" fn rignolda_sender_close(sender: &mut SenderHalf)
    ensures step { sender_end sender.new ≡ closed_sender (sender_end sender.old) }
    ensures kept { sender.new ≡ record sender.old { closed = sender.new.closed } }
    ensures act { IsSenderClosed (sender_end sender.old) (sender_end sender.new) }
{
    sender.closed = 1;
}
