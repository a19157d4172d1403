ghost use Rattle.std.specs.Prelude.{◌≡◌, ◌+◌, ◌%◌, ◌&&◌, List, false, length, set, if◌then◌else◌};
ghost use Rattle.std.specs.Prelude.{ℕ, ◌<◌, true};
ghost use Rattle.stab_line.specs.Acts.{IsFrameReceived};
ghost use Rattle.stab_line.specs.Ends.{after_frame, delivers, new_receiver};
ghost use Rattle.stab_line.specs.Line.{with_taken};
ghost use Rattle.stab_c.specs.Meaning.{frame_of, receiver_end};
ghost use Rattle.stab_c.specs.NodeList.{IsList, counted, has_place, is_old, loses_frame};
ghost use Rattle.stab_c.specs.NodeList.{takes_frame};

use crate::line::LineFrame;
use crate::receiver::{ReceiverHalf, rignolda_receiver_init, rignolda_receiver_is_fresh};

/// A node, as C sees it: the receiver of the link above, and how much of its list is in the buffer
/// that its caller lends.
#[repr(C)]
#[derive(Clone, Copy)]
pub struct Node {
    /// The receiver of the link from its parent. The root has none, and publishes.
    pub above: ReceiverHalf,
    /// How many items the list ever had: its opening, then what was delivered or published.
    pub length: u64,
    /// How many of them, from its front, are no more in the buffer.
    pub forgotten: u64,
    /// How many frames were not fresh; it stops at the highest count.
    pub old_frames: u64,
}

/// Makes a node whose receiver remembers this label, and whose list is the first `opening` items of
/// the buffer.
#[unsafe(no_mangle)]
pub extern "C" fn rignolda_node_init(node: &mut Node, label: u16, opening: u64)
    ensures receiver { receiver_end node.new.above ≡ new_receiver label }
    ensures list { node.new.length ≡ opening }
    ensures kept { node.new.forgotten ≡ 0 }
    ensures count { node.new.old_frames ≡ 0 }
{
    rignolda_receiver_init(&mut node.above, label);
    node.length = opening;
    node.forgotten = 0;
    node.old_frames = 0;
}

/// Counts one more, up to the highest count.
pub(crate) fn count_one(count: &mut u64)
    ensures { count.new ≡ counted true count.old }
{
    let more = count.wrapping_add(1);
    if more != 0 {
        *count = more;
    }
}

/// Whether the list has a place for one more item.
fn has_room(node: &Node, list: &[u32]) -> bool
    ensures { result ≡ has_place node.now list.now }
{
    let size = list.len() as u64;
    // (it wraps where more is forgotten than the list has, and then nothing is kept)
    let kept = node.length.wrapping_sub(node.forgotten);
    if kept >= size && (size == 0 || node.length >= node.forgotten) {
        return false;
    }
    node.length != u64::MAX
}

/// Where in a buffer of this size the item at a place of the list lies: at this place modulo the
/// size. Where the size is a power of two, that takes no division.
pub(crate) fn slot(place: u64, size: usize) -> usize
    requires { 0 < size }
    ensures value { result ≡ place % size }
    ensures bound { result < size }
{
    let size = size as u64;
    let mask = size - 1;
    if size & mask == 0 {
        (place & mask) as usize
    } else {
        (place % size) as usize
    }
}

/// Puts an item at the end of the list, and returns true, if there is a place.
#[unsafe(no_mangle)]
pub extern "C" fn rignolda_node_publish(node: &mut Node, list: &mut [u32], item: u32) -> bool
    ensures had_place { result ≡ has_place node.old list.old }
    ensures written { list.new ≡
        (if result then set list.old (node.old.length % length list.old) item else list.old) }
    ensures list { (items : List ℕ) → IsList node.old list.old items
        → IsList node.new list.new (with_taken result items item) }
    ensures length { node.new.length ≡
        (if result then node.old.length + 1 else node.old.length) }
    ensures forgotten { node.new.forgotten ≡ node.old.forgotten }
    ensures receiver { node.new.above ≡ node.old.above }
    ensures count { node.new.old_frames ≡ node.old.old_frames }
    ensures refused { result ≡ false → node.new ≡ node.old }
{
    if !has_room(node, list) {
        return false;
    }
    let place = node.length;
    node.length = place + 1;
    list[slot(place, list.len())] = item;
    true
}

/// Gives the node a frame from its parent, and returns true if it takes it: the frame is fresh, and
/// the list has a place for its item. A fresh frame without a place is lost.
#[unsafe(no_mangle)]
pub extern "C" fn rignolda_node_on_frame(
    node: &mut Node,
    list: &mut [u32],
    frame: &LineFrame,
) -> bool
    ensures taken { result ≡ takes_frame node.old list.old (frame_of frame.now) }
    ensures written { list.new ≡
        (if result then set list.old (node.old.length % length list.old) frame.now.item
        else list.old) }
    ensures list { (items : List ℕ) → IsList node.old list.old items
        → IsList node.new list.new (with_taken result items frame.now.item) }
    ensures length { node.new.length ≡
        (if result then node.old.length + 1 else node.old.length) }
    ensures forgotten { node.new.forgotten ≡ node.old.forgotten }
    ensures receiver { receiver_end node.new.above ≡
        (if result then after_frame (receiver_end node.old.above) (frame_of frame.now)
        else receiver_end node.old.above) }
    ensures count { node.new.old_frames ≡
        counted (is_old (receiver_end node.old.above) (frame_of frame.now)) node.old.old_frames }
    ensures refused { result ≡ false → node.new.above ≡ node.old.above }
    ensures act { loses_frame node.old list.old (frame_of frame.now) ≡ false →
        IsFrameReceived (receiver_end node.old.above) (frame_of frame.now) result
        (receiver_end node.new.above) }
{
    if node.above.closed != 0 {
        return false;
    }
    if !rignolda_receiver_is_fresh(&node.above, frame) {
        count_one(&mut node.old_frames);
        return false;
    }
    let label = frame.label;
    if !rignolda_node_publish(node, list, frame.item) {
        return false;
    }
    node.above.label = label;
    true
}
