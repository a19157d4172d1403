//! The JSON values that the readers take for an event, a frame, a label and a start.

ghost use Rattle.std.specs.Prelude.{◌≡◌, ◌≤◌, Option, Some, IfOk};
ghost use Rattle.serde_json.specs.Data.{Data, array, depth, item, items_depth, no_items, number};
ghost use Rattle.serde_json.specs.Data.{string, unsigned};
ghost use Rattle.serde_json.specs.View.{items_view, view};
ghost use Rattle.stab_json.specs.Values.{entries, label};
ghost use Rattle.stab_script.specs.Events.{event};
ghost use Rattle.stab_script.specs.Starts.{frame, start};

use serde_json::{Value, json};
use stab_core::{Event, Start};
use stab_frames::{Frame, Label};
use std::alloc::{AllocError, Global};

/// What a list of a link job has.
pub(crate) trait Element: Copy {
    // What a value means as such an element.
    ghost meaning: { Data → Option Self };

    /// The value of it.
    fn value(self, alloc: Global) -> Result<Value, AllocError>
        ensures means { IfOk result (λ value. meaning (view value) ≡ Some self) }
        ensures flat { IfOk result (λ value. depth (view value) ≤ 1) };
}

/// The values of these elements, in their order.
pub(crate) fn values_of<E: Element>(alloc: Global, elements: &[E]) -> Result<Vec<Value>, AllocError>
    ensures means { IfOk result (λ values.
        entries E.meaning (items_view values.items) ≡ Some elements.now) }
    ensures flat { IfOk result (λ values. items_depth (items_view values.items) ≤ 1) }
{
    let mut values = Vec::with_capacity(alloc, elements.len())?;
    for element in elements {
        values.push(element.value(alloc)?)?;
    }
    Ok(values)
}

/// Its word alone, or a list of its word and its number.
impl Element for Event {
    ghost meaning = { event };

    fn value(self, alloc: Global) -> Result<Value, AllocError> {
        match self {
            Event::Offer(item) => numbered(alloc, "offer", item),
            Event::SendFrame => Value::try_from_str(alloc, "send_frame"),
            Event::RecvFrame { keep: false } => Value::try_from_str(alloc, "recv_frame"),
            Event::RecvFrame { keep: true } => Value::try_from_str(alloc, "recv_frame_keep"),
            Event::SendAck => Value::try_from_str(alloc, "send_ack"),
            Event::RecvAck { keep: false } => Value::try_from_str(alloc, "recv_ack"),
            Event::RecvAck { keep: true } => Value::try_from_str(alloc, "recv_ack_keep"),
            Event::LoseFrame(place) => numbered(alloc, "lose_frame", u32::from(place)),
            Event::LoseAck(place) => numbered(alloc, "lose_ack", u32::from(place)),
            Event::Close => Value::try_from_str(alloc, "close"),
        }
    }
}

/// A list of a word and a number.
fn numbered(alloc: Global, word: &str, place: u32) -> Result<Value, AllocError>
    ensures { IfOk result (λ value. view value
        ≡ array (item (string word.now) (item (number (unsigned place)) no_items))) }
{
    json!(in alloc; [word, place])
}

/// A list of its label and its item.
impl Element for Frame {
    ghost meaning = { frame };

    fn value(self, alloc: Global) -> Result<Value, AllocError> {
        json!(in alloc; [(self.label), (self.item)])
    }
}

/// Its number.
impl Element for Label {
    ghost meaning = { label };

    fn value(self, _alloc: Global) -> Result<Value, AllocError> {
        Ok(Value::from(self))
    }
}

/// The value of a start.
pub(crate) fn start_value(alloc: Global, from: &Start) -> Result<Value, AllocError>
    ensures means { IfOk result (λ value. start (view value) ≡ Some from.now) }
    ensures flat { IfOk result (λ value. depth (view value) ≤ 3) }
{
    let frames = values_of(alloc, from.frames.as_slice())?;
    let acks = values_of(alloc, from.acks.as_slice())?;
    json!(in alloc; {
        "frames": frames,
        "acks": acks,
        "send": (from.send_label),
        "recv": (from.recv_label)
    })
}
