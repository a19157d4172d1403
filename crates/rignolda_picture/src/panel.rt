use crate::end::End;
use crate::items::Items;
use crate::point::Point;
use stab_frames::Item;
use std::alloc::{AllocError, Global};

/// How far the sender's line is from the left edge of its link.
const SENDER: u64 = 158;

/// How far the receiver's line is from the left edge of its link.
const RECEIVER: u64 = 438;

/// A frame or an acknowledgement in its queue.
#[derive(Clone, Copy, Debug)]
pub(crate) struct Mark {
    /// Where it was drawn last.
    pub(crate) at: Point,
    /// Whether it comes from the start, or is a copy of a label from there.
    pub(crate) is_stray: bool,
    /// The place of the item that a frame is of in the list of waits; past its end where none is.
    pub(crate) wait: usize,
}

/// The time in which the sender holds an item.
#[derive(Clone, Copy, Debug)]
pub(crate) struct Wait {
    pub(crate) item: Item,
    /// The heights of the first row and of the last one.
    pub(crate) from: u64,
    pub(crate) to: u64,
    pub(crate) is_acked: bool,
    /// Whether the sender began anew, and holds it no more.
    pub(crate) is_dropped: bool,
    pub(crate) is_delivered: bool,
}

/// One link of a picture.
#[derive(Drop)]
pub(crate) struct Panel {
    /// Its left edge.
    pub(crate) left: u64,
    /// The name of the node that it leads into, before its events.
    pub(crate) name: String,
    /// Its queues, the front first.
    pub(crate) frames: Vec<Mark>,
    pub(crate) acks: Vec<Mark>,
    /// Whether the receiver remembers a label of the start.
    pub(crate) has_stray_label: bool,
    pub(crate) waits: Vec<Wait>,
    pub(crate) delivered: Items,
}

impl Panel {
    /// A link without anything at this left edge.
    pub(crate) fn new(alloc: Global, left: u64, name: &str) -> Result<Panel, AllocError> {
        let name = String::from_str(alloc, name)?;
        Ok(Panel {
            left,
            name,
            frames: Vec::new(alloc),
            acks: Vec::new(alloc),
            has_stray_label: true,
            waits: Vec::new(alloc),
            delivered: Items::new(alloc),
        })
    }

    /// The sender at this height.
    pub(crate) fn sender(&self, y: u64) -> End {
        let edge = Point { x: self.left, y };
        End::sender(edge.right(SENDER))
    }

    /// The receiver at this height.
    pub(crate) fn receiver(&self, y: u64) -> End {
        let edge = Point { x: self.left, y };
        End::receiver(edge.right(RECEIVER))
    }

    /// What is done with the last item that the sender held.
    pub(crate) fn last_wait(&self) -> usize {
        self.waits.len().saturating_sub(1)
    }
}

/// Takes the front of a queue, which stays there, at its new place, where it is kept.
pub(crate) fn take_front(queue: &mut Vec<Mark>, keep: bool, at: Point) -> Option<Mark> {
    let front = queue.first().copied()?;
    if keep {
        queue[0] = Mark {
            at,
            is_stray: front.is_stray,
            wait: front.wait,
        };
    } else {
        queue.remove(0);
    }
    Some(front)
}

/// Takes the entry of a queue at this place.
pub(crate) fn take_at(queue: &mut Vec<Mark>, place: usize) -> Option<Mark> {
    if place >= queue.len() {
        return None;
    }
    Some(queue.remove(place))
}
