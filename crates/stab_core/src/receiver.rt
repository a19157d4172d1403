ghost use Rattle.std.specs.Prelude.{◌≡◌, ◌==◌, not, Some, None, if◌then◌else◌};

use stab_frames::{Frame, Item, Label};
use std::marker::Model;

/// The receiver's half of a link: it remembers the label that it took last. Contracts see it as
/// that label.
///
/// No call takes memory.
#[derive(Debug, Drop)]
pub struct Receiver {
    label: Label,
}

impl Model for Receiver {
    ghost use Rattle.std.specs.Prelude.{ℕ};

    ghost Value = { ℕ };

    ghost view = { λ r. r.label };
}

impl Receiver {
    /// A receiver that remembers this label.
    pub fn new(label: Label) -> Receiver
        ensures { result ≡ label }
    {
        Receiver { label }
    }

    /// Whether the frame is fresh: its label is not the one that the receiver remembers.
    pub fn is_fresh(&self, frame: Frame) -> bool
        ensures { result ≡ not (frame.label == self.now) }
    {
        frame.label != self.label
    }

    /// Takes a frame that `is_fresh` found fresh: remembers its label, and delivers its item.
    pub fn take(&mut self, frame: Frame) -> Item
        ensures delivers { result ≡ frame.item }
        ensures remembers { self.new ≡ frame.label }
    {
        self.label = frame.label;
        frame.item
    }

    /// Receives a frame, and delivers its item exactly if the frame is fresh.
    pub fn on_frame(&mut self, frame: Frame) -> Option<Item>
        ensures delivers { result ≡ (if frame.label == self.old then None else Some frame.item) }
        ensures remembers { self.new ≡ frame.label }
    {
        if self.is_fresh(frame) {
            Some(self.take(frame))
        } else {
            None
        }
    }

    /// The label to acknowledge now: the one that it remembers.
    pub fn ack(&self) -> Label
        ensures { result ≡ self.now }
    {
        self.label
    }
}
