ghost use Rattle.std.specs.Prelude.{◌≡◌, is_none, option_map, Some, None, if◌then◌else◌};
ghost use Rattle.stab_frames.specs.Parameters.{next};
ghost use Rattle.stab_core.specs.Halves.{waits_for};

use stab_frames::{Frame, Item, Label, Params};
use std::marker::Model;

/// The sender's half of a link: its label, and the item that it sends until an acknowledgement with
/// this label comes.
///
/// No call takes memory.
#[derive(Debug, Drop)]
pub struct Sender {
    label: Label,
    item: Option<Item>,
}

impl Model for Sender {
    ghost use Rattle.stab_core.specs.Halves.{SenderState};

    ghost Value = { SenderState };

    ghost view = { λ s. record { label = s.label; item = s.item } };
}

impl Sender {
    /// An idle sender with this label.
    pub fn new(label: Label) -> Sender
        ensures { result ≡ record { label = label; item = None } }
    {
        Sender { label, item: None }
    }

    /// Gives an idle sender its next item, and answers whether it was idle. One that holds an item
    /// stays as it was.
    pub fn hold(&mut self, item: Item) -> bool
        ensures idle { result ≡ is_none self.old.item }
        ensures sender { self.new ≡
            (if result then record self.old { item = Some item } else self.old) }
    {
        if self.item.is_some() {
            return false;
        }
        self.item = Some(item);
        true
    }

    /// The frame to send now: the item that it holds, under its label.
    pub fn frame(&self) -> Option<Frame>
        ensures { result ≡
            option_map (λ item. record { label = self.now.label; item = item }) self.now.item }
    {
        let label = self.label;
        self.item.map(|item| Frame { label, item })
    }

    /// Receives an acknowledgement, and answers whether it was the one that the sender waits for:
    /// then the sender is idle with the next label. Any other acknowledgement changes nothing.
    pub fn on_ack(&mut self, params: Params, label: Label) -> bool
        ensures waited { result ≡ waits_for self.old label }
        ensures sender { self.new ≡ (if result
            then record { label = next params self.old.label; item = None } else self.old) }
    {
        if self.item.is_some() && label == self.label {
            self.label = params.next(self.label);
            self.item = None;
            true
        } else {
            false
        }
    }

    /// Gives the sender another label. An item that it holds stays.
    pub fn relabel(&mut self, label: Label)
        ensures { self.new ≡ record self.old { label = label } }
    {
        self.label = label;
    }

    /// The sender's label.
    pub fn label(&self) -> Label
        ensures { result ≡ self.now.label }
    {
        self.label
    }

    /// Whether it holds no item.
    pub fn is_idle(&self) -> bool
        ensures { result ≡ is_none self.now.item }
    {
        self.item.is_none()
    }
}
