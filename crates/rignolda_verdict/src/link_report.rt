use stab_frames::{Frame, Item, Label, Sequence};
use std::marker::Model;

/// What somebody says of a link: `stab link`, or other agents. Contracts see the state of a link.
#[derive(Debug, Drop)]
pub struct LinkReport {
    /// The items that the receiver delivered, in their order.
    pub delivered: Sequence<Item>,
    /// The items that the sender was offered, in their order.
    pub offered: Sequence<Item>,
    /// How many of these are acknowledged.
    pub acked: u64,
    /// The sender's label.
    pub send_label: Label,
    /// The label that the receiver remembers.
    pub recv_label: Label,
    /// The frames on their way to the receiver, the front first.
    pub frames: Sequence<Frame>,
    /// The labels on their way to the sender, the front first.
    pub acks: Sequence<Label>,
    /// Whether the link is closed.
    pub closed: bool,
}

impl Model for LinkReport {
    ghost use Rattle.stab_core.specs.LinkState.{LinkState};

    ghost Value = { LinkState };

    ghost view = { λ r. record {
      frames = r.frames;
      acks = r.acks;
      send_label = r.send_label;
      offered = r.offered;
      acked = r.acked;
      recv_label = r.recv_label;
      delivered = r.delivered;
      closed = r.closed;
    } };
}
