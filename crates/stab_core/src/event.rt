use stab_frames::Item;

/// What may happen to a link, in any order and any number of times.
#[derive(Clone, Copy, Debug, PartialEq, Eq, Hash)]
pub enum Event {
    /// The publisher's side offers an item to the sender.
    Offer(Item),
    /// The sender sends its current item once more.
    SendFrame,
    /// The receiver receives the front frame, which stays at the front where it is kept.
    RecvFrame { keep: bool },
    /// The receiver sends the label that it remembers.
    SendAck,
    /// The sender receives the front acknowledgement, which stays at the front where it is kept.
    RecvAck { keep: bool },
    /// The frame at this place vanishes, 0 being the front.
    LoseFrame(u16),
    /// The acknowledgement at this place vanishes, 0 being the front.
    LoseAck(u16),
    /// The link is closed for good.
    Close,
}

/// What an event did to a link.
#[derive(Clone, Copy, Debug, PartialEq, Eq, Hash)]
pub enum Effect {
    /// Nothing: the link is as it was.
    Nothing,
    /// The sender holds the offered item.
    Held,
    /// The frame or acknowledgement is at the back of its queue.
    Sent,
    /// The receiver took this item and delivered it.
    Fresh(Item),
    /// The receiver had taken the frame's label before.
    Old,
    /// The sender's item is acknowledged; it is idle with the next label.
    Acked,
    /// The acknowledgement was not the one that the sender waits for.
    Ignored,
    /// A frame or acknowledgement vanished, or found its queue full.
    Lost,
    /// The link was open and is closed.
    Closed,
}
