ghost use Rattle.std.specs.Prelude.{◌≡◌};
ghost use Rattle.stab_core.specs.LinkActs.{event_of};

use crate::event::Event;
use stab_frames::Item;

/// What may happen to a link whose items come one after the other from a list elsewhere: an event
/// whose offer names no item.
#[derive(Clone, Copy, Debug, PartialEq, Eq)]
pub enum LinkAct {
    /// The next item of the list is offered to the sender.
    Offer,
    /// The sender sends its current item once more.
    SendFrame,
    /// The receiver receives the front frame, which stays at the front where it is kept.
    RecvFrame { keep: bool },
    /// The receiver sends the label that it remembers.
    SendAck,
    /// The sender receives the front acknowledgement, which stays at the front where it is kept.
    RecvAck { keep: bool },
    /// The frame at this place vanishes, 0 being the front.
    LoseFrame(u16),
    /// The acknowledgement at this place vanishes, 0 being the front.
    LoseAck(u16),
    /// The link is closed for good.
    Close,
}

impl LinkAct {
    /// The event of this act. An offer is of this item, and no event where there is none.
    pub fn event(self, item: Option<Item>) -> Option<Event>
        ensures { result ≡ event_of self item }
    {
        Some(match self {
            LinkAct::Offer => Event::Offer(item?),
            LinkAct::SendFrame => Event::SendFrame,
            LinkAct::RecvFrame { keep } => Event::RecvFrame { keep },
            LinkAct::SendAck => Event::SendAck,
            LinkAct::RecvAck { keep } => Event::RecvAck { keep },
            LinkAct::LoseFrame(place) => Event::LoseFrame(place),
            LinkAct::LoseAck(place) => Event::LoseAck(place),
            LinkAct::Close => Event::Close,
        })
    }
}
