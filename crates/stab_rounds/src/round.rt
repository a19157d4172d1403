ghost use Rattle.std.specs.Prelude.{◌≡◌};
ghost use Rattle.stab_rounds.specs.Rounds.{act_of, awaited_after, completed_by, rounds_of};

use stab_core::{Event, LinkAct};

/// What a round of a link waits for. It is an offer, a frame that is sent, a frame that is taken,
/// an acknowledgement that is sent, and one that is taken, in this order.
#[derive(Clone, Copy, Debug, PartialEq, Eq)]
pub enum Awaited {
    Offer,
    SendFrame,
    RecvFrame,
    SendAck,
    RecvAck,
}

impl Awaited {
    /// What the round waits for after this act. A loss between a message that is sent and the one
    /// that is taken begins at the sending anew.
    pub fn after(self, act: LinkAct) -> Awaited
        ensures { result ≡ awaited_after self act }
    {
        match (self, act) {
            (Awaited::Offer, LinkAct::Offer) => Awaited::SendFrame,
            (Awaited::SendFrame, LinkAct::SendFrame) => Awaited::RecvFrame,
            (Awaited::RecvFrame, LinkAct::RecvFrame { keep: false }) => Awaited::SendAck,
            (Awaited::RecvFrame, LinkAct::LoseFrame(_)) => Awaited::SendFrame,
            (Awaited::SendAck, LinkAct::SendAck) => Awaited::RecvAck,
            (Awaited::RecvAck, LinkAct::RecvAck { keep: false }) => Awaited::Offer,
            (Awaited::RecvAck, LinkAct::LoseAck(_)) => Awaited::SendAck,
            (awaited, _) => awaited,
        }
    }

    /// How many rounds this act completes: one, where the round waits for the acknowledgement that
    /// is taken.
    pub fn completed(self, act: LinkAct) -> u64
        ensures { result ≡ completed_by self act }
    {
        match (self, act) {
            (Awaited::RecvAck, LinkAct::RecvAck { keep: false }) => 1,
            _ => 0,
        }
    }
}

/// The act of an event, which names no item.
fn act_of(event: Event) -> LinkAct
    ensures { result ≡ act_of event }
{
    match event {
        Event::Offer(_) => LinkAct::Offer,
        Event::SendFrame => LinkAct::SendFrame,
        Event::RecvFrame { keep } => LinkAct::RecvFrame { keep },
        Event::SendAck => LinkAct::SendAck,
        Event::RecvAck { keep } => LinkAct::RecvAck { keep },
        Event::LoseFrame(place) => LinkAct::LoseFrame(place),
        Event::LoseAck(place) => LinkAct::LoseAck(place),
        Event::Close => LinkAct::Close,
    }
}

/// The rounds among these events of a link, one after the other.
pub fn count_rounds(events: &[Event]) -> u64
    ensures { result ≡ rounds_of events.now }
{
    let mut awaited = Awaited::Offer;
    let mut rounds = 0;
    for event in events {
        let act = act_of(*event);
        rounds += awaited.completed(act);
        awaited = awaited.after(act);
    }
    rounds
}
