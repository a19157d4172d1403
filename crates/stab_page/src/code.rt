//! What a page writes into the module's memory.

ghost use Rattle.std.specs.Prelude.{◌≡◌};
ghost use Rattle.stab_page.specs.Codes.{event_of, frame_of};

use stab_core::Event;
use stab_frames::{Frame, Item, Label};

/// The kinds of events, in the order of `Event`. Every other number is a close.
const OFFER: u32 = 0;

const SEND_FRAME: u32 = 1;

const RECV_FRAME: u32 = 2;

const RECV_FRAME_KEEP: u32 = 3;

const SEND_ACK: u32 = 4;

const RECV_ACK: u32 = 5;

const RECV_ACK_KEEP: u32 = 6;

const LOSE_FRAME: u32 = 7;

const LOSE_ACK: u32 = 8;

/// How many places there are to lose an entry at.
const PLACES: u32 = 65536;

/// An event as two numbers: its kind, and the item that is offered or the place of what is lost.
#[repr(C)]
#[derive(Clone, Copy)]
pub struct EventCode {
    pub kind: u32,
    pub value: u32,
}

impl EventCode {
    /// The event of these numbers. A place counts modulo 65536, which is more than any queue has.
    pub fn event(self) -> Event
        ensures { result ≡ event_of self }
    {
        match self.kind {
            OFFER => Event::Offer(self.value),
            SEND_FRAME => Event::SendFrame,
            RECV_FRAME => Event::RecvFrame { keep: false },
            RECV_FRAME_KEEP => Event::RecvFrame { keep: true },
            SEND_ACK => Event::SendAck,
            RECV_ACK => Event::RecvAck { keep: false },
            RECV_ACK_KEEP => Event::RecvAck { keep: true },
            LOSE_FRAME => Event::LoseFrame((self.value % PLACES) as u16),
            LOSE_ACK => Event::LoseAck((self.value % PLACES) as u16),
            _ => Event::Close,
        }
    }
}

/// A frame of the start.
#[repr(C)]
#[derive(Clone, Copy)]
pub struct FrameCode {
    pub label: Label,
    pub item: Item,
}

impl FrameCode {
    /// The frame of these numbers.
    pub fn frame(self) -> Frame
        ensures { result ≡ frame_of self }
    {
        Frame {
            label: self.label,
            item: self.item,
        }
    }
}
