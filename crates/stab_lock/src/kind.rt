ghost use Rattle.std.specs.Prelude.{◌≡◌, ◌<◌, ◌≤◌, ◌%◌};
ghost use Rattle.stab_lock.specs.CodesInside.{kind_of, kind_at, event_of, kind_numbers};

use crate::numbers::NARROW;
use stab_core::Event;

/// The kind of an event: all of it but its item or its place. The offer of an item that takes two
/// numbers has a kind of its own.
#[derive(Clone, Copy, Debug, PartialEq, Eq)]
pub(crate) enum Kind {
    Offer,
    SendFrame,
    TakeFrame,
    KeepFrame,
    SendAck,
    TakeAck,
    KeepAck,
    LoseFrame,
    LoseAck,
    Close,
    WideOffer,
}

impl Kind {
    /// The kind of this event.
    pub(crate) fn of(event: Event) -> Kind
        ensures { result ≡ kind_of event }
    {
        match event {
            Event::Offer(item) if item < NARROW => Kind::Offer,
            Event::Offer(_) => Kind::WideOffer,
            Event::SendFrame => Kind::SendFrame,
            Event::RecvFrame { keep: false } => Kind::TakeFrame,
            Event::RecvFrame { keep: true } => Kind::KeepFrame,
            Event::SendAck => Kind::SendAck,
            Event::RecvAck { keep: false } => Kind::TakeAck,
            Event::RecvAck { keep: true } => Kind::KeepAck,
            Event::LoseFrame(_) => Kind::LoseFrame,
            Event::LoseAck(_) => Kind::LoseAck,
            Event::Close => Kind::Close,
        }
    }

    /// The number of this kind.
    pub(crate) fn number(self) -> u8
        ensures within { result < 11 }
        ensures kind { kind_at result ≡ self }
    {
        match self {
            Kind::Offer => 0,
            Kind::SendFrame => 1,
            Kind::TakeFrame => 2,
            Kind::KeepFrame => 3,
            Kind::SendAck => 4,
            Kind::TakeAck => 5,
            Kind::KeepAck => 6,
            Kind::LoseFrame => 7,
            Kind::LoseAck => 8,
            Kind::Close => 9,
            Kind::WideOffer => 10,
        }
    }

    /// The kind of this number.
    pub(crate) fn at(number: u8) -> Kind
        ensures { result ≡ kind_at number }
    {
        match number {
            0 => Kind::Offer,
            1 => Kind::SendFrame,
            2 => Kind::TakeFrame,
            3 => Kind::KeepFrame,
            4 => Kind::SendAck,
            5 => Kind::TakeAck,
            6 => Kind::KeepAck,
            7 => Kind::LoseFrame,
            8 => Kind::LoseAck,
            9 => Kind::Close,
            _ => Kind::WideOffer,
        }
    }

    /// How many numbers an event of this kind has for its item or its place.
    pub(crate) fn numbers(self) -> usize
        ensures numbers { result ≡ kind_numbers self }
        ensures within { result ≤ 2 }
    {
        match self {
            Kind::Offer | Kind::LoseFrame | Kind::LoseAck => 1,
            Kind::WideOffer => 2,
            _ => 0,
        }
    }

    /// The event of this kind with this item or place, where it has one.
    pub(crate) fn event(self, value: u32) -> Event
        ensures { result ≡ event_of self value }
    {
        match self {
            Kind::Offer | Kind::WideOffer => Event::Offer(value),
            Kind::SendFrame => Event::SendFrame,
            Kind::TakeFrame => Event::RecvFrame { keep: false },
            Kind::KeepFrame => Event::RecvFrame { keep: true },
            Kind::SendAck => Event::SendAck,
            Kind::TakeAck => Event::RecvAck { keep: false },
            Kind::KeepAck => Event::RecvAck { keep: true },
            Kind::LoseFrame => Event::LoseFrame(place(value)),
            Kind::LoseAck => Event::LoseAck(place(value)),
            Kind::Close => Event::Close,
        }
    }
}

/// The place that a number holds, which was a `u16`.
fn place(value: u32) -> u16
    ensures { result ≡ value % 65536 }
{
    (value % NARROW) as u16
}
