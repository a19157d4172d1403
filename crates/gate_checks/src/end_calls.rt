//! The six calls that the two ends of a link make, as data, and the links that they are made on.

use crate::again::Row;
use crate::readers;
use stab_core::{Event, Start};
use stab_frames::{Item, Params};
use stab_script::Script;
use std::alloc::{AllocError, Global};

/// A call of one of the two ends of a link, or the call of that name of a book; an event that a book
/// notes; or what the object of the calls holds.
#[derive(Clone, Copy)]
pub enum EndCall {
    Offer,
    Send,
    PollAck,
    Close,
    PollFrame,
    SendAck,
    Note(Event),
    Hold,
}

/// Calls on a new link, which are made once where the link begins full, and more often where it
/// begins empty. At the first call of each of the others, the history of a link grows; so it does
/// at the second call of the first row, where a frame takes the place of the stray. By the rounds
/// of the last row the lists of both ends grow twice.
pub const ROWS: [Row<'static, EndCall>; 6] = [
    (1, &[("offer", EndCall::Offer), ("send", EndCall::Send)]),
    (1, &[("poll_ack", EndCall::PollAck)]),
    (1, &[("close", EndCall::Close)]),
    (1, &[("poll_frame", EndCall::PollFrame)]),
    (1, &[("send_ack", EndCall::SendAck)]),
    ROUNDS,
];

/// What a book holds after its calls.
pub const OF_BOOK: Row<'static, EndCall> = (1, &[("the book holds", EndCall::Hold)]);

/// What the ends of a link hold after their calls.
pub const OF_ENDS: Row<'static, EndCall> = (1, &[("the ends hold", EndCall::Hold)]);

/// Items are taken, delivered and acknowledged, one after the other.
pub const ROUNDS: Row<'static, EndCall> = (
    5,
    &[
        ("offer", EndCall::Offer),
        ("send", EndCall::Send),
        ("poll_frame", EndCall::PollFrame),
        ("send_ack", EndCall::SendAck),
        ("poll_ack", EndCall::PollAck),
    ],
);

/// A stray, and an acknowledgement that no sender waits for.
const FULL_START: &str = r#"{"frames":[[2,99]],"acks":[3],"send":0,"recv":1}"#;

/// The first frame and the first acknowledgement that go out take the place of what is there, and
/// the first that come in stay.
const SCRIPT: &str = r#"{"frames_out":"E","frames_in":"K","acks_out":"E","acks_in":"K"}"#;

/// Every row offers fewer items than this.
const MOST_ITEMS: usize = 100;

/// The parameters of a link of capacity one.
pub fn params() -> Result<Params, AllocError> {
    Params::new(1, 4).ok().ok_or(AllocError)
}

/// The item that is offered after these.
pub fn item_after(offered: &[Item]) -> Item {
    (offered.len() % MOST_ITEMS) as Item + 1
}

/// The start of the link of a row that is made so often.
pub fn start_of(alloc: Global, times: u32) -> Result<Start, AllocError> {
    if times == 1 {
        readers::start_of(alloc, FULL_START)
    } else {
        Ok(Start::clean(alloc))
    }
}

/// The script of the link of such a row.
pub fn script_of(alloc: Global, times: u32) -> Result<Script, AllocError> {
    if times == 1 {
        readers::script_of(alloc, SCRIPT)
    } else {
        Ok(Script::none(alloc))
    }
}
