//! What goes over a connection, byte for byte: messages as they lie in the bytes that came, and the
//! bytes to write; what an end is told that is refused; and the words that links in stores show.
//!
//! Nothing takes memory, and nothing is kept between two calls. A reader asks for the message in
//! front of what has come, and is told that message, that more has to come, or why it is none.
//! Contracts see bytes as a list. The layer above uses five facts ([`laws`]): what is spelled is
//! read, whatever follows it; what is read was spelled so; what is refused stays refused, whatever
//! comes; while more has to come there are few bytes; and what is written is read. So it does not
//! matter in what pieces a stream comes.
#![tactic(auto)]

pub mod examples;
mod fault;
mod fields;
pub mod laws;
mod names;
mod reading;
mod refusal;
pub mod refusal_laws;
mod said;
mod spoken;
#[cfg(test)]
mod tests;
pub mod word_laws;
mod words;
mod writing;

pub use fault::Fault;
pub use names::is_name;
pub use reading::message;
pub use refusal::{Refusal, refused, write_refusal};
pub use said::{
    Expect, Frame, FrameHead, Greeting, Message, NumberedWay, Reference, SignedFrame,
    SignedReference, Way,
};
pub use spoken::{range, versions};
pub use words::{frame_head, reports, word, write_up};
pub use writing::write_head;
