//! One link as a pure machine: its state, the step of each event, and replays of whole event lists.
//!
//! Contracts see a [`Link`] as its parameters and its state; each call is a step of the definitions
//! in `specs/`, which know no queue, clock, thread or socket. The layer above uses one fact: what
//! [`run_link`] answers is the replay of the event list from the start, and every such replay obeys
//! the link law.
#![tactic(auto)]

mod act;
mod event;
pub mod examples;
pub mod laws;
mod link;
mod origin;
mod queues;
mod receiver;
mod replay;
mod sender;
mod start;
mod text;
mod tracer;

pub use act::LinkAct;
pub use event::{Effect, Event};
pub use link::Link;
pub use origin::Origin;
pub use receiver::Receiver;
pub use replay::run_link;
pub use sender::Sender;
pub use start::{Start, StartFault};
pub use text::{
    link_text, origins_text, push_closed_line, push_frame, push_items_line, push_link_text,
    push_number, push_number_line, push_origins_text,
};
pub use tracer::{Tracer, run_traced, trace};
