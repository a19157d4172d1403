//! A link behind a lock, whose type keeps that it is the replay of its own history.
//!
//! Contracts see a [`LinkBook`] as its parameters, its start and its history; its link is the
//! replay of these. So whoever gets the lock knows the link law of the link, however many threads
//! noted events before. What its two ends are is said by `stab_ends`, whose types can be named here
//! as well. The layer above uses one fact: where [`LockLink::settle`] answers Ok, there is one
//! event list whose replay from the link's start has exactly what both accounts say, and which
//! calls of the two ends noted under the acts of the link's script, in their order.
//!
//! A [`History`] is kept as runs of equal events. Contracts see it as a plain list of events, and as
//! the number of further events for which it surely has room. An event that repeats the last one
//! changes one number, so it takes no memory; a run that is over takes one byte, which two
//! neighbours of one event each share, 2 more for a place or an item below 65,536, 4 more for a
//! larger item, and 8 more where it has over 11 events. Once there is room for an event, pushing it
//! adds exactly that event at the end of the list, and cannot fail.
#![tactic(auto)]

mod book;
mod calls;
mod code;
pub mod examples;
mod history;
pub mod history_examples;
mod kind;
mod link;
mod numbers;
mod packed;
mod part;
mod put;
mod recv;
mod run;
mod send;
mod settle;
mod shared;
mod taken;

pub use book::LinkBook;
pub use history::History;
pub use link::LockLink;
pub use recv::LockRecv;
pub use send::LockSend;
pub use settle::{SettleFault, Unsettled};
pub use stab_ends::{FrameSeen, RecvAccount, RecvSide, SendAccount, SendSide, Settled};
