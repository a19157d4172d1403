//! A link of capacity one without a lock, for two ends on any two threads.
//!
//! One atomic word carries the frame that is on its way, another the acknowledgement. The ends load
//! and store them, one at a time, and wait for nothing. Each step has the seat of the end that
//! makes it; a seat's view, which no value at run time holds, is what its end knows and which steps
//! it made. Between any two steps, however the ends' steps interleave, the words and the views show
//! a state that the link can reach from its start. Contracts see a link as what names it: its table
//! of words, and the parameters and the start that it was given. The layer above uses one fact:
//! [`WordLink::settle`] always answers, without a comparison, and the loads and stores of both
//! ends, in some order of both together, explain the accounts of both.
#![tactic(auto)]

mod fault;
mod link;
mod recv;
mod rule;
mod seats;
mod send;
mod steps;
mod view;
mod words;

pub use fault::WordFault;
pub use link::{WordLink, WordOpening};
pub use recv::{RecvDone, WordRecv};
pub use send::{SendDone, WordSend};
pub use view::{RecvStep, RecvSteps, RecvView, SendStep, SendSteps, SendView, Setting};
pub use words::{AckWord, FrameWord};
