//! The ground layer: link parameters, frames and labels, and the bounded queue of one direction of
//! a link.
//!
//! Contracts see a [`FrameQueue`] as a list with a capacity, each call being the list operation of
//! its name; they see [`Params`] as the record of its two numbers, which are always lawful; and a
//! [`Sequence`] as its list. The layer above uses one fact: a queue is a list that never holds more
//! entries than its capacity.
#![tactic(auto)]

pub mod examples;
mod frame;
mod params;
mod queue;
mod sequence;

pub use frame::{Frame, Item, Label};
pub use params::{Params, ParamsFault};
pub use queue::FrameQueue;
pub use sequence::Sequence;
