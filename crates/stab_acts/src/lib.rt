//! What the ends of a link do with what they send and receive: scripts of loss and repetition.
//!
//! A [`Script`] is four lists of acts; an end of a link has the half of it that is its own, and
//! contracts see the acts that a [`HalfScript`] has still to take. A script is made of lists, or
//! drawn from a generator of random numbers. The layers above use one fact: the n-th act that is
//! taken is the n-th act of its list, past the end `Pass` or `Take`.
#![tactic(auto)]

mod act;
mod acts;
mod draw;
pub mod examples;
mod fault;
mod half;
pub mod laws;
mod script;

pub use act::{InAct, OutAct};
pub use fault::ScriptFault;
pub use half::HalfScript;
pub use script::Script;
