//! What the program `stab` does: its command line, its tasks, their texts and its faults.
//!
//! A [`Task`] is what the words of a command line name; [`parse`] finds it. [`act`] does a task: it
//! reads a whole job, and writes the whole text of its answer, or nothing. Contracts speak of the
//! bytes that a reader has and of those that a writer gained. The layer above uses one fact: what
//! is written is the answer of the task for the bytes read, by the definitions of the layers below,
//! and a fault says why there is none.
#![tactic(auto)]

mod answer;
mod command;
mod fault;
mod file;
mod host;
mod link;
mod run;

pub use answer::{act, write_text};
pub use command::{Task, parse};
pub use fault::CliFault;
pub use file::{LoadFault, load};
pub use host::{Host, System};
pub use run::{perform, words};
pub use stab_run::Links;
