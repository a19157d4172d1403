//! The nodes of a tree at work: each takes items from its upper end, keeps what it received, and
//! offers it on to each lower end.
//!
//! [`work`] is one node's whole life: turns that are counted, then a close of each lower end. It is
//! proved once, over any two ends ([`stab_ends::RecvSide`], [`stab_ends::SendSide`]) and any
//! [`Gate`], which decides when the next turn begins. [`run_workers`] is a whole run: what there is
//! one of per link is scattered to the nodes, each node's worker runs on a thread of its own, and
//! what the workers leave is gathered by link again. The layer above uses one fact: from each
//! parent to its child, the sender's end of the link was offered a prefix of what the parent
//! received, and the child received its opening, followed by what the receiver's end delivered.
//!
//! Contracts say where each thing goes by two functions from the parents of a tree and a list with
//! one entry per link: `by_child` has beside each node what belongs to the link into it, and
//! `by_parent` what belongs to the links to its children, which are a queue.
//!
//! [`Free`] is the gate of `stab run`, which refuses no turn and keeps the workers of a run near
//! each other: what it knows of a turn that it let begin is nothing, and of one that it refused
//! that there is none. How the workers wait for each other decides how fast a run is, on a machine
//! of its own and beside other programs; no contract speaks of it.
#![tactic(auto)]

mod account;
mod by_parent;
mod columns;
mod downs;
mod fault;
mod first;
mod free;
mod gate;
mod gather;
mod gathered;
mod queue;
mod run;
mod scatter;
mod seat;
mod upstream;
mod worker;
mod worker_ends;
mod workers;
mod workers_fault;

pub use account::{Ended, NodeAccount};
pub use fault::NodeFault;
pub use free::Free;
pub use gate::Gate;
pub use gathered::Gathered;
pub use run::run_workers;
pub use worker::work;
pub use workers_fault::WorkersFault;
