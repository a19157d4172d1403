//! All links of a tree under one schedule, or under changes with faults among them: the tree law at
//! every node.
//!
//! A node has its opening, which is what an inner node begins with ([`Openings`]), and then what
//! the link into it delivered; the root has the published items. Contracts see a [`TreeState`] as
//! the published items and, of each node, its opening, its parent and the link into it; each call
//! is a step of the definitions in `specs/`, which know no vector, clock or thread. The layer above
//! uses one fact: what [`run_schedule`] answers is the replay of the schedule from the starts and
//! the openings, and the tree law holds of it at every node. The laws alone, for whatever runs the
//! links, are in [`laws`].
//!
//! Faults may happen at any moment: a list of [`Change`]s has acts on links, items that are
//! published later, links that are struck and nodes that restart, in any order. [`run_changes`]
//! makes them one by one, and refuses the first that cannot be made; [`make_changes`] goes on from
//! any state. At each node the tree law holds of the replay of a list, counted from any moment
//! after which no fault hits the node, such as the last fault on its path. Their laws are in
//! [`change_laws`].
#![tactic(auto)]

mod change;
mod change_fault;
pub mod change_laws;
mod event;
pub mod examples;
mod fault;
mod hit;
pub mod laws;
mod open;
mod run;
mod schedule;
mod state;
mod text;

pub use change::Change;
pub use change_fault::ChangeFault;
pub use event::TreeEvent;
pub use fault::{RestartFault, StrikeFault, TreeStartFault, TreeStepFault};
pub use open::check_starts;
pub use run::{make_changes, run_changes};
pub use schedule::run_schedule;
pub use stab_core::LinkAct;
pub use stab_tree::{OpeningFault, Openings, is_inner};
pub use state::TreeState;
pub use text::{push_node_counts, schedule_text};
