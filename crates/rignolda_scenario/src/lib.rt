//! A scenario: a job of a tree, and steps that happen to it in their order, faults among them.
//!
//! A step is a [`Change`](stab_treecore::Change) of the tree, or a number of rounds or of reading
//! rounds of all its links. [`read_scenario`] reads a job that has one member more, `steps`, and
//! answers the scenario that the bytes mean, or the first check that they fail, by the definitions
//! in `specs/`; [`scenario_of_value`] does the same of a value that was read. The layer above uses
//! one fact: the text of [`scenario_text`] says of each node what the definition of its scenario
//! gives, counted from the last fault on the node's path, and beside it what the law allows.
//!
//! Steps are read as a stream of JSON tokens, beside the members of the job: each is kept with the
//! place of its name in a table for its node, and then each name is looked up in the tree. A text
//! that fails a check, or has not the plain form, is read by its value, so each refusal and their
//! order are the same.
#![tactic(auto)]

mod changes;
mod count;
mod entry;
mod fault;
mod few;
mod finder;
mod hits;
pub mod laws;
mod mark;
mod named;
mod play;
mod read;
mod step;
mod stream;
mod text;

pub use changes::reading_round_of_all;
pub use fault::{ScenarioFault, StepFault};
pub use few::are_few;
pub use play::state_after;
pub use read::{Scenario, read_scenario, scenario_of_steps, scenario_of_value};
pub use step::Step;
pub use text::scenario_text;
