//! Convergence: what holds of a whole tree once faults end.
//!
//! A node counts from the last fault on its path. Once the changes since contain `rounds_since`
//! rounds of the path, plain or reading ones, the node has all that was published before these, but
//! for some of the first items, whatever the fault left in the links and lists, and whatever is
//! published meanwhile: [`laws::nodes_converge`].
//!
//! That number of first items is the least: whatever the nodes and the parameters are, there are
//! starts and a schedule after which exactly as many published items are missing at a node as its
//! sharper bound says ([`reached_laws`]). These contracts know a network, its bounds and what a schedule
//! makes of it; they know no tree, link or list of the code.
#![tactic(auto)]

mod arrival;
pub mod laws;
pub mod reached_laws;
mod settle;

pub use arrival::{arrival_reading_rounds, arrival_rounds, largest_capacity};
pub use settle::run_and_settle;
