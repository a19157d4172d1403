//! Two judges of what nodes received since a moment in the middle of a run, such as the last fault.
//!
//! Of a report the moment is known: the starts of the links of its job are what was queued in them
//! then, and the member `backlogs` has for each node what the node's parent had for it.
//! [`read_backlogs`] reads that member, and [`verdict_since`] answers true exactly where the report
//! obeys, and names what is broken first. Where a report obeys, each node obeys the tree law since
//! the moment ([`laws::reports_that_obey_since`]).
//!
//! Of the logs of real agents nobody knows what was there at that moment. Their job says which tree
//! there is, what the links and nodes may hold, and what was published; its members `received` and
//! `from` are the logs. [`read_logs`] reads them, [`Received`] the lists off the text already, and
//! [`verdict_of_logs`] answers true exactly where each node received what the laws allow under some
//! start, and names what is broken first. Every run since a fault has logs that obey
//! ([`log_laws::runs_since_a_fault_obey`]).
#![tactic(auto)]

mod backlogs;
mod broken;
mod broken_log;
mod judged;
mod judged_logs;
pub mod laws;
pub mod log_laws;
mod log_text;
mod logs;
mod logs_verdict;
mod text;
mod verdict;

pub use backlogs::{BacklogFault, read_backlogs};
pub use broken::BrokenSince;
pub use broken_log::BrokenLog;
pub use logs::{Logs, LogsFault, Received, read_logs};
pub use logs_verdict::verdict_of_logs;
pub use verdict::verdict_since;
