//! What a judge says, as text: the bounds of the nodes of a job, and the verdict of a report, or of
//! one link.
//!
//! The layer above uses three facts. [`bounds_text`] has the sums of the law for each node, after
//! how many reading rounds all has arrived there, and what faults cost. [`verdict`] answers true
//! exactly where the report obeys the laws of the job's network, and its text names the first part
//! that is broken where it does not. [`link_verdict`] answers true exactly where the offered items
//! of a link are picked from those of its job and the link law holds, and its text names the first
//! of both that is broken; [`read_link_report`] reads exactly the texts of links, as `stab link`
//! prints them. [`judge_of`], the functions `push_..` and what a [`Judged`] report shows of a node
//! are the pieces of which another judge makes its verdict and texts.
#![tactic(auto)]

mod bounds;
mod broken;
mod costs;
mod judged;
mod law;
pub mod laws;
mod link_broken;
mod link_lists;
mod link_read;
mod link_report;
mod link_text;
mod link_verdicts;
mod verdicts;

pub use bounds::{bounds_text, sharper_at};
pub use broken::{push_handed_on, push_items, push_no_count, push_published, push_root_count};
pub use judged::{Judged, judge_of};
pub use law::{push_acked, push_capacity};
pub use link_read::read_link_report;
pub use link_report::LinkReport;
pub use link_text::link_report_text;
pub use link_verdicts::link_verdict;
pub use verdicts::verdict;
