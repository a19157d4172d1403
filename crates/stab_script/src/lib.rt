//! The readers of what a job says of a link: starts, scripts, events and whole link jobs.
//!
//! The readers' contracts go from the JSON value that `serde_json` reads to its meaning, by small
//! definitions in `specs/`. The layers above use one fact: a reader answers the meaning of its
//! value, or the first check that the value fails, out of memory aside. What the scripts are that
//! are read here is said by `stab_acts`; its types can be named here as well.
//!
//! [`read_link_job`] has the contract of [`read_link_job_by_value`], clause by clause, and reads its
//! text as a stream of JSON tokens, without a tree of values. A job in the plain form is a text of
//! the members of a link job and nothing else, each as it has to be: it is read token by token,
//! straight into its lists. One whose only fault is an entry that is no event is refused off the
//! text as well. Any other text is read by its value, so each other refusal and their order are the
//! same. [`read_plain_link_job`] reads the plain form alone, for a caller who has to see first which
//! kind of job a text is. Where the events are the last member of such a text,
//! [`replay_plain_link_job`] hands each of them to a link as it is read, and keeps no list of them:
//! what comes of it is the replay of the job.
#![tactic(auto)]

mod entry;
mod events;
pub mod examples;
mod fault;
mod frame;
mod items;
mod link_job;
mod list;
mod number;
mod replay;
mod script_entry;
mod start;
mod stepped;
mod stream_event;
mod stream_events;
mod stream_job;
mod stream_start;

pub use events::{loss_act, plain_act};
pub use fault::PartFault;
pub use items::{next_item_lists, next_items};
pub use link_job::{LinkJob, LinkJobFault, MAX_EVENTS, link_job_of_value, read_link_job_by_value};
pub use number::{next_u16, next_whole, whole_of};
pub use replay::replay_plain_link_job;
pub use script_entry::{ScriptEntry, read_script};
pub use stab_acts::{HalfScript, InAct, OutAct, Script, ScriptFault};
pub use start::{StartEntry, read_start};
pub use stepped::{Stepped, TakesEvents};
pub use stream_job::{read_link_job, read_plain_link_job};
pub use stream_start::next_start;
