//! The job of a whole tree, its readers, and the replay of its schedule.
//!
//! Contracts see a [`Job`] as its parts, and its type keeps lawful parameters, one start and one
//! script for each link of its tree, and openings of its nodes that fit the tree. A reader's
//! contract goes from bytes to that value by small definitions in `specs/`. The layer above uses
//! one fact: the answer of [`read_job`] is the job that the bytes mean, or the first check that
//! they fail, unless memory is refused. A job is handed to `run_schedule` as one network
//! ([`Job::replay`]).
//!
//! [`read_job`] has the contract of [`read_job_by_value`], clause by clause. Only the schedule of a
//! job is long. So its steps are read as a stream of JSON tokens, and each takes no more memory than
//! the event that it becomes: the names of nodes are in a table beside them. The other members are
//! read as values, of which the job is made. Then each name of the table is looked up in the tree. A
//! job that fails a check, or whose schedule has not the plain form, is read by its value, so each
//! refusal and their order are the same. To a caller to whom the schedule says nothing
//! [`read_unscheduled_job`] answers, which looks at each step and keeps none, and hands out the
//! values of the other members. [`read_plain_job`] makes the attempt off the text alone, for a
//! caller who has to read the value where it fails, and [`unscheduled_job_of_value`] is the job of
//! that value. Of the two of these that end with `beside` the caller says how one further member is
//! read, so that no value is made of it: a [`Beside`].
#![tactic(auto)]

mod beside;
mod events;
mod fault;
mod job;
mod link_entry;
mod links;
mod members;
mod names;
mod opened;
mod read;
mod replay;
mod schedule;
mod step;
mod stream_members;
mod stream_read;
mod stream_schedule;
mod value;
mod version;

pub use beside::Beside;
pub use fault::JobFault;
pub use job::Job;
pub use names::Names;
pub use read::{job_of_value, read_job_by_value};
pub use step::next_act;
pub use stream_read::{
    read_job, read_plain_job, read_plain_job_beside, read_unscheduled_job,
    read_unscheduled_job_beside, unscheduled_job_of_value,
};
