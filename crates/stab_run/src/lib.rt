//! The run of a job by one worker per node.
//!
//! In a run a node has its opening, and then what the link into it delivered. The layer above uses
//! one fact: the tree law holds at every node of the report that [`run_locked`] answers, over links
//! behind locks, [`run_words`], over links of two words, and [`run_mixed`], over links of both
//! kinds; [`report_text`] prints it. The job and its reader, which are those of `stab_job`, can be
//! named here as well.
//!
//! Each link of a run is behind a lock or of two words ([`Links`]), and its ends follow a script.
//! [`AnySend`] and [`AnyRecv`] are the ends of a link of either kind, and a finished one keeps its
//! kind. [`ScriptedSend`] and [`ScriptedRecv`] are such ends that also know the script that they
//! follow, and for how many turns. Where a link settles with its two finished ends, one list of
//! events explains both accounts, and the ends followed the script ([`AnyLink::settle`]).
#![tactic(auto)]

mod any_link;
mod any_recv;
mod any_send;
mod ends;
pub mod examples;
mod kept_links;
pub mod laws;
mod links;
mod plan;
mod report;
mod room;
mod run;
mod run_fault;
mod runs;
mod scripted_recv;
mod scripted_send;
mod settle;
mod starts;

pub use any_link::{AnyLink, AnyOpening};
pub use any_recv::{AnyRecv, AnyRecvDone};
pub use any_send::{AnySend, AnySendDone};
pub use links::Links;
pub use report::{Report, report_text};
pub use run_fault::RunFault;
pub use runs::{run_locked, run_mixed, run_words};
pub use scripted_recv::{ScriptedRecv, ScriptedRecvDone};
pub use scripted_send::{ScriptedSend, ScriptedSendDone};
pub use stab_job::{Job, JobFault, read_job};
