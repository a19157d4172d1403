//! What is wrong with a job, and where.
//!
//! The program that replays and runs jobs answers a refused one with one line that names no place,
//! and ignores members that it does not know. [`explain`] reads the same bytes for a person: it
//! finds every place where a link job or a job of a tree is refused, and every member that no
//! reader looks at, with the nearest name that it knows.
//!
//! Three facts are proved. The [`Explanation`]'s refusal is exactly the answer of the reader of
//! such bytes, `read_link_job` or `read_job`: none where it accepts them, and else its fault. The
//! first finding is of that fault, or no finding is of any. And of a job that is accepted the first
//! finding of a [`Stop`] is exactly why it stops: none where its links begin and its steps are on
//! links. The places, and all other findings, are tested.
//!
//! Each function `look_at_..` looks at one part of a job, in the order of the checks of whatever
//! reads it: the tree, its nodes, the members that `stab` does not look at, which are the steps of
//! a scenario, and the backlogs and logs since a moment. Findings of those are of a command of
//! `rignolda`, so none of them is what `stab` answers; of them only is proved that nothing but
//! memory is refused, and what they add where they are absent.
#![tactic(auto)]

mod backlogs;
mod changes;
mod explained;
mod found;
mod job;
mod links;
mod logs;
mod names;
mod openings;
mod parents;
mod plain;
mod reader;
mod schedule;
mod scripts;
mod steps;
mod stop;
mod strikes;
mod text;
mod tree;

pub use explained::explain;
pub use reader::kind_of;
pub use rignolda_findings::{Explanation, Finding, Kind, MAX_FINDINGS, Matter, Refusal};
pub use stop::Stop;
pub use text::explanation_text;
