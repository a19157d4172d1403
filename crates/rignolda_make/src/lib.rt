//! Jobs that are made: random jobs of a tree, and the worst link job of each capacity.
//!
//! The text of a random job, of a tree, garbage on its links, scripts and a schedule, is drawn by
//! the generator PCG32, one word after the other, and depends on the [`DrawOptions`] alone: it is
//! `drawn_text` of `specs/DrawnTexts.antt`. It is read as a job, of as many nodes, items, turns and
//! steps as were asked for, with as many labels and such rates of loss and repetition, whose links
//! begin from their starts and whose schedule names links alone. Each text is read back and
//! replayed before it is handed out, and refused only where `drawn_text` is no such job.
//!
//! The text of a link job is JSON on one line, made by way of a JSON value, whose text `serde_json`
//! proves to read back. The layer above uses two facts: the reader of link jobs answers, of the
//! text of a job, that very job; and the replay of the worst job has `c` strays and misses `2c + 1`
//! acknowledged items, which no replay exceeds.
#![tactic(auto)]

mod checked;
mod link_job;
mod options;
mod parts;
mod schedule;
mod scripts;
mod shape;
mod starts;
mod text;
mod values;
mod worst;

pub use checked::{RandomFault, random_text};
pub use link_job::link_job_text;
pub use options::{DrawOptions, OptionsFault};
pub use worst::{worst_job, worst_text};
