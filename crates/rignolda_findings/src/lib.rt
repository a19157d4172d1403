//! What can be found in a job: findings, each with its place and its words.
//!
//! A reader answers the first check that a job fails, and names no place. Here are the pieces from
//! which an explanation for a person is made: [`Place`] is a path into the job, [`Notes`] gathers
//! findings up to a limit, and each function `look_at_..` adds what it finds in one part of a job.
//! It looks in the order of the reader's checks, and also past the first one that fails. The parts
//! are those of a link job, and those that a link job and a job of a tree share. The layer above
//! looks at the rest, and proves what the first finding is.
#![tactic(auto)]

mod begin;
mod events;
mod explanation;
mod known;
mod link_job;
mod looks;
mod nearest;
mod not_json;
mod notes;
mod place;
mod refusal;
mod shape;

pub use begin::{count_of, look_at_begin};
pub use events::{add_word, is_loss};
pub use explanation::{Explanation, Finding, Matter};
pub use known::{Known, look_at_members};
pub use link_job::{START_MEMBERS, look_at_link_job};
pub use looks::{seems_a_link_job, seems_to_have_steps};
pub use nearest::{Nearest, add_nearest, nearest_node};
pub use not_json::look_at_bytes;
pub use notes::{MAX_COUNTED, MAX_FINDINGS, Notes, Piece, line_of, push_number};
pub use place::Place;
pub use refusal::{Kind, Refusal};
pub use shape::{
    list_of, list_or_absent, look_at_items, look_at_numbers, look_at_params, look_at_start,
    look_at_whole, uncut,
};
