//! Arrival: how many rounds, of a link or of all links of a tree, bring what was offered.
//!
//! A round is defined in `specs/Rounds.antt`, a reading round in `specs/ReadingRounds.antt`. The
//! facts that a reader wants are in [`laws`]: from any state `2c + 1` rounds acknowledge an item,
//! and one reading round does; and after as many rounds of all links as `rounds_below` counts,
//! [`laws::everything_arrives`].
#![tactic(auto)]

pub mod examples;
pub mod laws;
mod link;
mod play;
mod reads;
mod round;

pub use link::{apply_reading_round, apply_round, pass_on};
pub use play::{round_of_all, run_rounds};
pub use reads::{
    apply_reading_rounds, push_reading_round, reading_round_of_all, run_reading_rounds,
};
pub use round::{Awaited, count_rounds};
