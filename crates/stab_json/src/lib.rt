//! The small parts of a job's JSON: whole numbers, labels, items, pairs, and lists that are read
//! all or not at all.
//!
//! Each reader's contract goes from the JSON value that `serde_json` reads to its meaning, by a
//! definition of `specs/Values.antt` that is `None` where the value has no such meaning. What an
//! entry of a list may be is an [`Entry`]. The readers above use one fact: [`read_entries`] answers
//! exactly what the entries mean, and only memory can be refused. `specs/Checks.antt` has the words
//! for a list of checks, each beside its fault.
#![tactic(auto)]

mod list;
mod value;

pub use list::{Entry, read_entries, read_list};
pub use value::{item, label, pair, read_value, u16_member, u32_member};
