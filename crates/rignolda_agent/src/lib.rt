//! An agent: which bodies it takes, which of these it applies, and what its files come to; the
//! bodies as bytes; and what the root of a tree publishes.
//!
//! Of an agent contracts know numbers, kinds of bodies and lists of bodies; they know no file and
//! no line. What an agent remembers may be anything. The layer above uses three facts ([`laws`]):
//! nothing older is applied after what is newer; a table that is newer than what the agent
//! remembers makes its files right; and so do two rounds, where what came is within the law of the
//! tree.
//!
//! A body travels beside an item of the tree, as bytes that say settings. Contracts see bytes as a
//! list, and a body as its kind, its number and its settings, each a key and perhaps a value.
//! Nothing takes memory: what is read stays where it lies, and what is written goes into a buffer
//! of the caller's. The layer above uses one fact: reading gives a body exactly where the bytes are
//! its one spelling ([`body_laws`]), and else the first fault that is met.
//!
//! A root is asked for one body after the other: changes of settings, a harmless one, or the whole
//! table. What it remembers for that are numbers, and every bit pattern of them is a state. Here
//! contracts know a body by its kind and number, settings by keys and values, and how many changes
//! wait; they know no bytes, map or clock. The layer above uses [`Publisher::next`] and
//! [`Publisher::publish`], which are the definitions' step, and keeps keys and values itself;
//! [`root_laws`] says what comes of that: numbers rise, rounds end, and a table that was told all
//! bodies is the root's. At an agent [`Waits`] says the same of each key whose change waits to be
//! applied. [`report_laws`] says how the root comes to be above the numbers that agents report.
#![tactic(auto)]

mod body;
pub mod body_examples;
pub mod body_laws;
pub mod examples;
mod fault;
mod fields;
mod keys;
pub mod laws;
mod marker;
pub mod marker_laws;
mod more_tables;
mod numbers;
mod publisher;
mod reading;
pub mod report_examples;
pub mod report_laws;
mod room;
pub mod room_laws;
pub mod root_examples;
pub mod root_laws;
mod summing;
mod tables;
mod taker;
mod waits;
mod writing;

pub use body::{Entry, Head, Kind};
pub use fault::Fault;
pub use keys::is_key;
pub use marker::may_mark;
pub use numbers::{further, is_newer, next};
pub use publisher::{Next, Publisher};
pub use reading::{entry, head, heard};
pub use room::Room;
pub use summing::checksum;
pub use taker::{Heard, Taker};
pub use waits::Waits;
pub use writing::{write_entry, write_head};
