//! One link and a small tree for a page in a browser: the states of a replay, with no heap, as
//! numbers.
//!
//! Lists are arrays of a fixed size. Contracts see a link as its parameters and its state with
//! origins, as those of `stab_core` do, and a tree as its published items, its openings, its
//! parents and its links with their origins. The two exports answer the report of the replay that
//! `stab_core` defines of a link, and of the replay of a schedule, which `stab_treecore` defines of
//! a tree. A page only fills arrays with what is to happen, and shows the numbers of the report.
#![tactic(auto)]

mod code;
mod entry;
pub mod examples;
mod export;
pub mod laws;
mod link;
mod numbers;
mod run;
mod standing;
mod tree;
mod tree_code;
mod tree_export;
mod tree_numbers;
mod tree_run;
mod tree_standing;

pub use code::{EventCode, FrameCode};
pub use export::stab_page_report;
pub use tree_code::{LinkCode, OpeningCode, TreeEventCode};
pub use tree_export::stab_page_tree_report;
