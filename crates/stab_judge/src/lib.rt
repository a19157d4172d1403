//! A judge of lists and of reports: whether they obey the laws of a link and of a tree.
//!
//! The laws say that there are strays, places and an offered list with some properties. The
//! functions here find them or show that there are none, and their contracts say so both ways. Some
//! decide the laws of lists alone. A [`Judge`] of a network decides whether a [`Report`] obeys all
//! that is promised of a run, names the first part that is broken, and tells the bounds of each
//! node. It takes time in proportion to the lists, and needs no thread, lock or queue: so it judges
//! reports of `stab run` and of any other agents alike.
#![tactic(auto)]

mod bounds;
mod broken;
mod check;
mod ends;
mod judge;
pub mod laws;
mod link;
mod picked;
mod tree;

pub use bounds::Bounds;
pub use broken::Broken;
pub use judge::Judge;
pub use link::{
    obeys_half_law, obeys_link_law, obeys_link_law_within, obeys_sharper_law_below,
    obeys_sharper_link_law,
};
pub use picked::{count_picked, is_picked};
pub use stab_report::Report;
pub use tree::{obeys_complete_law, obeys_half_tree_law, obeys_sharper_tree_law, obeys_tree_law};
