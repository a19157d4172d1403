//! A report says of each node of a tree what it received, how many items are acknowledged on the
//! link into it, and whether it ended with its upstream.
//!
//! A [`Report`] keeps one, and so does whatever else shows its [`Entries`]. It is printed by
//! [`report_text`], as `stab run` prints it, and by [`tree_text`], as `stab tree` does. The layers
//! above use one fact: [`read_report`] takes the counts and items out of a text, prints the report
//! that they make, and compares it with the text byte by byte. So what is accepted is exactly the
//! text of the report that is answered, with the names and depths of the tree. [`read_tree_text`]
//! does the same of the text of a tree, and [`read_text`] looks which of both a text is. What a
//! reader refuses, and not for memory, is the text of no report. Readers of other texts use the
//! pieces [`cut_line`], [`items_of`], [`count_of`] and [`see_same`], and know what the first three
//! read of lines that are printed.
//!
//! A node that ended with its upstream handed on all that it had. So few published items are
//! missing below such nodes: that is one of the [`laws`], for runs and judges alike.
#![tactic(auto)]

mod entries;
mod fault;
pub mod laws;
mod lines;
mod read;
mod report;
mod text;

pub use entries::{Entries, Entry};
pub use fault::ReportFault;
pub use lines::{count_of, cut_line, items_of};
pub use read::{read_report, read_text, read_tree_text, see_same};
pub use report::Report;
pub use text::{report_text, tree_text};
