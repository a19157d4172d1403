//! The tests of the protocol's layers without a thread, by public calls alone: of calls that no
//! program makes, and of what no command line shows. What one shows of frames and queues, one link,
//! all links of a tree, faults, rounds, reports and their judge is a row of `tests/tables`, or an
//! example.
//!
//! There is one module for each crate below, and one for what several of them begin with. Tests are
//! crates of their own because a crate that has tests is proved twice, without them and with them:
//! here nothing is proved again.
#![tactic(auto)]

#[cfg(test)]
mod chain;
#[cfg(test)]
mod faults;
#[cfg(test)]
mod frames;
#[cfg(test)]
mod history;
#[cfg(test)]
mod judge;
#[cfg(test)]
mod link;
#[cfg(test)]
mod reports;
#[cfg(test)]
mod rounds;
#[cfg(test)]
mod treecore;
