//! Tests of the two kinds of link, behind a lock and of two words, of workers, and of whole runs by
//! worker threads, by public calls alone.
//!
//! The modules `lock` and `word` are those of the crates of links, whose calls are the data of
//! `asks`. `workers` is that of one worker, and of one worker per node, over ends without a link,
//! whose calls are the data of `calls`. The other modules are of `stab_run`: `runs`, `links` and
//! `scripts` have jobs and what they print, and `stopped` those that are refused. What no schedule
//! changes in the texts of a program is in `tests/tables` instead.
//!
//! No test rests on how the threads are scheduled: where the outcome depends on the order of turns,
//! a gate makes that order. The tests stand apart from the crates that they test, so that those are
//! not proved again with them.
#![tactic(auto)]

#[cfg(test)]
mod asks;
#[cfg(test)]
mod calls;
#[cfg(test)]
mod gates;
#[cfg(test)]
mod links;
#[cfg(test)]
mod lock;
#[cfg(test)]
mod runs;
#[cfg(test)]
mod scripts;
#[cfg(test)]
mod stopped;
#[cfg(test)]
mod word;
#[cfg(test)]
mod workers;
