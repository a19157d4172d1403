//! Tests of what the program `stab` does, by public calls alone, where its command line does not
//! show it: readers and writers that fail, the nodes of faults, and texts of faults; of what a job
//! is read as, the scripts, which no program prints (`jobs`); that the gate of a run holds no
//! worker for ever (`free`); and small parts by themselves (`parts`). There are an explanation and
//! refused options as well, as no command line of `rignolda` asks for them. `tests/check_tables.py`
//! tries command lines, refused jobs, and what else is read.
//!
//! They stand apart from the crates that they test, so that those are not proved again with them. A
//! helper that owns a value has few ways out, and a table is lent to its loop, since the checks of a
//! test's drops are most of what it costs.
#![tactic(auto)]

#[cfg(test)]
mod explain;
#[cfg(test)]
mod faults;
#[cfg(test)]
mod free;
#[cfg(test)]
mod jobs;
#[cfg(test)]
mod nodes;
#[cfg(test)]
mod parts;
#[cfg(test)]
mod random;
#[cfg(test)]
mod readers;
#[cfg(test)]
mod tasks;
#[cfg(test)]
mod writers;
