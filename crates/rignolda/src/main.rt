//! The program `rignolda`: a tool for people beside `stab`, which makes and examines its jobs. Here
//! are its command line, and the files that its commands read and write.
//!
//! A `Request` is what the words of a command line name; `parse` finds it, or gives the text of
//! help, of the version or of a mistake. `run` does what is asked for, by the calls of
//! `rignolda_commands`, and gives the status.
#![tactic(auto)]

mod check;
mod command;
mod hint;
mod line;
mod program;
mod random;

use program::run;
use std::io::IsTerminal;
use std::process::ExitCode;

/// Runs the program.
fn main(rt: HostRuntime) -> ExitCode {
    let is_typed = rt.stdin().is_terminal();
    ExitCode::from(run(&rt, is_typed))
}
