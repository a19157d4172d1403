//! The program `stab`: reads a job, runs it, and prints what came of it.
#![tactic(auto)]

use stab_task::{CliFault, System, parse, perform, words};
use std::io;
use std::process::ExitCode;
use std::rt::{Env, Files};
use std::sync::Wait;
use std::thread::Threads;
use std::time::Clock;

/// Runs the program, and prints a fault in one line on the standard error.
fn main(rt: HostRuntime) -> ExitCode {
    match run(&rt) {
        Ok(()) => ExitCode::SUCCESS,
        Err(fault) => {
            let _ = eprintln!(rt; "stab: {fault}");
            ExitCode::from(fault.status())
        }
    }
}

/// Does the task that the command line names.
fn run<R: Env + Files + Input + Print + Threads + Wait + Clock + Send + Sync + AllocGlobal>(
    rt: &R,
) -> Result<(), CliFault> {
    let words = words(rt, rt.alloc())?;
    let (task, path) = parse(rt.alloc(), &words)?;
    let host = System::new(rt);
    perform(rt, rt.alloc(), &host, task, path, &mut io::writer(rt))
}
