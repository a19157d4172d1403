use crate::check::checked;
use crate::command::{Reading, Request, parse};
use crate::hint::hint_of;
use clap::Error;
use clap::error::ErrorKind;
use rignolda_commands::{
    CommandFault, act_bounds, act_draw, act_explain, act_judge, act_random, act_scenario, act_worst,
};
use stab_task::{CliFault, words};
use std::io::Read;
use std::rt::{Env, Files};
use std::{fs, io};

/// The status of an explanation in which something was found, and of a report or logs that are
/// broken.
const FOUND: u8 = 1;

/// The status of a command line that is refused.
const REFUSED: u8 = 2;

/// Runs the program, prints what it answers, and gives the status to end with: 0, or 1 where a job
/// or a file is refused, an explanation has a finding or a report or logs do not obey, 2 where the
/// command line is refused, and 3 where a start, memory or a write is.
///
/// A fault is one line on the standard error. Where a job is to be typed at a terminal, a line
/// there says so first.
pub(crate) fn run<R: Env + Files + Input + Print + Eprint + AllocGlobal>(
    rt: &R,
    is_typed: bool,
) -> u8 {
    let words = match words(rt, rt.alloc()) {
        Ok(words) => words,
        Err(fault) => return failed(rt, CommandFault::Job(fault)),
    };
    match parse(rt.alloc(), &words) {
        Ok(request) => done(rt, &request, is_typed),
        Err(error) => told(rt, &error),
    }
}

/// Prints help, the version or a mistake, and gives its status. Refused memory, or a text that
/// cannot be written, is a fault.
fn told<R: Print + Eprint>(rt: &R, error: &Error) -> u8 {
    if error.kind() == ErrorKind::OutOfMemory {
        failed(rt, CommandFault::Job(CliFault::Memory))
    } else if error.print(rt).is_err() {
        failed(rt, CommandFault::Job(CliFault::Write))
    } else if error.use_stderr() {
        REFUSED
    } else {
        0
    }
}

/// Prints a fault, and gives its status.
fn failed<R: Eprint>(rt: &R, fault: CommandFault) -> u8 {
    let hint = hint_of(fault);
    let _ = eprintln!(rt; "rignolda: {fault}{hint}");
    fault.status()
}

/// Does what a request asks for, and gives the status; a fault is printed.
fn done<R: Files + Input + Print + Eprint + AllocGlobal>(
    rt: &R,
    request: &Request,
    is_typed: bool,
) -> u8 {
    match acted(rt, request, is_typed) {
        Ok(true) => 0,
        Ok(false) => FOUND,
        Err(fault) => failed(rt, fault),
    }
}

/// Does what a request asks for, and answers false where something is found or broken.
fn acted<R: Files + Input + Print + Eprint + AllocGlobal>(
    rt: &R,
    request: &Request,
    is_typed: bool,
) -> Result<bool, CommandFault> {
    match request {
        Request::Worst { params } => act_worst(rt.alloc(), *params, &mut io::writer(rt))?,
        Request::Random { options } => act_random(rt.alloc(), options, &mut io::writer(rt))?,
        Request::Check { job, report } => return checked(rt, job, report, is_typed),
        Request::Read { reading, file } => return act_on_file(rt, *reading, file, is_typed),
    }
    Ok(true)
}

/// Does this with the job in a file, or with that on the standard input.
fn act_on_file<R: Files + Input + Print + Eprint + AllocGlobal>(
    rt: &R,
    reading: Reading,
    file: &Option<String>,
    is_typed: bool,
) -> Result<bool, CommandFault> {
    let Some(path) = file else {
        say_that_it_reads(rt, is_typed);
        return act_on(rt, reading, &mut rt.reader());
    };
    match fs::open(rt, path) {
        Ok(mut file) => act_on(rt, reading, &mut file),
        Err(error) => Err(CommandFault::Job(unopened(&error))),
    }
}

/// The same with a job that this reader gives.
fn act_on<R: Print + AllocGlobal, J: Read>(
    rt: &R,
    reading: Reading,
    job: &mut J,
) -> Result<bool, CommandFault> {
    let mut writer = io::writer(rt);
    match reading {
        Reading::Draw { svg } => act_draw(rt.alloc(), svg, job, &mut writer)?,
        Reading::Explain => return Ok(act_explain(rt.alloc(), job, &mut writer)?),
        Reading::Bounds => act_bounds(rt.alloc(), job, &mut writer)?,
        Reading::Scenario => act_scenario(rt.alloc(), job, &mut writer)?,
        Reading::Judge => return act_judge(rt.alloc(), job, &mut writer),
    }
    Ok(true)
}

/// Says that a job is to be typed, where standard input is a terminal.
pub(crate) fn say_that_it_reads<R: Eprint>(rt: &R, is_typed: bool) {
    if is_typed {
        let _ = eprintln!(rt; "rignolda: reading a job from the terminal");
    }
}

/// The fault of a file that cannot be opened.
pub(crate) fn unopened(error: &io::Error) -> CliFault {
    if error.kind() == io::ErrorKind::OutOfMemory {
        CliFault::Memory
    } else {
        CliFault::Open
    }
}
