//! The command `check`: what its words ask for, and the files that it reads.

use crate::command::{Request, mistake};
use crate::program::{say_that_it_reads, unopened};
use clap::error::ErrorKind;
use clap::{ArgMatches, Error};
use rignolda_commands::{CommandFault, act_check};
use stab_task::CliFault;
use std::alloc::{AllocError, Global};
use std::io::Read;
use std::rt::Files;
use std::{fs, io};

/// The check of the two files that are named, of which one at most is standard input.
pub(crate) fn check_request(alloc: Global, matches: &ArgMatches<'_>) -> Result<Request, Error> {
    if is_input(matches.get_str("JOB")) && is_input(matches.get_str("REPORT")) {
        let text = "JOB and REPORT cannot both be standard input";
        return Err(mistake(alloc, ErrorKind::ValueValidation, text));
    }
    let job = named_file(alloc, matches.get_str("JOB"))?;
    let report = named_file(alloc, matches.get_str("REPORT"))?;
    Ok(Request::Check { job, report })
}

/// Whether a value names standard input.
fn is_input(path: Option<&str>) -> bool {
    matches!(path, None | Some("-"))
}

/// The file that a value names, and none where it is `-`, standard input.
fn named_file(alloc: Global, path: Option<&str>) -> Result<Option<String>, AllocError> {
    match path {
        None | Some("-") => Ok(None),
        Some(path) => Ok(Some(String::from_str(alloc, path)?)),
    }
}

/// Whether the report in one file obeys the job in another, which is printed; either may be the
/// standard input.
pub(crate) fn checked<R: Files + Input + Print + Eprint + AllocGlobal>(
    rt: &R,
    job: &Option<String>,
    report: &Option<String>,
    is_typed: bool,
) -> Result<bool, CommandFault> {
    if job.is_none() || report.is_none() {
        say_that_it_reads(rt, is_typed);
    }
    let Some(path) = job else {
        return checked_with(rt, &mut rt.reader(), report);
    };
    match fs::open(rt, path) {
        Ok(mut file) => checked_with(rt, &mut file, report),
        Err(error) => Err(CommandFault::Job(unopened(&error))),
    }
}

/// The same with a job that this reader gives.
fn checked_with<R: Files + Input + Print + AllocGlobal, J: Read>(
    rt: &R,
    job: &mut J,
    report: &Option<String>,
) -> Result<bool, CommandFault> {
    let Some(path) = report else {
        return act_check(rt.alloc(), job, &mut rt.reader(), &mut io::writer(rt));
    };
    match fs::open(rt, path) {
        Ok(mut file) => act_check(rt.alloc(), job, &mut file, &mut io::writer(rt)),
        Err(error) => Err(unopened_report(&error)),
    }
}

/// The fault of a report that cannot be opened. Refused memory is reported as that alone.
fn unopened_report(error: &io::Error) -> CommandFault {
    match unopened(error) {
        CliFault::Memory => CommandFault::Job(CliFault::Memory),
        fault => CommandFault::Unloaded(fault),
    }
}
