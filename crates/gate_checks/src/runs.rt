//! The runs of a job by one worker per node.
//!
//! What a run answers depends on how its workers take turns, so only what holds of every schedule
//! is told.

use crate::again::push_fault;
use crate::gate::{CountingGate, NODES};
use crate::jobs::{CHAIN, WIDER_CHAIN};
use crate::texts::Texts;
use stab_frames::Item;
use stab_job::read_job_by_value;
use stab_run::{Job, Report, RunFault, run_locked, run_mixed, run_words};
use std::alloc::{AllocError, Global};
use std::sync::Wait;
use std::thread::Threads;
use std::time::Clock;

/// What the root of the chain publishes.
const PUBLISHED: [Item; 5] = [1, 2, 3, 4, 5];

/// What the node between begins with.
const OPENED: [Item; 2] = [50, 51];

/// What holds of every report of a run from clean starts.
const HANDED_ON: &str = "the root has what is published, the node below it what it begins with and \
    then some of that, and the leaf some of what the node above it has, in its order";

/// Over which links a run is.
#[derive(Clone, Copy)]
enum Links {
    Locked,
    Words,
    Mixed,
}

/// The runs, each with its job.
const RUNS: [(&str, Links, &str); 3] = [
    ("run_locked", Links::Locked, CHAIN),
    ("run_words", Links::Words, CHAIN),
    ("run_mixed", Links::Mixed, WIDER_CHAIN),
];

/// Makes the runs.
pub fn make_all<R: Threads + Wait + Clock + Send + Sync>(
    rt: &R,
    alloc: Global,
    texts: &mut Texts,
) -> Result<(), AllocError> {
    for (name, links, text) in &RUNS {
        let job = new_job(alloc, texts, text)?;
        make_run(rt, alloc, texts, name, *links, &job)?;
    }
    Ok(())
}

/// Reads a job, once more where memory was refused.
fn new_job(alloc: Global, texts: &mut Texts, text: &str) -> Result<Job, AllocError> {
    if let Ok(job) = read_job_by_value(alloc, text.as_bytes()) {
        return Ok(job);
    }
    texts.tell_refused("", "read_job")?;
    read_job_by_value(alloc, text.as_bytes())
        .ok()
        .ok_or(AllocError)
}

/// Runs a job, once more where it is refused, and tells what it answers. A call that starts threads
/// is given a runtime that they share, which a method of a trait cannot ask for.
fn make_run<R: Threads + Wait + Clock + Send + Sync>(
    rt: &R,
    alloc: Global,
    texts: &mut Texts,
    name: &str,
    links: Links,
    job: &Job,
) -> Result<(), AllocError> {
    write!(texts.before, "{job:?}")?;
    if run(rt, alloc, job, links, &mut texts.answer).is_err() {
        write!(texts.after, "{job:?}")?;
        texts.tell_refused("", name)?;
        run(rt, alloc, job, links, &mut texts.answer)?;
    }
    texts.tell_answer("", name)
}

/// Runs a chain. Where memory, or the start of a worker, was refused, that is no answer.
fn run<R: Threads + Wait + Clock + Send + Sync>(
    rt: &R,
    alloc: Global,
    job: &Job,
    links: Links,
    text: &mut String,
) -> Result<(), AllocError> {
    let gate = CountingGate::for_tree(rt, job.tree());
    let answer = match links {
        Links::Locked => run_locked(rt, alloc, job, &gate),
        Links::Words => run_words(rt, alloc, job, &gate),
        Links::Mixed => run_mixed(rt, alloc, job, &gate),
    };
    if gate.is_done_once(answer.is_ok()) {
        push_ended(text, &answer)
    } else {
        text.push_str("a node did not ask, or asked and was not done once")
    }
}

/// Adds what holds of every report, or a report of which it does not hold, or a fault.
fn push_ended(text: &mut String, answer: &Result<Report, RunFault>) -> Result<(), AllocError> {
    match answer {
        Ok(report) if is_handed_on(report) => text.push_str(HANDED_ON),
        Ok(report) => write!(text, "{report:?}"),
        Err(fault) => push_fault(text, fault),
    }
}

/// Whether the root of the chain has what is published, its child what that begins with and then
/// some of what the root has, and the leaf some of what the child has, in its order and each once.
fn is_handed_on(report: &Report) -> bool {
    if report.received.len() != NODES {
        return false;
    }
    let root = report.received[0].as_slice();
    let child = report.received[1].as_slice();
    let leaf = report.received[2].as_slice();
    root == PUBLISHED.as_slice() && is_opened(child, root) && is_some_of(leaf, child)
}

/// Whether a list begins with the opening, and then has some of the items of the list above.
fn is_opened(items: &[Item], above: &[Item]) -> bool {
    let opened = OPENED.len();
    items.len() >= opened
        && &items[..opened] == OPENED.as_slice()
        && is_some_of(&items[opened..], above)
}

/// Whether a list has some of the items of another one, in its order and each once.
fn is_some_of(items: &[Item], all: &[Item]) -> bool {
    let mut count = 0;
    for item in all {
        if items.get(count) == Some(item) {
            count += 1;
        }
    }
    count == items.len()
}
