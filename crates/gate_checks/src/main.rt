//! Calls that are refused memory: a check of the gate.
//!
//! The program makes calls of every layer that may be refused memory, and tries again each one that
//! was. Undisturbed, nothing is refused, and the program prints what each call answers. Run again
//! with some allocation refused, it prints the same text: a refused call leaves its object as it
//! was and answers the next time as if nothing had happened. Where it does not, a line of the text
//! says so. The standard error names each call that was refused.
//!
//! What `stab` calls is also refused memory in that program, by `tests/refused/check.py`. Here are
//! the calls that change an object or a generator, or start workers, and those that `stab` does not
//! make.
#![tactic(auto)]

mod again;
mod books;
mod end_calls;
mod ends;
mod gate;
mod jobs;
mod links;
mod readers;
mod runs;
mod scripts;
mod texts;
mod trees;
mod works;

use crate::again::make_rows;
use crate::links::Links;
use crate::scripts::Scripts;
use crate::texts::Texts;
use crate::trees::Chain;
use crate::works::Works;
use std::alloc::{AllocError, Global};
use std::io;
use std::process::ExitCode;
use std::sync::Wait;
use std::thread::Threads;
use std::time::Clock;

/// Makes the calls. The status is 0 unless the program cannot print, or is refused twice.
fn main(rt: HostRuntime) -> ExitCode {
    match run(&rt) {
        Ok(()) => ExitCode::SUCCESS,
        Err(error) => {
            let _ = eprintln!(rt; "gate_checks: {error}");
            ExitCode::FAILURE
        }
    }
}

/// Makes the calls, and prints what is told of them.
fn run<R: Print + Eprint + Threads + Wait + Clock + Send + Sync + AllocGlobal>(
    rt: &R,
) -> io::Result<()> {
    let mut texts = match Texts::new(rt.alloc()) {
        Ok(texts) => texts,
        Err(_) => Texts::new(rt.alloc())?,
    };
    let made = make_all(rt, rt.alloc(), &mut texts);
    print!(rt; "{}", texts.told.answers)?;
    eprint!(rt; "{}", texts.told.refused)?;
    Ok(made?)
}

/// Makes the calls, those of the lowest layer first.
fn make_all<R: Threads + Wait + Clock + Send + Sync>(
    rt: &R,
    alloc: Global,
    texts: &mut Texts,
) -> Result<(), AllocError> {
    make_rows::<Links>(alloc, texts, "Link::new", (), &links::ROWS)?;
    readers::make_all(alloc, texts)?;
    make_rows::<Scripts>(alloc, texts, "scripts", (), &[scripts::ROW])?;
    make_rows::<Chain>(alloc, texts, "TreeState::new", (), &trees::ROWS)?;
    books::make_all(alloc, texts)?;
    ends::make_all(rt, alloc, texts)?;
    make_rows::<Works>(alloc, texts, "ends without a link", (), &[works::ROW])?;
    runs::make_all(rt, alloc, texts)
}
