//! Writers that fail, are interrupted, or take less than they are handed.

use crate::tasks::{WORKS, Work};
use stab_task::{CliFault, act};
use std::alloc::Global;
use std::io::{self, ErrorKind, Write};
use std::sync::Wait;
use std::thread::Threads;
use std::time::Clock;

/// A writer that takes at most `most` bytes at a time, and sees that they are those of a text.
/// After as many bytes as its place says it fails `times` times, and then takes the others. Where
/// it names no kind of failure, it says as often that it took none. Each flush fails where a kind
/// is named for it.
#[derive(Clone, Copy)]
struct Failing {
    text: &'static [u8],
    written: usize,
    is_right: bool,
    most: usize,
    place: usize,
    kind: Option<ErrorKind>,
    times: usize,
    of_flush: Option<ErrorKind>,
}

impl Write for Failing {
    fn write(&mut self, buf: &[u8]) -> io::Result<usize> {
        let mut count = buf.len().min(self.most);
        if self.times > 0 {
            let before = self.place.saturating_sub(self.written);
            if before == 0 {
                self.times -= 1;
                return match self.kind {
                    Some(kind) => Err(io::Error::from(kind)),
                    None => Ok(0),
                };
            }
            count = count.min(before);
        }
        let end = self.written.saturating_add(count);
        self.is_right &= self.text.get(self.written..end) == Some(&buf[..count]);
        self.written = end;
        Ok(count)
    }

    fn flush(&mut self) -> io::Result<()> {
        match self.of_flush {
            Some(kind) => Err(io::Error::from(kind)),
            None => Ok(()),
        }
    }
}

/// Whether a work ends so over a writer, and the first bytes of its text were written, as many as
/// counted.
fn writes<T: Threads + Wait + Clock + Send + Sync + Alloc<A = Global>>(
    rt: &T,
    work: Work,
    writer: Failing,
    want: Result<(), CliFault>,
    count: usize,
) -> bool {
    let mut job = work.job.as_bytes();
    let mut writer = writer;
    let ended = act(rt, rt.alloc(), work.task, &mut job, &mut writer);
    ended == want && writer.is_right && writer.written == count
}

/// Whether a failure after `place` bytes is reported, an interruption is not, and pieces of as many
/// bytes are taken until the whole text is written; and a failure at the flush is reported after
/// that.
fn is_written_as_taken<T: Threads + Wait + Clock + Send + Sync + Alloc<A = Global>>(
    rt: &T,
    work: Work,
    place: usize,
) -> bool {
    let text = work.text.as_bytes();
    let patient = Failing {
        text,
        written: 0,
        is_right: true,
        most: usize::MAX,
        place,
        kind: None,
        times: 0,
        of_flush: None,
    };
    let silent = Failing {
        times: 1,
        ..patient
    };
    let broken = Failing {
        kind: Some(ErrorKind::BrokenPipe),
        ..silent
    };
    let interrupted = Failing {
        kind: Some(ErrorKind::Interrupted),
        times: 1_001,
        ..patient
    };
    let slow = Failing {
        most: place.max(1),
        ..patient
    };
    let unflushed = Failing {
        of_flush: Some(ErrorKind::Other),
        ..patient
    };
    writes(rt, work, broken, Err(CliFault::Write), place)
        && writes(rt, work, silent, Err(CliFault::Write), place)
        && writes(rt, work, interrupted, Ok(()), text.len())
        && writes(rt, work, slow, Ok(()), text.len())
        && writes(rt, work, unflushed, Err(CliFault::Write), text.len())
}

#[test]
fn writers_that_fail(rt: HostRuntime) {
    for &work in WORKS {
        for place in 0..work.text.len() {
            assert!(rt; is_written_as_taken(&rt, work, place), "{place} bytes");
        }
    }
}
