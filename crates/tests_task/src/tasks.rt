//! What the tests of tasks share: jobs, the text that each task writes for them, how a task ends,
//! and readers that give what they are told to.

use stab_job::JobFault;
use stab_script::LinkJobFault;
use stab_task::{CliFault, Links, Task, act};
use std::alloc::Global;
use std::io::{self, ErrorKind, Read};
use std::sync::Wait;
use std::thread::Threads;
use std::time::Clock;

const PLAIN: Task = Task::Link { trace: false };

const LOCKED: Task = Task::Run {
    links: Links::Locked,
};

const WORDS: Task = Task::Run {
    links: Links::Words,
};

const MIXED: Task = Task::Run {
    links: Links::Mixed,
};

const WORST_START: &str =
    r#"{"capacity":1,"labels":4,"start":{"frames":[[2,99]],"acks":[0],"send":0,"recv":1},
      "events":[["offer",10],"recv_ack","send_ack",["offer",11],"recv_ack","recv_frame",
      "send_ack",["offer",12],"recv_ack",["offer",13],"send_frame","recv_frame"]}"#;

const WORST_TEXT: &str = "\
     delivered: 99 13\n\
     offered: 10 11 12 13\n\
     acked: 3\n\
     send label: 3\n\
     recv label: 3\n\
     frames:\n\
     acks:\n\
     closed: no\n";

const LONE_ROOT: &str = r#"{"capacity":1,"labels":4,"tree":[{"name":"r"}],"items":[7,8]}"#;

/// The tasks that read a job of a tree: those that run its workers, and one more.
pub(crate) const OF_TREES: &[Task] = &[LOCKED, WORDS, MIXED, Task::Tree];

const LONE_TEXT: &str = "r depth 0 received 2 acked -\nitems: 7 8\n";

const LONE_REPORT: &str = "r depth 0 received 2 acked - ended upstream\nitems: 7 8\n";

/// A task with a job for it and the text that it writes, which no schedule of threads changes.
#[derive(Clone, Copy)]
pub(crate) struct Work {
    pub(crate) task: Task,
    pub(crate) job: &'static str,
    pub(crate) text: &'static str,
}

/// One work for each task, of which each reads and writes as the others do; of the runs, those over
/// one kind of link.
pub(crate) const WORKS: &[Work] = &[
    Work {
        task: PLAIN,
        job: WORST_START,
        text: WORST_TEXT,
    },
    Work {
        task: Task::Tree,
        job: LONE_ROOT,
        text: LONE_TEXT,
    },
    Work {
        task: LOCKED,
        job: LONE_ROOT,
        text: LONE_REPORT,
    },
    Work {
        task: WORDS,
        job: LONE_ROOT,
        text: LONE_REPORT,
    },
];

/// A reader that gives its bytes in pieces of at most `most`: those before a place, and then those
/// after it. Between them it fails `times` times; where it names no kind of failure, it says as
/// often that it is at its end. Where it overstates, its first read answers one byte more than it
/// gave.
#[derive(Clone, Copy)]
pub(crate) struct Pieces<'a> {
    pub(crate) before: &'a [u8],
    pub(crate) after: &'a [u8],
    pub(crate) most: usize,
    pub(crate) kind: Option<ErrorKind>,
    pub(crate) times: usize,
    pub(crate) overstates: bool,
}

impl Read for Pieces<'_> {
    fn read(&mut self, buf: &mut [u8]) -> io::Result<usize> {
        let most = self.most.min(buf.len());
        if self.overstates {
            self.overstates = false;
            let given = self.before.read(&mut buf[..most])?;
            return Ok(given.saturating_add(1).min(buf.len()));
        }
        if !self.before.is_empty() {
            return self.before.read(&mut buf[..most]);
        }
        if self.times == 0 {
            return self.after.read(&mut buf[..most]);
        }
        self.times -= 1;
        match self.kind {
            Some(kind) => Err(io::Error::from(kind)),
            None => Ok(0),
        }
    }
}

/// A reader of these bytes, and then of those.
pub(crate) fn giving<'a>(before: &'a [u8], after: &'a [u8]) -> Pieces<'a> {
    Pieces {
        before,
        after,
        most: usize::MAX,
        kind: None,
        times: 0,
        overstates: false,
    }
}

/// The fault of bytes that are no JSON.
pub(crate) fn not_json(task: Task) -> CliFault {
    match task {
        Task::Link { .. } => CliFault::LinkJob(LinkJobFault::Json),
        Task::Tree | Task::Run { .. } => CliFault::Job(JobFault::Json),
    }
}

/// Whether a task ends so over a reader: where it ends well this text was written, and else
/// nothing.
pub(crate) fn ends<T: Threads + Wait + Clock + Send + Sync + Alloc<A = Global>>(
    rt: &T,
    work: Work,
    reader: Pieces<'_>,
    want: Result<(), CliFault>,
) -> bool {
    let mut reader = reader;
    let mut written = Vec::new(rt.alloc());
    let ended = act(rt, rt.alloc(), work.task, &mut reader, &mut written);
    let text = if want.is_ok() { work.text } else { "" };
    ended == want && written.as_slice() == text.as_bytes()
}
