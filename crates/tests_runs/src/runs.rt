//! Whole runs over links behind locks, over links of two words, and over both, and what they print.

ghost use Rattle.std.specs.Prelude.{IfOk};
ghost use Rattle.stab_run.specs.Reports.{OnePerNode};

use crate::gates::{Order, TestGate};
use stab_run::{
    Job, Links, Report, RunFault, read_job, report_text, run_locked, run_mixed, run_words,
};
use std::alloc::Global;
use std::process::Abort;
use std::sync::Wait;
use std::thread::Threads;

/// A job whose turns a gate orders, so that it prints one text over each of some kinds of links.
pub(crate) struct Run {
    /// The kinds of links, and beside each the beginning of the job.
    pub(crate) links: &'static [(Links, &'static str)],
    /// The rest of the job, in pieces.
    pub(crate) job: &'static [&'static str],
    pub(crate) order: Order,
    pub(crate) nodes: u16,
    /// The report, in pieces.
    pub(crate) report: &'static [&'static str],
}

/// Each kind of links, where the whole job is in the pieces.
pub(crate) const ALL: [(Links, &str); 3] = [
    (Links::Locked, ""),
    (Links::Words, ""),
    (Links::Mixed, ""),
];

/// Links behind locks alone, where the whole job is in the pieces.
pub(crate) const LOCKED: [(Links, &str); 1] = [(Links::Locked, "")];

/// The links of paced runs, and the parameters of their jobs.
const OF_STARS: [(Links, &str); 5] = [
    (Links::Locked, CAPACITY_ONE),
    (Links::Locked, CAPACITY_THREE),
    (Links::Words, CAPACITY_ONE),
    (Links::Mixed, CAPACITY_ONE),
    (Links::Mixed, CAPACITY_THREE),
];

/// The same of chains; in the last two the second link has the lock, and the first.
const OF_CHAINS: [(Links, &str); 7] = [
    (Links::Locked, CAPACITY_ONE),
    (Links::Locked, CAPACITY_THREE),
    (Links::Words, CAPACITY_ONE),
    (Links::Mixed, CAPACITY_ONE),
    (Links::Mixed, CAPACITY_THREE),
    (
        Links::Mixed,
        r#"{"capacity":1,"labels":4,"turns":1000000,"links":[null,{"capacity":3,"labels":8}],"#,
    ),
    (
        Links::Mixed,
        r#"{"capacity":1,"labels":4,"turns":1000000,"links":[{"capacity":3,"labels":8},null],"#,
    ),
];

const CAPACITY_ONE: &str = r#"{"capacity":1,"labels":4,"turns":1000000,"#;

const CAPACITY_THREE: &str = r#"{"capacity":3,"labels":8,"turns":1000000,"#;

/// The items 1 to 100.
const HUNDRED_ITEMS: &str = r#""items":[1,2,3,4,5,6,7,8,9,10,11,12,13,14,15,16,17,18,19,20,
    21,22,23,24,25,26,27,28,29,30,31,32,33,34,35,36,37,38,39,40,41,42,43,44,45,46,47,48,49,50,
    51,52,53,54,55,56,57,58,59,60,61,62,63,64,65,66,67,68,69,70,71,72,73,74,75,76,77,78,79,80,
    81,82,83,84,85,86,87,88,89,90,91,92,93,94,95,96,97,98,99,100],"#;

/// What a node's lines end with that received these items and knew that no more would come.
const HUNDRED_RECEIVED: &str = " ended upstream\nitems: 1 2 3 4 5 6 7 8 9 10 11 12 13 14 15 16 17 \
    18 19 20 21 22 23 24 25 26 27 28 29 30 31 32 33 34 35 36 37 38 39 40 41 42 43 44 45 46 47 48 \
    49 50 51 52 53 54 55 56 57 58 59 60 61 62 63 64 65 66 67 68 69 70 71 72 73 74 75 76 77 78 79 \
    80 81 82 83 84 85 86 87 88 89 90 91 92 93 94 95 96 97 98 99 100\n";

/// The report of a chain of three in which each node received everything.
const CHAIN: [&str; 6] = [
    "r depth 0 received 100 acked -",
    HUNDRED_RECEIVED,
    "a depth 1 received 100 acked 100",
    HUNDRED_RECEIVED,
    "b depth 2 received 100 acked 100",
    HUNDRED_RECEIVED,
];

/// The same of a star of four.
const STAR: [&str; 8] = [
    "r depth 0 received 100 acked -",
    HUNDRED_RECEIVED,
    "a depth 1 received 100 acked 100",
    HUNDRED_RECEIVED,
    "b depth 1 received 100 acked 100",
    HUNDRED_RECEIVED,
    "c depth 1 received 100 acked 100",
    HUNDRED_RECEIVED,
];

/// The end of a job of a chain of three, and the same with a drawn script for each link.
const OF_CHAIN: &str =
    r#""tree":[{"name":"r"},{"name":"a","parent":"r"},{"name":"b","parent":"a"}]}"#;

const OF_CHAIN_WITH_SCRIPTS: &str = r#""tree":[{"name":"r"},{"name":"a","parent":"r"},
    {"name":"b","parent":"a"}],
    "scripts":[{"seed":[42,54],"length":50,"loss":300,"repeat":300},
    {"seed":[42,54],"length":50,"loss":300,"repeat":300}]}"#;

/// The same of a star of four.
const OF_STAR: &str = r#""tree":[{"name":"r"},{"name":"a","parent":"r"},
    {"name":"b","parent":"r"},{"name":"c","parent":"r"}]}"#;

const OF_STAR_WITH_SCRIPTS: &str = r#""tree":[{"name":"r"},{"name":"a","parent":"r"},
    {"name":"b","parent":"r"},{"name":"c","parent":"r"}],
    "scripts":[{"seed":[42,54],"length":50,"loss":300,"repeat":300},
    {"seed":[42,54],"length":50,"loss":300,"repeat":300},
    {"seed":[42,54],"length":50,"loss":300,"repeat":300}]}"#;

/// The links of jobs of two turns.
const OF_TWO_TURNS: [(Links, &str); 4] = [
    (Links::Locked, r#"{"capacity":1,"labels":4,"turns":2,"#),
    (Links::Words, r#"{"capacity":1,"labels":4,"turns":2,"#),
    (Links::Mixed, r#"{"capacity":1,"labels":4,"turns":2,"#),
    // (this link is behind a lock also in a mixed run)
    (Links::Mixed, r#"{"capacity":3,"labels":8,"turns":2,"#),
];

/// A root and its child with one item.
const ONE_ITEM: &str = r#""items":[7],"tree":[{"name":"r"},{"name":"a","parent":"r"}]}"#;

/// What the child of a root is told that closed the link before it began.
const NOTHING_ARRIVED: &str = "r depth 0 received 1 acked - ended turns\nitems: 7\n\
    a depth 1 received 0 acked 0 ended upstream\nitems:\n";

/// The runs.
static RUNS: [Run; 10] = [
    // each node receives everything, and each link has all of it acknowledged
    Run {
        links: &OF_CHAINS,
        job: &[HUNDRED_ITEMS, OF_CHAIN],
        order: Order::Paced,
        nodes: 3,
        report: &CHAIN,
    },
    Run {
        links: &OF_CHAINS,
        job: &[HUNDRED_ITEMS, OF_CHAIN_WITH_SCRIPTS],
        order: Order::Paced,
        nodes: 3,
        report: &CHAIN,
    },
    Run {
        links: &OF_STARS,
        job: &[HUNDRED_ITEMS, OF_STAR],
        order: Order::Paced,
        nodes: 4,
        report: &STAR,
    },
    Run {
        links: &OF_STARS,
        job: &[HUNDRED_ITEMS, OF_STAR_WITH_SCRIPTS],
        order: Order::Paced,
        nodes: 4,
        report: &STAR,
    },
    Run {
        links: &LOCKED,
        job: &[
            r#"{"capacity":1,"labels":4,"items":[1,2,3],"turns":1000000,
            "tree":[{"name":"r"},{"name":"a","parent":"r"}]}"#,
        ],
        order: Order::Paced,
        nodes: 2,
        report: &[
            "r depth 0 received 3 acked - ended upstream\nitems: 1 2 3\n\
            a depth 1 received 3 acked 3 ended upstream\nitems: 1 2 3\n",
        ],
    },
    // a stray of the start comes first; a sender's first frame would take its place in a word
    Run {
        links: &LOCKED,
        job: &[
            r#"{"capacity":1,"labels":4,"items":[7,8,9],"turns":1000000,
            "tree":[{"name":"r"},{"name":"a","parent":"r"}],
            "starts":[{"frames":[[2,99]],"acks":[],"send":0,"recv":65535}]}"#,
        ],
        order: Order::Paced,
        nodes: 2,
        report: &[
            "r depth 0 received 3 acked - ended upstream\nitems: 7 8 9\n\
            a depth 1 received 4 acked 3 ended upstream\nitems: 99 7 8 9\n",
        ],
    },
    // an opening, which nobody published, is handed on before what was published
    Run {
        links: &ALL,
        job: &[
            r#"{"version":2,"h":2,"openings":[[],[50,51],[]],"capacity":1,"labels":4,
            "items":[7,8],"turns":1000000,
            "tree":[{"name":"r"},{"name":"a","parent":"r"},{"name":"b","parent":"a"}]}"#,
        ],
        order: Order::Paced,
        nodes: 3,
        report: &[
            "r depth 0 received 2 acked - ended upstream\nitems: 7 8\n\
            a depth 1 received 4 acked 2 ended upstream\nitems: 50 51 7 8\n\
            b depth 2 received 4 acked 4 ended upstream\nitems: 50 51 7 8\n",
        ],
    },
    // the order of turns decides what arrives, in two turns and in one; to take turns the workers
    // have to run together
    Run {
        links: &OF_TWO_TURNS,
        job: &[ONE_ITEM],
        order: Order::RootFirst,
        nodes: 2,
        report: &[NOTHING_ARRIVED],
    },
    Run {
        links: &LOCKED,
        job: &[r#"{"capacity":1,"labels":4,"turns":1,"#, ONE_ITEM],
        order: Order::RootFirst,
        nodes: 2,
        report: &[NOTHING_ARRIVED],
    },
    Run {
        links: &OF_TWO_TURNS,
        job: &[ONE_ITEM],
        order: Order::InTurns,
        nodes: 2,
        report: &[
            "r depth 0 received 1 acked - ended upstream\nitems: 7\n\
            a depth 1 received 1 acked 1 ended upstream\nitems: 7\n",
        ],
    },
];

/// These pieces of a text, put together.
fn joined(rt: &impl Abort, alloc: Global, first: &str, pieces: &[&str]) -> String {
    let mut text = String::new(alloc);
    text.push_str(first).expect(rt, "memory");
    for piece in pieces {
        text.push_str(piece).expect(rt, "memory");
    }
    text
}

/// The report of a job over such links, under a gate.
fn report_of<T: Threads + Wait + Send + Sync>(
    rt: &T,
    alloc: Global,
    links: Links,
    job: &Job,
    gate: &TestGate,
) -> Result<Report, RunFault>
    ensures { IfOk result (λ report. OnePerNode job.now.tree.parents report) }
{
    match links {
        Links::Locked => run_locked(rt, alloc, job, gate),
        Links::Words => run_words(rt, alloc, job, gate),
        Links::Mixed => run_mixed(rt, alloc, job, gate),
    }
}

/// What the run of a job over such links prints, under a gate, or how it is refused.
fn printed<T: Threads + Wait + Send + Sync + Abort>(
    rt: &T,
    alloc: Global,
    links: Links,
    job: &Job,
    gate: &TestGate,
) -> Result<String, RunFault> {
    match report_of(rt, alloc, links, job, gate) {
        Ok(report) => Ok(report_text(alloc, job.tree(), &report).expect(rt, "memory")),
        Err(fault) => Err(fault),
    }
}

/// What the run of the job of this text prints over such links, under a gate, or how it is refused.
pub(crate) fn outcome<T: Threads + Wait + Send + Sync + Abort>(
    rt: &T,
    alloc: Global,
    links: Links,
    text: &str,
    gate: &TestGate,
) -> Result<String, RunFault> {
    let job = read_job(alloc, text.as_bytes()).expect(rt, "a job");
    printed(rt, alloc, links, &job, gate)
}

/// Fails the test where a run over such links does not print what is expected.
fn assert_printed<T: Threads + Wait + Send + Sync + Abort>(
    rt: &T,
    alloc: Global,
    links: Links,
    begins: &str,
    run: &Run,
) {
    let text = joined(rt, alloc, begins, run.job);
    let gate = TestGate::new(run.order, run.nodes, [0; 4]);
    let report = joined(rt, alloc, "", run.report);
    match outcome(rt, alloc, links, text.as_str(), &gate) {
        Ok(printed) => assert!(rt; printed.as_str() == report.as_str(), "{links:?}: {printed}"),
        Err(fault) => panic!(rt; "{links:?}: {fault:?}"),
    }
}

/// Fails the test where one of these runs does not print what is expected.
pub(crate) fn assert_all<T: Threads + Wait + Send + Sync + Abort>(
    rt: &T,
    alloc: Global,
    runs: &[Run],
) {
    for run in runs {
        for (links, begins) in run.links {
            assert_printed(rt, alloc, *links, begins, run);
        }
    }
}

#[test]
fn runs_whose_outcome_is_worked_out(rt: HostRuntime) {
    assert_all(&rt, rt.alloc(), &RUNS);
}
