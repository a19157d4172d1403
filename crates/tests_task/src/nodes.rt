//! The nodes that faults name, which their texts do not say.

use crate::tasks::{OF_TREES, Work, ends, giving};
use stab_core::StartFault;
use stab_frames::ParamsFault;
use stab_job::JobFault;
use stab_run::RunFault;
use stab_task::{CliFault, Task};
use stab_tree::NodeId;
use std::alloc::Global;
use std::sync::Wait;
use std::thread::Threads;
use std::time::Clock;

/// A chain of three nodes, up to the members that a test adds.
const CHAIN_WITH: &str = r#"{"capacity":1,"labels":4,"tree":[{"name":"r"},{"name":"a","parent":"r"},
    {"name":"b","parent":"a"}],"items":[7,8],"#;

/// The same chain, where the root stands between its children.
const ROOT_BETWEEN_WITH: &str = r#"{"capacity":1,"labels":4,"tree":[{"name":"b","parent":"a"},
    {"name":"r"},{"name":"a","parent":"r"}],"items":[7,8],"#;

const TOO_FEW: ParamsFault = ParamsFault::LabelsTooFew;

const TOO_MANY: ParamsFault = ParamsFault::LabelsTooMany;

const CAPACITY: ParamsFault = ParamsFault::CapacityOutOfRange;

/// Whether each of these tasks refuses the job of these two pieces so, and writes nothing.
fn refuse<T: Threads + Wait + Clock + Send + Sync + Alloc<A = Global>>(
    rt: &T,
    tasks: &[Task],
    (before, members): (&'static str, &'static str),
    fault: &CliFault,
) -> bool {
    for &task in tasks {
        let work = Work {
            task,
            job: members,
            text: "",
        };
        let reader = giving(before.as_bytes(), members.as_bytes());
        if !ends(rt, work, reader, Err(*fault)) {
            return false;
        }
    }
    true
}

/// A first link with too few labels before a second one whose capacity is out of range.
const BOTH: &str = r#""links":[{"capacity":2,"labels":5},{"capacity":0,"labels":4}]}"#;

/// A second link alone with too few labels.
const SECOND: &str = r#""links":[null,{"capacity":2,"labels":5}]}"#;

#[test]
fn names_the_first_link_of_refused_parameters(rt: HostRuntime) {
    const ROWS: &[((&str, &str), u16, ParamsFault)] = &[
        ((CHAIN_WITH, BOTH), 1, TOO_FEW),
        ((CHAIN_WITH, SECOND), 2, TOO_FEW),
        (
            (CHAIN_WITH, r#""links":[null,{"capacity":0,"labels":6}]}"#),
            2,
            CAPACITY,
        ),
        (
            (
                CHAIN_WITH,
                r#""links":[null,{"capacity":70000,"labels":1000}]}"#,
            ),
            2,
            CAPACITY,
        ),
        (
            (
                CHAIN_WITH,
                r#""links":[{"capacity":2,"labels":70000},null]}"#,
            ),
            1,
            TOO_MANY,
        ),
        (
            (
                CHAIN_WITH,
                r#""version":2,"h":65,"links":[null,{"capacity":2,"labels":5}]}"#,
            ),
            2,
            TOO_FEW,
        ),
        (
            (
                CHAIN_WITH,
                r#""links":[{"capacity":65,"labels":200},{"capacity":2,"labels":5}]}"#,
            ),
            1,
            CAPACITY,
        ),
        ((ROOT_BETWEEN_WITH, BOTH), 0, TOO_FEW),
        ((ROOT_BETWEEN_WITH, SECOND), 2, TOO_FEW),
    ];
    for &(job, child, fault) in ROWS {
        let fault = CliFault::Job(JobFault::LinkParams(NodeId::new(child), fault));
        assert!(rt; refuse(&rt, OF_TREES, job, &fault), "{}", job.1);
    }
}

#[test]
fn names_the_link_whose_start_each_run_refuses(rt: HostRuntime) {
    const ROWS: &[((&str, &str), u16)] = &[
        (
            (
                r#"{"capacity":1,"labels":4,"tree":[{"name":"r"},{"name":"a","parent":"r"}],"#,
                r#""items":[7],"starts":[{"frames":[[0,1],[1,2]],"send":0,"recv":1}]}"#,
            ),
            1,
        ),
        (
            (
                CHAIN_WITH,
                r#""links":[null,null],
              "starts":[{"send":0,"recv":65535},{"frames":[[1,20],[2,21]],"send":0,"recv":0}]}"#,
            ),
            2,
        ),
    ];
    for &(job, child) in ROWS {
        let fault = RunFault::Start(NodeId::new(child), StartFault::TooManyFrames);
        let fault = CliFault::Run(fault);
        assert!(rt; refuse(&rt, &OF_TREES[..3], job, &fault), "{}", job.1);
    }
}
