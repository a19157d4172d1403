//! Runs that are refused before any turn, or whose gate stops workers. What the gate saw of each
//! node rests on no schedule: where something has to come before something else, the gate makes
//! that order.

use crate::gates::{Order, TestGate};
use crate::runs::outcome;
use stab_core::StartFault;
use stab_node::NodeFault;
use stab_run::{Links, RunFault};
use stab_tree::NodeId;
use std::alloc::Global;
use std::process::Abort;
use std::sync::Wait;
use std::thread::Threads;

/// Why a run is refused, as a constant can hold it, where a node is its place.
#[derive(Clone, Copy)]
enum Why {
    NotOne,
    TooManyFrames(u16),
    Gate(u16),
}

impl Why {
    /// The fault itself.
    fn fault(self) -> RunFault {
        match self {
            Why::NotOne => RunFault::CapacityNotOne,
            Why::TooManyFrames(child) => {
                RunFault::Start(NodeId::new(child), StartFault::TooManyFrames)
            }
            Why::Gate(node) => RunFault::Node(NodeId::new(node), NodeFault::Gate),
        }
    }
}

/// A job whose run is refused.
struct Stopped {
    links: &'static [Links],
    job: &'static str,
    nodes: u16,
    /// Which turn of each node the gate refuses; 0 is no turn.
    refused: [u32; 4],
    why: Why,
    /// How many turns each node asked for, and how often it said that it is done.
    seen: [(u64, u64); 3],
}

/// The kinds of links.
const ALL: [Links; 3] = [Links::Locked, Links::Words, Links::Mixed];

/// A chain of three nodes, three items and a hundred turns.
const CHAIN: &str = r#"{"capacity":1,"labels":4,"turns":100,"items":[1,2,3],
    "tree":[{"name":"r"},{"name":"a","parent":"r"},{"name":"b","parent":"a"}]}"#;

/// The runs. The first three are refused before any turn.
///
/// In the fourth the middle node asks three times: only the close of its upstream could end it
/// before, and the root begins its 68th turn once the middle node has asked for its fourth or is
/// done. The root makes all of its turns: the middle node looks for a frame twice, so it never
/// acknowledges the third item. The last node makes all of its turns too: the middle node, once
/// refused, calls its ends no more, so the link into the last node is never closed.
///
/// In the fifth the first turn of each node is refused at once, so no node asks twice.
static STOPPED: [Stopped; 5] = [
    Stopped {
        links: &ALL,
        job: r#"{"capacity":1,"labels":4,"tree":[{"name":"r"},{"name":"a","parent":"r"}],
            "items":[7],"starts":[{"frames":[[2,99],[3,98]],"acks":[],"send":0,"recv":1}]}"#,
        nodes: 2,
        refused: [0; 4],
        why: Why::TooManyFrames(1),
        seen: [(0, 0); 3],
    },
    Stopped {
        links: &[Links::Words],
        job: r#"{"capacity":2,"labels":6,"tree":[{"name":"r"},{"name":"a","parent":"r"}],
            "items":[7]}"#,
        nodes: 2,
        refused: [0; 4],
        why: Why::NotOne,
        seen: [(0, 0); 3],
    },
    Stopped {
        links: &[Links::Words],
        job: r#"{"capacity":2,"labels":6,"tree":[{"name":"r"},{"name":"a","parent":"r"}],
            "items":[7],"starts":[{"frames":[[2,99],[3,98],[1,97]],"send":0,"recv":1}]}"#,
        nodes: 2,
        refused: [0; 4],
        why: Why::NotOne,
        seen: [(0, 0); 3],
    },
    Stopped {
        links: &ALL,
        job: CHAIN,
        nodes: 3,
        refused: [0, 3, 0, 0],
        why: Why::Gate(1),
        seen: [(100, 1), (3, 1), (100, 1)],
    },
    Stopped {
        links: &ALL,
        job: CHAIN,
        nodes: 3,
        refused: [1; 4],
        why: Why::Gate(0),
        seen: [(1, 1); 3],
    },
];

/// Fails the test where a run over such links is not refused so, or its gate saw something else.
fn assert_stopped<T: Threads + Wait + Send + Sync + Abort>(
    rt: &T,
    alloc: Global,
    links: Links,
    run: &Stopped,
) {
    let gate = TestGate::new(Order::Paced, run.nodes, run.refused);
    let fault = outcome(rt, alloc, links, run.job, &gate).err();
    let seen = gate.seen();
    assert!(rt;
        fault == Some(run.why.fault()) && seen == run.seen,
        "{links:?}: {fault:?}, {seen:?}"
    );
}

#[test]
fn runs_are_refused_and_stopped(rt: HostRuntime) {
    for run in &STOPPED {
        for links in run.links {
            assert_stopped(&rt, rt.alloc(), *links, run);
        }
    }
}
