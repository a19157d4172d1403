//! Faults in the middle of a run, and what reading rounds make of them, by calls that no program
//! makes. The values are those of `tests/faults/reference.py`, which has rules of its own.

use crate::chain::{After, STRAY, chain, is_as, narrow, start};
use stab_convergence::run_and_settle;
use stab_core::{LinkAct, Start};
use stab_frames::{Item, Sequence};
use stab_tree::NodeId;
use stab_treecore::{
    Change, ChangeFault, RestartFault, StrikeFault, TreeEvent, TreeStepFault, run_changes,
};
use std::alloc::Global;
use std::process::Abort;

/// An item is offered to a, received and acknowledged; then both senders hold one; then the link
/// into b is struck, r publishes two items more, and a restarts.
const ACTS: [(u16, LinkAct); 7] = [
    (1, LinkAct::Offer),
    (1, LinkAct::SendFrame),
    (1, LinkAct::RecvFrame { keep: false }),
    (1, LinkAct::SendAck),
    (1, LinkAct::RecvAck { keep: false }),
    (1, LinkAct::Offer),
    (2, LinkAct::Offer),
];

/// These items, as a list of their own.
fn items(rt: &(impl Abort + Alloc<A = Global>), list: &[Item]) -> Sequence<Item> {
    Sequence::from_vec(Vec::from_slice(rt.alloc(), list).expect(rt, "items"))
}

/// The changes of the run.
fn changes(rt: &(impl Abort + Alloc<A = Global>)) -> Vec<Change> {
    let mut all = Vec::new(rt.alloc());
    for (child, act) in &ACTS {
        let event = TreeEvent {
            child: NodeId::new(*child),
            act: *act,
        };
        all.push(Change::Act(event)).expect(rt, "memory");
    }
    all.push(Change::Strike(NodeId::new(2), start(rt, &[STRAY], &[0])))
        .expect(rt, "memory");
    all.push(Change::Publish(items(rt, &[20, 21])))
        .expect(rt, "memory");
    all.push(Change::Restart(NodeId::new(1), items(rt, &[50])))
        .expect(rt, "memory");
    all
}

/// Seven are said to be enough for b: r has 8, 20 and 21 for a, a has 50 for b, and the link into a
/// adds 1 + 1.
static AFTER: [After; 4] = [
    After {
        rounds: 0,
        a: &[],
        a_acked: 1,
        b: &[],
        b_acked: 0,
    },
    After {
        rounds: 3,
        a: &[8, 20, 21],
        a_acked: 4,
        b: &[99, 50, 8, 20],
        b_acked: 3,
    },
    After {
        rounds: 4,
        a: &[8, 20, 21],
        a_acked: 4,
        b: &[99, 50, 8, 20, 21],
        b_acked: 4,
    },
    After {
        rounds: 7,
        a: &[8, 20, 21],
        a_acked: 4,
        b: &[99, 50, 8, 20, 21],
        b_acked: 4,
    },
];

/// Two clean starts.
fn clean_starts(rt: &(impl Alloc<A = Global>)) -> [Start; 2] {
    [Start::clean(rt.alloc()), Start::clean(rt.alloc())]
}

#[test]
fn a_chain_comes_back_after_faults(rt: HostRuntime) {
    let opened = chain(&rt);
    let starts = clean_starts(&rt);
    let changes = changes(&rt);
    for row in &AFTER {
        let state = run_and_settle(
            rt.alloc(),
            &narrow(&rt),
            &opened.tree,
            &[7, 8],
            &starts,
            &opened.openings,
            &changes,
            1,
            row.rounds,
        )
        .expect(&rt, "a state");
        assert!(rt; is_as(&state, row), "after {} reading rounds", row.rounds);
    }
}

/// The programs name no other node, and no link into the root.
#[test]
fn refuses_changes_of_no_node_or_link(rt: HostRuntime) {
    let opened = chain(&rt);
    let starts = clean_starts(&rt);
    let event = TreeEvent {
        child: NodeId::new(0),
        act: LinkAct::Offer,
    };
    let rows = [
        (
            Change::Restart(NodeId::new(3), items(&rt, &[])),
            ChangeFault::Restart(RestartFault::NoSuchNode),
        ),
        (
            Change::Strike(NodeId::new(0), start(&rt, &[STRAY], &[0])),
            ChangeFault::Strike(StrikeFault::NoSuchLink),
        ),
        (
            Change::Act(event),
            ChangeFault::Act(TreeStepFault::NoSuchLink),
        ),
    ];
    for (change, want) in rows {
        let fault = run_changes(
            rt.alloc(),
            &narrow(&rt),
            &opened.tree,
            &[7, 8],
            &starts,
            &opened.openings,
            &[change],
        )
        .err();
        assert!(rt; fault == Some(want), "{want:?}");
    }
}
