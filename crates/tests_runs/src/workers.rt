//! Runs of one worker per node, over ends without a link, whose answers depend on no schedule.

ghost use Rattle.std.specs.Prelude.{◌≡◌, ⊤, [], ◌∷◌, All};
ghost use Rattle.stab_ends.specs.Accounts.{new_sender, new_receiver};
ghost use Rattle.stab_tree.specs.NodeOpenings.{FitTree};

use serde_json::Value;
use stab_ends::plain::{PlainRecv, PlainSend};
use stab_ends::{FrameSeen, RecvAccount, RecvSide, SendAccount, SendSide};
use stab_frames::{Item, Sequence};
use stab_node::{Ended, Gate, Gathered, NodeFault, WorkersFault, run_workers};
use stab_tree::{Tree, read_tree};
use stab_treecore::Openings;
use std::alloc::Global;
use std::collections::VecDeque;
use std::process::Abort;
use std::sync::Wait;
use std::thread::Threads;

/// The root r is second. Its children are a and c, and b is a child of a. So the links are those
/// into a, b and c, in this order.
const TREE: &str = r#"[{"name":"a","parent":"r"},{"name":"r"},
    {"name":"b","parent":"a"},{"name":"c","parent":"r"}]"#;

/// What is published in every run.
const PUBLISHED: [Item; 3] = [1, 2, 3];

/// The most turns of a worker in every run.
const TURNS: u32 = 1000;

/// A run of that tree, and what it has to leave: of the nodes in file order, and of the links.
struct Run {
    /// The items that a begins with.
    opening: &'static [Item],
    /// The item that the upper end of each link sees before the close, and delivers.
    seen: [Item; 3],
    /// Whether the lower end of each link acknowledges at once, or never.
    acknowledge: [bool; 3],
    received: &'static [&'static [Item]],
    ended: [Ended; 4],
    /// What each link was offered, and how many of these items are acknowledged. It is closed.
    offered: &'static [(&'static [Item], u64)],
}

/// The runs. Each node hands on what it received, and its opening before that; the ends of each
/// link go to its child and to its parent, and what was dealt out so is gathered again.
static RUNS: [Run; 3] = [
    Run {
        opening: &[],
        seen: [10, 20, 30],
        acknowledge: [true, true, true],
        received: &[&[10], &PUBLISHED, &[20], &[30]],
        ended: [Ended::Upstream; 4],
        offered: &[(&PUBLISHED, 3), (&[10], 1), (&PUBLISHED, 3)],
    },
    Run {
        opening: &[],
        seen: [11, 21, 31],
        acknowledge: [true, false, true],
        received: &[&[11], &PUBLISHED, &[21], &[31]],
        ended: [
            Ended::Turns,
            Ended::Upstream,
            Ended::Upstream,
            Ended::Upstream,
        ],
        offered: &[(&PUBLISHED, 3), (&[11], 0), (&PUBLISHED, 3)],
    },
    Run {
        opening: &[50, 51],
        seen: [10, 20, 30],
        acknowledge: [true, true, true],
        received: &[&[50, 51, 10], &PUBLISHED, &[20], &[30]],
        ended: [Ended::Upstream; 4],
        offered: &[(&PUBLISHED, 3), (&[50, 51, 10], 3), (&PUBLISHED, 3)],
    },
];

/// The tree.
fn tree(rt: &impl Abort, alloc: Global) -> Tree {
    let value = Value::from_str(alloc, TREE).expect(rt, "JSON");
    read_tree(alloc, &value).expect(rt, "a tree")
}

/// The openings of the tree where a, which is first, begins with these items.
fn openings(rt: &impl Abort, alloc: Global, tree: &Tree, first: &[Item]) -> Openings
    ensures { FitTree tree.now.parents result }
{
    let mut lists = Vec::with_capacity(alloc, 4).expect(rt, "memory");
    let first = Vec::from_slice(alloc, first).expect(rt, "memory");
    lists.push(Sequence::from_vec(first)).expect(rt, "memory");
    for _ in 0..3 {
        lists.push(Sequence::new(alloc)).expect(rt, "memory");
    }
    Openings::new(tree, 2, lists).expect(rt, "openings")
}

/// A gate that refuses each turn of the nodes from this one on.
#[derive(Drop)]
struct RefusesFrom(u16);

impl Gate for RefusesFrom {
    ghost may_refuse = { λ gate node turn. ⊤ };

    ghost has_passed = { λ gate node turn. ⊤ };

    ghost is_done = { λ gate node. ⊤ };

    fn pass(&self, node: u16, _turn: u32) -> bool {
        node < self.0
    }

    fn done(&self, _node: u16) {}
}

/// A list of three.
fn three<T: Drop>(rt: &impl Abort, alloc: Global, a: T, b: T, c: T) -> Vec<T>
    ensures { result.items ≡ a ∷ b ∷ c ∷ [] }
{
    let mut list = Vec::with_capacity(alloc, 3).expect(rt, "memory");
    list.push_reserved(a);
    list.push_reserved(b);
    list.push_reserved(c);
    list
}

/// An upper end that sees one item and then the close.
fn sees(rt: &impl Abort, alloc: Global, item: Item) -> PlainRecv
    ensures { ⟦<PlainRecv as RecvSide>⟧.received result ≡ new_receiver }
{
    let mut seen = VecDeque::with_capacity(alloc, 2).expect(rt, "memory");
    seen.push_back(FrameSeen::Fresh(item)).expect(rt, "memory");
    seen.push_back(FrameSeen::Closed).expect(rt, "memory");
    PlainRecv::new(alloc, seen)
}

/// The lower ends of three links, each of which acknowledges at once or never.
#[tactic(auto, using(crate::proofs::Three::three_hold))]
fn plain_sends(rt: &impl Abort, alloc: Global, acknowledge: [bool; 3]) -> Vec<PlainSend>
    ensures { All (λ d. ⟦<PlainSend as SendSide>⟧.sent d ≡ new_sender) result.items }
{
    let a = PlainSend::new(alloc, acknowledge[0]);
    let b = PlainSend::new(alloc, acknowledge[1]);
    let c = PlainSend::new(alloc, acknowledge[2]);
    three(rt, alloc, a, b, c)
}

/// The upper ends of three links, each of which sees one of these items.
#[tactic(auto, using(crate::proofs::Three::three_hold))]
fn plain_recvs(rt: &impl Abort, alloc: Global, seen: [Item; 3]) -> Vec<PlainRecv>
    ensures { All (λ u. ⟦<PlainRecv as RecvSide>⟧.received u ≡ new_receiver) result.items }
{
    let a = sees(rt, alloc, seen[0]);
    let b = sees(rt, alloc, seen[1]);
    let c = sees(rt, alloc, seen[2]);
    three(rt, alloc, a, b, c)
}

/// What a run leaves.
type Left = Gathered<RecvAccount, SendAccount>;

/// A run over ends without a link, one of each kind for each link.
fn left_by<R: Threads + Wait + Sync + Abort>(
    rt: &R,
    alloc: Global,
    run: &Run,
    gate: &RefusesFrom,
) -> Result<Left, WorkersFault> {
    let tree = tree(rt, alloc);
    let openings = openings(rt, alloc, &tree, run.opening);
    let sends = plain_sends(rt, alloc, run.acknowledge);
    let recvs = plain_recvs(rt, alloc, run.seen);
    let links = tree.link_count() as usize;
    assert!(rt; links == sends.len() && links == recvs.len());
    run_workers(
        rt,
        &(),
        alloc,
        &tree,
        sends,
        recvs,
        &PUBLISHED,
        &openings,
        TURNS,
        gate,
    )
}

/// Fails the test where a run left something else of its nodes.
fn assert_nodes(rt: &impl Abort, left: &Left, run: &Run) {
    assert!(rt; left.ended.as_slice() == run.ended.as_slice(), "ended");
    assert!(rt; left.received.len() == run.received.len(), "received");
    for (items, want) in left.received.iter().zip(run.received) {
        assert!(rt; items.as_slice() == *want, "received");
    }
}

/// Fails the test where a run left something else of its links.
fn assert_links(rt: &impl Abort, left: &Left, run: &Run) {
    assert!(rt; left.sends.len() == run.offered.len() && left.recvs.len() == run.seen.len());
    for (send, (items, acked)) in left.sends.iter().zip(run.offered) {
        assert!(rt;
            send.offered.as_slice() == *items && send.acked == *acked && send.closed,
            "offered"
        );
    }
    for (recv, item) in left.recvs.iter().zip(&run.seen) {
        assert!(rt;
            recv.delivered.as_slice() == [*item].as_slice() && recv.closed,
            "delivered"
        );
    }
}

#[test]
fn each_node_hands_on_what_it_has(rt: HostRuntime) {
    for run in &RUNS {
        let left = left_by(&rt, rt.alloc(), run, &RefusesFrom(4)).expect(&rt, "a run");
        assert_nodes(&rt, &left, run);
        assert_links(&rt, &left, run);
    }
}

#[test]
fn the_first_node_in_file_order_is_reported(rt: HostRuntime) {
    let refused = left_by(&rt, rt.alloc(), &RUNS[0], &RefusesFrom(2)).err();
    assert!(rt; matches!(refused, Some(WorkersFault::Node(2, NodeFault::Gate))));
}
