//! A gate that makes the order of turns, refuses some of them, and counts.

ghost use Rattle.std.specs.Prelude.{⊤};

use stab_node::Gate;
use std::sync::atomic::{AtomicU64, Ordering};
use std::thread;

/// No test has a tree of more nodes.
const MOST_NODES: usize = 4;

/// What a node that is done has asked for.
const DONE: u64 = u64::MAX;

/// How often a turn looks whether it may begin, before it is refused.
const MOST_TRIES: u32 = 100_000_000;

/// How many turns a node may be ahead of another, where the nodes keep pace.
const MOST_AHEAD: u64 = 64;

/// The order in which a gate lets turns begin.
#[derive(Clone, Copy)]
pub(crate) enum Order {
    /// No node is far ahead of another.
    Paced,
    /// A node begins once each node before it is done, the root first.
    RootFirst,
    /// Turn by turn, the root first: a node's turn begins once each node before it asks for its
    /// next one, and each node after it for its own.
    InTurns,
}

impl Order {
    /// Which turn another node must have asked for before this turn of this node begins.
    fn awaited(self, other: u16, node: u16, turn: u64) -> u64 {
        match self {
            Order::Paced => turn.saturating_sub(MOST_AHEAD),
            Order::RootFirst => { if other < node { DONE } else { 0 } }
            Order::InTurns => {
                if other < node {
                    turn.saturating_add(1)
                } else {
                    turn
                }
            }
        }
    }
}

/// What a gate saw of a node: how many turns it asked for, and how often it said that it is done.
#[derive(Drop)]
struct Seat {
    asked: AtomicU64,
    done: AtomicU64,
}

impl Seat {
    /// Nothing is seen yet.
    fn new() -> Seat {
        Seat {
            asked: AtomicU64::new(0),
            done: AtomicU64::new(0),
        }
    }

    /// Waits until the node has asked for a turn or is done; false where that is in vain.
    fn comes(&self, turn: u64) -> bool {
        for _ in 0..MOST_TRIES {
            if self.asked.load(Ordering::SeqCst) >= turn || self.done.load(Ordering::SeqCst) > 0 {
                return true;
            }
            thread::yield_now();
        }
        false
    }

    /// Both counts.
    fn seen(&self) -> (u64, u64) {
        let asked = self.asked.load(Ordering::SeqCst);
        (asked, self.done.load(Ordering::SeqCst))
    }
}

/// A gate that lets turns begin in an order, refuses some turns, and sees which are asked for. A
/// turn that is not the node's next one is refused as well.
#[derive(Drop)]
pub(crate) struct TestGate {
    order: Order,
    nodes: u16,
    /// Which turn of each node is refused; 0 is no turn.
    refused: [u32; MOST_NODES],
    seats: [Seat; MOST_NODES],
}

impl TestGate {
    /// The gate of a run of `nodes` nodes, which refuses these turns.
    pub(crate) fn new(order: Order, nodes: u16, refused: [u32; MOST_NODES]) -> TestGate {
        TestGate {
            order,
            nodes,
            refused,
            seats: [Seat::new(), Seat::new(), Seat::new(), Seat::new()],
        }
    }

    /// How many turns each of the first three nodes asked for, and how often it said that it is
    /// done.
    pub(crate) fn seen(&self) -> [(u64, u64); 3] {
        [
            self.seats[0].seen(),
            self.seats[1].seen(),
            self.seats[2].seen(),
        ]
    }
}

impl Gate for TestGate {
    ghost may_refuse = { λ gate node turn. ⊤ };

    ghost has_passed = { λ gate node turn. ⊤ };

    ghost is_done = { λ gate node. ⊤ };

    fn pass(&self, node: u16, turn: u32) -> bool {
        let Some(own) = self.seats.get(node as usize) else {
            return false;
        };
        let before = own.asked.fetch_add(1, Ordering::SeqCst);
        if before.saturating_add(1) != turn as u64 {
            return false;
        }
        for (seat, other) in self.seats.iter().zip(0..self.nodes) {
            if other != node && !seat.comes(self.order.awaited(other, node, turn as u64)) {
                return false;
            }
        }
        self.refused.get(node as usize).copied() != Some(turn)
    }

    fn done(&self, node: u16) {
        if let Some(own) = self.seats.get(node as usize) {
            own.done.fetch_add(1, Ordering::SeqCst);
        }
    }
}
