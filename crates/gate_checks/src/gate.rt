//! The gates of the checks: one that counts, and one that does nothing.

ghost use Rattle.std.specs.Prelude.{⊤};

use stab_node::{Free, Gate};
use stab_tree::Tree;
use std::array;
use std::sync::Wait;
use std::sync::atomic::{AtomicU64, Ordering};
use std::time::Clock;

/// How many nodes a chain has.
pub const NODES: usize = 3;

/// A gate that refuses no turn, and counts how often each node asked for one, and how often it said
/// that it is done.
#[derive(Drop)]
pub struct CountingGate<'r, R> {
    free: Free<'r, R>,
    asked: [AtomicU64; NODES],
    done: [AtomicU64; NODES],
}

impl<'r, R> CountingGate<'r, R> {
    /// The gate of a run of this tree.
    pub fn for_tree(rt: &'r R, tree: &'r Tree) -> CountingGate<'r, R> {
        CountingGate {
            free: Free::for_tree(rt, tree),
            asked: array::from_fn(|_| AtomicU64::new(0)),
            done: array::from_fn(|_| AtomicU64::new(0)),
        }
    }

    /// Whether each node that asked for a turn was done once, and no other node more often; and,
    /// where all must have asked, each did.
    pub fn is_done_once(&self, must_ask: bool) -> bool {
        for (asked, done) in self.asked.iter().zip(&self.done) {
            let asked = asked.load(Ordering::SeqCst) > 0;
            let done = done.load(Ordering::SeqCst);
            if done > 1 || (asked && done == 0) || (must_ask && !asked) {
                return false;
            }
        }
        true
    }
}

impl<R: Wait + Clock> Gate for CountingGate<'_, R> {
    ghost may_refuse = { λ gate node turn. ⊥ };

    ghost has_passed = { λ gate node turn. ⊤ };

    ghost is_done = { λ gate node. ⊤ };

    fn pass(&self, node: u16, turn: u32) -> bool {
        if let Some(asked) = self.asked.get(node as usize) {
            asked.fetch_add(1, Ordering::SeqCst);
        }
        self.free.pass(node, turn)
    }

    fn done(&self, node: u16) {
        if let Some(done) = self.done.get(node as usize) {
            done.fetch_add(1, Ordering::SeqCst);
        }
        self.free.done(node)
    }
}

/// A gate that refuses no turn and holds no worker back.
#[derive(Drop)]
pub struct OpenGate;

impl Gate for OpenGate {
    ghost may_refuse = { λ gate node turn. ⊥ };

    ghost has_passed = { λ gate node turn. ⊤ };

    ghost is_done = { λ gate node. ⊤ };

    fn pass(&self, _node: u16, _turn: u32) -> bool {
        true
    }

    fn done(&self, _node: u16) {}
}
