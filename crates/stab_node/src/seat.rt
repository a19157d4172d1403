//! What the workers of a run see of one node.

use std::sync::Wait;
use std::sync::atomic::{AtomicU64, Ordering};
use std::time::Duration;

/// The mark of a node that nobody waits for.
const LEFT_OUT: u64 = u64::MAX;

/// The bits of a turn that the system compares before it lets a worker sleep.
const COMPARED: u64 = 0xffff_ffff;

/// How many milliseconds a worker sleeps at most, in case that nobody wakes it.
const LONGEST_SLEEP: u64 = 100;

/// The turn that a node was last seen in, which others can wait for.
///
/// A worker counts itself as asleep before it looks at the turn, and a node shows its turn before
/// it looks at that count. So either the worker sees the turn, or the node wakes the worker.
#[derive(Drop)]
pub(crate) struct Seat {
    turn: AtomicU64,
    asleep: AtomicU64,
}

impl Seat {
    /// A node in its first turn, so that none waits there for one that has not started yet.
    pub(crate) fn new() -> Seat {
        Seat {
            turn: AtomicU64::new(1),
            asleep: AtomicU64::new(0),
        }
    }

    /// Whether the node has begun a turn, or is left out.
    pub(crate) fn has_begun(&self, turn: u64) -> bool {
        self.turn.load(Ordering::SeqCst) >= turn
    }

    /// Shows which turn the node is in, unless it is left out.
    pub(crate) fn show(&self, turn: u64) {
        if self.turn.load(Ordering::SeqCst) != LEFT_OUT {
            self.turn.store(turn, Ordering::SeqCst);
        }
        self.wake();
    }

    /// Leaves the node out: from now on nobody waits for it.
    pub(crate) fn leave_out(&self) {
        self.turn.store(LEFT_OUT, Ordering::SeqCst);
        self.wake();
    }

    /// Sleeps until the node shows another turn, for `LONGEST_SLEEP` at most, and answers whether
    /// it has begun the turn that is waited for. Where it has begun it before, nobody sleeps.
    pub(crate) fn comes_in_a_sleep<R: Wait>(&self, rt: &R, turn: u64) -> bool {
        self.asleep.fetch_add(1, Ordering::SeqCst);
        let seen = self.turn.load(Ordering::SeqCst);
        if seen < turn {
            let longest = Duration::from_millis(LONGEST_SLEEP);
            self.turn
                .park_timeout(rt, (seen & COMPARED) as u32, longest);
        }
        self.asleep.fetch_sub(1, Ordering::SeqCst);
        self.has_begun(turn)
    }

    /// Wakes the workers that sleep.
    fn wake(&self) {
        if self.asleep.load(Ordering::SeqCst) > 0 {
            self.turn.wake_all();
        }
    }
}
