//! The gate that refuses nothing.

ghost use Rattle.std.specs.Prelude.{⊤};

use crate::gate::Gate;
use crate::seat::Seat;
use stab_tree::{MAX_NODES, NodeId, Tree};
use std::sync::Wait;
use std::sync::atomic::{AtomicU64, Ordering};
use std::time::Clock;
use std::{array, cmp, hint, thread};

/// The number of nodes whose two workers take turns. A turn that one of them makes too early finds
/// nothing to do, and takes the lock of their one link from the other; among more workers than
/// processors such strict turns cost more than they save.
const TAKE_TURNS: u16 = 2;

/// How many turns a worker of a larger run makes between two looks at its neighbours.
const LOOKS_EVERY: u32 = 2;

/// How many turns a worker of a larger run may be ahead of a neighbour before it waits.
const MOST_AHEAD: u64 = 2;

/// How often one of two workers looks at the other at most, before it gives up the processor: some
/// ten times as long as a turn takes. Beside other programs, a processor that is given up is often
/// lost for milliseconds.
const MOST_LOOKS: u64 = 1_024;

/// How often one of two workers looks at the other at least: about as long as a turn takes, so that
/// two which have a processor each find it out.
const FEWEST_LOOKS: u64 = 16;

/// How many looks in vain two workers have to spend: some milliseconds at most. All are in vain
/// where the two share one processor.
const LOOKS_TO_SPEND: u64 = 65_536;

/// How many looks two workers earn where one came while the other looked: about twice what it took.
const LOOKS_EARNED: u64 = 32;

/// How often a worker gives up the processor for one other, before it sleeps.
const MOST_YIELDS: u32 = 256;

/// From how many microseconds on a worker that gave up the processor was off it for long: several
/// times what the turns of the other workers take. A system may give another program a whole time
/// slice each time.
const LONG_AWAY: u64 = 460;

/// And so many more for each child of the node that has most of them, whose turn takes longest.
const LONG_AWAY_FOR_A_CHILD: u64 = 40;

/// For how many times as long as a worker was off its processor none gives it up, so that at most
/// about a sixteenth of the time is lost so.
const SLEEPS_FOR: u64 = 16;

/// How often a worker sleeps for one other, before it waits for that one no more.
const MOST_SLEEPS: u32 = 30;

/// A gate that refuses no turn, and keeps the workers of one run within reach of each other.
///
/// Two workers take turns. Of more, each waits where it is too far ahead of a neighbour. As long as
/// that is quick, a worker gives up the processor at each turn, and waits by giving it up again and
/// again, one of two after it looked for a while whether the other comes. Where it was off the
/// processor for long, other programs run there, and for some time after that all workers sleep in
/// place of it: what a worker waits for wakes it. But it does not wait for ever: a worker that was
/// waited for in vain is left out from then on, as is one that is done. Without this, a worker that
/// never leaves its processor uses up its turns while the others do not run. Nothing is promised
/// about how far the others come. Each call returns, whatever the others do, where a sleep of the
/// runtime ends in its time, and takes no memory.
///
/// One value is for one run.
#[derive(Drop)]
pub struct Free<'r, R> {
    rt: &'r R,
    tree: &'r Tree,
    /// By node. No tree has as many nodes as there are more.
    seats: [Seat; MAX_NODES],
    /// How many looks in vain two workers have left.
    looks: AtomicU64,
    /// From how many microseconds on a worker was off its processor for long.
    long_away: u64,
    /// The time from which on a worker may give up its processor again.
    sleeps_until: AtomicU64,
}

/// How many children the node has that has most of them.
fn most_children(tree: &Tree) -> u64 {
    let mut most = 0;
    for node in 0..tree.len() {
        let mut children: u64 = 0;
        for parent in tree.parents() {
            if *parent == Some(NodeId::new(node)) {
                children = children.saturating_add(1);
            }
        }
        most = cmp::max(most, children);
    }
    most
}

impl<'r, R> Free<'r, R> {
    /// The gate of a run of this tree.
    pub fn for_tree(rt: &'r R, tree: &'r Tree) -> Free<'r, R> {
        let more = most_children(tree).saturating_mul(LONG_AWAY_FOR_A_CHILD);
        Free {
            rt,
            tree,
            seats: array::from_fn(|_| Seat::new()),
            looks: AtomicU64::new(LOOKS_TO_SPEND),
            long_away: LONG_AWAY.saturating_add(more),
            sleeps_until: AtomicU64::new(0),
        }
    }

    /// Shows which turn a node is in.
    fn show(&self, node: u16, turn: u64) {
        if let Some(own) = self.seats.get(usize::from(node)) {
            own.show(turn);
        }
    }

    /// Whether a node has begun a turn, or begins it while this looks at it. What both workers note
    /// of their looks at once may be lost.
    fn comes_soon(&self, other: &Seat, turn: u64) -> bool {
        if other.has_begun(turn) {
            return true;
        }
        let left = self.looks.load(Ordering::SeqCst);
        for _ in 0..left.clamp(FEWEST_LOOKS, MOST_LOOKS) {
            hint::spin_loop();
            if other.has_begun(turn) {
                if left < LOOKS_TO_SPEND {
                    self.looks
                        .store(left.saturating_add(LOOKS_EARNED), Ordering::SeqCst);
                }
                return true;
            }
        }
        self.looks
            .store(left.saturating_sub(MOST_LOOKS), Ordering::SeqCst);
        false
    }
}

impl<R: Clock> Free<'_, R> {
    /// The time in microseconds, or 0 where the clock cannot be read.
    fn time(&self) -> u64 {
        match self.rt.monotonic() {
            Ok(time) => time
                .as_secs()
                .saturating_mul(1_000_000)
                .saturating_add(u64::from(time.subsec_micros())),
            Err(_) => 0,
        }
    }

    /// Whether workers give up the processor, and do not sleep in place of it.
    fn is_quick(&self) -> bool {
        let until = self.sleeps_until.load(Ordering::SeqCst);
        if until == 0 {
            return true;
        }
        if self.time() < until {
            return false;
        }
        self.sleeps_until.store(0, Ordering::SeqCst);
        true
    }

    /// Gives up the processor, and notes where that took long. What two workers note at once may be
    /// lost.
    fn give_way(&self) {
        let before = self.time();
        thread::yield_now();
        let after = self.time();
        let away = after.saturating_sub(before);
        if away > self.long_away {
            let until = after.saturating_add(away.saturating_mul(SLEEPS_FOR));
            self.sleeps_until.store(until, Ordering::SeqCst);
        }
    }

    /// Whether a node has begun a turn, or begins it while this worker gives up the processor, as
    /// long as that is quick.
    fn comes_by_giving_way(&self, other: &Seat, turn: u64) -> bool {
        for _ in 0..MOST_YIELDS {
            if other.has_begun(turn) {
                return true;
            }
            if !self.is_quick() {
                return false;
            }
            self.give_way();
        }
        false
    }
}

impl<R: Wait + Clock> Free<'_, R> {
    /// Lets node 0 begin a turn once the other has made the one before, and the other begin it once
    /// node 0 has made this one: so each finds what the other did, and both never want the lock of
    /// their link at once.
    fn take_turns(&self, node: u16, turn: u64) {
        let (other, begun) = if node == 0 {
            (1, turn)
        } else {
            (0, turn.saturating_add(1))
        };
        if let Some(other) = self.seats.get(other) {
            if !self.comes_soon(other, begun) {
                self.wait_for(other, begun);
            }
        }
    }

    /// Waits for the parent of a node and for each of its children, where it is too far behind.
    fn keep_pace(&self, node: u16, turn: u64) {
        let begun = turn.saturating_sub(MOST_AHEAD);
        let parents = self.tree.parents();
        if let Some(Some(parent)) = parents.get(usize::from(node)) {
            if let Some(parent) = self.seats.get(parent.index()) {
                self.wait_for(parent, begun);
            }
        }
        for (other, parent) in self.seats.iter().zip(parents) {
            if *parent == Some(NodeId::new(node)) {
                self.wait_for(other, begun);
            }
        }
    }

    /// Waits until a node has begun a turn, and leaves the node out where that is in vain.
    fn wait_for(&self, other: &Seat, turn: u64) {
        if self.comes_by_giving_way(other, turn) {
            return;
        }
        for _ in 0..MOST_SLEEPS {
            if other.comes_in_a_sleep(self.rt, turn) {
                return;
            }
        }
        other.leave_out();
    }
}

impl<R: Wait + Clock> Gate for Free<'_, R> {
    ghost may_refuse = { λ gate node turn. ⊥ };

    ghost has_passed = { λ gate node turn. ⊤ };

    ghost is_done = { λ gate node. ⊤ };

    fn pass(&self, node: u16, turn: u32) -> bool {
        let begun = u64::from(turn);
        if self.tree.len() == TAKE_TURNS {
            self.show(node, begun);
            self.take_turns(node, begun);
            return true;
        }
        if self.is_quick() {
            self.give_way();
        }
        if turn % LOOKS_EVERY == 0 {
            self.show(node, begun);
            self.keep_pace(node, begun);
        }
        true
    }

    fn done(&self, node: u16) {
        if let Some(own) = self.seats.get(usize::from(node)) {
            own.leave_out();
        }
    }
}
