//! The calls that a worker makes of its gate and of its ends, one by one in their order, which no
//! clause says; what it leaves; and that a call which is refused is its last one, but for `done` of
//! the gate.

ghost use Rattle.std.specs.Prelude.{◌≡◌, ⊤};

use stab_core::Effect;
use stab_ends::plain::{PlainRecv, PlainSend};
use stab_ends::{FrameSeen, RecvAccount, RecvSide, SendAccount, SendSide};
use stab_frames::Item;
use stab_node::{Ended, Gate, NodeAccount, NodeFault, work};
use std::alloc::{AllocError, Global};
use std::cell::Cell;
use std::collections::VecDeque;
use std::process::Abort;

/// The node that works.
const NODE: u16 = 3;

/// A run of a worker, the calls that it has to make, a letter each, and what it has to leave.
///
/// At the gate `|` asks for the next turn, and `.` says that the node is done. At the upper end `f`
/// looks for a frame, `k` acknowledges, and `u` finishes. At a lower end `a` looks for an
/// acknowledgement, `o` offers, `s` sends, `c` closes, and `e` finishes; the second lower end has
/// these letters as capitals.
struct Run {
    /// What the upper end sees; a root has none.
    seen: Option<&'static [FrameSeen]>,
    /// Whether each lower end acknowledges at once, or never.
    acknowledge: &'static [bool],
    first: &'static [Item],
    turns: u32,
    calls: &'static str,
    received: &'static [Item],
    ended: Ended,
    /// What the upper end delivered, and whether it saw the close.
    up: Option<(&'static [Item], bool)>,
    /// What each lower end offered, and how many of these items are acknowledged. It is closed.
    downs: &'static [(&'static [Item], u64)],
}

/// What the upper end of the last runs sees.
const SEEN: [FrameSeen; 4] = [
    FrameSeen::Fresh(7),
    FrameSeen::Fresh(7),
    FrameSeen::Fresh(8),
    FrameSeen::Closed,
];

/// The runs, by what the documentation of `work` says of a turn and of the end.
static RUNS: [Run; 13] = [
    Run {
        seen: Some(&[FrameSeen::Fresh(7), FrameSeen::Fresh(8), FrameSeen::Closed]),
        acknowledge: &[true],
        first: &[],
        turns: 10,
        calls: "|fkaos|fkaos|fasc.ue",
        received: &[7, 8],
        ended: Ended::Upstream,
        up: Some((&[7, 8], true)),
        downs: &[(&[7, 8], 2)],
    },
    Run {
        seen: Some(&[FrameSeen::Fresh(7), FrameSeen::Fresh(8), FrameSeen::Closed]),
        acknowledge: &[true, false],
        first: &[],
        turns: 4,
        calls: "|fkaosAOS|fkaosAS|fasAS|asAScC.ueE",
        received: &[7, 8],
        ended: Ended::Turns,
        up: Some((&[7, 8], true)),
        downs: &[(&[7, 8], 2), (&[7], 0)],
    },
    Run {
        seen: Some(&[FrameSeen::Old, FrameSeen::Fresh(7), FrameSeen::Closed]),
        acknowledge: &[false],
        first: &[],
        turns: 2,
        calls: "|fkas|fkaosc.ue",
        received: &[7],
        ended: Ended::Turns,
        up: Some((&[7], false)),
        downs: &[(&[7], 0)],
    },
    Run {
        seen: Some(&[FrameSeen::Old, FrameSeen::Closed]),
        acknowledge: &[true, true],
        first: &[50],
        turns: 10,
        calls: "|fkaosAOS|fasAScC.ueE",
        received: &[50],
        ended: Ended::Upstream,
        up: Some((&[], true)),
        downs: &[(&[50], 1), (&[50], 1)],
    },
    Run {
        seen: Some(&[FrameSeen::Old, FrameSeen::Fresh(7), FrameSeen::Closed]),
        acknowledge: &[],
        first: &[],
        turns: 10,
        calls: "|fk|fk|f.u",
        received: &[7],
        ended: Ended::Upstream,
        up: Some((&[7], true)),
        downs: &[],
    },
    Run {
        seen: None,
        acknowledge: &[true],
        first: &[4, 5],
        turns: 10,
        calls: "|aos|aos|asc.e",
        received: &[4, 5],
        ended: Ended::Upstream,
        up: None,
        downs: &[(&[4, 5], 2)],
    },
    Run {
        seen: None,
        acknowledge: &[],
        first: &[5],
        turns: 3,
        calls: "|.",
        received: &[5],
        ended: Ended::Upstream,
        up: None,
        downs: &[],
    },
    Run {
        seen: Some(&SEEN),
        acknowledge: &[true],
        first: &[],
        turns: 10,
        calls: "|fkaos|fkaos|fkaos|fasc.ue",
        received: &[7, 7, 8],
        ended: Ended::Upstream,
        up: Some((&[7, 7, 8], true)),
        downs: &[(&[7, 7, 8], 3)],
    },
    Run {
        seen: Some(&SEEN),
        acknowledge: &[true],
        first: &[],
        turns: 3,
        calls: "|fkaos|fkaos|fkaosc.ue",
        received: &[7, 7, 8],
        ended: Ended::Turns,
        up: Some((&[7, 7, 8], false)),
        downs: &[(&[7, 7, 8], 2)],
    },
    Run {
        seen: Some(&SEEN),
        acknowledge: &[true, false],
        first: &[],
        turns: 10,
        calls: "|fkaosAOS|fkaosAS|fkaosAS|fasAS|asAS|asAS|asAS|asAS|asAS|asAScC.ueE",
        received: &[7, 7, 8],
        ended: Ended::Turns,
        up: Some((&[7, 7, 8], true)),
        downs: &[(&[7, 7, 8], 3), (&[7], 0)],
    },
    Run {
        seen: Some(&SEEN),
        acknowledge: &[true, false],
        first: &[50, 51],
        turns: 10,
        calls: "|fkaosAOS|fkaosAS|fkaosAS|faosAS|aosAS|asAS|asAS|asAS|asAS|asAScC.ueE",
        received: &[50, 51, 7, 7, 8],
        ended: Ended::Turns,
        up: Some((&[7, 7, 8], true)),
        downs: &[(&[50, 51, 7, 7, 8], 5), (&[50], 0)],
    },
    Run {
        seen: Some(&SEEN),
        acknowledge: &[true],
        first: &[50, 51],
        turns: 10,
        calls: "|fkaos|fkaos|fkaos|faos|aos|asc.ue",
        received: &[50, 51, 7, 7, 8],
        ended: Ended::Upstream,
        up: Some((&[7, 7, 8], true)),
        downs: &[(&[50, 51, 7, 7, 8], 5)],
    },
    Run {
        seen: Some(&SEEN),
        acknowledge: &[true],
        first: &[50, 51],
        turns: 1,
        calls: "|fkaosc.ue",
        received: &[50, 51, 7],
        ended: Ended::Turns,
        up: Some((&[7], false)),
        downs: &[(&[50], 0)],
    },
];

/// The calls of a worker, compared with those that it has to make. As a gate it refuses a turn
/// where that is the call to refuse, and so do its ends with memory.
#[derive(Drop)]
struct Calls {
    /// The calls of a run of which none is refused.
    wanted: &'static str,
    /// The number of the call to refuse, from 1; 0 is no call.
    refused: usize,
    made: Cell<usize>,
    turns: Cell<u32>,
    /// The number of the first call that was another one than wanted; 0 where there is none.
    wrong: Cell<usize>,
}

impl Calls {
    /// The call that has to come next; after one that was refused, that is `done` alone.
    fn next(&self) -> Option<u8> {
        let made = self.made.get();
        if self.refused == 0 || made < self.refused {
            self.wanted.as_bytes().get(made).copied()
        } else if made == self.refused {
            Some(b'.')
        } else {
            None
        }
    }

    /// Whether every call that had to be made was made, and no other.
    fn are_right(&self) -> bool {
        self.wrong.get() == 0 && self.next().is_none()
    }

    /// Notes a call, and answers whether it is granted.
    fn grants(&self, call: u8) -> bool {
        let is_right = self.next() == Some(call);
        let number = self.made.get().saturating_add(1);
        self.made.set(number);
        if !is_right && self.wrong.get() == 0 {
            self.wrong.set(number);
        }
        number != self.refused
    }

    /// Notes a call of an end, and refuses it memory where it is the one to refuse.
    fn note(&self, call: u8) -> Result<(), AllocError> {
        if self.grants(call) {
            Ok(())
        } else {
            Err(AllocError)
        }
    }
}

impl Gate for Calls {
    ghost may_refuse = { λ gate node turn. ⊤ };

    ghost has_passed = { λ gate node turn. ⊤ };

    ghost is_done = { λ gate node. ⊤ };

    fn pass(&self, node: u16, turn: u32) -> bool {
        self.turns.set(self.turns.get().saturating_add(1));
        let is_next = node == NODE && turn == self.turns.get();
        self.grants(if is_next { b'|' } else { b'?' })
    }

    fn done(&self, node: u16) {
        self.grants(if node == NODE { b'.' } else { b'?' });
    }
}

/// A lower end without a link of which each call is noted.
#[derive(Drop)]
struct NotedSend<'a> {
    calls: &'a Calls,
    /// The letters of its calls `offer`, `send`, `poll_ack`, `close` and `finish`.
    letters: [u8; 5],
    end: PlainSend,
}

impl<'a> SendSide for NotedSend<'a> {
    type Pass = ();

    type Done = SendAccount;

    ghost Link = { Unit {0} };

    ghost link = { λ noted. tt };

    ghost sent = { λ noted. ⟦<PlainSend as SendSide>⟧.sent noted.end };

    ghost may_refuse_offer = { λ link. ⊥ };

    ghost done_link = { λ done. tt };

    ghost done_sent = { λ done. ⟦<PlainSend as SendSide>⟧.done_sent done };

    fn offer(&mut self, pass: &(), item: Item) -> Result<bool, AllocError> {
        self.calls.note(self.letters[0])?;
        self.end.offer(pass, item)
    }

    fn send(&mut self, pass: &()) -> Result<Effect, AllocError> {
        self.calls.note(self.letters[1])?;
        self.end.send(pass)
    }

    fn poll_ack(&mut self, pass: &()) -> Result<Effect, AllocError> {
        self.calls.note(self.letters[2])?;
        self.end.poll_ack(pass)
    }

    fn close(&mut self, pass: &()) -> Result<Effect, AllocError> {
        self.calls.note(self.letters[3])?;
        self.end.close(pass)
    }

    fn account(&self) -> &SendAccount {
        self.end.account()
    }

    fn finish(self) -> SendAccount {
        let _noted = self.calls.note(self.letters[4]);
        self.end.finish()
    }

    fn done_account(done: &SendAccount) -> &SendAccount
        ensures { result.now ≡ done.now }
    {
        done
    }
}

/// An upper end without a link of which each call is noted.
#[derive(Drop)]
struct NotedRecv<'a> {
    calls: &'a Calls,
    end: PlainRecv,
}

impl<'a> RecvSide for NotedRecv<'a> {
    type Pass = ();

    type Done = RecvAccount;

    ghost Link = { Unit {0} };

    ghost link = { λ noted. tt };

    ghost received = { λ noted. ⟦<PlainRecv as RecvSide>⟧.received noted.end };

    ghost done_link = { λ done. tt };

    ghost done_received = { λ done. ⟦<PlainRecv as RecvSide>⟧.done_received done };

    fn poll_frame(&mut self, pass: &()) -> Result<FrameSeen, AllocError> {
        self.calls.note(b'f')?;
        self.end.poll_frame(pass)
    }

    fn send_ack(&mut self, pass: &()) -> Result<Effect, AllocError> {
        self.calls.note(b'k')?;
        self.end.send_ack(pass)
    }

    fn account(&self) -> &RecvAccount {
        self.end.account()
    }

    fn finish(self) -> RecvAccount {
        let _noted = self.calls.note(b'u');
        self.end.finish()
    }

    fn done_account(done: &RecvAccount) -> &RecvAccount
        ensures { result.now ≡ done.now }
    {
        done
    }
}

/// The upper end of a run.
fn upper<'a>(
    rt: &impl Abort,
    alloc: Global,
    calls: &'a Calls,
    entries: &[FrameSeen],
) -> NotedRecv<'a> {
    let mut seen = VecDeque::with_capacity(alloc, entries.len()).expect(rt, "memory");
    for entry in entries {
        seen.push_back(*entry).expect(rt, "memory");
    }
    let end = PlainRecv::new(alloc, seen);
    NotedRecv { calls, end }
}

/// The letters of the first lower end and of the second.
const LETTERS: [[u8; 5]; 2] = [*b"osace", *b"OSACE"];

/// The lower ends of a run.
fn lower<'a>(
    rt: &impl Abort,
    alloc: Global,
    calls: &'a Calls,
    acknowledge: &[bool],
) -> Vec<NotedSend<'a>> {
    let mut downs = Vec::with_capacity(alloc, acknowledge.len()).expect(rt, "memory");
    for (letters, acknowledges) in LETTERS.iter().zip(acknowledge) {
        let (letters, end) = (*letters, PlainSend::new(alloc, *acknowledges));
        let down = NotedSend {
            calls,
            letters,
            end,
        };
        downs.push(down).expect(rt, "memory");
    }
    downs
}

/// What a worker leaves.
type Account = NodeAccount<RecvAccount, SendAccount>;

/// Lets the worker of a run work.
fn work_of(rt: &impl Abort, alloc: Global, run: &Run, calls: &Calls) -> Result<Account, NodeFault> {
    assert!(rt; run.turns >= 1);
    let up = match run.seen {
        None => None,
        Some(entries) => Some(upper(rt, alloc, calls, entries)),
    };
    let downs = lower(rt, alloc, calls, run.acknowledge);
    work(&(), alloc, NODE, up, downs, run.first, run.turns, calls)
}

/// Whether an upper end delivered these items and saw the close or not, or there is none.
fn is_up(up: &Option<RecvAccount>, want: Option<(&[Item], bool)>) -> bool {
    match (up, want) {
        (Some(up), Some((items, closed))) => {
            up.delivered.as_slice() == items && up.closed == closed
        }
        (None, None) => true,
        _ => false,
    }
}

/// Whether the lower ends are closed, and offered these items with that many acknowledged.
fn are_downs(downs: &[SendAccount], want: &[(&[Item], u64)]) -> bool {
    for (down, (items, acked)) in downs.iter().zip(want) {
        if down.offered.as_slice() != *items || down.acked != *acked || !down.closed {
            return false;
        }
    }
    downs.len() == want.len()
}

/// Whether a worker left what its run says.
fn is_left(account: &Account, run: &Run) -> bool {
    account.received.as_slice() == run.received
        && account.ended == run.ended
        && is_up(&account.up, run.up)
        && are_downs(account.downs.as_slice(), run.downs)
}

/// Fails the test where a run of which this call is refused, or none where that is 0, makes other
/// calls than it has to, gives up for another reason, or leaves something else.
fn assert_run(rt: &impl Abort, alloc: Global, run: &Run, refused: usize, want: Option<NodeFault>) {
    let calls = Calls {
        wanted: run.calls,
        refused,
        made: Cell::new(0),
        turns: Cell::new(0),
        wrong: Cell::new(0),
    };
    let is_right = match work_of(rt, alloc, run, &calls) {
        Ok(account) => want.is_none() && is_left(&account, run),
        Err(fault) => want == Some(fault),
    };
    let (text, wrong) = (run.calls, calls.wrong.get());
    assert!(rt;
        is_right && calls.are_right(),
        "{text}, call {refused} refused: {is_right}, wrong from call {wrong}"
    );
}

/// Fails the test where a worker makes other calls than it has to or leaves something else, or
/// where, one call refused, each in turn, it goes on, or gives up for another reason than that
/// call. What the gate hears at the end cannot be refused.
fn assert_runs(rt: &impl Abort, alloc: Global, run: &Run) {
    assert_run(rt, alloc, run, 0, None);
    for (place, call) in run.calls.as_bytes().iter().enumerate() {
        let number = place.saturating_add(1);
        match *call {
            b'.' => return,
            b'|' => assert_run(rt, alloc, run, number, Some(NodeFault::Gate)),
            _ => assert_run(rt, alloc, run, number, Some(NodeFault::Memory)),
        }
    }
}

#[test]
fn a_worker_makes_its_calls_and_none_after_a_refused_one(rt: HostRuntime) {
    for run in &RUNS {
        assert_runs(&rt, rt.alloc(), run);
    }
}
