//! Rounds: how many a list of events has, and what they bring to a link and to a chain by calls
//! that no program makes. The values are worked out by hand, and by `tests/check_laws.py`, which
//! has rules of its own.

ghost use Rattle.std.specs.Prelude.{◌≡◌};

use crate::chain::{After, STRAY, chain, is_as, narrow, start, worst_starts};
use stab_core::{Event, Link, link_text};
use stab_frames::Params;
use stab_rounds::{
    apply_reading_round, count_rounds, pass_on, reading_round_of_all, run_reading_rounds,
    run_rounds,
};
use std::alloc::Global;
use std::process::Abort;

const TAKE_FRAME: Event = Event::RecvFrame { keep: false };

const TAKE_ACK: Event = Event::RecvAck { keep: false };

const KEEP_FRAME: Event = Event::RecvFrame { keep: true };

/// The rounds of some events, and why.
struct Counted {
    events: &'static [Event],
    rounds: u64,
    why: &'static str,
}

static COUNTED: [Counted; 6] = [
    Counted {
        events: &[],
        rounds: 0,
        why: "nothing happens",
    },
    Counted {
        events: &[
            Event::Offer(7),
            Event::SendFrame,
            TAKE_FRAME,
            Event::SendAck,
            TAKE_ACK,
        ],
        rounds: 1,
        why: "the five in order",
    },
    Counted {
        events: &[
            Event::Offer(7),
            Event::SendFrame,
            Event::LoseFrame(0),
            TAKE_FRAME,
            Event::SendAck,
            TAKE_ACK,
        ],
        rounds: 0,
        why: "its frame is lost",
    },
    Counted {
        events: &[
            Event::Offer(7),
            Event::LoseAck(0),
            Event::SendFrame,
            Event::LoseAck(0),
            TAKE_FRAME,
            Event::SendAck,
            Event::LoseFrame(0),
            Event::SendFrame,
            TAKE_ACK,
        ],
        rounds: 1,
        why: "losses of the other half do not count",
    },
    Counted {
        events: &[
            Event::Offer(7),
            Event::SendFrame,
            KEEP_FRAME,
            Event::SendAck,
            TAKE_ACK,
        ],
        rounds: 0,
        why: "a frame that stays was not taken",
    },
    Counted {
        events: &[
            TAKE_ACK,
            Event::Offer(7),
            Event::SendFrame,
            TAKE_FRAME,
            Event::SendAck,
            Event::LoseAck(0),
            Event::SendAck,
            TAKE_ACK,
            Event::Offer(8),
            Event::SendFrame,
            TAKE_FRAME,
            Event::SendAck,
            TAKE_ACK,
        ],
        rounds: 2,
        why: "two, the first of which sends its acknowledgement anew",
    },
];

#[test]
fn counts_rounds(rt: HostRuntime) {
    for row in &COUNTED {
        assert!(&rt; count_rounds(row.events) == row.rounds, "{}", row.why);
    }
}

/// The link of capacity 1 at its worst start.
fn at_its_worst_start(rt: &(impl Abort + Alloc<A = Global>), params: Params) -> Link
    ensures { result.params ≡ params }
{
    let start = start(rt, &[STRAY], &[0]);
    Link::new(rt.alloc(), params, &start).expect(rt, "a link")
}

/// Sees that this is the text of a link.
fn assert_is(rt: &(impl Abort + Alloc<A = Global>), link: &Link, text: &str) {
    let its_text = link_text(rt.alloc(), link).expect(rt, "memory");
    assert!(rt; its_text.as_str() == text, "{its_text}");
}

/// What three rounds with the item 10 make of the link of capacity 1 at its worst start.
const PASSED_ON: &str = "\
delivered: 99 10 10
offered: 10 10 10
acked: 3
send label: 3
recv label: 2
frames:
acks:
closed: no
";

#[test]
fn three_rounds_pass_an_item_on(rt: HostRuntime) {
    let params = narrow(&rt)[0];
    let mut link = at_its_worst_start(&rt, params);
    pass_on(&mut link, params, 10).expect(&rt, "memory");
    assert_is(&rt, &link, PASSED_ON);
}

/// What one reading round makes of it.
const READ: &str = "\
delivered: 99 10
offered: 10
acked: 1
send label: 1
recv label: 0
frames:
acks:
closed: no
";

#[test]
fn one_reading_round_passes_an_item_on(rt: HostRuntime) {
    let params = narrow(&rt)[0];
    let mut link = at_its_worst_start(&rt, params);
    apply_reading_round(&mut link, params, 10).expect(&rt, "memory");
    assert_is(&rt, &link, READ);
}

/// By `tests/check_laws.py`. Sixteen rounds are said to be enough: 3 * (3 + 1 + 1) + 1.
static AFTER: [After; 3] = [
    After {
        rounds: 1,
        a: &[99],
        a_acked: 1,
        b: &[98],
        b_acked: 1,
    },
    After {
        rounds: 4,
        a: &[99, 11, 12],
        a_acked: 3,
        b: &[98, 11, 12],
        b_acked: 3,
    },
    After {
        rounds: 16,
        a: &[99, 11, 12],
        a_acked: 3,
        b: &[98, 11, 12],
        b_acked: 3,
    },
];

#[test]
fn rounds_bring_everything_down_a_chain(rt: HostRuntime) {
    let opened = chain(&rt);
    let starts = worst_starts(&rt);
    for row in &AFTER {
        let state = run_rounds(
            rt.alloc(),
            &narrow(&rt),
            &opened.tree,
            &[10, 11, 12],
            &starts,
            &opened.openings,
            row.rounds,
        )
        .expect(&rt, "a state");
        assert!(rt; is_as(&state, row), "after {} rounds", row.rounds);
    }
}

/// By `tests/check_laws.py`. Six reading rounds are said to be enough: 3 + 1 + 1 + 1.
static AFTER_READING: [After; 3] = [
    After {
        rounds: 1,
        a: &[99, 10],
        a_acked: 1,
        b: &[98, 99],
        b_acked: 1,
    },
    After {
        rounds: 2,
        a: &[99, 10, 11],
        a_acked: 2,
        b: &[98, 99, 10],
        b_acked: 2,
    },
    After {
        rounds: 6,
        a: &[99, 10, 11, 12],
        a_acked: 3,
        b: &[98, 99, 10, 11, 12],
        b_acked: 4,
    },
];

#[test]
fn reading_rounds_bring_everything_down_a_chain(rt: HostRuntime) {
    let opened = chain(&rt);
    let starts = worst_starts(&rt);
    for row in &AFTER_READING {
        let state = run_reading_rounds(
            rt.alloc(),
            &narrow(&rt),
            &opened.tree,
            &[10, 11, 12],
            &starts,
            &opened.openings,
            1,
            row.rounds,
        )
        .expect(&rt, "a state");
        assert!(rt; is_as(&state, row), "after {} reading rounds", row.rounds);
    }
    let round = reading_round_of_all(rt.alloc(), &opened.tree, 1).expect(&rt, "memory");
    assert!(rt;
        round.len() == 14,
        "five events and two more for each of two links"
    );
}
