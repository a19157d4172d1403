//! The worked examples of a locked link. The ends of a locked link make their calls, as ends of
//! either kind, and so do the calls of a book.

use crate::asks::{Ask, Example, ask_and_finish, assert_settled, example_script, example_start};
use stab_acts::{HalfScript, InAct, OutAct};
use stab_core::{Effect, Event};
use stab_ends::{FrameSeen, RecvAccount, SendAccount};
use stab_frames::{Item, Params};
use stab_lock::{LinkBook, LockLink, SettleFault};
use stab_run::{AnyRecv, AnyRecvDone, AnySend, AnySendDone};
use std::alloc::Global;
use std::process::Abort;
use std::sync::Wait;

/// A round with 7, and the close.
static ROUND_AND_CLOSE: Example = Example {
    name: "a round and a close",
    frames: &[],
    acks: &[],
    labels: (0, 3),
    frames_out: &[],
    frames_in: &[],
    acks_out: &[],
    asks: &[
        Ask::Offer(7, true),
        Ask::Offer(8, false),
        Ask::Send(Effect::Sent),
        Ask::PollFrame(FrameSeen::Fresh(7)),
        Ask::PollFrame(FrameSeen::Nothing),
        Ask::SendAck(Effect::Sent),
        Ask::PollAck(Effect::Acked),
        Ask::PollAck(Effect::Nothing),
        Ask::Close(Effect::Closed),
        Ask::PollFrame(FrameSeen::Closed),
        Ask::SendAck(Effect::Nothing),
        Ask::PollAck(Effect::Nothing),
        Ask::Offer(8, false),
        Ask::Close(Effect::Nothing),
    ],
    offered: &[7],
    acked: 1,
    delivered: &[7],
    closed: true,
};

/// What the round and the close note.
static ROUND_AND_CLOSE_HISTORY: [Event; 6] = [
    Event::Offer(7),
    Event::SendFrame,
    Event::RecvFrame { keep: false },
    Event::SendAck,
    Event::RecvAck { keep: false },
    Event::Close,
];

/// Frames out under Drop, Pass and Evict, and then past the end; frames in under Keep, and then
/// past the end.
static SCRIPTED: Example = Example {
    name: "a script",
    frames: &[],
    acks: &[],
    labels: (0, 3),
    frames_out: &[OutAct::Drop, OutAct::Pass, OutAct::Evict],
    frames_in: &[InAct::Keep],
    acks_out: &[],
    asks: &[
        Ask::Offer(7, true),
        Ask::Send(Effect::Lost),
        Ask::Send(Effect::Sent),
        Ask::Send(Effect::Sent),
        Ask::Send(Effect::Lost),
        Ask::PollFrame(FrameSeen::Fresh(7)),
        Ask::PollFrame(FrameSeen::Old),
        Ask::PollFrame(FrameSeen::Nothing),
    ],
    offered: &[7],
    acked: 0,
    delivered: &[7],
    closed: false,
};

/// What the scripted calls note.
static SCRIPTED_HISTORY: [Event; 7] = [
    Event::Offer(7),
    Event::SendFrame,
    Event::LoseFrame(0),
    Event::SendFrame,
    Event::SendFrame,
    Event::RecvFrame { keep: true },
    Event::RecvFrame { keep: false },
];

/// The accounts of both ends of a link after these calls.
fn accounts<R: Wait + Abort>(rt: &R, link: &LockLink, asks: &[Ask]) -> (SendAccount, RecvAccount) {
    let (send, recv) = link.split::<R>();
    let (send, recv) = (AnySend::Lock(send), AnyRecv::Lock(recv));
    let (sent, received) = ask_and_finish(rt, rt, send, recv, asks);
    match (sent, received) {
        (AnySendDone::Lock(sent), AnyRecvDone::Lock(received)) => (sent, received),
        _ => unreachable!(),
    }
}

/// The link of an example after its calls, and the accounts of both ends.
fn link_after<R: Wait + Abort>(
    rt: &R,
    alloc: Global,
    example: &Example,
) -> (LockLink, SendAccount, RecvAccount) {
    let params = Params::new(1, 4).expect(rt, "parameters");
    let start = example_start(rt, alloc, example);
    let script = example_script(rt, alloc, example);
    let link = LockLink::new(alloc, params, start, script).expect(rt, "a link");
    let (sent, received) = accounts(rt, &link, example.asks);
    (link, sent, received)
}

/// Makes a call of a book, and compares the answer.
fn ask_half<R: Abort>(
    rt: &R,
    book: &mut LinkBook,
    sender: &mut HalfScript,
    receiver: &mut HalfScript,
    ask: Ask,
) {
    let is_answered = match ask {
        Ask::Offer(item, taken) => book.offer(item).expect(rt, "memory") == taken,
        Ask::Send(effect) => book.send(sender).expect(rt, "memory") == effect,
        Ask::PollAck(effect) => book.poll_ack(sender).expect(rt, "memory") == effect,
        Ask::Close(effect) => book.close().expect(rt, "memory") == effect,
        Ask::PollFrame(seen) => book.poll_frame(receiver).expect(rt, "memory") == seen,
        Ask::SendAck(effect) => book.send_ack(receiver).expect(rt, "memory") == effect,
    };
    assert!(rt; is_answered, "{ask:?}");
}

/// The book of an example after these calls of its own, each end's with its own half of the script,
/// whose answers are compared.
fn book_after<R: Abort>(rt: &R, alloc: Global, example: &Example, asks: &[Ask]) -> LinkBook {
    let params = Params::new(1, 4).expect(rt, "parameters");
    let start = example_start(rt, alloc, example);
    let mut book = LinkBook::new(alloc, params, start).expect(rt, "a book");
    let (mut sender, mut receiver) = example_script(rt, alloc, example).split();
    for ask in asks {
        ask_half(rt, &mut book, &mut sender, &mut receiver, *ask);
    }
    book
}

/// Fails the test where the book has another history.
fn assert_history<R: Abort>(rt: &R, book: &LinkBook, events: &[Event]) {
    assert!(rt; book.history_len() == events.len() as u64, "the length");
    for (place, event) in events.iter().enumerate() {
        assert!(rt;
            book.event_at(place as u64) == Some(*event),
            "event {place}"
        );
    }
    assert!(rt;
        book.event_at(events.len() as u64).is_none(),
        "past the end"
    );
}

/// Fails the test where a locked link or a book answers another one of an example's calls
/// otherwise, or leaves another history, or the link other accounts.
fn assert_example<R: Wait + Abort>(rt: &R, alloc: Global, example: &Example, history: &[Event]) {
    let (link, sent, received) = link_after(rt, alloc, example);
    let settled = link
        .settle(sent, received)
        .expect(rt, "accounts that agree");
    assert_settled(rt, &settled, example);
    let (link, _, _) = link_after(rt, alloc, example);
    assert_history(rt, &link.into_book(), history);
    assert_history(rt, &book_after(rt, alloc, example, example.asks), history);
}

#[test]
fn examples_over_a_lock(rt: HostRuntime) {
    assert_example(&rt, rt.alloc(), &ROUND_AND_CLOSE, &ROUND_AND_CLOSE_HISTORY);
    assert_example(&rt, rt.alloc(), &SCRIPTED, &SCRIPTED_HISTORY);
}

/// Events, the effect of each, how often it is noted, and the length of the history after it.
type Notes = &'static [(Event, Effect, u32, u64)];

/// Notes, and the event at some places of the history after them. Of two offers the second is not
/// taken; a thousand events are equal.
static NOTES: [(Notes, &[(u64, Option<Event>)]); 2] = [
    (
        &[
            (Event::Offer(7), Effect::Held, 1, 1),
            (Event::Offer(8), Effect::Nothing, 1, 2),
        ],
        &[
            (0, Some(Event::Offer(7))),
            (1, Some(Event::Offer(8))),
            (2, None),
        ],
    ),
    (
        &[
            (Event::SendAck, Effect::Sent, 1, 1),
            (Event::SendAck, Effect::Lost, 999, 1000),
            (Event::Offer(7), Effect::Held, 1, 1001),
        ],
        &[
            (999, Some(Event::SendAck)),
            (1000, Some(Event::Offer(7))),
            (1001, None),
        ],
    ),
];

/// Notes an event `times` times, and compares the effect of each and the length of the history
/// after them.
fn note_repeated<R: Abort>(
    rt: &R,
    book: &mut LinkBook,
    event: Event,
    effect: Effect,
    times: u32,
    len: u64,
) {
    for _ in 0..times {
        let given = book.note(event).expect(rt, "memory");
        assert!(rt; given == effect, "{event:?}");
    }
    assert!(rt; book.history_len() == len, "{event:?}");
}

/// Fails the test where a book with these notes has another event at one of the places, or not the
/// item 7 alone.
fn assert_noted<R: Abort>(rt: &R, alloc: Global, notes: Notes, places: &[(u64, Option<Event>)]) {
    let mut book = book_after(rt, alloc, &ROUND_AND_CLOSE, &[]);
    for (event, effect, times, len) in notes {
        note_repeated(rt, &mut book, *event, *effect, *times, *len);
    }
    for (place, event) in places {
        assert!(rt; book.event_at(*place) == *event, "event {place}");
    }
    assert!(rt; book.link().offered() == [7].as_slice());
}

#[test]
fn a_book_keeps_what_is_noted(rt: HostRuntime) {
    for (notes, places) in &NOTES {
        assert_noted(&rt, rt.alloc(), notes, places);
    }
}

/// Accounts of a closed receiver and its sender: the offered items, how many are acknowledged, the
/// delivered items, and whether the sender closed the link.
type Accounts = (&'static [Item], u64, &'static [Item], bool);

/// Accounts, beside the first thing in which they differ from those of the round with 7 and its
/// close.
static DIFFERENCES: [(Accounts, Option<SettleFault>); 6] = [
    ((&[7], 1, &[7], true), None),
    ((&[], 1, &[7], true), Some(SettleFault::OfferedDiffer)),
    ((&[7], 0, &[7], true), Some(SettleFault::AckedDiffer)),
    ((&[7], 1, &[], true), Some(SettleFault::DeliveredDiffer)),
    ((&[7], 1, &[7], false), Some(SettleFault::ClosedDiffer)),
    ((&[], 0, &[], false), Some(SettleFault::OfferedDiffer)),
];

/// The accounts themselves.
fn accounts_of<R: Abort>(rt: &R, alloc: Global, of: Accounts) -> (SendAccount, RecvAccount) {
    let (offered, acked, delivered, closed) = of;
    let send = SendAccount {
        offered: Vec::from_slice(alloc, offered).expect(rt, "memory"),
        acked,
        closed,
    };
    let recv = RecvAccount {
        delivered: Vec::from_slice(alloc, delivered).expect(rt, "memory"),
        closed: true,
    };
    (send, recv)
}

/// Fails the test where a book or a locked link after the round and the close says something else
/// of these accounts, or the link hands back another book.
fn assert_compared<R: Wait + Abort>(
    rt: &R,
    alloc: Global,
    of: Accounts,
    answer: Option<SettleFault>,
) {
    let (send, recv) = accounts_of(rt, alloc, of);
    let book = book_after(rt, alloc, &ROUND_AND_CLOSE, ROUND_AND_CLOSE.asks);
    assert!(rt; book.check(&send, &recv).err() == answer, "{answer:?}");
    let (link, _, _) = link_after(rt, alloc, &ROUND_AND_CLOSE);
    match link.settle(send, recv) {
        Ok(_) => assert!(rt; answer.is_none(), "settled"),
        Err(unsettled) => {
            assert!(rt; Some(unsettled.why) == answer, "{answer:?}");
            assert_history(rt, &unsettled.book, &ROUND_AND_CLOSE_HISTORY);
        }
    }
}

#[test]
fn accounts_that_differ(rt: HostRuntime) {
    for (of, answer) in &DIFFERENCES {
        assert_compared(&rt, rt.alloc(), *of, *answer);
    }
}
