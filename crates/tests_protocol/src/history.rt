//! A history beside the plain list that it stands for: whatever happens is pushed to both, and they
//! are compared place by place.

use stab_core::Event;
use stab_lock::History;
use std::alloc::{AllocError, Global};

/// One of each kind, with the largest item and the largest place.
const ONE_OF_EACH: [(Event, u32); 10] = [
    (Event::Offer(4_294_967_295), 1),
    (Event::SendFrame, 1),
    (Event::RecvFrame { keep: false }, 1),
    (Event::RecvFrame { keep: true }, 1),
    (Event::SendAck, 1),
    (Event::RecvAck { keep: false }, 1),
    (Event::RecvAck { keep: true }, 1),
    (Event::LoseFrame(65_535), 1),
    (Event::LoseAck(256), 1),
    (Event::Close, 1),
];

/// Runs on both sides of the borders at which a count or an item takes more bytes; two neighbours
/// differ in their items alone.
const COUNT_BORDERS: [(Event, u32); 12] = [
    (Event::Close, 11),
    (Event::Offer(3), 11),
    (Event::Close, 12),
    (Event::Offer(4), 12),
    (Event::Offer(65_535), 255),
    (Event::Offer(65_536), 256),
    (Event::Offer(7), 65_535),
    (Event::Offer(4_294_967_295), 65_536),
    (Event::SendAck, 65_537),
    (Event::Close, 1),
    (Event::SendAck, 131_073),
    (Event::SendFrame, 2),
];

/// Runs that are given in parts: neighbours with one event are one run.
const IN_PARTS: [(Event, u32); 5] = [
    (Event::SendAck, 2),
    (Event::SendAck, 3),
    (Event::LoseAck(0), 1),
    (Event::LoseAck(0), 1),
    (Event::SendAck, 1),
];

/// Runs, and how often they come one after the other: with ten runs in each of 100 rounds, their
/// codes fill many blocks.
static PUSHED: [(&[(Event, u32)], u32); 5] = [
    (&[], 1),
    (&ONE_OF_EACH, 1),
    (&ONE_OF_EACH, 100),
    (&COUNT_BORDERS, 1),
    (&IN_PARTS, 1),
];

/// Adds an event to both.
fn push(history: &mut History, plain: &mut Vec<Event>, event: Event) -> Result<(), AllocError> {
    plain.push(event)?;
    history.reserve_for(event)?;
    history.push_reserved(event);
    Ok(())
}

/// Adds runs to both.
fn push_runs(
    history: &mut History,
    plain: &mut Vec<Event>,
    runs: &[(Event, u32)],
) -> Result<(), AllocError> {
    for (event, count) in runs {
        for _ in 0..*count {
            push(history, plain, *event)?;
        }
    }
    Ok(())
}

/// Whether both have the same events, and nothing just past the end or far past it.
fn is_same(history: &History, plain: &[Event]) -> bool {
    for place in 0..plain.len() {
        if history.get(place as u64) != Some(plain[place]) {
            return false;
        }
    }
    let len = plain.len() as u64;
    history.len() == len && history.get(len).is_none() && history.get(u64::MAX).is_none()
}

/// Whether both are the same after these runs, which come so often one after the other.
fn stays_same(alloc: Global, runs: &[(Event, u32)], rounds: u32) -> Result<bool, AllocError> {
    let mut history = History::new(alloc);
    let mut plain = Vec::new(alloc);
    for _ in 0..rounds {
        push_runs(&mut history, &mut plain, runs)?;
    }
    Ok(is_same(&history, plain.as_slice()))
}

#[test]
fn keeps_what_is_pushed(rt: HostRuntime) {
    for (runs, rounds) in &PUSHED {
        let same = stays_same(rt.alloc(), *runs, *rounds).expect(&rt, "memory");
        assert!(rt; same, "{rounds} rounds of {} runs", runs.len());
    }
}

#[test]
fn keeps_two_events_in_room_for_two(rt: HostRuntime) {
    let mut history = History::new(rt.alloc());
    history.reserve(2).expect(&rt, "memory");
    history.push_reserved(Event::LoseFrame(0));
    history.push_reserved(Event::SendFrame);
    assert!(rt; is_same(&history, &[Event::LoseFrame(0), Event::SendFrame]));
}
