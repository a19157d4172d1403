//! The queue of frames beside a list whose entries all move when the front is taken, which is
//! slower and plainer; and lists that grow.

use stab_frames::{FrameQueue, Sequence};
use std::process::Abort;

/// A call that changes a queue. A put adds the number of its step.
#[derive(Clone, Copy)]
enum Call {
    Put,
    Take,
    Lose(u16),
}

const CALLS: [Call; 5] = [
    Call::Put,
    Call::Take,
    Call::Lose(0),
    Call::Lose(1),
    Call::Lose(2),
];

/// How many calls a sequence has: enough for a ring of three to go round and then lose an entry.
const STEPS: u32 = 6;

/// Whether a queue answers a call as the list does, which has so many places.
fn answers_alike(
    rt: &impl Abort,
    ring: &mut FrameQueue<u32>,
    plain: &mut Vec<u32>,
    places: u16,
    call: Call,
    step: u32,
) -> bool {
    match call {
        Call::Put => {
            let room = plain.len() < usize::from(places);
            if room {
                plain.push(step).expect(rt, "memory");
            }
            ring.put(step) == room
        }
        Call::Take => {
            let front = plain.first().copied();
            if front.is_some() {
                plain.remove(0);
            }
            ring.take() == front
        }
        Call::Lose(place) => {
            let place_in_list = usize::from(place);
            let found = place_in_list < plain.len();
            if found {
                plain.remove(place_in_list);
            }
            ring.lose(place) == found
        }
    }
}

/// Whether both have the same entries, up to a place after their last.
fn look_alike(ring: &FrameQueue<u32>, plain: &[u32], places: u16) -> bool {
    for place in 0..=ring.len() {
        if ring.get(place) != plain.get(usize::from(place)).copied() {
            return false;
        }
    }
    usize::from(ring.len()) == plain.len()
        && ring.is_empty() == plain.is_empty()
        && ring.is_full() == (plain.len() == usize::from(places))
        && ring.front() == plain.first().copied()
}

/// Whether both go alike through the calls that the digits of a number name.
fn go_alike(
    rt: &impl Abort,
    ring: &mut FrameQueue<u32>,
    plain: &mut Vec<u32>,
    places: u16,
    number: usize,
) -> bool {
    let mut digits = number;
    for step in 0..STEPS {
        let call = CALLS[digits % CALLS.len()];
        digits /= CALLS.len();
        if !look_alike(ring, plain, places) || !answers_alike(rt, ring, plain, places, call, step) {
            return false;
        }
    }
    look_alike(ring, plain, places)
}

#[test]
fn every_sequence_of_calls_is_answered_as_by_the_list(rt: HostRuntime) {
    for places in 1..=3 {
        for number in 0..CALLS.len().pow(STEPS) {
            let mut ring = FrameQueue::new(rt.alloc(), places).expect(&rt, "a queue");
            let mut plain = Vec::new(rt.alloc());
            let alike = go_alike(&rt, &mut ring, &mut plain, places, number);
            assert!(rt; alike, "{places} places, sequence {number}");
        }
    }
}

#[test]
fn a_sequence_grows_at_its_end(rt: HostRuntime) {
    let mut items: Sequence<u32> = Sequence::with_capacity(rt.alloc(), 1).expect(&rt, "room");
    assert!(rt; items.is_empty() && Sequence::<u32>::new(rt.alloc()).as_slice().is_empty());
    items.push(7).expect(&rt, "memory");
    items.push(8).expect(&rt, "memory");
    assert!(rt; items.len() == 2 && items.as_slice() == [7, 8].as_slice());
    let again = Sequence::from_vec(items.into_vec());
    assert!(rt; again.as_slice() == [7, 8].as_slice());
}
