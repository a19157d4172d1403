//! One link, where no command line shows it: what a refusal leaves, and a receiver by itself.

use crate::chain::{narrow, start};
use stab_core::{Event, Link, Receiver, Start, StartFault, link_text, run_link, trace};
use stab_frames::{Frame, Label, Sequence};
use std::alloc::Global;
use std::process::Abort;

/// Two undisturbed rounds.
static TWO_ROUNDS: [Event; 10] = [
    Event::Offer(7),
    Event::SendFrame,
    Event::RecvFrame { keep: false },
    Event::SendAck,
    Event::RecvAck { keep: false },
    Event::Offer(8),
    Event::SendFrame,
    Event::RecvFrame { keep: false },
    Event::SendAck,
    Event::RecvAck { keep: false },
];

/// What a link is after them, as in the example `two_clean_rounds`.
const AFTER_TWO_ROUNDS: &str = "\
delivered: 7 8
offered: 7 8
acked: 2
send label: 2
recv label: 1
frames:
acks:
closed: no
";

const TWO_FRAMES: [Frame; 2] = [Frame { label: 0, item: 1 }, Frame { label: 1, item: 2 }];

/// The frames and acknowledgements of starts that hold more than the capacity 1, each beside the
/// fault of its refusal.
static OVERFULL: [(&[Frame], &[Label], StartFault); 3] = [
    (&TWO_FRAMES, &[], StartFault::TooManyFrames),
    (&TWO_FRAMES, &[0, 1], StartFault::TooManyFrames),
    (&[], &[0, 1], StartFault::TooManyAcks),
];

/// The link after two rounds, which is idle.
fn idle_link(rt: &(impl Abort + Alloc<A = Global>)) -> Link {
    let start = Start {
        frames: Sequence::new(rt.alloc()),
        acks: Sequence::new(rt.alloc()),
        send_label: 0,
        recv_label: 3,
    };
    run_link(rt.alloc(), narrow(rt)[0], &start, &TWO_ROUNDS).expect(rt, "a link")
}

#[test]
fn an_overfull_start_changes_nothing(rt: HostRuntime) {
    let params = narrow(&rt)[0];
    let mut link = idle_link(&rt);
    for (frames, acks, want) in &OVERFULL {
        let start = start(&rt, *frames, *acks);
        let fault = link.strike(&start);
        assert!(rt; fault == Err(*want), "{fault:?}");
        assert!(rt; trace(rt.alloc(), params, &start, &[]).err() == Some(*want));
    }
    assert!(rt; link.is_idle());
    let text = link_text(rt.alloc(), &link).expect(&rt, "a text");
    assert!(rt; text.as_str() == AFTER_TWO_ROUNDS);
}

#[test]
fn a_receiver_delivers_a_frame_once(rt: HostRuntime) {
    let frame = Frame { label: 3, item: 7 };
    let mut receiver = Receiver::new(2);
    assert!(rt; receiver.on_frame(frame) == Some(7));
    assert!(rt; receiver.on_frame(frame).is_none());
}
