//! The worked examples of a link of two words, whose ends make their calls as ends of either kind.

ghost use Rattle.std.specs.Prelude.{◌≡◌};

use crate::asks::{
    Ask, Example, ask_all, ask_and_finish, ask_one, assert_settled, example_script, example_start,
    start_of,
};
use stab_acts::{OutAct, Script};
use stab_core::{Effect, Start, StartFault};
use stab_ends::{FrameSeen, RecvSide, Settled};
use stab_frames::{Frame, Item, Label, Params};
use stab_run::{AnyRecv, AnyRecvDone, AnySend, AnySendDone};
use stab_word::{WordFault, WordLink, WordOpening, WordRecv, WordSend};
use std::alloc::Global;
use std::process::Abort;
use std::sync::Wait;

/// The examples.
static EXAMPLES: [Example; 3] = [
    Example {
        name: "three items are acknowledged before the receiver has taken one",
        frames: &[STRAY],
        acks: &[0],
        labels: (0, 1),
        frames_out: &[],
        frames_in: &[],
        acks_out: &[],
        asks: &[
            Ask::Offer(10, true),
            Ask::PollAck(Effect::Acked),
            Ask::SendAck(Effect::Sent),
            Ask::Offer(11, true),
            Ask::PollAck(Effect::Acked),
            Ask::PollFrame(FrameSeen::Fresh(99)),
            Ask::SendAck(Effect::Sent),
            Ask::Offer(12, true),
            Ask::PollAck(Effect::Acked),
            Ask::Offer(13, true),
            Ask::Send(Effect::Sent),
            Ask::PollFrame(FrameSeen::Fresh(13)),
        ],
        offered: &[10, 11, 12, 13],
        acked: 3,
        delivered: &[99, 13],
        closed: false,
    },
    Example {
        name: "a round with 7, and the close",
        frames: &[],
        acks: &[],
        labels: (0, 3),
        frames_out: &[],
        frames_in: &[],
        acks_out: &[],
        asks: &[
            Ask::Offer(7, true),
            Ask::Send(Effect::Sent),
            Ask::PollFrame(FrameSeen::Fresh(7)),
            Ask::PollFrame(FrameSeen::Old),
            Ask::SendAck(Effect::Sent),
            Ask::PollAck(Effect::Acked),
            Ask::PollAck(Effect::Ignored),
            Ask::Close(Effect::Closed),
            Ask::PollFrame(FrameSeen::Closed),
            Ask::SendAck(Effect::Nothing),
            Ask::PollAck(Effect::Nothing),
            Ask::Offer(8, false),
            Ask::Close(Effect::Nothing),
        ],
        offered: &[7],
        acked: 1,
        delivered: &[7],
        closed: true,
    },
    Example {
        name: "frames out and acknowledgements out under Drop, and then under Evict",
        frames: &[],
        acks: &[],
        labels: (0, 3),
        frames_out: &[OutAct::Drop, OutAct::Evict],
        frames_in: &[],
        acks_out: &[OutAct::Drop, OutAct::Evict],
        asks: &[
            Ask::Offer(7, true),
            Ask::Send(Effect::Lost),
            Ask::PollFrame(FrameSeen::Nothing),
            Ask::Send(Effect::Sent),
            Ask::PollFrame(FrameSeen::Fresh(7)),
            Ask::SendAck(Effect::Lost),
            Ask::PollAck(Effect::Nothing),
            Ask::SendAck(Effect::Sent),
            Ask::PollAck(Effect::Acked),
            Ask::Send(Effect::Nothing),
        ],
        offered: &[7],
        acked: 1,
        delivered: &[7],
        closed: false,
    },
];

/// A frame of a start.
const STRAY: Frame = Frame { label: 2, item: 99 };

/// A link of capacity 1 with 4 labels at this start, beside its opening.
fn link_at<R: Abort>(rt: &R, alloc: Global, start: &Start) -> (WordLink, WordOpening)
    ensures { result.1 ≡ result.0 }
{
    let params = Params::new(1, 4).expect(rt, "parameters");
    WordLink::new(alloc, params, start).expect(rt, "a link")
}

/// The accounts of both ends of an example's link after its calls.
fn settled<R: Wait + Abort>(rt: &R, alloc: Global, example: &Example) -> Settled {
    let (link, opening) = link_at(rt, alloc, &example_start(rt, alloc, example));
    let script = example_script(rt, alloc, example);
    let (send, recv) = link.split(alloc, opening, script).expect(rt, "ends");
    let (send, recv) = (AnySend::<R>::Word(send), AnyRecv::<R>::Word(recv));
    let (sent, received) = ask_and_finish(rt, rt, send, recv, example.asks);
    match (sent, received) {
        (AnySendDone::Word(sent), AnyRecvDone::Word(received)) => link.settle(sent, received),
        _ => unreachable!(),
    }
}

#[test]
fn examples_over_two_words(rt: HostRuntime) {
    for example in &EXAMPLES {
        assert_settled(&rt, &settled(&rt, rt.alloc(), example), example);
    }
}

/// Why a link of this capacity with that many labels, with these frames and acknowledgements, is
/// refused, or `None` where it is made.
fn refusal<R: Abort>(
    rt: &R,
    alloc: Global,
    params: (u16, u16),
    frames: &[Frame],
    acks: &[Label],
) -> Option<WordFault> {
    let start = start_of(rt, alloc, frames, acks, (0, 3));
    let params = Params::new(params.0, params.1).expect(rt, "parameters");
    WordLink::new(alloc, params, &start).err()
}

/// The capacity and the labels of a link, the frames and acknowledgements of its start, and why it
/// is refused.
static REFUSALS: [((u16, u16), &[Frame], &[Label], Option<WordFault>); 6] = [
    ((2, 6), &[], &[], Some(WordFault::CapacityNotOne)),
    ((2, 6), &[STRAY; 5], &[], Some(WordFault::CapacityNotOne)),
    (
        (1, 4),
        &[STRAY; 2],
        &[],
        Some(WordFault::Start(StartFault::TooManyFrames)),
    ),
    (
        (1, 4),
        &[STRAY; 2],
        &[0; 2],
        Some(WordFault::Start(StartFault::TooManyFrames)),
    ),
    (
        (1, 4),
        &[],
        &[0; 2],
        Some(WordFault::Start(StartFault::TooManyAcks)),
    ),
    ((1, 4), &[STRAY], &[0], None),
];

/// The text of each refusal.
static FAULTS: [(WordFault, &str); 4] = [
    (WordFault::CapacityNotOne, "run: capacity is not one"),
    (
        WordFault::Start(StartFault::TooManyFrames),
        "start: too many frames",
    ),
    (
        WordFault::Start(StartFault::TooManyAcks),
        "start: too many acknowledgements",
    ),
    (WordFault::Memory, "out of memory"),
];

#[test]
fn refuses_capacities_and_starts(rt: HostRuntime) {
    for (params, frames, acks, want) in &REFUSALS {
        let fault = refusal(&rt, rt.alloc(), *params, frames, acks);
        assert!(rt; fault == *want, "{want:?}");
    }
    for (fault, want) in &FAULTS {
        let text = fault.to_string(rt.alloc()).expect(&rt, "a text");
        assert!(rt; text.as_str() == *want, "{want}");
    }
}

/// How many rounds fill an account at most.
const MOST_ROUNDS: u32 = 1000;

/// An undisturbed round with this item.
fn ask_round<R: Abort>(rt: &R, send: &mut WordSend<'_>, recv: &mut WordRecv<'_>, item: Item) {
    let round = [
        Ask::Offer(item, true),
        Ask::Send(Effect::Sent),
        Ask::PollFrame(FrameSeen::Fresh(item)),
        Ask::SendAck(Effect::Sent),
        Ask::PollAck(Effect::Acked),
    ];
    ask_all(rt, &(), send, recv, &round);
}

/// Rounds with the items from 0 on, until the receiver's account has no place for another. It
/// answers how many places that are.
fn fill<R: Abort>(rt: &R, send: &mut WordSend<'_>, recv: &mut WordRecv<'_>) -> usize {
    for item in 0..MOST_ROUNDS {
        if recv.account().delivered.len() == recv.account().delivered.capacity() {
            break;
        }
        ask_round(rt, send, recv, item);
    }
    recv.account().delivered.capacity()
}

/// The close, and a look for a frame after it.
static CLOSE: [Ask; 2] = [
    Ask::Close(Effect::Closed),
    Ask::PollFrame(FrameSeen::Closed),
];

/// Looks for a frame on an empty word, then with no place under an old label, under another label
/// and after the close: the account makes room under another label alone.
fn look_without_a_place<R: Abort>(rt: &R, send: &mut WordSend<'_>, recv: &mut WordRecv<'_>) {
    let empty = recv.account().delivered.capacity();
    ask_one(rt, &(), send, recv, Ask::PollFrame(FrameSeen::Nothing));
    assert!(rt;
        recv.account().delivered.capacity() == empty,
        "an empty word"
    );

    let full = fill(rt, send, recv);
    ask_one(rt, &(), send, recv, Ask::PollFrame(FrameSeen::Old));
    assert!(rt; recv.account().delivered.capacity() == full, "an old label");

    ask_round(rt, send, recv, MOST_ROUNDS);
    assert!(rt; recv.account().delivered.capacity() > full, "another label");

    let full = fill(rt, send, recv);
    ask_all(rt, &(), send, recv, &CLOSE);
    assert!(rt; recv.account().delivered.capacity() == full, "the close");
}

#[test]
fn makes_room_for_another_label_alone(rt: HostRuntime) {
    let (link, opening) = link_at(&rt, rt.alloc(), &Start::clean(rt.alloc()));
    let script = Script::none(rt.alloc());
    let (mut send, mut recv) = link.split(rt.alloc(), opening, script).expect(&rt, "ends");
    look_without_a_place(&rt, &mut send, &mut recv);
}
