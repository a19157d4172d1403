//! Worked examples of a link as data: what it begins from, the calls of its two ends, each beside
//! its answer, and the accounts that they leave; and the helpers that make the calls on the ends of
//! a link of either kind.

ghost use Rattle.std.specs.Prelude.{◌≡◌};

use stab_acts::{InAct, OutAct, Script};
use stab_core::{Effect, Start};
use stab_ends::{FrameSeen, RecvSide, SendSide, Settled};
use stab_frames::{Frame, Item, Label, Sequence};
use std::alloc::Global;
use std::process::Abort;

/// A call of one of the two ends, beside the answer that it must give.
#[derive(Clone, Copy, Debug)]
pub enum Ask {
    Offer(Item, bool),
    Send(Effect),
    PollAck(Effect),
    Close(Effect),
    PollFrame(FrameSeen),
    SendAck(Effect),
}

/// An example of a link of capacity 1 with 4 labels.
pub struct Example {
    pub name: &'static str,
    pub frames: &'static [Frame],
    pub acks: &'static [Label],
    /// The sender's label and the one that the receiver remembers.
    pub labels: (Label, Label),
    pub frames_out: &'static [OutAct],
    pub frames_in: &'static [InAct],
    pub acks_out: &'static [OutAct],
    pub asks: &'static [Ask],
    /// The offered items, how many of them are acknowledged, and the delivered items.
    pub offered: &'static [Item],
    pub acked: u64,
    pub delivered: &'static [Item],
    /// Whether both ends are closed or both are open.
    pub closed: bool,
}

/// A start with these frames, acknowledgements and labels.
pub fn start_of<R: Abort>(
    rt: &R,
    alloc: Global,
    frames: &[Frame],
    acks: &[Label],
    labels: (Label, Label),
) -> Start {
    let frames = Vec::from_slice(alloc, frames).expect(rt, "frames");
    let acks = Vec::from_slice(alloc, acks).expect(rt, "acknowledgements");
    Start {
        frames: Sequence::from_vec(frames),
        acks: Sequence::from_vec(acks),
        send_label: labels.0,
        recv_label: labels.1,
    }
}

/// The start of an example.
pub fn example_start<R: Abort>(rt: &R, alloc: Global, example: &Example) -> Start {
    start_of(rt, alloc, example.frames, example.acks, example.labels)
}

/// The script of an example.
pub fn example_script<R: Abort>(rt: &R, alloc: Global, example: &Example) -> Script {
    let frames_out = Vec::from_slice(alloc, example.frames_out).expect(rt, "acts");
    let frames_in = Vec::from_slice(alloc, example.frames_in).expect(rt, "acts");
    let acks_out = Vec::from_slice(alloc, example.acks_out).expect(rt, "acts");
    Script::new(frames_out, frames_in, acks_out, Vec::new(alloc)).expect(rt, "a script")
}

/// Makes a call, and compares the answer.
pub fn ask_one<S: SendSide, T: RecvSide<Pass = S::Pass>, R: Abort>(
    rt: &R,
    pass: &S::Pass,
    send: &mut S,
    recv: &mut T,
    ask: Ask,
)
    ensures sender { S.link send.new ≡ S.link send.old }
    ensures receiver { T.link recv.new ≡ T.link recv.old }
{
    let is_answered = match ask {
        Ask::Offer(item, taken) => send.offer(pass, item).expect(rt, "memory") == taken,
        Ask::Send(effect) => send.send(pass).expect(rt, "memory") == effect,
        Ask::PollAck(effect) => send.poll_ack(pass).expect(rt, "memory") == effect,
        Ask::Close(effect) => send.close(pass).expect(rt, "memory") == effect,
        Ask::PollFrame(seen) => recv.poll_frame(pass).expect(rt, "memory") == seen,
        Ask::SendAck(effect) => recv.send_ack(pass).expect(rt, "memory") == effect,
    };
    assert!(rt; is_answered, "{ask:?}");
}

/// Makes the calls on both ends, in their order, and compares the answers.
pub fn ask_all<S: SendSide, T: RecvSide<Pass = S::Pass>, R: Abort>(
    rt: &R,
    pass: &S::Pass,
    send: &mut S,
    recv: &mut T,
    asks: &[Ask],
)
    ensures sender { S.link send.new ≡ S.link send.old }
    ensures receiver { T.link recv.new ≡ T.link recv.old }
{
    'asks: for ask in asks {
        ask_one(rt, pass, send, recv, *ask);
    }
}

/// Makes the calls on both ends, and finishes the ends.
pub fn ask_and_finish<S: SendSide, T: RecvSide<Pass = S::Pass>, R: Abort>(
    rt: &R,
    pass: &S::Pass,
    mut send: S,
    mut recv: T,
    asks: &[Ask],
) -> (S::Done, T::Done)
    ensures sender { S.done_link result.0 ≡ S.link send }
    ensures receiver { T.done_link result.1 ≡ T.link recv }
{
    ask_all(rt, pass, &mut send, &mut recv, asks);
    (send.finish(), recv.finish())
}

/// Fails the test where the accounts are others than an example's.
pub fn assert_settled<R: Abort>(rt: &R, settled: &Settled, example: &Example) {
    let (send, recv, name) = (&settled.send, &settled.recv, example.name);
    assert!(rt;
        send.offered.as_slice() == example.offered
            && send.acked == example.acked
            && recv.delivered.as_slice() == example.delivered
            && send.closed == example.closed
            && recv.closed == example.closed,
        "{name}"
    );
}
