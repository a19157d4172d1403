ghost use Rattle.std.specs.Prelude.{◌≡◌, ◌+◌, ◌*◌, ◌≤◌, ◌++◌, ◌∷◌, ℕ, [], length, string_bytes};
ghost use Rattle.std.specs.Prelude.{IfOk, OnOk};
ghost use Rattle.std.specs.List.{range_with_len};
ghost use Rattle.stab_core.specs.CounterExamples.{acked_by_receiver, acked_by_start};
ghost use Rattle.stab_core.specs.CounterExamples.{counted_frames, delivered_at_last};
ghost use Rattle.stab_core.specs.CounterExamples.{worst_events, worst_start};
ghost use Rattle.stab_core.specs.LinkLaw.{LinkLawWithin};
ghost use Rattle.stab_core.specs.Replay.{IsLawful, initial, replay, start_items};
ghost use Rattle.stab_script.specs.LinkJobs.{most_events};
ghost use Rattle.rignolda_make.specs.WorstTexts.{IsWorstText};

use crate::link_job::link_job_text;
use stab_core::{Event, Start, laws};
use stab_frames::{Frame, Item, Label, Params, Sequence};
use stab_script::LinkJob;
use std::alloc::{AllocError, Global};

/// The item that the worst job offers first; the others count up from it.
pub const FIRST_ITEM: Item = 10;

/// The first stray of the worst job; the others count up from it. No offered item is so large.
pub const FIRST_STRAY: Item = 900;

/// The text of the worst link job of these parameters, JSON on one line without a newline: the
/// reader of link jobs reads it as [`worst_job`].
#[tactic(auto, using(crate::proofs::Counting::few_events))]
pub fn worst_text(alloc: Global, params: Params) -> Result<String, AllocError>
    ensures { IfOk result (λ text. IsWorstText params (string_bytes text)) }
{
    let job = worst_job(alloc, params)?;
    link_job_text(alloc, &job)
}

/// The worst link job of these parameters: after its events, `c` strays were delivered, and of the
/// acknowledged items `2c + 1` are missing, the most that the link law allows.
///
/// The items are offered from 10 on, and the strays count up from 900.
pub fn worst_job(alloc: Global, params: Params) -> Result<LinkJob, AllocError>
    ensures params { IfOk result (λ job. job.params ≡ params) }
    ensures start { IfOk result (λ job. job.start ≡ worst_start params.capacity FIRST_STRAY) }
    ensures events { IfOk result (λ job. job.events ≡ worst_events params.capacity FIRST_ITEM) }
    ensures few_events { IfOk result (λ job. length job.events ≤ most_events) }
    ensures lawful { IfOk result (λ job. IsLawful params job.start) }
    ensures strays { IfOk result (λ job. length (start_items job.start) ≡ params.capacity) }
    ensures reached { IfOk result (λ job. let c = params.capacity in
        let s = replay params (initial job.start) job.events in
        (s.offered ≡ range_with_len FIRST_ITEM (2 * c + 2)) × (s.acked ≡ 2 * c + 1)
        × (s.delivered ≡ start_items job.start ++ (FIRST_ITEM + 2 * c + 1) ∷ [])) }
    ensures no_smaller { IfOk result (λ job.
        (most_strays most_missing : ℕ) → let c = params.capacity in
        let s = replay params (initial job.start) job.events in
        LinkLawWithin most_strays most_missing (start_items job.start) s.offered s.acked s.delivered
        → (c ≤ most_strays) × (2 * c + 1 ≤ most_missing)) }
{
    let capacity = params.capacity();
    laws::bounds_are_reached();
    Ok(LinkJob {
        params,
        start: worst_start(alloc, capacity)?,
        events: worst_events(alloc, capacity)?,
    })
}

/// The worst start: the receiver remembers the label `c`, the acknowledgements have those below it,
/// and the strays those above it.
fn worst_start(alloc: Global, capacity: u16) -> Result<Start, AllocError>
    requires { capacity ≤ 64 }
    ensures { IfOk result (λ start. start ≡ worst_start capacity FIRST_STRAY) }
{
    Ok(Start {
        frames: counted_frames(alloc, capacity + 1, capacity)?,
        acks: counted_labels(alloc, capacity)?,
        send_label: 0,
        recv_label: capacity,
    })
}

/// The `count` strays whose labels count up from `first`.
fn counted_frames(alloc: Global, first: Label, count: u16) -> Result<Sequence<Frame>, AllocError>
    requires { first + count ≤ 1000 }
    ensures { IfOk result (λ frames. frames ≡ counted_frames first FIRST_STRAY count) }
{
    let mut frames = Sequence::with_capacity(alloc, usize::from(count))?;
    for place in 0..count {
        frames.push(Frame {
            label: first + place,
            item: FIRST_STRAY + u32::from(place),
        })?;
    }
    Ok(frames)
}

/// The first `count` labels, from 0 on.
fn counted_labels(alloc: Global, count: u16) -> Result<Sequence<Label>, AllocError>
    ensures { IfOk result (λ labels. labels ≡ range_with_len 0 count) }
{
    let mut labels = Sequence::with_capacity(alloc, usize::from(count))?;
    for label in 0..count {
        labels.push(label)?;
    }
    Ok(labels)
}

/// The worst events: `c` items are acknowledged by the start, `c` by the labels that the receiver
/// remembers, one more by the last of these, and the item after them is delivered.
fn worst_events(alloc: Global, capacity: u16) -> Result<Sequence<Event>, AllocError>
    requires { capacity ≤ 64 }
    ensures { IfOk result (λ events. events ≡ worst_events capacity FIRST_ITEM) }
{
    let mut events = Sequence::new(alloc);
    let by_receiver = FIRST_ITEM + u32::from(capacity);
    push_acked_by_start(&mut events, FIRST_ITEM, capacity)?;
    push_acked_by_receiver(&mut events, by_receiver, capacity)?;
    push_delivered_at_last(&mut events, by_receiver + u32::from(capacity))?;
    Ok(events)
}

/// Adds `rounds` rounds, in each of which the next acknowledgement of the start acknowledges an
/// item that was never sent.
fn push_acked_by_start(
    events: &mut Sequence<Event>,
    first: Item,
    rounds: u16,
) -> Result<(), AllocError>
    requires { first ≤ 1000 }
    ensures { OnOk result (events.new ≡ events.old ++ acked_by_start first rounds) }
{
    for round in 0..rounds {
        events.push(Event::Offer(first + u32::from(round)))?;
        events.push(Event::RecvAck { keep: false })?;
    }
    Ok(())
}

/// Adds `rounds` rounds, in each of which the label that the receiver remembers acknowledges an
/// item that was never sent, and then the receiver takes the next stray.
fn push_acked_by_receiver(
    events: &mut Sequence<Event>,
    first: Item,
    rounds: u16,
) -> Result<(), AllocError>
    requires { first ≤ 1000 }
    ensures { OnOk result (events.new ≡ events.old ++ acked_by_receiver first rounds) }
{
    for round in 0..rounds {
        events.push(Event::SendAck)?;
        events.push(Event::Offer(first + u32::from(round)))?;
        events.push(Event::RecvAck { keep: false })?;
        events.push(Event::RecvFrame { keep: false })?;
    }
    Ok(())
}

/// Adds the end: the last stray's label acknowledges this item, and the item after it is sent and
/// delivered.
fn push_delivered_at_last(events: &mut Sequence<Event>, item: Item) -> Result<(), AllocError>
    requires { item ≤ 1000 }
    ensures { OnOk result (events.new ≡ events.old ++ delivered_at_last item) }
{
    events.push(Event::SendAck)?;
    events.push(Event::Offer(item))?;
    events.push(Event::RecvAck { keep: false })?;
    events.push(Event::Offer(item + 1))?;
    events.push(Event::SendFrame)?;
    events.push(Event::RecvFrame { keep: false })
}
