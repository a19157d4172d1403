ghost use Rattle.std.specs.Prelude.{◌≡◌, false, IfOk, IfErr, OnOk};
ghost use Rattle.stab_core.specs.Replay.{initial, replay, start_items, IsLawful};
ghost use Rattle.stab_core.specs.Trace.{strays_from, traced_initial, traced_step, traced_replay};
ghost use Rattle.stab_core.specs.Trace.{Explains};
ghost use Rattle.stab_core.specs.Link.{link_at, IsReason};
ghost use Rattle.stab_core.specs.Tracer.{tracer_at, LeavesFrames};

use crate::event::{Effect, Event};
use crate::laws;
use crate::link::Link;
use crate::origin::Origin;
use crate::start::{Start, StartFault};
use stab_frames::{FrameQueue, Params};
use std::alloc::{AllocError, Global};
use std::marker::Model;

/// For each item that the link delivers in this replay, in order, where it comes from: its place in
/// the start's frames, or its place in the offered list. All strays come before all offered items,
/// and places rise in each part.
pub fn trace(
    alloc: Global,
    params: Params,
    start: &Start,
    events: &[Event],
) -> Result<Vec<Origin>, StartFault>
    ensures replay { IfOk result (λ origins.
        origins.items ≡ (traced_replay params (traced_initial start.now) events.now).origins) }
    ensures explained { IfOk result (λ origins.
        let s = replay params (initial start.now) events.now in
        Explains (start_items start.now) s.offered origins.items s.delivered) }
    ensures lawful { IfOk result (λ origins. IsLawful params start.now) }
    ensures refused { IfErr result (IsReason params start.now) }
{
    let (link, origins) = run_traced(alloc, params, start, events)?;
    drop(link);
    laws::every_replay_is_explained();
    Ok(origins)
}

/// The link after these events, as `run_link` gives it, and the origins of what it delivered, as
/// `trace` gives them, of one replay.
pub fn run_traced(
    alloc: Global,
    params: Params,
    start: &Start,
    events: &[Event],
) -> Result<(Link, Vec<Origin>), StartFault>
    ensures link { IfOk result (λ both.
        both.0 ≡ link_at params (replay params (initial start.now) events.now)) }
    ensures origins { IfOk result (λ both.
        both.1.items ≡ (traced_replay params (traced_initial start.now) events.now).origins) }
    ensures lawful { IfOk result (λ both. IsLawful params start.now) }
    ensures refused { IfErr result (IsReason params start.now) }
{
    let mut tracer = Tracer::new(alloc, params, start)?;
    for event in events {
        tracer.apply(*event)?;
    }
    laws::every_replay_is_explained();
    Ok(tracer.into_parts())
}

/// A link, with the origin of each queued frame and of each delivered item. Contracts see its
/// parameters, its state and the origins.
#[derive(Drop)]
pub struct Tracer {
    link: Link,
    queued: FrameQueue<Origin>,
    origins: Vec<Origin>,
}

impl Model for Tracer {
    ghost use Rattle.stab_core.specs.Tracer.{TracerValue};

    ghost Value = { TracerValue };

    ghost use Rattle.stab_core.specs.TracerInside.{tracer_view, KeepsPace};

    ghost view = { tracer_view };

    ghost invariant = { KeepsPace };
}

impl Tracer {
    /// The tracer at a start: each queued frame is a stray.
    #[tactic(auto, using(crate::proofs::Tracing::length_strays))]
    pub fn new(alloc: Global, params: Params, start: &Start) -> Result<Tracer, StartFault>
        ensures initial { IfOk result (λ t. t ≡ tracer_at params (traced_initial start.now)) }
        ensures lawful { IfOk result (λ t. IsLawful params start.now) }
        ensures refused { IfErr result (IsReason params start.now) }
    {
        let link = Link::new(alloc, params, start)?;
        let queued = strays(alloc, params, &link)?;
        Ok(Tracer {
            link,
            queued,
            origins: Vec::new(alloc),
        })
    }

    /// One step, with the origins of the frame that it puts, takes or loses.
    pub fn apply(&mut self, event: Event) -> Result<(), AllocError>
        ensures { OnOk result (self.new ≡ tracer_at self.old.params
            (traced_step self.old.params self.old.traced event)) }
    {
        if self.link.is_closed() {
            return Ok(());
        }
        match event {
            Event::SendFrame => self.send_frame(),
            Event::RecvFrame { keep } => self.recv_frame(keep),
            Event::LoseFrame(place) => self.lose_frame(place),
            Event::Offer(_)
            | Event::SendAck
            | Event::RecvAck { keep: _ }
            | Event::LoseAck(_)
            | Event::Close => self.leave_frames(event),
        }
    }

    /// An event that puts, takes and loses no frame.
    fn leave_frames(&mut self, event: Event) -> Result<(), AllocError>
        requires is_open { self.old.traced.state.closed ≡ false }
        requires leaves { LeavesFrames event }
        ensures { OnOk result (self.new ≡ tracer_at self.old.params
            (traced_step self.old.params self.old.traced event)) }
    {
        self.link.apply(event)?;
        Ok(())
    }

    /// The frame that is sent is of the item that was offered last.
    fn send_frame(&mut self) -> Result<(), AllocError>
        requires { self.old.traced.state.closed ≡ false }
        ensures { OnOk result (self.new ≡ tracer_at self.old.params
            (traced_step self.old.params self.old.traced Event.SendFrame)) }
    {
        if self.link.apply(Event::SendFrame)? == Effect::Sent {
            let offered = self.link.offered().len() as u64;
            self.queued.put(Origin::Sent(offered.saturating_sub(1)));
        }
        Ok(())
    }

    /// The origin of the front frame goes along with its item, where that is delivered.
    fn recv_frame(&mut self, keep: bool) -> Result<(), AllocError>
        requires { self.old.traced.state.closed ≡ false }
        ensures { OnOk result (self.new ≡ tracer_at self.old.params
            (traced_step self.old.params self.old.traced (Event.RecvFrame keep))) }
    {
        let front = self.queued.front();
        let effect = self.link.apply(Event::RecvFrame { keep })?;
        if !keep {
            self.queued.take();
        }
        if let Effect::Fresh(_) = effect {
            if let Some(origin) = front {
                self.origins.push(origin)?;
            }
        }
        Ok(())
    }

    /// The origin of a frame that vanishes does so too.
    #[tactic(auto, using(crate::proofs::Tracing::length_without))]
    fn lose_frame(&mut self, place: u16) -> Result<(), AllocError>
        requires { self.old.traced.state.closed ≡ false }
        ensures { OnOk result (self.new ≡ tracer_at self.old.params
            (traced_step self.old.params self.old.traced (Event.LoseFrame place))) }
    {
        self.link.apply(Event::LoseFrame(place))?;
        self.queued.lose(place);
        Ok(())
    }

    /// The link, and the origins of what it delivered.
    pub fn into_parts(self) -> (Link, Vec<Origin>)
        ensures link { result.0 ≡ link_at self.params self.traced.state }
        ensures origins { result.1.items ≡ self.traced.origins }
    {
        let Tracer {
            link,
            queued,
            origins,
        } = self;
        drop(queued);
        (link, origins)
    }
}

/// Each queued frame of a link at its start is a stray.
fn strays(alloc: Global, params: Params, link: &Link) -> Result<FrameQueue<Origin>, AllocError>
    requires { link.now.params ≡ params }
    ensures { IfOk result (λ queue.
        (queue.entries ≡ strays_from 0 link.now.state.frames)
        × (queue.capacity ≡ params.capacity)) }
{
    let mut queued = FrameQueue::new(alloc, params.capacity())?;
    for place in 0..link.frame_count() {
        queued.put(Origin::Stray(place));
    }
    Ok(queued)
}
