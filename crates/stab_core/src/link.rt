ghost use Rattle.std.specs.Prelude.{◌≡◌, ◌+◌, ◌≤◌, false, length, slice_get, if◌then◌else◌};
ghost use Rattle.std.specs.Prelude.{◌≢◌, IfOk, IfErr, OnOk, OnErr};
ghost use Rattle.stab_frames.specs.Queue.{queue};
ghost use Rattle.stab_core.specs.Faults.{struck, sender_anew, receiver_anew};
ghost use Rattle.stab_core.specs.LinkState.{LinkState, is_idle};
ghost use Rattle.stab_core.specs.Step.{step, effect, open_step, open_effect};
ghost use Rattle.stab_core.specs.Replay.{initial, IsLawful};
ghost use Rattle.stab_core.specs.Link.{link_at, Steps, Grows, IsReason};

use crate::event::{Effect, Event};
use crate::queues::refill;
use crate::receiver::Receiver;
use crate::sender::Sender;
use crate::start::{Start, StartFault};
use stab_frames::{Frame, FrameQueue, Item, Label, Params};
use std::alloc::{AllocError, Global};
use std::marker::Model;

/// One link: a sender, a receiver and the two queues between them. Contracts see its parameters and
/// its state.
///
/// The two queues have their room from the beginning, so only an event that makes a list grow takes
/// memory.
#[derive(Debug)]
pub struct Link {
    params: Params,
    frames: FrameQueue<Frame>,
    acks: FrameQueue<Label>,
    sender: Sender,
    receiver: Receiver,
    offered: Vec<Item>,
    acked: u64,
    delivered: Vec<Item>,
    closed: bool,
}

impl Drop for Link {
    fn drop(self) {
        let Link {
            params: _,
            frames: _,
            acks: _,
            sender: _,
            receiver: _,
            offered: _,
            acked: _,
            delivered: _,
            closed: _,
        } = self;
    }
}

impl Model for Link {
    ghost use Rattle.stab_core.specs.Link.{LinkValue};

    ghost Value = { LinkValue };

    ghost use Rattle.stab_core.specs.LinkInside.{link_view, IsSound};

    ghost view = { link_view };

    ghost invariant = { IsSound };
}

impl Link {
    /// The link at its start: nothing offered, acknowledged or delivered.
    ///
    /// A start with too many frames is refused, then one with too many acknowledgements. The labels
    /// may be any.
    pub fn new(alloc: Global, params: Params, start: &Start) -> Result<Link, StartFault>
        ensures initial { IfOk result (λ link. link ≡ link_at params (initial start.now)) }
        ensures lawful { IfOk result (λ link. IsLawful params start.now) }
        ensures refused { IfErr result (IsReason params start.now) }
    {
        start.check(params)?;
        let capacity = params.capacity();
        Ok(Link {
            params,
            frames: filled(alloc, capacity, start.frames.as_slice())?,
            acks: filled(alloc, capacity, start.acks.as_slice())?,
            sender: Sender::new(start.send_label),
            receiver: Receiver::new(start.recv_label),
            offered: Vec::new(alloc),
            acked: 0,
            delivered: Vec::new(alloc),
            closed: false,
        })
    }

    /// Makes room for this many more offered and delivered items, as far as memory is there.
    ///
    /// Whoever knows how long the lists will be spares them growing step by step. Where memory is
    /// refused, they grow in their steps as without this call, so there is nothing to report.
    pub fn reserve(&mut self, additional: usize)
        ensures { self.new ≡ self.old }
    {
        let _offered = self.offered.reserve_exact(additional);
        let _delivered = self.delivered.reserve_exact(additional);
    }

    /// One step. Where memory is refused, which only an event that makes a list grow can meet, the
    /// link is as it was.
    pub fn apply(&mut self, event: Event) -> Result<Effect, AllocError>
        ensures steps { IfOk result (Steps self.old event self.new) }
        ensures unchanged { OnErr result (self.new ≡ self.old) }
        ensures memory { OnErr result (Grows (effect self.old.params self.old.state event)) }
    {
        if self.closed {
            return Ok(Effect::Nothing);
        }
        match event {
            Event::Offer(item) => self.offer(item),
            Event::SendFrame => Ok(self.send_frame()),
            Event::RecvFrame { keep } => self.recv_frame(keep),
            Event::SendAck => Ok(self.send_ack()),
            Event::RecvAck { keep } => Ok(self.recv_ack(keep)),
            Event::LoseFrame(place) => Ok(self.lose_frame(place)),
            Event::LoseAck(place) => Ok(self.lose_ack(place)),
            Event::Close => Ok(self.close()),
        }
    }

    /// A fault strikes the link: its queues and labels become these, whatever they were. An item
    /// that the sender holds stays, and so do the lists. It takes no memory.
    ///
    /// A start with too many frames is refused, then one with too many acknowledgements.
    pub fn strike(&mut self, start: &Start) -> Result<(), StartFault>
        ensures struck { OnOk result
            (self.new ≡ link_at self.old.params (struck start.now self.old.state)) }
        ensures lawful { OnOk result (IsLawful self.old.params start.now) }
        ensures refused { IfErr result (IsReason self.old.params start.now) }
        ensures no_memory { IfErr result (λ fault. fault ≢ StartFault.Memory) }
        ensures unchanged { OnErr result (self.new ≡ self.old) }
    {
        start.check(self.params)?;
        refill(&mut self.frames, start.frames.as_slice());
        refill(&mut self.acks, start.acks.as_slice());
        self.sender.relabel(start.send_label);
        self.receiver = Receiver::new(start.recv_label);
        Ok(())
    }

    /// The sender begins anew, under its label: it was offered nothing, and holds nothing. It takes
    /// no memory.
    pub fn begin_sender_anew(&mut self)
        ensures { self.new ≡ link_at self.old.params (sender_anew self.old.state) }
    {
        self.sender = Sender::new(self.sender.label());
        self.offered.clear();
        self.acked = 0;
    }

    /// The receiver begins anew, with the label that it remembers: it delivered nothing. It takes
    /// no memory.
    pub fn begin_receiver_anew(&mut self)
        ensures { self.new ≡ link_at self.old.params (receiver_anew self.old.state) }
    {
        self.delivered.clear();
    }

    /// The sender holds the item, where it is idle.
    fn offer(&mut self, item: Item) -> Result<Effect, AllocError>
        requires { self.old.state.closed ≡ false }
        ensures steps { IfOk result (Steps self.old (Event.Offer item) self.new) }
        ensures unchanged { OnErr result (self.new ≡ self.old) }
        ensures memory { OnErr result
            (Grows (effect self.old.params self.old.state (Event.Offer item))) }
    {
        if !self.sender.is_idle() {
            return Ok(Effect::Nothing);
        }
        self.offered.push(item)?;
        self.sender.hold(item);
        Ok(Effect::Held)
    }

    /// The sender sends the frame of its item, where it holds one.
    fn send_frame(&mut self) -> Effect
        requires { self.old.state.closed ≡ false }
        ensures { Steps self.old Event.SendFrame self.new result }
    {
        match self.sender.frame() {
            None => Effect::Nothing,
            Some(frame) => sent(self.frames.put(frame)),
        }
    }

    /// The receiver receives the front frame, where there is one.
    fn recv_frame(&mut self, keep: bool) -> Result<Effect, AllocError>
        requires { self.old.state.closed ≡ false }
        ensures steps { IfOk result (Steps self.old (Event.RecvFrame keep) self.new) }
        ensures unchanged { OnErr result (self.new ≡ self.old) }
        ensures memory { OnErr result
            (Grows (effect self.old.params self.old.state (Event.RecvFrame keep))) }
    {
        let Some(frame) = self.frames.front() else {
            return Ok(Effect::Nothing);
        };
        let effect = if self.receiver.is_fresh(frame) {
            self.delivered.push(frame.item)?;
            Effect::Fresh(self.receiver.take(frame))
        } else {
            Effect::Old
        };
        if !keep {
            self.frames.take();
        }
        Ok(effect)
    }

    /// The receiver sends the label that it remembers.
    fn send_ack(&mut self) -> Effect
        requires { self.old.state.closed ≡ false }
        ensures { Steps self.old Event.SendAck self.new result }
    {
        sent(self.acks.put(self.receiver.ack()))
    }

    /// The sender receives the front acknowledgement, where there is one.
    fn recv_ack(&mut self, keep: bool) -> Effect
        requires { self.old.state.closed ≡ false }
        ensures { Steps self.old (Event.RecvAck keep) self.new result }
    {
        let Some(label) = self.acks.front() else {
            return Effect::Nothing;
        };
        if !keep {
            self.acks.take();
        }
        if self.sender.on_ack(self.params, label) {
            self.acked += 1;
            Effect::Acked
        } else {
            Effect::Ignored
        }
    }

    /// The frame at a place vanishes, where there is one.
    fn lose_frame(&mut self, place: u16) -> Effect
        requires { self.old.state.closed ≡ false }
        ensures { Steps self.old (Event.LoseFrame place) self.new result }
    {
        lost(self.frames.lose(place))
    }

    /// The acknowledgement at a place vanishes, where there is one.
    fn lose_ack(&mut self, place: u16) -> Effect
        requires { self.old.state.closed ≡ false }
        ensures { Steps self.old (Event.LoseAck place) self.new result }
    {
        lost(self.acks.lose(place))
    }

    /// The link is closed.
    fn close(&mut self) -> Effect
        requires { self.old.state.closed ≡ false }
        ensures { Steps self.old Event.Close self.new result }
    {
        self.closed = true;
        Effect::Closed
    }

    /// The items that the receiver delivered, in their order.
    pub fn delivered(&self) -> &[Item]
        ensures { result.now ≡ self.now.state.delivered }
    {
        self.delivered.as_slice()
    }

    /// The items that the sender was offered and took, in their order.
    pub fn offered(&self) -> &[Item]
        ensures { result.now ≡ self.now.state.offered }
    {
        self.offered.as_slice()
    }

    /// How many of the offered items are acknowledged: all, or all but the last.
    pub fn acked(&self) -> u64
        ensures acked { result ≡ self.now.state.acked }
        ensures were_offered { self.now.state.acked ≤ length self.now.state.offered }
        ensures one_waits_at_most { length self.now.state.offered ≤ self.now.state.acked + 1 }
    {
        self.acked
    }

    /// Whether the link is closed: then it never changes again.
    pub fn is_closed(&self) -> bool
        ensures { result ≡ self.now.state.closed }
    {
        self.closed
    }

    /// Whether each offered item is acknowledged.
    pub fn is_idle(&self) -> bool
        ensures { result ≡ is_idle self.now.state }
    {
        self.sender.is_idle()
    }

    /// The sender's label.
    pub fn send_label(&self) -> Label
        ensures { result ≡ self.now.state.send_label }
    {
        self.sender.label()
    }

    /// The label that the receiver remembers.
    pub fn recv_label(&self) -> Label
        ensures { result ≡ self.now.state.recv_label }
    {
        self.receiver.ack()
    }

    /// How many frames are queued: at most the capacity.
    pub fn frame_count(&self) -> u16
        ensures count { result ≡ length self.now.state.frames }
        ensures fit { length self.now.state.frames ≤ self.now.params.capacity }
    {
        self.frames.len()
    }

    /// How many acknowledgements are queued: at most the capacity.
    pub fn ack_count(&self) -> u16
        ensures count { result ≡ length self.now.state.acks }
        ensures fit { length self.now.state.acks ≤ self.now.params.capacity }
    {
        self.acks.len()
    }

    /// The queued frame at a place, 0 being the front.
    pub fn frame_at(&self, place: u16) -> Option<Frame>
        ensures { result ≡ slice_get self.now.state.frames place }
    {
        self.frames.get(place)
    }

    /// The queued acknowledgement at a place, 0 being the front.
    pub fn ack_at(&self, place: u16) -> Option<Label>
        ensures { result ≡ slice_get self.now.state.acks place }
    {
        self.acks.get(place)
    }
}

/// A queue of these entries, which fit.
fn filled<T: Copy + Eq>(
    alloc: Global,
    capacity: u16,
    entries: &[T],
) -> Result<FrameQueue<T>, AllocError>
    requires some { 1 ≤ capacity }
    requires fit { length entries.now ≤ capacity }
    ensures { IfOk result (λ q. q ≡ queue entries.now capacity) }
{
    let mut queue = FrameQueue::new(alloc, capacity)?;
    for entry in entries {
        queue.put(*entry);
    }
    Ok(queue)
}

/// The effect of a put.
fn sent(had_room: bool) -> Effect
    ensures { result ≡ (if had_room then Effect.Sent else Effect.Lost) }
{
    if had_room { Effect::Sent } else { Effect::Lost }
}

/// The effect of a loss.
fn lost(was_there: bool) -> Effect
    ensures { result ≡ (if was_there then Effect.Lost else Effect.Nothing) }
{
    if was_there {
        Effect::Lost
    } else {
        Effect::Nothing
    }
}
