//! The step of a link, an event at a time.

ghost use Rattle.std.specs.Prelude.{◌≡◌, ◌<◌, ◌≤◌, false, length, nat_lt};
ghost use Rattle.stab_frames.specs.Parameters.{next};
ghost use Rattle.stab_core.specs.LinkState.{is_idle, is_holding, current_frame};
ghost use Rattle.stab_page.specs.PageLink.{TracedSteps, GrowsByOne};

use super::{MAX_EVENTS, MAX_QUEUED, PageLink};
use crate::entry::{FrameEntry, OriginEntry};
use stab_core::{Effect, Event, Origin};
use stab_frames::{Frame, Item, Label};

impl PageLink {
    /// One step.
    pub fn apply(&mut self, event: Event) -> Effect
        requires offered { length self.old.traced.state.offered < MAX_EVENTS }
        requires delivered { length self.old.traced.state.delivered < MAX_EVENTS }
        ensures steps { TracedSteps self.old event self.new result }
        ensures grows { GrowsByOne self.old self.new }
    {
        if self.closed {
            return Effect::Nothing;
        }
        match event {
            Event::Offer(item) => self.offer(item),
            Event::SendFrame => self.send_frame(),
            Event::RecvFrame { keep } => self.recv_frame(keep),
            Event::SendAck => self.send_ack(),
            Event::RecvAck { keep } => self.recv_ack(keep),
            Event::LoseFrame(place) => self.lose_frame(place),
            Event::LoseAck(place) => self.lose_ack(place),
            Event::Close => self.close(),
        }
    }

    /// The sender holds the item, where it is idle.
    fn offer(&mut self, item: Item) -> Effect
        requires open { self.old.traced.state.closed ≡ false }
        requires room { length self.old.traced.state.offered < MAX_EVENTS }
        ensures steps { TracedSteps self.old (Event.Offer item) self.new result }
        ensures grows { GrowsByOne self.old self.new }
    {
        if !self.is_idle() {
            return Effect::Nothing;
        }
        self.offered.push(item);
        Effect::Held
    }

    /// The sender sends the frame of its item, where it holds one.
    fn send_frame(&mut self) -> Effect
        requires { self.old.traced.state.closed ≡ false }
        ensures steps { TracedSteps self.old Event.SendFrame self.new result }
        ensures grows { GrowsByOne self.old self.new }
    {
        if !self.is_holding() {
            return Effect::Nothing;
        }
        if !self.has_room(self.frames.len()) {
            return Effect::Lost;
        }
        let frame = self.current_frame();
        let place = self.offered.len() as u64 - 1;
        self.frames.push(FrameEntry { frame });
        self.queued.push(OriginEntry {
            origin: Origin::Sent(place),
        });
        Effect::Sent
    }

    /// The receiver receives the front frame, where there is one.
    fn recv_frame(&mut self, keep: bool) -> Effect
        requires open { self.old.traced.state.closed ≡ false }
        requires room { length self.old.traced.state.delivered < MAX_EVENTS }
        ensures steps { TracedSteps self.old (Event.RecvFrame keep) self.new result }
        ensures grows { GrowsByOne self.old self.new }
    {
        let Some(entry) = self.frames.as_slice().first().copied() else {
            return Effect::Nothing;
        };
        let Some(origin) = self.queued.as_slice().first().copied() else {
            return Effect::Nothing;
        };
        if !keep {
            self.frames.pop_at(0);
            self.queued.pop_at(0);
        }
        let frame = entry.frame;
        if frame.label == self.recv_label {
            return Effect::Old;
        }
        self.recv_label = frame.label;
        self.delivered.push(frame.item);
        self.origins.push(origin);
        Effect::Fresh(frame.item)
    }

    /// The receiver sends the label that it remembers.
    fn send_ack(&mut self) -> Effect
        requires { self.old.traced.state.closed ≡ false }
        ensures steps { TracedSteps self.old Event.SendAck self.new result }
        ensures grows { GrowsByOne self.old self.new }
    {
        if !self.has_room(self.acks.len()) {
            return Effect::Lost;
        }
        self.acks.push(self.recv_label);
        Effect::Sent
    }

    /// The sender receives the front acknowledgement, where there is one.
    fn recv_ack(&mut self, keep: bool) -> Effect
        requires { self.old.traced.state.closed ≡ false }
        ensures steps { TracedSteps self.old (Event.RecvAck keep) self.new result }
        ensures grows { GrowsByOne self.old self.new }
    {
        let Some(label) = self.acks.as_slice().first().copied() else {
            return Effect::Nothing;
        };
        let _offered = self.offered.len();
        if !keep {
            self.acks.pop_at(0);
        }
        if !self.is_holding() || label != self.send_label {
            return Effect::Ignored;
        }
        self.acked += 1;
        self.send_label = self.next_label();
        Effect::Acked
    }

    /// The frame at a place vanishes, where there is one.
    #[tactic(auto, using(crate::proofs::Lists::nothing_past, crate::proofs::Lists::parts_without))]
    fn lose_frame(&mut self, place: u16) -> Effect
        requires { self.old.traced.state.closed ≡ false }
        ensures steps { TracedSteps self.old (Event.LoseFrame place) self.new result }
        ensures grows { GrowsByOne self.old self.new }
    {
        if self.frames.pop_at(usize::from(place)).is_none() {
            return Effect::Nothing;
        }
        self.queued.pop_at(usize::from(place));
        Effect::Lost
    }

    /// The acknowledgement at a place vanishes, where there is one.
    #[tactic(auto, using(crate::proofs::Lists::nothing_past, crate::proofs::Lists::parts_without))]
    fn lose_ack(&mut self, place: u16) -> Effect
        requires { self.old.traced.state.closed ≡ false }
        ensures steps { TracedSteps self.old (Event.LoseAck place) self.new result }
        ensures grows { GrowsByOne self.old self.new }
    {
        if self.acks.pop_at(usize::from(place)).is_none() {
            return Effect::Nothing;
        }
        Effect::Lost
    }

    /// The link is closed.
    fn close(&mut self) -> Effect
        requires { self.old.traced.state.closed ≡ false }
        ensures steps { TracedSteps self.old Event.Close self.new result }
        ensures grows { GrowsByOne self.old self.new }
    {
        self.closed = true;
        Effect::Closed
    }

    /// Whether each offered item is acknowledged.
    fn is_idle(&self) -> bool
        ensures { result ≡ is_idle self.now.traced.state }
    {
        self.offered.len() == self.acked
    }

    /// Whether one offered item waits for its acknowledgement.
    fn is_holding(&self) -> bool
        ensures { result ≡ is_holding self.now.traced.state }
    {
        self.acked < self.offered.len()
    }

    /// Whether a queue of this length takes one more.
    fn has_room(&self, len: usize) -> bool
        ensures room { result ≡ nat_lt len self.now.params.capacity }
        ensures small { self.now.params.capacity ≤ MAX_QUEUED }
    {
        len < usize::from(self.capacity)
    }

    /// The label after the sender's.
    fn next_label(&self) -> Label
        ensures { result ≡ next self.now.params self.now.traced.state.send_label }
    {
        if self.send_label < self.labels - 1 {
            self.send_label + 1
        } else {
            0
        }
    }

    /// The frame of the item that waits, under the sender's label.
    fn current_frame(&self) -> Frame
        requires { self.now.traced.state.acked < length self.now.traced.state.offered }
        ensures { result ≡ current_frame self.now.traced.state }
    {
        Frame {
            label: self.send_label,
            item: self.offered.as_slice()[self.acked],
        }
    }
}
