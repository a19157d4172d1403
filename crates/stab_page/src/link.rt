ghost use Rattle.std.specs.Prelude.{◌≡◌, ◌≤◌, [], length, map};
ghost use Rattle.stab_core.specs.Trace.{strays_from, traced_initial};
ghost use Rattle.stab_core.specs.Tracer.{tracer_at};
ghost use Rattle.stab_page.specs.Codes.{frame_of, start_of};
ghost use Rattle.stab_page.specs.PageLink.{parameters};

mod steps;

use crate::code::FrameCode;
use crate::entry::{FrameEntry, OriginEntry};
use arrayvec::ArrayVec;
use stab_core::Origin;
use stab_frames::{Item, Label};
use std::marker::Model;

/// The most entries of a queue.
pub const MAX_QUEUED: usize = 64;

/// The most events of a replay, and so the most items that can be offered or delivered.
pub const MAX_EVENTS: usize = 4096;

/// One link in arrays: its two queues, what its ends remember, and where each queued frame and each
/// delivered item comes from. Contracts see its parameters and its state with origins.
#[derive(Drop)]
pub struct PageLink {
    capacity: u16,
    labels: u16,
    frames: ArrayVec<FrameEntry, MAX_QUEUED>,
    queued: ArrayVec<OriginEntry, MAX_QUEUED>,
    acks: ArrayVec<Label, MAX_QUEUED>,
    send_label: Label,
    recv_label: Label,
    offered: ArrayVec<Item, MAX_EVENTS>,
    acked: usize,
    delivered: ArrayVec<Item, MAX_EVENTS>,
    origins: ArrayVec<OriginEntry, MAX_EVENTS>,
    closed: bool,
}

impl Model for PageLink {
    ghost use Rattle.stab_core.specs.Tracer.{TracerValue};

    ghost Value = { TracerValue };

    ghost use Rattle.stab_page.specs.PageLinkInside.{page_link_view, IsSound};

    ghost view = { page_link_view };

    ghost invariant = { IsSound };
}

impl PageLink {
    /// The link at its start: nothing offered, acknowledged or delivered, and each queued frame a
    /// stray.
    pub fn new(
        capacity: u16,
        labels: u16,
        frames: &[FrameCode],
        acks: &[Label],
        send_label: Label,
        recv_label: Label,
    ) -> PageLink
        requires capacity { capacity ≤ MAX_QUEUED }
        requires labels { 1 ≤ labels }
        requires frames { length frames.now ≤ capacity }
        requires acks { length acks.now ≤ capacity }
        ensures { result ≡ tracer_at (parameters capacity labels)
            (traced_initial (start_of frames.now acks.now send_label recv_label)) }
    {
        let (frames, queued) = strays(frames);
        PageLink {
            capacity,
            labels,
            frames,
            queued,
            acks: copied(acks),
            send_label,
            recv_label,
            offered: ArrayVec::new(),
            acked: 0,
            delivered: ArrayVec::new(),
            origins: ArrayVec::new(),
            closed: false,
        }
    }

    /// How many entries a queue has room for: at most 64.
    pub fn capacity(&self) -> u16
        ensures capacity { result ≡ self.now.params.capacity }
        ensures small { self.now.params.capacity ≤ MAX_QUEUED }
    {
        self.capacity
    }

    /// The queued frames, the front first.
    pub fn frames(&self) -> &[FrameEntry]
        ensures frames { result.now ≡ self.now.traced.state.frames }
        ensures fit { length self.now.traced.state.frames ≤ MAX_QUEUED }
    {
        self.frames.as_slice()
    }

    /// Where each queued frame comes from.
    pub fn queued(&self) -> &[OriginEntry]
        ensures queued { result.now ≡ self.now.traced.queued }
        ensures fit { length self.now.traced.queued ≤ MAX_QUEUED }
    {
        self.queued.as_slice()
    }

    /// The queued acknowledgements, the front first.
    pub fn acks(&self) -> &[Label]
        ensures acks { result.now ≡ self.now.traced.state.acks }
        ensures fit { length self.now.traced.state.acks ≤ MAX_QUEUED }
    {
        self.acks.as_slice()
    }

    /// The sender's label.
    pub fn send_label(&self) -> Label
        ensures { result ≡ self.now.traced.state.send_label }
    {
        self.send_label
    }

    /// The label that the receiver remembers.
    pub fn recv_label(&self) -> Label
        ensures { result ≡ self.now.traced.state.recv_label }
    {
        self.recv_label
    }

    /// The items that the sender was offered and took, in their order.
    pub fn offered(&self) -> &[Item]
        ensures offered { result.now ≡ self.now.traced.state.offered }
        ensures fit { length self.now.traced.state.offered ≤ MAX_EVENTS }
    {
        self.offered.as_slice()
    }

    /// How many of the offered items are acknowledged: all, or all but the last.
    pub fn acked(&self) -> usize
        ensures { result ≡ self.now.traced.state.acked }
    {
        self.acked
    }

    /// The items that the receiver delivered, in their order.
    pub fn delivered(&self) -> &[Item]
        ensures delivered { result.now ≡ self.now.traced.state.delivered }
        ensures fit { length self.now.traced.state.delivered ≤ MAX_EVENTS }
    {
        self.delivered.as_slice()
    }

    /// Where each delivered item comes from.
    pub fn origins(&self) -> &[OriginEntry]
        ensures origins { result.now ≡ self.now.traced.origins }
        ensures fit { length self.now.traced.origins ≤ MAX_EVENTS }
        ensures pace { length self.now.traced.origins ≡ length self.now.traced.state.delivered }
    {
        self.origins.as_slice()
    }

    /// Whether the link is closed: then it never changes again.
    pub fn is_closed(&self) -> bool
        ensures { result ≡ self.now.traced.state.closed }
    {
        self.closed
    }
}

/// The frames of a start, each of which is a stray.
fn strays(
    frames: &[FrameCode],
) -> (
    ArrayVec<FrameEntry, MAX_QUEUED>,
    ArrayVec<OriginEntry, MAX_QUEUED>,
)
    requires { length frames.now ≤ MAX_QUEUED }
    ensures frames { result.0.items ≡ map frame_of frames.now }
    ensures strays { result.1.items ≡ strays_from 0 (map frame_of frames.now) }
    ensures pace { length result.1.items ≡ length result.0.items }
{
    let mut entries = ArrayVec::new();
    let mut strays = ArrayVec::new();
    for code in frames {
        let place = entries.len() as u16;
        entries.push(FrameEntry {
            frame: code.frame(),
        });
        strays.push(OriginEntry {
            origin: Origin::Stray(place),
        });
    }
    (entries, strays)
}

/// The acknowledgements of a start.
fn copied(acks: &[Label]) -> ArrayVec<Label, MAX_QUEUED>
    requires { length acks.now ≤ MAX_QUEUED }
    ensures { result.items ≡ acks.now }
{
    let mut labels = ArrayVec::new();
    for label in acks {
        labels.push(*label);
    }
    labels
}
