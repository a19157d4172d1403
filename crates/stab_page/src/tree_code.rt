//! What a page writes of a tree into the module's memory.

ghost use Rattle.std.specs.Prelude.{◌≡◌, ◌≤◌, IsTrue, length};
ghost use Rattle.stab_page.specs.TracedTree.{traced_link};
ghost use Rattle.stab_page.specs.TreeCodes.{fits, opening_of, parent_of, setup_of, tree_event_of};

use crate::code::{EventCode, FrameCode};
use crate::link::PageLink;
use stab_core::{Event, LinkAct};
use stab_frames::{Item, Label};
use stab_tree::NodeId;
use stab_treecore::TreeEvent;

/// The most entries of a queue of a tree.
pub const MAX_TREE_QUEUED: usize = 8;

/// The most items that a node begins with.
pub const MAX_HELD: usize = 8;

/// What stands for the parent of the root.
const NO_NODE: u16 = 65535;

/// An event of a schedule as numbers: the child that names the link, the kind, and the place of
/// what is lost.
#[repr(C)]
#[derive(Clone, Copy)]
pub struct TreeEventCode {
    pub child: u16,
    pub place: u16,
    pub kind: u32,
}

impl TreeEventCode {
    /// The event of these numbers.
    pub fn event(self) -> TreeEvent
        ensures { result ≡ tree_event_of self }
    {
        TreeEvent {
            child: NodeId::new(self.child),
            act: self.act(),
        }
    }

    /// What happens to the link.
    fn act(self) -> LinkAct
        ensures { result ≡ (tree_event_of self).act }
    {
        let code = EventCode {
            kind: self.kind,
            value: u32::from(self.place),
        };
        match code.event() {
            Event::Offer(_) => LinkAct::Offer,
            Event::SendFrame => LinkAct::SendFrame,
            Event::RecvFrame { keep } => LinkAct::RecvFrame { keep },
            Event::SendAck => LinkAct::SendAck,
            Event::RecvAck { keep } => LinkAct::RecvAck { keep },
            Event::LoseFrame(place) => LinkAct::LoseFrame(place),
            Event::LoseAck(place) => LinkAct::LoseAck(place),
            Event::Close => LinkAct::Close,
        }
    }
}

/// The parameters of a link and its start: as many of the frames and acknowledgements as the counts
/// say.
#[repr(C)]
#[derive(Clone, Copy)]
pub struct LinkCode {
    pub capacity: u16,
    pub labels: u16,
    pub send_label: Label,
    pub recv_label: Label,
    pub frame_count: u16,
    pub ack_count: u16,
    pub acks: [Label; MAX_TREE_QUEUED],
    pub frames: [FrameCode; MAX_TREE_QUEUED],
}

impl LinkCode {
    /// Whether there is room for such a link, and its start fits.
    pub fn fits(&self) -> bool
        ensures { result ≡ fits self.now }
    {
        (1..=8).contains(&self.capacity)
            && (2..=1000).contains(&self.labels)
            && self.frame_count <= self.capacity
            && self.ack_count <= self.capacity
    }

    /// The link at its start.
    pub fn link(&self) -> PageLink
        requires { IsTrue (fits self.now) }
        ensures { result ≡ traced_link (setup_of self.now) }
    {
        let frames = &self.frames[..usize::from(self.frame_count)];
        let acks = &self.acks[..usize::from(self.ack_count)];
        PageLink::new(
            self.capacity,
            self.labels,
            frames,
            acks,
            self.send_label,
            self.recv_label,
        )
    }
}

/// What a node begins with that nobody published: as many of the items as the count says.
#[repr(C)]
#[derive(Clone, Copy)]
pub struct OpeningCode {
    pub count: u32,
    pub items: [Item; MAX_HELD],
}

impl OpeningCode {
    /// The items that count. Where the count is more than 8, there are none.
    pub fn items(&self) -> &[Item]
        ensures items { result.now ≡ opening_of self.now }
        ensures few { length result.now ≤ MAX_HELD }
    {
        let count = self.count as usize;
        if count > MAX_HELD {
            return &[];
        }
        &self.items[..count]
    }
}

/// The parent that this number is the place of.
pub fn parent_of(code: u16) -> Option<NodeId>
    ensures { result ≡ parent_of code }
{
    if code == NO_NODE {
        None
    } else {
        Some(NodeId::new(code))
    }
}
