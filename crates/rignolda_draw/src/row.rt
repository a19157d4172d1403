ghost use Rattle.std.specs.Prelude.{◌≡◌, slice_get};
ghost use Rattle.rignolda_draw.specs.Rows.{row_of};

use stab_core::{Effect, Event, Link};
use stab_frames::{Item, Label};
use stab_tree::NodeId;

/// An event of a run, its effect, and what both ends of its link have after it.
#[derive(Clone, Copy, Debug, PartialEq, Eq)]
pub struct Row {
    /// The child that names the link; 0 in a run of one link.
    pub child: NodeId,
    /// The event, or none where there was no item to offer.
    pub event: Option<Event>,
    pub effect: Effect,
    /// The sender's label.
    pub label: Label,
    /// The item that the sender holds.
    pub holds: Option<Item>,
    /// The label that the receiver remembers.
    pub remembers: Label,
}

/// The row of an event that had this effect on the link into a node, which is so after it.
pub(crate) fn row_of(child: NodeId, event: Option<Event>, effect: Effect, link: &Link) -> Row
    ensures { result ≡ row_of child event effect link.now }
{
    Row {
        child,
        event,
        effect,
        label: link.send_label(),
        holds: held(link),
        remembers: link.recv_label(),
    }
}

/// The item that the sender holds.
pub(crate) fn held(link: &Link) -> Option<Item>
    ensures { result ≡ slice_get link.now.state.offered link.now.state.acked }
{
    link.offered().get(link.acked() as usize).copied()
}
