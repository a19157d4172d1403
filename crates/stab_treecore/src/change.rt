use crate::event::TreeEvent;
use stab_core::Start;
use stab_frames::{Item, Sequence};
use stab_tree::NodeId;

/// What happens to a whole tree: an act on a link, items that are published, or a fault.
#[derive(Debug, Drop)]
pub enum Change {
    /// An act on the link into a node.
    Act(TreeEvent),
    /// The root publishes these items after those that it has.
    Publish(Sequence<Item>),
    /// The queues and labels of the link into a node become these.
    Strike(NodeId, Start),
    /// The list of a node becomes this one, and its senders begin anew with it.
    Restart(NodeId, Sequence<Item>),
}
