use stab_core::LinkAct;
use stab_tree::NodeId;

/// One event of a schedule: an act on the link into a node. An offer is of the item that comes next
/// in the parent's list.
#[derive(Clone, Copy, Debug, PartialEq, Eq)]
pub struct TreeEvent {
    /// The child that names the link.
    pub child: NodeId,
    pub act: LinkAct,
}
