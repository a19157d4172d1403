use stab_tree::NodeId;

/// The part of some logs that is broken first.
#[derive(Clone, Copy, Debug, PartialEq, Eq)]
pub enum BrokenLog {
    /// What this node received are not at most C + E strays and then published items in their
    /// order, each at most once.
    Strays(NodeId),
    /// It is that, but before the last of the published items some are missing that are not among
    /// the first ones that the sharper law has.
    Missing(NodeId),
    /// It is that, but not few strays and then what its parent, an inner node, received, in that
    /// order.
    Parent(NodeId),
}
