use stab_tree::NodeId;

/// The part of a report since a moment that is broken first.
#[derive(Clone, Copy, Debug, PartialEq, Eq)]
pub enum BrokenSince {
    /// The root has another list than the published one.
    Published,
    /// The report has a count of acknowledged items at the root, into which no link leads.
    RootCount,
    /// The report has no count of acknowledged items at this node, which is not the root.
    NoCount(NodeId),
    /// What this node received does not obey the link law of the link into it.
    LinkLaw(NodeId),
    /// The parent of this node ended with its upstream, and the count of this node is not that of
    /// all that its parent had for it and received.
    HandedOn(NodeId),
}
