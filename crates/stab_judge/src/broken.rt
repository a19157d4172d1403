use stab_tree::NodeId;

/// The part of a report that is broken, by what is looked at first: of all nodes that there is one
/// entry for each; then the nodes in file order, and of one node its parts in this order.
#[derive(Clone, Copy, Debug, PartialEq, Eq)]
pub enum Broken {
    /// Some list of the report has more or fewer entries than the tree has nodes.
    Entries,
    /// The root has another list than the published one.
    Published,
    /// The report has a count of acknowledged items at the root, into which no link leads.
    RootCount,
    /// The report has no count of acknowledged items at this node, which is not the root.
    NoCount(NodeId),
    /// The list of this node does not begin with its opening.
    Opening(NodeId),
    /// What is after the opening of this node does not obey the link law of the link into it.
    LinkLaw(NodeId),
    /// The parent of this node ended with its upstream, and the count of this node is not the
    /// length of the parent's list.
    HandedOn(NodeId),
}
