/// The label of an item. A sender counts its labels modulo the number of labels of its link, but
/// the labels of a start may be any `u16`.
pub type Label = u16;

/// What a publisher sends: the tree carries it, and gives it no meaning.
pub type Item = u32;

/// One message from a sender to a receiver: an item under the sender's label.
#[derive(Clone, Copy, Debug, PartialEq, Eq, Hash)]
pub struct Frame {
    pub label: Label,
    pub item: Item,
}
