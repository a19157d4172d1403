/// Where a delivered item comes from.
#[derive(Clone, Copy, Debug, PartialEq, Eq, Hash)]
pub enum Origin {
    /// A frame of the start, by its place there, 0 being the front.
    Stray(u16),
    /// An item that the sender was offered, by its place in the offered list.
    Sent(u64),
}
