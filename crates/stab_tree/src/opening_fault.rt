use thiserror::Error;

/// Why lists of items are no openings of a tree, in the order of the checks. No check takes memory.
#[derive(Clone, Copy, Debug, PartialEq, Eq, Error)]
pub enum OpeningFault {
    /// An opening could have more than 64 items.
    #[error("job: h out of range")]
    HoldOutOfRange,
    /// There is not one list for each node.
    #[error("job: wrong number of openings")]
    OpeningCount,
    /// A list at the root or at a leaf has an item.
    #[error("job: opening at the root or a leaf")]
    OpeningPlace,
    /// A list has more items than an opening may have.
    #[error("job: opening too long")]
    OpeningTooLong,
}
