use stab_frames::Item;

/// Why a worker made no further turn.
#[derive(Clone, Copy, Debug, PartialEq, Eq, Hash)]
pub enum Ended {
    /// Its upstream ended, and each lower end has all that the node received acknowledged.
    Upstream,
    /// Its turns are over.
    Turns,
}

/// What a worker answers: what its node received, and its ends, finished.
#[derive(Debug, Drop)]
pub struct NodeAccount<A, B> {
    /// The items of the node, in the order in which it had them: what it began with, and then,
    /// below the root, what its upper end delivered, strays included.
    pub received: Vec<Item>,
    /// The finished upper end; the root has none.
    pub up: Option<A>,
    /// The finished lower ends, in the order in which they were given.
    pub downs: Vec<B>,
    /// Why the worker made no further turn.
    pub ended: Ended,
}
