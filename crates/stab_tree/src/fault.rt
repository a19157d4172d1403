ghost use Rattle.std.specs.Prelude.{◌≡◌};

use std::alloc::{AllocError, AllocFailed};
use thiserror::Error;

/// Why a value is no tree. Each check is made over the whole list before the next, in this order;
/// `Memory` may come in place of a refusal that would be found later.
#[derive(Clone, Copy, Debug, PartialEq, Eq, Error)]
pub enum TreeFault {
    /// The value is not a list of objects, each with a text `name` and a `parent` that is absent,
    /// null or a text.
    #[error("tree: wrong shape")]
    Shape,
    /// The list has more than 64 nodes.
    #[error("tree: too many nodes")]
    TooManyNodes,
    /// A name is not 1 to 32 bytes of a-z, 0-9, `_` and `-`.
    #[error("tree: bad name")]
    BadName,
    /// Two nodes have one name.
    #[error("tree: same name twice")]
    SameName,
    /// A parent is the name of no node.
    #[error("tree: unknown parent")]
    UnknownParent,
    /// Each node has a parent, or the list is empty.
    #[error("tree: no root")]
    NoRoot,
    /// Two nodes or more have no parent.
    #[error("tree: two roots")]
    TwoRoots,
    /// The parent steps of some node never end.
    #[error("tree: cycle")]
    Cycle,
    /// Memory was refused.
    #[error("out of memory")]
    Memory,
}

impl From<AllocError> for TreeFault {
    ghost use Rattle.std.specs.Prelude.{◌≡◌};
    ghost use Rattle.stab_tree.specs.declared.fault.TreeFault.TheVariants.{Memory};

    ghost from_gives = { λ _ fault. fault ≡ Memory };

    fn from(_error: AllocError) -> TreeFault {
        TreeFault::Memory
    }
}

impl<T: Drop> From<AllocFailed<T>> for TreeFault {
    ghost use Rattle.std.specs.Prelude.{◌≡◌};
    ghost use Rattle.stab_tree.specs.declared.fault.TreeFault.TheVariants.{Memory};

    ghost from_gives = { λ _ fault. fault ≡ Memory };

    fn from(error: AllocFailed<T>) -> TreeFault {
        TreeFault::from(AllocError::from(error))
    }
}
