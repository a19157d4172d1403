use crate::fault::NodeFault;
use std::alloc::AllocError;
use thiserror::Error;

/// Why the workers of a tree gave up. Where several faults occur, the first of this order is
/// answered, and of the faults of nodes the one that is first in file order.
#[derive(Clone, Copy, Debug, PartialEq, Eq, Hash, Error)]
pub enum WorkersFault {
    /// The worker of this node could not be started.
    #[error("run: a worker could not be started")]
    Thread(u16),
    /// The worker of this node gave up.
    #[error("{1}")]
    Node(u16, NodeFault),
    /// Memory was refused.
    #[error("out of memory")]
    Memory,
}

impl From<AllocError> for WorkersFault {
    ghost use Rattle.std.specs.Prelude.{◌≡◌};
    ghost use Rattle.stab_node.specs.declared.workers_fault.WorkersFault.TheVariants.{Memory};

    ghost from_gives = { λ _ fault. fault ≡ Memory };

    fn from(_error: AllocError) -> WorkersFault {
        WorkersFault::Memory
    }
}
