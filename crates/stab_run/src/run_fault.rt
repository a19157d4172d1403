use stab_core::StartFault;
use stab_lock::SettleFault;
use stab_node::{NodeFault, WorkersFault};
use stab_tree::NodeId;
use std::alloc::AllocError;
use thiserror::Error;

/// Why a run of workers gives no report. Where several faults occur, the first of this order is
/// answered, and of like faults the one of the first node in file order.
#[derive(Clone, Copy, Debug, PartialEq, Eq, Error)]
pub enum RunFault {
    /// The links are to be words, and the capacity is not one.
    #[error("run: capacity is not one")]
    CapacityNotOne,
    /// The link into this node cannot begin from its start.
    #[error("{1}")]
    Start(NodeId, StartFault),
    /// The worker of this node could not be started.
    #[error("run: a worker could not be started")]
    Thread(NodeId),
    /// The worker of this node gave up.
    #[error("{1}")]
    Node(NodeId, NodeFault),
    /// The accounts of the two ends of the link into this node do not agree with the link.
    #[error("{1}")]
    Settle(NodeId, SettleFault),
    /// Memory was refused.
    #[error("out of memory")]
    Memory,
}

impl From<AllocError> for RunFault {
    ghost use Rattle.std.specs.Prelude.{◌≡◌};
    ghost use Rattle.stab_run.specs.declared.run_fault.RunFault.TheVariants.{Memory};

    ghost from_gives = { λ _ fault. fault ≡ Memory };

    fn from(_refused: AllocError) -> RunFault {
        RunFault::Memory
    }
}

impl From<WorkersFault> for RunFault {
    ghost use Rattle.std.specs.Prelude.{◌≡◌};
    ghost use Rattle.stab_run.specs.RunFaults.{of_workers};

    ghost from_gives = { λ refusal fault. fault ≡ of_workers refusal };

    fn from(refusal: WorkersFault) -> RunFault {
        match refusal {
            WorkersFault::Thread(node) => RunFault::Thread(NodeId::new(node)),
            WorkersFault::Node(node, fault) => RunFault::Node(NodeId::new(node), fault),
            WorkersFault::Memory => RunFault::Memory,
        }
    }
}
