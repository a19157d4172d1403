use std::alloc::AllocError;
use thiserror::Error;

/// Why a worker gave up.
#[derive(Clone, Copy, Debug, PartialEq, Eq, Hash, Error)]
pub enum NodeFault {
    /// The gate refused a turn.
    #[error("run: a gate refused")]
    Gate,
    /// Memory was refused.
    #[error("out of memory")]
    Memory,
}

impl From<AllocError> for NodeFault {
    ghost use Rattle.std.specs.Prelude.{◌≡◌};
    ghost use Rattle.stab_node.specs.declared.fault.NodeFault.TheVariants.{Memory};

    ghost from_gives = { λ _ fault. fault ≡ Memory };

    fn from(_error: AllocError) -> NodeFault {
        NodeFault::Memory
    }
}
