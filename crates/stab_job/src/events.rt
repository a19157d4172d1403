ghost use Rattle.std.specs.Prelude.{◌≡◌, ◌<◌, length, map, All, IfOk};
ghost use Rattle.stab_job.specs.Steps.{event_over};

use stab_frames::Sequence;
use stab_tree::NodeId;
use stab_treecore::TreeEvent;
use std::alloc::{AllocError, Global};

/// The events of these steps over the nodes that have the names of their table.
pub(crate) fn events_over(
    alloc: Global,
    nodes: &[NodeId],
    steps: &[TreeEvent],
) -> Result<Sequence<TreeEvent>, AllocError>
    requires { All (λ step. step.child < length nodes.now) steps.now }
    ensures { IfOk result (λ events. events ≡ map (event_over nodes.now) steps.now) }
{
    let mut events = Sequence::with_capacity(alloc, steps.len())?;
    'each: for step in steps {
        events.push(TreeEvent {
            child: nodes[step.child.index()],
            act: step.act,
        })?;
    }
    Ok(events)
}
