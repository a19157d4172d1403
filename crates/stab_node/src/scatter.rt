ghost use Rattle.std.specs.Prelude.{◌≡◌, ◌<◌, ◌+◌, ◌∷◌, IfOk, drop, length, map};
ghost use Rattle.std.specs.List.{range_with_len};
ghost use Rattle.stab_tree.specs.ByChild.{by_child};
ghost use Rattle.stab_node.specs.Scattering.{by_parent};

use crate::by_parent::scatter_by_parent;
use crate::queue::Queue;
use crate::worker_ends::WorkerEnds;
use stab_tree::{NodeId, Tree};
use std::alloc::{AllocError, Global};

/// Takes, for a node, what belongs to the link into it: the first of what is left, and nothing for
/// the root.
#[tactic(auto, using(crate::proofs::Taken::root_takes_nothing, crate::proofs::Taken::child_takes_the_first))]
fn take_into<T: Drop>(tree: &Tree, node: NodeId, left: &mut Queue<T>) -> Option<T>
    requires { node < length tree.now.parents }
    ensures { by_child (drop node tree.now.parents) left.old
        ≡ result ∷ by_child (drop (node + 1) tree.now.parents) left.new }
{
    match tree.parent(node) {
        None => None,
        Some(_) => left.take(),
    }
}

/// The ends of the next node: of the upper ends that of the link into it, and the first of the
/// lists of lower ends.
fn next_worker<U: Drop, D: Drop>(
    tree: &Tree,
    node: u16,
    ups: &mut Queue<U>,
    downs: &mut Queue<Queue<D>>,
) -> WorkerEnds<U, D>
    requires node { node < length tree.now.parents }
    requires downs { 0 < length downs.old }
    ensures node { result.node ≡ node }
    ensures up { by_child (drop node tree.now.parents) ups.old
        ≡ result.up ∷ by_child (drop (node + 1) tree.now.parents) ups.new }
    ensures downs { downs.old ≡ result.downs.items ∷ downs.new }
{
    WorkerEnds {
        node,
        up: take_into(tree, NodeId::new(node), ups),
        downs: downs.take().unwrap().into_vec(),
    }
}

/// Scatters the two ends of each link to its two nodes: the receiving end to the child, and the
/// sending end to the parent.
pub(crate) fn scatter<U: Drop, D: Drop>(
    alloc: Global,
    tree: &Tree,
    sends: Vec<D>,
    recvs: Vec<U>,
) -> Result<Vec<WorkerEnds<U, D>>, AllocError>
    ensures nodes { IfOk result (λ workers.
        map (λ s. s.node) workers.items ≡ range_with_len 0 (length tree.now.parents)) }
    ensures ups { IfOk result (λ workers.
        map (λ s. s.up) workers.items ≡ by_child tree.now.parents recvs.items) }
    ensures downs { IfOk result (λ workers.
        map (λ s. s.downs.items) workers.items ≡ by_parent tree.now.parents sends.items) }
{
    let mut workers = Vec::with_capacity(alloc, usize::from(tree.len()))?;
    let mut ups = Queue::from_vec(recvs);
    let mut downs = Queue::from_vec(scatter_by_parent(alloc, tree, sends)?);
    'nodes: for node in 0..tree.len() {
        workers.push_reserved(next_worker(tree, node, &mut ups, &mut downs));
    }
    Ok(workers)
}
