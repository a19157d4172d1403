ghost use Rattle.std.specs.Prelude.{◌≡◌, ◌<◌, [], ◌∷◌, ◌++◌, length, replicate};
ghost use Rattle.std.specs.Prelude.{IfOk, OnOk, slice_index_or, slice_set};
ghost use Rattle.stab_node.specs.Scattering.{by_parent};

use crate::queue::Queue;
use stab_tree::{NodeId, Tree};
use std::alloc::{AllocError, Global};

/// That many empty rows.
fn empty_rows<T: Drop>(alloc: Global, count: usize) -> Result<Vec<Queue<T>>, AllocError>
    ensures { IfOk result (λ rows. rows.items ≡ replicate count []) }
{
    let mut rows = Vec::with_capacity(alloc, count)?;
    'rows: for _ in 0..count {
        rows.push_reserved(Queue::new(alloc));
    }
    Ok(rows)
}

/// Adds an entry to the row of a node.
fn add_to<T: Drop>(rows: &mut Vec<Queue<T>>, node: NodeId, entry: T) -> Result<(), AllocError>
    requires { node < length rows.old.items }
    ensures { OnOk result (rows.new.items ≡ slice_set rows.old.items node
        (slice_index_or rows.old.items node [] ++ entry ∷ [])) }
{
    rows[node.index()].push(entry)
}

/// Scatters what there is one of per link: to each node what belongs to the links to its children.
#[tactic(auto, using(crate::proofs::Scattered::rows_empty))]
pub fn scatter_by_parent<T: Drop>(
    alloc: Global,
    tree: &Tree,
    entries: Vec<T>,
) -> Result<Vec<Queue<T>>, AllocError>
    ensures { IfOk result (λ scattered.
        scattered.items ≡ by_parent tree.now.parents entries.items) }
{
    let mut scattered = empty_rows(alloc, usize::from(tree.len()))?;
    let mut left = Queue::from_vec(entries);
    'nodes: for node in 0..tree.len() {
        match tree.parent(NodeId::new(node)) {
            None => {}
            Some(parent) => match left.take() {
                None => {}
                Some(entry) => add_to(&mut scattered, parent, entry)?,
            },
        }
    }
    Ok(scattered)
}
