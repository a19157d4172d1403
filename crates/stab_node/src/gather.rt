ghost use Rattle.std.specs.Prelude.{◌≡◌, ◌<◌, ◌∷◌, [], length, map};
ghost use Rattle.std.specs.Prelude.{IfOk, slice_index_or, slice_set};
ghost use Rattle.stab_tree.specs.Links.{links_of};
ghost use Rattle.stab_node.specs.Scattering.{by_parent, child_counts};

use crate::queue::Queue;
use stab_tree::{NodeId, Tree};
use std::alloc::{AllocError, Global};

/// Takes the first entry of the row of a node.
fn take_from<T: Drop>(rows: &mut Vec<Queue<T>>, node: NodeId) -> T
    requires { 0 < length (slice_index_or rows.old.items node []) }
    ensures entry { slice_index_or rows.old.items node []
        ≡ result ∷ slice_index_or rows.new.items node [] }
    ensures rows { rows.new.items
        ≡ slice_set rows.old.items node (slice_index_or rows.new.items node []) }
{
    rows[node.index()].take().unwrap()
}

/// Gathers by link what each node has of the links to its children, in their file order.
pub fn gather_by_parent<T: Drop>(
    alloc: Global,
    tree: &Tree,
    mut scattered: Vec<Queue<T>>,
) -> Result<Vec<T>, AllocError>
    requires { map length scattered.items ≡ child_counts tree.now.parents }
    ensures links { IfOk result (λ entries.
        length entries.items ≡ length (links_of tree.now.parents)) }
    ensures entries { IfOk result (λ entries.
        by_parent tree.now.parents entries.items ≡ scattered.items) }
{
    let mut entries = Vec::with_capacity(alloc, usize::from(tree.link_count()))?;
    'nodes: for node in 0..tree.len() {
        match tree.parent(NodeId::new(node)) {
            None => {}
            Some(parent) => entries.push_reserved(take_from(&mut scattered, parent)),
        }
    }
    Ok(entries)
}
