ghost use Rattle.std.specs.Prelude.{◌≡◌, ◌<◌, length};
ghost use Rattle.stab_node.specs.InitialItems.{initial_at};

use stab_frames::Item;
use stab_tree::{NodeId, Openings};

/// What a node begins with: the published items at the root, and its opening elsewhere.
pub(crate) fn first_items<'e>(
    root: u16,
    published: &'e [Item],
    openings: &'e Openings,
    node: u16,
) -> &'e [Item]
    requires { node < length openings.now.lists }
    ensures { result.now ≡ initial_at root published.now openings.now.lists node }
{
    if node == root {
        published
    } else {
        openings.list(NodeId::new(node))
    }
}
