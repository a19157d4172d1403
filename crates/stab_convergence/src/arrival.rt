ghost use Rattle.std.specs.Prelude.{◌≡◌, ◌≤◌, ◌+◌, ◌*◌, ℕ, length, map, All, Some};
ghost use Rattle.stab_convergence.specs.Arrival.{arrival_reading_rounds, arrival_rounds};
ghost use Rattle.stab_convergence.specs.Greatest.{greatest};
ghost use Rattle.stab_frames.specs.Parameters.{Parameters};
ghost use Rattle.stab_judge.specs.NodeBounds.{AreBoundsAt};
ghost use Rattle.stab_tree.specs.Nodes.{parent_at};
ghost use Rattle.stab_treecore.specs.Network.{Network};

use stab_frames::Params;
use stab_judge::Bounds;

/// How many items a node of these bounds can have, where `published` items are published, and one
/// more: they are published ones or strays.
fn most_items(bounds: Bounds, published: u32) -> u64
    requires few { bounds.link_strays + bounds.opening_strays ≤ 131070 * bounds.depth }
    ensures { result ≡ published + (bounds.link_strays + bounds.opening_strays) + 1 }
{
    u64::from(published) + (bounds.link_strays + bounds.opening_strays) + 1
}

/// After how many rounds of its path from the start on a node has all that it will ever have: its
/// parent has these bounds, `published` items are published, and no link of the path has a larger
/// capacity than this one. The root has everything at once.
pub fn arrival_rounds(parent: Bounds, published: u32, capacity: u16) -> u64
    requires few { parent.link_strays + parent.opening_strays ≤ 131070 * parent.depth }
    ensures { (net : Network) (node above : ℕ) → parent_at net.tree.parents node ≡ Some above
        → AreBoundsAt net above parent → length net.published ≡ published
        → result ≡ arrival_rounds net capacity node }
{
    (2 * u64::from(capacity) + 1) * most_items(parent, published) + u64::from(parent.depth)
}

/// After how many reading rounds of its path from the start on a node has all that it will ever
/// have: its parent has these bounds, and `published` items are published. The root has everything
/// at once.
pub fn arrival_reading_rounds(parent: Bounds, published: u32) -> u64
    requires few { parent.link_strays + parent.opening_strays ≤ 131070 * parent.depth }
    ensures rounds { (net : Network) (node above : ℕ) → parent_at net.tree.parents node ≡ Some above
        → AreBoundsAt net above parent → length net.published ≡ published
        → result ≡ arrival_reading_rounds net node }
    ensures one_each { published ≤ result }
{
    most_items(parent, published) + u64::from(parent.depth)
}

/// The largest capacity of these links, and 0 where there are none.
pub fn largest_capacity(params: &[Params]) -> u16
    ensures greatest { result ≡ greatest (map (λ (p : Parameters). p.capacity) params.now) }
    ensures none_larger { All (λ (p : Parameters). p.capacity ≤ result) params.now }
{
    let mut largest = 0;
    for own in params {
        if own.capacity() > largest {
            largest = own.capacity();
        }
    }
    largest
}
