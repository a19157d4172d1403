//! Laws over the definitions alone: the bounds of the tree law cannot be smaller. Each is a
//! function with an empty body; its contract is the law.

ghost use Rattle.std.specs.Prelude.{◌≡◌, ℕ, ◌+◌, ◌-◌, ◌*◌, ◌<◌, Some, length};
ghost use Rattle.stab_convergence.specs.Misses.{Misses};
ghost use Rattle.stab_tree.specs.Nodes.{parent_at};
ghost use Rattle.stab_tree.specs.Steps.{ancestor};
ghost use Rattle.stab_treecore.specs.Network.{IsNetwork, Network};
ghost use Rattle.stab_treecore.specs.NodeLaws.{capacity_into, strays_bound};
ghost use Rattle.stab_treecore.specs.SharperLaw.{fewest_missing, missing_without_strays};

/// The sharper bound is reached at every node but the root, in every tree and with all parameters.
/// At each link of a node's path as many items can be lost as are its `2c + 1` and the `c + 1` of
/// each link above, with `c` strays of this link and of each link below. The bound is the greatest
/// of these sums.
pub fn sharper_bounds_are_reached()
    ensures at_each_link { (net : Network) (steps node child parent : ℕ)
        → IsNetwork net → node < length net.tree.parents
        → ancestor net.tree.parents steps node ≡ Some child
        → parent_at net.tree.parents child ≡ Some parent
        → Misses net node (missing_without_strays net parent + (2 * capacity_into net child + 1))
        (strays_bound net node - strays_bound net parent) }
    ensures at_every_node { (net : Network) (node parent : ℕ)
        → IsNetwork net → parent_at net.tree.parents node ≡ Some parent
        → (strays : ℕ) × Misses net node (fewest_missing net node) strays }
{}
