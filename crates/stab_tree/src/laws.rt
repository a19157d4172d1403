//! Laws of trees for the crates above: each is a fact of the definitions in `specs/`.
ghost use Rattle.std.specs.Prelude.{◌≡◌, ℕ, ◌<◌, ◌↔◌, List, length, Option, Some, Ok, Err};
ghost use Rattle.stab_tree.specs.Depth.{EndsAfter, HasDepths};
ghost use Rattle.stab_tree.specs.Describes.{Describes, HasCycle};
ghost use Rattle.stab_tree.specs.IsTree.{IsRooted, IsTree};
ghost use Rattle.stab_tree.specs.Links.{HasLinks};
ghost use Rattle.stab_tree.specs.Nodes.{Nodes, parent_at};
ghost use Rattle.stab_tree.specs.Read.{tree_of};
ghost use Rattle.stab_tree.specs.Steps.{depth_at};
ghost use Rattle.serde_json.specs.Data.{Data};

use crate::fault::TreeFault;

/// Where each parent is a node, a node has a depth exactly if its parent steps end, and the depth
/// is their number.
pub fn depth_is_steps()
    ensures { (parents : List (Option ℕ))
        → ((w p : ℕ) → parent_at parents w ≡ Some p → p < length parents)
        → (w k : ℕ) → w < length parents
        → (depth_at parents w ≡ Some k) ↔ (EndsAfter parents w k) }
{}

/// In a tree of any size the root has depth 0, and each other node one more than its parent.
pub fn trees_have_depths()
    ensures { (parents : List (Option ℕ)) → IsRooted parents → HasDepths parents }
{}

/// In a tree of any size each node but the root has one link, in file order.
pub fn trees_have_links()
    ensures { (parents : List (Option ℕ)) → IsRooted parents → HasLinks parents }
{}

/// A value is read to a tree exactly if it describes that tree.
pub fn trees_are_described()
    ensures { (d : Data) (t : Nodes) → (tree_of d ≡ Ok t) ↔ (Describes d t × IsTree t) }
{}

/// Where a cycle is found, the parent steps of some node never end.
pub fn cycles_never_end()
    ensures { (d : Data) → tree_of d ≡ Err TreeFault.Cycle → HasCycle d }
{}
