//! Laws over the definitions alone: a function whose contract is the law.

ghost use Rattle.std.specs.Prelude.{◌≡◌, ℕ, ◌+◌, ◌≤◌, List, [], ◌∷◌, ◌++◌, length, Some};
ghost use Rattle.stab_convergence.specs.AtRest.{HasNoFault, IsAtRest};
ghost use Rattle.stab_tree.specs.Nodes.{Nodes, parent_at, root_of};
ghost use Rattle.stab_tree.specs.Steps.{Reaches};
ghost use Rattle.stab_treecore.specs.declared.change.Change.{Change};
ghost use Rattle.stab_treecore.specs.declared.change.Change.TheVariants.{Restart};
ghost use Rattle.stab_treecore.specs.Changes.{changes_replay};
ghost use Rattle.stab_treecore.specs.Network.{Network};
ghost use Rattle.stab_treecore.specs.NodeLaws.{capacity_into};
ghost use Rattle.stab_treecore.specs.Since.{IsState, capacity_at, gained, queued_at};
ghost use Rattle.stab_treecore.specs.TreeLaw.{TreeLaw};
ghost use Rattle.stab_treecore.specs.WholeTree.{WholeTree, received};
ghost use Rattle.rignolda_verdict.specs.Costs.{greatest_below, missing_of};

/// What the line of a node says of its restart, for all that is beneath it, is no less than what the
/// law of a fault in a tree at rest says of any node there: the line goes by the widest link to a
/// child, and the law by the one that leads to the node.
pub fn a_restart_costs_no_more_than_its_line_says()
    ensures widest { (net : Network) (w child : ℕ) → parent_at net.tree.parents child ≡ Some w
        → capacity_into net child ≤ greatest_below net w }
    ensures beneath { (net : Network) (s : WholeTree) (before after : List Change)
        (w parent child node : ℕ) (list : List ℕ)
        → IsState net.tree s → HasNoFault before → HasNoFault after
        → IsAtRest s (changes_replay s before)
        → parent_at s.parents w ≡ Some parent
        → parent_at s.parents child ≡ Some w → Reaches s.parents node child
        → let m = changes_replay s (before ++ Restart w list ∷ []) in
        let t = changes_replay m after in
        IsState net.tree (changes_replay s before) → IsState net.tree m
        → ((v : ℕ) → capacity_at m v ≡ capacity_into net v)
        → TreeLaw (greatest_below net w + length (received m w) + capacity_into net w)
        (missing_of (greatest_below net w) + missing_of (capacity_into net w))
        (queued_at m child ++ (received m w ++ queued_at m w))
        (gained m t (root_of m.parents)) (gained m t node) }
    ensures list { (net : Network) (s : WholeTree) (before after : List Change)
        (w child node : ℕ) (list : List ℕ)
        → IsState net.tree s → HasNoFault before → HasNoFault after
        → IsAtRest s (changes_replay s before)
        → parent_at s.parents child ≡ Some w → Reaches s.parents node child
        → let m = changes_replay s (before ++ Restart w list ∷ []) in
        let t = changes_replay m after in
        IsState net.tree (changes_replay s before) → IsState net.tree m
        → ((v : ℕ) → capacity_at m v ≡ capacity_into net v)
        → TreeLaw (greatest_below net w) (missing_of (greatest_below net w)) (queued_at m child)
        (received m w ++ gained m t w) (gained m t node) }
{
    stab_convergence::laws::one_fault_in_a_tree_at_rest();
}
