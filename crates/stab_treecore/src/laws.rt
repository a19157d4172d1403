//! Laws over the definitions alone: they name no tree, link or list of the code, so that every
//! layer above may use them for whatever runs the same steps. Each is a function with an empty
//! body; its contract is the law.

ghost use mathlib.Core.List.{IsPrefix};
ghost use Rattle.std.specs.Prelude.{◌≡◌, ℕ, ◌+◌, ◌*◌, ◌<◌, ◌≤◌, List, [], ◌++◌, length, Some, All};
ghost use Rattle.std.specs.Prelude.{max};
ghost use Rattle.stab_core.specs.declared.start.Start.{Start};
ghost use Rattle.stab_core.specs.LinkLaw.{HalfLaw, LinkLaw, SharperLinkLaw};
ghost use Rattle.stab_core.specs.Replay.{IsLawful, start_items};
ghost use Rattle.stab_frames.specs.Parameters.{AreLawful, Parameters};
ghost use Rattle.stab_tree.specs.IsTree.{IsRooted};
ghost use Rattle.stab_tree.specs.Nodes.{parent_at, root_of};
ghost use Rattle.stab_tree.specs.Steps.{ancestor, depth_of};
ghost use Rattle.stab_treecore.specs.declared.event.TreeEvent.{TreeEvent};
ghost use Rattle.stab_treecore.specs.EdgeLaw.{EdgeLaw, EdgeInto};
ghost use Rattle.stab_treecore.specs.Network.{IsNetwork, Network};
ghost use Rattle.stab_treecore.specs.NodeLaws.{garbage_into, path_garbage, strays_bound};
ghost use Rattle.stab_treecore.specs.NodeLaws.{most_strays, most_missing};
ghost use Rattle.stab_treecore.specs.NodeLaws.{LawInto, LinkLawBetween, LinkLawInto};
ghost use Rattle.stab_treecore.specs.NodeLaws.{HalfTreeLawAtNodes, TreeLawAtNode};
ghost use Rattle.stab_treecore.specs.NodeLaws.{TreeLawAtNodes};
ghost use Rattle.stab_tree.specs.NodeOpenings.{FitTree};
ghost use Rattle.stab_treecore.specs.Paths.{path_lists};
ghost use Rattle.stab_treecore.specs.SharperLaw.{SharperTreeLaw, SharperTreeLawAtNode};
ghost use Rattle.stab_treecore.specs.SharperLaw.{SharperTreeLawAtNodes, fewest_missing};
ghost use Rattle.stab_treecore.specs.SharperLaw.{missing_without_strays};
ghost use Rattle.stab_treecore.specs.Refusals.{OnePerLink};
ghost use Rattle.stab_treecore.specs.TreeLaw.{HalfTreeLaw, TreeLaw, CompleteLaw};
ghost use Rattle.stab_treecore.specs.TreeReplay.{initial_tree, tree_replay};
ghost use Rattle.stab_treecore.specs.WholeTree.{received};

/// The root has each published item and no stray.
pub fn root_obeys_the_tree_law()
    ensures { (published : List ℕ) → TreeLaw 0 0 [] published published }
{}

/// From the half law on a link and the half tree law at the parent to the half tree law at the
/// child: the link's offered list is a prefix of what the parent received.
pub fn half_tree_law_of_the_child()
    ensures { (capacity most_strays acked : ℕ)
        (start_items garbage published received offered delivered : List ℕ)
        → IsPrefix offered received
        → HalfTreeLaw most_strays garbage published received
        → HalfLaw capacity start_items offered acked delivered
        → HalfTreeLaw (most_strays + capacity) (start_items ++ garbage) published delivered }
{}

/// From the link law on a link and the tree law at the parent to the tree law at the child: the
/// link's offered list is a prefix of what the parent received.
pub fn tree_law_of_the_child()
    ensures { (capacity most_strays most_missing acked : ℕ)
        (start_items garbage published received offered delivered : List ℕ)
        → IsPrefix offered received
        → TreeLaw most_strays most_missing garbage published received
        → LinkLaw capacity start_items offered acked delivered
        → TreeLaw (most_strays + capacity) (most_missing + (2 * capacity + 1))
        (start_items ++ garbage) published delivered }
{}

/// The root has each published item, so none is missing.
pub fn root_obeys_the_complete_law()
    ensures { (published : List ℕ) → CompleteLaw 0 0 [] published published }
{}

/// From the link law on a link and the complete law at the parent to the complete law at the child,
/// where as many items are acknowledged as the parent received.
pub fn complete_law_of_the_child()
    ensures { (capacity most_strays most_missing acked : ℕ)
        (start_items garbage published received offered delivered : List ℕ)
        → IsPrefix offered received
        → acked ≡ length received
        → CompleteLaw most_strays most_missing garbage published received
        → LinkLaw capacity start_items offered acked delivered
        → CompleteLaw (most_strays + capacity) (most_missing + (2 * capacity + 1))
        (start_items ++ garbage) published delivered }
{}

/// The same step, where the child's list begins with an opening: strays that nobody published.
/// They are garbage of the child's, and as many more strays; no more items may be missing.
pub fn tree_law_of_the_child_past_its_opening()
    ensures { (capacity most_strays most_missing acked : ℕ)
        (opening start_items garbage published received offered delivered : List ℕ)
        → IsPrefix offered received
        → TreeLaw most_strays most_missing garbage published received
        → LinkLaw capacity start_items offered acked delivered
        → TreeLaw (most_strays + capacity + length opening) (most_missing + (2 * capacity + 1))
        (opening ++ (start_items ++ garbage)) published (opening ++ delivered) }
{}

/// An opening alone: the law of a list is that of the same list after an opening, with as many more
/// strays.
pub fn tree_law_past_an_opening()
    ensures tree_law { (most_strays most_missing : ℕ) (opening garbage published received : List ℕ)
        → TreeLaw most_strays most_missing garbage published received
        → TreeLaw (most_strays + length opening) most_missing
        (opening ++ garbage) published (opening ++ received) }
    ensures half_tree_law { (most_strays : ℕ) (opening garbage published received : List ℕ)
        → HalfTreeLaw most_strays garbage published received
        → HalfTreeLaw (most_strays + length opening)
        (opening ++ garbage) published (opening ++ received) }
    ensures complete_law { (most_strays most_missing : ℕ)
        (opening garbage published received : List ℕ)
        → CompleteLaw most_strays most_missing garbage published received
        → CompleteLaw (most_strays + length opening) most_missing
        (opening ++ garbage) published (opening ++ received) }
{}

/// The tree law at every node, whatever ran the links: the root has the published items, and from
/// each parent to its child there is a link that obeys the link law. The bounds of a node are sums
/// along its path.
pub fn tree_law_at_every_node()
    ensures { (net : Network) (received : ℕ → List ℕ)
        → IsRooted net.tree.parents → FitTree net.tree.parents net.openings
        → received (root_of net.tree.parents) ≡ net.published
        → ((child parent : ℕ) → parent_at net.tree.parents child ≡ Some parent
        → LinkLawInto net child (received parent) (received child))
        → TreeLawAtNodes net received }
{}

/// The tree law at one node, and the sharper one, where the links on its path alone are known to
/// obey the link law.
pub fn tree_law_along_a_path()
    ensures tree_law { (net : Network) (received : ℕ → List ℕ) (node : ℕ)
        → IsRooted net.tree.parents → FitTree net.tree.parents net.openings
        → received (root_of net.tree.parents) ≡ net.published
        → node < length net.tree.parents
        → ((steps child parent : ℕ) → ancestor net.tree.parents steps node ≡ Some child
        → parent_at net.tree.parents child ≡ Some parent
        → LinkLawInto net child (received parent) (received child))
        → TreeLawAtNode net received node }
    ensures sharper { (net : Network) (received : ℕ → List ℕ) (node : ℕ)
        → IsRooted net.tree.parents → FitTree net.tree.parents net.openings
        → received (root_of net.tree.parents) ≡ net.published
        → node < length net.tree.parents
        → ((steps child parent : ℕ) → ancestor net.tree.parents steps node ≡ Some child
        → parent_at net.tree.parents child ≡ Some parent
        → LawInto SharperLinkLaw net child (received parent) (received child))
        → SharperTreeLawAtNode net received node }
{}

/// From the edge law that a run tells of a link to the link law: between the parent's list and what
/// the link delivered, and between the lists of the two nodes, of which the child's begins with its
/// opening.
pub fn link_law_of_an_edge()
    ensures delivered { (p : Parameters) (start : Start) (above : List ℕ) (acked : ℕ)
        (delivered : List ℕ)
        → AreLawful p → IsLawful p start
        → EdgeLaw p start above acked delivered
        → LinkLawBetween p.capacity (start_items start) above delivered }
    ensures past_opening { (net : Network) (child : ℕ) (above below : List ℕ)
        → EdgeInto net child above below
        → LinkLawInto net child above below }
{
    stab_core::laws::every_replay_obeys_the_link_law();
}

/// The tree law at every node, where a run keeps no schedule but tells the edge law of each link.
pub fn tree_law_of_edges()
    ensures { (net : Network) (received : ℕ → List ℕ)
        → IsRooted net.tree.parents → FitTree net.tree.parents net.openings
        → received (root_of net.tree.parents) ≡ net.published
        → ((child parent : ℕ) → parent_at net.tree.parents child ≡ Some parent
        → EdgeInto net child (received parent) (received child))
        → TreeLawAtNodes net received }
{
    stab_core::laws::every_replay_obeys_the_link_law();
}

/// The step of the sharper law, which counts strays: a link adds `c + 1` to what its child can miss
/// without strays, and one for each stray in the child's list. At any rate it adds at most `2c + 1`
/// to what the parent can miss without strays.
pub fn sharper_tree_law_of_the_child()
    ensures { (capacity most_strays without_strays most_missing acked : ℕ)
        (start_items garbage published received offered delivered : List ℕ)
        → IsPrefix offered received
        → SharperTreeLaw most_strays without_strays most_missing garbage published received
        → SharperLinkLaw capacity start_items offered acked delivered
        → SharperTreeLaw (most_strays + capacity) (without_strays + (capacity + 1))
        (max most_missing (without_strays + (2 * capacity + 1)))
        (start_items ++ garbage) published delivered }
{}

/// The sharper tree law at every node, where a run keeps no schedule but tells the edge law of each
/// link.
pub fn sharper_tree_law_of_edges()
    ensures { (net : Network) (received : ℕ → List ℕ)
        → IsRooted net.tree.parents → FitTree net.tree.parents net.openings
        → received (root_of net.tree.parents) ≡ net.published
        → ((child parent : ℕ) → parent_at net.tree.parents child ≡ Some parent
        → EdgeInto net child (received parent) (received child))
        → SharperTreeLawAtNodes net received }
{
    stab_core::laws::every_replay_obeys_the_sharper_link_law();
}

/// The sharper tree law at every node, after every schedule.
pub fn every_schedule_obeys_the_sharper_tree_law()
    ensures { (net : Network) (events : List TreeEvent)
        → IsNetwork net
        → SharperTreeLawAtNodes net (received (tree_replay (initial_tree net) events)) }
{
    stab_core::laws::reachable_steps();
    stab_core::laws::every_replay_obeys_the_sharper_link_law();
}

/// The sharper bounds are no larger than M, the sum of `2c + 1`: without strays it is less by C,
/// the sum of `c`.
pub fn sharper_bounds_are_smaller()
    ensures without_strays { (net : Network) (node : ℕ)
        → missing_without_strays net node + strays_bound net node ≡ most_missing net node }
    ensures at_any_rate { (net : Network) (node : ℕ)
        → fewest_missing net node ≤ most_missing net node }
    ensures of_one_capacity { (net : Network) (capacity node : ℕ)
        → IsRooted net.tree.parents → OnePerLink net.tree.parents net.links
        → All (λ link. link.params.capacity ≡ capacity) net.links
        → node < length net.tree.parents → 1 ≤ depth_of net.tree.parents node
        → fewest_missing net node ≡ depth_of net.tree.parents node * (capacity + 1) + capacity }
{}

/// Where all links have one capacity, the bounds of a node at depth d are d times those of one
/// link.
pub fn bounds_of_one_capacity()
    ensures strays { (net : Network) (capacity node : ℕ)
        → IsRooted net.tree.parents → OnePerLink net.tree.parents net.links
        → All (λ link. link.params.capacity ≡ capacity) net.links
        → node < length net.tree.parents
        → strays_bound net node ≡ depth_of net.tree.parents node * capacity }
    ensures missing { (net : Network) (capacity node : ℕ)
        → IsRooted net.tree.parents → OnePerLink net.tree.parents net.links
        → All (λ link. link.params.capacity ≡ capacity) net.links
        → node < length net.tree.parents
        → most_missing net node ≡ depth_of net.tree.parents node * (2 * capacity + 1) }
{}

/// Where no node may hold anything, all strays come of the links, and all garbage is theirs.
pub fn bounds_without_openings()
    ensures strays { (net : Network) (node : ℕ)
        → net.openings.hold ≡ 0
        → most_strays net node ≡ strays_bound net node }
    ensures garbage { (net : Network) (node : ℕ)
        → FitTree net.tree.parents net.openings → net.openings.hold ≡ 0
        → path_garbage net node ≡ path_lists net.tree.parents (garbage_into net) node }
{}

/// Larger bounds hold where smaller ones do.
pub fn laws_of_larger_bounds()
    ensures tree_law { (few most_strays first most_missing : ℕ)
        (garbage published received : List ℕ)
        → few ≤ most_strays → first ≤ most_missing
        → TreeLaw few first garbage published received
        → TreeLaw most_strays most_missing garbage published received }
    ensures complete { (few most_strays first most_missing : ℕ)
        (garbage published received : List ℕ)
        → few ≤ most_strays → first ≤ most_missing
        → CompleteLaw few first garbage published received
        → CompleteLaw most_strays most_missing garbage published received }
{}

/// Where the tree law holds at every node, so does the half tree law.
pub fn half_tree_law_at_every_node()
    ensures { (net : Network) (received : ℕ → List ℕ)
        → TreeLawAtNodes net received → HalfTreeLawAtNodes net received }
{}

/// Whatever the links hold at their lawful starts and the inner nodes at theirs, and whatever the
/// schedule, each node obeys the tree law.
pub fn every_schedule_obeys_the_tree_law()
    ensures { (net : Network) (events : List TreeEvent)
        → IsNetwork net
        → TreeLawAtNodes net (received (tree_replay (initial_tree net) events)) }
{
    stab_core::laws::reachable_steps();
    stab_core::laws::every_replay_obeys_the_link_law();
}
