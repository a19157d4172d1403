//! Laws of trees that are hit by faults in the middle of a run. Each is a function with an empty
//! body; its contract is the law.

ghost use Rattle.std.specs.Prelude.{◌≡◌, ℕ, ◌+◌, ◌-◌, ◌*◌, ◌<◌, ◌≤◌, List, ◌++◌, length, Some};
ghost use Rattle.stab_treecore.specs.declared.change.Change.{Change};
ghost use Rattle.stab_treecore.specs.Changes.{Fit, changes_replay};
ghost use Rattle.stab_treecore.specs.EdgeSince.{EdgesSince};
ghost use Rattle.stab_treecore.specs.Hits.{Spare, SpareLink};
ghost use Rattle.stab_treecore.specs.Moment.{FollowsSince, Moment, old_backlog};
ghost use Rattle.stab_treecore.specs.Moment.{LawSince, SharperLawSince, fewest_since};
ghost use Rattle.stab_treecore.specs.Moment.{strays_since, missing_since, garbage_since};
ghost use Rattle.stab_treecore.specs.Moment.{published_since};
ghost use Rattle.stab_treecore.specs.Since.{IsFedAt, IsState, PassesList, backlog, gained, moment};
ghost use Rattle.stab_treecore.specs.Since.{acked_at, capacity_at, queued_at};
ghost use Rattle.stab_tree.specs.IsTree.{IsRooted};
ghost use Rattle.stab_tree.specs.Nodes.{Nodes, parent_at};
ghost use Rattle.stab_tree.specs.Steps.{ancestor};
ghost use Rattle.stab_treecore.specs.Network.{IsNetwork, Network};
ghost use Rattle.stab_core.specs.LinkLaw.{SharperLinkLaw};
ghost use Rattle.stab_treecore.specs.NodeLaws.{LawBetween, LinkLawBetween};
ghost use Rattle.stab_treecore.specs.NodeLaws.{most_missing, most_strays};
ghost use Rattle.stab_treecore.specs.NodeLaws.{path_garbage};
ghost use Rattle.stab_treecore.specs.Paths.{lists_above, path_sum, sum_above};
ghost use Rattle.stab_treecore.specs.SharperLaw.{SharperTreeLaw};
ghost use Rattle.stab_treecore.specs.TreeLaw.{TreeLaw};
ghost use Rattle.stab_treecore.specs.TreeReplay.{initial_tree};
ghost use Rattle.stab_treecore.specs.WholeTree.{WholeTree, received};

/// The tree law from any state of a tree: after changes of which no fault hits the node, the node
/// obeys the tree law, counted from there.
pub fn tree_law_from_any_state()
    ensures { (tree : Nodes) (s : WholeTree) (changes : List Change) (node : ℕ)
        → IsState tree s → node < length s.parents → Spare s.parents node changes
        → LawSince (moment s) (gained s (changes_replay s changes)) node }
{
    stab_core::laws::link_law_from_any_state();
}

/// The sharper tree law from any state.
pub fn sharper_tree_law_from_any_state()
    ensures { (tree : Nodes) (s : WholeTree) (changes : List Change) (node : ℕ)
        → IsState tree s → node < length s.parents → Spare s.parents node changes
        → SharperLawSince (moment s) (gained s (changes_replay s changes)) node }
{
    stab_core::laws::sharper_link_law_from_any_state();
}

/// Below a fault: once `2c + 2` items were acknowledged on a link since some state, and as long as
/// no fault touches that link or restarts its ends, the child receives exactly what its parent has
/// from a place on, whatever happens to the links and nodes above.
pub fn clean_links_contain_faults()
    ensures { (tree : Nodes) (s : WholeTree) (before after : List Change) (w parent : ℕ)
        → IsState tree s → parent_at s.parents w ≡ Some parent
        → SpareLink s.parents w before → SpareLink s.parents w after
        → let m = changes_replay s before in
        acked_at s w + 2 * capacity_at s w + 2 ≤ acked_at m w
        → PassesList m (changes_replay m after) w parent }
{
    stab_core::laws::links_pass_on_exactly();
}

/// A fault that touches one link alone: since a later moment, from which on no fault touches the
/// link, its child receives at most `c` strays, and as many as its parent has and it had not
/// acknowledged; then items that were published in its parent's count, and only few of these are
/// missing.
pub fn one_struck_link()
    ensures { (tree : Nodes) (s : WholeTree) (before after : List Change) (w parent : ℕ)
        → IsState tree s → parent_at s.parents w ≡ Some parent
        → Spare s.parents parent (before ++ after) → SpareLink s.parents w after
        → let m = changes_replay s before in
        let t = changes_replay m after in
        IsState tree m → IsFedAt m w → length (received s parent) ≤ acked_at m w
        → let n = acked_at m w - length (received s parent) in
        TreeLaw (strays_since (moment s) parent - n + capacity_at m w)
        (missing_since (moment s) parent + n + (2 * capacity_at m w + 1))
        (queued_at m w ++ garbage_since (moment s) parent)
        (published_since (moment s) (gained s t) parent) (gained m t w) }
{
    stab_core::laws::link_law_from_any_state();
}

/// Every schedule with faults obeys the tree law: whatever happened before, each node that no fault
/// hits afterwards obeys it, counted from there. So each node counts from the last fault on its own
/// path, and faults elsewhere change nothing for it.
pub fn every_schedule_with_faults_obeys_the_tree_law()
    ensures states { (net : Network) (changes : List Change)
        → IsNetwork net → Fit (initial_tree net) changes
        → IsState net.tree (changes_replay (initial_tree net) changes) }
    ensures tree_law { (net : Network) (before after : List Change) (node : ℕ)
        → IsNetwork net → Fit (initial_tree net) before
        → let s = changes_replay (initial_tree net) before in
        node < length s.parents → Spare s.parents node after
        → LawSince (moment s) (gained s (changes_replay s after)) node }
    ensures sharper_tree_law { (net : Network) (before after : List Change) (node : ℕ)
        → IsNetwork net → Fit (initial_tree net) before
        → let s = changes_replay (initial_tree net) before in
        node < length s.parents → Spare s.parents node after
        → SharperLawSince (moment s) (gained s (changes_replay s after)) node }
{
    stab_core::laws::link_law_from_any_state();
    stab_core::laws::sharper_link_law_from_any_state();
}

/// Where no backlog of an inner node `w` is longer than `most w` items, at most `most w` strays
/// come of it; in a drained tree none do.
pub fn law_of_short_backlogs()
    ensures tree_law { (m : Moment) (gain : ℕ → List ℕ) (most : ℕ → ℕ) (node : ℕ)
        → ((w : ℕ) → length (old_backlog m w) ≤ most w) → LawSince m gain node
        → TreeLaw (path_sum m.parents (λ w. m.capacity w + most w) node) (missing_since m node)
        (garbage_since m node) (published_since m gain node) (gain node) }
    ensures sharper { (m : Moment) (gain : ℕ → List ℕ) (most : ℕ → ℕ) (node : ℕ)
        → ((w : ℕ) → length (old_backlog m w) ≤ most w) → SharperLawSince m gain node
        → SharperTreeLaw (path_sum m.parents (λ w. m.capacity w + most w) node)
        (path_sum m.parents (λ w. m.capacity w + 1) node) (fewest_since m node)
        (garbage_since m node) (published_since m gain node) (gain node) }
{}

/// The tree law at every node, counted from a moment, where whatever ran the links keeps no
/// schedule but tells of each link the edge law since.
pub fn tree_law_of_edges_since()
    ensures tree_law { (tree : Nodes) (m : Moment) (gain : ℕ → List ℕ)
        → IsRooted tree.parents → m.parents ≡ tree.parents → EdgesSince m gain
        → (node : ℕ) → node < length m.parents → LawSince m gain node }
    ensures sharper { (tree : Nodes) (m : Moment) (gain : ℕ → List ℕ)
        → IsRooted tree.parents → m.parents ≡ tree.parents → EdgesSince m gain
        → (node : ℕ) → node < length m.parents → SharperLawSince m gain node }
{
    stab_core::laws::link_law_from_any_state();
    stab_core::laws::sharper_link_law_from_any_state();
}

/// The tree law at a node, and the sharper one, counted from a moment, where of each link nothing is
/// known but that it obeys that law since: what its sender offered is a prefix of what its parent
/// had for the child at the moment and received since.
pub fn tree_law_of_links_since()
    ensures tree_law { (tree : Nodes) (m : Moment) (gain : ℕ → List ℕ)
        → IsRooted tree.parents → m.parents ≡ tree.parents
        → ((child parent : ℕ) → parent_at m.parents child ≡ Some parent
        → LinkLawBetween (m.capacity child) (m.queued child) (m.backlog child ++ gain parent)
        (gain child))
        → (node : ℕ) → node < length m.parents → LawSince m gain node }
    ensures sharper { (tree : Nodes) (m : Moment) (gain : ℕ → List ℕ)
        → IsRooted tree.parents → m.parents ≡ tree.parents
        → ((child parent : ℕ) → parent_at m.parents child ≡ Some parent
        → LawBetween SharperLinkLaw (m.capacity child) (m.queued child)
        (m.backlog child ++ gain parent) (gain child))
        → (node : ℕ) → node < length m.parents → SharperLawSince m gain node }
{}

/// A child has nothing that its parent never had, but strays: counted from any state, as long as no
/// fault hits the child, what it receives are few strays and then only what its parent received
/// since, in that order.
pub fn children_follow_their_parents()
    ensures { (tree : Nodes) (s : WholeTree) (changes : List Change) (child parent : ℕ)
        → IsState tree s → parent_at s.parents child ≡ Some parent → Spare s.parents child changes
        → FollowsSince (moment s) (gained s (changes_replay s changes)) child parent }
{
    stab_core::laws::link_law_from_any_state();
}

/// A node that no fault hits keeps the promise of the start, in the words of the tree law, whatever
/// faults hit other nodes and links.
pub fn nodes_that_no_fault_hits_keep_their_promise()
    ensures { (net : Network) (changes : List Change) (node : ℕ)
        → IsNetwork net → node < length net.tree.parents → Spare net.tree.parents node changes
        → let t = changes_replay (initial_tree net) changes in
        TreeLaw (most_strays net node) (most_missing net node) (path_garbage net node)
        t.published (received t node) }
{
    stab_core::laws::link_law_from_any_state();
}

/// Faults in one subtree alone, whatever they are: since the last of them on its path, each node of
/// the subtree obeys the tree law, where what is above the subtree counts by its older count. So no
/// backlog above the subtree is a stray, nor are strays above it that the subtree had acknowledged.
pub fn faults_in_one_subtree()
    ensures { (tree : Nodes) (s : WholeTree) (before after : List Change) (w above : ℕ)
        → IsState tree s → parent_at s.parents w ≡ Some above
        → Spare s.parents above (before ++ after)
        → let m = changes_replay s before in
        let t = changes_replay m after in
        IsState tree m → IsFedAt m w → length (received s above) ≤ acked_at m w
        → (steps node : ℕ)
        → node < length m.parents → ancestor m.parents steps node ≡ Some w
        → Spare m.parents node after
        → let n = acked_at m w - length (received s above) in
        TreeLaw
        (sum_above m.parents (λ u. capacity_at m u + length (backlog m u)) steps node
        + (strays_since (moment s) above - n + capacity_at m w))
        (sum_above m.parents (λ u. 2 * capacity_at m u + 1) steps node
        + (missing_since (moment s) above + n + (2 * capacity_at m w + 1)))
        (lists_above m.parents (λ u. queued_at m u ++ backlog m u) steps node
        ++ (queued_at m w ++ garbage_since (moment s) above))
        (published_since (moment s) (gained s t) above) (gained m t node) }
{
    stab_core::laws::link_law_from_any_state();
}
