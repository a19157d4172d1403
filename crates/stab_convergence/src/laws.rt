//! Laws of convergence. Each is a function with an empty body; its contract is the law.

ghost use Rattle.std.specs.Prelude.{◌≡◌, ℕ, ◌+◌, ◌*◌, ◌<◌, ◌≤◌, List, [], ◌∷◌, ◌++◌, length};
ghost use Rattle.std.specs.Prelude.{Some};
ghost use Rattle.stab_convergence.specs.Arrival.{arrival_reading_rounds, arrival_rounds};
ghost use Rattle.stab_convergence.specs.AtRest.{HasNoFault, IsAtRest};
ghost use Rattle.stab_convergence.specs.Converged.{HasConverged};
ghost use Rattle.stab_convergence.specs.Exact.{IsExact, IsPathClean, PassesAll};
ghost use Rattle.stab_convergence.specs.Meanwhile.{HasAllBefore, IsEnough};
ghost use Rattle.stab_convergence.specs.PathRounds.{IsPathOpen, PathRounds, TakesAtMost};
ghost use Rattle.stab_convergence.specs.PathRounds.{acts_among, rounds_since};
ghost use mathlib.Core.List.{IsPrefix};
ghost use Rattle.stab_core.specs.declared.start.Start.{Start};
ghost use Rattle.stab_treecore.specs.declared.change.Change.{Change};
ghost use Rattle.stab_treecore.specs.declared.change.Change.TheVariants.{Restart, Strike};
ghost use Rattle.stab_treecore.specs.Changes.{Fit, changes_replay};
ghost use Rattle.stab_treecore.specs.Hits.{Spare, SpareLink};
ghost use Rattle.stab_treecore.specs.Moment.{fewest_since, missing_since, published_since};
ghost use Rattle.stab_treecore.specs.Since.{IsState, acked_at, backlog, capacity_at, gained, moment};
ghost use Rattle.stab_treecore.specs.Since.{queued_at};
ghost use Rattle.stab_rounds.specs.Kinds.{Kind, plain, reading};
ghost use Rattle.stab_rounds.specs.TreePlayed.{play_reads};
ghost use Rattle.stab_rounds.specs.TreeRounds.{IsOpen};
ghost use Rattle.stab_settings.specs.Refreshes.{IsRefresh, SameBeside};
ghost use Rattle.stab_settings.specs.Tables.{Reading, Table, apply_items};
ghost use Rattle.stab_tree.specs.Nodes.{Nodes, parent_at, root_of};
ghost use Rattle.stab_tree.specs.Steps.{Reaches, ancestor, depth_of};
ghost use Rattle.stab_treecore.specs.Network.{IsNetwork, Network};
ghost use Rattle.stab_treecore.specs.Paths.{lists_above, sum_above};
ghost use Rattle.stab_treecore.specs.TreeLaw.{TreeLaw};
ghost use Rattle.stab_treecore.specs.TreeReplay.{initial_tree, tree_replay};
ghost use Rattle.stab_treecore.specs.WholeTree.{WholeTree, received};

/// What is published later disturbs nothing that was published before. From any state of a tree,
/// whatever is published and whatever faults hit other nodes: the list of a node begins with the
/// list that the same acts give it where nothing is published.
pub fn later_items_disturb_nothing()
    ensures { (tree : Nodes) (s : WholeTree) (changes : List Change) (node : ℕ)
        → IsState tree s → node < length s.parents → Spare s.parents node changes
        → IsPrefix (received (tree_replay s (acts_among changes)) node)
        (received (changes_replay s changes) node) }
{}

/// Every node comes back while items are published. From any state of a tree let anything happen
/// that is no fault on the node's path; and let there then be `rounds_since` rounds of the path, all
/// plain or all reading ones, counted at their beginning, in which no link of it is closed, and
/// whatever is published. Then the node has all that was published before these rounds, but for
/// some of the first M. If that was enough, it receives exactly what is published from the beginning
/// of the rounds on, for good: whatever comes later without a fault on the path.
pub fn nodes_converge()
    ensures { (kind : Kind) (each : ℕ) (tree : Nodes) (s : WholeTree)
        (before after later : List Change) (rounds node : ℕ)
        → IsState tree s → node < length s.parents
        → Spare s.parents node (before ++ (after ++ later))
        → let m = changes_replay s before in
        IsState tree m → IsPathOpen (changes_replay m after) node → TakesAtMost kind each m node
        → PathRounds kind m node rounds after → rounds_since each (moment m) node ≤ rounds
        → HasAllBefore s m (changes_replay m (after ++ later)) node }
{
    stab_core::laws::link_law_from_any_state();
    stab_core::laws::sharper_link_law_from_any_state();
    stab_core::laws::links_pass_on_exactly();
}

/// More items than may be missing at the node, M, are enough.
pub fn more_than_missing_is_enough()
    ensures { (tree : Nodes) (s m : WholeTree) (node : ℕ)
        → IsState tree s
        → missing_since (moment s) node < length (published_since (moment s) (gained s m) node)
        → IsEnough s m node }
{}

/// Where no capacity is more than `c`, at most the first `d(c + 1) + c` items may be missing at a
/// node at depth `d`, and `c + 1` more are enough. With capacity 1 these are `2d + 1` and `2d + 3`.
pub fn items_enough_by_depth()
    ensures missing { (s : WholeTree) (node capacity : ℕ)
        → ((w : ℕ) → capacity_at s w ≤ capacity)
        → fewest_since (moment s) node ≤ depth_of s.parents node * (capacity + 1) + capacity }
    ensures enough { (tree : Nodes) (s m : WholeTree) (node capacity : ℕ)
        → IsState tree s → ((w : ℕ) → capacity_at s w ≤ capacity)
        → depth_of s.parents node * (capacity + 1) + 2 * capacity + 1
        ≤ length (published_since (moment s) (gained s m) node)
        → IsEnough s m node }
{}

/// So tables come back. Where each item is read as settings, let a stretch of what was published
/// before the rounds, after its first items, set each key in use. Then the node's table is one
/// that the root had after the beginning of the rounds: it has the same at each key in use,
/// whatever the two tables were before.
pub fn tables_come_back()
    ensures { (reading : Reading) (keys : List ℕ) (s m t : WholeTree) (node first after : ℕ)
        (at_root at_node : Table)
        → HasAllBefore s m t node
        → let published = published_since (moment s) (gained s m) node in
        IsRefresh reading keys published first after
        → fewest_since (moment s) node ≤ first → IsEnough s m node
        → (later : List ℕ) × IsPrefix later (gained m t (root_of t.parents))
        × SameBeside keys (apply_items reading at_node (gained s t node))
        (apply_items reading at_root (published ++ later)) }
{
    stab_settings::laws::complete_tables_are_the_publishers();
}

/// A node whose path is clean receives exactly what is published. Once each link of the path has
/// acknowledged `2c + 2` items since some state, whatever comes later without a fault on the path:
/// the node receives what waits on its path then, and after that what is published, in order and
/// each item once, with no stray and none missing; and all of it, once it is handed on.
pub fn converged_nodes_stay_exact()
    ensures { (tree : Nodes) (s : WholeTree) (changes later : List Change) (node : ℕ)
        → IsState tree s → node < length s.parents → Spare s.parents node changes
        → let t = changes_replay s changes in
        IsState tree t → IsPathClean s t node → Spare t.parents node later
        → IsExact t (changes_replay t later) node }
{}

/// Of whole schedules: whatever changes a network goes through, once `rounds_since` reading rounds
/// of all its links are made, each node has converged, counted from any moment after which no fault
/// hits it, such as the last fault on its path. Nothing is asked of the rounds but their number.
pub fn every_schedule_converges()
    ensures { (net : Network) (before after : List Change) (capacity rounds node : ℕ)
        → IsNetwork net → Fit (initial_tree net) (before ++ after)
        → let s = changes_replay (initial_tree net) before in
        let m = changes_replay s after in
        node < length s.parents → Spare s.parents node after
        → IsOpen m → ((w : ℕ) → capacity_at m w ≤ capacity)
        → rounds_since 1 (moment m) node ≤ rounds
        → HasConverged s (tree_replay m (play_reads capacity m.parents rounds)) node }
{
    stab_core::laws::link_law_from_any_state();
}

/// From the start of a network: as many rounds of a node's path as `arrival_rounds` says, or as
/// many reading rounds as `arrival_reading_rounds` says, bring it all that was published at the
/// start, but for some of the first items, whatever is published later and whatever happens
/// elsewhere.
pub fn rounds_of_the_path_are_enough()
    ensures plain { (net : Network) (changes later : List Change)
        (capacity rounds node parent : ℕ)
        → IsNetwork net → parent_at net.tree.parents node ≡ Some parent
        → Spare net.tree.parents node (changes ++ later)
        → let s = initial_tree net in
        IsPathOpen (changes_replay s changes) node
        → TakesAtMost plain (2 * capacity + 1) s node → PathRounds plain s node rounds changes
        → arrival_rounds net capacity node ≤ rounds
        → HasAllBefore s s (changes_replay s (changes ++ later)) node }
    ensures reading { (net : Network) (changes later : List Change) (rounds node parent : ℕ)
        → IsNetwork net → parent_at net.tree.parents node ≡ Some parent
        → Spare net.tree.parents node (changes ++ later)
        → let s = initial_tree net in
        IsPathOpen (changes_replay s changes) node → PathRounds reading s node rounds changes
        → arrival_reading_rounds net node ≤ rounds
        → HasAllBefore s s (changes_replay s (changes ++ later)) node }
{
    stab_core::laws::link_law_from_any_state();
    stab_core::laws::sharper_link_law_from_any_state();
    stab_core::laws::links_pass_on_exactly();
}

/// What a fault costs that hits nothing above some child, where the path of the child's parent is
/// clean. The child is sent what its parent has for it at the last fault, what waits on the
/// parent's path then, and what is published since. It receives at most `c` strays, and then all of
/// that but some of the first `2c + 1`. A node further down may have as many strays and lose as
/// many items for each link between, and beside these the backlogs of the nodes between are strays.
pub fn faults_beneath_a_converged_node()
    ensures { (tree : Nodes) (s : WholeTree) (before after : List Change) (w above : ℕ)
        → IsState tree s → parent_at s.parents w ≡ Some above
        → Spare s.parents above (before ++ after)
        → let m = changes_replay s before in
        let t = changes_replay m after in
        IsState tree m → IsPathClean s m above
        → (exact : IsExact m t above)
        × ((steps node : ℕ)
        → node < length m.parents → ancestor m.parents steps node ≡ Some w
        → Spare m.parents node after
        → TreeLaw
        (sum_above m.parents (λ u. capacity_at m u + length (backlog m u)) steps node
        + capacity_at m w)
        (sum_above m.parents (λ u. 2 * capacity_at m u + 1) steps node
        + (2 * capacity_at m w + 1))
        (lists_above m.parents (λ u. queued_at m u ++ backlog m u) steps node ++ queued_at m w)
        (backlog m w ++ (exact.waiting ++ gained m t (root_of m.parents))) (gained m t node)) }
{
    stab_core::laws::link_law_from_any_state();
}

/// And no fault costs more further down. A link that has acknowledged `2c + 2` items since any
/// state, and all that its parent has, passes on exactly what its parent receives, strays too, as
/// long as no fault touches it, whatever faults there are above. Where it has not acknowledged all,
/// `stab_treecore::change_laws::clean_links_contain_faults` says from which place on.
pub fn settled_links_add_nothing()
    ensures { (tree : Nodes) (s : WholeTree) (before after : List Change) (w parent : ℕ)
        → IsState tree s → parent_at s.parents w ≡ Some parent
        → SpareLink s.parents w before → SpareLink s.parents w after
        → let m = changes_replay s before in
        IsState tree m → acked_at s w + 2 * capacity_at s w + 2 ≤ acked_at m w
        → acked_at m w ≡ length (received m parent)
        → PassesAll m (changes_replay m after) w parent }
{}

/// What one fault costs in a tree at rest, where nothing else goes wrong before or after it. A
/// strike at the link into a node costs this node at most `c` strays, and some of the next `2c + 1`
/// items; and each node beneath it no more. So does a restart of a node, but each node beneath it
/// pays for the link into that child, too, and may receive the node's new list as strays.
/// Where this list counts as published, as beneath a root that restarts, that link alone counts.
pub fn one_fault_in_a_tree_at_rest()
    ensures strike { (tree : Nodes) (s : WholeTree) (before after : List Change)
        (w parent node : ℕ) (start : Start)
        → IsState tree s → HasNoFault before → HasNoFault after
        → IsAtRest s (changes_replay s before)
        → parent_at s.parents w ≡ Some parent → Reaches s.parents node w
        → let m = changes_replay s (before ++ Strike w start ∷ []) in
        let t = changes_replay m after in
        IsState tree (changes_replay s before) → IsState tree m
        → TreeLaw (capacity_at m w) (2 * capacity_at m w + 1) (queued_at m w)
        (gained m t (root_of m.parents)) (gained m t node) }
    ensures restart { (tree : Nodes) (s : WholeTree) (before after : List Change)
        (w parent : ℕ) (list : List ℕ)
        → IsState tree s → HasNoFault before → HasNoFault after
        → IsAtRest s (changes_replay s before)
        → parent_at s.parents w ≡ Some parent
        → let m = changes_replay s (before ++ Restart w list ∷ []) in
        let t = changes_replay m after in
        IsState tree (changes_replay s before) → IsState tree m
        → TreeLaw (capacity_at m w) (2 * capacity_at m w + 1) (queued_at m w)
        (gained m t (root_of m.parents)) (gained m t w) }
    ensures beneath { (tree : Nodes) (s : WholeTree) (before after : List Change)
        (w parent child node : ℕ) (list : List ℕ)
        → IsState tree s → HasNoFault before → HasNoFault after
        → IsAtRest s (changes_replay s before)
        → parent_at s.parents w ≡ Some parent
        → parent_at s.parents child ≡ Some w → Reaches s.parents node child
        → let m = changes_replay s (before ++ Restart w list ∷ []) in
        let t = changes_replay m after in
        IsState tree (changes_replay s before) → IsState tree m
        → TreeLaw (capacity_at m child + length (received m w) + capacity_at m w)
        (2 * capacity_at m child + 1 + (2 * capacity_at m w + 1))
        (queued_at m child ++ (received m w ++ queued_at m w))
        (gained m t (root_of m.parents)) (gained m t node) }
    ensures list { (tree : Nodes) (s : WholeTree) (before after : List Change)
        (w child node : ℕ) (list : List ℕ)
        → IsState tree s → HasNoFault before → HasNoFault after
        → IsAtRest s (changes_replay s before)
        → parent_at s.parents child ≡ Some w → Reaches s.parents node child
        → let m = changes_replay s (before ++ Restart w list ∷ []) in
        let t = changes_replay m after in
        IsState tree (changes_replay s before) → IsState tree m
        → TreeLaw (capacity_at m child) (2 * capacity_at m child + 1) (queued_at m child)
        (received m w ++ gained m t w) (gained m t node) }
{
    stab_core::laws::link_law_from_any_state();
}
