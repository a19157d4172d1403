//! What holds of every state that a page shows.

ghost use Rattle.std.specs.Prelude.{◌≡◌, ℕ, ◌≤◌, List, length};
ghost use Rattle.stab_frames.specs.Parameters.{AreLawful, Parameters};
ghost use Rattle.stab_core.specs.LinkLaw.{LinkLaw};
ghost use Rattle.stab_core.specs.Replay.{IsLawful, start_items};
ghost use Rattle.stab_core.specs.Trace.{traced_initial, traced_replay};
ghost use Rattle.stab_core.specs.declared.event.Event.{Event};
ghost use Rattle.stab_core.specs.declared.start.Start.{Start};
ghost use Rattle.stab_core.specs.LinkSetup.{LinkSetup};
ghost use Rattle.stab_tree.specs.NodeOpenings.{OpeningsValue};
ghost use Rattle.stab_tree.specs.Nodes.{Nodes};
ghost use Rattle.stab_treecore.specs.declared.event.TreeEvent.{TreeEvent};
ghost use Rattle.stab_treecore.specs.Network.{IsNetwork};
ghost use Rattle.stab_treecore.specs.NodeLaws.{TreeLawAtNodes, held_bound, most_missing};
ghost use Rattle.stab_treecore.specs.NodeLaws.{strays_bound};
ghost use Rattle.stab_treecore.specs.TreeReplay.{initial_tree, tree_replay};
ghost use Rattle.stab_page.specs.Standing.{strays_in};
ghost use Rattle.stab_page.specs.TracedTree.{list_at, page_network, traced_initial_tree};
ghost use Rattle.stab_page.specs.TracedTree.{traced_tree_replay, whole};
ghost use Rattle.stab_page.specs.TreeStanding.{held_at_most, missing_at_most, strays_at_most};

use stab_core::laws;

/// With lawful parameters and a lawful start the state obeys the link law. However many labels
/// there are, no more strays were delivered than the start has frames.
pub fn every_state_obeys_the_link_law()
    ensures law { (p : Parameters) (start : Start) (events : List Event)
        → AreLawful p → IsLawful p start
        → let s = (traced_replay p (traced_initial start) events).state in
        LinkLaw p.capacity (start_items start) s.offered s.acked s.delivered }
    ensures few_strays { (p : Parameters) (start : Start) (events : List Event)
        → strays_in (traced_replay p (traced_initial start) events).origins ≤ length start.frames }
{
    laws::every_replay_obeys_the_link_law();
    laws::every_replay_is_explained();
}

/// Without its origins the tree that a page shows is the replay of the schedule by the definitions
/// of `stab_treecore`. Where the parts are a network, each node obeys the tree law; and the bounds
/// that a page shows are the bounds of that law.
pub fn every_tree_obeys_the_tree_law()
    ensures states { (tree : Nodes) (openings : OpeningsValue) (links : List LinkSetup)
        (published : List ℕ) (events : List TreeEvent)
        → whole (traced_tree_replay (traced_initial_tree tree.parents openings links published)
        events)
        ≡ tree_replay (initial_tree (page_network tree openings links published)) events }
    ensures law { (tree : Nodes) (openings : OpeningsValue) (links : List LinkSetup)
        (published : List ℕ) (events : List TreeEvent)
        → IsNetwork (page_network tree openings links published)
        → TreeLawAtNodes (page_network tree openings links published)
        (list_at (traced_tree_replay (traced_initial_tree tree.parents openings links published)
        events)) }
    ensures strays_bound { (tree : Nodes) (openings : OpeningsValue) (links : List LinkSetup)
        (published : List ℕ) (events : List TreeEvent) (node : ℕ)
        → strays_at_most (traced_tree_replay (traced_initial_tree tree.parents openings links
        published) events) node ≡ strays_bound (page_network tree openings links published) node }
    ensures held_bound { (tree : Nodes) (openings : OpeningsValue) (links : List LinkSetup)
        (published : List ℕ) (events : List TreeEvent) (node : ℕ)
        → held_at_most (traced_tree_replay (traced_initial_tree tree.parents openings links
        published) events) node ≡ held_bound (page_network tree openings links published) node }
    ensures missing_bound { (tree : Nodes) (openings : OpeningsValue) (links : List LinkSetup)
        (published : List ℕ) (events : List TreeEvent) (node : ℕ)
        → missing_at_most (traced_tree_replay (traced_initial_tree tree.parents openings links
        published) events) node ≡ most_missing (page_network tree openings links published) node }
{
    stab_treecore::laws::every_schedule_obeys_the_tree_law();
}
