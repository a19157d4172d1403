//! Laws over the definitions alone: each is a function with an empty body, and its contract is the
//! law.

ghost use Rattle.std.specs.Prelude.{◌≡◌, ◌<◌, ℕ, List, Some, length};
ghost use Rattle.stab_judge.specs.Obeys.{IsFirstBroken, LinkObeys, NodeObeys};
ghost use Rattle.stab_judge.specs.Obeys.{Obeys, RootObeys};
ghost use Rattle.stab_report.specs.EndedNodes.{AllHandOn};
ghost use Rattle.stab_report.specs.Reports.{OnePerNode, ReportValue, acked_at, received_at};
ghost use Rattle.stab_report.specs.Reports.{report_of};
ghost use Rattle.stab_judge.specs.declared.broken.Broken.{Broken};
ghost use Rattle.stab_tree.specs.IsTree.{IsRooted};
ghost use Rattle.stab_tree.specs.Nodes.{parent_at, root_of};
ghost use Rattle.stab_treecore.specs.EdgeLaw.{EdgeInto};
ghost use Rattle.stab_treecore.specs.Network.{IsNetwork, Network};
ghost use Rattle.stab_treecore.specs.TreeReplay.{initial_tree, tree_replay};
ghost use Rattle.stab_treecore.specs.declared.event.TreeEvent.{TreeEvent};
ghost use Rattle.stab_tree.specs.NodeOpenings.{FitTree};

/// Where each node obeys, the sharper tree law holds at each node, and the sharper complete law below
/// nodes that all ended with their upstream: nothing else is asked of a report.
pub fn nodes_that_obey_are_enough()
    ensures { (net : Network) (report : ReportValue)
        → IsRooted net.tree.parents → FitTree net.tree.parents net.openings
        → OnePerNode net.tree.parents report
        → ((node : ℕ) → node < length net.tree.parents → NodeObeys net report node)
        → Obeys net report }
{
    stab_treecore::laws::tree_law_along_a_path();
    stab_report::laws::nothing_is_missing_below_ended_nodes();
}

/// What a run says of a link, that some events explain what it did, is more than a judge asks: so a
/// judge finds no link of a run broken. A report obeys whose root, links and ends obey, as those of
/// a run do.
pub fn explained_reports_obey()
    ensures link { (net : Network) (report : ReportValue) (child parent : ℕ)
        (edge : EdgeInto net child (received_at report parent) (received_at report child))
        → acked_at report child ≡ Some edge.acked
        → LinkObeys net report child parent }
    ensures report { (net : Network) (report : ReportValue)
        → IsRooted net.tree.parents → FitTree net.tree.parents net.openings
        → OnePerNode net.tree.parents report
        → RootObeys net report (root_of net.tree.parents)
        → ((child parent : ℕ) → parent_at net.tree.parents child ≡ Some parent
        → LinkObeys net report child parent)
        → AllHandOn net.tree.parents report
        → Obeys net report }
{
    stab_report::laws::edges_obey_as_counted();
    nodes_that_obey_are_enough();
}

/// One part at most is broken first.
pub fn one_part_is_broken_first()
    ensures { (net : Network) (report : ReportValue) (part other : Broken)
        → IsFirstBroken net report part → IsFirstBroken net report other → part ≡ other }
{}

/// What a schedule leaves obeys, as a report in which no node ended with its upstream.
pub fn schedules_obey()
    ensures obeys { (net : Network) (events : List TreeEvent) → IsNetwork net
        → Obeys net (report_of (tree_replay (initial_tree net) events)) }
    ensures entries { (net : Network) (events : List TreeEvent) → IsNetwork net
        → OnePerNode net.tree.parents (report_of (tree_replay (initial_tree net) events)) }
{
    stab_core::laws::reachable_steps();
    stab_core::laws::every_replay_obeys_the_sharper_link_law();
    explained_reports_obey();
}
