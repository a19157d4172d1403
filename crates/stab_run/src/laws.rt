//! Laws over the definitions alone: they name no job, report or link of the code, so that they hold
//! of whatever ran the workers. Each is a function with an empty body; its contract is the law.

ghost use Rattle.std.specs.Prelude.{◌≡◌, ℕ, All, List, Some};
ghost use Rattle.stab_report.specs.EndedNodes.{AllHandOn, CompleteBelowEnded};
ghost use Rattle.stab_run.specs.Reports.{Reported, as_report};
ghost use Rattle.stab_run.specs.Runs.{AreExplained, RootHas, TreeLawByDepth};
ghost use Rattle.stab_tree.specs.IsTree.{IsRooted};
ghost use Rattle.stab_tree.specs.Nodes.{parent_at};
ghost use Rattle.stab_treecore.specs.Network.{Network};
ghost use Rattle.stab_treecore.specs.NodeLaws.{HalfTreeLawAtNodes, LinkLawInto, TreeLawAtNodes};
ghost use Rattle.stab_tree.specs.NodeOpenings.{FitTree};
ghost use Rattle.stab_treecore.specs.Refusals.{OnePerLink};
ghost use Rattle.stab_treecore.specs.SharperLaw.{SharperTreeLawAtNodes};
ghost use Rattle.stab_node.specs.ByNode.{received_at};

/// Where every link of a report is explained, each node obeys the tree law, and so the half tree
/// law; and the sharper law, which counts the strays that a node received.
pub fn explained_reports_obey_the_tree_law()
    ensures tree_law { (net : Network) (report : Reported)
        → IsRooted net.tree.parents → FitTree net.tree.parents net.openings
        → RootHas net report → AreExplained net report
        → TreeLawAtNodes net (received_at report.received) }
    ensures half_tree_law { (net : Network) (report : Reported)
        → IsRooted net.tree.parents → FitTree net.tree.parents net.openings
        → RootHas net report → AreExplained net report
        → HalfTreeLawAtNodes net (received_at report.received) }
    ensures sharper_tree_law { (net : Network) (report : Reported)
        → IsRooted net.tree.parents → FitTree net.tree.parents net.openings
        → RootHas net report → AreExplained net report
        → SharperTreeLawAtNodes net (received_at report.received) }
{
    stab_treecore::laws::tree_law_of_edges();
    stab_treecore::laws::half_tree_law_at_every_node();
    stab_treecore::laws::sharper_tree_law_of_edges();
}

/// Where every link of a report is explained, each obeys the link law: between what the parent
/// received and what the child received after its opening.
pub fn explained_links_obey_the_link_law()
    ensures { (net : Network) (report : Reported)
        → AreExplained net report
        → (child parent : ℕ) → parent_at net.tree.parents child ≡ Some parent
        → LinkLawInto net child (received_at report.received parent)
        (received_at report.received child) }
{
    stab_treecore::laws::link_law_of_an_edge();
}

/// Where also what a node received whose worker ended with its upstream is acknowledged on the link
/// into each child, no published item is missing below nodes that all ended so, except among the
/// first ones: as many as the sharper law has, which counts the strays that a node received.
pub fn nothing_is_missing_below_ended_nodes()
    ensures { (net : Network) (report : Reported)
        → IsRooted net.tree.parents → FitTree net.tree.parents net.openings
        → RootHas net report → AreExplained net report
        → AllHandOn net.tree.parents (as_report report)
        → CompleteBelowEnded net (as_report report) }
{
    stab_report::laws::edges_obey_as_counted();
    stab_report::laws::nothing_is_missing_below_ended_nodes();
}

/// Where each link has room for one entry, a node at depth d received at most d strays beside those
/// of openings, and no item is missing before its last one except among the first 3d.
pub fn tree_law_of_one_place()
    ensures { (net : Network) (received : ℕ → List ℕ)
        → IsRooted net.tree.parents → OnePerLink net.tree.parents net.links
        → All (λ link. link.params.capacity ≡ 1) net.links
        → TreeLawAtNodes net received
        → TreeLawByDepth net received }
{
    stab_treecore::laws::bounds_of_one_capacity();
}
