//! Laws over the definitions alone: each is a function with an empty body, and its contract is the
//! law.

ghost use Rattle.std.specs.Prelude.{◌≡◌, ℕ, Some, length};
ghost use Rattle.stab_report.specs.EndedNodes.{AllHandOn, CompleteBelowEnded, ObeysAsCounted};
ghost use Rattle.stab_report.specs.Reports.{ReportValue, acked_at, received_at, report_of};
ghost use Rattle.stab_report.specs.Texts.{IsUnended, tree_text};
ghost use Rattle.stab_tree.specs.IsTree.{IsRooted};
ghost use Rattle.stab_tree.specs.NodeOpenings.{FitTree};
ghost use Rattle.stab_tree.specs.Nodes.{Nodes, parent_at, root_of};
ghost use Rattle.stab_treecore.specs.EdgeLaw.{EdgeInto};
ghost use Rattle.stab_treecore.specs.Network.{Network};
ghost use Rattle.stab_treecore.specs.Texts.{schedule_text};
ghost use Rattle.stab_treecore.specs.WholeTree.{WholeTree};

/// What `stab tree` prints of a whole tree is the text of its report, in which no node ended with
/// its upstream.
pub fn trees_are_reports()
    ensures text { (nodes : Nodes) (t : WholeTree) → length t.parents ≡ length nodes.parents
        → schedule_text nodes t ≡ tree_text nodes (report_of t) }
    ensures unended { (t : WholeTree) → IsUnended (report_of t) }
{}

/// The sharper link law of a link that some events explain, with as many items acknowledged as the
/// report says.
pub fn edges_obey_as_counted()
    ensures { (net : Network) (report : ReportValue) (child parent : ℕ)
        (edge : EdgeInto net child (received_at report parent) (received_at report child))
        → acked_at report child ≡ Some edge.acked
        → ObeysAsCounted net report child parent }
{
    stab_core::laws::every_replay_obeys_the_sharper_link_law();
}

/// Where the root has the published items, each link obeys, and each node that ended with its
/// upstream handed on what it received, no published item is missing below nodes that all ended so,
/// except among the first ones that the sharper law has.
pub fn nothing_is_missing_below_ended_nodes()
    ensures { (net : Network) (report : ReportValue)
        → IsRooted net.tree.parents → FitTree net.tree.parents net.openings
        → received_at report (root_of net.tree.parents) ≡ net.published
        → ((child parent : ℕ) → parent_at net.tree.parents child ≡ Some parent
        → ObeysAsCounted net report child parent)
        → AllHandOn net.tree.parents report
        → CompleteBelowEnded net report }
{}
