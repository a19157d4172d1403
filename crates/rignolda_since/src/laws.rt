//! Laws over the definitions alone: a function with an empty body, whose contract is the law.

ghost use Rattle.std.specs.Prelude.{◌<◌, ℕ, List, length};
ghost use Rattle.stab_judge.specs.Reports.{OnePerNode, ReportValue};
ghost use Rattle.rignolda_since.specs.ObeysSince.{NodeObeysSince, ObeysSince};
ghost use Rattle.stab_tree.specs.IsTree.{IsRooted};
ghost use Rattle.stab_treecore.specs.Network.{Network};

/// Where each node of a report obeys, the sharper tree law holds at each node, counted from the moment:
/// nothing else is asked of a report.
pub fn reports_that_obey_since()
    ensures { (net : Network) (lists : List (List ℕ)) (r : ReportValue)
        → IsRooted net.tree.parents → OnePerNode net.tree.parents r
        → ((node : ℕ) → node < length net.tree.parents → NodeObeysSince net lists r node)
        → ObeysSince net lists r }
{
    stab_treecore::change_laws::tree_law_of_links_since();
}
