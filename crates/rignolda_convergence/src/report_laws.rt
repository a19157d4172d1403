//! Laws of settings, where the root heard what an agent reports. Each is a function with an empty
//! body; its contract is the law.

ghost use Rattle.std.specs.Prelude.{◌≡◌, ◌≤◌, ◌+◌, ℕ, List, ◌++◌, length, map, Some};
ghost use mathlib.Core.List.{IsPrefix};
ghost use Rattle.stab_tree.specs.Nodes.{Nodes, root_of};
ghost use Rattle.stab_treecore.specs.declared.change.Change.{Change};
ghost use Rattle.stab_treecore.specs.Changes.{changes_replay};
ghost use Rattle.stab_treecore.specs.Moment.{missing_since, published_since};
ghost use Rattle.stab_treecore.specs.Since.{gained, moment};
ghost use Rattle.stab_treecore.specs.WholeTree.{WholeTree};
ghost use Rattle.stab_rounds.specs.Kinds.{Kind};
ghost use Rattle.stab_convergence.specs.Meanwhile.{IsEnough};
ghost use Rattle.rignolda_agent.specs.BodySpelling.{Body};
ghost use Rattle.rignolda_agent.specs.Agents.{Settings, tell_all};
ghost use Rattle.rignolda_agent.specs.Items.{Reading};
ghost use Rattle.rignolda_agent.specs.Rounds.{Rise};
ghost use Rattle.rignolda_convergence.specs.AgentTrees.{AgentTree, FaultsEnd, agents_replay};
ghost use Rattle.rignolda_convergence.specs.Reported.{AreAllNearSince, HasATableAbove};
ghost use Rattle.rignolda_convergence.specs.Reported.{there_since};

/// Agents come to the root's settings by what they report. From any state of links, lists and
/// agents, with all numbers within half of the circle: let an agent report its numbers once it has
/// received as many items as were there for it, and let the root hear that twice, among any other
/// reports, and then publish a whole table behind the first items that may be missing. Once faults
/// end on the agent's path, and after enough rounds of the path, its settings are exactly what the
/// root's were after the last item that it has, and from then on after each later one, as long as
/// numbers rise from the table on; whatever it remembered, and whatever links and lists held.
pub fn agents_come_to_the_roots_settings_by_reports()
    ensures { (reading : Reading) (kind : Kind) (each : ℕ) (tree : Nodes) (start : AgentTree)
        (early late after later : List Change) (node low : ℕ) (bodies : List Body)
        (at_root : Settings)
        → let before = early ++ late in
        FaultsEnd kind each tree start.tree before after later node
        → let s = start.tree in
        let reporting = agents_replay reading start early in
        let m = changes_replay s before in
        AreAllNearSince reading low s m node (start.agents node)
        → there_since (moment s) node ≤ length (gained s reporting.tree node)
        → (above : HasATableAbove reading low s m node (reporting.agents node).taker bodies)
        → IsEnough s m node
        → let end = agents_replay reading start (before ++ (after ++ later)) in
        (items : List ℕ) × IsPrefix items (gained m end.tree (root_of end.tree.parents))
        × ((since : List Body) → map reading items ≡ map Some since
        → Rise above.table.body.number (above.more ++ since)
        → (end.agents node).files ≡ tell_all at_root (bodies ++ since)) }
{
    stab_treecore::change_laws::tree_law_from_any_state();
    stab_convergence::laws::nodes_converge();
    rignolda_agent::laws::two_rounds_bring_the_roots_settings();
    rignolda_agent::report_laws::a_table_is_above_what_was_heard_before_a_report();
}

/// Rounds bring as many items as were there. If as many were published before the rounds that bring
/// a node back, and as many more as may be missing, the node has received that many after them: so
/// each of its reports from then on is one that counts.
pub fn rounds_bring_as_many_items_as_were_there()
    ensures { (kind : Kind) (each : ℕ) (tree : Nodes) (s : WholeTree)
        (before after later : List Change) (node : ℕ)
        → FaultsEnd kind each tree s before after later node
        → let published = published_since (moment s) (gained s (changes_replay s before)) node in
        missing_since (moment s) node + there_since (moment s) node ≤ length published
        → let end = changes_replay s (before ++ (after ++ later)) in
        there_since (moment s) node ≤ length (gained s end node) }
{
    stab_convergence::laws::nodes_converge();
}
