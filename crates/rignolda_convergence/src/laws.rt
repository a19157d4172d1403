//! Laws of a tree of agents. Each is a function with an empty body; its contract is the law.

ghost use Rattle.std.specs.Prelude.{◌≡◌, ℕ, ◌<◌, List, ◌++◌, length, map, Some};
ghost use mathlib.Core.List.{IsPrefix};
ghost use Rattle.stab_tree.specs.Nodes.{Nodes, root_of};
ghost use Rattle.stab_treecore.specs.declared.change.Change.{Change};
ghost use Rattle.stab_treecore.specs.Changes.{changes_replay};
ghost use Rattle.stab_treecore.specs.Hits.{Spare};
ghost use Rattle.stab_treecore.specs.Moment.{garbage_since, published_since};
ghost use Rattle.stab_treecore.specs.Since.{IsState, gained, moment};
ghost use Rattle.stab_rounds.specs.Kinds.{Kind};
ghost use Rattle.stab_convergence.specs.Meanwhile.{IsEnough};
ghost use Rattle.rignolda_agent.specs.BodySpelling.{Body};
ghost use Rattle.rignolda_agent.specs.Agents.{Settings, applied, tell_all};
ghost use Rattle.rignolda_agent.specs.Items.{Reading};
ghost use Rattle.rignolda_agent.specs.Numbers.{circle};
ghost use Rattle.rignolda_agent.specs.Rounds.{IsNear, NeverFall, Rise};
ghost use Rattle.rignolda_convergence.specs.AgentTrees.{AgentTree, AllSayNear, FaultsEnd};
ghost use Rattle.rignolda_convergence.specs.AgentTrees.{HasARound, agents_replay};

/// From any state of links, lists and agents: once faults end on an agent's path, and after enough
/// rounds of the path, the agent's settings are exactly what the root's were after the last item
/// that the agent has, and from then on after each later one, whatever is published meanwhile. The
/// root has to have published a whole table behind the first items that may be missing, with a
/// number ahead of all that were there; and enough items.
pub fn agents_come_to_the_roots_settings()
    ensures { (reading : Reading) (kind : Kind) (each : ℕ) (tree : Nodes) (start : AgentTree)
        (before after later : List Change) (node : ℕ) (bodies : List Body) (at_root : Settings)
        → FaultsEnd kind each tree start.tree before after later node
        → let m = changes_replay start.tree before in
        (round : HasARound reading start.tree m node (start.agents node) bodies)
        → IsEnough start.tree m node
        → let end = agents_replay reading start (before ++ (after ++ later)) in
        (items : List ℕ) × IsPrefix items (gained m end.tree (root_of end.tree.parents))
        × ((since : List Body) → map reading items ≡ map Some since
        → Rise round.table.number (round.more ++ since)
        → (end.agents node).files ≡ tell_all at_root (bodies ++ since)) }
{
    stab_convergence::laws::nodes_converge();
    rignolda_agent::laws::two_rounds_bring_the_roots_settings();
}

/// Nothing older is applied after what is newer, whatever links and agents hold: as long as no
/// fault hits an agent's path, the numbers that its files come to never fall. Its files have to have
/// their number, and the numbers in links and lists, and of what is published, have to be within
/// half of the circle.
pub fn nothing_older_is_applied_in_a_tree()
    ensures { (reading : Reading) (tree : Nodes) (start : AgentTree) (changes : List Change)
        (node low : ℕ)
        → IsState tree start.tree → node < length start.tree.parents
        → Spare start.tree.parents node changes
        → let came = gained start.tree (changes_replay start.tree changes) in
        let agent = start.agents node in
        low < circle → IsNear low agent.taker.floor
        → AllSayNear reading low (garbage_since (moment start.tree) node)
        → AllSayNear reading low (published_since (moment start.tree) came node)
        → NeverFall low agent.taker.floor (applied agent (map reading (came node))) }
{
    stab_treecore::change_laws::tree_law_from_any_state();
    rignolda_agent::laws::nothing_older_is_applied();
}
