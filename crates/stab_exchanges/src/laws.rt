//! Laws over the definitions alone. Each is a function with an empty body; its contract is the law.

ghost use Rattle.std.specs.Prelude.{◌≡◌, ℕ, ◌+◌, ◌<◌, ◌≤◌, List, false, length};
ghost use Rattle.stab_convergence.specs.AtRest.{HasNoFault};
ghost use Rattle.stab_convergence.specs.Meanwhile.{HasAllBefore};
ghost use Rattle.stab_convergence.specs.PathRounds.{PathRounds, rounds_since};
ghost use Rattle.stab_core.specs.Replay.{replay};
ghost use Rattle.stab_core.specs.declared.event.Event.{Event};
ghost use Rattle.stab_exchanges.specs.Exchanges.{completed_exchanges};
ghost use Rattle.stab_exchanges.specs.TreeExchanges.{AllCounted, IsPathOfOpenSenders};
ghost use Rattle.stab_exchanges.specs.TreeExchanges.{PathExchanges, tree_of_links};
ghost use Rattle.stab_frames.specs.Parameters.{Parameters};
ghost use Rattle.stab_line.specs.Line.{link_of};
ghost use Rattle.stab_line.specs.SessionLink.{InTurn, LinkAct, SessionLink, counted_anew};
ghost use Rattle.stab_line.specs.SessionLink.{line_of, link_run};
ghost use Rattle.stab_line.specs.SessionTree.{AllInTurn, SessionTree, TreeAct, tree_run};
ghost use Rattle.stab_rounds.specs.Kinds.{reading};
ghost use Rattle.stab_rounds.specs.ReadingRounds.{reading_rounds};
ghost use Rattle.stab_rounds.specs.Rounds.{IsWithin};
ghost use Rattle.stab_treecore.specs.declared.change.Change.{Change};
ghost use Rattle.stab_treecore.specs.Changes.{changes_replay};
ghost use Rattle.stab_treecore.specs.Network.{IsNetwork, Network};
ghost use Rattle.stab_treecore.specs.Since.{IsState, moment};

/// Each completed exchange acknowledges an item, from any state of the two ends whose connections
/// are in turn, and whatever happens between, but that the sender's end is closed.
pub fn completed_exchanges_acknowledge_items()
    ensures { (p : Parameters) (t : SessionLink) (acts : List LinkAct)
        → InTurn t → let after = link_run p t acts in
        after.sender.closed ≡ false → t.acked + completed_exchanges p t acts ≤ after.acked }
{}

/// And each is a reading round. In a new count, which may begin at any moment, the connections are
/// a replay of the link, whose events have at least as many reading rounds, for every capacity from
/// 1 on. So the laws of rounds hold of it.
pub fn completed_exchanges_are_reading_rounds()
    ensures within { (p : Parameters) (t : SessionLink) → 1 ≤ p.capacity → InTurn t
        → IsWithin p (link_of (line_of (counted_anew t))) }
    ensures rounds { (p : Parameters) (t : SessionLink) (acts : List LinkAct)
        → 1 ≤ p.capacity → InTurn t → let before = counted_anew t in
        let after = link_run p before acts in
        after.sender.closed ≡ false
        → (events : List Event)
        × (replay p (link_of (line_of before)) events ≡ link_of (line_of after))
        × (completed_exchanges p before acts ≤ reading_rounds p.capacity events) }
{}

/// A tree over connections is a tree of links, in a state from which its laws hold, where all that
/// was offered is acknowledged, but for what senders hold. And so it stays, whatever happens.
pub fn a_tree_over_connections_is_a_tree_of_links()
    ensures state { (net : Network) (t : SessionTree) → IsNetwork net → AllInTurn t
        → AllCounted net t → IsState net.tree (tree_of_links net t) }
    ensures stays { (net : Network) (t : SessionTree) (acts : List TreeAct) → IsNetwork net
        → AllInTurn t → AllCounted net t → let after = tree_run net t acts in
        AllInTurn after × AllCounted net after }
{}

/// Whatever its nodes, its connections and the network do is changes of that tree of links, and no
/// fault. Among them are as many reading rounds of a node's path as there are parts in which each
/// link of the path completes an exchange, unless it has nothing to hand on.
pub fn exchanges_of_a_path_are_its_rounds()
    ensures { (net : Network) (t : SessionTree) (acts : List TreeAct) (node rounds : ℕ)
        → IsNetwork net → AllInTurn t → AllCounted net t → PathExchanges net t node rounds acts
        → let s = tree_of_links net t in
        let after = tree_run net t acts in
        IsPathOfOpenSenders net after node
        → (changes : List Change) × HasNoFault changes
        × (changes_replay s changes ≡ tree_of_links net after)
        × PathRounds reading s node rounds changes }
{}

/// So a node over connections comes back, from any state, whatever happened since and whatever is
/// published meanwhile: after as many such parts as reading rounds are needed it has all that was
/// published before these parts, but for some of the first.
pub fn nodes_over_connections_converge()
    ensures { (net : Network) (t : SessionTree) (before acts : List TreeAct) (node rounds : ℕ)
        → IsNetwork net → AllInTurn t → AllCounted net t → node < length net.tree.parents
        → let middle = tree_run net t before in
        PathExchanges net middle node rounds acts
        → let after = tree_run net middle acts in
        IsPathOfOpenSenders net after node
        → rounds_since 1 (moment (tree_of_links net middle)) node ≤ rounds
        → HasAllBefore (tree_of_links net t) (tree_of_links net middle)
        (tree_of_links net after) node }
{
    stab_convergence::laws::nodes_converge();
}
