//! Laws of arrival, on one link and in a tree, over the definitions alone.

ghost use Rattle.std.specs.Prelude.{◌≡◌, ℕ, ◌+◌, ◌*◌, ◌≤◌, List, ◌++◌, length};
ghost use Rattle.std.specs.Prelude.{All, Contains, Some, false};
ghost use Rattle.stab_core.specs.LinkLaw.{HalfLawAt};
ghost use Rattle.stab_core.specs.LinkState.{LinkState};
ghost use Rattle.stab_core.specs.Replay.{IsLawful, initial, replay, start_items};
ghost use Rattle.stab_core.specs.declared.event.Event.{Event};
ghost use Rattle.stab_core.specs.declared.start.Start.{Start};
ghost use Rattle.stab_frames.specs.Parameters.{AreLawful, Parameters};
ghost use Rattle.stab_rounds.specs.Ignored.{AnswersOnce, ignored_among};
ghost use Rattle.stab_rounds.specs.ReadingRounds.{reading_rounds};
ghost use Rattle.stab_rounds.specs.Receipts.{acks_received, frames_received};
ghost use Rattle.stab_rounds.specs.Rounds.{rounds_of, IsWithin};
ghost use Rattle.stab_rounds.specs.Slowest.{slow_rounds, slow_start};
ghost use Rattle.stab_rounds.specs.TreePlayed.{play, play_reads};
ghost use Rattle.stab_rounds.specs.TreeReadingRounds.{ReadingRounds, reading_rounds_below};
ghost use Rattle.stab_rounds.specs.TreeRounds.{IsHandedOn, IsOpen, TreeRounds, rounds_below};
ghost use Rattle.stab_tree.specs.Nodes.{parent_at};
ghost use Rattle.stab_treecore.specs.Network.{IsNetwork, Network};
ghost use Rattle.stab_treecore.specs.NodeLaws.{most_missing, most_strays, path_garbage};
ghost use Rattle.stab_treecore.specs.TreeLaw.{CompleteLaw};
ghost use Rattle.stab_treecore.specs.TreeReplay.{initial_tree, tree_replay};
ghost use Rattle.stab_treecore.specs.WholeTree.{received};
ghost use Rattle.stab_treecore.specs.declared.event.TreeEvent.{TreeEvent};

/// From any state, with any labels in its queues, each `2c + 1` rounds acknowledge an item,
/// whatever happens between the events of a round, but for a close.
pub fn rounds_bring_acknowledgements()
    ensures { (p : Parameters) (s : LinkState) (events : List Event) (items : ℕ)
        → 1 ≤ p.capacity → IsWithin p s
        → (replay p s events).closed ≡ false
        → (2 * p.capacity + 1) * items ≤ rounds_of events
        → s.acked + items ≤ (replay p s events).acked }
{}

/// So from a lawful start an item that is not among the first `2c + 1` is delivered after `2c + 1`
/// rounds for it and as many for each item before it: the link law with these items among its
/// places.
pub fn rounds_bring_items()
    ensures { (p : Parameters) (start : Start) (events : List Event)
        → AreLawful p → IsLawful p start → let s = replay p (initial start) events in
        s.closed ≡ false
        → (places : List ℕ)
        × HalfLawAt p.capacity (start_items start) s.offered s.acked s.delivered places
        × ((item : ℕ) → 2 * p.capacity + 1 ≤ item
        → (2 * p.capacity + 1) * (item + 1) ≤ rounds_of events → Contains places item) }
{
    stab_core::laws::every_replay_obeys_the_link_law();
}

/// While an item waits: once `c + 1` frames were received and not kept, and after them `c + 1` such
/// acknowledgements, it is acknowledged, whatever else happened, and whatever was lost.
pub fn receipts_bring_an_acknowledgement()
    ensures { (p : Parameters) (s : LinkState) (first second : List Event)
        → IsWithin p s → length s.offered ≡ s.acked + 1
        → p.capacity + 1 ≤ frames_received p s first
        → p.capacity + 1 ≤ acks_received p (replay p s first) second
        → s.acked + 1 ≤ (replay p s (first ++ second)).acked }
{}

/// What a sender alone can notice. On a line that repeats nothing, and whose receiver answers each
/// frame that it takes at most once and sends nothing else, at most `2c` acknowledgements are
/// ignored while one item waits.
pub fn few_acknowledgements_are_ignored()
    ensures { (p : Parameters) (s : LinkState) (events : List Event)
        → IsWithin p s → length s.offered ≡ s.acked + 1 → AnswersOnce p 0 s events
        → (replay p s events).acked ≡ s.acked
        → ignored_among p s events ≤ 2 * p.capacity }
{}

/// A round in which `c` messages are taken before one is sent acknowledges an item, from any state.
pub fn reading_rounds_bring_acknowledgements()
    ensures { (p : Parameters) (s : LinkState) (events : List Event)
        → 1 ≤ p.capacity → IsWithin p s → (replay p s events).closed ≡ false
        → s.acked + reading_rounds p.capacity events ≤ (replay p s events).acked }
{}

/// One round fewer is not enough: from a lawful start these `2c` rounds acknowledge nothing, so `2c
/// + 1` is the least.
pub fn fewer_rounds_are_not_enough()
    ensures lawful { (p : Parameters) → IsLawful p (slow_start p.capacity) }
    ensures rounds { (item count : ℕ) → rounds_of (slow_rounds item count) ≡ count }
    ensures none { (p : Parameters) (item : ℕ) → 1 ≤ p.capacity
        → (replay p (initial (slow_start p.capacity)) (slow_rounds item (2 * p.capacity))).acked
        ≡ 0 }
{}

/// Arrival in a tree. Whatever was in the links and nodes at the start, and whatever else happens
/// but a close: after as many rounds of all links as `rounds_below` counts for a parent, all that
/// it has is handed on to its child, for good.
pub fn everything_arrives()
    // All that the parent has is acknowledged, and no frame is on its way to the child.
    ensures handed_on { (net : Network) (events : List TreeEvent) (capacity rounds child parent : ℕ)
        → IsNetwork net → All (λ link. link.params.capacity ≤ capacity) net.links
        → let t = tree_replay (initial_tree net) events in
        IsOpen t → TreeRounds net.tree.parents rounds events
        → parent_at net.tree.parents child ≡ Some parent
        → rounds_below net capacity parent ≤ rounds
        → IsHandedOn t child parent }
    // No published item is missing at the child, except among the first.
    ensures complete { (net : Network) (events : List TreeEvent) (capacity rounds child parent : ℕ)
        → IsNetwork net → All (λ link. link.params.capacity ≤ capacity) net.links
        → let t = tree_replay (initial_tree net) events in
        IsOpen t → TreeRounds net.tree.parents rounds events
        → parent_at net.tree.parents child ≡ Some parent
        → rounds_below net capacity parent ≤ rounds
        → CompleteLaw (most_strays net child) (most_missing net child) (path_garbage net child)
        net.published (received t child) }
    // And whatever comes then, this stays so, and the child receives nothing more.
    ensures for_good { (net : Network) (events more : List TreeEvent)
        (capacity rounds child parent : ℕ)
        → IsNetwork net → All (λ link. link.params.capacity ≤ capacity) net.links
        → let t = tree_replay (initial_tree net) events in
        IsOpen t → TreeRounds net.tree.parents rounds events
        → parent_at net.tree.parents child ≡ Some parent
        → rounds_below net capacity parent ≤ rounds
        → IsHandedOn (tree_replay t more) child parent
        × (received (tree_replay t more) child ≡ received t child) }
{
    stab_core::laws::every_replay_obeys_the_link_law();
}

/// The same of reading rounds, of which one for each item is enough.
pub fn everything_arrives_where_all_is_read()
    // All that the parent has is acknowledged, and no frame is on its way to the child.
    ensures handed_on { (net : Network) (events : List TreeEvent) (rounds child parent : ℕ)
        → IsNetwork net
        → let t = tree_replay (initial_tree net) events in
        IsOpen t → ReadingRounds net rounds events
        → parent_at net.tree.parents child ≡ Some parent
        → reading_rounds_below net parent ≤ rounds
        → IsHandedOn t child parent }
    // No published item is missing at the child, except among the first.
    ensures complete { (net : Network) (events : List TreeEvent) (rounds child parent : ℕ)
        → IsNetwork net
        → let t = tree_replay (initial_tree net) events in
        IsOpen t → ReadingRounds net rounds events
        → parent_at net.tree.parents child ≡ Some parent
        → reading_rounds_below net parent ≤ rounds
        → CompleteLaw (most_strays net child) (most_missing net child) (path_garbage net child)
        net.published (received t child) }
    // And whatever comes then, this stays so, and the child receives nothing more.
    ensures for_good { (net : Network) (events more : List TreeEvent) (rounds child parent : ℕ)
        → IsNetwork net
        → let t = tree_replay (initial_tree net) events in
        IsOpen t → ReadingRounds net rounds events
        → parent_at net.tree.parents child ≡ Some parent
        → reading_rounds_below net parent ≤ rounds
        → IsHandedOn (tree_replay t more) child parent
        × (received (tree_replay t more) child ≡ received t child) }
{
    stab_core::laws::every_replay_obeys_the_link_law();
}

/// The same of a schedule that is made of `rounds` rounds and nothing else, of which nothing is
/// asked.
pub fn rounds_bring_everything()
    ensures handed_on { (net : Network) (capacity rounds child parent : ℕ)
        → IsNetwork net → All (λ link. link.params.capacity ≤ capacity) net.links
        → parent_at net.tree.parents child ≡ Some parent
        → rounds_below net capacity parent ≤ rounds
        → IsHandedOn (tree_replay (initial_tree net) (play net.tree.parents rounds)) child parent }
    ensures complete { (net : Network) (capacity rounds child parent : ℕ)
        → IsNetwork net → All (λ link. link.params.capacity ≤ capacity) net.links
        → parent_at net.tree.parents child ≡ Some parent
        → rounds_below net capacity parent ≤ rounds
        → CompleteLaw (most_strays net child) (most_missing net child) (path_garbage net child)
        net.published
        (received (tree_replay (initial_tree net) (play net.tree.parents rounds)) child) }
{
    stab_core::laws::every_replay_obeys_the_link_law();
}

/// The same of a schedule that is made of `rounds` reading rounds and nothing else.
pub fn reading_rounds_bring_everything()
    ensures handed_on { (net : Network) (capacity rounds child parent : ℕ)
        → IsNetwork net → All (λ link. link.params.capacity ≤ capacity) net.links
        → parent_at net.tree.parents child ≡ Some parent
        → reading_rounds_below net parent ≤ rounds
        → IsHandedOn (tree_replay (initial_tree net) (play_reads capacity net.tree.parents rounds))
        child parent }
    ensures complete { (net : Network) (capacity rounds child parent : ℕ)
        → IsNetwork net → All (λ link. link.params.capacity ≤ capacity) net.links
        → parent_at net.tree.parents child ≡ Some parent
        → reading_rounds_below net parent ≤ rounds
        → CompleteLaw (most_strays net child) (most_missing net child) (path_garbage net child)
        net.published
        (received (tree_replay (initial_tree net) (play_reads capacity net.tree.parents rounds))
        child) }
{
    stab_core::laws::every_replay_obeys_the_link_law();
}
