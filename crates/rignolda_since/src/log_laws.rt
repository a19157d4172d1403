//! Laws over the definitions alone: a function with an empty body, whose contract is the law.

ghost use Rattle.std.specs.Prelude.{◌≡◌, ◌<◌, ℕ, List, Some, length};
ghost use Rattle.stab_treecore.specs.declared.change.Change.{Change};
ghost use Rattle.stab_treecore.specs.Changes.{Fit, changes_replay};
ghost use Rattle.stab_treecore.specs.Hits.{Spare};
ghost use Rattle.stab_treecore.specs.Moment.{FollowsSince, Moment, SharperLawSince};
ghost use Rattle.stab_treecore.specs.Since.{gained, moment};
ghost use Rattle.rignolda_since.specs.Logs.{LogsValue};
ghost use Rattle.rignolda_since.specs.ObeysLogs.{IsLogOf, IsMomentOf, LogObeys};
ghost use Rattle.stab_tree.specs.Nodes.{parent_at};
ghost use Rattle.stab_treecore.specs.Network.{IsNetwork, Network};
ghost use Rattle.stab_treecore.specs.TreeReplay.{initial_tree};

/// No log of a run is found broken. Whatever was in the links and nodes at a moment, within what
/// they may hold, a node that obeys the sharper tree law since and follows its parent has a log that
/// obeys. So it is of every run: since the last fault on its path, each node has one.
pub fn runs_since_a_fault_obey()
    ensures moments { (net : Network) (logs : LogsValue) (m : Moment)
        (gain : ℕ → List ℕ) (node : ℕ) → IsMomentOf net m → IsLogOf net logs m gain node
        → SharperLawSince m gain node
        → ((parent : ℕ) → parent_at m.parents node ≡ Some parent → FollowsSince m gain node parent)
        → LogObeys net logs node }
    ensures runs { (first net : Network) (before after : List Change) (logs : LogsValue) (node : ℕ)
        → IsNetwork first → Fit (initial_tree first) before
        → let s = changes_replay (initial_tree first) before in
        node < length s.parents → Spare s.parents node after → IsMomentOf net (moment s)
        → IsLogOf net logs (moment s) (gained s (changes_replay s after)) node
        → LogObeys net logs node }
{
    stab_treecore::change_laws::law_of_short_backlogs();
    stab_treecore::change_laws::every_schedule_with_faults_obeys_the_tree_law();
    stab_treecore::change_laws::children_follow_their_parents();
}
