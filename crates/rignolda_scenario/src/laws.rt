//! What a scenario counts obeys the law: a function with an empty body, whose contract is the law.

ghost use Rattle.std.specs.Prelude.{ℕ, ◌<◌, List, length};
ghost use Rattle.stab_treecore.specs.Changes.{Fit};
ghost use Rattle.stab_treecore.specs.Moment.{garbage_since};
ghost use Rattle.stab_treecore.specs.Since.{moment};
ghost use Rattle.stab_job.specs.JobValues.{JobValue, network};
ghost use Rattle.stab_treecore.specs.Network.{IsNetwork};
ghost use Rattle.stab_treecore.specs.TreeLaw.{TreeLaw};
ghost use Rattle.stab_treecore.specs.TreeReplay.{initial_tree};
ghost use Rattle.rignolda_scenario.specs.Counts.{counted, state_since};
ghost use Rattle.rignolda_scenario.specs.Played.{changes_of};
ghost use Rattle.rignolda_scenario.specs.declared.step.Step.{Step};

/// Whatever the steps of a scenario are, what they come to at a node obeys the tree law, with the
/// bounds that are counted there: since the last fault on its path the node received at most
/// `c.strays` strays, and then published items of its count in their order, of which only some
/// among the first `c.missing` are missing.
pub fn scenarios_obey()
    ensures { (j : JobValue) (steps : List Step) (node : ℕ)
        → IsNetwork (network j) → node < length j.tree.parents
        → Fit (initial_tree (network j)) (changes_of j.tree.parents j.params steps)
        → let c = counted j steps node in
        TreeLaw c.strays c.missing (garbage_since (moment (state_since j steps node)) node)
        c.published c.gained }
{
    stab_treecore::change_laws::every_schedule_with_faults_obeys_the_tree_law();
}
