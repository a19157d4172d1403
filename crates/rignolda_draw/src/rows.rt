//! The rows of a run, as a list.

ghost use Rattle.std.specs.Prelude.{◌≡◌, ◌≤◌, length, All, IfErr, IfOk, OnOk};
ghost use Rattle.stab_core.specs.Link.{IsReason};
ghost use Rattle.stab_core.specs.Replay.{IsLawful, initial};
ghost use Rattle.stab_job.specs.JobValues.{network};
ghost use Rattle.stab_job.specs.Replays.{IsReplayReason};
ghost use Rattle.stab_treecore.specs.Network.{IsNetwork};
ghost use Rattle.stab_treecore.specs.Refusals.{NamesLink};
ghost use Rattle.stab_treecore.specs.TreeReplay.{initial_tree};
ghost use Rattle.rignolda_scenario.specs.Counts.{IsUnrun};
ghost use Rattle.rignolda_scenario.specs.Played.{changes_of, most_changes};
ghost use Rattle.rignolda_draw.specs.Rows.{rows_from, tree_rows_from};
ghost use Rattle.rignolda_draw.specs.ScenarioRows.{scenario_rows};

use crate::row::Row;
use crate::steps_walk::take_scenario_run;
use crate::tree_walk::take_schedule_run;
use crate::walk::take_link_run;
use rignolda_scenario::{Scenario, ScenarioFault};
use stab_core::StartFault;
use stab_job::Job;
use stab_script::LinkJob;
use stab_treecore::TreeStartFault;
use std::alloc::Global;

/// The rows of a link job's run, one for each event. It refuses a start as `stab link` does.
#[tactic(auto, using(crate::proofs::Taking::list_taken))]
pub fn link_rows(alloc: Global, job: &LinkJob) -> Result<Vec<Row>, StartFault>
    ensures rows { IfOk result (λ rows. rows.items
        ≡ rows_from job.now.params (initial job.now.start) job.now.events) }
    ensures lawful { OnOk result (IsLawful job.now.params job.now.start) }
    ensures refused { IfErr result (IsReason job.now.params job.now.start) }
{
    let mut rows = Vec::new(alloc);
    take_link_run(alloc, job, &mut rows)?;
    Ok(rows)
}

/// The rows of the run of a job's schedule, one for each event. It refuses what [`Job::replay`]
/// refuses.
#[tactic(auto, using(crate::proofs::Taking::list_taken))]
pub fn schedule_rows(alloc: Global, job: &Job) -> Result<Vec<Row>, TreeStartFault>
    ensures rows { IfOk result (λ rows. rows.items
        ≡ tree_rows_from (initial_tree (network job.now)) job.now.schedule) }
    ensures network { OnOk result (IsNetwork (network job.now)) }
    ensures named { OnOk result (All (NamesLink job.now.tree.parents) job.now.schedule) }
    ensures refused { IfErr result (IsReplayReason job.now) }
{
    let mut rows = Vec::new(alloc);
    take_schedule_run(alloc, job, &mut rows)?;
    Ok(rows)
}

/// The rows of a scenario's acts, in their order. It refuses what `scenario_text` refuses.
#[tactic(auto, using(crate::proofs::Taking::list_taken))]
pub fn scenario_rows(alloc: Global, scenario: &Scenario) -> Result<Vec<Row>, ScenarioFault>
    ensures rows { IfOk result (λ rows. rows.items ≡ scenario_rows scenario.now) }
    ensures few { OnOk result (length (changes_of scenario.now.job.tree.parents
        scenario.now.job.params scenario.now.steps) ≤ most_changes) }
    ensures refused { IfErr result (IsUnrun scenario.now.job scenario.now.steps) }
{
    let mut rows = Vec::new(alloc);
    take_scenario_run(alloc, scenario, &mut rows)?;
    Ok(rows)
}
