//! The changes of the tree that steps are.

ghost use Rattle.std.specs.Prelude.{◌≡◌, ◌++◌, IfOk, OnOk};
ghost use Rattle.stab_tree.specs.Links.{links_of};
ghost use Rattle.rignolda_scenario.specs.Played.{acts, reading_round_of};

use stab_job::Job;
use stab_rounds::push_reading_round;
use stab_treecore::{Change, TreeEvent};
use std::alloc::{AllocError, Global};

/// One reading round of every link of a job, in file order.
pub fn reading_round_of_all(alloc: Global, job: &Job) -> Result<Vec<TreeEvent>, AllocError>
    ensures { IfOk result (λ events.
        events.items ≡ reading_round_of (links_of job.now.tree.parents) job.now.params) }
{
    let tree = job.tree();
    let params = job.params();
    let mut events = Vec::new(alloc);
    'links: for place in 0..tree.link_count() {
        let capacity = params[usize::from(place)].capacity();
        push_reading_round(&mut events, tree.link_child(place), capacity)?;
    }
    Ok(events)
}

/// Adds these events.
pub(crate) fn push_acts(changes: &mut Vec<Change>, events: &[TreeEvent]) -> Result<(), AllocError>
    ensures { OnOk result (changes.new.items ≡ changes.old.items ++ acts events.now) }
{
    for event in events {
        changes.push(Change::Act(*event))?;
    }
    Ok(())
}
