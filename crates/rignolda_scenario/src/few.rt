//! Whether steps are few enough to be run, which is known without a list of their changes.

ghost use Rattle.std.specs.Prelude.{◌≡◌, ◌↔◌, ◌≤◌, ◌*◌, IsTrue, List, Option, length, ℕ};
ghost use Rattle.stab_frames.specs.Parameters.{Parameters};
ghost use Rattle.stab_rounds.specs.TreePlayed.{round_from};
ghost use Rattle.stab_tree.specs.Links.{links_of};
ghost use Rattle.rignolda_scenario.specs.Played.{changes_in, changes_of, most_changes};
ghost use Rattle.rignolda_scenario.specs.Played.{reading_round_of};

use crate::step::Step;
use stab_job::Job;
use stab_script::MAX_EVENTS;
use stab_tree::Tree;

/// How many acts a round of all links is: five on each.
#[tactic(auto, using(crate::proofs::Lengths::round_acts))]
fn round_len(tree: &Tree) -> u64
    ensures acts { result ≡ length (round_from 0 tree.now.parents) }
    ensures small { result ≤ 5 * 65535 }
{
    5 * u64::from(tree.link_count())
}

/// How many acts a reading round of all links is: five on each, and two for each place of its
/// queues.
#[tactic(auto, using(crate::proofs::Lengths::reading_acts))]
fn reading_round_len(job: &Job) -> u64
    ensures acts { result
        ≡ length (reading_round_of (links_of job.now.tree.parents) job.now.params) }
    ensures small { result ≤ 133 * 65535 }
{
    let _links = job.tree().link_count();
    let mut acts = 0;
    for own in job.params() {
        acts += 5 + 2 * u64::from(own.capacity());
    }
    acts
}

/// How many changes a step is, where a round and a reading round of all links are so many acts.
#[tactic(auto, using(crate::proofs::Lengths::repeated_acts))]
fn step_len(step: &Step, round: u64, reading_round: u64) -> u64
    requires small_round { round ≤ 5 * 65535 }
    requires small_reading_round { reading_round ≤ 133 * 65535 }
    ensures changes { (parents : List (Option ℕ)) (params : List Parameters)
        → round ≡ length (round_from 0 parents)
        → reading_round ≡ length (reading_round_of (links_of parents) params)
        → result ≡ length (changes_in parents params step.now) }
    ensures small { result ≤ 133 * 65535 * 65535 }
{
    match step {
        Step::One(_) => 1,
        Step::Rounds(count) => u64::from(*count) * round,
        Step::ReadingRounds(count) => u64::from(*count) * reading_round,
    }
}

/// Whether these steps of a job are at most [`MAX_EVENTS`] changes of the tree.
pub fn are_few(job: &Job, steps: &[Step]) -> bool
    ensures { IsTrue result
        ↔ (length (changes_of job.now.tree.parents job.now.params steps.now) ≤ most_changes) }
{
    let round = round_len(job.tree());
    let reading_round = reading_round_len(job);
    let mut changes = 0;
    for step in steps {
        changes += step_len(step, round, reading_round);
        if changes > MAX_EVENTS as u64 {
            return false;
        }
    }
    true
}
