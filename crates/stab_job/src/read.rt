ghost use Rattle.std.specs.Prelude.{◌≡◌, ◌≢◌, ◌<◌, ℕ, List, true, false, length, IfErr, IfOk};
ghost use Rattle.std.specs.Prelude.{MatchResult, Some, None, Ok, Err};
ghost use Rattle.serde_json.specs.Find.{get};
ghost use Rattle.serde_json.specs.View.{view};
ghost use Rattle.stab_json.specs.Values.{value_of};
ghost use Rattle.stab_job.specs.JobLinks.{are_miscounted};
ghost use Rattle.stab_job.specs.JobValues.{IsJob, links};
ghost use Rattle.stab_job.specs.Jobs.{AreCounted, are_out_of_range};
ghost use Rattle.stab_job.specs.Jobs.{job, job_of_data, job_of_members};
ghost use Rattle.stab_job.specs.Jobs.{job_on_tree, job_of_scripts};
ghost use Rattle.stab_job.specs.LinkParams.{link_params};
ghost use Rattle.stab_job.specs.BorrowedMembers.{borrowed_members};
ghost use Rattle.stab_job.specs.ReadParts.{job_read};
ghost use Rattle.stab_job.specs.Refusals.{is_of_value};
ghost use Rattle.stab_tree.specs.Nodes.{Nodes};

use crate::fault::JobFault;
use crate::job::Job;
use crate::link_entry::LinkEntry;
use crate::links::{make_scripts, params_of, starts_of};
use crate::members::{BorrowedMembers, read_members};
use crate::opened::openings_of;
use crate::schedule::read_schedule;
use crate::version::version_of;
use serde_json::Value;
use stab_core::Start;
use stab_frames::{Params, Sequence};
use stab_json::read_value;
use stab_script::{MAX_EVENTS, Script, ScriptFault};
use stab_tree::{Tree, TreeFault, read_tree};
use stab_treecore::{Openings, TreeEvent};
use std::alloc::Global;

/// The parts of a job that are read once there is a tree.
#[derive(Drop)]
pub(crate) struct ReadParts {
    params: Sequence<Params>,
    starts: Sequence<Start>,
    scripts: Sequence<Script>,
    turns: u32,
    schedule: Sequence<TreeEvent>,
    openings: Openings,
}

/// The most items that a job may have.
const MAX_ITEMS: usize = 10_000;

/// The most turns that a job may name.
const MAX_TURNS: u64 = 1_000_000;

/// The job that these bytes mean, or the first check that they fail; memory may be refused before a
/// later check.
#[tactic(auto, using(stab_json::proofs::ForCallers::some_bytes))]
pub fn read_job_by_value(alloc: Global, bytes: &[u8]) -> Result<Job, JobFault>
    ensures job { MatchResult result
        (λ its_job. job bytes.now ≡ Ok its_job)
        (λ fault. fault ≢ JobFault.Memory → job bytes.now ≡ Err fault) }
    // `Json` comes only where the bytes have no value.
    ensures json { result ≡ Err JobFault.Json → value_of bytes.now ≡ None }

    // Refused memory is reported as that alone, and only where there is at least one byte.
    ensures memory { result ≡ Err JobFault.Memory → 0 < length bytes.now }
    ensures tree_memory { result ≢ Err (JobFault.Tree TreeFault.Memory) }
    ensures script_memory { result ≢ Err (JobFault.Script ScriptFault.Memory) }
{
    let Some(value) = read_value(alloc, bytes)? else {
        return Err(JobFault::Json);
    };
    job_of_value(alloc, &value)
}

/// The job that this value means, or the first check that it fails; memory may be refused before a
/// later check.
pub fn job_of_value(alloc: Global, value: &Value) -> Result<Job, JobFault>
    ensures job { MatchResult result
        (λ its_job. job_of_data (view value.now) ≡ Ok its_job)
        (λ fault. fault ≢ JobFault.Memory → job_of_data (view value.now) ≡ Err fault) }
    ensures reported { IfErr result (λ fault. is_of_value fault ≡ true) }
{
    let Some(version) = version_of(value) else {
        return Err(JobFault::Version);
    };
    let mut members = read_members(alloc, version, value)?;
    let (tree, read) = read_tree_and_parts(alloc, &mut members)?;
    Ok(Job::from_parts(
        read.params,
        tree,
        members.items,
        read.starts,
        read.scripts,
        read.turns,
        read.schedule,
        read.openings,
    ))
}

/// The tree of these members, and the parts of their job beside the items; or the first check that
/// they fail. The starts, the scripts and the openings are taken out of the members.
#[tactic(auto, using(crate::proofs::Refused::tree_fault_is_of_value))]
fn read_tree_and_parts(
    alloc: Global,
    members: &mut BorrowedMembers<'_>,
) -> Result<(Tree, ReadParts), JobFault>
    ensures items { members.new.items ≡ members.old.items }
    ensures job { MatchResult result
        (λ both. job_of_members (borrowed_members members.old)
        ≡ Ok (job_read both.0 members.old.items both.1))
        (λ fault. fault ≢ JobFault.Memory
        → job_of_members (borrowed_members members.old) ≡ Err fault) }
    ensures lawful { IfOk result (λ both. IsJob (job_read both.0 members.old.items both.1)) }
    ensures reported { IfErr result (λ fault. is_of_value fault ≡ true) }
{
    let params = Params::new(members.capacity, members.labels)?;
    let tree = read_tree(alloc, members.tree)?;
    let read = read_parts(alloc, params, &tree, members)?;
    Ok((tree, read))
}

/// The parts of the job of these members on their tree, beside the tree and the items; or the first
/// check that they fail. The starts, the scripts and the openings are taken out of the members.
#[tactic(auto, using(crate::proofs::Refused::script_fault_is_of_value))]
fn read_parts(
    alloc: Global,
    params: Params,
    tree: &Tree,
    members: &mut BorrowedMembers<'_>,
) -> Result<ReadParts, JobFault>
    requires capacity { params.capacity ≡ members.old.capacity }
    requires labels { params.labels ≡ members.old.labels }
    ensures items { members.new.items ≡ members.old.items }
    ensures job { MatchResult result
        (λ read. job_on_tree tree.now (borrowed_members members.old)
        ≡ Ok (job_read tree.now members.old.items read))
        (λ fault. fault ≢ JobFault.Memory
        → job_on_tree tree.now (borrowed_members members.old) ≡ Err fault) }
    ensures lawful { IfOk result (λ read. IsJob (job_read tree.now members.old.items read)) }
    ensures reported { IfErr result (λ fault. is_of_value fault ≡ true) }
{
    let links = tree.link_count();
    check_counts(links, members)?;
    let scripts = make_scripts(alloc, links, members.scripts.take())?;
    parts_with(alloc, params, tree, members, scripts)
}

/// The parts of the job of these scripts and of the other members, whose numbers of entries are
/// right; or the first check that the turns and the schedule fail.
fn parts_with(
    alloc: Global,
    params: Params,
    tree: &Tree,
    members: &mut BorrowedMembers<'_>,
    scripts: Sequence<Script>,
) -> Result<ReadParts, JobFault>
    requires capacity { params.capacity ≡ members.old.capacity }
    requires labels { params.labels ≡ members.old.labels }
    requires counted { AreCounted (links tree.now) (borrowed_members members.old) }
    requires one_script_each { length scripts ≡ links tree.now }
    ensures items { members.new.items ≡ members.old.items }
    ensures job { MatchResult result
        (λ read. job_of_scripts tree.now (borrowed_members members.old) scripts
        ≡ Ok (job_read tree.now members.old.items read))
        (λ fault. fault ≢ JobFault.Memory
        → job_of_scripts tree.now (borrowed_members members.old) scripts ≡ Err fault) }
    ensures lawful { IfOk result (λ read. IsJob (job_read tree.now members.old.items read)) }
    ensures reported { IfErr result (λ fault. is_of_value fault ≡ true) }
{
    let _lawful = params.capacity();
    let turns = turns_in_range(members.turns)?;
    let schedule = read_schedule(alloc, tree, members.schedule)?;
    let params = link_params(alloc, tree, params, &members.links)?;
    let openings = openings_of(alloc, tree, members.hold, members.openings.take())?;
    let starts = starts_of(alloc, tree.link_count(), members.starts.take())?;
    Ok(ReadParts {
        params,
        starts,
        scripts,
        turns,
        schedule,
        openings,
    })
}

/// These turns, where they are 1 to 1,000,000.
fn turns_in_range(turns: u64) -> Result<u32, JobFault>
    ensures { MatchResult result
        (λ its_turns. (its_turns ≡ turns) × (are_out_of_range turns ≡ false))
        (λ fault. (fault ≡ JobFault.TurnsOutOfRange) × (are_out_of_range turns ≡ true)) }
{
    if turns < 1 || turns > MAX_TURNS {
        return Err(JobFault::TurnsOutOfRange);
    }
    Ok(turns as u32)
}

/// The parameters of each link, or the first check that the entries of the links fail: there is one
/// for each link, where any are given, and only then is each looked at.
fn link_params(
    alloc: Global,
    tree: &Tree,
    of_job: Params,
    entries: &Option<Sequence<LinkEntry>>,
) -> Result<Sequence<Params>, JobFault>
    ensures params { MatchResult result
        (λ params. link_params tree.now of_job entries.now ≡ Ok params)
        (λ fault. fault ≢ JobFault.Memory → link_params tree.now of_job entries.now ≡ Err fault) }
    ensures reported { IfErr result (λ fault. is_of_value fault ≡ true) }
{
    if are_miscounted(tree.link_count(), entries) {
        return Err(JobFault::LinkCount);
    }
    params_of(alloc, tree, of_job, entries)
}

/// Whether the numbers of entries of these members are right over that many links, or the first
/// check that they fail.
#[tactic(auto, using(stab_json::proofs::ForCallers::count_of_values))]
fn check_counts(link_count: u16, members: &BorrowedMembers<'_>) -> Result<(), JobFault>
    ensures counted { MatchResult result
        (λ _. AreCounted link_count (borrowed_members members.now))
        (λ fault. (t : Nodes) → links t ≡ link_count
        → job_on_tree t (borrowed_members members.now) ≡ Err fault) }
    ensures reported { IfErr result (λ fault. is_of_value fault ≡ true) }
{
    if members.items.len() > MAX_ITEMS {
        return Err(JobFault::TooManyItems);
    }
    if members.schedule.len() > MAX_EVENTS {
        return Err(JobFault::TooManyEvents);
    }
    if are_miscounted(link_count, &members.starts) {
        return Err(JobFault::StartCount);
    }
    if are_miscounted(link_count, &members.scripts) {
        return Err(JobFault::ScriptCount);
    }
    Ok(())
}

/// Whether a list is given that has not one entry for each of that many links.
fn are_miscounted<T>(link_count: u16, list: &Option<Sequence<T>>) -> bool
    ensures { result ≡ are_miscounted link_count list.now }
{
    match list {
        Some(list) => list.len() != usize::from(link_count),
        None => false,
    }
}
