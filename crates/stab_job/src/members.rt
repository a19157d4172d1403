ghost use Rattle.std.specs.Prelude.{◌≡◌, ◌≢◌, codes, true, IfOk, IfErr, MatchResult, Ok, Some};
ghost use Rattle.std.specs.Prelude.{None, option_map, option_and_then};
ghost use Rattle.serde_json.specs.Find.{get};
ghost use Rattle.serde_json.specs.View.{view, items_view};
ghost use Rattle.stab_json.specs.Values.{item_number, list_of};
ghost use Rattle.stab_job.specs.JobMembers.{members, if_there, turns_of, entries_of};
ghost use Rattle.stab_job.specs.BorrowedMembers.{borrowed_members};
ghost use Rattle.stab_job.specs.LinkEntries.{link_entry};
ghost use Rattle.stab_job.specs.Refusals.{is_of_value};
ghost use Rattle.stab_script.specs.ScriptEntries.{script_entry};
ghost use Rattle.stab_script.specs.Starts.{start};

use crate::fault::JobFault;
use crate::link_entry::LinkEntry;
use crate::opened::{hold_of, lists_given};
use crate::version::Version;
use serde_json::Value;
use stab_core::Start;
use stab_frames::{Item, Sequence};
use stab_json::{Entry, read_entries, u16_member};
use stab_script::{ScriptEntry, StartEntry};
use std::alloc::{AllocError, Global};

/// The turns of a job that names none.
const DEFAULT_TURNS: u64 = 100_000;

/// The members of a job, each of its stated shape. The tree and the schedule are lent by the job's
/// value and not looked at, and no script is made.
#[derive(Drop)]
pub(crate) struct BorrowedMembers<'v> {
    pub(crate) capacity: u16,
    pub(crate) labels: u16,
    pub(crate) tree: &'v Value,
    pub(crate) turns: u64,
    pub(crate) schedule: &'v [Value],
    pub(crate) items: Sequence<Item>,
    pub(crate) starts: Option<Sequence<Start>>,
    pub(crate) scripts: Option<Sequence<ScriptEntry>>,
    pub(crate) links: Option<Sequence<LinkEntry>>,
    pub(crate) hold: u16,
    pub(crate) openings: Option<Sequence<Sequence<Item>>>,
}

/// The turns that a job names, or the default where it names none.
fn turns_of(value: &Value) -> Option<u64>
    ensures { result ≡ turns_of (get (codes "turns") (view value.now)) }
{
    match value.get("turns") {
        Some(turns) => turns.as_u64(),
        None => Some(DEFAULT_TURNS),
    }
}

/// The entries of the schedule: none where it is absent.
fn schedule_of<'v>(value: &'v Value) -> Option<&'v [Value]>
    ensures { option_map (λ list. items_view list.now) result
        ≡ entries_of (get (codes "schedule") (view value.now)) }
{
    match value.get("schedule") {
        Some(schedule) => Some(schedule.as_array()?.as_slice()),
        None => Some(&[]),
    }
}

/// The list that a member of an object is, if there is such a member.
pub(crate) fn list_member<'v, E: Entry<'v>>(
    alloc: Global,
    value: &'v Value,
    name: &str,
) -> Result<Option<Option<Sequence<E::Read>>>, AllocError>
    ensures { IfOk result (λ list. list
        ≡ if_there (list_of E.meaning) (get name.now (view value.now))) }
{
    let Some(list) = value.get(name) else {
        return Ok(Some(None));
    };
    let Some(list) = list.as_array() else {
        return Ok(None);
    };
    match read_entries::<E>(alloc, list.as_slice())? {
        Some(list) => Ok(Some(Some(Sequence::from_vec(list)))),
        None => Ok(None),
    }
}

/// The items that are published.
#[tactic(auto, using(crate::proofs::OptionalMembers::is_there))]
fn items_of(alloc: Global, value: &Value) -> Result<Option<Sequence<Item>>, AllocError>
    ensures { IfOk result (λ items. items
        ≡ option_and_then (list_of item_number) (get (codes "items") (view value.now))) }
{
    Ok(list_member::<Item>(alloc, value, "items")?.flatten())
}

/// What was read, where it has its shape; and else the refusal.
fn of_shape<T>(read: Result<Option<T>, AllocError>) -> Result<T, JobFault>
    ensures shape { MatchResult result
        (λ what. read ≡ Ok (Some what))
        (λ fault. fault ≢ JobFault.Memory → (fault ≡ JobFault.Shape) × (read ≡ Ok None)) }
    ensures reported { IfErr result (λ fault. is_of_value fault ≡ true) }
{
    read?.ok_or(JobFault::Shape)
}

/// The lists that have an entry for each link, where they are given.
#[derive(Drop)]
struct LinkLists {
    starts: Option<Sequence<Start>>,
    scripts: Option<Sequence<ScriptEntry>>,
    links: Option<Sequence<LinkEntry>>,
}

/// The lists of the links, or that one of them has another shape.
#[tactic(auto, using(crate::proofs::Needed::starts_needed, crate::proofs::Needed::scripts_needed, crate::proofs::Needed::links_needed))]
fn read_link_lists(alloc: Global, value: &Value) -> Result<LinkLists, JobFault>
    ensures lists { MatchResult result
        (λ lists.
        (if_there (list_of start) (get (codes "starts") (view value.now)) ≡ Some lists.starts)
        × (if_there (list_of script_entry) (get (codes "scripts") (view value.now))
        ≡ Some lists.scripts)
        × (if_there (list_of link_entry) (get (codes "links") (view value.now)) ≡ Some lists.links))
        (λ fault. fault ≢ JobFault.Memory → (fault ≡ JobFault.Shape)
        × ((version : Version) → members version (view value.now) ≡ None)) }
    ensures reported { IfErr result (λ fault. is_of_value fault ≡ true) }
{
    let starts = of_shape(list_member::<StartEntry>(alloc, value, "starts"))?;
    let scripts = of_shape(list_member::<ScriptEntry>(alloc, value, "scripts"))?;
    let links = of_shape(list_member::<LinkEntry>(alloc, value, "links"))?;
    Ok(LinkLists {
        starts,
        scripts,
        links,
    })
}

/// The members of a job of this version, or that one of them has another shape.
#[tactic(auto, using(crate::proofs::Needed::hold_needed, crate::proofs::Needed::openings_needed))]
pub(crate) fn read_members<'v>(
    alloc: Global,
    version: Version,
    value: &'v Value,
) -> Result<BorrowedMembers<'v>, JobFault>
    ensures members { MatchResult result
        (λ lent. members version (view value.now) ≡ Some (borrowed_members lent))
        (λ fault. fault ≢ JobFault.Memory
        → (fault ≡ JobFault.Shape) × (members version (view value.now) ≡ None)) }
    ensures reported { IfErr result (λ fault. is_of_value fault ≡ true) }
{
    let (Some(capacity), Some(labels)) = (
        u16_member(value, "capacity"),
        u16_member(value, "labels"),
    ) else {
        return Err(JobFault::Shape);
    };
    let (Some(tree), Some(turns)) = (value.get("tree"), turns_of(value)) else {
        return Err(JobFault::Shape);
    };
    let Some(schedule) = schedule_of(value) else {
        return Err(JobFault::Shape);
    };
    let Some(hold) = hold_of(version, value) else {
        return Err(JobFault::Shape);
    };
    let items = of_shape(items_of(alloc, value))?;
    let openings = of_shape(lists_given(alloc, version, value))?;
    let LinkLists {
        starts,
        scripts,
        links,
    } = read_link_lists(alloc, value)?;
    Ok(BorrowedMembers {
        capacity,
        labels,
        tree,
        turns,
        schedule,
        items,
        starts,
        scripts,
        links,
        hold,
        openings,
    })
}
