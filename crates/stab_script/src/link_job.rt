ghost use Rattle.std.specs.Prelude.{◌≡◌, ◌≢◌, ◌<◌, codes, length, None, Ok, Err, MatchResult, IfOk};
ghost use Rattle.std.specs.Prelude.{option_and_then, option_map};
ghost use Rattle.serde_json.specs.Find.{get, as_array};
ghost use Rattle.serde_json.specs.View.{view, items_view};
ghost use Rattle.stab_json.specs.Values.{value_of, entries};
ghost use Rattle.stab_script.specs.Events.{event};
ghost use Rattle.stab_script.specs.Starts.{start};
ghost use Rattle.stab_script.specs.LinkJobs.{link_job, link_job_of_data};
ghost use Rattle.stab_script.specs.LinkMembers.{members, members_read};

use crate::events::event;
use crate::start::StartEntry;
use serde_json::Value;
use stab_core::{Event, Start};
use stab_frames::{Params, ParamsFault, Sequence};
use stab_json::{Entry, read_value, u16_member};
use std::alloc::{AllocError, Global};
use thiserror::Error;

/// The most events of a link job, and the most entries of a tree's schedule.
pub const MAX_EVENTS: usize = 1_000_000;

/// Why bytes are no link job, in the order of the checks.
#[derive(Clone, Copy, Debug, PartialEq, Eq, Hash, Error)]
pub enum LinkJobFault {
    /// The bytes are no JSON.
    #[error("job: not JSON")]
    Json,
    /// Something other than an event has another shape.
    #[error("job: wrong shape")]
    Shape,
    /// The capacity and the number of labels are no parameters of a link.
    #[error("{0}")]
    Params(ParamsFault),
    /// There are more than 1,000,000 events.
    #[error("job: too many events")]
    TooManyEvents,
    /// An entry of the events is no event.
    #[error("job: bad event")]
    Event,
    /// Memory was refused.
    #[error("out of memory")]
    Memory,
}

impl From<AllocError> for LinkJobFault {
    ghost use Rattle.std.specs.Prelude.{◌≡◌};
    ghost use Rattle.stab_script.specs.declared.link_job.LinkJobFault.TheVariants.{Memory};

    ghost from_gives = { λ _ fault. fault ≡ Memory };

    fn from(_refused: AllocError) -> LinkJobFault {
        LinkJobFault::Memory
    }
}

impl From<ParamsFault> for LinkJobFault {
    ghost use Rattle.std.specs.Prelude.{◌≡◌};
    ghost use Rattle.stab_script.specs.declared.link_job.LinkJobFault.TheVariants.{Params};

    ghost from_gives = { λ refusal fault. fault ≡ Params refusal };

    fn from(refusal: ParamsFault) -> LinkJobFault {
        LinkJobFault::Params(refusal)
    }
}

/// What a link is to go through: its parameters, what is in it at the start, and its events.
#[derive(Debug)]
pub struct LinkJob {
    pub params: Params,
    pub start: Start,
    pub events: Sequence<Event>,
}

impl Drop for LinkJob {
    fn drop(self) {
        let LinkJob {
            params: _,
            start: _,
            events: _,
        } = self;
    }
}

/// The link job that these bytes mean, or the first check that they fail; memory may be refused
/// before a later check.
#[tactic(auto, using(stab_json::proofs::ForCallers::some_bytes))]
pub fn read_link_job_by_value(alloc: Global, bytes: &[u8]) -> Result<LinkJob, LinkJobFault>
    ensures job { MatchResult result
        (λ job. link_job bytes.now ≡ Ok job)
        (λ fault. fault ≢ LinkJobFault.Memory → link_job bytes.now ≡ Err fault) }
    // `Json` comes only where the bytes have no value, and `Memory` only where there is a byte.
    ensures json { result ≡ Err LinkJobFault.Json → value_of bytes.now ≡ None }
    ensures memory { result ≡ Err LinkJobFault.Memory → 0 < length bytes.now }
{
    let Some(value) = read_value(alloc, bytes)? else {
        return Err(LinkJobFault::Json);
    };
    link_job_of_value(alloc, value)
}

/// The link job that this value means, or the first check that it fails; memory may be refused
/// before a later check. The events are taken out of the value.
#[tactic(auto, using(stab_json::proofs::ForCallers::count_of_values))]
pub fn link_job_of_value(alloc: Global, value: Value) -> Result<LinkJob, LinkJobFault>
    ensures job { MatchResult result
        (λ job. link_job_of_data (view value) ≡ Ok job)
        (λ fault. fault ≢ LinkJobFault.Memory → link_job_of_data (view value) ≡ Err fault) }
    // A value is JSON already.
    ensures json { result ≢ Err LinkJobFault.Json }
{
    let Some(members) = read_members(alloc, value)? else {
        return Err(LinkJobFault::Shape);
    };
    let params = Params::new(members.capacity, members.labels)?;
    if members.events.len() > MAX_EVENTS {
        return Err(LinkJobFault::TooManyEvents);
    }
    let Some(events) = read_events(alloc, members.events)? else {
        return Err(LinkJobFault::Event);
    };
    Ok(LinkJob {
        params,
        start: members.start,
        events,
    })
}

/// The members of a link job, each of its stated shape; the entries of `events` are not looked at.
#[derive(Drop)]
struct Members {
    capacity: u16,
    labels: u16,
    start: Start,
    events: Vec<Value>,
}

/// The members of a link job, the events taken out of it, or `None` where one has another shape.
fn read_members(alloc: Global, value: Value) -> Result<Option<Members>, AllocError>
    ensures { IfOk result (λ read. option_map members_read read ≡ members (view value)) }
{
    let (Some(capacity), Some(labels)) = (
        u16_member(&value, "capacity"),
        u16_member(&value, "labels"),
    ) else {
        return Ok(None);
    };
    let Some(start) = start_member(alloc, &value)? else {
        return Ok(None);
    };
    match list_member(value, "events") {
        Some(events) => Ok(Some(Members {
            capacity,
            labels,
            start,
            events,
        })),
        None => Ok(None),
    }
}

/// The start that the member of that name is.
fn start_member(alloc: Global, value: &Value) -> Result<Option<Start>, AllocError>
    ensures { IfOk result (λ its_start. its_start
        ≡ option_and_then start (get (codes "start") (view value.now))) }
{
    match value.get("start") {
        Some(start) => StartEntry::read(alloc, start),
        None => Ok(None),
    }
}

/// The values of the list that a member of an object is, taken out of it.
fn list_member(mut value: Value, name: &str) -> Option<Vec<Value>>
    ensures { option_map (λ list. items_view list.items) result
        ≡ option_and_then as_array (get name.now (view value)) }
{
    match value.get_mut(name)?.take() {
        Value::Array(list) => Some(list),
        _ => None,
    }
}

/// The events of these values, or `None` where one of them is no event. Each value is dropped when
/// it has been read, while it is still at hand, and not in a second pass over all of them.
fn read_events(alloc: Global, values: Vec<Value>) -> Result<Option<Sequence<Event>>, AllocError>
    ensures { IfOk result (λ events. events ≡ entries event (items_view values.items)) }
{
    let mut events = Sequence::with_capacity(alloc, values.len())?;
    for value in values {
        let Some(event) = event(&value) else {
            return Ok(None);
        };
        events.push(event)?;
    }
    Ok(Some(events))
}
