ghost use Rattle.std.specs.Prelude.{◌≡◌, ◌≢◌, ◌≤◌, ◌<◌, ℕ, [], List, Option, length, Some, None};
ghost use Rattle.std.specs.Prelude.{Ok, Err, MatchResult, MatchOption, IfSome, IfOk, OnErr, IsTrue};
ghost use Rattle.std.specs.Prelude.{IsSome, option_map};
ghost use Rattle.json.specs.Token.{Token as SpecToken};
ghost use Rattle.json.specs.Lex.{tokens};
ghost use Rattle.serde_json.specs.Data.{Data, Items, Members, no_members, put, array, object};
ghost use Rattle.stab_core.specs.declared.event.Event.{Event};
ghost use Rattle.stab_core.specs.declared.start.Start.{Start};
ghost use Rattle.stab_frames.specs.Parameters.{Parameters, fault_of};
ghost use Rattle.stab_json.specs.Values.{value_of, count, entries};
ghost use Rattle.stab_script.specs.Events.{event};
ghost use Rattle.stab_script.specs.LinkJobs.{link_job, most_events};
ghost use Rattle.stab_script.specs.declared.link_job.LinkJob.{LinkJob};
ghost use Rattle.stab_script.specs.Standing.{Stands, MembersMake};
ghost use Rattle.stab_script.specs.Members.{in_job, in_member, HasJob, HasNoOthers, job_with};
ghost use Rattle.stab_script.specs.Plain.{IsEvents, IsInObject, IsMemberOfJob, IsPlain, IsRead};

use crate::link_job::{LinkJob, LinkJobFault};
use crate::number::next_u16;
use crate::stream_events::take_list;
use crate::stream_start::next_start;
use json::{Reader, Scratch, Token};
use stab_core::{Event, Start};
use stab_frames::{Params, Sequence};
use std::alloc::{AllocError, Global};

/// What was read of a link job so far.
#[derive(Drop)]
pub(crate) struct JobParts {
    pub(crate) capacity: Option<u16>,
    pub(crate) labels: Option<u16>,
    pub(crate) start: Option<Start>,
    /// `Some(None)` is a list of which an entry is no event.
    pub(crate) events: Option<Option<Sequence<Event>>>,
}

/// The link job that these bytes mean, or the first check that they fail; memory may be refused
/// before a later check.
pub fn read_link_job(alloc: Global, bytes: &[u8]) -> Result<LinkJob, LinkJobFault>
    ensures job { MatchResult result
        (λ job. link_job bytes.now ≡ Ok job)
        (λ fault. fault ≢ LinkJobFault.Memory → link_job bytes.now ≡ Err fault) }
    // `Json` comes only where the bytes have no value, and `Memory` only where there is a byte.
    ensures json { result ≡ Err LinkJobFault.Json → value_of bytes.now ≡ None }
    ensures memory { result ≡ Err LinkJobFault.Memory → 0 < length bytes.now }
{
    match read_plain(alloc, bytes) {
        Ok(Some(Some(job))) => Ok(job),
        Ok(Some(None)) => Err(LinkJobFault::Event),
        Ok(None) => crate::link_job::read_link_job_by_value(alloc, bytes),
        Err(_) => Err(LinkJobFault::Memory),
    }
}

/// The link job that these bytes mean, where they have the plain form; where there is none, they
/// have it not, or mean no job. The value of a text in this form has no members but those of a link
/// job.
pub fn read_plain_link_job(alloc: Global, bytes: &[u8]) -> Result<Option<LinkJob>, AllocError>
    ensures job { IfOk result (λ found. IfSome found (λ job. link_job bytes.now ≡ Ok job)) }
    ensures plain { IfOk result (λ found. IsPlain bytes.now
        → (job : LinkJob) → link_job bytes.now ≡ Ok job → found ≡ Some job) }
    ensures others { IfOk result (λ found. IfSome found (λ _.
        IfSome (value_of bytes.now) HasNoOthers)) }
    ensures memory { OnErr result (0 < length bytes.now) }
{
    match read_plain(alloc, bytes)? {
        Some(job) => Ok(job),
        None => Ok(None),
    }
}

/// The link job that these bytes mean, where they have the plain form: `Some(None)` where it has
/// one fault alone, an entry that is no event.
fn read_plain(alloc: Global, bytes: &[u8]) -> Result<Option<Option<LinkJob>>, AllocError>
    ensures job { IfOk result (λ found. IfSome found (λ job. MatchOption job
        (link_job bytes.now ≡ Err LinkJobFault.Event) (λ job. link_job bytes.now ≡ Ok job))) }
    ensures plain { IfOk result (λ found. IsPlain bytes.now
        → (job : LinkJob) → link_job bytes.now ≡ Ok job → IsSome found) }
    ensures others { IfOk result (λ found. IfSome found (λ _.
        IfSome (value_of bytes.now) HasNoOthers)) }
    ensures memory { OnErr result (0 < length bytes.now) }
{
    let Ok(text) = std::str::from_utf8(bytes) else {
        return Ok(None);
    };
    let Some(parts) = read_text(alloc, text)? else {
        return Ok(None);
    };
    let Some(job) = whole_job(parts) else {
        return Ok(None);
    };
    Ok(Some(job))
}

/// The parts of the link job that a text is, where it has the plain form.
fn read_text(alloc: Global, text: &str) -> Result<Option<JobParts>, AllocError>
    ensures value { IfOk result (λ found. IfSome found (λ parts. (ms : Members)
        × (Stands in_job (tokens text.now) (object ms) [])
        × HasJob parts.capacity parts.labels parts.start parts.events ms)) }
    ensures plain { IfOk result (λ found. IsPlain text.now → IsSome found) }
    ensures memory { OnErr result (0 < length text.now) }
{
    let mut scratch = Scratch::new(alloc);
    let mut reader = Reader::new(text, &mut scratch)?;
    let Some(Token::BeginObject) = reader.next() else {
        return Ok(None);
    };
    let Some(parts) = read_members(alloc, &mut reader)? else {
        return Ok(None);
    };
    match reader.next() {
        Some(_) => Ok(None),
        None => Ok(Some(parts)),
    }
}

/// The members of a link job, whose opening brace was taken.
fn read_members(alloc: Global, reader: &mut Reader<'_>) -> Result<Option<JobParts>, AllocError>
    ensures value { IfOk result (λ found. IfSome found (λ parts. (ms : Members)
        × (MembersMake in_member no_members (length reader.old) reader.old ms reader.new)
        × HasJob parts.capacity parts.labels parts.start parts.events ms)) }
    ensures plain { IfOk result (λ found. (rest : List SpecToken)
        → IsInObject IsMemberOfJob reader.old rest → IsRead found reader.new rest) }
{
    let mut parts = JobParts {
        capacity: None,
        labels: None,
        start: None,
        events: None,
    };
    'members: loop {
        let Ok(name) = reader.next_key() else {
            return Ok(None);
        };
        let Some(name) = name else {
            return Ok(Some(parts));
        };
        if !read_member(alloc, reader, name, &mut parts)? {
            return Ok(None);
        }
    }
}

/// Reads the member of that name, whose value comes next; false where it has not the plain form.
pub(crate) fn read_member(
    alloc: Global,
    reader: &mut Reader<'_>,
    name: &str,
    parts: &mut JobParts,
) -> Result<bool, AllocError>
    ensures value { IfOk result (λ done. IsTrue done → (d : Data)
        × (Stands in_member reader.old d reader.new)
        × ((ms : Members)
        → HasJob parts.old.capacity parts.old.labels parts.old.start parts.old.events ms
        → HasJob parts.new.capacity parts.new.labels parts.new.start parts.new.events
        (put name.now d ms))) }
    ensures shorter { IfOk result (λ done. IsTrue done → length reader.new < length reader.old) }
    ensures plain { IfOk result (λ done. (rest : List SpecToken)
        → IsMemberOfJob name.now reader.old rest → IsTrue done × (reader.new ≡ rest)) }
{
    match name {
        "capacity" => {
            let Some(capacity) = next_u16(reader) else {
                return Ok(false);
            };
            parts.capacity = Some(capacity);
        }
        "labels" => {
            let Some(labels) = next_u16(reader) else {
                return Ok(false);
            };
            parts.labels = Some(labels);
        }
        "start" => {
            let Some(start) = next_start(alloc, reader)? else {
                return Ok(false);
            };
            parts.start = Some(start);
        }
        "events" => {
            let Some(events) = read_events(alloc, reader)? else {
                return Ok(false);
            };
            parts.events = Some(events);
        }
        _ => return Ok(false),
    }
    Ok(true)
}

/// The events of the list that comes next, where it has the plain form, or `Some(None)` where an
/// entry of it is no event.
fn read_events(
    alloc: Global,
    reader: &mut Reader<'_>,
) -> Result<Option<Option<Sequence<Event>>>, AllocError>
    ensures value { IfOk result (λ found. IfSome found (λ events. (ds : Items)
        × (Stands in_member reader.old (array ds) reader.new)
        × (count ds ≤ most_events) × (entries event ds ≡ events))) }
    ensures shorter { IfOk result (λ found. IfSome found (λ _.
        length reader.new < length reader.old)) }
    ensures plain { IfOk result (λ found. (rest : List SpecToken)
        → IsEvents reader.old rest → IsRead found reader.new rest) }
{
    let mut events = Sequence::new(alloc);
    let Some(are_events) = take_list(reader, &mut events)? else {
        return Ok(None);
    };
    if are_events {
        Ok(Some(Some(events)))
    } else {
        Ok(Some(None))
    }
}

/// The link job of these parts, where all are there and pass each check: `Some(None)` where an
/// entry of the events alone fails.
fn whole_job(parts: JobParts) -> Option<Option<LinkJob>>
    ensures job { IfSome result (λ job. (params : Parameters) × (start : Start)
        × (events : Option (List Event))
        × (parts.capacity ≡ Some params.capacity) × (parts.labels ≡ Some params.labels)
        × (fault_of params.capacity params.labels ≡ None)
        × (parts.start ≡ Some start) × (parts.events ≡ Some events)
        × (job ≡ option_map (job_with params start) events)) }
    ensures plain { (capacity : ℕ) (labels : ℕ) (start : Start) (events : Option (List Event))
        → parts.capacity ≡ Some capacity → parts.labels ≡ Some labels
        → parts.start ≡ Some start → parts.events ≡ Some events
        → fault_of capacity labels ≡ None → IsSome result }
{
    let JobParts {
        capacity,
        labels,
        start,
        events,
    } = parts;
    let Ok(params) = Params::new(capacity?, labels?) else {
        return None;
    };
    let start = start?;
    match events? {
        Some(events) => Some(Some(LinkJob {
            params,
            start,
            events,
        })),
        None => Some(None),
    }
}
