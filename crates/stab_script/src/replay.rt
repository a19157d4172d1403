ghost use Rattle.std.specs.Prelude.{◌≡◌, ◌≢◌, ◌<◌, [], List, length, Option, Some, None, Ok, Err};
ghost use Rattle.std.specs.Prelude.{IfSome, IfOk, IfErr, OnErr};
ghost use Rattle.json.specs.Lex.{tokens};
ghost use Rattle.serde_json.specs.Data.{Members, no_members, object};
ghost use Rattle.stab_core.specs.Replay.{IsLawful};
ghost use Rattle.stab_core.specs.declared.event.Event.{Event};
ghost use Rattle.stab_core.specs.declared.start.Start.{Start};
ghost use Rattle.stab_script.specs.LinkJobs.{link_job};
ghost use Rattle.stab_script.specs.declared.link_job.LinkJob.{LinkJob};
ghost use Rattle.stab_frames.specs.Parameters.{Parameters, fault_of};
ghost use Rattle.stab_script.specs.Members.{in_job, in_member, HasJob};
ghost use Rattle.stab_script.specs.Standing.{Stands, MembersMake};
ghost use Rattle.stab_script.specs.Leads.{StandsWhere, LacksEvents};

use crate::link_job::LinkJobFault;
use crate::stepped::Stepped;
use crate::stream_events::take_list;
use crate::stream_job::{JobParts, read_member};
use json::{Reader, Scratch, Token};
use stab_frames::Params;
use std::alloc::{AllocError, Global};

/// Where the events of the link job lead that these bytes mean, if they have the plain form with
/// the events as their last member; nothing is said of them where there is no answer. A text whose
/// one fault is that an entry is no event is refused for it.
///
/// Each event happens as it is read, so no list of them is kept. `has_begun` becomes true where the
/// list of events is reached: a text that is not answered then has not the plain form in any order
/// of its members, so there is no use in reading it so again.
pub fn replay_plain_link_job<S: Stepped>(
    alloc: Global,
    bytes: &[u8],
    has_begun: &mut bool,
) -> Result<Option<S>, LinkJobFault>
    ensures replay { IfOk result (λ found. IfSome found (λ stepped. (job : LinkJob)
        × (link_job bytes.now ≡ Ok job) × IsLawful job.params job.start
        × S.StandsAfter stepped job.params job.start job.events)) }
    ensures fault { IfErr result (λ fault. fault ≢ LinkJobFault.Memory
        → link_job bytes.now ≡ Err fault) }
    // `Json` never comes, and `Memory` only where there is a byte.
    ensures json { result ≢ Err LinkJobFault.Json }
    ensures memory { result ≡ Err LinkJobFault.Memory → 0 < length bytes.now }
{
    let Ok(text) = std::str::from_utf8(bytes) else {
        return Ok(None);
    };
    match step_text::<S>(alloc, text, has_begun)? {
        Some(Some(stepped)) => Ok(Some(stepped)),
        Some(None) => Err(LinkJobFault::Event),
        None => Ok(None),
    }
}

/// Where the events of the link job lead that a text is, or `Some(None)` where an entry of them is
/// no event.
fn step_text<S: Stepped>(
    alloc: Global,
    text: &str,
    has_begun: &mut bool,
) -> Result<Option<Option<S>>, AllocError>
    ensures value { IfOk result (λ found. IfSome found (λ stepped. (ms : Members)
        × (Stands in_job (tokens text.now) (object ms) [])
        × (params : Parameters) × (start : Start) × (events : Option (List Event))
        × (fault_of params.capacity params.labels ≡ None)
        × (HasJob (Some params.capacity) (Some params.labels) (Some start) (Some events) ms)
        × IsLawful params start × StandsWhere S.StandsAfter stepped params start events)) }
    ensures memory { OnErr result (0 < length text.now) }
{
    let mut scratch = Scratch::new(alloc);
    let mut reader = Reader::new(text, &mut scratch)?;
    let Some(Token::BeginObject) = reader.next() else {
        return Ok(None);
    };
    let Some(stepped) = step_members::<S>(alloc, &mut reader, has_begun)? else {
        return Ok(None);
    };
    match reader.next() {
        Some(_) => Ok(None),
        None => Ok(Some(stepped)),
    }
}

/// Where the events lead that are the last of the members, whose opening brace was taken, or
/// `Some(None)` where an entry of them is no event.
fn step_members<S: Stepped>(
    alloc: Global,
    reader: &mut Reader<'_>,
    has_begun: &mut bool,
) -> Result<Option<Option<S>>, AllocError>
    ensures { IfOk result (λ found. IfSome found (λ stepped. (ms : Members)
        × (MembersMake in_member no_members (length reader.old) reader.old ms reader.new)
        × (params : Parameters) × (start : Start) × (events : Option (List Event))
        × (fault_of params.capacity params.labels ≡ None)
        × (HasJob (Some params.capacity) (Some params.labels) (Some start) (Some events) ms)
        × IsLawful params start × StandsWhere S.StandsAfter stepped params start events)) }
{
    let Some(parts) = read_head(alloc, reader)? else {
        return Ok(None);
    };
    let Some(mut stepped) = begun::<S>(alloc, parts) else {
        return Ok(None);
    };
    *has_begun = true;
    let Some(are_events) = take_list(reader, &mut stepped)? else {
        return Ok(None);
    };
    let Ok(None) = reader.next_key() else {
        return Ok(None);
    };
    if are_events {
        Ok(Some(Some(stepped)))
    } else {
        Ok(Some(None))
    }
}

/// The members before the events, whose name is taken.
fn read_head(alloc: Global, reader: &mut Reader<'_>) -> Result<Option<JobParts>, AllocError>
    ensures { IfOk result (λ found. IfSome found (λ parts. (ms : Members)
        × (LacksEvents reader.old ms reader.new)
        × HasJob parts.capacity parts.labels parts.start parts.events ms)) }
{
    let mut parts = JobParts {
        capacity: None,
        labels: None,
        start: None,
        events: None,
    };
    'members: loop {
        let Ok(Some(name)) = reader.next_key() else {
            return Ok(None);
        };
        match name {
            "events" => return Ok(Some(parts)),
            _ => {
                if !read_member(alloc, reader, name, &mut parts)? {
                    return Ok(None);
                }
            }
        }
    }
}

/// Where the start is that was read, if all is there and passes each check.
fn begun<S: Stepped>(alloc: Global, parts: JobParts) -> Option<S>
    ensures { IfSome result (λ stepped. (params : Parameters) × (start : Start)
        × (parts.capacity ≡ Some params.capacity) × (parts.labels ≡ Some params.labels)
        × (parts.start ≡ Some start) × (fault_of params.capacity params.labels ≡ None)
        × IsLawful params start × S.StandsAfter stepped params start []) }
{
    let JobParts {
        capacity,
        labels,
        start,
        events: _events,
    } = parts;
    let Ok(params) = Params::new(capacity?, labels?) else {
        return None;
    };
    let start = start?;
    let Ok(stepped) = S::begin(alloc, params, &start) else {
        return None;
    };
    Some(stepped)
}
