ghost use Rattle.std.specs.Prelude.{◌≡◌, ◌<◌, ◌≤◌, ◌⊎◌, List, [], ◌∷◌, ℕ, length, true, false};
ghost use Rattle.std.specs.Prelude.{Some, None, IfSome, IfOk};
ghost use Rattle.std.specs.Bool.{MatchBool};
ghost use Rattle.json.specs.Token.{Token as SpecToken};
ghost use Rattle.serde_json.specs.Data.{Items, array};
ghost use Rattle.stab_json.specs.Values.{count};
ghost use Rattle.stab_script.specs.LinkJobs.{most_events};
ghost use Rattle.stab_script.specs.Leads.{LeadsOn, EntriesTaken};
ghost use Rattle.stab_script.specs.Members.{in_member};
ghost use Rattle.stab_script.specs.Plain.{AreEntries, IsEvent, IsEvents, IsRead};
ghost use Rattle.stab_script.specs.Standing.{Stands, EntriesStand};

use crate::link_job::MAX_EVENTS;
use crate::stepped::TakesEvents;
use crate::stream_event::next_event;
use json::{Reader, Token};
use stab_core::Event;
use std::alloc::AllocError;

/// Takes the event of an entry, where it is one and each before it was, and answers whether each is
/// so far.
#[inline(always)]
fn take_entry<T: TakesEvents>(
    to: &mut T,
    entry: Option<Event>,
    were_events: bool,
) -> Result<bool, AllocError>
    ensures { IfOk result (λ are_events. MatchBool are_events
        ((were_events ≡ true) × (its_event : Event) × (entry ≡ Some its_event)
        × LeadsOn T.StandsAfter to.old (its_event ∷ []) to.new)
        ((were_events ≡ false) ⊎ (entry ≡ None))) }
{
    let Some(event) = entry else {
        return Ok(false);
    };
    if were_events {
        to.take(event)?;
    }
    Ok(were_events)
}

/// Takes the events of a list, whose opening bracket was taken, each as it is read. Answers whether
/// each entry is an event: of one that is none, and of those after it, none is taken. There is no
/// answer where the list has not the plain form, or more entries than a job may have.
fn take_entries<T: TakesEvents>(
    reader: &mut Reader<'_>,
    to: &mut T,
) -> Result<Option<bool>, AllocError>
    ensures value { IfOk result (λ found. IfSome found (λ are_events. (ds : Items)
        × ((depth : ℕ) → 0 < depth
        → EntriesStand depth (length reader.old) reader.old ds reader.new)
        × (count ds ≤ most_events) × EntriesTaken T.StandsAfter to.old ds are_events to.new)) }
    ensures shorter { IfOk result (λ found. IfSome found (λ _.
        length reader.new < length reader.old)) }
    ensures plain { IfOk result (λ found. (n : ℕ) (rest : List SpecToken) → n ≤ most_events
        → AreEntries IsEvent n reader.old rest → IsRead found reader.new rest) }
{
    let mut count = 0;
    let mut are_events = true;
    'entries: while !reader.take_end_array() {
        let Some(entry) = next_event(reader) else {
            return Ok(None);
        };
        if count == MAX_EVENTS {
            return Ok(None);
        }
        count += 1;
        are_events = take_entry(to, entry, are_events)?;
    }
    Ok(Some(are_events))
}

/// Takes the events of the list that comes next, each as it is read; answers as for its entries.
pub(crate) fn take_list<T: TakesEvents>(
    reader: &mut Reader<'_>,
    to: &mut T,
) -> Result<Option<bool>, AllocError>
    ensures value { IfOk result (λ found. IfSome found (λ are_events. (ds : Items)
        × (Stands in_member reader.old (array ds) reader.new)
        × (count ds ≤ most_events) × EntriesTaken T.StandsAfter to.old ds are_events to.new)) }
    ensures shorter { IfOk result (λ found. IfSome found (λ _.
        length reader.new < length reader.old)) }
    ensures plain { IfOk result (λ found. (rest : List SpecToken)
        → IsEvents reader.old rest → IsRead found reader.new rest) }
{
    let Some(Token::BeginArray) = reader.next() else {
        return Ok(None);
    };
    let Some(are_events) = take_entries(reader, to)? else {
        return Ok(None);
    };
    Ok(Some(are_events))
}
