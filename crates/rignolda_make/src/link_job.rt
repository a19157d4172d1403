ghost use Rattle.std.specs.Prelude.{◌≡◌, ◌≤◌, codes, length, string_bytes, Some, Ok, IfOk};
ghost use Rattle.std.specs.Prelude.{option_and_then};
ghost use Rattle.serde_json.specs.Data.{depth, number, unsigned};
ghost use Rattle.serde_json.specs.Find.{get};
ghost use Rattle.serde_json.specs.View.{view};
ghost use Rattle.stab_json.specs.Values.{list_of};
ghost use Rattle.stab_script.specs.Events.{event};
ghost use Rattle.stab_script.specs.LinkJobs.{link_job, most_events};
ghost use Rattle.stab_script.specs.Starts.{start};

use crate::values::{start_value, values_of};
use serde_json::{Value, json};
use stab_script::LinkJob;
use std::alloc::{AllocError, Global};

/// The text of a link job: JSON on one line, without a newline. Reading it back gives this job.
pub fn link_job_text(alloc: Global, job: &LinkJob) -> Result<String, AllocError>
    ensures { length job.now.events ≤ most_events
        → IfOk result (λ text. link_job (string_bytes text) ≡ Ok job.now) }
{
    let _lawful = job.params.capacity();
    link_job_value(alloc, job)?.to_string(alloc)
}

/// The JSON value of a link job, with its four members.
fn link_job_value(alloc: Global, job: &LinkJob) -> Result<Value, AllocError>
    ensures capacity { IfOk result (λ value.
        get (codes "capacity") (view value) ≡ Some (number (unsigned job.now.params.capacity))) }
    ensures labels { IfOk result (λ value.
        get (codes "labels") (view value) ≡ Some (number (unsigned job.now.params.labels))) }
    ensures start { IfOk result (λ value.
        option_and_then start (get (codes "start") (view value)) ≡ Some job.now.start) }
    ensures events { IfOk result (λ value.
        option_and_then (list_of event) (get (codes "events") (view value))
        ≡ Some job.now.events) }
    ensures flat { IfOk result (λ value. depth (view value) ≤ 4) }
{
    let start = start_value(alloc, &job.start)?;
    let events = values_of(alloc, job.events.as_slice())?;
    let capacity = job.params.capacity();
    let labels = job.params.labels();
    json!(in alloc; {"capacity": capacity, "labels": labels, "start": start, "events": events})
}
