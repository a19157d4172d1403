//! Jobs in the plain form that come to their end, read off their text.

ghost use Rattle.std.specs.Prelude.{◌≡◌, IfOk, IfSome, None};
ghost use Rattle.stab_json.specs.Values.{value_of};
ghost use Rattle.rignolda_explain.specs.Kinds.{chosen};
ghost use Rattle.rignolda_explain.specs.Refusals.{refusal_of};
ghost use Rattle.rignolda_explain.specs.Stops.{IsStopOf};

use crate::job::look_at_job;
use crate::reader::{stop_of_job, stop_of_link_job};
use rignolda_findings::{Kind, Notes, seems_a_link_job};
use stab_job::read_plain_job;
use stab_script::read_plain_link_job;
use std::alloc::{AllocError, Global};

/// The kind of these bytes and what is found in them, where they are a job in the plain form that
/// is accepted and comes to its end; nothing is said of them where there is none.
pub(crate) fn walked_off_the_text(
    alloc: Global,
    given: Option<Kind>,
    bytes: &[u8],
) -> Result<Option<(Kind, Notes)>, AllocError>
    ensures kind { IfOk result (λ found. IfSome found (λ seen.
        seen.0 ≡ chosen given (value_of bytes.now))) }
    ensures refusal { IfOk result (λ found. IfSome found (λ seen.
        refusal_of seen.0 bytes.now ≡ None)) }
    ensures stop { IfOk result (λ found. IfSome found (λ seen.
        IsStopOf seen.0 bytes.now None)) }
{
    let kind = match given {
        Some(kind) => kind,
        None => seeming(bytes),
    };
    let notes = match kind {
        Kind::LinkJob => walked_link_job(alloc, bytes)?,
        Kind::Job => walked_job(alloc, bytes)?,
    };
    match notes {
        Some(notes) => Ok(Some((kind, notes))),
        None => Ok(None),
    }
}

/// The kind that these bytes seem to be of.
fn seeming(bytes: &[u8]) -> Kind {
    if seems_a_link_job(bytes) {
        Kind::LinkJob
    } else {
        Kind::Job
    }
}

/// What is found in the link job that these bytes are, which has no other members: nothing.
#[tactic(auto, using(crate::proofs::KnownKinds::plain_link_is_one))]
fn walked_link_job(alloc: Global, bytes: &[u8]) -> Result<Option<Notes>, AllocError>
    ensures kind { IfOk result (λ found. IfSome found (λ _.
        chosen None (value_of bytes.now) ≡ Kind.LinkJob)) }
    ensures refusal { IfOk result (λ found. IfSome found (λ _.
        refusal_of Kind.LinkJob bytes.now ≡ None)) }
    ensures stop { IfOk result (λ found. IfSome found (λ _.
        IsStopOf Kind.LinkJob bytes.now None)) }
{
    let Some(job) = read_plain_link_job(alloc, bytes)? else {
        return Ok(None);
    };
    if stop_of_link_job(&job).is_some() {
        return Ok(None);
    }
    Ok(Some(Notes::new(alloc, Kind::LinkJob)))
}

/// What is found in the members of the job of a tree that these bytes are: only what its reader
/// ignores.
#[tactic(auto, using(crate::proofs::KnownKinds::job_is_a_tree))]
fn walked_job(alloc: Global, bytes: &[u8]) -> Result<Option<Notes>, AllocError>
    ensures kind { IfOk result (λ found. IfSome found (λ _.
        chosen None (value_of bytes.now) ≡ Kind.Job)) }
    ensures refusal { IfOk result (λ found. IfSome found (λ _.
        refusal_of Kind.Job bytes.now ≡ None)) }
    ensures stop { IfOk result (λ found. IfSome found (λ _. IsStopOf Kind.Job bytes.now None)) }
{
    let Some((job, members)) = read_plain_job(alloc, bytes, true)? else {
        return Ok(None);
    };
    if stop_of_job(&job).is_some() {
        return Ok(None);
    }
    let mut notes = Notes::new(alloc, Kind::Job);
    look_at_job(&mut notes, &members)?;
    Ok(Some(notes))
}
