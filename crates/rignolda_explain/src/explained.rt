ghost use Rattle.std.specs.Prelude.{◌≡◌, All, IfOk, IfSome, IsSome, IsTrue, None, Some};
ghost use Rattle.stab_json.specs.Values.{value_of};
ghost use Rattle.rignolda_explain.specs.Findings.{IsNoRefusal, LedBy};
ghost use Rattle.rignolda_explain.specs.Kinds.{chosen};
ghost use Rattle.rignolda_explain.specs.Refusals.{refusal_of};
ghost use Rattle.rignolda_explain.specs.Stops.{IsStopOf, first_stop, stop_in};

use crate::job::look_at_job;
use crate::plain::walked_off_the_text;
use crate::reader::{Answer, answer_of, chosen};
use crate::stop::{Stop, first_stop};
use rignolda_findings::{
    Explanation, Finding, Kind, Matter, Notes, Piece, Place, Refusal, line_of, look_at_bytes,
    look_at_link_job,
};
use serde_json::Value;
use stab_json::read_value;
use std::alloc::{AllocError, Global};

/// What is wrong with these bytes, read as a job of the given kind, or of the kind that they look
/// like: an object with a member `tree` is a job of a tree, and everything else a link job. Where
/// the reader accepts them, no finding is of a refusal, and the first one of a stop is there
/// exactly where the job stops for it. Only memory can be refused.
pub fn explain(alloc: Global, given: Option<Kind>, bytes: &[u8]) -> Result<Explanation, AllocError>
    ensures kind { IfOk result (λ its. its.kind ≡ chosen given (value_of bytes.now)) }
    ensures refusal { IfOk result (λ its. its.refusal ≡ refusal_of its.kind bytes.now) }
    ensures first { IfOk result (λ its. LedBy its.refusal its.findings.items) }
    ensures stop { IfOk result (λ its. its.refusal ≡ None
        → IsStopOf its.kind bytes.now (first_stop its.findings.items)) }
{
    let (kind, notes, refusal, stop) = walked(alloc, given, bytes)?;
    let (findings, omitted) = notes.into_parts();
    let findings = led_by(alloc, &refusal, stop, findings)?;
    Ok(Explanation {
        kind,
        refusal,
        findings,
        omitted,
    })
}

/// The kind of the bytes, what is found in them, and what the reader of that kind answers. A job
/// that comes to its end is read off its text, where it can be.
fn walked(
    alloc: Global,
    given: Option<Kind>,
    bytes: &[u8],
) -> Result<(Kind, Notes, Option<Refusal>, Option<Stop>), AllocError>
    ensures kind { IfOk result (λ all. all.0 ≡ chosen given (value_of bytes.now)) }
    ensures refusal { IfOk result (λ all. all.2 ≡ refusal_of all.0 bytes.now) }
    ensures stop { IfOk result (λ all. IsStopOf all.0 bytes.now all.3) }
{
    match walked_off_the_text(alloc, given, bytes)? {
        Some((kind, notes)) => Ok((kind, notes, None, None)),
        None => walked_by_value(alloc, given, bytes),
    }
}

/// The same, by the value of the bytes.
fn walked_by_value(
    alloc: Global,
    given: Option<Kind>,
    bytes: &[u8],
) -> Result<(Kind, Notes, Option<Refusal>, Option<Stop>), AllocError>
    ensures kind { IfOk result (λ all. all.0 ≡ chosen given (value_of bytes.now)) }
    ensures refusal { IfOk result (λ all. all.2 ≡ refusal_of all.0 bytes.now) }
    ensures stop { IfOk result (λ all. IsStopOf all.0 bytes.now all.3) }
{
    let value = read_value(alloc, bytes)?;
    let kind = chosen(given, value.as_ref());
    let notes = look(alloc, kind, value.as_ref(), bytes)?;
    let Answer { refusal, stop } = answer_of(alloc, kind, value)?;
    Ok((kind, notes, refusal, stop))
}

/// What is found in the value of these bytes, or that they have none.
fn look(
    alloc: Global,
    kind: Kind,
    value: Option<&Value>,
    bytes: &[u8],
) -> Result<Notes, AllocError> {
    let mut notes = Notes::new(alloc, kind);
    match (value, kind) {
        (None, _) => look_at_bytes(&mut notes, bytes)?,
        (Some(value), Kind::LinkJob) => look_at_link_job(&mut notes, value)?,
        (Some(value), Kind::Job) => look_at_job(&mut notes, value)?,
    }
    Ok(notes)
}

/// The findings, of which the first is of the refusal, where there is one, and else none is of a
/// refusal, and the first one of a stop is of this stop. The walk makes the reader's checks in
/// their order, so that its first finding is of that refusal; otherwise one without a place is put
/// before it.
fn led_by(
    alloc: Global,
    refusal: &Option<Refusal>,
    stop: Option<Stop>,
    findings: Vec<Finding>,
) -> Result<Vec<Finding>, AllocError>
    ensures refusal { IfOk result (λ led. LedBy refusal.now led.items) }
    ensures stop { IfOk result (λ led. refusal.now ≡ None → first_stop led.items ≡ stop) }
{
    match refusal {
        Some(refusal) => led_by_one(alloc, refusal, findings),
        None => stopped_by(alloc, stop, unrefused(findings)),
    }
}

/// The findings, of which the first one of a stop is of this. The walk looks for what stops a job
/// in the order of its replay, so that they are as they were; any others would be wrong.
fn stopped_by(
    alloc: Global,
    stop: Option<Stop>,
    findings: Vec<Finding>,
) -> Result<Vec<Finding>, AllocError>
    ensures unrefused { IfOk result (λ led. All IsNoRefusal findings.items
        → All IsNoRefusal led.items) }
    ensures stop { IfOk result (λ led. first_stop led.items ≡ stop) }
{
    if first_stop(findings.as_slice()) == stop {
        return Ok(findings);
    }
    stopped_by_one(alloc, stop, unstopped(findings))
}

/// The findings, before which one of this stop is put, where there is one.
fn stopped_by_one(
    alloc: Global,
    stop: Option<Stop>,
    mut findings: Vec<Finding>,
) -> Result<Vec<Finding>, AllocError>
    ensures unrefused { IfOk result (λ led. All IsNoRefusal findings.items
        → All IsNoRefusal led.items) }
    ensures stop { IfOk result (λ led. first_stop findings.items ≡ None
        → first_stop led.items ≡ stop) }
{
    if let Some(stop) = stop {
        findings.insert(0, bare(alloc, stop.matter())?)?;
    }
    Ok(findings)
}

/// The findings that are of no stop, nor of a refusal.
fn unstopped(mut findings: Vec<Finding>) -> Vec<Finding>
    ensures unrefused { All IsNoRefusal result.items }
    ensures unstopped { first_stop result.items ≡ None }
{
    findings.retain(|finding| is_no_stop(finding));
    findings
}

/// Whether a finding is of no stop, nor of a refusal.
fn is_no_stop(finding: &Finding) -> bool
    ensures refusal { IsTrue result → IsNoRefusal finding.now }
    ensures stop { IsTrue result → stop_in finding.now.matter ≡ None }
{
    match finding.matter {
        Matter::Refused(_) | Matter::Start(_) | Matter::Step => false,
        Matter::Command | Matter::Ignored => true,
    }
}

/// The findings that are of no refusal. Of a job that the reader accepts the walk has no others:
/// any other would be wrong.
fn unrefused(mut findings: Vec<Finding>) -> Vec<Finding>
    ensures { All IsNoRefusal result.items }
{
    findings.retain(|finding| is_no_refusal(finding));
    findings
}

/// Whether a finding is of no refusal.
fn is_no_refusal(finding: &Finding) -> bool
    ensures { IsTrue result → IsNoRefusal finding.now }
{
    match finding.matter {
        Matter::Refused(_) => false,
        _ => true,
    }
}

/// The findings, of which the first is of this refusal.
fn led_by_one(
    alloc: Global,
    refusal: &Refusal,
    mut findings: Vec<Finding>,
) -> Result<Vec<Finding>, AllocError>
    ensures { IfOk result (λ led. LedBy (Some refusal.now) led.items) }
{
    if !is_of(findings.first(), refusal) {
        findings.insert(0, bare(alloc, Matter::Refused(*refusal))?)?;
    }
    Ok(findings)
}

/// A finding of this matter, without a place.
fn bare(alloc: Global, matter: Matter) -> Result<Finding, AllocError>
    ensures { IfOk result (λ finding. finding.matter ≡ matter) }
{
    let line = line_of(alloc, &Place::whole(), &[Piece::Words("refused")])?;
    Ok(Finding { matter, line })
}

/// Whether there is a first finding, and it is of this refusal.
fn is_of(finding: Option<&Finding>, refusal: &Refusal) -> bool
    ensures matter { IsTrue result → IfSome finding.entry
        (λ first. first.now.matter ≡ Matter.Refused refusal.now) }
    ensures there { IsTrue result → IsSome finding.entry }
{
    match finding {
        Some(finding) => finding.matter == Matter::Refused(*refusal),
        None => false,
    }
}
