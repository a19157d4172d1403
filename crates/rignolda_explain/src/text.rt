//! The text of an explanation.

ghost use Rattle.std.specs.Prelude.{◌≡◌, ◌++◌, IfOk, None, OnOk, string_bytes};
ghost use Rattle.rignolda_explain.specs.Stops.{EndsWith, first_stop, kind_words, stop_words};

use crate::stop::{Stop, first_stop};
use rignolda_findings::{Explanation, Finding, Kind, MAX_COUNTED, Refusal, push_number};
use stab_core::StartFault;
use std::alloc::{AllocError, Global};

/// The lines of an explanation: each finding, how many more there are, and last what `stab`
/// answers. Each line ends with a newline.
pub fn explanation_text(alloc: Global, explanation: &Explanation) -> Result<String, AllocError>
    ensures answer { IfOk result (λ text. explanation.now.refusal ≡ None
        → EndsWith (string_bytes text) (kind_words explanation.now.kind
        ++ stop_words (first_stop explanation.now.findings.items))) }
{
    let mut text = String::new(alloc);
    push_explanation(&mut text, alloc, explanation)?;
    Ok(text)
}

/// Adds the lines of an explanation.
fn push_explanation(
    text: &mut String,
    alloc: Global,
    explanation: &Explanation,
) -> Result<(), AllocError>
    ensures answer { OnOk result (explanation.now.refusal ≡ None
        → EndsWith (string_bytes text.new) (kind_words explanation.now.kind
        ++ stop_words (first_stop explanation.now.findings.items))) }
{
    push_findings(text, explanation.findings.as_slice())?;
    push_omitted(text, explanation.omitted)?;
    push_kind(text, explanation.kind)?;
    push_answer(text, alloc, explanation)
}

/// Adds which command answers.
fn push_kind(text: &mut String, kind: Kind) -> Result<(), AllocError>
    ensures { OnOk result (string_bytes text.new ≡ string_bytes text.old ++ kind_words kind) }
{
    match kind {
        Kind::LinkJob => text.push_str("stab link: "),
        Kind::Job => text.push_str("stab tree: "),
    }
}

/// Adds a line for each finding.
fn push_findings(text: &mut String, findings: &[Finding]) -> Result<(), AllocError> {
    for finding in findings {
        text.push_str(finding.line.as_str())?;
        text.push_str("\n")?;
    }
    Ok(())
}

/// Adds how many more things were found.
fn push_omitted(text: &mut String, omitted: u64) -> Result<(), AllocError> {
    if omitted == 0 {
        return Ok(());
    }
    text.push_str(if omitted >= MAX_COUNTED {
        "and at least "
    } else {
        "and "
    })?;
    push_number(text, omitted)?;
    text.push_str(" more\n")
}

/// Adds what `stab` answers.
fn push_answer(
    text: &mut String,
    alloc: Global,
    explanation: &Explanation,
) -> Result<(), AllocError>
    ensures { OnOk result (explanation.now.refusal ≡ None
        → string_bytes text.new ≡ string_bytes text.old
        ++ stop_words (first_stop explanation.now.findings.items)) }
{
    match explanation.refusal {
        Some(refusal) => push_refusal(text, alloc, refusal),
        None => push_stop(text, first_stop(explanation.findings.as_slice())),
    }
}

/// Adds the text of a refusal.
fn push_refusal(text: &mut String, alloc: Global, refusal: Refusal) -> Result<(), AllocError> {
    let words = refusal.to_string(alloc)?;
    text.push_str(words.as_str())?;
    text.push_str("\n")
}

/// Adds that the bytes are read, or why the job stops.
fn push_stop(text: &mut String, stop: Option<Stop>) -> Result<(), AllocError>
    ensures { OnOk result (string_bytes text.new ≡ string_bytes text.old ++ stop_words stop) }
{
    match stop {
        None => text.push_str("accepted\n"),
        Some(Stop::Start(StartFault::TooManyFrames)) => text.push_str("start: too many frames\n"),
        Some(Stop::Start(StartFault::TooManyAcks)) => {
            text.push_str("start: too many acknowledgements\n")
        }
        Some(Stop::Start(StartFault::Memory)) => text.push_str("out of memory\n"),
        Some(Stop::Step) => text.push_str("step: no such link\n"),
    }
}
