ghost use Rattle.std.specs.Prelude.{◌≡◌, ◌++◌, codes, string_bytes, IfOk, OnOk};
ghost use Rattle.stab_core.specs.Texts.{frames_line, link_text, numbers_line};

use crate::link_report::LinkReport;
use stab_core::{push_closed_line, push_frame, push_items_line, push_number, push_number_line};
use stab_frames::{Frame, Label};
use std::alloc::{AllocError, Global};

/// The eight lines of a link, as `stab link` prints them.
#[tactic(auto, unfolding(stab_core::specs::Texts::link_text))]
pub fn link_report_text(alloc: Global, report: &LinkReport) -> Result<String, AllocError>
    ensures { IfOk result (λ text. string_bytes text ≡ link_text report.now) }
{
    let mut text = String::new(alloc);
    push_items_line(&mut text, "delivered:", report.delivered.as_slice())?;
    push_items_line(&mut text, "offered:", report.offered.as_slice())?;
    push_number_line(&mut text, "acked:", report.acked)?;
    push_number_line(&mut text, "send label:", u64::from(report.send_label))?;
    push_number_line(&mut text, "recv label:", u64::from(report.recv_label))?;
    push_frames_line(&mut text, report.frames.as_slice())?;
    push_labels_line(&mut text, report.acks.as_slice())?;
    push_closed_line(&mut text, report.closed)?;
    Ok(text)
}

/// Adds the line of the queued frames.
#[tactic(auto, unfolding(stab_core::specs::Texts::frames_line))]
fn push_frames_line(text: &mut String, frames: &[Frame]) -> Result<(), AllocError>
    ensures { OnOk result
        (string_bytes text.new ≡ string_bytes text.old ++ frames_line frames.now) }
{
    text.push_str("frames:")?;
    for frame in frames {
        push_frame(text, Some(*frame))?;
    }
    text.push_str("\n")
}

/// Adds the line of the queued acknowledgements.
#[tactic(auto, unfolding(stab_core::specs::Texts::numbers_line))]
fn push_labels_line(text: &mut String, labels: &[Label]) -> Result<(), AllocError>
    ensures { OnOk result (string_bytes text.new
        ≡ string_bytes text.old ++ numbers_line (codes "acks:") labels.now) }
{
    text.push_str("acks:")?;
    for label in labels {
        push_number(text, u64::from(*label))?;
    }
    text.push_str("\n")
}
