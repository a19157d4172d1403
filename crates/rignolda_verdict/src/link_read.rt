//! Reads the text of a link. Nothing of a line is checked here: what is read is printed again and
//! compared.

ghost use Rattle.std.specs.Prelude.{◌≡◌, ◌≢◌, ◌<◌, ◌^◌, ◌++◌, ℕ, Bool, true, false, List};
ghost use Rattle.std.specs.Prelude.{codes, map, IfErr, IfOk, None};
ghost use Rattle.std.specs.List.{flat_map};
ghost use Rattle.stab_frames.specs.declared.frame.Frame.{Frame};
ghost use Rattle.stab_core.specs.LinkState.{LinkState};
ghost use Rattle.stab_core.specs.Texts.{link_text, number_entry};
ghost use Rattle.stab_report.specs.Lines.{Shows};
ghost use Rattle.rignolda_verdict.specs.LinkTexts.{AreFrames, AreLabels, IsNoLink, IsPrintable};
ghost use Rattle.rignolda_verdict.specs.LinkTexts.{frame_numbers, frames_after, label_or_zero};

use crate::link_report::LinkReport;
use crate::link_text::link_report_text;
use stab_frames::{Frame, Item, Label, Sequence};
use stab_report::{ReportFault, count_of, cut_line, items_of, see_same};
use std::alloc::{AllocError, Global};

/// Reads the text of a link, as `stab link` prints one. What is answered has exactly this text.
/// Otherwise, and if memory is there, no link has it, and the fault names the first line that no
/// link of these numbers has; that is the ninth where there is one.
pub fn read_link_report(alloc: Global, text: &[u8]) -> Result<LinkReport, ReportFault>
    ensures text { IfOk result (λ report. text.now ≡ link_text report) }
    ensures refused { IfErr result (λ fault. fault ≢ ReportFault.Memory → IsNoLink text.now) }
{
    let report = shown_link(alloc, text)?;
    let written = link_report_text(alloc, &report)?;
    see_same(written.as_bytes(), text)?;
    Ok(report)
}

/// The link that the numbers of a text make, whatever else is in it.
fn shown_link(alloc: Global, text: &[u8]) -> Result<LinkReport, AllocError>
    ensures { IfOk result (λ shown. (s : LinkState) → IsPrintable s
        → text.now ≡ link_text s → shown ≡ s) }
{
    let (delivered, rest) = cut_line(text);
    let (offered, rest) = cut_line(rest);
    let (acked, rest) = cut_line(rest);
    let (send_label, rest) = cut_line(rest);
    let (recv_label, rest) = cut_line(rest);
    let (frames, rest) = cut_line(rest);
    let (acks, rest) = cut_line(rest);
    let (closed, _) = cut_line(rest);
    Ok(LinkReport {
        delivered: items_of(alloc, delivered)?,
        offered: items_of(alloc, offered)?,
        acked: number_of(acked),
        send_label: label_of(number_of(send_label)),
        recv_label: label_of(number_of(recv_label)),
        frames: frames_of(alloc, frames)?,
        acks: labels_of(alloc, acks)?,
        closed: is_closed(closed),
    })
}

/// Whether a line says that the link is closed.
fn is_closed(line: &[u8]) -> bool
    ensures closed { line.now ≡ codes "closed: yes" → result ≡ true }
    ensures open { line.now ≢ codes "closed: yes" → result ≡ false }
{
    line == b"closed: yes".as_slice()
}

/// The number that a line ends with, and 0 where there is none.
fn number_of(line: &[u8]) -> u64
    ensures { (front : List ℕ) (n : ℕ) → n < 2 ^ 64 → line.now ≡ front ++ number_entry n
        → result ≡ n }
{
    count_of(line).unwrap_or(0)
}

/// The label that a number is, and 0 where it is none.
fn label_of(number: u64) -> Label
    ensures { result ≡ label_or_zero number }
{
    Label::try_from(number).unwrap_or(0)
}

/// The labels that the numbers of a line are.
fn labels_of(alloc: Global, line: &[u8]) -> Result<Sequence<Label>, AllocError>
    ensures { IfOk result (λ labels. (all : List ℕ) → AreLabels all
        → Shows line.now all → labels ≡ all) }
{
    let numbers = items_of(alloc, line)?;
    as_labels(alloc, numbers.as_slice())
}

/// The labels that numbers are.
fn as_labels(alloc: Global, numbers: &[Item]) -> Result<Sequence<Label>, AllocError>
    ensures { IfOk result (λ labels. labels ≡ map label_or_zero numbers.now) }
{
    let mut labels = Sequence::new(alloc);
    for number in numbers {
        labels.push(label_of(u64::from(*number)))?;
    }
    Ok(labels)
}

/// The frames of a line.
fn frames_of(alloc: Global, line: &[u8]) -> Result<Sequence<Frame>, AllocError>
    ensures { IfOk result (λ frames. (all : List Frame) → AreFrames all
        → Shows line.now (flat_map frame_numbers all) → frames ≡ all) }
{
    let numbers = items_of(alloc, line)?;
    as_frames(alloc, numbers.as_slice())
}

/// The frames that numbers are: of each two the first is the label, and the second the item.
fn as_frames(alloc: Global, numbers: &[Item]) -> Result<Sequence<Frame>, AllocError>
    ensures { IfOk result (λ frames. frames ≡ frames_after None numbers.now) }
{
    let mut frames = Sequence::new(alloc);
    let mut waiting: Option<Item> = None;
    for number in numbers {
        match waiting {
            None => waiting = Some(*number),
            Some(label) => {
                frames.push(Frame {
                    label: label_of(u64::from(label)),
                    item: *number,
                })?;
                waiting = None;
            }
        }
    }
    Ok(frames)
}
