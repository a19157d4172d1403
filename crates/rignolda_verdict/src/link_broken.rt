//! The part of a link that is broken, as text.

ghost use Rattle.std.specs.Prelude.{◌≡◌, ◌++◌, string_bytes, IfOk, OnOk};
ghost use Rattle.rignolda_verdict.specs.LinkVerdicts.{acked_words, capacity_words, law_lists};
ghost use Rattle.rignolda_verdict.specs.LinkVerdicts.{law_text, offered_text};

use crate::link_report::LinkReport;
use stab_core::push_items_line;
use stab_frames::Item;
use std::alloc::{AllocError, Global};

/// What is said where an item is offered that the job does not offer, or not in this place.
#[tactic(auto, unfolding(crate::specs::LinkVerdicts::offered_text))]
pub(crate) fn offered_text(
    alloc: Global,
    offers: &[Item],
    offered: &[Item],
) -> Result<String, AllocError>
    ensures { IfOk result (λ text. string_bytes text ≡ offered_text offers.now offered.now) }
{
    let mut text = String::from_str(
        alloc,
        "the offered items are not among those that the job offers, in its order\n",
    )?;
    push_items_line(&mut text, "the job offers:", offers)?;
    push_items_line(&mut text, "offered:", offered)?;
    Ok(text)
}

/// What is said where the link law is broken.
#[tactic(auto, unfolding(crate::specs::LinkVerdicts::law_text))]
pub(crate) fn law_text(
    alloc: Global,
    capacity: u16,
    frames: &[Item],
    report: &LinkReport,
) -> Result<String, AllocError>
    ensures { IfOk result (λ text. string_bytes text ≡ law_text capacity frames.now report.now) }
{
    let mut text = String::new(alloc);
    push_capacity(&mut text, capacity)?;
    push_acked(&mut text, report.acked)?;
    push_law_lists(
        &mut text,
        frames,
        report.offered.as_slice(),
        report.delivered.as_slice(),
    )?;
    Ok(text)
}

/// Adds which law it is.
#[tactic(auto, unfolding(crate::specs::LinkVerdicts::capacity_words))]
fn push_capacity(text: &mut String, capacity: u16) -> Result<(), AllocError>
    ensures { OnOk result
        (string_bytes text.new ≡ string_bytes text.old ++ capacity_words capacity) }
{
    write!(text, "the link law of capacity {capacity}")
}

/// Adds that it is broken, with `acked` items acknowledged.
#[tactic(auto, unfolding(crate::specs::LinkVerdicts::acked_words))]
fn push_acked(text: &mut String, acked: u64) -> Result<(), AllocError>
    ensures { OnOk result (string_bytes text.new ≡ string_bytes text.old ++ acked_words acked) }
{
    write!(text, " is broken, with {acked} items acknowledged\n")
}

/// Adds the lists of the law.
#[tactic(auto, unfolding(crate::specs::LinkVerdicts::law_lists))]
fn push_law_lists(
    text: &mut String,
    frames: &[Item],
    offered: &[Item],
    delivered: &[Item],
) -> Result<(), AllocError>
    ensures { OnOk result (string_bytes text.new
        ≡ string_bytes text.old ++ law_lists frames.now offered.now delivered.now) }
{
    push_items_line(text, "frames:", frames)?;
    push_items_line(text, "offered:", offered)?;
    push_items_line(text, "delivered:", delivered)
}
