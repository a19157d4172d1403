//! The schedule of a drawn text.

ghost use Rattle.std.specs.Prelude.{◌≡◌, ◌++◌, ◌≤◌, ◌<◌, ◌==◌, length, string_bytes, codes, OnOk};
ghost use Rattle.std.specs.Prelude.{if◌then◌else◌};
ghost use Rattle.rignolda_make.specs.DrawnTexts.{event_word, loss_piece, is_loss_drawn};
ghost use Rattle.rignolda_make.specs.DrawnTexts.{event_piece, step_piece, schedule_piece};
ghost use Rattle.rignolda_make.specs.DrawnTrees.{below, link_at};

use crate::shape::{DrawnLink, below};
use crate::text::{begin_list, push_numbered, separate};
use rand_core::Rng;
use std::alloc::AllocError;

/// Adds a schedule of `steps` steps, where there is a link.
#[tactic(auto, unfolding(crate::specs::DrawnTexts::schedule_piece))]
pub(crate) fn push_schedule<R: Rng>(
    text: &mut String,
    rng: &mut R,
    steps: u32,
    links: &[DrawnLink],
) -> Result<(), AllocError>
    ensures text { OnOk result (string_bytes text.new
        ≡ string_bytes text.old ++ (schedule_piece steps links.now (R.stream rng.old)).0) }
    ensures words { OnOk result (R.stream rng.new
        ≡ (schedule_piece steps links.now (R.stream rng.old)).1) }
{
    let count = if links.is_empty() { 0 } else { steps };
    begin_list(text, "schedule")?;
    for place in 0..count {
        push_step(text, rng, links, place as usize)?;
    }
    text.push_str("]}\n")
}

/// One of the links.
#[tactic(auto, unfolding(crate::specs::DrawnTrees::below))]
fn pick<R: Rng>(rng: &mut R, links: &[DrawnLink]) -> DrawnLink
    requires { 1 ≤ length links.now }
    ensures link { result ≡ link_at links.now (below (length links.now) (R.stream rng.old)).0 }
    ensures words { R.stream rng.new ≡ (below (length links.now) (R.stream rng.old)).1 }
{
    links[rng.next_u32() as usize % links.len()]
}

/// Adds a step on one of the links, and what is before it.
#[tactic(auto, unfolding(crate::specs::DrawnTexts::step_piece))]
fn push_step<R: Rng>(
    text: &mut String,
    rng: &mut R,
    links: &[DrawnLink],
    place: usize,
) -> Result<(), AllocError>
    requires { 1 ≤ length links.now }
    ensures text { OnOk result (string_bytes text.new
        ≡ string_bytes text.old ++ (step_piece links.now place (R.stream rng.old)).0) }
    ensures words { OnOk result (R.stream rng.new
        ≡ (step_piece links.now place (R.stream rng.old)).1) }
{
    let link = pick(rng, links);
    separate(text, 3, place)?;
    push_numbered(text, "[\"n", link.child as u64)?;
    text.push_str("\", \"")?;
    let event = below(rng, 16);
    push_event(text, rng, event, link.params.capacity())
}

/// Whether a loss comes in place of this event: in place of a close, but for one time in
/// sixty-four.
#[tactic(auto, unfolding(crate::specs::DrawnTexts::is_loss_drawn))]
fn draws_loss<R: Rng>(rng: &mut R, event: u32) -> bool
    ensures { (result, R.stream rng.new) ≡ is_loss_drawn event (R.stream rng.old) }
{
    event >= 15 && below(rng, 64) != 0
}

/// Adds the event of a number below 16, and the end of its entry.
#[tactic(auto, unfolding(crate::specs::DrawnTexts::event_piece))]
fn push_event<R: Rng>(
    text: &mut String,
    rng: &mut R,
    event: u32,
    capacity: u16,
) -> Result<(), AllocError>
    requires { 1 ≤ capacity }
    ensures text { OnOk result (string_bytes text.new
        ≡ string_bytes text.old ++ (event_piece event capacity (R.stream rng.old)).0) }
    ensures words { OnOk result (R.stream rng.new
        ≡ (event_piece event capacity (R.stream rng.old)).1) }
{
    if draws_loss(rng, event) {
        return push_loss(text, rng, capacity);
    }
    text.push_str(event_word(event))?;
    text.push_str("\"]")
}

/// Adds a loss at a place below the capacity.
#[tactic(auto, unfolding(crate::specs::DrawnTexts::loss_piece))]
fn push_loss<R: Rng>(text: &mut String, rng: &mut R, capacity: u16) -> Result<(), AllocError>
    requires { 1 ≤ capacity }
    ensures text { OnOk result (string_bytes text.new
        ≡ string_bytes text.old ++ (loss_piece capacity (R.stream rng.old)).0) }
    ensures words { OnOk result (R.stream rng.new
        ≡ (loss_piece capacity (R.stream rng.old)).1) }
{
    let word = loss_word(below(rng, 2));
    text.push_str(word)?;
    push_numbered(text, "\", ", u64::from(below(rng, u32::from(capacity))))?;
    text.push_str("]")
}

/// The word of a loss from one of the two queues.
fn loss_word(queue: u32) -> &'static str
    ensures { result.now ≡ (if queue == 0 then codes "lose_frame" else codes "lose_ack") }
{
    if queue == 0 { "lose_frame" } else { "lose_ack" }
}

/// The word of the event of a number below 16.
#[tactic(auto, unfolding(crate::specs::DrawnTexts::event_word))]
fn event_word(event: u32) -> &'static str
    ensures { result.now ≡ event_word event }
{
    if event < 3 {
        "offer"
    } else if event < 6 {
        "send_frame"
    } else if event < 9 {
        "recv_frame"
    } else if event < 10 {
        "recv_frame_keep"
    } else if event < 12 {
        "send_ack"
    } else if event < 14 {
        "recv_ack"
    } else if event < 15 {
        "recv_ack_keep"
    } else {
        "close"
    }
}
