//! The starts of a drawn text.

ghost use Rattle.std.specs.Prelude.{◌≡◌, ◌++◌, ◌≤◌, ◌<◌, length, string_bytes, OnOk};
ghost use Rattle.rignolda_make.specs.DrawnTexts.{frame_piece, frames_piece};
ghost use Rattle.rignolda_make.specs.DrawnTexts.{labels_piece, start_text, start_piece};
ghost use Rattle.rignolda_make.specs.DrawnTexts.{starts_piece};

use crate::parts::ITEMS;
use crate::shape::{DrawnLink, below};
use crate::text::{begin_list, push_numbered, push_numbers_below, separate};
use rand_core::Rng;
use stab_frames::Params;
use std::alloc::AllocError;

/// Adds a start for each link, of garbage: its labels are those of the link, or one more.
#[tactic(auto, unfolding(crate::specs::DrawnTexts::starts_piece))]
pub(crate) fn push_starts<R: Rng>(
    text: &mut String,
    rng: &mut R,
    links: &[DrawnLink],
) -> Result<(), AllocError>
    ensures text { OnOk result (string_bytes text.new
        ≡ string_bytes text.old ++ (starts_piece links.now (R.stream rng.old)).0) }
    ensures words { OnOk result (R.stream rng.new
        ≡ (starts_piece links.now (R.stream rng.old)).1) }
{
    begin_list(text, "starts")?;
    for place in 0..links.len() {
        push_start_at(text, rng, links, place)?;
    }
    text.push_str("],\n")
}

/// Adds the start of the link at this place, and what is before it.
#[tactic(auto, unfolding(crate::specs::DrawnTexts::start_piece))]
fn push_start_at<R: Rng>(
    text: &mut String,
    rng: &mut R,
    links: &[DrawnLink],
    place: usize,
) -> Result<(), AllocError>
    requires { place < length links.now }
    ensures text { OnOk result (string_bytes text.new
        ≡ string_bytes text.old ++ (start_piece links.now place (R.stream rng.old)).0) }
    ensures words { OnOk result (R.stream rng.new
        ≡ (start_piece links.now place (R.stream rng.old)).1) }
{
    separate(text, 1, place)?;
    push_start(text, rng, links[place].params)
}

/// Adds a start of a link: its labels are those of the link, or one more.
#[tactic(auto, unfolding(crate::specs::DrawnTexts::start_text))]
fn push_start<R: Rng>(text: &mut String, rng: &mut R, params: Params) -> Result<(), AllocError>
    ensures text { OnOk result (string_bytes text.new
        ≡ string_bytes text.old ++ (start_text params (R.stream rng.old)).0) }
    ensures words { OnOk result (R.stream rng.new ≡ (start_text params (R.stream rng.old)).1) }
{
    let labels = u32::from(params.labels()) + 1;
    let most = u32::from(params.capacity()) + 1;
    push_labels(text, rng, labels)?;
    push_frames(text, rng, labels, most)?;
    let count = below(rng, most);
    begin_list(text, "acks")?;
    push_numbers_below(text, rng, labels, count)?;
    text.push_str("]}")
}

/// Adds both labels of a start.
#[tactic(auto, unfolding(crate::specs::DrawnTexts::labels_piece))]
fn push_labels<R: Rng>(text: &mut String, rng: &mut R, labels: u32) -> Result<(), AllocError>
    requires { 1 ≤ labels }
    ensures text { OnOk result (string_bytes text.new
        ≡ string_bytes text.old ++ (labels_piece labels (R.stream rng.old)).0) }
    ensures words { OnOk result (R.stream rng.new ≡ (labels_piece labels (R.stream rng.old)).1) }
{
    push_numbered(text, "{\"send\": ", u64::from(below(rng, labels)))?;
    push_numbered(text, ", \"recv\": ", u64::from(below(rng, labels)))?;
    text.push_str(",\n")
}

/// Adds fewer frames than `most`.
#[tactic(auto, unfolding(crate::specs::DrawnTexts::frames_piece))]
fn push_frames<R: Rng>(
    text: &mut String,
    rng: &mut R,
    labels: u32,
    most: u32,
) -> Result<(), AllocError>
    requires some { 1 ≤ labels }
    requires room { 1 ≤ most }
    ensures text { OnOk result (string_bytes text.new
        ≡ string_bytes text.old ++ (frames_piece labels most (R.stream rng.old)).0) }
    ensures words { OnOk result (R.stream rng.new
        ≡ (frames_piece labels most (R.stream rng.old)).1) }
{
    let count = below(rng, most);
    begin_list(text, "frames")?;
    for place in 0..count {
        push_frame(text, rng, labels, place as usize)?;
    }
    text.push_str("],\n")
}

/// Adds a frame, and what is before it.
#[tactic(auto, unfolding(crate::specs::DrawnTexts::frame_piece))]
fn push_frame<R: Rng>(
    text: &mut String,
    rng: &mut R,
    labels: u32,
    place: usize,
) -> Result<(), AllocError>
    requires { 1 ≤ labels }
    ensures text { OnOk result (string_bytes text.new
        ≡ string_bytes text.old ++ (frame_piece labels place (R.stream rng.old)).0) }
    ensures words { OnOk result (R.stream rng.new
        ≡ (frame_piece labels place (R.stream rng.old)).1) }
{
    separate(text, 6, place)?;
    push_numbered(text, "[", u64::from(below(rng, labels)))?;
    push_numbered(text, ", ", u64::from(below(rng, ITEMS)))?;
    text.push_str("]")
}
