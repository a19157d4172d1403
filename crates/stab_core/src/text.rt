//! The printed lines of a link, and the pieces that the texts of other layers share.

ghost use Rattle.std.specs.Prelude.{◌≡◌, ◌++◌, codes, string_bytes, option_to_list, OnOk, IfOk};
ghost use Rattle.std.specs.List.{flat_map};
ghost use Rattle.stab_frames.specs.declared.frame.Frame.{Frame};
ghost use Rattle.stab_core.specs.Texts.{number_entry, frame_entry, origin_entry, numbers_line};
ghost use Rattle.stab_core.specs.Texts.{number_line, frames_line, closed_line};
ghost use Rattle.stab_core.specs.Texts.{link_text, origins_text};

use crate::link::Link;
use crate::origin::Origin;
use itoa::Buffer;
use stab_frames::{Frame, Item, Label};
use std::alloc::{AllocError, Global};

/// The eight lines of a link: what was delivered and offered, how much is acknowledged, both
/// labels, both queues, and whether it is closed.
pub fn link_text(alloc: Global, link: &Link) -> Result<String, AllocError>
    ensures { IfOk result (λ text. string_bytes text ≡ link_text link.now.state) }
{
    let mut text = String::new(alloc);
    push_link_text(&mut text, link)?;
    Ok(text)
}

/// Adds the eight lines of a link. Where memory is refused, a part of them may have been added.
#[tactic(auto, unfolding(crate::specs::Texts::link_text))]
pub fn push_link_text(text: &mut String, link: &Link) -> Result<(), AllocError>
    ensures { OnOk result
        (string_bytes text.new ≡ string_bytes text.old ++ link_text link.now.state) }
{
    push_items_line(text, "delivered:", link.delivered())?;
    push_items_line(text, "offered:", link.offered())?;
    push_number_line(text, "acked:", link.acked())?;
    push_number_line(text, "send label:", u64::from(link.send_label()))?;
    push_number_line(text, "recv label:", u64::from(link.recv_label()))?;
    push_frames_line(text, link)?;
    push_acks_line(text, link)?;
    push_closed_line(text, link.is_closed())
}

/// The line of the origins of the delivered items: `s` and the place of a stray, `i` and the place
/// of an offered item.
pub fn origins_text(alloc: Global, origins: &[Origin]) -> Result<String, AllocError>
    ensures { IfOk result (λ text. string_bytes text ≡ origins_text origins.now) }
{
    let mut text = String::new(alloc);
    push_origins_text(&mut text, origins)?;
    Ok(text)
}

/// Adds the line of these origins. Where memory is refused, a part of it may have been added.
#[tactic(auto, unfolding(crate::specs::Texts::origins_text))]
pub fn push_origins_text(text: &mut String, origins: &[Origin]) -> Result<(), AllocError>
    ensures { OnOk result
        (string_bytes text.new ≡ string_bytes text.old ++ origins_text origins.now) }
{
    text.push_str("origins:")?;
    for origin in origins {
        push_origin(text, *origin)?;
    }
    text.push_str("\n")
}

/// Adds a line: the label, then each item after one space. Where memory is refused, a part of the
/// line may have been added.
#[tactic(auto, unfolding(crate::specs::Texts::numbers_line))]
pub fn push_items_line(text: &mut String, label: &str, items: &[Item]) -> Result<(), AllocError>
    ensures { OnOk result
        (string_bytes text.new ≡ string_bytes text.old ++ numbers_line label.now items.now) }
{
    text.push_str(label)?;
    for item in items {
        push_number(text, u64::from(*item))?;
    }
    text.push_str("\n")
}

/// Adds one space and a number. Where memory is refused, the space alone may have been added.
pub fn push_number(text: &mut String, number: u64) -> Result<(), AllocError>
    ensures { OnOk result
        (string_bytes text.new ≡ string_bytes text.old ++ number_entry number) }
{
    let mut buffer = Buffer::new();
    text.push_str(" ")?;
    text.push_str(buffer.format(number))
}

/// Adds a line: the label, then the number after one space. Where memory is refused, a part of the
/// line may have been added.
#[tactic(auto, unfolding(crate::specs::Texts::number_line))]
pub fn push_number_line(text: &mut String, label: &str, number: u64) -> Result<(), AllocError>
    ensures { OnOk result
        (string_bytes text.new ≡ string_bytes text.old ++ number_line label.now number) }
{
    text.push_str(label)?;
    push_number(text, number)?;
    text.push_str("\n")
}

/// Adds the line of the queued frames.
#[tactic(auto, unfolding(crate::specs::Texts::frames_line))]
fn push_frames_line(text: &mut String, link: &Link) -> Result<(), AllocError>
    ensures { OnOk result
        (string_bytes text.new ≡ string_bytes text.old ++ frames_line link.now.state.frames) }
{
    text.push_str("frames:")?;
    for place in 0..link.frame_count() {
        push_frame(text, link.frame_at(place))?;
    }
    text.push_str("\n")
}

/// Adds a frame after one space, where there is one. Where memory is refused, a part of it may have
/// been added.
pub fn push_frame(text: &mut String, entry: Option<Frame>) -> Result<(), AllocError>
    ensures { OnOk result
        (string_bytes text.new ≡
        string_bytes text.old ++ flat_map frame_entry (option_to_list entry)) }
{
    let Some(frame) = entry else {
        return Ok(());
    };
    let mut item = Buffer::new();
    push_number(text, u64::from(frame.label))?;
    text.push_str("=")?;
    text.push_str(item.format(frame.item))
}

/// Adds the line of the queued acknowledgements.
#[tactic(auto, unfolding(crate::specs::Texts::numbers_line))]
fn push_acks_line(text: &mut String, link: &Link) -> Result<(), AllocError>
    ensures { OnOk result
        (string_bytes text.new ≡
        string_bytes text.old ++ numbers_line (codes "acks:") link.now.state.acks) }
{
    text.push_str("acks:")?;
    for place in 0..link.ack_count() {
        push_ack(text, link.ack_at(place))?;
    }
    text.push_str("\n")
}

/// Adds an acknowledgement, where there is one.
fn push_ack(text: &mut String, entry: Option<Label>) -> Result<(), AllocError>
    ensures { OnOk result
        (string_bytes text.new ≡
        string_bytes text.old ++ flat_map number_entry (option_to_list entry)) }
{
    match entry {
        None => Ok(()),
        Some(label) => push_number(text, u64::from(label)),
    }
}

/// Adds the line that says whether the link is closed. Where memory is refused, nothing is added.
#[tactic(auto, unfolding(crate::specs::Texts::closed_line))]
pub fn push_closed_line(text: &mut String, closed: bool) -> Result<(), AllocError>
    ensures { OnOk result
        (string_bytes text.new ≡ string_bytes text.old ++ closed_line closed) }
{
    if closed {
        text.push_str("closed: yes\n")
    } else {
        text.push_str("closed: no\n")
    }
}

/// Adds an origin after one space.
fn push_origin(text: &mut String, origin: Origin) -> Result<(), AllocError>
    ensures { OnOk result
        (string_bytes text.new ≡ string_bytes text.old ++ origin_entry origin) }
{
    let mut buffer = Buffer::new();
    match origin {
        Origin::Stray(place) => {
            text.push_str(" s")?;
            text.push_str(buffer.format(place))
        }
        Origin::Sent(place) => {
            text.push_str(" i")?;
            text.push_str(buffer.format(place))
        }
    }
}
