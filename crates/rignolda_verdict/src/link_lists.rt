//! The lists of a link job that a link is judged by.

ghost use Rattle.std.specs.Prelude.{◌≡◌, ◌++◌, IfOk, OnOk};
ghost use Rattle.stab_core.specs.Replay.{start_items};
ghost use Rattle.rignolda_verdict.specs.LinkVerdicts.{offer_of, offers_of};

use stab_core::{Event, Start};
use stab_frames::{Item, Sequence};
use std::alloc::{AllocError, Global};

/// The items that these events offer, in their order.
pub(crate) fn offers_of(alloc: Global, events: &[Event]) -> Result<Sequence<Item>, AllocError>
    ensures { IfOk result (λ offers. offers ≡ offers_of events.now) }
{
    let mut offers = Sequence::new(alloc);
    for event in events {
        add_offer(&mut offers, *event)?;
    }
    Ok(offers)
}

/// Adds the item that an event offers, where it offers one.
fn add_offer(offers: &mut Sequence<Item>, event: Event) -> Result<(), AllocError>
    ensures { OnOk result (offers.new ≡ offers.old ++ offer_of event) }
{
    match event {
        Event::Offer(item) => offers.push(item),
        _ => Ok(()),
    }
}

/// The items in the frames of a start, the front first.
pub(crate) fn start_items(alloc: Global, start: &Start) -> Result<Sequence<Item>, AllocError>
    ensures { IfOk result (λ items. items ≡ start_items start.now) }
{
    let mut items = Sequence::new(alloc);
    for frame in start.frames.as_slice() {
        items.push(frame.item)?;
    }
    Ok(items)
}
