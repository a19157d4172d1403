ghost use Rattle.std.specs.Prelude.{◌≡◌, ℕ, ◌+◌, ◌*◌, ◌≤◌, ◌++◌, false, IfOk, drop, replicate};
ghost use Rattle.std.specs.Prelude.{length};
ghost use Rattle.stab_core.specs.Link.{link_at};
ghost use Rattle.stab_core.specs.Replay.{replay};
ghost use Rattle.stab_core.specs.declared.event.Event.{Event};
ghost use Rattle.stab_rounds.specs.Played.{reading_round_with, round_with, rounds_with};

use crate::laws;
use stab_core::{Event, Link};
use stab_frames::{Item, Params};
use std::alloc::AllocError;

/// Applies this event `times` times.
fn apply_times(link: &mut Link, event: Event, times: u16) -> Result<(), AllocError>
    ensures { IfOk result (λ _. link.new ≡ link_at link.old.params
        (replay link.old.params link.old.state (replicate times event))) }
{
    'times: for _done in 0..times {
        link.apply(event)?;
    }
    Ok(())
}

/// One round of a link: this item is offered, which an idle sender takes, a frame is sent and
/// taken, an acknowledgement is sent and taken. Where memory is refused, the events before were
/// applied, and the others were not.
pub fn apply_round(link: &mut Link, item: Item) -> Result<(), AllocError>
    ensures { IfOk result (λ _. link.new ≡ link_at link.old.params
        (replay link.old.params link.old.state (round_with item))) }
{
    link.apply(Event::Offer(item))?;
    link.apply(Event::SendFrame)?;
    link.apply(Event::RecvFrame { keep: false })?;
    link.apply(Event::SendAck)?;
    link.apply(Event::RecvAck { keep: false })?;
    Ok(())
}

/// Offers this item and makes `2c + 1` rounds, which acknowledge an item from any state of the
/// link: this one, if the sender was idle. Where memory is refused, the events before were applied.
pub fn pass_on(link: &mut Link, params: Params, item: Item) -> Result<(), AllocError>
    requires own { link.old.params ≡ params }
    ensures replay { IfOk result (λ _. link.new ≡ link_at link.old.params
        (replay link.old.params link.old.state
        (rounds_with item (2 * link.old.params.capacity + 1)))) }
    ensures acked { IfOk result (λ _. link.new.state.closed ≡ false
        → link.old.state.acked + 1 ≤ link.new.state.acked) }
{
    let _waits = link.acked();
    let _frames = link.frame_count();
    let _acks = link.ack_count();
    let rounds = 2 * params.capacity() + 1;
    'rounds: for _done in 0..rounds {
        apply_round(link, item)?;
    }
    laws::rounds_bring_acknowledgements();
    Ok(())
}

/// One reading round of a link: this item is offered, and each end takes all that is queued before
/// it sends. From any state of the link it acknowledges an item: this one, if the sender was idle.
/// Where memory is refused, the events before were applied.
pub fn apply_reading_round(link: &mut Link, params: Params, item: Item) -> Result<(), AllocError>
    requires own { link.old.params ≡ params }
    ensures replay { IfOk result (λ _. link.new ≡ link_at link.old.params
        (replay link.old.params link.old.state
        (reading_round_with link.old.params.capacity item))) }
    ensures acked { IfOk result (λ _. link.new.state.closed ≡ false
        → link.old.state.acked + 1 ≤ link.new.state.acked) }
{
    let _waits = link.acked();
    let _frames = link.frame_count();
    let _acks = link.ack_count();
    let capacity = params.capacity();
    link.apply(Event::Offer(item))?;
    apply_times(link, Event::RecvFrame { keep: false }, capacity)?;
    link.apply(Event::SendFrame)?;
    link.apply(Event::RecvFrame { keep: false })?;
    apply_times(link, Event::RecvAck { keep: false }, capacity)?;
    link.apply(Event::SendAck)?;
    link.apply(Event::RecvAck { keep: false })?;
    laws::reading_rounds_bring_acknowledgements();
    Ok(())
}
