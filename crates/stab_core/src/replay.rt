ghost use Rattle.std.specs.Prelude.{◌≡◌, IfOk, IfErr};
ghost use Rattle.stab_core.specs.LinkLaw.{LinkLaw};
ghost use Rattle.stab_core.specs.Replay.{initial, replay, start_items, IsLawful};
ghost use Rattle.stab_core.specs.Link.{link_at, IsReason};

use crate::event::Event;
use crate::laws;
use crate::link::Link;
use crate::start::{Start, StartFault};
use stab_frames::Params;
use std::alloc::Global;

/// The link after these events, in their order, from its start. Where it refuses, no link is handed
/// out.
///
/// Whatever the start holds and whatever was lost or repeated, the link obeys the link law: at most
/// `c` strays were delivered, then offered items in their order, each at most once; and of the
/// acknowledged items only some among the first `2c + 1` are missing.
pub fn run_link(
    alloc: Global,
    params: Params,
    start: &Start,
    events: &[Event],
) -> Result<Link, StartFault>
    ensures replay { IfOk result (λ link.
        link ≡ link_at params (replay params (initial start.now) events.now)) }
    ensures law { IfOk result (λ link. let s = link.state in
        LinkLaw params.capacity (start_items start.now) s.offered s.acked s.delivered) }
    ensures lawful { IfOk result (λ link. IsLawful params start.now) }
    ensures refused { IfErr result (IsReason params start.now) }
{
    let mut link = Link::new(alloc, params, start)?;
    for event in events {
        link.apply(*event)?;
    }
    let _lawful = params.capacity();
    laws::every_replay_obeys_the_link_law();
    Ok(link)
}
