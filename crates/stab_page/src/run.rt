ghost use Rattle.std.specs.Prelude.{◌≡◌, ◌≤◌, [], length, map};
ghost use Rattle.stab_core.specs.Trace.{traced_replay};
ghost use Rattle.stab_core.specs.Tracer.{tracer_at};
ghost use Rattle.stab_page.specs.Codes.{event_of};
ghost use Rattle.stab_page.specs.Effects.{effects};

use crate::code::EventCode;
use crate::entry::EffectEntry;
use crate::link::{MAX_EVENTS, PageLink};
use arrayvec::ArrayVec;

/// Replays these events on a link at its start, and answers their effects.
pub fn run(link: &mut PageLink, events: &[EventCode]) -> ArrayVec<EffectEntry, MAX_EVENTS>
    requires few { length events.now ≤ MAX_EVENTS }
    requires nothing_offered { link.old.traced.state.offered ≡ [] }
    requires nothing_delivered { link.old.traced.state.delivered ≡ [] }
    ensures link { link.new ≡ tracer_at link.old.params
        (traced_replay link.old.params link.old.traced (map event_of events.now)) }
    ensures effects { result.items ≡
        effects link.old.params link.old.traced (map event_of events.now) }
{
    let mut had = ArrayVec::new();
    for code in events {
        let effect = link.apply(code.event());
        had.push(EffectEntry { effect });
    }
    had
}
