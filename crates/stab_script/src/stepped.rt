ghost use Rattle.std.specs.Prelude.{◌≡◌, [], ◌∷◌, List, IfOk, OnOk};
ghost use Rattle.stab_core.specs.Link.{link_at};
ghost use Rattle.stab_core.specs.Replay.{initial, replay, IsLawful};
ghost use Rattle.stab_core.specs.Trace.{traced_initial, traced_replay};
ghost use Rattle.stab_core.specs.Tracer.{tracer_at};
ghost use Rattle.stab_core.specs.declared.event.Event.{Event};
ghost use Rattle.stab_core.specs.declared.start.Start.{Start};
ghost use Rattle.stab_frames.specs.Parameters.{Parameters};
ghost use Rattle.stab_script.specs.Leads.{LeadsOn};

use stab_core::{Event, Link, Start, StartFault, Tracer};
use stab_frames::{Params, Sequence};
use std::alloc::{AllocError, Global};

/// What takes the events of a link job, one after the other, as they are read.
pub trait TakesEvents: Drop {
    // It stands where these events lead from this start.
    ghost StandsAfter: { Self → Parameters → Start → List Event → Type 0 };

    /// Takes the next event.
    fn take(&mut self, event: Event) -> Result<(), AllocError>
        ensures { OnOk result (LeadsOn StandsAfter self.old (event ∷ []) self.new) };
}

/// What takes events from a start on: they happen to it.
pub trait Stepped: TakesEvents {
    /// Where a start is, unless it is refused.
    fn begin(alloc: Global, params: Params, start: &Start) -> Result<Self, StartFault>
        ensures begun { IfOk result (λ begun. Self.StandsAfter begun params start.now []) }
        ensures lawful { IfOk result (λ _. IsLawful params start.now) };
}

/// A list keeps the events as they are, whatever they are to happen to.
impl TakesEvents for Sequence<Event> {
    ghost StandsAfter = { λ list _ _ events. list ≡ events };

    fn take(&mut self, event: Event) -> Result<(), AllocError> {
        self.push(event)
    }
}

/// A link without the origins of what it delivers.
impl TakesEvents for Link {
    ghost StandsAfter = { λ link params start events.
        link ≡ link_at params (replay params (initial start) events) };

    fn take(&mut self, event: Event) -> Result<(), AllocError> {
        self.apply(event)?;
        Ok(())
    }
}

impl Stepped for Link {
    fn begin(alloc: Global, params: Params, start: &Start) -> Result<Link, StartFault> {
        Link::new(alloc, params, start)
    }
}

/// A link with the origins of what it delivers.
impl TakesEvents for Tracer {
    ghost StandsAfter = { λ tracer params start events.
        tracer ≡ tracer_at params (traced_replay params (traced_initial start) events) };

    fn take(&mut self, event: Event) -> Result<(), AllocError> {
        self.apply(event)?;
        Ok(())
    }
}

impl Stepped for Tracer {
    fn begin(alloc: Global, params: Params, start: &Start) -> Result<Tracer, StartFault> {
        Tracer::new(alloc, params, start)
    }
}
