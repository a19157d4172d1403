//! What the arrays of a link are made of: a value that an unused place can have as well.

use stab_core::{Effect, Origin};
use stab_frames::Frame;
use std::marker::Model;

/// A queued frame.
#[derive(Clone, Copy)]
pub struct FrameEntry {
    pub frame: Frame,
}

impl Model for FrameEntry {
    ghost use Rattle.stab_frames.specs.declared.frame.Frame.{Frame};

    ghost Value = { Frame };

    ghost view = { λ e. e.frame };

    ghost inverse = { λ f. record { frame = f } };
}

impl Default for FrameEntry {
    fn default() -> FrameEntry {
        FrameEntry {
            frame: Frame { label: 0, item: 0 },
        }
    }
}

/// Where a queued frame or a delivered item comes from.
#[derive(Clone, Copy)]
pub struct OriginEntry {
    pub origin: Origin,
}

impl Model for OriginEntry {
    ghost use Rattle.stab_core.specs.declared.origin.Origin.{Origin};

    ghost Value = { Origin };

    ghost view = { λ e. e.origin };

    ghost inverse = { λ o. record { origin = o } };
}

impl Default for OriginEntry {
    fn default() -> OriginEntry {
        OriginEntry {
            origin: Origin::Stray(0),
        }
    }
}

/// What an event did.
#[derive(Clone, Copy)]
pub struct EffectEntry {
    pub effect: Effect,
}

impl Model for EffectEntry {
    ghost use Rattle.stab_core.specs.declared.event.Effect.{Effect};

    ghost Value = { Effect };

    ghost view = { λ e. e.effect };

    ghost inverse = { λ e. record { effect = e } };
}

impl Default for EffectEntry {
    fn default() -> EffectEntry {
        EffectEntry {
            effect: Effect::Nothing,
        }
    }
}
