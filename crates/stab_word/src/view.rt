//! What the ends of a link know of it. No value of a view is ever made: a view is the part of a
//! seat that only proofs see.

use crate::words::{AckWord, FrameWord};
use stab_core::Start;
use stab_ends::{RecvAccount, SendAccount};
use stab_frames::{Frame, Item, Label, Params};
use std::marker::Model;
use std::snapshot::Snapshot;

/// What a link was given: its parameters and, for proofs alone, its start.
#[derive(Drop)]
pub struct Setting {
    params: Params,
    start: Snapshot<Start>,
}

impl Model for Setting {
    ghost use Rattle.stab_core.specs.LinkSetup.{LinkSetup};

    ghost Value = { LinkSetup };

    ghost view = { λ s. record { params = s.params; start = s.start.value } };
}

impl Setting {
    ghost use Rattle.std.specs.Prelude.{◌≡◌};

    /// The setting of these parameters and this start.
    pub(crate) fn new(params: Params, start: &Start) -> Setting
        ensures { result ≡ record { params = params; start = start.now } }
    {
        Setting {
            params,
            start: Snapshot::of(start),
        }
    }
}

/// An atomic step of the sender's end.
pub enum SendStep {
    /// A load of the frame word, whatever it shows, at which the end takes this item.
    OfferLoad(Item),
    /// A store of this frame.
    FrameStore(Frame),
    /// A load of the acknowledgement word, which shows this.
    AckLoad(AckWord),
    /// A store of the close.
    CloseStore,
}

/// An atomic step of the receiver's end.
pub enum RecvStep {
    /// A load of the frame word, which shows this, with a place for an item.
    FrameLoad(FrameWord),
    /// A load of the frame word, which shows this, with no place for an item.
    FrameLook(FrameWord),
    /// A store of the acknowledgement of this label.
    AckStore(Label),
}

/// The steps that the sender's end made, in their order.
pub struct SendSteps {
    list: Vec<SendStep>,
}

impl Model for SendSteps {
    ghost use Rattle.std.specs.Prelude.{List};
    ghost use Rattle.stab_word.specs.declared.view.SendStep.{SendStep};

    ghost Value = { List SendStep };

    ghost view = { λ s. s.list.items };
}

/// The steps that the receiver's end made, in their order.
pub struct RecvSteps {
    list: Vec<RecvStep>,
}

impl Model for RecvSteps {
    ghost use Rattle.std.specs.Prelude.{List};
    ghost use Rattle.stab_word.specs.declared.view.RecvStep.{RecvStep};

    ghost Value = { List RecvStep };

    ghost view = { λ s. s.list.items };
}

/// What the sender's end knows: its label, all that its account says, and the steps that it made.
pub struct SendView {
    pub given: Setting,
    pub label: Label,
    pub account: SendAccount,
    pub steps: SendSteps,
}

/// What the receiver's end knows: the label that it remembers, all that its account says, and the
/// steps that it made.
pub struct RecvView {
    pub given: Setting,
    pub label: Label,
    pub account: RecvAccount,
    pub steps: RecvSteps,
}

/// What the seats of a link know, one view each.
pub(crate) enum View {
    /// The one seat before the split.
    Opening(Setting),
    /// The sender's seat.
    Sending(SendView),
    /// The receiver's seat.
    Receiving(RecvView),
    /// The one seat after the join: what both ends knew.
    Joined(SendView, RecvView),
    /// The seat that the join took in.
    Spent,
}
