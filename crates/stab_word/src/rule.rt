//! The rule of a link of two words, and what each kind of step tells its end: names for
//! `specs/Rule.antt` and `specs/Plays.antt`.

use crate::view::{Setting, View};
use atomic_table::{Join, Play, Split, TableRule};
use std::marker::{Brand, PhantomData};

/// The rule of a table of two words.
pub(crate) struct WordRule;

impl TableRule<(), View, Setting> for WordRule {
    ghost use Rattle.stab_word.specs.Rule.{Keeps};
    ghost use Rattle.stab_word.specs.declared.view.View.TheVariants.{Opening};

    ghost holds = { Keeps };

    ghost first = { Opening };
}

/// The item of an offer, for proofs alone: a load has no operand that could carry it.
pub(crate) trait Offering {
    ghost use Rattle.std.specs.Prelude.{ℕ};

    ghost item: { ℕ };
}

impl Offering for Brand {
    ghost item = { 0 };
}

/// The offer load: the sender takes the item.
pub(crate) struct Offers<O> {
    offering: PhantomData<O>,
}

impl<O: Offering> Play<(), View> for Offers<O> {
    ghost use Rattle.stab_word.specs.Plays.{OfferLoad};

    ghost then = { OfferLoad O.item };
}

/// The frame store.
pub(crate) struct StoresFrame;

impl Play<(), View> for StoresFrame {
    ghost use Rattle.stab_word.specs.Plays.{FrameStore};

    ghost then = { FrameStore };
}

/// The acknowledgement store.
pub(crate) struct StoresAck;

impl Play<(), View> for StoresAck {
    ghost use Rattle.stab_word.specs.Plays.{AckStore};

    ghost then = { AckStore };
}

/// The acknowledgement load.
pub(crate) struct SeesAck;

impl Play<(), View> for SeesAck {
    ghost use Rattle.stab_word.specs.Plays.{AckLoad};

    ghost then = { AckLoad };
}

/// The frame load of a receiver that has a place for an item.
pub(crate) struct SeesFrame;

impl Play<(), View> for SeesFrame {
    ghost use Rattle.stab_word.specs.Plays.{FrameLoad};

    ghost then = { FrameLoad };
}

/// The frame load of a receiver that has no place for an item.
pub(crate) struct Looks;

impl Play<(), View> for Looks {
    ghost use Rattle.stab_word.specs.Plays.{FrameLook};

    ghost then = { FrameLook };
}

/// The close store.
pub(crate) struct Closes;

impl Play<(), View> for Closes {
    ghost use Rattle.stab_word.specs.Plays.{CloseStore};

    ghost then = { CloseStore };
}

/// The split of the opening seat into the sender's and the receiver's.
pub(crate) struct SplitEnds;

impl Split<View> for SplitEnds {
    ghost use Rattle.stab_word.specs.Views.{sender_part, receiver_part};

    ghost left = { sender_part };

    ghost right = { receiver_part };
}

/// The join of the sender's and the receiver's seat.
pub(crate) struct JoinEnds;

impl Join<View> for JoinEnds {
    ghost use Rattle.stab_word.specs.Views.{joined};
    ghost use Rattle.stab_word.specs.declared.view.View.TheVariants.{Spent};

    ghost both = { joined };

    ghost spent = { Spent };
}
