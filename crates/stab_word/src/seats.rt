//! The seats of a link of two words. A seat has no bytes and borrows nothing; its view is what its
//! end knows. A seat is never copied.

use crate::view::View;
use atomic_table::Seat;
use std::marker::Model;

/// The one seat of a link before the split.
#[derive(Drop)]
pub struct OpeningSeat {
    pub(crate) seat: Seat<(), View>,
}

impl Model for OpeningSeat {
    ghost use Rattle.std.specs.Prelude.{◌≡◌, []};
    ghost use Rattle.stab_word.specs.Seats.{LinkId};
    ghost use Rattle.stab_word.specs.Views.{given_of};
    ghost use Rattle.stab_word.specs.declared.view.View.TheVariants.{Opening};

    ghost Value = { LinkId };

    ghost view = { λ s. record { table = s.seat.table_id; given = given_of s.seat.me.0 } };

    ghost invariant = { λ s. s.seat.me ≡ (Opening (given_of s.seat.me.0), []) };
}

/// The seat of the sender's end.
#[derive(Drop)]
pub struct SendSeat {
    pub(crate) seat: Seat<(), View>,
}

impl Model for SendSeat {
    ghost use Rattle.std.specs.Prelude.{◌≡◌, []};
    ghost use Rattle.stab_word.specs.Seats.{SeatedSender};
    ghost use Rattle.stab_word.specs.Views.{sender_of};
    ghost use Rattle.stab_word.specs.declared.view.View.TheVariants.{Sending};

    ghost Value = { SeatedSender };

    ghost view = { λ s. record { table = s.seat.table_id; view = sender_of s.seat.me.0 } };

    ghost invariant = { λ s. s.seat.me ≡ (Sending (sender_of s.seat.me.0), []) };
}

/// The seat of the receiver's end.
#[derive(Drop)]
pub struct RecvSeat {
    pub(crate) seat: Seat<(), View>,
}

impl Model for RecvSeat {
    ghost use Rattle.std.specs.Prelude.{◌≡◌, []};
    ghost use Rattle.stab_word.specs.Seats.{SeatedReceiver};
    ghost use Rattle.stab_word.specs.Views.{receiver_of};
    ghost use Rattle.stab_word.specs.declared.view.View.TheVariants.{Receiving};

    ghost Value = { SeatedReceiver };

    ghost view = { λ s. record { table = s.seat.table_id; view = receiver_of s.seat.me.0 } };

    ghost invariant = { λ s. s.seat.me ≡ (Receiving (receiver_of s.seat.me.0), []) };
}
