//! The steps of a link of two words: the only functions that touch its table. Each is one load or
//! one store of one word, and says which kind of step it is and which events of the link it stands
//! for.

ghost use Rattle.std.specs.Prelude.{◌≡◌, ◌≤◌, List, length, vec_len, vec_capacity, false, IfOk};
ghost use Rattle.stab_core.specs.LinkLaw.{LinkLaw};
ghost use Rattle.stab_core.specs.Replay.{IsLawful, initial, replay, start_items};
ghost use Rattle.stab_core.specs.declared.event.Event.{Event};
ghost use Rattle.stab_frames.specs.Parameters.{AreLawful};
ghost use Rattle.stab_ends.specs.Accounts.{MayOffer, Waits};
ghost use Rattle.stab_ends.specs.Agreement.{Agree};
ghost use Rattle.stab_word.specs.Seats.{link_of_sender, link_of_receiver};
ghost use Rattle.stab_word.specs.Views.{first_sender, first_receiver, current_frame};
ghost use Rattle.stab_word.specs.Views.{offered_to, stored_by, after_ack, closed_by};
ghost use Rattle.stab_word.specs.Views.{after_frame, after_look, answered_by};
ghost use Rattle.stab_word.specs.Interleaving.{AnInterleavingExplains};
ghost use Rattle.stab_word.specs.Words.{frames_of, acks_of, is_closed_word};

use crate::rule::{
    Closes, JoinEnds, Looks, Offering, Offers, SeesAck, SeesFrame, SplitEnds, StoresAck,
    StoresFrame, WordRule,
};
use crate::seats::{OpeningSeat, RecvSeat, SendSeat};
use crate::view::{Setting, View};
use crate::words::{AckWord, FrameWord};
use atomic_table::Table;
use stab_core::Start;
use stab_frames::{Frame, Item, Label, Params};
use std::alloc::{AllocError, Global};
use std::marker::{Brand, Model};

/// The place of the frame word.
const FRAMES: usize = 0;

/// The place of the acknowledgement word.
const ACKS: usize = 1;

/// The two words of a link. Contracts see which table it is, and what the link was given.
#[derive(Drop)]
pub struct WordTable {
    table: Table<(), View, Setting, WordRule, Global>,
}

impl Model for WordTable {
    ghost use Rattle.std.specs.Prelude.{◌≡◌};
    ghost use Rattle.stab_core.specs.Replay.{IsLawful};
    ghost use Rattle.stab_frames.specs.Parameters.{AreLawful};
    ghost use Rattle.stab_word.specs.Seats.{LinkId};

    ghost Value = { LinkId };

    ghost view = { λ t. record { table = t.table.shared.table_id; given = t.table.shared.key } };

    ghost invariant = { λ t.
        (t.table.shared.table_id.words ≡ 2) × (t.table.shared.table_id.slots ≡ 0)
        × (t.table.shared.key.params.capacity ≡ 1)
        × AreLawful t.table.shared.key.params
        × IsLawful t.table.shared.key.params t.table.shared.key.start };
}

/// The word that shows these frames, of which there is one at most.
fn frame_word(frames: &[Frame]) -> FrameWord
    requires { length frames.now ≤ 1 }
    ensures shows { frames.now ≡ frames_of result }
    ensures open { is_closed_word result ≡ false }
{
    match frames.first() {
        Some(frame) => FrameWord::Full(*frame),
        None => FrameWord::Empty,
    }
}

/// The word that shows these acknowledgements, of which there is one at most.
fn ack_word(acks: &[Label]) -> AckWord
    requires { length acks.now ≤ 1 }
    ensures { acks.now ≡ acks_of result }
{
    match acks.first() {
        Some(label) => AckWord::Full(*label),
        None => AckWord::Empty,
    }
}

impl WordTable {
    /// The two words of a start, and the one seat of their link. This is no step.
    pub fn new(
        alloc: Global,
        params: Params,
        start: &Start,
    ) -> Result<(WordTable, OpeningSeat), AllocError>
        requires one_place { params.capacity ≡ 1 }
        requires lawful { IsLawful params start.now }
        ensures made { IfOk result (λ made. made.0.given
            ≡ record { params = params; start = start.now }) }
        ensures seat { IfOk result (λ made. made.1 ≡ made.0) }
    {
        let _lawful = params.capacity();
        let frames = frame_word(start.frames.as_slice()).code();
        let acks = ack_word(start.acks.as_slice()).code();
        let setting = Setting::new(params, start);
        let (table, seat) = Table::of_words(alloc, &[frames, acks], &setting)?;
        Ok((WordTable { table }, OpeningSeat { seat }))
    }

    /// The split of a seat: the opening seat becomes the sender's, and the receiver's seat is new.
    /// It stands for no event.
    pub fn split(&self, opening: OpeningSeat) -> (SendSeat, RecvSeat)
        requires { opening ≡ self.now }
        ensures sender { result.0
            ≡ record { table = self.now.table; view = first_sender self.now.given } }
        ensures receiver { result.1
            ≡ record { table = self.now.table; view = first_receiver self.now.given } }
    {
        let OpeningSeat { mut seat } = opening;
        let other = self.table.shared.split_seat::<SplitEnds>(&mut seat);
        (SendSeat { seat }, RecvSeat { seat: other })
    }

    /// The offer load: the sender takes the item. It stands for Offer, and ignores what the frame
    /// word shows; it is there because a view changes only at a step.
    pub fn offer_load(&self, seat: &mut SendSeat, item: Item)
        requires own { link_of_sender seat.old ≡ self.now }
        requires may_offer { MayOffer seat.old.view.account }
        ensures { seat.new ≡ record seat.old { view = offered_to seat.old.view item } }
    {
        self.offer_load_as::<Brand>(seat, item);
    }

    /// The offer load of an item that the type names.
    fn offer_load_as<O: Offering>(&self, seat: &mut SendSeat, item: Item)
        requires named { item ≡ O.item }
        requires own { link_of_sender seat.old ≡ self.now }
        requires may_offer { MayOffer seat.old.view.account }
        ensures { seat.new ≡ record seat.old { view = offered_to seat.old.view item } }
    {
        let _ = item;
        self.table.shared.load::<Offers<O>>(&mut seat.seat, FRAMES);
    }

    /// The frame store: the sender sends its current frame. It stands for LoseFrame 0 where a frame
    /// is on its way, and SendFrame.
    pub fn frame_store(&self, seat: &mut SendSeat, frame: Frame)
        requires own { link_of_sender seat.old ≡ self.now }
        requires waits { Waits seat.old.view.account }
        requires current { frame ≡ current_frame seat.old.view }
        ensures { seat.new ≡ record seat.old { view = stored_by seat.old.view } }
    {
        let word = FrameWord::Full(frame).code();
        self.table
            .shared
            .store::<StoresFrame>(&mut seat.seat, FRAMES, word);
    }

    /// The acknowledgement load: the sender sees the acknowledgement word. It stands for RecvAck
    /// that keeps the front, or no event where the word is empty.
    pub fn ack_load(&self, seat: &mut SendSeat) -> AckWord
        requires own { link_of_sender seat.old ≡ self.now }
        requires open { seat.old.view.account.closed ≡ false }
        ensures { seat.new ≡ record seat.old { view = after_ack seat.old.view result } }
    {
        AckWord::read(self.table.shared.load::<SeesAck>(&mut seat.seat, ACKS))
    }

    /// The close store: the sender closes the link. It stands for LoseFrame 0 where a frame is on
    /// its way, and Close.
    pub fn close_store(&self, seat: &mut SendSeat)
        requires own { link_of_sender seat.old ≡ self.now }
        requires open { seat.old.view.account.closed ≡ false }
        ensures { seat.new ≡ record seat.old { view = closed_by seat.old.view } }
    {
        let word = FrameWord::Closed.code();
        self.table
            .shared
            .store::<Closes>(&mut seat.seat, FRAMES, word);
    }

    /// The frame load of a receiver that has a place for an item. It stands for RecvFrame that
    /// keeps the front, or no event where the word is empty or shows the close.
    pub fn frame_load(&self, seat: &mut RecvSeat) -> FrameWord
        requires { link_of_receiver seat.old ≡ self.now }
        ensures { seat.new ≡ record seat.old { view = after_frame seat.old.view result } }
    {
        FrameWord::read(self.table.shared.load::<SeesFrame>(&mut seat.seat, FRAMES))
    }

    /// The frame load of a receiver that has no place for an item, as its items show: it takes no
    /// frame, and sees the close. It stands for no event.
    pub fn frame_look(&self, seat: &mut RecvSeat, items: &Vec<Item>) -> FrameWord
        requires own { link_of_receiver seat.old ≡ self.now }
        requires full { vec_len items.now ≡ vec_capacity items.now }
        ensures { seat.new ≡ record seat.old { view = after_look seat.old.view result } }
    {
        let _ = items;
        FrameWord::read(self.table.shared.load::<Looks>(&mut seat.seat, FRAMES))
    }

    /// The acknowledgement store: the receiver sends the label that it remembers. It stands for
    /// LoseAck 0 where an acknowledgement is on its way, and SendAck; on a closed link it stands
    /// for no event.
    pub fn ack_store(&self, seat: &mut RecvSeat, label: Label)
        requires own { link_of_receiver seat.old ≡ self.now }
        requires unseen { seat.old.view.account.closed ≡ false }
        requires current { label ≡ seat.old.view.label }
        ensures { seat.new ≡ record seat.old { view = answered_by seat.old.view } }
    {
        let word = AckWord::Full(label).code();
        self.table
            .shared
            .store::<StoresAck>(&mut seat.seat, ACKS, word);
    }

    /// The join of a seat: the sender's seat takes in the receiver's, and the table ends. It stands
    /// for no event. Both accounts are those of one replay, so the link law holds between them.
    pub fn join(self, sender: SendSeat, receiver: RecvSeat)
        requires sender { link_of_sender sender ≡ self }
        requires receiver { link_of_receiver receiver ≡ self }
        ensures interleaved { AnInterleavingExplains self.given sender.view.steps
            sender.view.account receiver.view.steps receiver.view.account }
        ensures replay { (events : List Event) × Agree
            (replay self.given.params (initial self.given.start) events)
            sender.view.account receiver.view.account }
        ensures law { LinkLaw 1 (start_items self.given.start) sender.view.account.offered
            sender.view.account.acked receiver.view.account.delivered }
    {
        stab_core::laws::every_replay_obeys_the_link_law();
        self.join_seats(sender, receiver);
    }

    /// The join alone, and the facts that the link law asks of the link.
    fn join_seats(self, sender: SendSeat, receiver: RecvSeat)
        requires sender { link_of_sender sender ≡ self }
        requires receiver { link_of_receiver receiver ≡ self }
        ensures one_place { self.given.params.capacity ≡ 1 }
        ensures params { AreLawful self.given.params }
        ensures start { IsLawful self.given.params self.given.start }
        ensures interleaved { AnInterleavingExplains self.given sender.view.steps
            sender.view.account receiver.view.steps receiver.view.account }
    {
        let WordTable { table } = self;
        let SendSeat { mut seat } = sender;
        let RecvSeat { seat: other } = receiver;
        table.shared.join_seat::<JoinEnds>(&mut seat, other);
        table.close_with(seat).free();
    }
}
