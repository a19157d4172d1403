//! Examples of the definitions, worked out: a law with an empty body.

ghost use Rattle.std.specs.Prelude.{◌≡◌, ◌++◌, [], ◌∷◌, None, Some, false};
ghost use Rattle.stab_core.specs.CounterExamples.{four_labels, worst_events, worst_start};
ghost use Rattle.stab_core.specs.LinkSetup.{LinkSetup};
ghost use Rattle.stab_core.specs.Replay.{clean_start, initial, replay};
ghost use Rattle.stab_core.specs.declared.act.LinkAct.{LinkAct};
ghost use Rattle.stab_core.specs.declared.event.Event.{Event};
ghost use Rattle.stab_treecore.specs.Network.{Network};
ghost use Rattle.stab_rounds.specs.Ignored.{ignored_among};
ghost use Rattle.stab_rounds.specs.Played.{reading_round_with, round_with, rounds_with};
ghost use Rattle.stab_rounds.specs.ReadingRounds.{reading_rounds};
ghost use Rattle.stab_rounds.specs.Receipts.{acks_received, frames_received};
ghost use Rattle.stab_rounds.specs.Rounds.{rounds_of};
ghost use Rattle.stab_rounds.specs.Slowest.{fewest_labels_of, slow_rounds, slow_start};
ghost use Rattle.stab_rounds.specs.TreePlayed.{act_on, play};
ghost use Rattle.stab_rounds.specs.TreeReadingRounds.{reading_rounds_below};
ghost use Rattle.stab_rounds.specs.TreeRounds.{acts_on, rounds_below};

/// The definitions of this crate on small values.
pub fn worked_out()
    // The events of the worst start are no round: its only `send_frame` is followed by no
    // acknowledgement.
    ensures worst_start { rounds_of (worst_events 1 10) ≡ 0 }
    // The five events in order are a round. It is none where the frame is lost before it is taken,
    // and one again where it is then sent and taken anew.
    ensures lost_frame { (rounds_of (round_with 7) ≡ 1)
        × (rounds_of (Event.Offer 7 ∷ Event.SendFrame ∷ Event.LoseFrame 0 ∷ Event.RecvFrame false
        ∷ Event.SendAck ∷ Event.RecvAck false ∷ []) ≡ 0)
        × (rounds_of (Event.Offer 7 ∷ Event.SendFrame ∷ Event.LoseFrame 0 ∷ Event.SendFrame
        ∷ Event.RecvFrame false ∷ Event.SendAck ∷ Event.RecvAck false ∷ []) ≡ 1) }
    // With capacity 1 a reading round takes a frame, sends one and takes one, and so with
    // acknowledgements. What is a reading round with capacity 1 is none with 2.
    ensures reading_round { (reading_rounds 1 (reading_round_with 1 7) ≡ 1)
        × (reading_rounds 2 (reading_round_with 1 7) ≡ 0)
        × (reading_rounds 1 (round_with 7) ≡ 0) }
    // In the worst start's events two frames and three acknowledgements are received, and each of
    // the latter is the one that the sender waits for.
    ensures received { let s = initial (worst_start 1 99) in
        (frames_received four_labels s (worst_events 1 10) ≡ 2)
        × (acks_received four_labels s (worst_events 1 10) ≡ 3)
        × (ignored_among four_labels s (worst_events 1 10) ≡ 0) }
    // Capacity 2: nineteen of the slowest rounds acknowledge three items, one each five.
    ensures slowest { let s = initial (slow_start 2) in
        (replay (fewest_labels_of 2) s (slow_rounds 10 19)).acked ≡ 3 }
    // Of a chain of two links and one round of all: the upper link's five acts, and then the lower
    // one's.
    ensures chain { let parents = None ∷ Some 0 ∷ Some 1 ∷ [] in
        (acts_on 2 (play parents 1) ≡ LinkAct.Offer ∷ LinkAct.SendFrame ∷ LinkAct.RecvFrame false
        ∷ LinkAct.SendAck ∷ LinkAct.RecvAck false ∷ [])
        × (acts_on 1 (act_on 2 LinkAct.Offer ∷ act_on 1 LinkAct.SendAck ∷ [])
        ≡ LinkAct.SendAck ∷ []) }
    // Three items in that chain, with capacity 1 and a hold of 2 at the inner node: below the root
    // 4 reading rounds or 3 * 4 rounds are enough. The inner node can have 3 items and 3 strays, so
    // below it 8 reading rounds, or 3 * 7 + 1 rounds.
    ensures enough { let own : LinkSetup =
        record { params = fewest_labels_of 1; start = clean_start } in
        let net : Network = record {
          tree = record {
            names = [];
            parents = None ∷ Some 0 ∷ Some 1 ∷ [];
          };
          links = own ∷ own ∷ [];
          openings = record { hold = 2; lists = [] ∷ [] ∷ [] ∷ [] };
          published = 10 ∷ 11 ∷ 12 ∷ [];
        } in
        (reading_rounds_below net 0 ≡ 4) × (rounds_below net 1 0 ≡ 12)
        × (reading_rounds_below net 1 ≡ 8) × (rounds_below net 1 1 ≡ 22) }
{}
