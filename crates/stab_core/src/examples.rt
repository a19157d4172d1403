//! Examples of the definitions, worked out: a law with an empty body.

ghost use Rattle.std.specs.Prelude.{◌≡◌, [], ◌∷◌, Some, None, true, false, drop};
ghost use Rattle.stab_frames.specs.Parameters.{Parameters};
ghost use Rattle.stab_core.specs.CounterExamples.{four_labels, take_frame};
ghost use Rattle.stab_core.specs.CounterExamples.{worst_start, worst_events};
ghost use Rattle.stab_core.specs.Faults.{struck, sender_anew, receiver_anew};
ghost use Rattle.stab_core.specs.Halves.{SenderState, waits_for};
ghost use Rattle.stab_core.specs.Link.{IsReason};
ghost use Rattle.stab_core.specs.LinkActs.{event_of};
ghost use Rattle.stab_core.specs.LinkState.{LinkState, is_holding, current_frame};
ghost use Rattle.stab_core.specs.Picks.{Picks};
ghost use Rattle.stab_core.specs.Replay.{initial, replay};
ghost use Rattle.stab_core.specs.Since.{start_at, offered_since, acked_since, delivered_since};
ghost use Rattle.stab_core.specs.Step.{step, effect};
ghost use Rattle.stab_core.specs.Trace.{traced_initial, traced_replay};
ghost use Rattle.stab_core.specs.declared.act.LinkAct.{LinkAct};
ghost use Rattle.stab_core.specs.declared.event.Effect.{Effect};
ghost use Rattle.stab_core.specs.declared.event.Event.{Event};
ghost use Rattle.stab_core.specs.declared.origin.Origin.{Origin};
ghost use Rattle.stab_core.specs.declared.start.Start.{Start};
ghost use Rattle.stab_core.specs.declared.start.StartFault.{StartFault};

/// The definitions of this crate on small values. The worst start is that of capacity 1 with the
/// stray 99 and four labels; its events offer items from 10 on.
pub fn worked_out()
    // After the tenth event of the worst start 10, 11, 12 and 13 are offered and three of them are
    // acknowledged: the link is holding, and sends the item 13 under its label 3.
    ensures holding { let s : LinkState = record {
      frames = [];
      acks = [];
      send_label = 3;
      offered = 10 ∷ 11 ∷ 12 ∷ 13 ∷ [];
      acked = 3;
      recv_label = 2;
      delivered = 99 ∷ [];
      closed = false;
    } in
        (is_holding s ≡ true) × (current_frame s ≡ record { label = 3; item = 13 }) }
    // Its sixth event receives the front frame, whose label 2 is not the 1 that the receiver
    // remembers: the frame goes, the label becomes 2, and 99 is delivered.
    ensures fresh_frame { let s : LinkState = record {
      frames = record { label = 2; item = 99 } ∷ [];
      acks = [];
      send_label = 2;
      offered = 10 ∷ 11 ∷ [];
      acked = 2;
      recv_label = 1;
      delivered = [];
      closed = false;
    } in
        (step four_labels s take_frame
        ≡ record s { frames = []; recv_label = 2; delivered = 99 ∷ [] })
        × (effect four_labels s take_frame ≡ Effect.Fresh 99) }
    // A sender with label 0 and an item waits for 0 and not for 1; one without an item waits for
    // nothing.
    ensures waiting { let s : SenderState = record { label = 0; item = Some 10 } in
        (waits_for s 0 ≡ true) × (waits_for s 1 ≡ false)
        × (waits_for (record { label = 0; item = None }) 0 ≡ false) }
    // The act of an offer is the event that offers the item, and no event where there is none.
    ensures acts { (event_of LinkAct.Offer (Some 7) ≡ Some (Event.Offer 7))
        × (event_of LinkAct.Offer None ≡ None) × (event_of LinkAct.Close None ≡ Some Event.Close) }
    // 13 is picked at place 3. Two equal items are picked at two places, and not at one place
    // twice.
    ensures picked { Picks (10 ∷ 11 ∷ 12 ∷ 13 ∷ []) (3 ∷ []) (13 ∷ []) }
    ensures equal_items { Picks (7 ∷ 7 ∷ []) (0 ∷ 1 ∷ []) (7 ∷ 7 ∷ []) }
    ensures not_twice { ¬ Picks (7 ∷ 7 ∷ []) (0 ∷ 0 ∷ []) (7 ∷ 7 ∷ []) }
    // The worst events deliver the stray of the start and then the offered item number 3.
    ensures origins { let t = traced_initial (worst_start 1 99) in
        (traced_replay four_labels t (worst_events 1 10)).origins
        ≡ Origin.Stray 0 ∷ Origin.Sent 3 ∷ [] }
    // Two frames and two acknowledgements at capacity 1: the frames are the reason, and the
    // acknowledgements are not, since the frames are looked at first.
    ensures reasons { let start : Start = record {
      frames = record { label = 0; item = 5 } ∷ record { label = 1; item = 6 } ∷ [];
      acks = 0 ∷ 1 ∷ [];
      send_label = 0;
      recv_label = 0;
    } in
        IsReason four_labels start StartFault.TooManyFrames
        × ¬ IsReason four_labels start StartFault.TooManyAcks }
{}

/// The holding link of the example above, hit by faults, and counted from there.
pub fn faults_worked_out()
    // A strike leaves the three lists, the count and so the item 13 that the sender holds.
    ensures strike { let s : LinkState = record {
      frames = [];
      acks = [];
      send_label = 3;
      offered = 10 ∷ 11 ∷ 12 ∷ 13 ∷ [];
      acked = 3;
      recv_label = 2;
      delivered = 99 ∷ [];
      closed = false;
    } in
        let start : Start = record {
          frames = record { label = 2; item = 98 } ∷ [];
          acks = 0 ∷ [];
          send_label = 0;
          recv_label = 1;
        } in
        (start_at (struck start s) ≡ start)
        × (struck start s ≡ record s {
          frames = record { label = 2; item = 98 } ∷ [];
          acks = 0 ∷ [];
          send_label = 0;
          recv_label = 1;
        })
        × (is_holding (struck start s) ≡ true)
        × (current_frame (struck start s) ≡ record { label = 0; item = 13 }) }
    // Counted from the strike the sender was offered 13 at once. The front acknowledgement counts
    // for it, the stray 98 is delivered, and 14 is offered: 13 and 14 were offered since, 1 of them
    // is acknowledged, and 98 was delivered.
    ensures since { let s : LinkState = record {
      frames = record { label = 2; item = 98 } ∷ [];
      acks = 0 ∷ [];
      send_label = 0;
      offered = 10 ∷ 11 ∷ 12 ∷ 13 ∷ [];
      acked = 3;
      recv_label = 1;
      delivered = 99 ∷ [];
      closed = false;
    } in
        let t = replay four_labels s
        (Event.RecvAck false ∷ take_frame ∷ Event.Offer 14 ∷ []) in
        (offered_since s t ≡ 13 ∷ 14 ∷ []) × (acked_since s t ≡ 1)
        × (delivered_since s t ≡ 98 ∷ []) }
    // A sender that begins anew holds nothing, and a receiver that does has delivered nothing.
    ensures anew { let s : LinkState = record {
      frames = [];
      acks = [];
      send_label = 3;
      offered = 12 ∷ 13 ∷ [];
      acked = 1;
      recv_label = 2;
      delivered = 99 ∷ [];
      closed = false;
    } in
        (is_holding (sender_anew s) ≡ false) × ((sender_anew s).send_label ≡ 3)
        × ((sender_anew s).delivered ≡ 99 ∷ [])
        × (receiver_anew s ≡ record s { delivered = [] }) }
    // With 2c + 1 acknowledged items a link need not pass on exactly yet. At capacity 2 this link
    // has acknowledged 5, from 10 to 14, and the next item that it delivers is 12.
    ensures one_fewer { let start : Start = record {
      frames = record { label = 3; item = 98 } ∷ record { label = 4; item = 99 } ∷ [];
      acks = 0 ∷ 1 ∷ [];
      send_label = 0;
      recv_label = 2;
    } in
        let p : Parameters = record { capacity = 2; labels = 6 } in
        let s = initial start in
        let middle = replay p s
        (Event.Offer 10 ∷ Event.RecvAck false ∷ Event.Offer 11 ∷ Event.RecvAck false
        ∷ Event.SendAck ∷ Event.Offer 12 ∷ take_frame ∷ Event.SendFrame ∷ Event.RecvAck false
        ∷ Event.SendAck ∷ Event.Offer 13 ∷ Event.RecvAck false ∷ take_frame
        ∷ Event.SendAck ∷ Event.Offer 14 ∷ Event.RecvAck false ∷ []) in
        let t = replay p middle (take_frame ∷ []) in
        (acked_since s middle ≡ 5) × (drop middle.acked t.offered ≡ [])
        × (delivered_since middle t ≡ 12 ∷ []) }
{}
