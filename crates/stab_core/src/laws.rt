//! Laws over the definitions alone: they name no link, queue or list of the code, so that every
//! layer above may use them for whatever runs the same steps. Each is a function with an empty
//! body; its contract is the law.

ghost use Rattle.std.specs.Prelude.{◌≡◌, ℕ, ◌+◌, ◌*◌, ◌≤◌, List, [], ◌∷◌, ◌++◌, length, fold};
ghost use Rattle.std.specs.List.{range_with_len};
ghost use Rattle.stab_core.specs.CounterExamples.{two_labels, two_labels_start, two_labels_events};
ghost use Rattle.stab_core.specs.CounterExamples.{any_ack_step, any_ack_start, any_ack_events};
ghost use Rattle.stab_core.specs.CounterExamples.{any_frame_step, any_frame_start};
ghost use Rattle.stab_core.specs.CounterExamples.{any_frame_events};
ghost use Rattle.stab_core.specs.CounterExamples.{four_labels, worst_start, worst_events};
ghost use Rattle.stab_core.specs.CounterExamples.{take_frame, take_ack};
ghost use Rattle.stab_core.specs.CounterExamples.{too_few_labels, too_few_labels_start};
ghost use Rattle.stab_core.specs.CounterExamples.{too_few_labels_events};
ghost use Rattle.stab_core.specs.LinkLaw.{HalfLaw, LinkLaw, LinkLawWithin, SharperLinkLaw};
ghost use Rattle.stab_core.specs.LinkState.{LinkState};
ghost use Rattle.stab_core.specs.Reachable.{IsReachable};
ghost use Rattle.stab_core.specs.Replay.{IsLawful, initial, replay, start_items};
ghost use Rattle.stab_core.specs.Since.{IsBounded, PassesOn, start_at};
ghost use Rattle.stab_core.specs.Since.{offered_since, acked_since, delivered_since};
ghost use Rattle.stab_core.specs.Step.{step};
ghost use Rattle.stab_core.specs.Trace.{Explains, traced_initial, traced_replay};
ghost use Rattle.stab_core.specs.declared.event.Event.{Event};
ghost use Rattle.stab_core.specs.declared.start.Start.{Start};
ghost use Rattle.stab_frames.specs.Parameters.{AreLawful, Parameters};

/// A close is for good: whatever events come after it, the replay is the one that ended with it.
pub fn closed_for_good()
    ensures { (p : Parameters) (s : LinkState) (before after : List Event)
        → replay p s (before ++ Event.Close ∷ after) ≡ replay p s (before ++ Event.Close ∷ []) }
{}

/// A replay of two lists, one after the other, is the replay of the second from where the first one
/// led.
pub fn replays_join()
    ensures { (p : Parameters) (s : LinkState) (first second : List Event)
        → replay p s (first ++ second) ≡ replay p (replay p s first) second }
{}

/// The step of a reachable state is reachable.
pub fn reachable_steps()
    ensures { (p : Parameters) (start : Start) (s : LinkState) (event : Event)
        → IsReachable p start s → IsReachable p start (step p s event) }
{}

/// Whatever happens to a link, all offered items but at most the last are acknowledged, and no
/// others.
pub fn acknowledged_were_offered()
    ensures { (p : Parameters) (start : Start) (events : List Event)
        → let s = replay p (initial start) events in
        (s.acked ≤ length s.offered) × (length s.offered ≤ s.acked + 1) }
{}

/// Whatever happens to a link, and whatever its start, the trace goes through the states of the
/// replay, and its origins explain what was delivered: strays first, then offered items, each part
/// in its order and none twice.
pub fn every_replay_is_explained()
    ensures same_states { (p : Parameters) (start : Start) (events : List Event)
        → (traced_replay p (traced_initial start) events).state ≡ replay p (initial start) events }
    ensures explained { (p : Parameters) (start : Start) (events : List Event)
        → let s = replay p (initial start) events in
        let traced = traced_replay p (traced_initial start) events in
        Explains (start_items start) s.offered traced.origins s.delivered }
{}

/// The link law: from a lawful start, with any labels in it, and after any events, at most `c`
/// strays were delivered and then offered items in their order, each at most once; of the
/// acknowledged ones only some among the first `2c + 1` can be missing.
pub fn every_replay_obeys_the_link_law()
    ensures { (p : Parameters) (start : Start) (events : List Event)
        → AreLawful p → IsLawful p start → let s = replay p (initial start) events in
        LinkLaw p.capacity (start_items start) s.offered s.acked s.delivered }
{}

/// The sharper link law: of the acknowledged items only some among the first `c + 1` can be
/// missing, and among one more for each stray that was delivered. So who has seen no stray misses
/// less.
pub fn every_replay_obeys_the_sharper_link_law()
    ensures { (p : Parameters) (start : Start) (events : List Event)
        → AreLawful p → IsLawful p start → let s = replay p (initial start) events in
        SharperLinkLaw p.capacity (start_items start) s.offered s.acked s.delivered }
{}

/// One label fewer than a link has is enough: the link law, with the same bounds, holds with `2c +
/// 1` labels or more.
pub fn one_label_fewer_is_enough()
    ensures { (p : Parameters) (start : Start) (events : List Event)
        → 1 ≤ p.capacity → 2 * p.capacity + 1 ≤ p.labels
        → IsLawful p start → let s = replay p (initial start) events in
        LinkLaw p.capacity (start_items start) s.offered s.acked s.delivered }
{}

/// And two fewer are too few, for every capacity: with `2c` labels these events break the link law
/// from a lawful start, since item number `2c + 1` is acknowledged and was not delivered. So `2c +
/// 1` labels are the fewest.
pub fn two_labels_fewer_are_too_few()
    ensures lawful { (c stray : ℕ) → 1 ≤ c
        → IsLawful (too_few_labels c) (too_few_labels_start c stray) }
    ensures broken { (c item stray : ℕ) → 1 ≤ c → item + 2 * c + 2 ≤ stray
        → let start = too_few_labels_start c stray in
        let s = replay (too_few_labels c) (initial start) (too_few_labels_events c item) in
        ¬ LinkLaw c (start_items start) s.offered s.acked s.delivered }
{}

/// The half law alone, which says nothing of missing items, and for which the number of labels does
/// not matter.
pub fn every_replay_obeys_the_half_law()
    ensures { (p : Parameters) (start : Start) (events : List Event)
        → IsLawful p start → let s = replay p (initial start) events in
        HalfLaw p.capacity (start_items start) s.offered s.acked s.delivered }
{}

/// Every event keeps a link within its bounds.
pub fn replays_stay_bounded()
    ensures { (p : Parameters) (s : LinkState) (events : List Event)
        → IsBounded p s → IsBounded p (replay p s events) }
{}

/// The half law from any state: it holds of what was offered, acknowledged and delivered since.
pub fn half_law_from_any_state()
    ensures { (p : Parameters) (s : LinkState) (events : List Event)
        → IsBounded p s → let t = replay p s events in
        HalfLaw p.capacity (start_items (start_at s))
        (offered_since s t) (acked_since s t) (delivered_since s t) }
{}

/// The link law from any state, whatever its labels, and whether or not its sender holds an item:
/// since then at most `c` strays were delivered, which are in the queued frames, and then what was
/// offered since; of what was acknowledged since only some among the first `2c + 1` can be missing.
pub fn link_law_from_any_state()
    ensures { (p : Parameters) (s : LinkState) (events : List Event)
        → AreLawful p → IsBounded p s → let t = replay p s events in
        LinkLaw p.capacity (start_items (start_at s))
        (offered_since s t) (acked_since s t) (delivered_since s t) }
{}

/// The sharper link law from any state.
pub fn sharper_link_law_from_any_state()
    ensures { (p : Parameters) (s : LinkState) (events : List Event)
        → AreLawful p → IsBounded p s → let t = replay p s events in
        SharperLinkLaw p.capacity (start_items (start_at s))
        (offered_since s t) (acked_since s t) (delivered_since s t) }
{}

/// Once `2c + 2` items were acknowledged since any state, a link passes on exactly what it is
/// offered: no stray comes any more, and no acknowledged item is missing.
pub fn links_pass_on_exactly()
    ensures { (p : Parameters) (s : LinkState) (before after : List Event)
        → AreLawful p → IsBounded p s → let middle = replay p s before in
        2 * p.capacity + 2 ≤ acked_since s middle
        → PassesOn middle (replay p middle after) }
{}

/// Two labels are too few: from a lawful start this event list breaks the link law, since an item
/// after the first `2c + 1` is acknowledged and was not delivered.
pub fn two_labels_break_the_link_law()
    ensures lawful { IsLawful two_labels two_labels_start }
    ensures broken { let s = replay two_labels (initial two_labels_start) two_labels_events in
        ¬ LinkLaw two_labels.capacity (start_items two_labels_start) s.offered s.acked s.delivered }
{}

/// A sender that goes on at any acknowledgement breaks the link law, under lawful parameters and
/// from a lawful start.
pub fn any_acknowledgement_breaks_the_link_law()
    ensures parameters { AreLawful four_labels }
    ensures lawful { IsLawful four_labels any_ack_start }
    ensures broken { let s = fold (any_ack_step four_labels) (initial any_ack_start) any_ack_events in
        ¬ LinkLaw four_labels.capacity (start_items any_ack_start) s.offered s.acked s.delivered }
{}

/// A receiver that takes every frame breaks the half law: it delivers an item twice.
pub fn every_frame_breaks_the_half_law()
    ensures parameters { AreLawful four_labels }
    ensures lawful { IsLawful four_labels any_frame_start }
    ensures broken { let s = fold (any_frame_step four_labels) (initial any_frame_start) any_frame_events in
        ¬ HalfLaw four_labels.capacity (start_items any_frame_start) s.offered s.acked s.delivered }
{}

/// The bounds of the link law are the least ones, for all lawful parameters. The worst start has
/// `c` strays. After the worst events all of them were delivered, and `2c + 1` items are
/// acknowledged, of which none was delivered where the strays are other items than the offered
/// ones. So no smaller bound holds of this replay, neither on strays nor on missing items, and none
/// of every replay.
pub fn bounds_are_reached()
    ensures lawful { (p : Parameters) (stray : ℕ) → IsLawful p (worst_start p.capacity stray) }
    ensures as_many_strays { (c stray : ℕ) → length (start_items (worst_start c stray)) ≡ c }
    ensures reached { (p : Parameters) (item stray : ℕ)
        → AreLawful p → let c = p.capacity in
        let start = worst_start c stray in
        let s = replay p (initial start) (worst_events c item) in
        (s.offered ≡ range_with_len item (2 * c + 2)) × (s.acked ≡ 2 * c + 1)
        × (s.delivered ≡ start_items start ++ (item + 2 * c + 1) ∷ []) }
    ensures no_smaller { (p : Parameters) (item stray most_strays most_missing : ℕ)
        → AreLawful p → let c = p.capacity in
        item + 2 * c + 2 ≤ stray → let start = worst_start c stray in
        let s = replay p (initial start) (worst_events c item) in
        LinkLawWithin most_strays most_missing (start_items start) s.offered s.acked s.delivered
        → (c ≤ most_strays) × (2 * c + 1 ≤ most_missing) }
    ensures least { (p : Parameters) (most_strays most_missing : ℕ)
        → AreLawful p
        → ((start : Start) (events : List Event)
        → IsLawful p start → let s = replay p (initial start) events in
        LinkLawWithin most_strays most_missing (start_items start) s.offered s.acked s.delivered)
        → (p.capacity ≤ most_strays) × (2 * p.capacity + 1 ≤ most_missing) }
{}

/// The worst start and the worst events, written out for the capacities 1 and 2. For 1 they are
/// those of the example `worst_start`. For 2 they are those of the example
/// `links/worst_start_of_capacity_two` up to its first sent frame, which is then received.
pub fn worst_events_written_out()
    ensures start_of_one { worst_start 1 99 ≡
        record {
          frames = record { label = 2; item = 99 } ∷ [];
          acks = 0 ∷ [];
          send_label = 0;
          recv_label = 1;
        } }
    ensures events_of_one { worst_events 1 10 ≡
        Event.Offer 10 ∷ take_ack
        ∷ Event.SendAck ∷ Event.Offer 11 ∷ take_ack ∷ take_frame
        ∷ Event.SendAck ∷ Event.Offer 12 ∷ take_ack
        ∷ Event.Offer 13 ∷ Event.SendFrame ∷ take_frame ∷ [] }
    ensures start_of_two { worst_start 2 98 ≡
        record {
          frames = record { label = 3; item = 98 } ∷ record { label = 4; item = 99 } ∷ [];
          acks = 0 ∷ 1 ∷ [];
          send_label = 0;
          recv_label = 2;
        } }
    ensures events_of_two { worst_events 2 10 ≡
        Event.Offer 10 ∷ take_ack ∷ Event.Offer 11 ∷ take_ack
        ∷ Event.SendAck ∷ Event.Offer 12 ∷ take_ack ∷ take_frame
        ∷ Event.SendAck ∷ Event.Offer 13 ∷ take_ack ∷ take_frame
        ∷ Event.SendAck ∷ Event.Offer 14 ∷ take_ack
        ∷ Event.Offer 15 ∷ Event.SendFrame ∷ take_frame ∷ [] }
{}
