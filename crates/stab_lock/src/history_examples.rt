//! Examples of the definitions, worked out: a law with an empty body.

ghost use Rattle.std.specs.Prelude.{◌≡◌, ◌⊎◌, [], ◌∷◌};
ghost use Rattle.stab_core.specs.declared.event.Event.{Event};
ghost use Rattle.stab_lock.specs.History.{HistoryValue, HasRoom, IsLast};

/// The definitions of this crate on small values.
pub fn worked_out()
    // Of SendAck, SendAck and Close the last event is Close.
    ensures last { IsLast Event.Close (Event.SendAck ∷ Event.SendAck ∷ Event.Close ∷ []) }
    ensures not_last { ¬ IsLast Event.SendAck (Event.SendAck ∷ Event.SendAck ∷ Event.Close ∷ []) }
    // No event is the last one of the empty list.
    ensures none { (event : Event) → ¬ IsLast event [] }
    // So there is room for another Close, also where there is none for a SendAck.
    ensures room { let h : HistoryValue = record {
      events = Event.SendAck ∷ Event.SendAck ∷ Event.Close ∷ [];
      room = 0;
    } in
        HasRoom h Event.Close × ¬ HasRoom h Event.SendAck }
{}
