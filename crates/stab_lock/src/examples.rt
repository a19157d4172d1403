//! Examples of the definitions, worked out: a law with an empty body.

ghost use Rattle.std.specs.Prelude.{[], ◌∷◌};
ghost use Rattle.stab_acts.specs.declared.act.OutAct.{OutAct};
ghost use Rattle.stab_lock.specs.Taken.{SameTaken};

/// The definitions of this crate on small values.
pub fn worked_out()
    // Of Drop, Pass, Evict two remain, so of a list of three acts the first must be Drop.
    ensures same { SameTaken 2 (OutAct.Drop ∷ OutAct.Pass ∷ OutAct.Evict ∷ [])
        (OutAct.Drop ∷ OutAct.Drop ∷ OutAct.Drop ∷ []) }
    ensures another_act { ¬ SameTaken 2 (OutAct.Drop ∷ OutAct.Pass ∷ OutAct.Evict ∷ [])
        (OutAct.Pass ∷ OutAct.Pass ∷ OutAct.Evict ∷ []) }
    ensures too_few { ¬ SameTaken 2 (OutAct.Drop ∷ OutAct.Pass ∷ OutAct.Evict ∷ [])
        (OutAct.Drop ∷ OutAct.Pass ∷ []) }
    // Where all three remain, any three acts are the same as far as they were taken.
    ensures none_taken { SameTaken 3 (OutAct.Drop ∷ OutAct.Pass ∷ OutAct.Evict ∷ [])
        (OutAct.Pass ∷ OutAct.Pass ∷ OutAct.Pass ∷ []) }
{}
