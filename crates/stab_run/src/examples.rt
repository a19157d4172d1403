//! Examples of the definitions, worked out: a law with an empty body.

ghost use Rattle.std.specs.Prelude.{◌≡◌, [], ◌∷◌};
ghost use Rattle.stab_acts.specs.Scripts.{acts, receiver_half, sender_half};
ghost use Rattle.stab_acts.specs.declared.act.OutAct.{OutAct};
ghost use Rattle.stab_run.specs.Scripted.{let_through};

/// The definitions of this crate on small values.
pub fn worked_out()
    // Of the acts Drop, Pass, Drop for frames the first 2 let one store through, the first 3 as
    // well, and the first 5 let 3 through, since past the end everything passes.
    ensures frames { (let_through 2 (sender_half
        (acts (OutAct.Drop ∷ OutAct.Pass ∷ OutAct.Drop ∷ []) [] [] [])) ≡ 1)
        × (let_through 3 (sender_half
        (acts (OutAct.Drop ∷ OutAct.Pass ∷ OutAct.Drop ∷ []) [] [] [])) ≡ 1)
        × (let_through 5 (sender_half
        (acts (OutAct.Drop ∷ OutAct.Pass ∷ OutAct.Drop ∷ []) [] [] [])) ≡ 3) }
    // The acts for frames say nothing of acknowledgements.
    ensures acknowledgements { let_through 2 (receiver_half
        (acts (OutAct.Drop ∷ OutAct.Drop ∷ []) [] (OutAct.Evict ∷ []) [])) ≡ 2 }
{}
