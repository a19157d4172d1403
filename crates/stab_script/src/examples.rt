//! Examples of the definitions, worked out: a law with an empty body.

ghost use Rattle.std.specs.Prelude.{◌≡◌, [], ◌∷◌, Some, None, codes};
ghost use Rattle.stab_script.specs.Events.{plain_act};
ghost use Rattle.stab_script.specs.ScriptEntries.{letters, out_letter};
ghost use Rattle.stab_acts.specs.declared.act.OutAct.{OutAct};

/// The definitions of this crate on small values.
pub fn worked_out()
    // Each letter is an act, and a letter that is none spoils its text.
    ensures of_letters { letters out_letter (codes "PDE")
        ≡ Some (OutAct.Pass ∷ OutAct.Drop ∷ OutAct.Evict ∷ []) }
    ensures no_letter { letters out_letter (codes "PX") ≡ None }
    // This word is no act.
    ensures no_act { plain_act (codes "jump") ≡ None }
{}
