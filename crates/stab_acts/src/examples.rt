//! Examples of the definitions, worked out: a law with an empty body.

ghost use Rattle.std.specs.Prelude.{◌≡◌, [], Some};
ghost use Rattle.stab_acts.specs.Draws.{draw_fault, out_of_word};
ghost use Rattle.stab_acts.specs.Scripts.{in_act, out_act};
ghost use Rattle.stab_acts.specs.declared.act.InAct.{InAct};
ghost use Rattle.stab_acts.specs.declared.act.OutAct.{OutAct};
ghost use Rattle.stab_acts.specs.declared.fault.ScriptFault.{ScriptFault};

/// The definitions of this crate on small values.
pub fn worked_out()
    // At a loss of 100 the word 2707161783 passes, since 783 is not below 100, and 97 drops.
    ensures drawn { (out_of_word 100 2707161783 ≡ OutAct.Pass)
        × (out_of_word 100 97 ≡ OutAct.Drop) }
    // A rate over 1000 is refused.
    ensures rate { draw_fault 3 1001 0 ≡ Some ScriptFault.RateOutOfRange }
    // Past its end a list passes or takes.
    ensures past_the_end { (out_act [] ≡ OutAct.Pass) × (in_act [] ≡ InAct.Take) }
{}
