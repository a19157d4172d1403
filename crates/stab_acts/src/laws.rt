//! Laws over the definitions alone, for whatever takes acts by the same definitions. Each is a
//! function with an empty body; its contract is the law.

ghost use Rattle.std.specs.Prelude.{◌≡◌, List};
ghost use Rattle.stab_acts.specs.Scripts.{ActsRemaining, out_act, in_act, nth_out, nth_in};
ghost use Rattle.stab_acts.specs.Scripts.{after_outs, after_ins};
ghost use Rattle.stab_acts.specs.Scripts.{Taking, after_takings, outs_among, ins_among};

/// The act that is taken after `n` others is the one at place `n` of its list, past the end `Pass`
/// or `Take`.
#[tactic(auto, using(crate::proofs::Taking::nth_out_taken, crate::proofs::Taking::nth_in_taken))]
pub fn nth_act_taken(_n: u64)
    ensures outs { (half : ActsRemaining)
        → out_act (after_outs _n half).outs ≡ nth_out half.outs _n }
    ensures ins { (half : ActsRemaining)
        → in_act (after_ins _n half).ins ≡ nth_in half.ins _n }
{}

/// The same where acts for what goes out and for what comes in are taken in any order: the next act
/// is the one at the place that says how many of its own list were taken.
#[tactic(auto, using(crate::proofs::Taking::next_out_after, crate::proofs::Taking::next_in_after))]
pub fn next_act_after_takings()
    ensures outs { (takings : List Taking) → (half : ActsRemaining)
        → out_act (after_takings takings half).outs ≡ nth_out half.outs (outs_among takings) }
    ensures ins { (takings : List Taking) → (half : ActsRemaining)
        → in_act (after_takings takings half).ins ≡ nth_in half.ins (ins_among takings) }
{}
