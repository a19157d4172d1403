//! Examples of the definitions, worked out: laws with an empty body.

ghost use Rattle.std.specs.Prelude.{◌≡◌, ◌==◌, ℕ, Bool, true, false, None, [], ◌∷◌};
ghost use Rattle.rignolda_ways.specs.declared.asked.Asked.{Asked as Question};
ghost use Rattle.rignolda_ways.specs.Answers.{answer_of};
ghost use Rattle.rignolda_ways.specs.Nets.{IsDistance, IsNet, Net};
ghost use Rattle.rignolda_ways.specs.Runs.{IsRun, after_rounds};
ghost use Rattle.rignolda_ways.specs.Rings.{IsRing, Stays};
ghost use Rattle.rignolda_ways.specs.RingOfTwo.{crossed, each_other, two, unheard};
ghost use Rattle.rignolda_ways.specs.TwoRounds.{forged, learns, second, three, unlucky};
ghost use Rattle.rignolda_ways.specs.Turns.{State, after_turn, says};

use crate::{Answer, Reason};

/// The definitions of this crate on small values.
pub fn worked_out()
    // The bound is 128, an agent says cost 10, and the price is 1. A candidate that says 3 is
    // taken, one that says 9 is no better, and one that says 200 has no root. The parent may say
    // 200, and is left if it says 255, or a way that has the agent's own name.
    ensures answers { let asks : ℕ → Bool → Bool → Question = (λ said named parent. record {
      said = said;
      price = 1;
      names = 2;
      has_own_name = named;
      own = 10;
      has_parent = true;
      is_parent = parent;
      is_sole = false;
      has_children = true;
      was_in_circle = false;
      head_is_smaller = false;
    }) in
        (answer_of 128 (asks 3 false false) ≡ Answer.Takes)
        × (answer_of 128 (asks 9 false false) ≡ Answer.Keeps Reason.NoBetter)
        × (answer_of 128 (asks 200 false false) ≡ Answer.Keeps Reason.NoRoot)
        × (answer_of 128 (asks 200 false true) ≡ Answer.Takes)
        × (answer_of 128 (asks 255 false true) ≡ Answer.Leaves Reason.LongWay)
        × (answer_of 128 (asks 3 true true) ≡ Answer.Leaves Reason.Circle) }
    // Agent 1 has the candidates 2 and 0, a root, each at cost 1, and no parent. It learns that 2
    // said 4 and the names 0, 2, and then that 0 said 0 and the name 0.
    ensures turns { let net : Net = record {
      agents = 3;
      is_root = λ v. v == 0;
      candidates = λ v. record { agent = 2; cost = 1 } ∷ record { agent = 0; cost = 1 } ∷ [];
      none = 128;
    } in
        let start : State = (λ v. None) in
        let once : State = after_turn net start (learns 1 0 4 (0 ∷ 2 ∷ [])) in
        let twice : State = after_turn net once (learns 1 1 0 (0 ∷ [])) in
        (says net start 1 ≡ record { cost = 128; names = 1 ∷ [] })
        × (says net once 1 ≡ record { cost = 5; names = 0 ∷ 2 ∷ 1 ∷ [] })
        × (says net twice 1 ≡ record { cost = 1; names = 0 ∷ 1 ∷ [] }) }
{}

/// A run of two rounds, and what agent 1 says, whose distance is 1, after the first and the second.
pub fn a_run_of_two_rounds()
    ensures net { IsNet three × IsDistance three 1 1 }
    ensures run { IsRun three [] forged (unlucky ∷ second ∷ []) [] }
    ensures wrong { (says three (after_rounds three forged (unlucky ∷ [])) 1).cost ≡ 129 }
    ensures right { (says three (after_rounds three forged (unlucky ∷ second ∷ [])) 1).cost ≡ 1 }
{}

/// A ring of two agents that stays through one round. None of two stays through two rounds.
pub fn a_ring_in_one_round()
    ensures net { IsNet two }
    ensures run { IsRun two [] unheard (crossed ∷ []) [] }
    ensures ring { Stays two (IsRing two each_other 2) unheard (crossed ∷ []) }
{}
