//! Examples of the definitions, worked out: a law with an empty body.

ghost use Rattle.std.specs.Prelude.{◌≡◌, ℕ, [], ◌∷◌, List, true, false};
ghost use Rattle.std.specs.List.{count_by, fold};
ghost use Rattle.rignolda_agent.specs.declared.body.Kind.TheVariants.{Changes, Table};
ghost use Rattle.rignolda_agent.specs.Numbers.{next};
ghost use Rattle.rignolda_agent.specs.Reports.{AreNumbered, Publication, all_heard, covers};
ghost use Rattle.rignolda_agent.specs.Reports.{goes_above, reported};
ghost use Rattle.rignolda_agent.specs.Takers.{Taker};

/// The definitions of reports on small values.
pub fn worked_out()
    // An agent with the numbers 12 and 11, below which some are at 14 and 3, reports 14; one with
    // the number 9, whose files have 11, reports 11.
    ensures reported { let taker : Taker =
        record { number = 12; floor = 11; whole = true; in_a_round = false } in
        let held : Taker = record { number = 9; floor = 11; whole = true; in_a_round = false } in
        (reported taker (14 ∷ 3 ∷ []) ≡ 14) × (reported held [] ≡ 11)
        × (covers 1 taker 12 ≡ true) × (covers 1 taker 11 ≡ false)
        × (covers 1 held 11 ≡ true) × (covers 1 held 9 ≡ false) }
    // A root whose last number is 9 hears 12 twice, and its table has 13. It hears 7, which is not
    // newer, and the next body has 14.
    ensures above { let taker : Taker =
        record { number = 12; floor = 11; whole = true; in_a_round = false } in
        let table : Publication = record {
          heard = 12 ∷ 12 ∷ [];
          body = record { kind = Table; number = 13; settings = [] };
        } in
        let later : Publication = record {
          heard = 7 ∷ [];
          body = record { kind = Changes; number = 14; settings = [] };
        } in
        let said : List Publication = table ∷ later ∷ [] in
        AreNumbered 9 said × (count_by (covers 1 taker) (all_heard said) ≡ 2) }
    // What is almost half of all numbers ahead it is above after two reports, and not after one.
    ensures far { let far : ℕ = 9223372036854775808 in
        (next (fold goes_above 1 (far ∷ [])) ≡ 4611686018427387906)
        × (next (fold goes_above 1 (far ∷ far ∷ [])) ≡ 9223372036854775809) }
{}
