//! Examples of the definitions, worked out: a law with an empty body.

ghost use Rattle.std.specs.Prelude.{◌≡◌, ℕ, List, [], ◌∷◌, Option, Some, None, true, false};
ghost use Rattle.rignolda_agent.specs.declared.body.Kind.TheVariants.{Changes, Table, Harmless};
ghost use Rattle.rignolda_agent.specs.BodySpelling.{Body, Setting};
ghost use Rattle.rignolda_agent.specs.Agents.{Agent, applied, happens_all, none_set};
ghost use Rattle.rignolda_agent.specs.Numbers.{ahead, furthest, is_newer, next};
ghost use Rattle.rignolda_agent.specs.Takers.{Taker, after, drops, fills, looks};

/// The definitions of this crate on small values.
pub fn worked_out()
    // After the highest number comes 1, which is 2 ahead of it.
    ensures round { (next 18446744073709551615 ≡ 1) × (ahead 18446744073709551615 1 ≡ 2)
        × (is_newer 18446744073709551615 1 ≡ true) × (is_newer 1 18446744073709551615 ≡ false) }
    // 5 is newer than 3 and than no number, and not newer than itself; 0 is never newer.
    ensures newer { (is_newer 3 5 ≡ true) × (is_newer 5 3 ≡ false) × (is_newer 5 5 ≡ false)
        × (is_newer 0 5 ≡ true) × (is_newer 0 0 ≡ false)
        × (is_newer 9223372036854775808 0 ≡ false) }
    // What is ahead by half of the circle is not newer, and by one less it is.
    ensures half { (is_newer 1 9223372036854775809 ≡ false)
        × (is_newer 1 9223372036854775808 ≡ true) }
    // Of 9, 12, 3 and 11 the furthest ahead of 10 is 12; of 9 and 3 none is.
    ensures furthest { (furthest 10 (9 ∷ 12 ∷ 3 ∷ 11 ∷ []) ≡ 12) × (furthest 10 (9 ∷ 3 ∷ []) ≡ 10) }
    // An agent whose files have number 9 starts again. It hears 7, a table in which the setting of
    // key 1 is 7, then 8 and 9, in which it is 8 and 9, and 8 once more. Its files only have 9.
    ensures starts_again { let key = 1 ∷ [] in
        let says : ℕ → List Setting =
        (λ value. record { key = key; value = Some (value ∷ []) } ∷ []) in
        let agent : Agent = record {
          taker = record { number = 9; floor = 9; whole = true; in_a_round = false };
          waiting = [];
          files = none_set;
        } in
        let table : Body = record { kind = Table; number = 7; settings = says 7 } in
        let eight : Body = record { kind = Changes; number = 8; settings = says 8 } in
        let nine : Body = record { kind = Changes; number = 9; settings = says 9 } in
        let history : List (Option Body) =
        None ∷ Some table ∷ Some eight ∷ Some nine ∷ Some eight ∷ [] in
        ((happens_all agent history).files key ≡ Some (9 ∷ []))
        × (applied agent history ≡ 9 ∷ []) }
    // Where such an agent hears 7, a table, and then 9, what waited is dropped; and where it is not
    // held, nothing is.
    ensures drops { let held : Taker =
        record { number = 7; floor = 9; whole = true; in_a_round = false } in
        let free : Taker = record { number = 7; floor = 7; whole = true; in_a_round = false } in
        (drops held Changes 9 ≡ true) × (drops held Table 9 ≡ false)
        × (drops held Changes 8 ≡ false) × (drops free Changes 9 ≡ false) }
    // The table of a round looks at all files, and one that follows in between does not; one before
    // which a number is left out makes up for that.
    ensures looks { let within : Taker =
        record { number = 7; floor = 7; whole = true; in_a_round = true } in
        let between : Taker = record { number = 7; floor = 7; whole = true; in_a_round = false } in
        (looks within 8 ≡ true) × (looks between 8 ≡ false) × (fills between 8 ≡ false)
        × (fills between 9 ≡ true) × (looks between 9 ≡ true) }
    // After a table with number 7 a change with number 9 lacks something, and the table 10 makes up
    // for it; the table after a harmless body looks at all files.
    ensures over_time { let begins : Taker =
        record { number = 0; floor = 0; whole = false; in_a_round = false } in
        let seven = after begins Table 7 in
        (fills (after seven Changes 9) 10 ≡ true) × (fills (after seven Changes 8) 9 ≡ false)
        × (looks (after seven Harmless 8) 9 ≡ true) × (looks (after seven Changes 8) 9 ≡ false)
        × (looks (after (after seven Harmless 8) Table 9) 10 ≡ false) }
{}
