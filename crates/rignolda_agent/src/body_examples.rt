//! Examples of the definitions, worked out: a law with an empty body.

ghost use Rattle.std.specs.Prelude.{◌≡◌, ◌++◌, List, [], ◌∷◌, Some, None, Ok, Err};
ghost use Rattle.rignolda_agent.specs.Checksum.{checksum};
ghost use Rattle.rignolda_agent.specs.declared.body.Kind.TheVariants.{Changes};
ghost use Rattle.rignolda_agent.specs.declared.fault.Fault.TheVariants.{Long, NoKey, Order};
ghost use Rattle.rignolda_agent.specs.declared.fault.Fault.TheVariants.{Trailing, Unset};
ghost use Rattle.rignolda_agent.specs.Reading.{body_of};
ghost use Rattle.rignolda_agent.specs.BodySpelling.{Body, Setting, spelling};

/// The definitions of this crate on small values.
pub fn worked_out()
    // That key `a` is `b` and key `c` is unset, as number 7: each byte of it.
    ensures spelled { let b : Body = record {
      kind = Changes;
      number = 7;
      settings = record { key = 97 ∷ []; value = Some (98 ∷ []) }
          ∷ record { key = 99 ∷ []; value = None } ∷ [];
    } in
        let text = 67 ∷ 0 ∷ 0 ∷ 0 ∷ 0 ∷ 0 ∷ 0 ∷ 0 ∷ 7 ∷ 0 ∷ 0 ∷ 0 ∷ 2
        ∷ 83 ∷ 1 ∷ 97 ∷ 0 ∷ 0 ∷ 0 ∷ 1 ∷ 98 ∷ 85 ∷ 1 ∷ 99 ∷ [] in
        (spelling b ≡ text) × (body_of text ≡ Ok b) }
    // Of these bytes the first fault is the one that is named: a harmless body with a byte more, a
    // table that unsets its key, changes with a key twice.
    ensures faults { let number = 0 ∷ 0 ∷ 0 ∷ 0 ∷ 0 ∷ 0 ∷ 0 ∷ 7 ∷ [] in
        (body_of (72 ∷ number ++ (1 ∷ [])) ≡ Err Trailing)
        × (body_of (84 ∷ number ++ (0 ∷ 0 ∷ 0 ∷ 1 ∷ 85 ∷ 1 ∷ 97 ∷ [])) ≡ Err Unset)
        × (body_of (67 ∷ number ++ (0 ∷ 0 ∷ 0 ∷ 2 ∷ 85 ∷ 1 ∷ 97 ∷ 85 ∷ 1 ∷ 97 ∷ []))
        ≡ Err Order) }
    // A key that is none is met before a mark that is none and before what a table unsets, a value
    // that is too long before the order of the keys, and that before what a table unsets.
    ensures order { let number = 0 ∷ 0 ∷ 0 ∷ 0 ∷ 0 ∷ 0 ∷ 0 ∷ 7 ∷ [] in
        (body_of (67 ∷ number ++ (0 ∷ 0 ∷ 0 ∷ 1 ∷ 88 ∷ 0 ∷ [])) ≡ Err NoKey)
        × (body_of (84 ∷ number ++ (0 ∷ 0 ∷ 0 ∷ 1 ∷ 85 ∷ 1 ∷ 46 ∷ [])) ≡ Err NoKey)
        × (body_of (67 ∷ number ++ (0 ∷ 0 ∷ 0 ∷ 2 ∷ 85 ∷ 1 ∷ 98
        ∷ 83 ∷ 1 ∷ 97 ∷ 0 ∷ 16 ∷ 0 ∷ 1 ∷ [])) ≡ Err Long)
        × (body_of (84 ∷ number ++ (0 ∷ 0 ∷ 0 ∷ 2 ∷ 83 ∷ 1 ∷ 98 ∷ 0 ∷ 0 ∷ 0 ∷ 0
        ∷ 85 ∷ 1 ∷ 97 ∷ [])) ≡ Err Order) }
    // The checksum of the digits from 1 to 9 is cbf43926, in hexadecimal.
    ensures sum { checksum (49 ∷ 50 ∷ 51 ∷ 52 ∷ 53 ∷ 54 ∷ 55 ∷ 56 ∷ 57 ∷ []) ≡ 3421780262 }
{}
