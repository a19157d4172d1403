//! Examples of the definitions, worked out: a law with an empty body.

ghost use Rattle.std.specs.Prelude.{◌≡◌, ℕ, [], ◌∷◌, Some};
ghost use Rattle.stab_frames.specs.Parameters.{Parameters, AreLawful, fault_of, next};
ghost use Rattle.stab_frames.specs.Queue.{turned, without};
ghost use Rattle.stab_frames.specs.declared.params.ParamsFault.{ParamsFault};

/// The definitions of this crate on small values.
pub fn worked_out()
    // 64 entries and 130 labels are lawful, since 2 * 64 + 2 = 130.
    ensures lawful { AreLawful (record { capacity = 64; labels = 130 }) }
    // For one entry three labels are too few.
    ensures too_few { fault_of 1 3 ≡ Some ParamsFault.LabelsTooFew }
    // With four labels the label after 3 is 0, as it is after a number that is no label.
    ensures next_label { let p : Parameters = record { capacity = 1; labels = 4 } in
        (next p 0 ≡ 1) × (next p 3 ≡ 0) × (next p 65535 ≡ 0) }
    // A list without the entry at place 1, and without one past its end.
    ensures without_one { without {X = ℕ} 1 (5 ∷ 6 ∷ 7 ∷ []) ≡ 5 ∷ 7 ∷ [] }
    ensures without_none { without {X = ℕ} 3 (5 ∷ []) ≡ 5 ∷ [] }
    // A list whose first entry went to the back.
    ensures turned_once { turned {X = ℕ} 1 (5 ∷ 6 ∷ 7 ∷ []) ≡ 6 ∷ 7 ∷ 5 ∷ [] }
{}
