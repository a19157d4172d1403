//! Examples of the definitions, worked out: a law with an empty body.

ghost use Rattle.std.specs.Prelude.{◌≡◌, ℕ, List, [], ◌∷◌, Some, None};
ghost use Rattle.stab_settings.specs.Refreshes.{IsRefresh, reached};
ghost use Rattle.stab_settings.specs.Tables.{Reading, Setting, apply_items, empty_table};

/// The definitions of this crate on small values.
pub fn worked_out()
    // Each item sets key 1 to itself and removes key 2. After the items 5 and 7 key 1 has 7 and key
    // 2 nothing, and the others have what they had.
    ensures applied { let reading : Reading = (λ item.
        record { key = 1; value = Some item } ∷ record { key = 2; value = None } ∷ []) in
        let table = apply_items reading (λ key. Some 9) (5 ∷ 7 ∷ []) in
        (table 1 ≡ Some 7) × (table 2 ≡ None) × (table 3 ≡ Some 9) }
    // An item that is read as no setting is harmless.
    ensures harmless { apply_items (λ item. []) empty_table (5 ∷ 7 ∷ []) 5 ≡ None }
    // Where each item sets the key that it is, the items from place 3 up to 5 of 1, 2, 0, 2, 1 are
    // a refresh of the keys 1 and 2, and those from 3 up to 4 are none.
    ensures refresh { let reading : Reading = (λ item.
        record { key = item; value = Some 9 } ∷ []) in
        IsRefresh reading (1 ∷ 2 ∷ []) (1 ∷ 2 ∷ 0 ∷ 2 ∷ 1 ∷ []) 3 5 }
    ensures no_refresh { let reading : Reading = (λ item.
        record { key = item; value = Some 9 } ∷ []) in
        ¬ IsRefresh reading (1 ∷ 2 ∷ []) (1 ∷ 2 ∷ 0 ∷ 2 ∷ 1 ∷ []) 3 4 }
    // A node that received the items at the places 3, 5 and 6 has come to 7.
    ensures come { (reached (3 ∷ 5 ∷ 6 ∷ []) ≡ 7) × (reached [] ≡ 0) }
{}
