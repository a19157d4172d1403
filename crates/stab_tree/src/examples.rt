//! Examples of the definitions, worked out: a law with an empty body.

ghost use Rattle.std.specs.Prelude.{◌≡◌, ℕ, List, Option, [], ◌∷◌, Some, None, true, false, codes};
ghost use Rattle.stab_tree.specs.Entry.{Entry};
ghost use Rattle.stab_tree.specs.Links.{links_of};
ghost use Rattle.stab_tree.specs.Name.{is_name, has_same_name};
ghost use Rattle.stab_tree.specs.Parents.{parents_of, have_depths};
ghost use Rattle.stab_tree.specs.Steps.{ancestor, depth_at};

/// The definitions of this crate on small values.
pub fn worked_out()
    // A capital letter and a space are in no name.
    ensures names { (is_name (codes "a-b_2") ≡ true) × (is_name (codes "A b") ≡ false) }
    ensures same_name { has_same_name (codes "r" ∷ codes "a" ∷ codes "r" ∷ []) ≡ true }
    // The list of r, of a with the parent r and of b with the parent a.
    ensures parents { let entries : List Entry =
        record { name = codes "r"; parent = None }
        ∷ record { name = codes "a"; parent = Some (codes "r") }
        ∷ record { name = codes "b"; parent = Some (codes "a") } ∷ [] in
        parents_of (codes "r" ∷ codes "a" ∷ codes "b" ∷ []) entries
        ≡ Some (None ∷ Some 0 ∷ Some 1 ∷ []) }
    // From its last node one step leads to place 1 and two to the root, so its depth is 2.
    ensures depth { let parents : List (Option ℕ) = None ∷ Some 0 ∷ Some 1 ∷ [] in
        (ancestor parents 1 2 ≡ Some 1) × (ancestor parents 2 2 ≡ Some 0)
        × (depth_at parents 2 ≡ Some 2) }
    // Node 1 leads to 2 and node 2 to 1, so neither has a depth.
    ensures cycle { have_depths (None ∷ Some 2 ∷ Some 1 ∷ []) ≡ false }
    // The links are those into the nodes with a parent, wherever the root is.
    ensures links { (links_of (None ∷ Some 0 ∷ Some 1 ∷ []) ≡ 1 ∷ 2 ∷ [])
        × (links_of (Some 1 ∷ None ∷ Some 1 ∷ []) ≡ 0 ∷ 2 ∷ []) }
{}
