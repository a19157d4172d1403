//! Examples of the definitions, worked out: a law with an empty body.

ghost use Rattle.std.specs.Prelude.{◌≡◌, ◌++◌, ℕ, [], ◌∷◌, map};
ghost use Rattle.stab_page.specs.Codes.{event_of, start_of};
ghost use Rattle.stab_page.specs.Report.{answer};
ghost use Rattle.stab_page.specs.TreeCodes.{openings_of, parent_of, tree_event_of};
ghost use Rattle.stab_page.specs.TreeReport.{tree_answer};
ghost use Rattle.stab_page.specs.declared.code.EventCode.{EventCode};
ghost use Rattle.stab_page.specs.declared.code.FrameCode.{FrameCode};
ghost use Rattle.stab_page.specs.declared.tree_code.LinkCode.{LinkCode};
ghost use Rattle.stab_page.specs.declared.tree_code.OpeningCode.{OpeningCode};
ghost use Rattle.stab_page.specs.declared.tree_code.TreeEventCode.{TreeEventCode};

/// What a page is told of small runs, number by number.
pub fn worked_out()
    // The worst start of capacity 1 has a stray with label 2, an acknowledgement 0, and a receiver
    // that remembers 1. Its events offer 10 to 13.
    ensures worst_start { let at : ℕ → ℕ → EventCode = (λ kind value. record {
      kind = kind;
      value = value;
    }) in
        let stray : FrameCode = record { label = 2; item = 99 } in
        answer 1 4 (start_of (stray ∷ []) (0 ∷ []) 0 1)
        (map event_of (at 0 10 ∷ at 5 0 ∷ at 4 0 ∷ at 0 11 ∷ at 5 0 ∷ at 2 0 ∷ at 4 0 ∷ at 0 12
        ∷ at 5 0 ∷ at 0 13 ∷ at 1 0 ∷ at 2 0 ∷ [])) 32768
        ≡ 3 ∷ 3 ∷ 3 ∷ 0 ∷ 1 ∷ 3 ∷ 0 ∷ 0 ∷ 0 ∷ 4 ∷ 2 ∷ 2 ∷ 12 ∷ 10 ∷ 11 ∷ 12 ∷ 13 ∷ 99 ∷ 13 ∷ 0 ∷ 0
        ∷ 1 ∷ 3 ∷ 1 ∷ 5 ∷ 2 ∷ 1 ∷ 5 ∷ 3 ∷ 2 ∷ 1 ∷ 5 ∷ 1 ∷ 2 ∷ 3 ∷ [] }
    // A stray is on the link from the root into the only other node; then comes one published item,
    // with its acknowledgement. First are the numbers of the root, then those of the link: labels,
    // counts, lengths; what was offered, delivered, and where it comes from; and then those of the
    // other node.
    ensures stray_in_a_tree { let at : ℕ → TreeEventCode = (λ kind. record {
      child = 1;
      place = 0;
      kind = kind;
    }) in
        let stray : FrameCode = record { label = 2; item = 99 } in
        let link : LinkCode = record {
          capacity = 1;
          labels = 4;
          send_label = 0;
          recv_label = 1;
          frame_count = 1;
          ack_count = 0;
          acks = [];
          frames = stray ∷ [];
        } in
        tree_answer (map parent_of (65535 ∷ 0 ∷ [])) (openings_of 0 []) (link ∷ []) (7 ∷ [])
        (map tree_event_of (at 2 ∷ at 0 ∷ at 1 ∷ at 2 ∷ at 4 ∷ at 5 ∷ [])) 32768
        ≡ (1 ∷ 1 ∷ 0 ∷ 0 ∷ 0 ∷ 0 ∷ 0 ∷ 0 ∷ 0 ∷ [])
        ++ (1 ∷ 0 ∷ 1 ∷ 0 ∷ 1 ∷ 0 ∷ 0 ∷ 0 ∷ 0 ∷ 1 ∷ 2 ∷ 2 ∷ 0 ∷ 7 ∷ 99 ∷ 7 ∷ 0 ∷ 0 ∷ 1 ∷ 0 ∷ [])
        ++ (2 ∷ 0 ∷ 0 ∷ 1 ∷ 0 ∷ 1 ∷ 1 ∷ 0 ∷ 0 ∷ 0 ∷ 3 ∷ 6 ∷ 3 ∷ 1 ∷ 2 ∷ 3 ∷ 2 ∷ 5 ∷ []) }
    // In the chain of the root 0, node 1 that begins with 50 and 51, and node 2, over clean links, a
    // round brings 50 to node 2, and then its link is offered 51. The numbers of node 1 say of its
    // opening that there are two of at most three; those of node 2 have one stray of an opening.
    ensures opening_in_a_tree { let at : ℕ → TreeEventCode = (λ kind. record {
      child = 2;
      place = 0;
      kind = kind;
    }) in
        let link : LinkCode = record {
          capacity = 1;
          labels = 4;
          send_label = 0;
          recv_label = 3;
          frame_count = 0;
          ack_count = 0;
          acks = [];
          frames = [];
        } in
        let none : OpeningCode = record { count = 0; items = [] } in
        let held : OpeningCode = record { count = 2; items = 50 ∷ 51 ∷ 0 ∷ [] } in
        tree_answer (map parent_of (65535 ∷ 0 ∷ 1 ∷ [])) (openings_of 3 (none ∷ held ∷ none ∷ []))
        (link ∷ link ∷ []) (7 ∷ [])
        (map tree_event_of (at 0 ∷ at 1 ∷ at 2 ∷ at 4 ∷ at 5 ∷ at 0 ∷ [])) 32768
        ≡ (1 ∷ 1 ∷ 0 ∷ 0 ∷ 0 ∷ 0 ∷ 0 ∷ 0 ∷ 0 ∷ [])
        ++ (0 ∷ 3 ∷ 0 ∷ 0 ∷ 0 ∷ 0 ∷ 0 ∷ 0 ∷ 0 ∷ 0 ∷ 0 ∷ 0 ∷ 0 ∷ [])
        ++ (2 ∷ 0 ∷ 128 ∷ 0 ∷ 129 ∷ 0 ∷ 1 ∷ 2 ∷ 3 ∷ 0 ∷ 3 ∷ [])
        ++ (1 ∷ 0 ∷ 1 ∷ 0 ∷ 0 ∷ 0 ∷ 0 ∷ 0 ∷ 0 ∷ 2 ∷ 1 ∷ 1 ∷ 0 ∷ 50 ∷ 51 ∷ 50 ∷ 1 ∷ 0 ∷ [])
        ++ (1 ∷ 0 ∷ 128 ∷ 0 ∷ 2 ∷ 1 ∷ 3 ∷ 0 ∷ 6 ∷ 6 ∷ 1 ∷ 2 ∷ 3 ∷ 2 ∷ 5 ∷ 1 ∷ []) }
{}
