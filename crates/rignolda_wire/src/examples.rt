//! Examples of the definitions, worked out: a law with an empty body. The bytes are those that
//! `tests/daemon/protocol.py` makes of the same messages by Python's `struct`.

ghost use Rattle.std.specs.Prelude.{◌≡◌, ◌++◌, List, [], ◌∷◌, Ok, Err, Some, None, false, true};
ghost use Rattle.rignolda_wire.specs.declared.fault.Fault.TheVariants.{LongBody, LongReport};
ghost use Rattle.rignolda_wire.specs.declared.fault.Fault.TheVariants.{LongSignature, LongWay};
ghost use Rattle.rignolda_wire.specs.declared.fault.Fault.TheVariants.{More};
ghost use Rattle.rignolda_wire.specs.declared.fault.Fault.TheVariants.{NoHello, NoMessage, NoName};
ghost use Rattle.rignolda_wire.specs.declared.fault.Fault.TheVariants.{NoNameOfWay};
ghost use Rattle.rignolda_wire.specs.declared.fault.Fault.TheVariants.{NoVersion};
ghost use Rattle.rignolda_wire.specs.declared.refusal.Refusal.TheVariants.{Full, NotSaid};
ghost use Rattle.rignolda_wire.specs.declared.said.Expect.TheVariants.{Acks, Frames, Hello};
ghost use Rattle.rignolda_wire.specs.declared.said.Expect.TheVariants.{NumberedWay, SignedFrames};
ghost use Rattle.rignolda_wire.specs.declared.said.Expect.TheVariants.{Way};
ghost use Rattle.rignolda_wire.specs.Reading.{message_at};
ghost use Rattle.rignolda_wire.specs.Refusals.{refused, told};
ghost use Rattle.rignolda_wire.specs.Said.{Greeted, Referred, Routed, Said, ack, asks, filler};
ghost use Rattle.rignolda_wire.specs.Said.{frame, goodbye, hello, lacks, numbered, refers};
ghost use Rattle.rignolda_wire.specs.Said.{refers_signed, report, signed, spelling, way};
ghost use Rattle.rignolda_wire.specs.Versions.{versions_of};

/// What messages say, and each byte of them.
pub fn spelled_out()
    // The agent `a`, of version 1, life 258 and label 7, comes to `hub`; it looks at an end whose
    // name it was not told, and speaks versions 1 to 4.
    ensures hellos { let g : Greeted = record {
      version = 1;
      life = 258;
      label = 7;
      from = 97 ∷ [];
      to = 104 ∷ 117 ∷ 98 ∷ [];
    } in
        let looks : Greeted = record {
          version = 2;
          life = 0;
          label = 260;
          from = 97 ∷ [];
          to = [];
        } in
        let text = 82 ∷ 71 ∷ 78 ∷ 68 ∷ 1 ∷ 0 ∷ 0 ∷ 0 ∷ 0 ∷ 0 ∷ 0 ∷ 1 ∷ 2 ∷ 0 ∷ 7
        ∷ 1 ∷ 97 ∷ 3 ∷ 104 ∷ 117 ∷ 98 ∷ [] in
        let look = 82 ∷ 71 ∷ 78 ∷ 76 ∷ 2 ∷ 0 ∷ 0 ∷ 0 ∷ 0 ∷ 0 ∷ 0 ∷ 0 ∷ 0 ∷ 1 ∷ 4
        ∷ 1 ∷ 97 ∷ 0 ∷ [] in
        (spelling (hello false g) ≡ text) × (message_at Hello text ≡ Ok (hello false g, []))
        × (spelling (hello true looks) ≡ look)
        × (message_at Hello look ≡ Ok (hello true looks, []))
        × (versions_of looks ≡ (1, 4)) × (versions_of g ≡ (1, 1)) }
    // A parent says the way `hub`, `r` at cost 2, and a frame of label 3 and item 7 with the body
    // `b`; then it asks for a whole report.
    ensures parents { let w : Said = way (record {
      cost = 2;
      names = 104 ∷ 117 ∷ 98 ∷ 10 ∷ 114 ∷ [];
    }) in
        let f : Said = frame (record { label = 3; item = 7; body = 98 ∷ [] }) in
        let way_text = 87 ∷ 0 ∷ 2 ∷ 0 ∷ 5 ∷ 104 ∷ 117 ∷ 98 ∷ 10 ∷ 114 ∷ [] in
        let frame_text = 70 ∷ 0 ∷ 3 ∷ 0 ∷ 0 ∷ 0 ∷ 7 ∷ 0 ∷ 0 ∷ 0 ∷ 1 ∷ 98 ∷ [] in
        (spelling w ≡ way_text) × (message_at Way way_text ≡ Ok (w, []))
        × (message_at Frames way_text ≡ Ok (w, []))
        × (spelling f ≡ frame_text) × (message_at Frames frame_text ≡ Ok (f, []))
        × (message_at Frames (81 ∷ 70 ∷ []) ≡ Ok (asks, 70 ∷ [])) }
    // From version 5 on it says the same way with the number 9 of its last whole table, that frame
    // with the signature `us`, and a filler of label 9.
    ensures signed { let n : Said = numbered (record {
      number = 9;
      route = record { cost = 2; names = 104 ∷ 117 ∷ 98 ∷ 10 ∷ 114 ∷ [] };
    }) in
        let f : Said = signed (record {
          label = 3;
          item = 7;
          signature = 117 ∷ 115 ∷ [];
          body = 98 ∷ [];
        }) in
        let way_text = 86 ∷ 0 ∷ 0 ∷ 0 ∷ 0 ∷ 0 ∷ 0 ∷ 0 ∷ 9
        ∷ 0 ∷ 2 ∷ 0 ∷ 5 ∷ 104 ∷ 117 ∷ 98 ∷ 10 ∷ 114 ∷ [] in
        let frame_text = 83 ∷ 0 ∷ 3 ∷ 0 ∷ 0 ∷ 0 ∷ 7 ∷ 0 ∷ 2 ∷ 117 ∷ 115
        ∷ 0 ∷ 0 ∷ 0 ∷ 1 ∷ 98 ∷ [] in
        (spelling n ≡ way_text) × (message_at NumberedWay way_text ≡ Ok (n, []))
        × (message_at SignedFrames way_text ≡ Ok (n, []))
        × (spelling f ≡ frame_text) × (message_at SignedFrames frame_text ≡ Ok (f, []))
        × (message_at SignedFrames (69 ∷ 0 ∷ 9 ∷ 81 ∷ []) ≡ Ok (filler 9, 81 ∷ [])) }
    // A reference has its signature behind the digest.
    ensures signed_references { let r : Referred = record {
      label = 3;
      item = 7;
      len = 5;
      head = 84 ∷ [];
      digest = 1 ∷ 2 ∷ [];
    } in
        spelling (refers_signed (record { reference = r; signature = 117 ∷ 115 ∷ [] }))
        ≡ 66 ∷ 0 ∷ 3 ∷ 0 ∷ 0 ∷ 0 ∷ 7 ∷ 0 ∷ 0 ∷ 0 ∷ 5 ∷ 84 ∷ 1 ∷ 2 ∷ 0 ∷ 2 ∷ 117 ∷ 115 ∷ [] }
    // A child acknowledges label 258, lacks the body of label 9, reports two bytes, and says
    // goodbye.
    ensures children { (spelling (ack 258) ≡ 65 ∷ 1 ∷ 2 ∷ [])
        × (spelling (lacks 9) ≡ 78 ∷ 0 ∷ 9 ∷ [])
        × (spelling (report (91 ∷ 93 ∷ [])) ≡ 82 ∷ 0 ∷ 0 ∷ 0 ∷ 2 ∷ 91 ∷ 93 ∷ [])
        × (message_at Acks (71 ∷ 65 ∷ []) ≡ Ok (goodbye, 65 ∷ [])) }
    // There is no room for another child.
    ensures refusals { (told Hello Full ≡ 82 ∷ 71 ∷ 78 ∷ 76 ∷ 2 ∷ 255 ∷ 6 ∷ [])
        × (told Frames Full ≡ 87 ∷ 255 ∷ 6 ∷ [])
        × (told SignedFrames Full ≡ 86 ∷ 255 ∷ 6 ∷ [])
        × (refused Hello (82 ∷ 71 ∷ 78 ∷ 76 ∷ 2 ∷ 255 ∷ 99 ∷ []) ≡ Some NotSaid)
        × (refused Frames (87 ∷ []) ≡ None) }
{}

/// Of which bytes more has to come, and which fault others have.
pub fn faults_worked_out()
    // Another protocol, a hello of version 0, and a look of version 1, of which looks are unknown.
    ensures hellos { (message_at Hello (71 ∷ 69 ∷ 84 ∷ 32 ∷ []) ≡ Err NoHello)
        × (message_at Hello (82 ∷ 71 ∷ 78 ∷ []) ≡ Err More)
        × (message_at Hello (82 ∷ 71 ∷ 78 ∷ 68 ∷ 0 ∷ []) ≡ Err NoVersion)
        × (message_at Hello (82 ∷ 71 ∷ 78 ∷ 76 ∷ 1 ∷ []) ≡ Err NoVersion)
        × (message_at Hello (82 ∷ 71 ∷ 78 ∷ 68 ∷ 255 ∷ []) ≡ Err More) }
    // A name of 64 bytes may come, and one of 65 is refused at its length.
    ensures names { let front = 82 ∷ 71 ∷ 78 ∷ 68 ∷ 1
        ∷ 0 ∷ 0 ∷ 0 ∷ 0 ∷ 0 ∷ 0 ∷ 0 ∷ 0 ∷ 0 ∷ 0 ∷ [] in
        (message_at Hello (front ++ (64 ∷ [])) ≡ Err More)
        × (message_at Hello (front ++ (65 ∷ [])) ≡ Err NoName)
        × (message_at Hello (front ++ (0 ∷ [])) ≡ Err NoName)
        × (message_at Hello (front ++ (1 ∷ 45 ∷ [])) ≡ Err NoName)
        × (message_at Hello (front ++ (1 ∷ 97 ∷ 65 ∷ [])) ≡ Err NoName) }
    // What is too long is refused before it comes.
    ensures lengths { let item = 0 ∷ 0 ∷ 0 ∷ 0 ∷ 0 ∷ 0 ∷ [] in
        (message_at Frames (70 ∷ (item ++ (1 ∷ 0 ∷ 0 ∷ 1 ∷ []))) ≡ Err LongBody)
        × (message_at Frames (70 ∷ (item ++ (1 ∷ 0 ∷ 0 ∷ 0 ∷ []))) ≡ Err More)
        × (message_at Frames (68 ∷ (item ++ (1 ∷ 0 ∷ 0 ∷ 1 ∷ []))) ≡ Err LongBody)
        × (message_at Way (87 ∷ 0 ∷ 1 ∷ 32 ∷ 129 ∷ []) ≡ Err LongWay)
        × (message_at Way (87 ∷ 0 ∷ 1 ∷ 32 ∷ 128 ∷ []) ≡ Err More)
        × (message_at Way (87 ∷ 0 ∷ 1 ∷ 0 ∷ 0 ∷ []) ≡ Err NoNameOfWay)
        × (message_at Way (87 ∷ 0 ∷ 1 ∷ 0 ∷ 3 ∷ 97 ∷ 10 ∷ 10 ∷ []) ≡ Err NoNameOfWay)
        × (message_at SignedFrames (83 ∷ (item ++ (4 ∷ 1 ∷ []))) ≡ Err LongSignature)
        × (message_at SignedFrames (83 ∷ (item ++ (4 ∷ 0 ∷ []))) ≡ Err More)
        × (message_at Acks (82 ∷ 0 ∷ 16 ∷ 0 ∷ 1 ∷ []) ≡ Err LongReport)
        × (message_at Acks (82 ∷ 0 ∷ 16 ∷ 0 ∷ 0 ∷ []) ≡ Err More) }
    // A candidate says no frame, a child no way, and a parent acknowledges nothing. What is of
    // version 5 does not come before, and what that replaces does not come after.
    ensures others { (message_at Way (70 ∷ []) ≡ Err NoMessage)
        × (message_at Frames (86 ∷ []) ≡ Err NoMessage)
        × (message_at SignedFrames (70 ∷ []) ≡ Err NoMessage)
        × (message_at SignedFrames (87 ∷ []) ≡ Err NoMessage)
        × (message_at Acks (87 ∷ []) ≡ Err NoMessage)
        × (message_at Acks (81 ∷ []) ≡ Err NoMessage)
        × (message_at Frames (65 ∷ []) ≡ Err NoMessage) }
{}
