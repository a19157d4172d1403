//! Examples of the definitions, worked out: a law with an empty body.

ghost use Rattle.std.specs.Prelude.{◌≡◌, ℕ, true, false, [], ◌∷◌, Some, None};
ghost use Rattle.rignolda_agent.specs.Merging.{Settings};
ghost use Rattle.rignolda_agent.specs.Merging as merging;
ghost use Rattle.rignolda_agent.specs.Publishers.{Publisher, entries, gone_above, is_table_due};
ghost use Rattle.rignolda_agent.specs.Runs.{Call, Root, numbers, until_over};
ghost use Rattle.rignolda_agent.specs.Waiting.{merged};
ghost use Rattle.rignolda_agent.specs.declared.publisher.Next.TheVariants.{Changes, Harmless};
ghost use Rattle.rignolda_agent.specs.declared.publisher.Next.TheVariants.{Whole};
ghost use Rattle.stab_settings.specs.Tables.{empty_table, set_key};

/// The definitions of this crate on small values.
pub fn worked_out()
    // Number 9 was the last. A round with two harmless bodies is under way while a change waits,
    // and another change comes whenever one is published.
    ensures round { let root : Root = record {
      publisher = record {
        number = 9;
        items = 0;
        bytes = 0;
        table_bytes = 50;
        left = 3;
        rounds_turn = false;
        table_first = false;
        held = false;
      };
      changes = 0;
    } in
        let call : Call = record { more = 1; asked = None; held = false; limit = 100; bytes = 9 } in
        let calls = call ∷ call ∷ call ∷ call ∷ call ∷ call ∷ [] in
        (until_over root calls
        ≡ Changes ∷ Harmless ∷ Changes ∷ Harmless ∷ Changes ∷ Whole ∷ [])
        × (numbers root calls ≡ 10 ∷ 11 ∷ 12 ∷ 13 ∷ 14 ∷ 15 ∷ []) }
    // After a limit of two a table comes in between, which takes all that waits.
    ensures limit { let root : Root = record {
      publisher = record {
        number = 9;
        items = 2;
        bytes = 0;
        table_bytes = 50;
        left = 2;
        rounds_turn = false;
        table_first = false;
        held = false;
      };
      changes = 5000;
    } in
        let call : Call = record { more = 1; asked = None; held = false; limit = 2; bytes = 9 } in
        until_over root (call ∷ call ∷ call ∷ call ∷ call ∷ [])
        ≡ Whole ∷ Changes ∷ Harmless ∷ Whole ∷ [] }
    // 64 bodies, or 1,048,577 bytes, make a table due that was shorter.
    ensures bytes { let publisher : Publisher = record {
      number = 9;
      items = 1;
      bytes = 1048577;
      table_bytes = 1048576;
      left = 0;
      rounds_turn = false;
      table_first = false;
      held = false;
    } in
        (is_table_due publisher 100 ≡ true)
        × (is_table_due (record publisher { table_bytes = 1048577 }) 100 ≡ false)
        × (is_table_due (record publisher { bytes = 1048576; table_bytes = 50 }) 100 ≡ false)
        × (is_table_due (record publisher { items = 63; bytes = 9; table_bytes = 8 }) 100 ≡ false)
        × (is_table_due (record publisher { items = 64; bytes = 9; table_bytes = 8 }) 100 ≡ true) }
    // Number 9 was the last. An agent has 12, 9 or 7; only the first one is ahead. Another has one
    // that is ahead by half of all numbers but one: that is above it the second time.
    ensures above { let publisher : Publisher = record {
      number = 9;
      items = 1;
      bytes = 20;
      table_bytes = 50;
      left = 3;
      rounds_turn = true;
      table_first = false;
      held = false;
    } in
        let ahead : ℕ = 9223372036854775816 in
        let quarter_on : ℕ = 4611686018427387913 in
        let nearer : Publisher = record publisher { number = quarter_on; table_first = true } in
        (gone_above publisher 12 ≡ record publisher { number = 12; table_first = true })
        × (gone_above publisher 9 ≡ publisher) × (gone_above publisher 7 ≡ publisher)
        × (gone_above publisher ahead ≡ nearer)
        × (gone_above nearer ahead ≡ record nearer { number = ahead }) }
    // 5,000 changes wait, and there are 6,000 settings.
    ensures entries { (entries Whole 5000 6000 ≡ 6000) × (entries Changes 5000 6000 ≡ 4096)
        × (entries Changes 3 6000 ≡ 3) × (entries Harmless 5000 6000 ≡ 0) }
    // Key 1 is set to 5, then to 6, and key 2 to 7. One body tells 6 and 7.
    ensures merged { let one = set_key empty_table (record { key = 1; value = Some 5 }) in
        let two = set_key one (record { key = 1; value = Some 6 }) in
        let root : Settings = record {
          table = set_key two (record { key = 2; value = Some 7 });
          waiting = 1 ∷ 2 ∷ [];
        } in
        let told = merging.told root (λ key. Some 9) Changes in
        (told 1 ≡ Some 6) × (told 2 ≡ Some 7) × (told 3 ≡ Some 9) }
    // A change with number 8 takes the place of one with number 7.
    ensures waits { merged (Some (record { value = Some 5; first = 7; last = 7 }))
        (record { value = Some 9; first = 8; last = 8 })
        ≡ record { value = Some 9; first = 7; last = 8 } }
{}
