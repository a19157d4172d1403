//! Examples of the definitions, worked out: a law with an empty body.

ghost use Rattle.std.specs.Prelude.{◌≡◌, ℕ, ◌==◌, if◌then◌else◌, List, [], ◌∷◌, Option};
ghost use Rattle.std.specs.Prelude.{Some, None, false};
ghost use Rattle.stab_treecore.specs.Changes.{changes_replay};
ghost use Rattle.stab_treecore.specs.Example.{a_strike, after_the_strike, chain};
ghost use Rattle.rignolda_agent.specs.declared.body.Kind.TheVariants.{Table};
ghost use Rattle.rignolda_agent.specs.BodySpelling.{Body, Setting};
ghost use Rattle.rignolda_agent.specs.Agents.{Agent, none_set};
ghost use Rattle.rignolda_agent.specs.Items.{Reading};
ghost use Rattle.rignolda_convergence.specs.AgentTrees.{AgentTree, SaysNear, agents_replay};

/// The chain r, a, b of links of capacity 1, where r publishes 7 and 8. Each is read as a table
/// with that number, in which key 1 has it as its value; 99 is read as nothing.
pub fn worked_out()
    // Since the strike at the link into b its list gained 99 and 8, and that of a gained 8. So the
    // agents of both, whose files had nothing, have the 8, and that of r has nothing.
    ensures heard { let says : ℕ → List Setting =
        (λ value. record { key = 1 ∷ []; value = Some (value ∷ []) } ∷ []) in
        let reading : Reading = (λ item. if item == 99 then None
        else Some (record { kind = Table; number = item; settings = says item })) in
        let agent : Agent = record {
          taker = record { number = 0; floor = 0; whole = false; in_a_round = false };
          waiting = [];
          files = none_set;
        } in
        let start : AgentTree =
        record { tree = changes_replay chain a_strike; agents = λ node. agent } in
        let end = agents_replay reading start after_the_strike in
        ((end.agents 1).files (1 ∷ []) ≡ Some (8 ∷ []))
        × ((end.agents 2).files (1 ∷ []) ≡ Some (8 ∷ []))
        × ((end.agents 0).files (1 ∷ []) ≡ None) }
{}
