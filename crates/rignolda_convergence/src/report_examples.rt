//! An example of all premises of the law of reports, worked out: a law with an empty body.

ghost use Rattle.std.specs.Prelude.{◌≡◌, ◌≤◌, [], ◌∷◌, ◌++◌, length};
ghost use Rattle.stab_rounds.specs.Kinds.{reading};
ghost use Rattle.stab_treecore.specs.Changes.{changes_replay};
ghost use Rattle.stab_treecore.specs.Since.{gained, moment};
ghost use Rattle.stab_convergence.specs.Meanwhile.{IsEnough};
ghost use Rattle.rignolda_convergence.specs.AgentTrees.{FaultsEnd, agents_replay};
ghost use Rattle.rignolda_convergence.specs.Reported.{AreAllNearSince, HasATableAbove};
ghost use Rattle.rignolda_convergence.specs.Reported.{there_since};
ghost use Rattle.rignolda_convergence.specs.ReportExample.{body_of, five_rounds, old_agent};
ghost use Rattle.rignolda_convergence.specs.ReportExample.{root_and_agent, root_publishes, says};
ghost use Rattle.rignolda_convergence.specs.ReportExample.{stray_comes, two_nodes};

/// A root and an agent meet every premise of the law of reports, though the agent begins with a
/// stray whose number is ahead of the root's.
pub fn worked_out()
    ensures faults { FaultsEnd reading 1 two_nodes root_and_agent.tree
        (stray_comes ++ root_publishes) five_rounds [] 1 }
    ensures others { let s = root_and_agent.tree in
        let reporting = agents_replay says root_and_agent stray_comes in
        let m = changes_replay s (stray_comes ++ root_publishes) in
        AreAllNearSince says 1 s m 1 old_agent
        × (there_since (moment s) 1 ≤ length (gained s reporting.tree 1))
        × ((reporting.agents 1).taker.number ≡ 12)
        × HasATableAbove says 1 s m 1 (reporting.agents 1).taker
        (body_of 13 ∷ body_of 14 ∷ body_of 15 ∷ body_of 16 ∷ [])
        × IsEnough s m 1 }
{}
