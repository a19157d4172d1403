//! Examples of the definitions, worked out: a law with an empty body.

ghost use Rattle.std.specs.Prelude.{◌≡◌, [], ◌∷◌};
ghost use Rattle.stab_treecore.specs.Changes.{changes_replay};
ghost use Rattle.stab_treecore.specs.Example.{a_strike, chain, after_a_restart, after_the_strike};
ghost use Rattle.stab_treecore.specs.Example.{before_the_restart};
ghost use Rattle.stab_treecore.specs.Moment.{old_backlog, published_above};
ghost use Rattle.stab_treecore.specs.Since.{backlog, gained, moment, queued_at};
ghost use Rattle.stab_treecore.specs.WholeTree.{received};

/// The chain r, a, b of links of capacity 1, where r publishes 7 and 8.
pub fn worked_out()
    // When the link into b is struck, r still has 8 for a, and a has 7 for b: its backlog, which
    // may count as a stray. The strike leaves both. Since then b received the stray 99 of the
    // strike, and then 8, which is published since in its count; 7 is missing, and was acknowledged
    // by the strike.
    ensures a_struck_link { let s = changes_replay chain a_strike in
        let t = changes_replay s after_the_strike in
        (backlog s 1 ≡ 8 ∷ []) × (backlog s 2 ≡ 7 ∷ [])
        × (old_backlog (moment s) 1 ≡ []) × (old_backlog (moment s) 2 ≡ 7 ∷ [])
        × (queued_at s 2 ≡ 99 ∷ [])
        × (gained s t 1 ≡ 8 ∷ []) × (gained s t 2 ≡ 99 ∷ 8 ∷ [])
        × (published_above (moment s) (gained s t) 2 2 ≡ 8 ∷ []) }
    // When a restarts with the list 50 it has 50 for b, whose list stays; r, which holds 8 for a,
    // keeps its list and its sender. Then b is offered 50, and a receives 8 after its new list.
    ensures a_restart { let s = changes_replay chain before_the_restart in
        let t = changes_replay s after_a_restart in
        (received s 0 ≡ 7 ∷ 8 ∷ []) × (received s 1 ≡ 50 ∷ []) × (received s 2 ≡ 7 ∷ [])
        × (backlog s 1 ≡ 8 ∷ []) × (backlog s 2 ≡ 50 ∷ [])
        × (received t 1 ≡ 50 ∷ 8 ∷ []) × (received t 2 ≡ 7 ∷ 50 ∷ []) }
{}
