ghost use Rattle.std.specs.Prelude.{◌≡◌, ◌≤◌, All, length, map};
ghost use Rattle.stab_page.specs.TracedTree.{HasAtMost, traced_tree_replay, tree_effects};
ghost use Rattle.stab_page.specs.TreeCodes.{tree_event_of};

use crate::entry::EffectEntry;
use crate::tree::{MAX_STEPS, PageTree};
use crate::tree_code::TreeEventCode;
use arrayvec::ArrayVec;

/// Replays a schedule on a tree at its start, and answers the effects.
pub fn run_tree(
    tree: &mut PageTree<'_>,
    events: &[TreeEventCode],
) -> ArrayVec<EffectEntry, MAX_STEPS>
    requires few { length events.now ≤ MAX_STEPS }
    requires nothing_done { All (HasAtMost 0) tree.old.links }
    ensures tree { tree.new ≡ traced_tree_replay tree.old (map tree_event_of events.now) }
    ensures effects { result.items ≡ tree_effects tree.old (map tree_event_of events.now) }
    ensures published { tree.new.published ≡ tree.old.published }
    ensures few { All (HasAtMost MAX_STEPS) tree.new.links }
{
    let mut had = ArrayVec::new();
    for code in events {
        let effect = tree.apply(code.event());
        had.push(EffectEntry { effect });
    }
    had
}
