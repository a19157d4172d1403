//! The report of a tree, as numbers.

ghost use Rattle.std.specs.Prelude.{◌≡◌, ◌+◌, ◌*◌, ◌≤◌, ◌++◌, All, length};
ghost use Rattle.stab_page.specs.TracedTree.{HasAtMost};
ghost use Rattle.stab_page.specs.TreeReport.{link_numbers, list_numbers, node_numbers};
ghost use Rattle.stab_page.specs.TreeReport.{numbers_to, standing_numbers, tree_report};
ghost use Rattle.stab_page.specs.TreeStanding.{node_origins};

use crate::entry::{EffectEntry, OriginEntry};
use crate::numbers::{self, Numbers};
use crate::tree::{MAX_NODES, MAX_STEPS, PageTree};
use crate::tree_standing::{passed_over, strays_of};
use stab_tree::NodeId;

/// The report of a tree and of the effects so far.
pub fn tree_report(tree: &PageTree<'_>, had: &[EffectEntry]) -> Numbers
    requires published { length tree.now.published ≤ MAX_STEPS }
    requires few { All (HasAtMost MAX_STEPS) tree.now.links }
    requires effects { length had.now ≤ MAX_STEPS }
    ensures { result.items ≡ tree_report tree.now had.now }
{
    let mut out = Numbers::new();
    'nodes: for node in 0..tree.len() {
        push_node(&mut out, tree, NodeId::new(node as u16));
    }
    out.push(had.len() as u64);
    numbers::push_effects(&mut out, had);
    out
}

/// Adds the numbers of a node.
fn push_node(out: &mut Numbers, tree: &PageTree<'_>, node: NodeId)
    requires published { length tree.now.published ≤ MAX_STEPS }
    requires few { All (HasAtMost MAX_STEPS) tree.now.links }
    requires room { length out.old.items + 2000 ≤ 32768 }
    ensures numbers { out.new.items ≡ out.old.items ++ node_numbers tree.now node }
    ensures len { length out.new.items ≤ length out.old.items + 2000 }
{
    let origins = tree.node_origins(node);
    push_link(out, tree, node);
    push_origins(out, origins.as_slice());
    push_standing(out, tree, node, origins.as_slice());
}

/// Adds the report of the link into a node, where there is one.
fn push_link(out: &mut Numbers, tree: &PageTree<'_>, node: NodeId)
    requires few { All (HasAtMost MAX_STEPS) tree.now.links }
    requires room { length out.old.items + 1357 ≤ 32768 }
    ensures numbers { out.new.items ≡ out.old.items ++ link_numbers tree.now node }
    ensures len { length out.new.items ≤ length out.old.items + 1357 }
{
    if let Some(link) = tree.link(node) {
        numbers::push_report(out, link, &[]);
    }
}

/// Adds how many items a node has, and where they come from.
fn push_origins(out: &mut Numbers, origins: &[OriginEntry])
    requires { length out.old.items + 1 + 2 * length origins.now ≤ 32768 }
    ensures numbers { out.new.items ≡ out.old.items ++ list_numbers origins.now }
    ensures len { length out.new.items ≡ length out.old.items + 1 + 2 * length origins.now }
{
    out.push(origins.len() as u64);
    numbers::push_origins(out, origins);
}

/// Adds where a node stands.
fn push_standing(out: &mut Numbers, tree: &PageTree<'_>, node: NodeId, origins: &[OriginEntry])
    requires origins { origins.now ≡ node_origins tree.now node }
    requires room { length out.old.items + 6 ≤ 32768 }
    ensures numbers { out.new.items ≡ out.old.items ++ standing_numbers tree.now node }
    ensures len { length out.new.items ≡ length out.old.items + 6 }
{
    let most_strays = tree.strays_at_most(node);
    let most_held = tree.held_at_most(node);
    let most_missing = tree.missing_at_most(node);
    out.push(strays_of(false, origins));
    out.push(most_strays);
    out.push(strays_of(true, origins));
    out.push(most_held);
    out.push(passed_over(origins));
    out.push(most_missing);
}
