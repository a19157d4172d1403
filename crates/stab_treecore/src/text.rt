//! The printed lines of a whole tree, and the piece that the report of a run shares.

ghost use Rattle.std.specs.Prelude.{◌≡◌, ◌++◌, ◌<◌, length, string_bytes, OnOk, IfOk};
ghost use Rattle.stab_treecore.specs.Texts.{acked_entry, node_counts, node_text, lines_of};
ghost use Rattle.stab_treecore.specs.Texts.{schedule_text};

use crate::state::TreeState;
use stab_core::{Link, push_items_line, push_number};
use stab_frames::Item;
use stab_tree::{NodeId, Tree};
use std::alloc::{AllocError, Global};

/// The lines of each node in file order: its name, its depth, how many items it received and how
/// many are acknowledged on the link into it; and the items that it received.
#[tactic(auto, unfolding(crate::specs::Texts::schedule_text))]
pub fn schedule_text(alloc: Global, tree: &Tree, state: &TreeState) -> Result<String, AllocError>
    requires { state.now.parents ≡ tree.now.parents }
    ensures { IfOk result (λ text. string_bytes text ≡ schedule_text tree.now state.now) }
{
    let mut text = String::new(alloc);
    for place in 0..tree.len() {
        push_node(&mut text, tree, state, NodeId::new(place))?;
    }
    Ok(text)
}

/// Adds the lines of a node of the tree.
fn push_node(
    text: &mut String,
    tree: &Tree,
    state: &TreeState,
    node: NodeId,
) -> Result<(), AllocError>
    requires same_tree { state.now.parents ≡ tree.now.parents }
    requires known { node < length tree.now.parents }
    ensures { OnOk result
        (string_bytes text.new ≡ string_bytes text.old ++ lines_of tree.now state.now node) }
{
    let acked = state.link(node).map(Link::acked);
    push_lines(
        text,
        tree.name(node),
        tree.depth(node),
        state.received(node),
        acked,
    )
}

/// Adds the two lines of a node from its parts.
#[tactic(auto, unfolding(crate::specs::Texts::node_text))]
fn push_lines(
    text: &mut String,
    name: &str,
    depth: u16,
    received: &[Item],
    acked: Option<u64>,
) -> Result<(), AllocError>
    ensures { OnOk result (string_bytes text.new
        ≡ string_bytes text.old ++ node_text name.now depth received.now acked) }
{
    push_node_counts(text, name, depth, received.len() as u64, acked)?;
    text.push_str("\n")?;
    push_items_line(text, "items:", received)
}

/// Adds the first line of a node without its end: its name, its depth, how many items it received,
/// and how many are acknowledged on the link into it. Where memory is refused, part of the line may
/// have been added.
#[tactic(auto, unfolding(crate::specs::Texts::node_counts))]
pub fn push_node_counts(
    text: &mut String,
    name: &str,
    depth: u16,
    received: u64,
    acked: Option<u64>,
) -> Result<(), AllocError>
    ensures { OnOk result (string_bytes text.new
        ≡ string_bytes text.old ++ node_counts name.now depth received acked) }
{
    text.push_str(name)?;
    text.push_str(" depth")?;
    push_number(text, u64::from(depth))?;
    text.push_str(" received")?;
    push_number(text, received)?;
    text.push_str(" acked")?;
    push_acked(text, acked)
}

/// Adds how many items are acknowledged, or `-` where there is no link.
fn push_acked(text: &mut String, acked: Option<u64>) -> Result<(), AllocError>
    ensures { OnOk result
        (string_bytes text.new ≡ string_bytes text.old ++ acked_entry acked) }
{
    match acked {
        None => text.push_str(" -"),
        Some(acked) => push_number(text, acked),
    }
}
