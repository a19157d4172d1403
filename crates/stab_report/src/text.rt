//! The text of a report, and that of a tree, which does not say why a node ended.

ghost use Rattle.std.specs.Prelude.{◌≡◌, ◌++◌, ◌<◌, length, string_bytes, OnOk, IfOk};
ghost use Rattle.stab_report.specs.Reports.{OnePerNode};
ghost use Rattle.stab_report.specs.Texts.{end_entry, lines_at, node_lines};
ghost use Rattle.stab_report.specs.Texts.{report_text, text_of, tree_text};

use crate::entries::Entries;
use stab_core::push_items_line;
use stab_frames::Item;
use stab_tree::{NodeId, Tree};
use stab_treecore::push_node_counts;
use std::alloc::{AllocError, Global};

/// The lines of each node in file order: its name, its depth, how many items it received, how many
/// are acknowledged on the link into it, and why it ended; and the items that it received.
pub fn report_text<R: Entries>(alloc: Global, tree: &Tree, report: &R) -> Result<String, AllocError>
    requires { OnePerNode tree.now.parents (R.report report.now) }
    ensures { IfOk result (λ text. string_bytes text ≡ report_text tree.now (R.report report.now)) }
{
    text_of(alloc, tree, report, true)
}

/// The same lines without why a node ended, as `stab tree` prints them.
pub fn tree_text<R: Entries>(alloc: Global, tree: &Tree, report: &R) -> Result<String, AllocError>
    requires { OnePerNode tree.now.parents (R.report report.now) }
    ensures { IfOk result (λ text. string_bytes text ≡ tree_text tree.now (R.report report.now)) }
{
    text_of(alloc, tree, report, false)
}

/// The lines of each node, which may say why it ended.
#[tactic(auto, unfolding(crate::specs::Texts::text_of))]
fn text_of<R: Entries>(
    alloc: Global,
    tree: &Tree,
    report: &R,
    says_so: bool,
) -> Result<String, AllocError>
    requires { OnePerNode tree.now.parents (R.report report.now) }
    ensures { IfOk result (λ text.
        string_bytes text ≡ text_of tree.now (R.report report.now) says_so) }
{
    let mut text = String::new(alloc);
    for place in 0..tree.len() {
        push_node(&mut text, tree, report, NodeId::new(place), says_so)?;
    }
    Ok(text)
}

/// Adds the lines of a node of the tree.
fn push_node<R: Entries>(
    text: &mut String,
    tree: &Tree,
    report: &R,
    node: NodeId,
    says_so: bool,
) -> Result<(), AllocError>
    requires entries { OnePerNode tree.now.parents (R.report report.now) }
    requires known { node < length tree.now.parents }
    ensures { OnOk result (string_bytes text.new ≡ string_bytes text.old
        ++ lines_at tree.now (R.report report.now) says_so node) }
{
    let entry = report.entry(node);
    push_lines(
        text,
        tree.name(node),
        tree.depth(node),
        entry.received,
        entry.acked,
        says_so.then_some(entry.ended_upstream),
    )
}

/// Adds the two lines of a node from its parts.
#[tactic(auto, unfolding(crate::specs::Texts::node_lines))]
fn push_lines(
    text: &mut String,
    name: &str,
    depth: u16,
    received: &[Item],
    acked: Option<u64>,
    end: Option<bool>,
) -> Result<(), AllocError>
    ensures { OnOk result (string_bytes text.new
        ≡ string_bytes text.old ++ node_lines name.now depth received.now acked end) }
{
    push_node_counts(text, name, depth, received.len() as u64, acked)?;
    push_end(text, end)?;
    text.push_str("\n")?;
    push_items_line(text, "items:", received)
}

/// Adds why a node ended, where the text says so.
#[tactic(auto, unfolding(crate::specs::Texts::end_entry))]
fn push_end(text: &mut String, end: Option<bool>) -> Result<(), AllocError>
    ensures { OnOk result (string_bytes text.new ≡ string_bytes text.old ++ end_entry end) }
{
    match end {
        None => Ok(()),
        Some(true) => text.push_str(" ended upstream"),
        Some(false) => text.push_str(" ended turns"),
    }
}
