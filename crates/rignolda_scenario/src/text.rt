//! The lines of a scenario.

ghost use Rattle.std.specs.Prelude.{◌≡◌, ◌<◌, ◌++◌, ℕ, [], slice_get, slice_index_or, length, Some};
ghost use Rattle.std.specs.Prelude.{string_bytes, IfErr, IfOk, OnOk};
ghost use Rattle.std.specs.List.{flat_map, range_with_len};
ghost use mathlib.Core.List.{IsPrefix};
ghost use Rattle.stab_core.specs.Texts.{number_entry, numbers_line};
ghost use Rattle.stab_tree.specs.Nodes.{root_of};
ghost use Rattle.stab_tree.specs.Steps.{depth_of};
ghost use Rattle.stab_treecore.specs.WholeTree.{WholeTree, received};
ghost use Rattle.rignolda_scenario.specs.Counts.{IsUnrun};
ghost use Rattle.rignolda_scenario.specs.Marks.{IsMarkOf};
ghost use Rattle.rignolda_scenario.specs.NodeCounts.{counted_of};
ghost use Rattle.rignolda_scenario.specs.Texts.{bounds_words, lines_of, node_text, root_text};
ghost use Rattle.rignolda_scenario.specs.Texts.{scenario_text, text_over};

use crate::count::rest_of;
use crate::fault::ScenarioFault;
use crate::mark::Mark;
use crate::play::play_steps;
use crate::read::Scenario;
use stab_core::{push_items_line, push_number};
use stab_frames::Item;
use stab_tree::{NodeId, Tree};
use stab_treecore::TreeState;
use std::alloc::{AllocError, Global};

/// What steps come to at a node that is not the root. What is published are the held items, and
/// then the others.
#[derive(Clone, Copy)]
struct NodeCount<'s> {
    since: usize,
    gained: &'s [Item],
    strays: u128,
    missing: u64,
    held: &'s [Item],
    published: &'s [Item],
}

/// Adds the lines of the root.
#[tactic(auto, unfolding(crate::specs::Texts::root_text))]
fn push_root(
    text: &mut String,
    name: &str,
    since: usize,
    published: &[Item],
) -> Result<(), AllocError>
    ensures { OnOk result (string_bytes text.new
        ≡ string_bytes text.old ++ root_text name.now since published.now) }
{
    text.push_str(name)?;
    text.push_str(" since")?;
    push_number(text, since as u64)?;
    text.push_str(" published")?;
    push_number(text, published.len() as u64)?;
    text.push_str("\n")?;
    push_items_line(text, "items:", published)
}

/// Adds what the law allows.
#[tactic(auto, unfolding(crate::specs::Texts::bounds_words))]
fn push_bounds(text: &mut String, strays: u128, missing: u64) -> Result<(), AllocError>
    ensures { OnOk result (string_bytes text.new
        ≡ string_bytes text.old ++ bounds_words strays missing) }
{
    write!(
        text,
        ", strays at most {strays}, missing among the first {missing}\n"
    )
}

/// Adds each of these items after one space.
fn push_items(text: &mut String, items: &[Item]) -> Result<(), AllocError>
    ensures { OnOk result (string_bytes text.new
        ≡ string_bytes text.old ++ flat_map number_entry items.now) }
{
    for item in items {
        push_number(text, u64::from(*item))?;
    }
    Ok(())
}

/// Adds a line of the items of two lists.
fn push_two_lists(
    text: &mut String,
    label: &str,
    first: &[Item],
    second: &[Item],
) -> Result<(), AllocError>
    ensures { OnOk result (string_bytes text.new
        ≡ string_bytes text.old ++ numbers_line label.now (first.now ++ second.now)) }
{
    text.push_str(label)?;
    push_items(text, first)?;
    push_items_line(text, "", second)?;
    Ok(())
}

/// Adds the lines of another node.
#[tactic(auto, unfolding(crate::specs::Texts::node_text))]
fn push_lines(text: &mut String, name: &str, count: NodeCount<'_>) -> Result<(), AllocError>
    ensures { OnOk result
        (string_bytes text.new ≡ string_bytes text.old
        ++ node_text name.now (counted_of count.entry)) }
{
    text.push_str(name)?;
    text.push_str(" since")?;
    push_number(text, count.since as u64)?;
    text.push_str(" received")?;
    push_number(text, count.gained.len() as u64)?;
    push_bounds(text, count.strays, count.missing)?;
    push_items_line(text, "items:", count.gained)?;
    push_two_lists(text, "published:", count.held, count.published)
}

/// Adds the lines of a node, whose count begins at this mark.
fn push_node(
    text: &mut String,
    tree: &Tree,
    end: &TreeState,
    mark: &Mark,
    node: NodeId,
) -> Result<(), AllocError>
    requires same_end { end.now.parents ≡ tree.now.parents }
    requires known { node < length tree.now.parents }
    ensures { OnOk result ((s : WholeTree) → s.parents ≡ tree.now.parents
        → IsMarkOf s node mark.now
        → IsPrefix (received s (root_of s.parents)) (received end.now (root_of s.parents))
        → string_bytes text.new ≡ string_bytes text.old
        ++ text_over mark.now.step s end.now (depth_of tree.now.parents node)
        (slice_index_or tree.now.names node []) node) }
{
    let name = tree.name(node);
    if tree.depth(node) == 0 {
        return push_root(text, name, mark.step, end.received(node));
    }
    let count = NodeCount {
        since: mark.step,
        gained: rest_of(end.received(node), mark.received),
        strays: mark.strays,
        missing: mark.missing,
        held: &mark.held,
        published: rest_of(end.received(tree.root()), mark.from),
    };
    push_lines(text, name, count)
}

/// What the steps of a scenario come to: the lines of each node in file order. Of each node they
/// are counted from the last fault on its path.
#[tactic(auto, unfolding(crate::specs::Texts::scenario_text))]
pub fn scenario_text(alloc: Global, scenario: Scenario) -> Result<String, ScenarioFault>
    ensures text { IfOk result (λ text. string_bytes text ≡ scenario_text scenario) }
    ensures refused { IfErr result (IsUnrun scenario.job scenario.steps) }
{
    let (job, steps) = scenario.into_parts();
    let played = play_steps(alloc, &job, steps.as_slice())?;
    drop(steps);
    let mut text = String::new(alloc);
    'nodes: for place in 0..job.tree().len() {
        let mark = &played.marks[usize::from(place)];
        push_node(&mut text, job.tree(), &played.end, mark, NodeId::new(place))?;
    }
    Ok(text)
}
