//! The bounds of the nodes, as text.

ghost use Rattle.std.specs.Prelude.{◌≡◌, ◌++◌, ◌+◌, ◌-◌, ◌<◌, ◌≤◌, length, string_bytes};
ghost use Rattle.std.specs.Prelude.{IfOk, OnOk, Some};
ghost use Rattle.stab_job.specs.JobValues.{network};
ghost use Rattle.stab_tree.specs.Nodes.{parent_at};
ghost use Rattle.rignolda_verdict.specs.BoundsTexts.{arrival_line, bounds_text, cost_words};
ghost use Rattle.rignolda_verdict.specs.BoundsTexts.{fault_lines, fewest_words, inner_line};
ghost use Rattle.rignolda_verdict.specs.BoundsTexts.{later_lines, leaf_line, lines_below_root};
ghost use Rattle.rignolda_verdict.specs.BoundsTexts.{missing_words, more_words};
ghost use Rattle.rignolda_verdict.specs.BoundsTexts.{no_more_words, node_bounds, node_lines};
ghost use Rattle.rignolda_verdict.specs.BoundsTexts.{parts_words, published_line, restart_line};
ghost use Rattle.rignolda_verdict.specs.BoundsTexts.{root_line, rounds_words, sharper_line};
ghost use Rattle.rignolda_verdict.specs.BoundsTexts.{strays_words, strike_line, sums_words};
ghost use Rattle.rignolda_verdict.specs.Costs.{missing_of};
ghost use Rattle.stab_treecore.specs.SharperLaw.{fewest_missing, missing_without_strays};

use crate::costs::greatest_below;
use crate::judged::judge_of;
use stab_convergence::arrival_reading_rounds;
use stab_core::push_number;
use stab_job::Job;
use stab_judge::{Bounds, Judge};
use stab_tree::{NodeId, Tree};
use stab_treecore::laws::sharper_bounds_are_smaller;
use std::alloc::{AllocError, Global};

/// The lines of the nodes of a job in file order: of each its depth, the sums C, E and M that the
/// laws allow it, and what they mean; what the sharper law allows it; after how many reading rounds
/// of its path all that is published has arrived; and what a strike at the link into it, or its
/// restart, costs it and what is beneath.
pub fn bounds_text(alloc: Global, job: &Job) -> Result<String, AllocError>
    ensures { IfOk result (λ text. string_bytes text ≡ bounds_text (network job.now)) }
{
    let judge = judge_of(alloc, job)?;
    text_of(alloc, &judge, job.tree(), job.items().len() as u32)
}

/// The lines of the nodes of this tree, whose root publishes `published` items.
#[tactic(auto, unfolding(crate::specs::BoundsTexts::bounds_text))]
fn text_of(
    alloc: Global,
    judge: &Judge<'_>,
    tree: &Tree,
    published: u32,
) -> Result<String, AllocError>
    requires same_tree { judge.now.tree ≡ tree.now }
    requires its_items { length judge.now.published ≡ published }
    ensures { IfOk result (λ text. string_bytes text ≡ bounds_text judge.now) }
{
    let mut text = String::new(alloc);
    for place in 0..tree.len() {
        push_node(&mut text, judge, tree, published, NodeId::new(place))?;
    }
    Ok(text)
}

/// Adds the lines of a node.
fn push_node(
    text: &mut String,
    judge: &Judge<'_>,
    tree: &Tree,
    published: u32,
    node: NodeId,
) -> Result<(), AllocError>
    requires same_tree { judge.now.tree ≡ tree.now }
    requires its_items { length judge.now.published ≡ published }
    requires known { node < length tree.now.parents }
    ensures { OnOk result
        (string_bytes text.new ≡ string_bytes text.old ++ node_lines judge.now node) }
{
    push_line(text, tree.name(node), judge.bounds_at(node))?;
    match tree.parent(node) {
        None => push_root(text, tree.name(node), greatest_below(judge, tree, node)),
        Some(parent) => push_others(text, judge, tree, published, node, parent),
    }
}

/// Adds the lines after the first one of a node that is not the root.
#[tactic(auto, unfolding(crate::specs::BoundsTexts::lines_below_root))]
fn push_others(
    text: &mut String,
    judge: &Judge<'_>,
    tree: &Tree,
    published: u32,
    node: NodeId,
    parent: NodeId,
) -> Result<(), AllocError>
    requires same_tree { judge.now.tree ≡ tree.now }
    requires its_items { length judge.now.published ≡ published }
    requires known { node < length tree.now.parents }
    requires known_parent { parent < length tree.now.parents }
    requires parent { parent_at tree.now.parents node ≡ Some parent }
    ensures { OnOk result
        (string_bytes text.new ≡ string_bytes text.old ++ lines_below_root judge.now node) }
{
    let (without_strays, fewest) = sharper_at(judge, node);
    push_sharper(text, tree.name(node), without_strays, fewest)?;
    push_later(text, judge, tree, published, node, parent)
}

/// Adds the lines of when all has arrived at such a node, and of what faults cost.
fn push_later(
    text: &mut String,
    judge: &Judge<'_>,
    tree: &Tree,
    published: u32,
    node: NodeId,
    parent: NodeId,
) -> Result<(), AllocError>
    requires same_tree { judge.now.tree ≡ tree.now }
    requires its_items { length judge.now.published ≡ published }
    requires known { node < length tree.now.parents }
    requires known_parent { parent < length tree.now.parents }
    requires parent { parent_at tree.now.parents node ≡ Some parent }
    ensures { OnOk result
        (string_bytes text.new ≡ string_bytes text.old ++ later_lines judge.now node) }
{
    let rounds = arrival_reading_rounds(judge.bounds_at(parent), published);
    let below = greatest_below(judge, tree, node);
    push_arrival(text, tree.name(node), rounds, u64::from(published))?;
    push_faults(text, tree.name(node), judge.capacity_into(node), below)
}

/// Adds the line of a node of this name and of these bounds.
#[tactic(auto, unfolding(crate::specs::BoundsTexts::node_bounds))]
fn push_line(text: &mut String, name: &str, bounds: Bounds) -> Result<(), AllocError>
    ensures { OnOk result (string_bytes text.new ≡ string_bytes text.old
        ++ node_bounds name.now bounds.depth bounds.link_strays bounds.opening_strays
        bounds.missing) }
{
    text.push_str(name)?;
    text.push_str(" depth")?;
    push_number(text, u64::from(bounds.depth))?;
    text.push_str(": ")?;
    push_strays(text, bounds.link_strays, bounds.opening_strays)?;
    push_sums(text, bounds.link_strays, bounds.opening_strays)?;
    push_missing(text, bounds.missing)
}

/// Adds how many strays there are at most.
#[tactic(auto, unfolding(crate::specs::BoundsTexts::strays_words))]
fn push_strays(text: &mut String, of_links: u64, of_openings: u64) -> Result<(), AllocError>
    ensures { OnOk result (string_bytes text.new ≡ string_bytes text.old
        ++ strays_words (of_links + of_openings)) }
{
    let count = u128::from(of_links) + u128::from(of_openings);
    if count == 0 {
        return text.push_str("no strays");
    }
    if count == 1 {
        return text.push_str("at most 1 stray");
    }
    write!(text, "at most {count} strays")
}

/// Adds the two sums.
#[tactic(auto, unfolding(crate::specs::BoundsTexts::sums_words))]
fn push_sums(text: &mut String, of_links: u64, of_openings: u64) -> Result<(), AllocError>
    ensures { OnOk result (string_bytes text.new ≡ string_bytes text.old
        ++ sums_words of_links of_openings) }
{
    write!(text, " (C {of_links} + E {of_openings})")
}

/// Adds what is said of the published items.
#[tactic(auto, unfolding(crate::specs::BoundsTexts::missing_words))]
fn push_missing(text: &mut String, missing: u64) -> Result<(), AllocError>
    ensures { OnOk result (string_bytes text.new ≡ string_bytes text.old
        ++ missing_words missing) }
{
    if missing == 0 {
        return text.push_str(", all published items in order\n");
    }
    write!(
        text,
        ", then published items in order; of those before its last one only some of the first \
         {missing} (M) can be missing\n"
    )
}

/// How many of the first published items can be missing at a node by the sharper law: without
/// strays, and whatever it received.
pub fn sharper_at(judge: &Judge<'_>, node: NodeId) -> (u64, u64)
    requires { node < length judge.now.tree.parents }
    ensures without_strays { result.0 ≡ missing_without_strays judge.now node }
    ensures fewest { result.1 ≡ fewest_missing judge.now node }
{
    sharper_bounds_are_smaller();
    let bounds = judge.bounds_at(node);
    (
        bounds.missing - bounds.link_strays,
        judge.fewest_missing(node),
    )
}

/// Adds the line of the sharper law.
#[tactic(auto, unfolding(crate::specs::BoundsTexts::sharper_line))]
fn push_sharper(
    text: &mut String,
    name: &str,
    without_strays: u64,
    fewest: u64,
) -> Result<(), AllocError>
    ensures { OnOk result (string_bytes text.new ≡ string_bytes text.old
        ++ sharper_line name.now without_strays fewest) }
{
    text.push_str(name)?;
    text.push_str(" misses only some of the first")?;
    push_number(text, without_strays)?;
    push_fewest(text, fewest)
}

/// Adds how many more can be missing for strays, and how many whatever was received.
#[tactic(auto, unfolding(crate::specs::BoundsTexts::fewest_words))]
fn push_fewest(text: &mut String, fewest: u64) -> Result<(), AllocError>
    ensures { OnOk result (string_bytes text.new ≡ string_bytes text.old ++ fewest_words fewest) }
{
    text.push_str(", of one more for each stray that it received, and at most of the first")?;
    push_number(text, fewest)?;
    text.push_str("\n")
}

/// Adds the line that says when all has arrived.
#[tactic(auto, unfolding(crate::specs::BoundsTexts::arrival_line))]
fn push_arrival(
    text: &mut String,
    name: &str,
    rounds: u64,
    published: u64,
) -> Result<(), AllocError>
    requires { published ≤ rounds }
    ensures { OnOk result (string_bytes text.new ≡ string_bytes text.old
        ++ arrival_line name.now rounds published) }
{
    text.push_str(name)?;
    text.push_str(" has all but these after")?;
    push_rounds(text, rounds, published)
}

/// Adds how many reading rounds there are, and what they are for.
#[tactic(auto, unfolding(crate::specs::BoundsTexts::rounds_words))]
fn push_rounds(text: &mut String, rounds: u64, published: u64) -> Result<(), AllocError>
    requires { published ≤ rounds }
    ensures { OnOk result (string_bytes text.new ≡ string_bytes text.old
        ++ rounds_words rounds published) }
{
    let more = rounds - published;
    push_number(text, rounds)?;
    text.push_str(" reading rounds of its path:")?;
    push_parts(text, published, more)
}

/// Adds how many of the rounds are for published items, and how many more there are.
#[tactic(auto, unfolding(crate::specs::BoundsTexts::parts_words))]
fn push_parts(text: &mut String, published: u64, more: u64) -> Result<(), AllocError>
    ensures { OnOk result (string_bytes text.new ≡ string_bytes text.old
        ++ parts_words published more) }
{
    push_number(text, published)?;
    text.push_str(" for the published items, and")?;
    push_more(text, more)
}

/// Adds how many rounds there are beside those for published items.
#[tactic(auto, unfolding(crate::specs::BoundsTexts::more_words))]
fn push_more(text: &mut String, more: u64) -> Result<(), AllocError>
    ensures { OnOk result (string_bytes text.new ≡ string_bytes text.old ++ more_words more) }
{
    push_number(text, more)?;
    text.push_str(" more\n")
}

/// Adds what a fault costs, by the capacities of two links, or of one.
#[tactic(auto, unfolding(crate::specs::BoundsTexts::cost_words))]
fn push_cost(text: &mut String, capacity: u16, further: u16, missing: u64) -> Result<(), AllocError>
    ensures { OnOk result (string_bytes text.new ≡ string_bytes text.old
        ++ cost_words (capacity + further) missing) }
{
    push_strays(text, u64::from(capacity), u64::from(further))?;
    text.push_str(", and only some of the next")?;
    push_number(text, missing)?;
    text.push_str(" items can be missing")
}

/// Adds the lines of what faults cost a node that is not the root.
#[tactic(auto, unfolding(crate::specs::BoundsTexts::fault_lines))]
fn push_faults(text: &mut String, name: &str, capacity: u16, below: u16) -> Result<(), AllocError>
    ensures { OnOk result (string_bytes text.new ≡ string_bytes text.old
        ++ fault_lines name.now capacity below) }
{
    push_strike(text, name, capacity, below)?;
    push_restart(text, name, capacity, below)
}

/// Adds the line of a strike at a link of this capacity.
#[tactic(auto, unfolding(crate::specs::BoundsTexts::strike_line))]
fn push_strike(text: &mut String, name: &str, capacity: u16, below: u16) -> Result<(), AllocError>
    ensures { OnOk result (string_bytes text.new ≡ string_bytes text.old
        ++ strike_line name.now capacity below) }
{
    text.push_str(name)?;
    text.push_str(" after a strike at the link into it: ")?;
    push_cost(text, capacity, 0, 2 * u64::from(capacity) + 1)?;
    push_no_more(text, below)
}

/// Adds that what is beneath pays no more, where there is something.
#[tactic(auto, unfolding(crate::specs::BoundsTexts::no_more_words))]
fn push_no_more(text: &mut String, below: u16) -> Result<(), AllocError>
    ensures { OnOk result (string_bytes text.new ≡ string_bytes text.old ++ no_more_words below) }
{
    if below == 0 {
        text.push_str("\n")
    } else {
        text.push_str("; beneath it no more\n")
    }
}

/// Adds the line of a restart of a node that is not the root.
#[tactic(auto, unfolding(crate::specs::BoundsTexts::restart_line))]
fn push_restart(text: &mut String, name: &str, capacity: u16, below: u16) -> Result<(), AllocError>
    ensures { OnOk result (string_bytes text.new ≡ string_bytes text.old
        ++ restart_line name.now capacity below) }
{
    if below == 0 {
        push_leaf(text, name)
    } else {
        push_inner(
            text,
            name,
            capacity,
            below,
            missing_of_both(capacity, below),
        )
    }
}

/// Adds the line of a restart of a leaf.
#[tactic(auto, unfolding(crate::specs::BoundsTexts::leaf_line))]
fn push_leaf(text: &mut String, name: &str) -> Result<(), AllocError>
    ensures { OnOk result (string_bytes text.new ≡ string_bytes text.old ++ leaf_line name.now) }
{
    text.push_str(name)?;
    text.push_str(" after its restart: as much\n")
}

/// How many items may be missing where two links of these capacities are struck.
fn missing_of_both(capacity: u16, below: u16) -> u64
    ensures { result ≡ missing_of capacity + missing_of below }
{
    (2 * u64::from(capacity) + 1) + (2 * u64::from(below) + 1)
}

/// Adds the line of a restart of a node that has children, by the capacities of both links.
#[tactic(auto, unfolding(crate::specs::BoundsTexts::inner_line))]
fn push_inner(
    text: &mut String,
    name: &str,
    capacity: u16,
    below: u16,
    missing: u64,
) -> Result<(), AllocError>
    ensures { OnOk result (string_bytes text.new ≡ string_bytes text.old
        ++ inner_line name.now (capacity + below) missing) }
{
    text.push_str(name)?;
    text.push_str(" after its restart: as much; beneath it, beside its new list, ")?;
    push_cost(text, capacity, below, missing)?;
    text.push_str("\n")
}

/// Adds the line of a restart of the root, where there is a node beneath.
#[tactic(auto, unfolding(crate::specs::BoundsTexts::root_line))]
fn push_root(text: &mut String, name: &str, below: u16) -> Result<(), AllocError>
    ensures { OnOk result (string_bytes text.new ≡ string_bytes text.old
        ++ root_line name.now below) }
{
    if below == 0 {
        Ok(())
    } else {
        push_published(text, name, below)
    }
}

/// Adds the line of a restart of the root.
#[tactic(auto, unfolding(crate::specs::BoundsTexts::published_line))]
fn push_published(text: &mut String, name: &str, below: u16) -> Result<(), AllocError>
    ensures { OnOk result (string_bytes text.new ≡ string_bytes text.old
        ++ published_line name.now below) }
{
    text.push_str(name)?;
    text.push_str(" after its restart: beneath it ")?;
    push_cost(text, below, 0, 2 * u64::from(below) + 1)?;
    text.push_str("\n")
}
