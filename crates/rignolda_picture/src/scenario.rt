//! The picture of a scenario.

ghost use Rattle.std.specs.Prelude.{IfErr};
ghost use Rattle.rignolda_scenario.specs.Counts.{IsUnrun};

use crate::drawing::Drawing;
use crate::picture::{add_links, link_of, rows_of, sheet_of};
use rignolda_draw::{Row, is_parent, scenario_rows};
use rignolda_scenario::{Scenario, ScenarioFault, Step};
use stab_core::Start;
use stab_frames::Params;
use stab_tree::{NodeId, Tree};
use stab_treecore::Change;
use std::alloc::{AllocError, Global};

/// What the picture of a scenario shows, for those who do not see it.
const ABOUT: &str = "The links of a tree are side by side, each with its two ends as vertical \
lines. Each row is an act on the link into the node that it names, a round of all links, items \
that the root publishes, or a fault. The number before a row is that of its step.";

/// The run of a scenario as a picture, with its links side by side in the file order of their
/// children. Its acts are the rows of the scenario. It refuses what `scenario_text` refuses.
pub fn scenario_picture(alloc: Global, scenario: &Scenario) -> Result<String, ScenarioFault>
    ensures refused { IfErr result (IsUnrun scenario.now.job scenario.now.steps) }
{
    let rows = scenario_rows(alloc, scenario)?;
    let text = draw_scenario(alloc, scenario, &rows)?;
    Ok(text)
}

/// The picture of a scenario whose acts have these rows.
fn draw_scenario(alloc: Global, scenario: &Scenario, rows: &[Row]) -> Result<String, AllocError> {
    let job = &scenario.job;
    let tree = job.tree();
    let steps = scenario.steps.as_slice();
    let needed = rows_needed(tree, job.params(), steps);
    let mut drawing = Drawing::new(alloc, sheet_of(job, needed));
    add_links(alloc, &mut drawing, job)?;
    add_steps(alloc, &mut drawing, tree, job.params(), steps, rows)?;
    drawing.end(alloc)?;
    drawing.page(alloc, "The run of a scenario", ABOUT)
}

/// How many acts a round of all links is.
fn round_len(tree: &Tree) -> u64 {
    u64::from(tree.link_count()).saturating_mul(5)
}

/// How many acts a reading round of all links is.
fn reading_len(tree: &Tree, params: &[Params]) -> u64 {
    let mut acts = round_len(tree);
    for own in params {
        let capacity = u64::from(own.capacity());
        acts = acts.saturating_add(capacity.saturating_mul(2));
    }
    acts
}

/// How many rows a strike takes.
fn strike_rows(start: &Start) -> u64 {
    rows_of(start).max(1)
}

/// How many rows these steps take.
fn rows_needed(tree: &Tree, params: &[Params], steps: &[Step]) -> u64 {
    let round = round_len(tree).saturating_add(1);
    let reading = reading_len(tree, params).saturating_add(1);
    let mut rows = 0u64;
    for step in steps {
        let more = match step {
            Step::One(Change::Strike(_, start)) => strike_rows(start),
            Step::One(_) => 1,
            Step::Rounds(count) => round.saturating_mul(u64::from(*count)),
            Step::ReadingRounds(count) => reading.saturating_mul(u64::from(*count)),
        };
        rows = rows.saturating_add(more);
    }
    rows
}

/// Draws these steps.
fn add_steps(
    alloc: Global,
    drawing: &mut Drawing,
    tree: &Tree,
    params: &[Params],
    steps: &[Step],
    rows: &[Row],
) -> Result<(), AllocError> {
    let mut next = 0;
    let mut number = 0u64;
    for step in steps {
        number = number.saturating_add(1);
        next = add_step(alloc, drawing, tree, params, (number, step), rows, next)?;
    }
    Ok(())
}

/// Draws a step of this number, and answers where the rows of the later ones begin.
fn add_step(
    alloc: Global,
    drawing: &mut Drawing,
    tree: &Tree,
    params: &[Params],
    numbered: (u64, &Step),
    rows: &[Row],
    next: usize,
) -> Result<usize, AllocError> {
    let (number, step) = numbered;
    match step {
        Step::One(Change::Act(_)) => add_acts(alloc, drawing, tree, number, 1, rows, next),
        Step::One(change) => {
            add_change(alloc, drawing, tree, number, change)?;
            Ok(next)
        }
        Step::Rounds(count) => {
            let round = ("round", *count, round_len(tree));
            add_rounds(alloc, drawing, tree, number, round, rows, next)
        }
        Step::ReadingRounds(count) => {
            let round = ("reading round", *count, reading_len(tree, params));
            add_rounds(alloc, drawing, tree, number, round, rows, next)
        }
    }
}

/// Draws rounds of all links: their word, how many they are, and of how many acts each is.
fn add_rounds(
    alloc: Global,
    drawing: &mut Drawing,
    tree: &Tree,
    number: u64,
    rounds: (&str, u16, u64),
    rows: &[Row],
    next: usize,
) -> Result<usize, AllocError> {
    let (word, count, acts) = rounds;
    let mut next = next;
    for done in 0..count {
        let place = u64::from(done) + 1;
        let text = format!(in alloc; "{word} {place} of {count}")?;
        drawing.add_mark(number, "", text.as_str())?;
        next = add_acts(alloc, drawing, tree, number, acts, rows, next)?;
    }
    Ok(next)
}

/// Draws the next `acts` acts.
fn add_acts(
    alloc: Global,
    drawing: &mut Drawing,
    tree: &Tree,
    number: u64,
    acts: u64,
    rows: &[Row],
    next: usize,
) -> Result<usize, AllocError> {
    let mut next = next;
    for _done in 0..acts {
        let Some(row) = rows.get(next) else {
            break;
        };
        drawing.add_numbered(alloc, link_of(Some(tree), row.child), number, row)?;
        next = next.saturating_add(1);
    }
    Ok(next)
}

/// Draws what is published, or a fault.
fn add_change(
    alloc: Global,
    drawing: &mut Drawing,
    tree: &Tree,
    number: u64,
    change: &Change,
) -> Result<(), AllocError> {
    match change {
        Change::Act(_) => Ok(()),
        Change::Publish(items) => {
            let name = name_of(tree, tree.root());
            drawing.add_list(alloc, number, name, "publish", items.as_slice())
        }
        Change::Strike(child, start) => {
            let link = link_of(Some(tree), *child);
            drawing.add_strike(alloc, link, number, name_of(tree, *child), start)
        }
        Change::Restart(node, list) => {
            drawing.add_list(
                alloc,
                number,
                name_of(tree, *node),
                "restart",
                list.as_slice(),
            )?;
            restart_links(drawing, tree, *node)
        }
    }
}

/// Draws what the restart of a node does to its links, in the last row.
fn restart_links(drawing: &mut Drawing, tree: &Tree, node: NodeId) -> Result<(), AllocError> {
    for place in 0..tree.link_count() {
        let child = tree.link_child(place);
        if child == node {
            drawing.restart_receiver(usize::from(place))?;
        }
        if is_parent(tree, node, child) {
            drawing.restart_sender(usize::from(place))?;
        }
    }
    Ok(())
}

/// The name of a node; what is no node has none.
fn name_of(tree: &Tree, node: NodeId) -> &str {
    if node.place() < tree.len() {
        tree.name(node)
    } else {
        ""
    }
}
