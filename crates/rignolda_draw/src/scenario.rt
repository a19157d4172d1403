//! The text of the run of a scenario.

ghost use Rattle.std.specs.Prelude.{◌≤◌, length, IfErr, OnOk};
ghost use Rattle.rignolda_scenario.specs.Counts.{IsUnrun};
ghost use Rattle.rignolda_scenario.specs.Played.{changes_of, most_changes};

use crate::cells::{push_delivered, push_link_cells, push_name_cell, push_number_cell};
use crate::event_cells::push_act_cells;
use crate::next::is_parent;
use crate::row::Row;
use crate::steps_walk::take_scenario_run;
use crate::taker::{TakesRows, TakesSteps};
use crate::words::delivered_by;
use rignolda_scenario::{Scenario, ScenarioFault};
use stab_core::{Link, push_items_line, push_number};
use stab_frames::Item;
use stab_tree::{NodeId, Tree};
use stab_treecore::{Change, TreeState};
use std::alloc::{AllocError, Global};

/// The names of the columns, which are the first line of a scenario's run.
const HEAD: &str =
    "step  link      event               effect  label holds acked frames      acks    \
remembers delivers\n";

/// The text of a scenario, up to a step.
#[derive(Drop)]
struct StepLines<'a> {
    tree: &'a Tree,
    text: String,
    /// The number of the step.
    number: u64,
}

/// The run of a scenario: the names of the columns, each link at its start, and the lines of each
/// step. It refuses what `scenario_text` refuses.
pub fn scenario_run_text(alloc: Global, scenario: &Scenario) -> Result<String, ScenarioFault>
    ensures few { OnOk result (length (changes_of scenario.now.job.tree.parents
        scenario.now.job.params scenario.now.steps) ≤ most_changes) }
    ensures refused { IfErr result (IsUnrun scenario.now.job scenario.now.steps) }
{
    let mut lines = StepLines {
        tree: scenario.job.tree(),
        text: String::from_str(alloc, HEAD)?,
        number: 0,
    };
    take_scenario_run(alloc, scenario, &mut lines)?;
    Ok(lines.into_text())
}

/// Each row is a line, which begins with the number of its step. Nothing is said of it: tests
/// compare the texts.
impl<'a> TakesRows for StepLines<'a> {
    ghost HasTaken = { λ _ _. Unit {0} };

    fn start(&mut self, node: NodeId, link: Option<&Link>) -> Result<(), AllocError> {
        self.push_link(node, link, "start               -       ")
    }

    fn take(&mut self, row: Row, link: &Link) -> Result<(), AllocError> {
        self.push_names(row.child)?;
        push_act_cells(&mut self.text, row.event, row.effect)?;
        push_link_cells(&mut self.text, link)?;
        push_delivered(&mut self.text, delivered_by(row.effect))
    }
}

impl<'a> TakesSteps for StepLines<'a> {
    fn begin_step(&mut self, number: u64) {
        self.number = number;
    }

    fn round(&mut self, word: &str, place: u64, count: u16) -> Result<(), AllocError> {
        let text = &mut self.text;
        push_number_cell(text, self.number)?;
        text.push_str("-         ")?;
        text.push_str(word)?;
        push_number(text, place)?;
        text.push_str(" of")?;
        push_number(text, u64::from(count))?;
        text.push('\n')
    }

    fn changed(
        &mut self,
        change: &Change,
        tree: &Tree,
        state: &TreeState,
    ) -> Result<(), AllocError> {
        match change {
            Change::Act(_) => Ok(()),
            Change::Publish(items) => {
                self.push_list(tree.root(), "publish             ", items.as_slice())
            }
            Change::Strike(child, _) => {
                self.push_link(*child, state.link(*child), "strike              -       ")
            }
            Change::Restart(node, list) => {
                self.push_list(*node, "restart             ", list.as_slice())?;
                self.push_anew(*node, state)
            }
        }
    }
}

impl<'a> StepLines<'a> {
    /// The text.
    fn into_text(self) -> String {
        self.text
    }

    /// Adds the number of the step, and the name of a node.
    fn push_names(&mut self, node: NodeId) -> Result<(), AllocError> {
        push_number_cell(&mut self.text, self.number)?;
        push_name_cell(&mut self.text, self.tree, node)
    }

    /// Adds the line of a node with a word in its column and a list.
    fn push_list(&mut self, node: NodeId, word: &str, list: &[Item]) -> Result<(), AllocError> {
        self.push_names(node)?;
        self.text.push_str(word)?;
        push_items_line(&mut self.text, "items:", list)
    }

    /// Adds the line of the link into a node, where one leads into it, behind these cells.
    fn push_link(
        &mut self,
        node: NodeId,
        link: Option<&Link>,
        cells: &str,
    ) -> Result<(), AllocError> {
        let Some(link) = link else {
            return Ok(());
        };
        self.push_names(node)?;
        self.text.push_str(cells)?;
        push_link_cells(&mut self.text, link)?;
        push_delivered(&mut self.text, None)
    }

    /// Adds the line of each link below a node, whose sender begins anew.
    fn push_anew(&mut self, node: NodeId, state: &TreeState) -> Result<(), AllocError> {
        for place in 0..self.tree.len() {
            let child = NodeId::new(place);
            if is_parent(self.tree, node, child) {
                self.push_link(child, state.link(child), "anew                -       ")?;
            }
        }
        Ok(())
    }
}
