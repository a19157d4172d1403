//! Runs drawn: the text of the run of a link job, of a schedule or of a scenario, a line for each
//! event with its link after it; and the rows of a run, of which a picture is drawn.
//!
//! One walk makes a run, and gives each row to what takes it: a list of rows, or a text. The layer
//! above uses one fact: whatever takes them is given the rows of the replay, each of them once and
//! in their order. How a line looks is tested, and not proved.
//!
//! A scenario has a line for each act, each round and each fault. Each line begins with the number
//! of its step, which is the number that `since` names where a scenario is counted, and shows what
//! that step makes of the tree that the line before it left ([`scenario_run_text`]).
#![tactic(auto)]

mod cells;
mod event_cells;
mod link_line;
mod next;
mod output;
mod queue;
mod row;
mod rows;
mod run;
mod scenario;
mod sender;
mod steps_walk;
mod stopped;
mod taker;
mod tree_walk;
mod walk;
mod words;

pub use next::is_parent;
pub use output::OutputFault;
pub use row::Row;
pub use rows::{link_rows, scenario_rows, schedule_rows};
pub use run::{write_run, write_schedule_run};
pub use scenario::scenario_run_text;
