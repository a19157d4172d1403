//! The text of the run of a link job or of a schedule, which is written while it is made.

ghost use Rattle.stab_core.specs.Replay.{IsLawful};
ghost use Rattle.stab_job.specs.Replays.{IsReplayed};

use crate::link_line::LinkLine;
use crate::output::{OutputFault, write_block};
use crate::row::Row;
use crate::taker::TakesRows;
use crate::tree_walk::take_schedule_run;
use crate::walk::take_link_run;
use stab_core::Link;
use stab_job::Job;
use stab_script::LinkJob;
use stab_tree::{NodeId, Tree};
use std::alloc::{AllocError, Global};
use std::io::Write;

/// The names of the columns, which are the first line of a link job's run.
const HEAD: &str =
    "event               effect  label holds acked frames      acks    remembers delivers\n";

/// The names of the columns, which are the first line of a schedule's run.
const TREE_HEAD: &str =
    "link      event               effect  label holds acked frames      acks    remembers delivers\n";

/// A text of which all but the last is written, with a line of each link that is kept.
#[derive(Drop)]
struct Lines<'a, W> {
    alloc: Global,
    writer: &'a mut W,
    text: String,
    /// The tree of a schedule.
    tree: Option<&'a Tree>,
    /// The line of the link into each node, where one leads into it.
    kept: Vec<Option<LinkLine>>,
    /// Why a row was not taken, if one was not.
    fault: OutputFault,
}

impl<'a, W: Write> Lines<'a, W> {
    /// A text of this first line.
    fn new(
        alloc: Global,
        writer: &'a mut W,
        head: &str,
        tree: Option<&'a Tree>,
    ) -> Result<Lines<'a, W>, AllocError> {
        let text = String::from_str(alloc, head)?;
        Ok(Lines {
            alloc,
            writer,
            text,
            tree,
            kept: Vec::new(alloc),
            fault: OutputFault::Memory,
        })
    }

    /// The last of the text, where all rows were taken.
    fn last<E>(self, taken: Result<(), E>) -> Result<String, OutputFault>
    where
        E: Drop,
    {
        match taken {
            Ok(()) => Ok(self.text),
            Err(_) => Err(self.fault),
        }
    }
}

/// Each row is a line. Nothing is said of it: tests compare the texts.
impl<'a, W: Write> TakesRows for Lines<'a, W> {
    ghost HasTaken = { λ _ _. Unit {0} };

    fn start(&mut self, node: NodeId, link: Option<&Link>) -> Result<(), AllocError> {
        let Some(link) = link else {
            self.kept.push(None)?;
            return Ok(());
        };
        let line = LinkLine::new(self.alloc, self.tree, node, link)?;
        line.push_start(&mut self.text)?;
        self.kept.push(Some(line))?;
        Ok(())
    }

    fn take(&mut self, row: Row, link: &Link) -> Result<(), AllocError> {
        let child = row.child.index();
        if child < self.kept.len() {
            push_line(&mut self.text, &mut self.kept[child], &row, link)?;
        }
        match write_block(self.writer, &mut self.text) {
            Ok(()) => Ok(()),
            Err(fault) => {
                self.fault = fault;
                Err(AllocError)
            }
        }
    }
}

/// Adds the line of a row, from the one of its link that is kept.
fn push_line(
    text: &mut String,
    kept: &mut Option<LinkLine>,
    row: &Row,
    link: &Link,
) -> Result<(), AllocError> {
    let Some(line) = kept else {
        return Ok(());
    };
    line.follow(row, link)?;
    line.push_row(text, row, link)
}

/// Draws the run of a link job: the names of the columns, the link at its start, and a line for
/// each event with the link after it. All but the last of the text is written; that is handed out.
///
/// Whoever replayed the run knows that its start is lawful, so nothing but memory is refused.
pub fn write_run<W: Write>(
    alloc: Global,
    writer: &mut W,
    job: &LinkJob,
) -> Result<String, OutputFault>
    requires lawful { IsLawful job.now.params job.now.start }
{
    let mut lines = Lines::new(alloc, writer, HEAD, None)?;
    let taken = take_link_run(alloc, job, &mut lines);
    lines.last(taken)
}

/// Draws the run of a job's schedule: the names of the columns, each link at its start, and a line
/// for each event with its link after it. All but the last of the text is written; that is handed
/// out.
///
/// Whoever replayed the schedule knows that nothing but memory is refused.
pub fn write_schedule_run<W: Write>(
    alloc: Global,
    writer: &mut W,
    job: &Job,
) -> Result<String, OutputFault>
    requires replayed { IsReplayed job.now }
{
    let mut lines = Lines::new(alloc, writer, TREE_HEAD, Some(job.tree()))?;
    let taken = take_schedule_run(alloc, job, &mut lines);
    lines.last(taken)
}
