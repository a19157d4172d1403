ghost use Rattle.std.specs.Prelude.{All, IfErr, OnOk};
ghost use Rattle.stab_core.specs.Link.{IsReason};
ghost use Rattle.stab_core.specs.Replay.{IsLawful};
ghost use Rattle.stab_job.specs.JobValues.{network};
ghost use Rattle.stab_job.specs.Replays.{IsReplayReason};
ghost use Rattle.stab_treecore.specs.Network.{IsNetwork};
ghost use Rattle.stab_treecore.specs.Refusals.{NamesLink};

use crate::drawing::Drawing;
use crate::sheet::Sheet;
use rignolda_draw::{Row, link_rows, schedule_rows};
use stab_core::{Start, StartFault};
use stab_job::Job;
use stab_script::LinkJob;
use stab_tree::{NodeId, Tree};
use stab_treecore::TreeStartFault;
use std::alloc::{AllocError, Global};

/// The run of a link job as a picture. It refuses a start as `stab link` does.
pub fn link_picture(alloc: Global, job: &LinkJob) -> Result<String, StartFault>
    ensures lawful { OnOk result (IsLawful job.now.params job.now.start) }
    ensures refused { IfErr result (IsReason job.now.params job.now.start) }
{
    let rows = link_rows(alloc, job)?;
    let text = draw_link(alloc, job, &rows)?;
    Ok(text)
}

/// The run of a job's schedule as a picture, with its links side by side in the file order of their
/// children. It refuses what [`Job::replay`] refuses.
pub fn schedule_picture(alloc: Global, job: &Job) -> Result<String, TreeStartFault>
    ensures network { OnOk result (IsNetwork (network job.now)) }
    ensures named { OnOk result (All (NamesLink job.now.tree.parents) job.now.schedule) }
    ensures refused { IfErr result (IsReplayReason job.now) }
{
    let _tree = job.tree();
    let rows = schedule_rows(alloc, job)?;
    let text = draw_tree(alloc, job, &rows)?;
    Ok(text)
}

/// What the picture of a link shows, for those who do not see it.
const ABOUT_LINK: &str = "The two ends of a link are two vertical lines, with its frames and \
acknowledgements between them. Each row is an event with its effect.";

/// What the picture of a schedule shows, for those who do not see it.
const ABOUT_TREE: &str = "The links of a tree are side by side, each with its two ends as vertical \
lines. Each row is an event of the schedule, on the link into the node that it names.";

/// How many rows a start needs.
pub(crate) fn rows_of(start: &Start) -> u64 {
    let frames = start.frames.len().max(start.acks.len());
    frames as u64
}

/// The picture of these rows of a link.
fn draw_link(alloc: Global, job: &LinkJob, rows: &[Row]) -> Result<String, AllocError> {
    let sheet = Sheet {
        links: 1,
        start_rows: rows_of(&job.start).max(1),
        rows: rows.len() as u64,
        name: 0,
    };
    let mut drawing = Drawing::new(alloc, sheet);
    drawing.add_link(alloc, ("sender", "receiver"), "", job.params, &job.start)?;
    add_rows(alloc, &mut drawing, None, rows)?;
    drawing.end(alloc)?;
    drawing.page(alloc, "The run of a link", ABOUT_LINK)
}

/// The picture of these rows of a job.
fn draw_tree(alloc: Global, job: &Job, rows: &[Row]) -> Result<String, AllocError> {
    let mut drawing = Drawing::new(alloc, sheet_of(job, rows.len() as u64));
    add_links(alloc, &mut drawing, job)?;
    add_rows(alloc, &mut drawing, Some(job.tree()), rows)?;
    drawing.end(alloc)?;
    drawing.page(alloc, "The run of a schedule", ABOUT_TREE)
}

/// The sizes of the picture of a job with `rows` rows.
pub(crate) fn sheet_of(job: &Job, rows: u64) -> Sheet {
    let mut start_rows = 1;
    for start in job.starts() {
        start_rows = rows_of(start).max(start_rows);
    }
    let tree = job.tree();
    let mut name = 1;
    for place in 0..tree.len() {
        let letters = tree.name(NodeId::new(place)).len() as u64;
        name = letters.saturating_add(1).max(name);
    }
    Sheet {
        links: u64::from(tree.link_count()),
        start_rows,
        rows,
        name,
    }
}

/// Adds the links of a job at their starts.
pub(crate) fn add_links(alloc: Global, drawing: &mut Drawing, job: &Job) -> Result<(), AllocError> {
    let (params, tree, starts) = (job.params(), job.tree(), job.starts());
    for place in 0..tree.link_count() {
        let link = usize::from(place);
        if link < params.len() && link < starts.len() {
            let child = tree.link_child(place);
            let name = tree.name(child);
            let above = parent_name(tree, child);
            drawing.add_link(alloc, (above, name), name, params[link], &starts[link])?;
        }
    }
    Ok(())
}

/// The name of the parent of a node.
fn parent_name(tree: &Tree, child: NodeId) -> &str {
    if child.place() >= tree.len() {
        return "";
    }
    match tree.parent(child) {
        Some(parent) => tree.name(parent),
        None => "",
    }
}

/// Draws these rows.
fn add_rows(
    alloc: Global,
    drawing: &mut Drawing,
    tree: Option<&Tree>,
    rows: &[Row],
) -> Result<(), AllocError> {
    let mut number = 0u64;
    for row in rows {
        number = number.saturating_add(1);
        drawing.add_numbered(alloc, link_of(tree, row.child), number, row)?;
    }
    Ok(())
}

/// The place of the link into a node among the links that are drawn.
pub(crate) fn link_of(tree: Option<&Tree>, child: NodeId) -> usize {
    match tree {
        Some(tree) => usize::from(tree.link_place(child).unwrap_or(0)),
        None => 0,
    }
}
